//! A configuration of one column.

use pr_conf::{Configuration, Output, Pe, Source, Stage, Tap};
use std::alloc::{AllocError, Global};
use std::test::Fail;

/// A processing element that writes its A to register 1.
fn copy_of(source: Source) -> Pe {
    Pe {
        a: source,
        table: 0xaa,
        mask: 0xff,
        write: 1,
        ..Pe::IDLE
    }
}

/// One stage of one column that shows a source of it as the output.
fn one_column(alloc: Global, source: Source) -> Result<Option<Configuration<1, 2>>, AllocError> {
    let pes = vec![in alloc; copy_of(source)]?;
    let stages = vec![in alloc; Stage { pes }]?;
    let taps = vec![in alloc; Tap::Reg { col: 0, reg: 1 }]?;
    let outputs = vec![in alloc; Output { width: 8, taps }]?;
    let inputs = vec![in alloc; 8]?;
    Ok(Configuration::of(inputs, outputs, stages))
}

/// Whether there is a configuration of one stage, with a byte in a sample and a byte in a result.
fn is_of_one_byte(alloc: Global) -> Result<bool, AllocError> {
    Ok(match one_column(alloc, Source::Bus(0))? {
        Some(conf) => conf.sample_bytes() == 1 && conf.result_bytes() == 1 && conf.stages() == 1,
        None => false,
    })
}

#[test]
fn a_configuration_is_made_of_lawful_parts_alone(rt: HostRuntime) -> Result<(), Fail> {
    assert!(rt; is_of_one_byte(rt.alloc())?);
    assert!(rt; one_column(rt.alloc(), Source::Bus(1))?.is_none());
    Ok(())
}

/// Whether a processing element has another state to begin with, and is else what it was.
fn is_begun(alloc: Global, state: u8) -> Result<bool, AllocError> {
    let Some(mut conf) = one_column(alloc, Source::Bus(0))? else {
        return Ok(false);
    };
    conf.begin(0, &[state]);
    let mut expected = copy_of(Source::Bus(0));
    expected.init = state;
    Ok(conf.stages[0].pes[0] == expected)
}

#[test]
fn a_stage_begins_in_the_state_that_it_is_given(rt: HostRuntime) -> Result<(), Fail> {
    assert!(rt; is_begun(rt.alloc(), 7)?);
    Ok(())
}
