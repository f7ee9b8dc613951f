//! A running sum and a complement that take turns on two stripes.

ghost use Rattle.std.specs.Prelude.{◌≤◌, IfOk};
ghost use Rattle.pr_share.specs.Items.{IsReady};

use pr_conf::{Bit, Carry, Configuration, Mode, Next, Output, Pe, Source, Stage, Tap};
use pr_edge::{MemShelf, MemSink};
use pr_machine::{Bare, Machine, Parked};
use pr_run::Room;
use pr_samples::{Feed, Got};
use pr_share::{ShareEnd, ShareItem, share};
use std::alloc::{AllocError, Global};
use std::process::Abort;
use std::test::Fail;

/// A processing element that looks up the bits of A and B in a table and writes to register 1.
fn lookup(a: Source, b: Source, table: u8) -> Pe {
    Pe {
        a,
        hi: b,
        lo: Source::Const(0),
        shift: 0,
        c: Bit::None,
        table,
        mode: Mode::Plain,
        cin: Carry::Zero,
        mask: 0xff,
        next: Next::Keep,
        init: 0,
        write: 1,
    }
}

/// A stage with this processing element in column 0, and idle ones.
fn stage_of(alloc: Global, first: Pe) -> Result<Stage<16>, AllocError> {
    let idle = Pe {
        table: 0,
        write: 0,
        ..lookup(Source::Const(0), Source::Const(0), 0)
    };
    let mut pes = vec![in alloc; idle; 16]?;
    pes[0] = first;
    Ok(Stage { pes })
}

/// A first stage with this processing element, and so many stages that pass its byte on.
fn configuration(
    rt: &impl Abort,
    alloc: Global,
    first: Pe,
    passing: usize,
) -> Result<Configuration<16, 8>, AllocError> {
    let mut stages = vec![in alloc; stage_of(alloc, first)?]?;
    for _ in 0..passing {
        let pass = lookup(Source::Prev { col: 0, reg: 1 }, Source::Const(0), 0xaa);
        stages.push(stage_of(alloc, pass)?)?;
    }
    let taps = vec![in alloc; Tap::Reg { col: 0, reg: 1 }]?;
    let outputs = vec![in alloc; Output { width: 8, taps }]?;
    let inputs = vec![in alloc; 8]?;
    Ok(Configuration::of(inputs, outputs, stages).expect(rt, "lawful parts"))
}

/// The sum of all samples so far.
fn running_sum() -> Pe {
    Pe {
        mode: Mode::Sum,
        next: Next::Output,
        ..lookup(Source::State(0), Source::Bus(0), 0xcc)
    }
}

/// The complement of the sample.
fn complement() -> Pe {
    lookup(Source::Bus(0), Source::Const(0), 0x55)
}

/// A program that can begin, with the samples of a file.
#[tactic(auto, using(crate::proofs::Ready::is_ready))]
fn item(
    alloc: Global,
    conf: Configuration<16, 8>,
    name: &str,
    quota: u32,
) -> Result<ShareItem<16, 8>, AllocError>
    requires { 1 ≤ quota }
    ensures { IfOk result (λ x. IsReady x) }
{
    let feed = Feed::make(alloc, name, &conf.inputs)?;
    let parked = match Parked::make(alloc, conf) {
        Ok(parked) => parked,
        Err(_) => return Err(AllocError),
    };
    Ok(ShareItem {
        parked: Some(parked),
        feed,
        quota,
        ended: None,
    })
}

/// The state in column 0 that the first stage begins with.
fn first_state(item: &ShareItem<16, 8>) -> Option<u8> {
    item.parked
        .as_ref()
        .and_then(|parked| parked.conf().stages.get(0))
        .and_then(|stage| stage.pes.get(0))
        .map(|pe| pe.init)
}

/// What two programs come to that take turns on two stripes.
#[tactic(auto, using(crate::proofs::Ready::both_ready))]
fn outcome(
    alloc: Global,
    first: ShareItem<16, 8>,
    second: ShareItem<16, 8>,
    shelf: &mut MemShelf,
    out: &mut MemSink,
) -> Result<(ShareEnd, Vec<ShareItem<16, 8>>), AllocError>
    requires first { IsReady first }
    requires second { IsReady second }
{
    let mut parts = vec![in alloc; first, second]?;
    let mut room = Room::make(alloc)?;
    let machine = Machine::<16, 8, Bare>::make(alloc, 2)?;
    let end = share(machine, &mut parts, shelf, out, &mut room);
    Ok((end, parts))
}

/// How the samples of a program ended, and the state in which its first stage begins.
fn state_of(parts: &[ShareItem<16, 8>], number: usize) -> Option<(Option<Got>, Option<u8>)> {
    parts
        .get(number)
        .map(|item| (item.ended, first_state(item)))
}

/// The files of a program that sums its samples, and of one that complements them.
fn shelf_of(alloc: Global, faults: Vec<u64>) -> Result<MemShelf, AllocError> {
    let files = vec![in alloc;
        (
            String::from_str(alloc, "a")?,
            Vec::from_slice(alloc, b"1\n2\n3\n4\n5\n")?
        ),
        (
            String::from_str(alloc, "b")?,
            Vec::from_slice(alloc, b"1\n2\nx\n")?
        ),
    ]?;
    MemShelf::make(alloc, files, faults)
}

/// What the two programs come to, with quotas of 2 and 1, where these calls of the shelf and of the sink fail.
fn shared(
    rt: &impl Abort,
    alloc: Global,
    reads: Vec<u64>,
    writes: Vec<u64>,
) -> Result<(ShareEnd, Vec<ShareItem<16, 8>>, MemSink), AllocError> {
    let mut shelf = shelf_of(alloc, reads)?;
    let mut out = MemSink::make(alloc, 100, writes)?;
    let first = item(alloc, configuration(rt, alloc, running_sum(), 4)?, "a", 2)?;
    let second = item(alloc, configuration(rt, alloc, complement(), 2)?, "b", 1)?;
    let (end, parts) = outcome(alloc, first, second, &mut shelf, &mut out)?;
    Ok((end, parts, out))
}

/// All lines of the two programs.
const LINES: &[u8] = b"0: 1\n0: 3\n1: 254\n0: 6\n0: 10\n1: 253\n0: 15\n";

#[test]
fn each_program_goes_on_from_its_state(rt: HostRuntime) -> Result<(), Fail> {
    let alloc = rt.alloc();
    let (end, parts, out) = shared(&rt, alloc, Vec::new(alloc), Vec::new(alloc))?;
    assert_eq!(rt; end, ShareEnd::Done);
    assert!(rt; out.bytes() == LINES);
    assert_eq!(rt; state_of(&parts, 0), Some((Some(Got::End), Some(15))));
    assert_eq!(rt;
        state_of(&parts, 1),
        Some((Some(Got::BadSample { line: 3 }), Some(0)))
    );
    Ok(())
}

/// The first call reads the first program's samples.
#[test]
fn a_read_fault_ends_one_program(rt: HostRuntime) -> Result<(), Fail> {
    let alloc = rt.alloc();
    let (end, parts, out) = shared(&rt, alloc, vec![in alloc; 1]?, Vec::new(alloc))?;
    assert_eq!(rt; end, ShareEnd::Done);
    assert!(rt; out.bytes() == b"1: 254\n1: 253\n".as_slice());
    assert_eq!(rt; state_of(&parts, 0), Some((Some(Got::ReadFault), Some(0))));
    assert_eq!(rt;
        state_of(&parts, 1),
        Some((Some(Got::BadSample { line: 3 }), Some(0)))
    );
    Ok(())
}

#[test]
fn each_write_fault_leaves_a_front(rt: HostRuntime) -> Result<(), Fail> {
    let alloc = rt.alloc();
    for call in 1..=7 {
        let (end, parts, out) = shared(&rt, alloc, Vec::new(alloc), vec![in alloc; call]?)?;
        assert_eq!(rt; end, ShareEnd::WriteFault);
        assert!(rt; LINES.starts_with(out.bytes()) && out.bytes().len() < LINES.len());
        let parked = parts.iter().filter(|item| item.parked.is_some()).count();
        assert_eq!(rt; parked, 1);
    }
    Ok(())
}
