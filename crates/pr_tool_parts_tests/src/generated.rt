//! Generated programs and samples.

use pr_gen::{program_of, samples_of};
use std::test::Fail;

#[test]
fn program_of_one_turn(rt: HostRuntime) -> Result<(), Fail> {
    let text = program_of(rt.alloc(), 1)?;
    let wanted =
        b"input x:16;\nconst c = [48];\nlet t[0] = x;\nfor i in 1..2 { let t[i]:16 = (t[i-1] + c[i-1]) ^ t[i-1]@1; }\noutput y = t[1];\n";
    assert_eq!(rt; text.as_slice(), wanted.as_slice());
    Ok(())
}

#[test]
fn table_of_seven_turns(rt: HostRuntime) -> Result<(), Fail> {
    let text = program_of(rt.alloc(), 7)?;
    let front = b"input x:16;\nconst c = [48, 85, 122, 159, 196, 233, 14];\n";
    let end = b"output y = t[7];\n";
    assert!(rt; text.as_slice().starts_with(front));
    assert!(rt; text.as_slice().ends_with(end));
    Ok(())
}

#[test]
fn first_and_last_sample(rt: HostRuntime) -> Result<(), Fail> {
    let text = samples_of(rt.alloc(), 1)?;
    let front = b"12345\n52848\n27815\n";
    let end = b"\n64163\n39130\n";
    assert!(rt; text.as_slice().starts_with(front));
    assert!(rt; text.as_slice().ends_with(end));
    let lines = text.iter().filter(|b| **b == b'\n').count();
    assert_eq!(rt; lines, 1000);
    Ok(())
}
