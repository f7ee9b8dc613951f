//! Where the units of a net are placed, and the file of the net when it is routed.

use crate::{placing, routed};
use pr_code::encode;
use pr_place::Home;
use std::test::Fail;

/// The file of the exclusive or of two inputs on 16 columns of 8 registers.
const XOR: [u32; 23] = [
    0x50495032, 0x00100008, 0x00000002, 0x00000002, 0x00000008, 0x00000008, 0x00000001, 0x00000008,
    0x00001002, 0x00000003, 0x40000000, 0x00000000, 0xaaff0000, 0x00010000, 0x40010000, 0x00000000,
    0xaaff0000, 0x00010000, 0x00000001, 0x10011011, 0x00000000, 0x66ff0000, 0x00020000,
];

#[test]
fn the_exclusive_or_has_its_file(rt: HostRuntime) -> Result<(), Fail> {
    let conf = routed::xor(rt.alloc())?;
    let mut bytes = Vec::new(rt.alloc());
    for word in &XOR {
        bytes.extend_from_slice(&word.to_be_bytes())?;
    }
    assert_eq!(rt; encode(rt.alloc(), &conf)?.as_slice(), bytes.as_slice());
    Ok(())
}

fn is_home(home: &Home, stage: u32, col: u8, reg: u8) -> bool {
    home.stage == stage && home.col == col && home.regs.as_slice() == [reg].as_slice()
}

#[test]
fn inputs_stand_before_what_reads_them(rt: HostRuntime) -> Result<(), Fail> {
    let placement = placing::xor(rt.alloc())?;
    assert!(rt; placement.stages == 2);
    assert!(rt; placement.homes.len() == 3);
    assert!(rt; is_home(&placement.homes[0], 0, 0, 1));
    assert!(rt; is_home(&placement.homes[1], 0, 1, 1));
    assert!(rt; is_home(&placement.homes[2], 1, 0, 2));
    Ok(())
}
