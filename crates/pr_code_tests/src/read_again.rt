//! What is read is written again.

ghost use Rattle.std.specs.Prelude.{◌≤◌};

use crate::files::{MARK, PACKED, file, plain};
use pr_base::Fabric;
use pr_code::{decode, encode, fabric_of, read_mark, write_mark};
use std::alloc::{AllocError, Global};
use std::process::Abort;

/// A file of 64 columns, whose map has two words.
const MANY_COLUMNS: [u32; 14] = [
    0x50495032, 0x00400004, 1, 1, 8, 1, 8, 0x00001211, 0, 2, 0x40000000, 0, 0xaaff0000, 0x00010000,
];

/// A file of four columns.
const FEW_COLUMNS: [u32; 13] = [
    0x50495032, 0x00040004, 1, 1, 8, 1, 8, 0x00001011, 2, 0x40000000, 0, 0xaaff0000, 0x00010000,
];

/// The file that is written again for one of these words; nothing where that is refused.
fn again<const N: usize, const P: usize>(
    alloc: Global,
    words: &[u32],
) -> Result<Vec<u8>, AllocError>
    requires columns { 1 ≤ N }
    requires most_columns { N ≤ 64 }
    requires registers { 2 ≤ P }
    requires most_registers { P ≤ 16 }
{
    let bytes = file(alloc, words)?;
    match decode::<N, P>(alloc, &bytes) {
        Ok(conf) => encode(alloc, &conf),
        Err(_) => Ok(Vec::new(alloc)),
    }
}

/// The checkpoint that is written again for one of these words, if it is of one sample; nothing otherwise.
fn mark_again(alloc: Global, words: &[u32]) -> Result<Vec<u8>, AllocError> {
    let bytes = file(alloc, words)?;
    match read_mark::<16, 8>(alloc, &bytes) {
        Ok((1, conf)) => write_mark(alloc, 1, &conf),
        _ => Ok(Vec::new(alloc)),
    }
}

/// Checks that what is written has these words.
fn check_written(
    rt: &impl Abort,
    alloc: Global,
    written: Vec<u8>,
    words: &[u32],
) -> Result<(), AllocError> {
    let wanted = file(alloc, words)?;
    assert!(rt; written.as_slice() == wanted.as_slice());
    Ok(())
}

#[test]
fn both_formats_are_read_and_one_is_written(rt: HostRuntime) -> Result<(), AllocError> {
    let alloc = rt.alloc();
    check_written(&rt, alloc, again::<16, 8>(alloc, &plain(alloc)?)?, &PACKED)?;
    check_written(&rt, alloc, again::<16, 8>(alloc, &PACKED)?, &PACKED)
}

fn check_fabric(rt: &impl Abort, bytes: &[u8], fabric: Fabric) {
    assert_eq!(rt; fabric_of(bytes), fabric, "{bytes:?}");
}

#[test]
fn a_file_names_its_fabric(rt: HostRuntime) -> Result<(), AllocError> {
    check_fabric(&rt, &file(rt.alloc(), &PACKED)?, Fabric::Base);
    check_fabric(&rt, b"PIP2\x00\x20\x00\x10", Fabric::Wide);
    check_fabric(&rt, b"PIP2\x00\x20\x00", Fabric::Base);
    Ok(())
}

#[test]
fn many_columns_have_a_map_of_two_words(rt: HostRuntime) -> Result<(), AllocError> {
    let alloc = rt.alloc();
    check_written(
        &rt,
        alloc,
        again::<64, 4>(alloc, &MANY_COLUMNS)?,
        &MANY_COLUMNS,
    )?;
    check_written(
        &rt,
        alloc,
        again::<4, 4>(alloc, &FEW_COLUMNS)?,
        &FEW_COLUMNS,
    )
}

#[test]
fn a_checkpoint_is_read_and_written_again(rt: HostRuntime) -> Result<(), AllocError> {
    let alloc = rt.alloc();
    check_written(&rt, alloc, mark_again(alloc, &MARK)?, &MARK)
}
