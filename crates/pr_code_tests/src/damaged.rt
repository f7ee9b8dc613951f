//! Files and checkpoints with other words, with a byte more and with a byte less.

use crate::files::{MARK, PACKED, file, plain, with_word};
use pr_code::{CodeFault, decode, read_mark};
use std::alloc::{AllocError, Global};
use std::process::Abort;

/// A rule and a place.
type Refusal = (u8, u32);

/// The place of a word, another word, and how the file with this word is refused.
type Damage = (usize, u32, Option<Refusal>);

const PLAIN_DAMAGES: [Damage; 17] = [
    (0, 0x50495030, Some((2, 0))),
    (1, 0x00100007, Some((3, 1))),
    (2, 0, Some((4, 2))),
    (2, 0x00008001, Some((4, 2))),
    (2, 3, Some((1, 137))),
    (2, 1, Some((7, 73))),
    (3, 0x00000011, Some((4, 3))),
    (4, 0x00000041, Some((4, 4))),
    (8, 0x00001008, Some((5, 8))),
    (8, 0x00001000, Some((5, 8))),
    (9, 0x40020000, Some((6, 9))),
    (9, 0x10010000, Some((6, 9))),
    (11, 0xaaff0001, Some((6, 11))),
    (12, 0x00080000, Some((6, 12))),
    (12, 0x00010200, Some((6, 12))),
    (12, 0x00010300, Some((6, 12))),
    (16, 0x00010200, None),
];

const PACKED_DAMAGES: [Damage; 6] = [
    (9, 0x00000007, Some((6, 19))),
    (9, 0x00010003, Some((8, 9))),
    (4, 0x00000041, None),
    (4, 0x00000080, Some((4, 5))),
    (4, 0x00000081, Some((4, 4))),
    (0, 0x50495033, Some((2, 0))),
];

/// The file with maps, of which one says that an element is set that has no words but 0.
const NEEDLESS: [u32; 23] = [
    0x50495032, 0x00100008, 0x00000002, 0x00000002, 0x00000008, 0x00000008, 0x00000001, 0x00000008,
    0x00001002, 0x00000003, 0x00000000, 0x00000000, 0x00000000, 0x00000000, 0x40010000, 0x00000000,
    0xaaff0000, 0x00010000, 0x00000001, 0x10011011, 0x00000000, 0x66ff0000, 0x00020000,
];

const MARK_DAMAGES: [Damage; 3] = [
    (0, 0x50495032, Some((9, 0))),
    (3, 0x50495031, Some((2, 3))),
    (1, 0x00000101, Some((10, 2))),
];

/// The rule and the place of a refusal.
fn refused(fault: CodeFault) -> Result<Option<Refusal>, AllocError> {
    match fault {
        CodeFault::BadConfig { rule, place } => Ok(Some((rule, place))),
        CodeFault::Memory(error) => Err(error),
    }
}

/// How a file is refused on 16 columns of 8 registers.
fn refusal(alloc: Global, bytes: &[u8]) -> Result<Option<Refusal>, AllocError> {
    match decode::<16, 8>(alloc, bytes) {
        Ok(_) => Ok(None),
        Err(fault) => refused(fault),
    }
}

/// How a checkpoint is refused.
fn mark_refusal(alloc: Global, bytes: &[u8]) -> Result<Option<Refusal>, AllocError> {
    match read_mark::<16, 8>(alloc, bytes) {
        Ok(_) => Ok(None),
        Err(fault) => refused(fault),
    }
}

/// Checks how a file is refused of which one word is another.
fn check_damage(rt: &impl Abort, came: Option<Refusal>, damage: &Damage) {
    let (place, word, answer) = damage;
    assert_eq!(rt; came, *answer, "word {place} is {word}");
}

/// Checks how files are refused.
fn check_damages(
    rt: &impl Abort,
    alloc: Global,
    words: &[u32],
    damages: &[Damage],
) -> Result<(), AllocError> {
    for damage in damages {
        let bytes = with_word(alloc, words, damage.0, damage.1)?;
        check_damage(rt, refusal(alloc, &bytes)?, damage);
    }
    Ok(())
}

/// Checks how checkpoints are refused.
fn check_mark_damages(rt: &impl Abort, alloc: Global) -> Result<(), AllocError> {
    for damage in &MARK_DAMAGES {
        let bytes = with_word(alloc, &MARK, damage.0, damage.1)?;
        check_damage(rt, mark_refusal(alloc, &bytes)?, damage);
    }
    Ok(())
}

/// Checks how a file or a checkpoint of so many bytes is refused.
fn check_length(rt: &impl Abort, came: Option<Refusal>, wanted: Refusal, length: usize) {
    assert_eq!(rt; came, Some(wanted), "{length} bytes");
}

/// Checks how a file is refused.
fn check_file(
    rt: &impl Abort,
    alloc: Global,
    bytes: &[u8],
    wanted: Refusal,
) -> Result<(), AllocError> {
    check_length(rt, refusal(alloc, bytes)?, wanted, bytes.len());
    Ok(())
}

#[test]
fn damaged_words_are_refused(rt: HostRuntime) -> Result<(), AllocError> {
    let alloc = rt.alloc();
    check_damages(&rt, alloc, &plain(alloc)?, &PLAIN_DAMAGES)?;
    check_damages(&rt, alloc, &PACKED, &PACKED_DAMAGES)?;
    check_file(&rt, alloc, &file(alloc, &NEEDLESS)?, (8, 13))
}

/// Checks how the file of these words is refused with a byte more, and with a byte less.
fn check_ends(
    rt: &impl Abort,
    alloc: Global,
    words: &[u32],
    long: Refusal,
    short: Refusal,
) -> Result<(), AllocError> {
    let mut bytes = file(alloc, words)?;
    bytes.push(0)?;
    check_file(rt, alloc, &bytes, long)?;
    bytes.pop();
    bytes.pop();
    check_file(rt, alloc, &bytes, short)
}

#[test]
fn a_file_ends_with_its_last_word(rt: HostRuntime) -> Result<(), AllocError> {
    let alloc = rt.alloc();
    check_file(&rt, alloc, &[], (1, 0))?;
    check_file(&rt, alloc, b"PIP", (1, 0))?;
    check_ends(&rt, alloc, &plain(alloc)?, (7, 137), (1, 136))?;
    check_ends(&rt, alloc, &PACKED, (7, 23), (1, 22))
}

/// Checks how a checkpoint is refused with a byte less.
fn check_short_mark(rt: &impl Abort, alloc: Global) -> Result<(), AllocError> {
    let mut bytes = file(alloc, &MARK)?;
    bytes.pop();
    check_length(rt, mark_refusal(alloc, &bytes)?, (1, 24), bytes.len());
    Ok(())
}

#[test]
fn damaged_checkpoints_are_refused(rt: HostRuntime) -> Result<(), AllocError> {
    check_mark_damages(&rt, rt.alloc())?;
    check_short_mark(&rt, rt.alloc())
}
