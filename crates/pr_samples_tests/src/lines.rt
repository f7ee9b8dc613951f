//! Samples line by line, and how they end.

use crate::feeds::{fed, fed_slowly, put_count, put_pairs};
use pr_samples::Got;
use std::alloc::{AllocError, Global};
use std::fmt::Write;
use std::test::Fail;

/// Appends the samples of a text, and how they end.
fn put_fed(alloc: Global, text: &[u8], told: &mut String) -> Result<(), AllocError> {
    let fed = fed(alloc, text)?;
    put_pairs(&fed, told)
}

/// Appends the samples of a text that is read at most so many bytes at a time, where one read may fail.
fn put_slow(
    alloc: Global,
    text: &[u8],
    most: usize,
    failing: u64,
    told: &mut String,
) -> Result<(), AllocError> {
    let fed = fed_slowly(alloc, text, most, failing)?;
    put_pairs(&fed, told)
}

/// Blanks and line ends of all kinds. Nothing is read after the byte at which a line is bad: a second read would fail.
fn put_texts(alloc: Global, told: &mut String) -> Result<(), AllocError> {
    put_fed(alloc, b"5\t3\r\n\r\n 255 1", told)?;
    for most in [1, 3, 65_536] {
        put_slow(alloc, b"5 3\r\n\n 255 1\n17 4", most, 0, told)?;
    }
    put_fed(alloc, b"5 3\n255 1\n7 x\n1 1\n2 2\n", told)?;
    put_slow(alloc, b"5 3\nx", 65_536, 2, told)
}

/// A number with very many noughts before it.
fn put_long_line(alloc: Global, told: &mut String) -> Result<(), AllocError> {
    let mut text = vec![in alloc; b'0'; 200_000]?;
    text.extend_from_slice(b"5 3")?;
    put_fed(alloc, &text, told)
}

const SAMPLES: &str = "\
(5, 3) (255, 1) End
(5, 3) (255, 1) (17, 4) End
(5, 3) (255, 1) (17, 4) End
(5, 3) (255, 1) (17, 4) End
(5, 3) (255, 1) BadSample { line: 3 }
(5, 3) BadSample { line: 2 }
(5, 3) End
";

#[test]
fn loose_bad_and_long_lines(rt: HostRuntime) -> Result<(), Fail> {
    let mut told = String::new(rt.alloc());
    put_texts(rt.alloc(), &mut told)?;
    put_long_line(rt.alloc(), &mut told)?;
    assert_eq!(rt; told.as_str(), SAMPLES);
    Ok(())
}

/// Third lines that are samples.
const SAMPLE: [&str; 7] = [
    "5 3\n",
    " \t5\t  3 \t\r\n",
    "0005 00000000000000000000000000000000000000000000000000000000000003\n",
    "255 0\n",
    "5 3\t\n",
    "5 3",
    "5 3\r",
];

/// Third lines that are blank.
const BLANK: [&str; 4] = ["\r\n", " \t \r\n", "\t ", "\r"];

/// Third lines that are neither.
const BAD: [&str; 13] = [
    "5\n",
    "5 3 1\n",
    "+5 3\n",
    "-1 3\n",
    "5,3\n",
    "256 1\n",
    "100000000000000000000000000000000000000000000000000000000000 1\n",
    "5 3\r\r\n",
    "5\r3\n",
    "\r5 3\n",
    "5\0 3\n",
    "5 0x3\n",
    "5 3x",
];

/// Appends the lines which, after two lines of which the second is blank, do not give so many samples and this end.
fn put_others(
    alloc: Global,
    lines: &[&str],
    count: usize,
    ending: Got,
    told: &mut String,
) -> Result<(), AllocError> {
    for line in lines {
        let mut text = Vec::from_slice(alloc, b"1 2\n \n")?;
        text.extend_from_slice(line.as_bytes())?;
        let fed = fed(alloc, &text)?;
        if fed.0.len() != count || fed.1 != ending {
            write!(told, "{line:?} gives ")?;
            put_count(&fed, told)?;
        }
    }
    Ok(())
}

#[test]
fn table_of_lines(rt: HostRuntime) -> Result<(), Fail> {
    let mut others = String::new(rt.alloc());
    put_others(rt.alloc(), &SAMPLE, 2, Got::End, &mut others)?;
    put_others(rt.alloc(), &BLANK, 1, Got::End, &mut others)?;
    let bad = Got::BadSample { line: 3 };
    put_others(rt.alloc(), &BAD, 1, bad, &mut others)?;
    assert_eq!(rt; others.as_str(), "");
    Ok(())
}

/// So many times the same line.
fn repeated(alloc: Global, line: &[u8], count: usize) -> Result<Vec<u8>, AllocError> {
    let mut text = Vec::new(alloc);
    for _ in 0..count {
        text.extend_from_slice(line)?;
    }
    Ok(text)
}

/// Appends how many samples were given before a read failed.
fn put_fault(
    alloc: Global,
    text: &[u8],
    most: usize,
    failing: u64,
    told: &mut String,
) -> Result<(), AllocError> {
    let fed = fed_slowly(alloc, text, most, failing)?;
    put_count(&fed, told)
}

/// For each of the first five reads that fails, what a long text gives and what a short one that is read byte by byte.
fn put_faults(alloc: Global, told: &mut String) -> Result<(), AllocError> {
    let text = repeated(alloc, b"5 3\n", 75_000)?;
    for failing in 1..6 {
        put_fault(alloc, &text, 65_536, failing, told)?;
        put_fault(alloc, b"5 3\n255 1\n", 1, failing, told)?;
    }
    Ok(())
}

const FAULTS: &str = "\
0 ReadFault
0 ReadFault
16384 ReadFault
0 ReadFault
32768 ReadFault
0 ReadFault
49152 ReadFault
0 ReadFault
65536 ReadFault
1 ReadFault
";

#[test]
fn read_fails(rt: HostRuntime) -> Result<(), Fail> {
    let mut told = String::new(rt.alloc());
    put_faults(rt.alloc(), &mut told)?;
    assert_eq!(rt; told.as_str(), FAULTS);
    Ok(())
}
