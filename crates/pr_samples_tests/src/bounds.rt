//! Samples and bytes at their limits.

ghost use Rattle.std.specs.Prelude.{◌≡◌, ◌^◌, ◌≤◌, length};
ghost use Rattle.pr_samples.specs.Feed.{widths_of};

use crate::feeds::{fed_within, put_count, shelf_of};
use pr_base::Cap;
use pr_edge::MemShelf;
use pr_samples::{Feed, Got};
use std::alloc::{AllocError, Global};
use std::fmt::Write;
use std::test::Fail;

/// The bytes that are allowed at most.
const LIMIT: u64 = Cap::MOST_SAMPLE_BYTES;

/// Texts with the samples and the bytes that are allowed.
const BOUNDS: [(&str, u64, u64); 11] = [
    ("1 2\n3 4\n5 6\n", 2, LIMIT),
    ("1 2\n3 4\n\n", 2, LIMIT),
    ("1 2\n3 4\nx\n", 2, LIMIT),
    ("1 2\n", 0, LIMIT),
    ("1 2\n34 5\n", 9, 5),
    ("1 2\n34 5\n", 9, 4),
    ("1 2\n34 5\n", 9, 9),
    ("1 2\nx4 5\n", 9, 5),
    ("1 2\n3 4\r\n", 9, 8),
    ("1 2\n3\r\n", 9, 6),
    ("1 2\n3 400\n", 9, 9),
];

/// How many samples are given of each, and how they end.
const ENDINGS: &str = "\
2 Limit(Samples)
2 End
2 BadSample { line: 3 }
0 Limit(Samples)
1 Limit(SampleBytes)
1 Limit(SampleBytes)
2 End
1 BadSample { line: 2 }
1 Limit(SampleBytes)
1 BadSample { line: 2 }
1 BadSample { line: 2 }
";

fn put_bounds(alloc: Global, told: &mut String) -> Result<(), AllocError> {
    for (text, most, limit) in BOUNDS {
        let fed = fed_within(alloc, text.as_bytes(), most, limit.min(LIMIT))?;
        put_count(&fed, told)?;
    }
    Ok(())
}

#[test]
fn table_of_bounds(rt: HostRuntime) -> Result<(), Fail> {
    let mut told = String::new(rt.alloc());
    put_bounds(rt.alloc(), &mut told)?;
    assert_eq!(rt; told.as_str(), ENDINGS);
    Ok(())
}

/// Appends what is answered to the bad first line of a file, and whether the file has more than so many bytes.
fn put_past(alloc: Global, limit: u64, told: &mut String) -> Result<(), Fail>
    requires { limit ≤ 2 ^ 44 }
{
    let mut shelf = shelf_of(alloc, b"x\n1 2\n3 4")?;
    let mut feed = Feed::make_bounded(alloc, "s", &[8, 8], 9, limit)?;
    let got = feed.next(&mut shelf, &mut [0; 2]);
    let is_long = feed.is_too_long(&mut shelf)?;
    writeln!(told, "{limit} {got:?} {is_long}")?;
    Ok(())
}

const PAST: &str = "\
8 BadSample { line: 1 } true
9 BadSample { line: 1 } false
10 BadSample { line: 1 } false
";

#[test]
fn files_past_the_limit(rt: HostRuntime) -> Result<(), Fail> {
    let mut told = String::new(rt.alloc());
    for limit in [8, 9, 10] {
        put_past(rt.alloc(), limit, &mut told)?;
    }
    assert_eq!(rt; told.as_str(), PAST);
    Ok(())
}

/// Appends the next sample of a feed with one input, or how its samples end, and then how many it has given.
fn put_next(shelf: &mut MemShelf, feed: &mut Feed, told: &mut String) -> Result<(), AllocError>
    requires { length (widths_of feed.old) ≡ 1 }
    ensures { length (widths_of feed.new) ≡ 1 }
{
    let mut into = [0];
    match feed.next(shelf, &mut into) {
        Got::Sample => write!(told, "{}", into[0])?,
        got => write!(told, "{got:?}")?,
    }
    writeln!(told, ", {} given", feed.given())
}

const GIVEN: &str = "\
340282366920938463463374607431768211455, 1 given
Limit(Samples), 1 given
";

#[test]
fn within_counts_what_was_given(rt: HostRuntime) -> Result<(), Fail> {
    let mut shelf = shelf_of(rt.alloc(), b"340282366920938463463374607431768211455\n1\n")?;
    let mut feed = Feed::make_within(rt.alloc(), "s", &[128], 1)?;
    let mut told = String::new(rt.alloc());
    put_next(&mut shelf, &mut feed, &mut told)?;
    put_next(&mut shelf, &mut feed, &mut told)?;
    assert_eq!(rt; told.as_str(), GIVEN);
    Ok(())
}
