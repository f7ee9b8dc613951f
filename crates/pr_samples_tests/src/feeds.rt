//! What feeds give.

ghost use Rattle.std.specs.Prelude.{◌≡◌, ◌^◌, ◌≤◌, length};
ghost use Rattle.pr_samples.specs.Feed.{widths_of};

use crate::slow::SlowShelf;
use crate::told::put_file;
use pr_base::Num;
use pr_edge::{MemShelf, Shelf};
use pr_samples::{Feed, Got};
use std::alloc::{AllocError, Global};
use std::fmt::Write;

/// The samples that a feed gave, as pairs, and how they end.
pub(crate) type Fed = (Vec<(Num, Num)>, Got);

/// A shelf with this text as the file `s`.
pub(crate) fn shelf_of(alloc: Global, text: &[u8]) -> Result<MemShelf, AllocError> {
    let mut files = Vec::new(alloc);
    put_file(alloc, &mut files, "s", text)?;
    MemShelf::make(alloc, files, Vec::new(alloc))
}

/// The next sample of a feed with two inputs.
fn next_pair<S: Shelf>(shelf: &mut S, feed: &mut Feed) -> (Got, (Num, Num))
    requires { length (widths_of feed.old) ≡ 2 }
    ensures { length (widths_of feed.new) ≡ 2 }
{
    let mut into = [0; 2];
    let got = feed.next(shelf, &mut into);
    (got, (into[0], into[1]))
}

/// All samples of a feed with two inputs.
fn collect<S: Shelf>(alloc: Global, shelf: &mut S, feed: &mut Feed) -> Result<Fed, AllocError>
    requires { length (widths_of feed.old) ≡ 2 }
{
    let mut pairs = Vec::new(alloc);
    for _ in 0..1_000_000 {
        match next_pair(shelf, feed) {
            (Got::Sample, pair) => pairs.push(pair)?,
            (got, _) => return Ok((pairs, got)),
        }
    }
    Ok((pairs, Got::Sample))
}

/// The samples of a text with two inputs of 8 bits, of which so many samples and bytes are allowed.
pub(crate) fn fed_within(
    alloc: Global,
    text: &[u8],
    most: u64,
    limit: u64,
) -> Result<Fed, AllocError>
    requires { limit ≤ 2 ^ 44 }
{
    let mut feed = Feed::make_bounded(alloc, "s", &[8, 8], most, limit)?;
    collect(alloc, &mut shelf_of(alloc, text)?, &mut feed)
}

/// The same with the limits of the product.
pub(crate) fn fed(alloc: Global, text: &[u8]) -> Result<Fed, AllocError> {
    let mut feed = Feed::make(alloc, "s", &[8, 8])?;
    collect(alloc, &mut shelf_of(alloc, text)?, &mut feed)
}

/// The samples of a text over a slow shelf.
pub(crate) fn fed_slowly(
    alloc: Global,
    text: &[u8],
    most: usize,
    failing: u64,
) -> Result<Fed, AllocError> {
    let mut feed = Feed::make(alloc, "s", &[8, 8])?;
    let mut shelf = SlowShelf::make(alloc, text, most, failing)?;
    collect(alloc, &mut shelf, &mut feed)
}

/// Appends the samples, and how they end.
pub(crate) fn put_pairs(fed: &Fed, told: &mut String) -> Result<(), AllocError> {
    for (a, b) in &fed.0 {
        write!(told, "({a}, {b}) ")?;
    }
    writeln!(told, "{:?}", fed.1)
}

/// Appends how many samples there are, and how they end.
pub(crate) fn put_count(fed: &Fed, told: &mut String) -> Result<(), AllocError> {
    writeln!(told, "{} {:?}", fed.0.len(), fed.1)
}
