//! Inputs and outputs that are too many.

ghost use Rattle.std.specs.Prelude.{◌≡◌, ◌<◌, length};
ghost use Rattle.pr_lang.specs.declared.tokens.Keyword.TheVariants.{Input, Output};
ghost use Rattle.pr_lens_fits.specs.Ends.{BeginsWith, PassesWith, amount_of, input_bytes, output_count, width_bytes, word_of};

use pr_lang::{Keyword, Kind};
use pr_lens_source::Source;

/// What a program can have too much of.
#[derive(Clone, Copy)]
enum Counted {
    /// The bytes of the inputs in a sample.
    Bytes,
    Outputs,
}

/// The bytes of a width; 0 for another token.
fn width_bytes(kind: Kind) -> usize
    ensures { result ≡ width_bytes kind }
{
    match kind {
        Kind::Number(bits) => (bits.min(128) as usize).div_ceil(8),
        _ => 0,
    }
}

/// The bytes of an input in a sample; 0 for another item.
fn input_bytes(source: &Source, item: usize) -> usize
    ensures bytes { result ≡ input_bytes source.now.tokens.now source.now.spans.now item }
    ensures begins { 0 < result → BeginsWith Input source.now.tokens.now source.now.spans.now item }
{
    let first = source.first(item);
    match source.kind(first) {
        Kind::Word(Keyword::Input) => {
            return width_bytes(source.kind(first.saturating_add(3)));
        }
        _ => {
            return 0;
        }
    }
}

/// How many outputs an item is: 1 or none.
fn outputs_of(source: &Source, item: usize) -> usize
    ensures count { result ≡ output_count source.now.tokens.now source.now.spans.now item }
    ensures begins { 0 < result → BeginsWith Output source.now.tokens.now source.now.spans.now item }
{
    match source.kind(source.first(item)) {
        Kind::Word(Keyword::Output) => {
            return 1;
        }
        _ => {
            return 0;
        }
    }
}

/// How much an item adds to what is counted.
fn amount(counted: Counted, source: &Source, item: usize) -> usize
    ensures amount { result ≡ amount_of counted source.now.tokens.now source.now.spans.now item }
    ensures begins { 0 < result → BeginsWith (word_of counted) source.now.tokens.now source.now.spans.now item }
{
    match counted {
        Counted::Bytes => input_bytes(source, item),
        Counted::Outputs => outputs_of(source, item),
    }
}

/// The first item with which all items together have more of what is counted than this; the number of items where they
/// have not.
fn passing_item(counted: Counted, source: &Source, most: usize) -> usize
    ensures first { PassesWith (amount_of counted source.now.tokens.now source.now.spans.now) most
        (length source.now.spans.now) result }
    ensures begins { result < length source.now.spans.now →
        BeginsWith (word_of counted) source.now.tokens.now source.now.spans.now result }
{
    let mut sum: usize = 0;
    for item in 0..source.spans.len() {
        sum = sum.saturating_add(amount(counted, source, item));
        if sum > most {
            return item;
        }
    }
    source.spans.len()
}

/// The first input with which all inputs together have more bytes than this; the number of items where they have not.
pub fn input_item(source: &Source, most: usize) -> usize
    ensures first { PassesWith (input_bytes source.now.tokens.now source.now.spans.now) most
        (length source.now.spans.now) result }
    ensures begins { result < length source.now.spans.now →
        BeginsWith Input source.now.tokens.now source.now.spans.now result }
{
    passing_item(Counted::Bytes, source, most)
}

/// The output that follows so many others; the number of items where none does.
pub fn output_item(source: &Source, most: usize) -> usize
    ensures first { PassesWith (output_count source.now.tokens.now source.now.spans.now) most
        (length source.now.spans.now) result }
    ensures begins { result < length source.now.spans.now →
        BeginsWith Output source.now.tokens.now source.now.spans.now result }
{
    passing_item(Counted::Outputs, source, most)
}
