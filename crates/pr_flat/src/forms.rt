//! Kinds, widths and numbers of streams.

use pr_base::Num;

/// The kind of a stream, and its width in bits.
#[derive(Clone, Copy, PartialEq, Eq, Debug)]
pub struct Form {
    pub signed: bool,
    /// Above 128 only where a declared width is to follow; never above 257.
    pub width: u16,
}

/// A stream's number at one sample.
#[derive(Clone, Copy, PartialEq, Eq, Debug)]
pub struct Point {
    pub form: Form,
    pub number: Num,
}
