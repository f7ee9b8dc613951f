//! Operands as they are read.

ghost use Rattle.std.specs.Prelude.{◌≡◌, ◌≤◌, length};
ghost use Rattle.std.specs.Cow.{cow_slice_items};
ghost use Rattle.pr_base.specs.Numbers.{slices_of};

use pr_net::Slice;
use std::alloc::Global;
use std::borrow::CowSlice;

/// An operand: its slices, which may stand elsewhere, its kind and its width in bits.
#[derive(Drop)]
pub struct Argument<'a> {
    pub slices: CowSlice<'a, Slice, Global>,
    pub signed: bool,
    pub width: u8,
    pub ghost whole: { length (cow_slice_items slices) ≡ slices_of width },
    pub ghost some: { 1 ≤ width },
    pub ghost few: { width ≤ 128 },
}
