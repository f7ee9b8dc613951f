//! Cells, and the fields that they share.

ghost use Rattle.std.specs.Prelude.{◌≡◌, ◌≤◌, ◌<◌, ◌+◌, ◌^◌, length};
ghost use Rattle.pr_net.specs.Shape.{wire_of};
ghost use Rattle.pr_cut_units.specs.Cells.{plain, slice_at, slice_below, byte, byte_below, bit_of, top, with_left, with_right};

use pr_base::{Carry, Mode, Next, slices, top_mask};
use pr_net::{Cell, Slice, Wire, WireBit};

/// The cell whose fields have their zeros, and mask 255.
pub fn plain() -> Cell
    ensures { result ≡ plain }
{
    Cell {
        a: Wire::Const(0),
        hi: Wire::Const(0),
        lo: Wire::Const(0),
        shift: 0,
        c: WireBit::None,
        table: 0,
        mode: Mode::Plain,
        cin: Carry::Zero,
        mask: 255,
        next: Next::Keep,
        init: 0,
    }
}

/// The wire that reads a slice.
fn wire_of(slice: Slice) -> Wire
    ensures { result ≡ wire_of slice }
{
    match slice {
        Slice::Const(k) => Wire::Const(k),
        Slice::Of(u, i) => Wire::Of(u, i),
        Slice::State(u, i) => Wire::State(u, i),
    }
}

/// Slice `i`, and 0 above the slices.
pub fn slice_at(x: &[Slice], i: usize) -> Slice
    ensures { result ≡ slice_at x.now i }
{
    if i < x.len() { x[i] } else { Slice::Const(0) }
}

/// Slice `i - q`, and 0 below the slices.
pub fn slice_below(x: &[Slice], i: usize, q: usize) -> Slice
    ensures { result ≡ slice_below x.now i q }
{
    if i < q {
        Slice::Const(0)
    } else {
        slice_at(x, i - q)
    }
}

/// Byte `i`.
pub fn byte(x: &[Slice], i: usize) -> Wire
    ensures { result ≡ byte x.now i }
{
    wire_of(slice_at(x, i))
}

/// Byte `i - q`.
pub fn byte_below(x: &[Slice], i: usize, q: usize) -> Wire
    ensures { result ≡ byte_below x.now i q }
{
    wire_of(slice_below(x, i, q))
}

/// Bit `k`.
pub fn bit_of(x: &[Slice], k: usize) -> WireBit
    ensures { result ≡ bit_of x.now k }
{
    WireBit::Of(byte(x, k / 8), (k % 8) as u8)
}

/// The mask of cell `i` where `e` bits are computed.
pub fn top(e: u8, i: usize) -> u8
    requires { i < 64 }
    ensures { result ≡ top e i }
{
    if i + 1 == slices(e) { top_mask(e) } else { 255 }
}

/// The cell with B as byte `i` shifted to the left by `k` bits.
pub fn with_left(x: &[Slice], k: usize, i: usize, cell: Cell) -> Cell
    ensures { result ≡ with_left x.now k i cell }
{
    Cell {
        hi: byte_below(x, i, k / 8),
        lo: if k % 8 == 0 {
            Wire::Const(0)
        } else {
            byte_below(x, i, k / 8 + 1)
        },
        shift: (k % 8) as u8,
        ..cell
    }
}

/// The cell with B as byte `i` shifted to the right by `k` bits.
pub fn with_right(x: &[Slice], k: usize, i: usize, cell: Cell) -> Cell
    requires near { i < 64 }
    requires small { k < 2 ^ 63 }
    ensures { result ≡ with_right x.now k i cell }
{
    let q = i + k / 8;
    if k % 8 == 0 {
        return Cell {
            hi: byte(x, q),
            lo: Wire::Const(0),
            shift: 0,
            ..cell
        };
    }
    Cell {
        hi: byte(x, q + 1),
        lo: byte(x, q),
        shift: 8 - (k % 8) as u8,
        ..cell
    }
}
