//! Results, read from a row by taps.

ghost use Rattle.std.specs.Prelude.{ℕ, ◌≡◌, ◌+◌, ◌≤◌, ◌<◌, ◌++◌, [], List, map, length, vec_len, vec_capacity, true};
ghost use Rattle.std.specs.List.{list_all};
ghost use Rattle.pr_conf.specs.Configuration.{shape_of};
ghost use Rattle.pr_conf.specs.Shape.{output_shape};
ghost use Rattle.pr_conf.specs.Rules.{is_lawful_tap, is_lawful_output, bytes_in};
ghost use Rattle.pr_conf.specs.Through.{tap_byte, tapped, output_widths};
ghost use Rattle.pr_machine.specs.Places.{bytes_of};
ghost use Rattle.pr_machine.specs.Results.{bytes_read};

use pr_conf::{Configuration, Output, Tap};
use pr_stripe::Row;

/// The byte that a tap reads.
#[inline(always)]
fn read_tap<const N: usize, const P: usize>(row: &Row<N, P>, tap: Tap) -> u8
    requires { is_lawful_tap N P tap ≡ true }
    ensures { result ≡ tap_byte N (bytes_of row.now) tap }
{
    match tap {
        Tap::Const(byte) => byte,
        Tap::Reg { col, reg } => row.byte(usize::from(col), usize::from(reg)),
    }
}

/// Appends the bytes of an output, for which there is room.
#[inline(always)]
fn append_output<const N: usize, const P: usize>(into: &mut Vec<u8>, row: &Row<N, P>, taps: &[Tap])
    requires lawful { list_all (is_lawful_tap N P) taps.now ≡ true }
    requires room { vec_len into.old + length taps.now ≤ vec_capacity into.old }
    ensures bytes { into.new.items ≡ into.old.items ++ map (tap_byte N (bytes_of row.now)) taps.now }
    ensures capacity { vec_capacity into.new ≡ vec_capacity into.old }
{
    for tap in taps {
        into.push_reserved(read_tap(row, *tap));
    }
}

/// Appends the bytes of outputs, for which there is room.
#[inline(always)]
fn append_outputs<const N: usize, const P: usize>(
    into: &mut Vec<u8>,
    row: &Row<N, P>,
    outputs: &[Output],
)
    requires lawful { list_all (is_lawful_output N P) (map output_shape outputs.now) ≡ true }
    requires empty { into.old.items ≡ [] }
    requires room { bytes_in (map (λ o. o.width) outputs.now) ≤ vec_capacity into.old }
    ensures bytes { into.new.items ≡ bytes_read N (bytes_of row.now) outputs.now }
    ensures capacity { vec_capacity into.new ≡ vec_capacity into.old }
{
    for output in outputs {
        append_output(into, row, &output.taps);
    }
}

/// Fills a buffer with the result that a configuration reads from a row of its last stage.
#[inline(always)]
pub(crate) fn read_result<const N: usize, const P: usize>(
    conf: &Configuration<N, P>,
    row: &Row<N, P>,
    into: &mut Vec<u8>,
)
    requires { bytes_in (output_widths (shape_of conf.now)) ≤ vec_capacity into.old }
    ensures bytes { into.new.items ≡ tapped N (shape_of conf.now) (bytes_of row.now) }
    ensures length { length into.new.items ≡ bytes_in (output_widths (shape_of conf.now)) }
    ensures capacity { vec_capacity into.new ≡ vec_capacity into.old }
{
    into.clear();
    append_outputs(into, row, &conf.outputs);
}
