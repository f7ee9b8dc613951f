// A line of a short number for each input, read at once.
ghost use Rattle.std.specs.Prelude.{◌≡◌, ℕ, ◌+◌, ◌<◌, ◌≤◌, ◌++◌, List, length, drop, IfSome};
ghost use Rattle.pr_samples.specs.Fed.{Lawful};
ghost use Rattle.pr_samples.specs.Scan.{Found, first_line, fresh};
ghost use Rattle.pr_samples.specs.Items.{BeginsItem};

use crate::digits::{front_number, is_low};

/// The number of an input of this width at the front, with this byte after it: how many bytes the two have, and the number.
#[inline(always)]
fn front_item(bytes: &[u8], width: u8, stop: u8) -> Option<(usize, u64)>
    ensures { IfSome result (λ r. BeginsItem width stop r.0 r.1 bytes.now) }
{
    let (count, n) = front_number(bytes);
    if count > 0 && count < bytes.len() && bytes[count] == stop && is_low(n, width) {
        return Some((count + 1, n));
    }
    None
}

/// How many bytes the line at the front has, with its LF, where it is a short number for each input with one space between
/// two. The numbers are those of its sample then.
#[inline(always)]
pub fn front_line(widths: &[u8], numbers: &mut [u64], bytes: &[u8]) -> Option<usize>
    requires { length numbers.old ≡ length widths.now }
    ensures some { IfSome result (λ used. 0 < used) }
    ensures within { IfSome result (λ used. used ≤ length bytes.now) }
    ensures line { IfSome result (λ used. (passed : ℕ) (more : List ℕ) →
        first_line widths.now (fresh widths.now) passed (bytes.now ++ more)
        ≡ Found (Lawful numbers.new) (passed + 1) (drop used bytes.now ++ more)) }
{
    if widths.is_empty() {
        return None;
    }
    let last = widths.len() - 1;
    let mut at = 0;
    for i in 0..last {
        let Some((count, n)) = front_item(&bytes[at..], widths[i], b' ') else {
            return None;
        };
        numbers[i] = n;
        at += count;
    }
    let Some((count, n)) = front_item(&bytes[at..], widths[last], b'\n') else {
        return None;
    };
    numbers[last] = n;
    Some(at + count)
}
