//! Every operator at many widths, on unsigned and signed operands.

use crate::shown::Shown;
use crate::table::{NUMBERS, ROWS, Row};
use crate::texts::{Stop, net_of};
use pr_base::{Width, byte_of, cut, slices};
use pr_net::Net;
use std::alloc::{AllocError, Global};
use std::test::Fail;

/// The outputs of narrow operands at the operators' own widths.
const NARROW: &str = "output add = p + q; output sub = p - q; output mul = p * q; \
output both = p & q; output any = p | q; output differ = p ^ q; output inv = ~p; \
output pick = c ? p : q; output left = p << k; output right = p >> k; \
output left_by = p << d; output right_by = p >> d; output joined = cat(p, q);";

/// The same at the greatest width.
const WIDE: &str = "output add:128 = p + q; output sub:128 = p - q; output mul:128 = p * q; \
output both:128 = p & q; output any:128 = p | q; output differ:128 = p ^ q; output inv:128 = ~p; \
output pick:128 = c ? p : q; output left:128 = p << k; output right:128 = p >> k; \
output left_by:128 = p << d; output right_by:128 = p >> d; output joined:128 = cat(p, q);";

/// The same at 33 bits, then the comparisons, and then what has a state.
const LAST: &str = "output add33:33 = p + q; output sub33:33 = p - q; output mul33:33 = p * q; \
output both33:33 = p & q; output any33:33 = p | q; output differ33:33 = p ^ q; output inv33:33 = ~p; \
output pick33:33 = c ? p : q; output left33:33 = p << k; output right33:33 = p >> k; \
output left_by33:33 = p << d; output right_by33:33 = p >> d; output joined33:33 = cat(p, q); \
output eq = p == q; output ne = p != q; output lt = p < q; output le = p <= q; output gt = p > q; output ge = p >= q; \
output part = p{h..l}; output part33:33 = p{h..l}; output p33:33 = p; \
output late = p@1; rec r:33 = 1 by r@1 + r@2 ^ p; output back = r;";

/// The name of a stream that is read as signed, or as it is.
fn read(signed: bool) -> &'static str {
    if signed { "signed" } else { "" }
}

/// The program of a row.
fn text_of(alloc: Global, row: &Row) -> Result<String, AllocError> {
    let [wide_p, wide_q] = row.widths;
    let [signed_p, signed_q] = row.signed;
    let [high, low] = row.bits;
    let body = if wide_p.max(wide_q) < 64 {
        NARROW
    } else {
        WIDE
    };
    format!(in alloc;
        "input a:{wide_p}; input b:{wide_q}; input c:1; input d:8; const k = {}; const h = {high}; const l = {low}; \
         let p = {}(a); let q = {}(b); {body} {LAST}",
        row.by,
        read(signed_p),
        read(signed_q),
    )
}

/// An operand of so many bits.
fn operand(shape: u8, width: u8) -> u128 {
    let Some(width) = Width::of(width) else {
        return 0;
    };
    let ones = cut(u128::MAX, width);
    match shape {
        0 => ones,
        1 => ones ^ (ones >> 1),
        2 => ones >> 1,
        _ => match NUMBERS.get(usize::from(shape).saturating_sub(3)) {
            Some(number) => cut(*number, width),
            None => 0,
        },
    }
}

/// The bytes of a sample of a row.
fn sample_of(alloc: Global, row: &Row, sample: [u8; 4]) -> Result<Vec<u8>, AllocError> {
    let [wide_p, wide_q] = row.widths;
    let [p, q, condition, amount] = sample;
    let mut bytes = Vec::new(alloc);
    for (number, width) in [(operand(p, wide_p), wide_p), (operand(q, wide_q), wide_q)] {
        for i in 0..slices(width) {
            bytes.push(byte_of(number, i))?;
        }
    }
    bytes.extend_from_slice(&[condition, amount])?;
    Ok(bytes)
}

/// The net of the program of a row.
fn net_of_row(alloc: Global, row: &Row) -> Result<Net, Stop> {
    let text = text_of(alloc, row)?;
    net_of(alloc, &text, 64)
}

/// Shows the samples of a row.
fn show(alloc: Global, net: &Net, row: &Row, shown: &mut Shown) -> Result<(), AllocError> {
    for sample in row.samples {
        let sample = sample_of(alloc, row, sample)?;
        shown.next(alloc, net, &sample)?;
    }
    Ok(())
}

/// The outputs of the last sample of a row.
fn values_of(alloc: Global, row: &Row) -> Result<String, Stop> {
    let net = net_of_row(alloc, row)?;
    let mut shown = Shown::new(alloc, &net)?;
    show(alloc, &net, row, &mut shown)?;
    let mut values = String::new(alloc);
    shown.put_numbers(&net, &mut values)?;
    Ok(values)
}

#[test]
fn operators_at_many_widths(rt: HostRuntime) -> Result<(), Fail> {
    for (number, row) in ROWS.iter().enumerate() {
        let values = values_of(rt.alloc(), row)?;
        assert_eq!(rt; values.as_str(), row.values, "row {number}");
    }
    Ok(())
}
