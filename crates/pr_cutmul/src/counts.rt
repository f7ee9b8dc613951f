//! How many units chains and products have.

ghost use Rattle.std.specs.Prelude.{◌≡◌, ◌≤◌, ◌-◌, ◌/◌};
ghost use Rattle.pr_base.specs.Numbers.{slices_of};
ghost use Rattle.pr_cut_units.specs.Products.{row_width};
ghost use Rattle.pr_cut_units.specs.Counts.{chain_count, product_count};

/// The bytes of so many bits.
pub fn slice_count(bits: u16) -> u32
    ensures { result ≡ slices_of bits }
{
    (u32::from(bits) + 7) / 8
}

/// The segments of a chain of so many cells.
pub fn chain_count(cells: u32) -> u32
    requires { cells ≤ 65536 }
    ensures { result ≡ chain_count cells }
{
    (cells + 3) / 4
}

/// The units of row `j` of a product, where the first factor has `wa` bits.
fn row_count(e: u16, wa: u16, j: u16) -> u32
    requires wa { wa ≤ 128 }
    requires j { j ≤ 128 }
    ensures is { result ≡ chain_count (slices_of (row_width e wa j) - j / 8) }
    ensures few { result ≤ 100 }
{
    let bits = e.min(wa + j + 1);
    chain_count(slice_count(bits).saturating_sub(u32::from(j) / 8))
}

/// The units of a product's rows.
#[tactic(auto, using(crate::proofs::CountLemmas::sum_each_more))]
pub fn product_count(e: u16, wa: u16, wb: u16) -> u32
    requires wa { wa ≤ 128 }
    requires wb { wb ≤ 128 }
    ensures is { result ≡ product_count e wa wb }
    ensures few { result ≤ 12800 }
{
    let mut count = 0;
    for j in 0..wb.min(e) {
        count += row_count(e, wa, j);
    }
    count
}
