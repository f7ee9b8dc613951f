//! The wires of a processing element.

ghost use Rattle.std.specs.Prelude.{◌≡◌, ◌+◌, ◌-◌, ◌*◌, ◌<◌, ◌≤◌};
ghost use Rattle.pr_lens_rtl.specs.declared.vectors.Net.{Net};
ghost use Rattle.pr_lens_rtl.specs.declared.vectors.Part.{Part};
ghost use Rattle.pr_lens_rtl.specs.Verilog.{Expr};
ghost use Rattle.pr_lens_rtl.specs.Module.{source_expr, picked_expr, bit_expr, c_expr, carry_in_expr, two_input, four_of, is_one_at, looked_expr, shifted_expr, has_carry_in, added_expr, sum_expr, result_expr, result_net, low_bits, is_always_masked, is_bare, masked_expr, output_expr, carry_expr, read};
ghost use Rattle.pr_lens_rtl_terms.specs.Terms.{atom_expr, form_expr, term_expr};

use crate::terms::{Atom, Factor, Form, Sign, Term};
use pr_base::{Carry, Mode};
use pr_conf::{Bit, Source};
use pr_lens_rtl::{Net, Part};

/// The vector of a register of a row that a stage shows.
pub fn register(columns: u32, stage: u32, col: u8, reg: u8) -> Net
    requires { columns ≤ 64 }
    ensures { result ≡ Net.Of Part.Row stage ((reg - 1) * columns + col) }
{
    let place = u32::from(reg.saturating_sub(1)) * columns + u32::from(col);
    Net::Of(Part::Row, stage, place)
}

/// The byte of a source.
fn source_atom(columns: u32, stage: u32, source: Source) -> Atom
    requires { columns ≤ 64 }
    ensures { atom_expr result ≡ source_expr columns stage source }
{
    match source {
        Source::Const(byte) => Atom::Byte(byte),
        Source::Prev { col, reg } => {
            Atom::Read(register(columns, stage.saturating_sub(1), col, reg))
        }
        Source::Here(col) => Atom::Read(Net::Of(Part::Output, stage, u32::from(col))),
        Source::State(col) => Atom::Read(Net::Of(Part::State, stage, u32::from(col))),
        Source::Bus(place) => Atom::Read(Net::In(u32::from(place))),
    }
}

/// Whether a byte has a 1 at a place.
#[tactic(auto, using(std::proofs::lemmas::Nat::Bits::shr_and_one))]
fn has_low_bit(byte: u8, place: u8) -> bool
    requires { place < 8 }
    ensures { result ≡ is_one_at byte place }
{
    (byte >> place) & 1 == 1
}

/// Whether a byte has a 1 at a place; behind its eighth bit it has none.
fn has_bit(byte: u8, place: u8) -> bool
    ensures { result ≡ is_one_at byte place }
{
    if place < 8 {
        has_low_bit(byte, place)
    } else {
        false
    }
}

/// A bit of a source.
fn picked_atom(columns: u32, stage: u32, source: Source, place: u8) -> Atom
    requires { columns ≤ 64 }
    ensures { atom_expr result ≡ picked_expr columns stage source place }
{
    match source {
        Source::Const(byte) => Atom::Bit(has_bit(byte, place)),
        Source::Prev { col, reg } => {
            Atom::Pick(register(columns, stage.saturating_sub(1), col, reg), place)
        }
        Source::Here(col) => Atom::Pick(Net::Of(Part::Output, stage, u32::from(col)), place),
        Source::State(col) => Atom::Pick(Net::Of(Part::State, stage, u32::from(col)), place),
        Source::Bus(byte) => Atom::Pick(Net::In(u32::from(byte)), place),
    }
}

/// B, of the bytes of two sources.
fn shifted_form(hi: Atom, lo: Atom, shift: u8) -> Form
    ensures { form_expr result ≡ shifted_expr (atom_expr hi) (atom_expr lo) shift }
{
    if shift == 0 {
        Form::One(Factor::Plain(hi))
    } else {
        let rest = 8_u8.saturating_sub(shift);
        Form::Two(Sign::Or, Factor::Left(hi, shift), Factor::Right(lo, rest))
    }
}

/// B.
pub fn b_form(columns: u32, stage: u32, hi: Source, lo: Source, shift: u8) -> Form
    requires { columns ≤ 64 }
    ensures { form_expr result ≡ shifted_expr (source_expr columns stage hi) (source_expr columns stage lo) shift }
{
    shifted_form(
        source_atom(columns, stage, hi),
        source_atom(columns, stage, lo),
        shift,
    )
}

/// A.
pub fn a_atom(columns: u32, stage: u32, source: Source) -> Atom
    requires { columns ≤ 64 }
    ensures { atom_expr result ≡ source_expr columns stage source }
{
    source_atom(columns, stage, source)
}

/// The bit of a source that the carry-in is.
fn bit_atom(columns: u32, stage: u32, c: Bit) -> Atom
    requires { columns ≤ 64 }
    ensures { atom_expr result ≡ bit_expr columns stage c }
{
    match c {
        Bit::None | Bit::CarryIn => Atom::Bit(false),
        Bit::Of(source, place) => picked_atom(columns, stage, source, place),
    }
}

/// C.
pub fn c_atom(columns: u32, stage: u32, col: u32, c: Bit) -> Atom
    requires { columns ≤ 64 }
    ensures { atom_expr result ≡ c_expr columns stage col c }
{
    match c {
        Bit::None => Atom::Bit(false),
        Bit::Of(source, place) => picked_atom(columns, stage, source, place),
        Bit::CarryIn => Atom::Read(Net::Of(Part::CarryIn, stage, col)),
    }
}

/// The carry-in.
pub fn carry_in_atom(columns: u32, stage: u32, col: u32, c: Bit, carry: Carry) -> Atom
    requires { columns ≤ 64 }
    ensures { atom_expr result ≡ carry_in_expr columns stage col c carry }
{
    match carry {
        Carry::Zero => Atom::Bit(false),
        Carry::One => Atom::Bit(true),
        Carry::Chain => Atom::Read(Net::Of(Part::Carry, stage, col.saturating_sub(1))),
        Carry::FromC => bit_atom(columns, stage, c),
    }
}

/// The function of two vectors that is, at each bit place, the first of these where both have 0 there, the second where
/// a alone has 1, the third where b alone has 1, and the fourth where both have.
fn two_input(neither: bool, a_alone: bool, b_alone: bool, both: bool, a: Net, b: Net) -> Form
    ensures { form_expr result ≡ two_input neither a_alone b_alone both (Expr.Read a) (Expr.Read b) }
{
    let (x, y) = (Factor::Plain(Atom::Read(a)), Factor::Plain(Atom::Read(b)));
    let (not_x, not_y) = (Factor::Not(Atom::Read(a)), Factor::Not(Atom::Read(b)));
    match (neither, a_alone, b_alone, both) {
        (false, false, false, false) => Form::One(Factor::Plain(Atom::Byte(0))),
        (true, false, false, false) => Form::NotTwo(Sign::Or, x, y),
        (false, true, false, false) => Form::Two(Sign::And, x, not_y),
        (true, true, false, false) => Form::One(not_y),
        (false, false, true, false) => Form::Two(Sign::And, not_x, y),
        (true, false, true, false) => Form::One(not_x),
        (false, true, true, false) => Form::Two(Sign::Xor, x, y),
        (true, true, true, false) => Form::NotTwo(Sign::And, x, y),
        (false, false, false, true) => Form::Two(Sign::And, x, y),
        (true, false, false, true) => Form::NotTwo(Sign::Xor, x, y),
        (false, true, false, true) => Form::One(x),
        (true, true, false, true) => Form::Two(Sign::Or, x, not_y),
        (false, false, true, true) => Form::One(y),
        (true, false, true, true) => Form::Two(Sign::Or, not_x, y),
        (false, true, true, true) => Form::Two(Sign::Or, x, y),
        (true, true, true, true) => Form::One(Factor::Plain(Atom::Byte(255))),
    }
}

/// The function that four bits of a table are.
fn four_form(table: u8, from: u8, a: Net, b: Net) -> Form
    requires { from < 5 }
    ensures { form_expr result ≡ four_of table from (Expr.Read a) (Expr.Read b) }
{
    two_input(
        has_bit(table, from),
        has_bit(table, from + 1),
        has_bit(table, from + 2),
        has_bit(table, from + 3),
        a,
        b,
    )
}

/// X.
pub fn x_term(stage: u32, col: u32, c: Bit, table: u8) -> Term
    ensures { term_expr result
        ≡ looked_expr c table (read Part.A stage col) (read Part.B stage col) (read Part.C stage col) }
{
    let (a, b) = (Net::Of(Part::A, stage, col), Net::Of(Part::B, stage, col));
    let low = four_form(table, 0, a, b);
    match c {
        Bit::None => Term::Whole(low),
        Bit::Of(_, _) | Bit::CarryIn => Term::Choice(
            Net::Of(Part::C, stage, col),
            four_form(table, 4, a, b),
            low,
        ),
    }
}

/// A vector of a column in nine bits.
fn wide(part: Part, stage: u32, col: u32) -> Atom
    ensures { atom_expr result ≡ Expr.Wide (Net.Of part stage col) }
{
    Atom::Wide(Net::Of(part, stage, col))
}

/// Whether a carry may come in.
fn has_carry_in(carry: Carry) -> bool
    ensures { result ≡ has_carry_in carry }
{
    match carry {
        Carry::Zero => false,
        Carry::One | Carry::Chain | Carry::FromC => true,
    }
}

/// A and X added, and the carry-in where one may come.
fn added_term(with_carry: bool, stage: u32, col: u32) -> Term
    ensures { term_expr result ≡ added_expr with_carry stage col }
{
    let (a, x) = (wide(Part::A, stage, col), wide(Part::X, stage, col));
    if with_carry {
        Term::Sum(a, x, wide(Part::CarryIn, stage, col))
    } else {
        Term::Whole(Form::Two(Sign::Plus, Factor::Plain(a), Factor::Plain(x)))
    }
}

/// The result with what does not fit into the byte.
pub fn sum_term(mode: Mode, carry: Carry, stage: u32, col: u32) -> Term
    ensures { term_expr result ≡ sum_expr mode carry stage col }
{
    match mode {
        Mode::Plain | Mode::Zero => {
            Term::Whole(Form::One(Factor::Plain(wide(Part::X, stage, col))))
        }
        Mode::Sum => added_term(has_carry_in(carry), stage, col),
    }
}

/// The result before the mask.
fn result_atom(mode: Mode, stage: u32, col: u32) -> Atom
    ensures { atom_expr result ≡ result_expr mode stage col }
{
    match mode {
        Mode::Plain | Mode::Zero => Atom::Read(Net::Of(Part::X, stage, col)),
        Mode::Sum => Atom::Low(Net::Of(Part::Sum, stage, col), 8),
    }
}

/// The vector whose lowest byte that is.
fn result_net(mode: Mode, stage: u32, col: u32) -> Net
    ensures { result ≡ result_net mode stage col }
{
    match mode {
        Mode::Plain | Mode::Zero => Net::Of(Part::X, stage, col),
        Mode::Sum => Net::Of(Part::Sum, stage, col),
    }
}

/// How many of the lowest bits a mask leaves, where those are fewer than eight: 3 for the mask 7. It is 0 for any other
/// mask.
fn low_bits(mask: u8) -> u8
    ensures { result ≡ low_bits mask }
{
    match mask {
        1 => 1,
        3 => 2,
        7 => 3,
        15 => 4,
        31 => 5,
        63 => 6,
        127 => 7,
        _ => 0,
    }
}

/// Whether the output has a mask even where that keeps all bits.
fn is_always_masked(mode: Mode, carry: Carry) -> bool
    ensures { result ≡ is_always_masked mode carry }
{
    match mode {
        Mode::Plain | Mode::Zero => false,
        Mode::Sum => has_carry_in(carry),
    }
}

/// Whether the output is the result without a mask.
fn is_bare(mode: Mode, carry: Carry, mask: u8) -> bool
    ensures { result ≡ is_bare mode carry mask }
{
    mask == 255 && !is_always_masked(mode, carry)
}

/// The result under its mask.
fn masked_form(mode: Mode, carry: Carry, mask: u8, stage: u32, col: u32) -> Form
    ensures { form_expr result ≡ masked_expr mode carry mask stage col }
{
    let all = Factor::Plain(result_atom(mode, stage, col));
    if is_bare(mode, carry, mask) {
        Form::One(all)
    } else {
        Form::Two(Sign::And, all, Factor::Plain(Atom::Byte(mask)))
    }
}

/// The output.
pub fn output_form(mode: Mode, carry: Carry, mask: u8, stage: u32, col: u32) -> Form
    ensures { form_expr result ≡ output_expr mode carry mask stage col }
{
    let low = low_bits(mask);
    if low == 0 {
        masked_form(mode, carry, mask, stage, col)
    } else {
        Form::One(Factor::Plain(Atom::Low(result_net(mode, stage, col), low)))
    }
}

/// The carry-out.
pub fn carry_form(mode: Mode, stage: u32, col: u32) -> Form
    ensures { form_expr result ≡ carry_expr mode stage col }
{
    match mode {
        Mode::Plain => Form::One(Factor::Plain(Atom::Bit(false))),
        Mode::Sum => Form::One(Factor::Plain(Atom::Pick(Net::Of(Part::Sum, stage, col), 8))),
        Mode::Zero => Form::Two(
            Sign::And,
            Factor::Plain(Atom::Read(Net::Of(Part::CarryIn, stage, col))),
            Factor::IsZero(Atom::Read(Net::Of(Part::X, stage, col))),
        ),
    }
}
