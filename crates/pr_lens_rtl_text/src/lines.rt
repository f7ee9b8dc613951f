//! Assignments as lines.

ghost use Rattle.std.specs.Prelude.{◌≡◌, ◌-◌, ◌++◌, ◌∷◌, [], true, false, codes, decimal, OnOk};
ghost use Rattle.pr_lens_rtl.specs.Verilog.{Expr, part_width, width};
ghost use Rattle.pr_lens_rtl_terms.specs.Terms.{assign_of, assigns_of, atom_expr, change_expr, factor_expr, flag_expr, form_expr, term_expr};
ghost use Rattle.pr_lens_rtl_text.specs.Printed.{bit_text, close_text, declared_text, expr_text, front_text, is_port, kept_text, line_text, low_text, net_text, open_text, part_text, range_text, wire_text};
ghost use Rattle.pr_lens_rtl_text.specs.Notes.{note_of, tail_text};
ghost use Rattle.pr_lens_rtl_text.specs.Signs.{sign_text, between_text};

use crate::notes::{Notes, end_line};
use pr_lens_rtl::{Net, Part};
use pr_lens_rtl_terms::{Atom, Change, Factor, Form, Line, Sign, Term, is_kept};
use pr_lens_text::{put, put_counted, put_number};
use std::alloc::AllocError;

/// Which line of an assignment.
#[derive(Clone, Copy)]
pub enum Way {
    /// That of a wire.
    Wire,
    /// That in which a register is declared.
    Declared,
    /// That of what a register takes at the clock.
    Clocked,
}

/// The letter of a part.
fn letter(part: Part) -> &'static str
    ensures { result.now ≡ part_text part }
{
    match part {
        Part::A => "a",
        Part::B => "b",
        Part::CarryIn => "i",
        Part::C => "c",
        Part::X => "x",
        Part::Sum => "t",
        Part::Carry => "k",
        Part::Output => "o",
        Part::State => "q",
        Part::Row => "r",
    }
}

/// Adds the name of a part of a stage.
fn put_part(text: &mut Vec<u8>, part: Part, stage: u32, col: u32) -> Result<(), AllocError>
    ensures { OnOk result (text.new.items
        ≡ text.old.items ++ (part_text part ++ decimal stage ++ codes "$" ++ decimal col)) }
{
    put_counted(text, letter(part), stage as usize)?;
    put_counted(text, "$", col as usize)
}

/// Adds the name of a vector.
fn put_net(text: &mut Vec<u8>, net: Net) -> Result<(), AllocError>
    ensures { OnOk result (text.new.items ≡ text.old.items ++ net_text net) }
{
    match net {
        Net::Reset => put(text, "reset"),
        Net::InValid => put(text, "in_valid"),
        Net::InReady => put(text, "in_ready"),
        Net::OutValid => put(text, "out_valid"),
        Net::OutReady => put(text, "out_ready"),
        Net::In(byte) => put_counted(text, "in$", byte as usize),
        Net::Out(byte) => put_counted(text, "out$", byte as usize),
        Net::Valid(stage) => put_counted(text, "v$", stage as usize),
        Net::Of(part, stage, col) => put_part(text, part, stage, col),
    }
}

/// The width of a part.
fn part_width(part: Part) -> usize
    ensures { result ≡ part_width part }
{
    match part {
        Part::CarryIn | Part::C | Part::Carry => 1,
        Part::Sum => 9,
        _ => 8,
    }
}

/// The width of a vector.
fn width(net: Net) -> usize
    ensures { result ≡ width net }
{
    match net {
        Net::In(_) | Net::Out(_) => 8,
        Net::Of(part, _, _) => part_width(part),
        _ => 1,
    }
}

/// A constant bit.
fn bit_text(bit: bool) -> &'static str
    ensures { result.now ≡ bit_text bit }
{
    if bit { "1'b1" } else { "1'b0" }
}

/// The parenthesis before an operator.
fn open_text(whole: bool) -> &'static str
    ensures { result.now ≡ open_text whole }
{
    if whole { "" } else { "(" }
}

/// The parenthesis behind an operator.
fn close_text(whole: bool) -> &'static str
    ensures { result.now ≡ close_text whole }
{
    if whole { "" } else { ")" }
}

/// Adds a bit of a vector.
fn put_pick(text: &mut Vec<u8>, net: Net, place: u8) -> Result<(), AllocError>
    ensures { OnOk result (text.new.items
        ≡ text.old.items ++ (net_text net ++ codes "[" ++ decimal place ++ codes "]")) }
{
    put_net(text, net)?;
    put_counted(text, "[", usize::from(place))?;
    put(text, "]")
}

/// Adds the lowest bits of a vector.
fn put_front(text: &mut Vec<u8>, net: Net, count: u8) -> Result<(), AllocError>
    ensures { OnOk result (text.new.items ≡ text.old.items ++ front_text net count) }
{
    put_net(text, net)?;
    put_counted(text, "[", usize::from(count.saturating_sub(1)))?;
    put(text, ":0]")
}

/// Adds the lowest bits of a vector with zeros above them.
fn put_filled(text: &mut Vec<u8>, net: Net, count: u8) -> Result<(), AllocError>
    ensures { OnOk result (text.new.items
        ≡ text.old.items ++ (codes "{" ++ decimal (8 - count) ++ codes "'d0, " ++ front_text net count ++ codes "}")) }
{
    put_counted(text, "{", usize::from(8_u8.saturating_sub(count)))?;
    put(text, "'d0, ")?;
    put_front(text, net, count)?;
    put(text, "}")
}

/// Adds the lowest bits of a vector as a byte.
fn put_low(text: &mut Vec<u8>, net: Net, count: u8) -> Result<(), AllocError>
    ensures { OnOk result (text.new.items ≡ text.old.items ++ low_text net count) }
{
    if count == 8 {
        put_front(text, net, count)
    } else {
        put_filled(text, net, count)
    }
}

/// Adds a vector in nine bits.
fn put_wide(text: &mut Vec<u8>, net: Net) -> Result<(), AllocError>
    ensures { OnOk result (text.new.items
        ≡ text.old.items ++ (codes "{" ++ decimal (9 - width net) ++ codes "'d0, " ++ net_text net ++ codes "}")) }
{
    put_counted(text, "{", 9_usize.saturating_sub(width(net)))?;
    put(text, "'d0, ")?;
    put_net(text, net)?;
    put(text, "}")
}

/// Adds an atom.
fn put_atom(text: &mut Vec<u8>, atom: Atom) -> Result<(), AllocError>
    ensures { OnOk result (text.new.items ≡ text.old.items ++ expr_text false (atom_expr atom)) }
{
    match atom {
        Atom::Byte(byte) => put_counted(text, "8'd", usize::from(byte)),
        Atom::Bit(bit) => put(text, bit_text(bit)),
        Atom::Read(net) => put_net(text, net),
        Atom::Pick(net, place) => put_pick(text, net, place),
        Atom::Low(net, count) => put_low(text, net, count),
        Atom::Wide(net) => put_wide(text, net),
    }
}

/// Adds an atom that is moved by so many bits.
fn put_moved(
    text: &mut Vec<u8>,
    whole: bool,
    atom: Atom,
    way: &str,
    count: u8,
) -> Result<(), AllocError>
    ensures { OnOk result (text.new.items ≡ text.old.items
        ++ (open_text whole ++ expr_text false (atom_expr atom) ++ way.now ++ decimal count ++ close_text whole)) }
{
    put(text, open_text(whole))?;
    put_atom(text, atom)?;
    put_counted(text, way, usize::from(count))?;
    put(text, close_text(whole))
}

/// Adds the complement of an atom.
fn put_not(text: &mut Vec<u8>, atom: Atom) -> Result<(), AllocError>
    ensures { OnOk result (text.new.items ≡ text.old.items ++ (codes "~" ++ expr_text false (atom_expr atom))) }
{
    put(text, "~")?;
    put_atom(text, atom)
}

/// Adds the question whether an atom is 0.
fn put_is_zero(text: &mut Vec<u8>, whole: bool, atom: Atom) -> Result<(), AllocError>
    ensures { OnOk result (text.new.items ≡ text.old.items
        ++ (open_text whole ++ expr_text false (atom_expr atom) ++ codes " == 8'd0" ++ close_text whole)) }
{
    put(text, open_text(whole))?;
    put_atom(text, atom)?;
    put(text, " == 8'd0")?;
    put(text, close_text(whole))
}

/// Adds a factor.
#[tactic(auto, using(crate::proofs::TextLemmas::atom_is))]
fn put_factor(text: &mut Vec<u8>, whole: bool, factor: Factor) -> Result<(), AllocError>
    ensures { OnOk result (text.new.items ≡ text.old.items ++ expr_text whole (factor_expr factor)) }
{
    match factor {
        Factor::Plain(atom) => put_atom(text, atom),
        Factor::Not(atom) => put_not(text, atom),
        Factor::Left(atom, count) => put_moved(text, whole, atom, " << ", count),
        Factor::Right(atom, count) => put_moved(text, whole, atom, " >> ", count),
        Factor::IsZero(atom) => put_is_zero(text, whole, atom),
    }
}

/// An operator with its spaces.
fn sign_text(sign: Sign) -> &'static str
    ensures { result.now ≡ sign_text sign }
{
    match sign {
        Sign::And => " & ",
        Sign::Or => " | ",
        Sign::Xor => " ^ ",
        Sign::Plus => " + ",
    }
}

/// Adds an operator between two factors.
fn put_two(
    text: &mut Vec<u8>,
    whole: bool,
    sign: Sign,
    one: Factor,
    other: Factor,
) -> Result<(), AllocError>
    ensures { OnOk result (text.new.items ≡ text.old.items
        ++ between_text whole (sign_text sign) (expr_text false (factor_expr one))
        (expr_text false (factor_expr other))) }
{
    put(text, open_text(whole))?;
    put_factor(text, false, one)?;
    put(text, sign_text(sign))?;
    put_factor(text, false, other)?;
    put(text, close_text(whole))
}

/// Adds the complement of an operator between two factors.
fn put_not_two(text: &mut Vec<u8>, sign: Sign, one: Factor, other: Factor) -> Result<(), AllocError>
    ensures { OnOk result (text.new.items ≡ text.old.items ++ (codes "~"
        ++ between_text false (sign_text sign) (expr_text false (factor_expr one))
        (expr_text false (factor_expr other)))) }
{
    put(text, "~")?;
    put_two(text, false, sign, one, other)
}

/// Adds a form.
#[tactic(auto, using(crate::proofs::TextLemmas::two_is, crate::proofs::TextLemmas::not_two_is))]
fn put_form(text: &mut Vec<u8>, whole: bool, form: Form) -> Result<(), AllocError>
    ensures { OnOk result (text.new.items ≡ text.old.items ++ expr_text whole (form_expr form)) }
{
    match form {
        Form::One(factor) => put_factor(text, whole, factor),
        Form::Two(sign, one, other) => put_two(text, whole, sign, one, other),
        Form::NotTwo(sign, one, other) => put_not_two(text, sign, one, other),
    }
}

/// Adds a choice.
fn put_choice(text: &mut Vec<u8>, condition: Net, one: Form, other: Form) -> Result<(), AllocError>
    ensures { OnOk result (text.new.items ≡ text.old.items ++ (net_text condition
        ++ codes " ? " ++ expr_text false (form_expr one) ++ codes " : " ++ expr_text false (form_expr other))) }
{
    put_net(text, condition)?;
    put(text, " ? ")?;
    put_form(text, false, one)?;
    put(text, " : ")?;
    put_form(text, false, other)
}

/// Adds a sum.
fn put_sum(text: &mut Vec<u8>, one: Atom, two: Atom, three: Atom) -> Result<(), AllocError>
    ensures { OnOk result (text.new.items ≡ text.old.items ++ (codes "(" ++ expr_text false (atom_expr one)
        ++ codes " + " ++ expr_text false (atom_expr two) ++ codes ")"
        ++ codes " + " ++ expr_text false (atom_expr three))) }
{
    put(text, "(")?;
    put_atom(text, one)?;
    put(text, " + ")?;
    put_atom(text, two)?;
    put(text, ")")?;
    put(text, " + ")?;
    put_atom(text, three)
}

/// Adds what an enabled register takes.
fn put_next(text: &mut Vec<u8>, atom: Atom, own: Net) -> Result<(), AllocError>
    ensures { OnOk result (text.new.items ≡ text.old.items
        ++ (codes "in_ready ? " ++ expr_text false (atom_expr atom) ++ codes " : " ++ net_text own)) }
{
    put(text, "in_ready ? ")?;
    put_atom(text, atom)?;
    put(text, " : ")?;
    put_net(text, own)
}

/// Adds what a state takes where a sample is read.
fn put_read(text: &mut Vec<u8>, change: Change) -> Result<(), AllocError>
    ensures { OnOk result (text.new.items ≡ text.old.items ++ (net_text change.read
        ++ codes " ? " ++ net_text change.next ++ codes " : " ++ net_text change.own)) }
{
    put_net(text, change.read)?;
    put(text, " ? ")?;
    put_net(text, change.next)?;
    put(text, " : ")?;
    put_net(text, change.own)
}

/// Adds what a state takes.
fn put_change(text: &mut Vec<u8>, change: Change) -> Result<(), AllocError>
    ensures { OnOk result (text.new.items ≡ text.old.items ++ expr_text true (change_expr change)) }
{
    put_counted(text, "reset ? 8'd", usize::from(change.first))?;
    put(text, " : (in_ready ? (")?;
    put_read(text, change)?;
    put(text, ") : ")?;
    put_net(text, change.own)?;
    put(text, ")")?;
    Ok(())
}

/// Adds what a flag takes.
fn put_flag(text: &mut Vec<u8>, read: Net, own: Net) -> Result<(), AllocError>
    ensures { OnOk result (text.new.items ≡ text.old.items ++ expr_text true (flag_expr read own)) }
{
    put(text, "reset ? 1'b0 : (in_ready ? ")?;
    put_net(text, read)?;
    put(text, " : ")?;
    put_net(text, own)?;
    put(text, ")")?;
    Ok(())
}

/// Adds a right side.
fn put_term(text: &mut Vec<u8>, term: Term) -> Result<(), AllocError>
    ensures { OnOk result (text.new.items ≡ text.old.items ++ expr_text true (term_expr term)) }
{
    match term {
        Term::Whole(form) => put_form(text, true, form),
        Term::Choice(condition, one, other) => put_choice(text, condition, one, other),
        Term::Sum(one, two, three) => put_sum(text, one, two, three),
        Term::Next(atom, own) => put_next(text, atom, own),
        Term::State(change) => put_change(text, change),
        Term::Flag { read, own } => put_flag(text, read, own),
    }
}

/// The range with which a vector of so many bits is declared.
fn range_text(width: usize) -> &'static str
    ensures { result.now ≡ range_text width }
{
    if width == 1 {
        ""
    } else if width == 8 {
        "[7:0] "
    } else {
        "[8:0] "
    }
}

/// Adds how a vector is declared.
fn put_declared(text: &mut Vec<u8>, kind: &str, net: Net) -> Result<(), AllocError>
    ensures { OnOk result (text.new.items ≡ text.old.items ++ declared_text kind.now net) }
{
    put(text, kind)?;
    put(text, range_text(width(net)))?;
    put_net(text, net)
}

/// Whether a vector is of the handshake.
fn is_port(net: Net) -> bool
    ensures { result ≡ is_port net }
{
    match net {
        Net::In(_) | Net::Out(_) | Net::Valid(_) | Net::Of(_, _, _) => false,
        _ => true,
    }
}

/// Adds the wire that is assigned.
fn put_wire(text: &mut Vec<u8>, net: Net) -> Result<(), AllocError>
    ensures { OnOk result (text.new.items ≡ text.old.items ++ wire_text net) }
{
    if is_port(net) {
        put(text, "assign ")?;
        put_net(text, net)
    } else {
        put_declared(text, "wire ", net)
    }
}

/// Adds a sign, a right side, and the semicolon behind it.
fn put_right(text: &mut Vec<u8>, sign: &str, term: Term) -> Result<(), AllocError>
    ensures { OnOk result (text.new.items
        ≡ text.old.items ++ (sign.now ++ expr_text true (term_expr term) ++ codes ";")) }
{
    put(text, sign)?;
    put_term(text, term)?;
    put(text, ";")
}

/// Adds the line of a wire.
fn put_wire_line(
    text: &mut Vec<u8>,
    marks: &[bool],
    notes: &Notes,
    line: &Line,
) -> Result<(), AllocError>
    ensures { OnOk result (text.new.items
        ≡ text.old.items ++ line_text (note_of notes.now marks.now) Way.Wire (assign_of line.now)) }
{
    put_wire(text, line.net)?;
    put_right(text, " = ", line.term)?;
    end_line(text, marks, notes, line.net)
}

/// Adds the line in which a register is declared.
fn put_declared_line(
    text: &mut Vec<u8>,
    marks: &[bool],
    notes: &Notes,
    net: Net,
) -> Result<(), AllocError>
    ensures { OnOk result (text.new.items ≡ text.old.items ++ (declared_text (codes "reg ") net
        ++ codes ";" ++ tail_text (note_of notes.now marks.now net) ++ codes "\n")) }
{
    put_declared(text, "reg ", net)?;
    put(text, ";")?;
    end_line(text, marks, notes, net)
}

/// Adds the line of what a register takes at the clock.
fn put_clocked_line(text: &mut Vec<u8>, line: &Line) -> Result<(), AllocError>
    ensures { OnOk result (text.new.items ≡ text.old.items ++ (codes "  " ++ net_text line.now.net
        ++ codes " <= " ++ expr_text true (term_expr line.now.term) ++ codes ";\n")) }
{
    put(text, "  ")?;
    put_net(text, line.net)?;
    put_right(text, " <= ", line.term)?;
    put(text, "\n")
}

/// Adds a line of an assignment.
fn put_line(
    text: &mut Vec<u8>,
    marks: &[bool],
    notes: &Notes,
    way: Way,
    line: &Line,
) -> Result<(), AllocError>
    ensures { OnOk result (text.new.items
        ≡ text.old.items ++ line_text (note_of notes.now marks.now) way (assign_of line.now)) }
{
    match way {
        Way::Wire => put_wire_line(text, marks, notes, line),
        Way::Declared => put_declared_line(text, marks, notes, line.net),
        Way::Clocked => put_clocked_line(text, line),
    }
}

/// Adds a line of an assignment, where its vector is marked.
fn put_kept(
    text: &mut Vec<u8>,
    marks: &[bool],
    notes: &Notes,
    way: Way,
    line: &Line,
) -> Result<(), AllocError>
    ensures { OnOk result (text.new.items
        ≡ text.old.items ++ kept_text (note_of notes.now marks.now) way marks.now (assign_of line.now ∷ [])) }
{
    if !is_kept(marks, line.net) {
        return Ok(());
    }
    put_line(text, marks, notes, way, line)
}

/// Adds the lines of those assignments whose vectors are marked.
pub fn put_lines(
    text: &mut Vec<u8>,
    marks: &[bool],
    notes: &Notes,
    way: Way,
    lines: &[Line],
) -> Result<(), AllocError>
    ensures { OnOk result (text.new.items
        ≡ text.old.items ++ kept_text (note_of notes.now marks.now) way marks.now (assigns_of lines.now)) }
{
    for line in lines {
        put_kept(text, marks, notes, way, line)?;
    }
    Ok(())
}
