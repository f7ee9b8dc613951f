//! The assignments of a stage.

ghost use Rattle.std.specs.Prelude.{◌≡◌, ◌+◌, ◌-◌, ◌*◌, ◌^◌, ◌<◌, ◌≤◌, ◌++◌, IfOk, OnOk, length};
ghost use Rattle.pr_lens_rtl.specs.declared.vectors.Net.{Net};
ghost use Rattle.pr_lens_rtl.specs.declared.vectors.Part.{Part};
ghost use Rattle.pr_lens_rtl.specs.Verilog.{Expr};
ghost use Rattle.pr_lens_rtl.specs.Module.{pe_wires, pes_wires, to, read_valid, next_expr, state_register, state_registers, passed_expr, passed_registers, row_registers, stage_registers, enabled};
ghost use Rattle.pr_lens_rtl_terms.specs.Terms.{assign_of, assigns_of, atom_expr, flag_register, term_expr};

use crate::elements::{
    a_atom, b_form, c_atom, carry_form, carry_in_atom, output_form, sum_term, x_term,
};
use crate::terms::{Atom, Change, Factor, Form, Line, Term};
use pr_base::Next;
use pr_conf::Pe;
use pr_lens_rtl::{Net, Part};
use std::alloc::{AllocError, Global};

/// Adds assignments.
pub fn add(lines: &mut Vec<Line>, more: &[Line]) -> Result<(), AllocError>
    ensures { OnOk result (assigns_of lines.new.items ≡ assigns_of lines.old.items ++ assigns_of more.now) }
{
    lines.extend_from_slice(more)
}

/// The assignment to a vector of a column.
fn to(part: Part, stage: u32, col: u32, term: Term) -> Line
    ensures { assign_of result ≡ to part stage col (term_expr term) }
{
    Line {
        net: Net::Of(part, stage, col),
        term,
    }
}

/// A right side of one atom.
fn plain(atom: Atom) -> Term
    ensures { term_expr result ≡ atom_expr atom }
{
    Term::Whole(Form::One(Factor::Plain(atom)))
}

/// Adds the assignments of a processing element.
fn add_element(
    lines: &mut Vec<Line>,
    columns: u32,
    stage: u32,
    col: u32,
    pe: &Pe,
) -> Result<(), AllocError>
    requires { columns ≤ 64 }
    ensures { OnOk result (assigns_of lines.new.items
        ≡ assigns_of lines.old.items ++ pe_wires columns stage col pe.now) }
{
    let a = plain(a_atom(columns, stage, pe.a));
    let b = Term::Whole(b_form(columns, stage, pe.hi, pe.lo, pe.shift));
    let carry_in = plain(carry_in_atom(columns, stage, col, pe.c, pe.cin));
    let c = plain(c_atom(columns, stage, col, pe.c));
    let carry = Term::Whole(carry_form(pe.mode, stage, col));
    let output = Term::Whole(output_form(pe.mode, pe.cin, pe.mask, stage, col));
    let all = [
        to(Part::A, stage, col, a),
        to(Part::B, stage, col, b),
        to(Part::CarryIn, stage, col, carry_in),
        to(Part::C, stage, col, c),
        to(Part::X, stage, col, x_term(stage, col, pe.c, pe.table)),
        to(Part::Sum, stage, col, sum_term(pe.mode, pe.cin, stage, col)),
        to(Part::Carry, stage, col, carry),
        to(Part::Output, stage, col, output),
    ];
    add(lines, &all)
}

/// The assignments of the processing elements of a stage.
pub fn stage_wires(
    alloc: Global,
    columns: u32,
    stage: u32,
    pes: &[Pe],
) -> Result<Vec<Line>, AllocError>
    requires columns { columns ≤ 64 }
    requires few { length pes.now ≤ 64 }
    ensures { IfOk result (λ lines. assigns_of lines.items ≡ pes_wires columns stage 0 pes.now) }
{
    let mut lines = Vec::new(alloc);
    for col in 0..pes.len() {
        add_element(&mut lines, columns, stage, col as u32, &pes[col])?;
    }
    Ok(lines)
}

/// The flag of what a stage reads.
fn read_valid(stage: u32) -> Net
    ensures { result ≡ read_valid stage }
{
    if stage == 0 {
        Net::InValid
    } else {
        Net::Valid(stage - 1)
    }
}

/// The assignment to the flag of a stage.
fn flag_line(stage: u32) -> Line
    ensures { assign_of result ≡ flag_register stage }
{
    let own = Net::Valid(stage);
    Line {
        net: own,
        term: Term::Flag {
            read: read_valid(stage),
            own,
        },
    }
}

/// What a state becomes.
fn next_net(next: Next, stage: u32, col: u32) -> Net
    ensures { Expr.Read result ≡ next_expr next stage col }
{
    match next {
        Next::Keep => Net::Of(Part::State, stage, col),
        Next::Output => Net::Of(Part::Output, stage, col),
        Next::A => Net::Of(Part::A, stage, col),
    }
}

/// The assignment to the state of a column.
fn state_line(stage: u32, col: u32, pe: &Pe) -> Line
    ensures { assign_of result ≡ state_register stage col pe.now }
{
    let own = Net::Of(Part::State, stage, col);
    let change = Change {
        first: pe.init,
        read: read_valid(stage),
        next: next_net(pe.next, stage, col),
        own,
    };
    Line {
        net: own,
        term: Term::State(change),
    }
}

/// Adds the assignments to the states of a stage.
fn add_states(lines: &mut Vec<Line>, stage: u32, pes: &[Pe]) -> Result<(), AllocError>
    requires { length pes.now ≤ 64 }
    ensures { OnOk result (assigns_of lines.new.items
        ≡ assigns_of lines.old.items ++ state_registers stage 0 pes.now) }
{
    for col in 0..pes.len() {
        add(lines, &[state_line(stage, col as u32, &pes[col])])?;
    }
    Ok(())
}

/// What a byte of a row takes.
fn passed_atom(stage: u32, reg: u32, col: u32, place: u32, pe: &Pe) -> Atom
    ensures { atom_expr result ≡ passed_expr stage reg col place pe.now }
{
    if u32::from(pe.write) == reg {
        Atom::Read(Net::Of(Part::Output, stage, col))
    } else if stage == 0 {
        Atom::Byte(0)
    } else {
        Atom::Read(Net::Of(Part::Row, stage - 1, place))
    }
}

/// The assignment to a byte of a row.
fn row_line(stage: u32, reg: u32, col: u32, place: u32, pe: &Pe) -> Line
    ensures { assign_of result ≡ enabled (Net.Of Part.Row stage place) (passed_expr stage reg col place pe.now) }
{
    let own = Net::Of(Part::Row, stage, place);
    Line {
        net: own,
        term: Term::Next(passed_atom(stage, reg, col, place, pe), own),
    }
}

/// Adds the assignments to a register of each column, which stand from a place on.
fn add_bank(
    lines: &mut Vec<Line>,
    stage: u32,
    reg: u32,
    place: u32,
    pes: &[Pe],
) -> Result<(), AllocError>
    requires few { length pes.now ≤ 64 }
    requires room { place ≤ 1024 }
    ensures { OnOk result (assigns_of lines.new.items
        ≡ assigns_of lines.old.items ++ passed_registers stage reg 0 place pes.now) }
{
    for col in 0..pes.len() {
        let at = col as u32;
        add(lines, &[row_line(stage, reg, at, place + at, &pes[col])])?;
    }
    Ok(())
}

/// Adds the assignments to the first so many registers of the columns.
pub fn add_rows(
    lines: &mut Vec<Line>,
    columns: u32,
    stage: u32,
    count: u32,
    pes: &[Pe],
) -> Result<(), AllocError>
    requires columns { columns ≤ 64 }
    requires few { length pes.now ≤ 64 }
    requires count { count ≤ 16 }
    ensures { OnOk result (assigns_of lines.new.items
        ≡ assigns_of lines.old.items ++ row_registers columns stage count pes.now) }
{
    for before in 0..count {
        add_bank(lines, stage, before + 1, before * columns, pes)?;
    }
    Ok(())
}

/// The assignments to the registers of a stage.
pub fn stage_registers(
    alloc: Global,
    columns: u32,
    registers: u32,
    stage: u32,
    pes: &[Pe],
) -> Result<Vec<Line>, AllocError>
    requires columns { columns ≤ 64 }
    requires registers { registers ≤ 16 }
    requires few { length pes.now ≤ 64 }
    ensures { IfOk result (λ lines. assigns_of lines.items ≡ stage_registers columns registers stage pes.now) }
{
    let mut lines = Vec::new(alloc);
    add(&mut lines, &[flag_line(stage)])?;
    add_states(&mut lines, stage, pes)?;
    add_rows(&mut lines, columns, stage, registers.saturating_sub(1), pes)?;
    Ok(lines)
}
