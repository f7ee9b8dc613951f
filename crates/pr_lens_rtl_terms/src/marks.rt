//! Which vectors are written.

ghost use Rattle.std.specs.Prelude.{◌≡◌, ◌≤◌, ◌<◌, ◌+◌, ◌*◌, ◌++◌, ◌∷◌, [], true, slice_set, IfOk, OnOk, map, length};
ghost use Rattle.pr_conf.specs.Configuration.{pes_of, shape_of};
ghost use Rattle.pr_lens_rtl.specs.declared.vectors.Net.{Net};
ghost use Rattle.pr_lens_rtl.specs.Module.{last_of, tap_wires, taps_of};
ghost use Rattle.pr_lens_rtl.specs.Kept.{place_in, is_kept, marked, all_marked, reads, needed, next_marked, nexts_marked, stage_needed, stages_needed, marks_of};
ghost use Rattle.pr_lens_rtl_terms.specs.Terms.{assign_of, assigns_of, atom_expr, factor_expr, form_expr, term_expr};

use crate::edges::tap_lines;
use crate::stages::{add_rows, stage_wires};
use crate::terms::{Atom, Change, Factor, Form, Line, Term};
use pr_base::Next;
use pr_conf::{Configuration, Pe, Stage};
use pr_lens_rtl::{Net, Part};
use std::alloc::{AllocError, Global};

/// The place of a vector among the marks of its stage.
fn part_place(part: Part, col: u32) -> usize
    ensures { result ≡ place_in part col }
{
    let at = col as usize;
    match part {
        Part::State => at,
        Part::A => 64 + at * 8,
        Part::B => 65 + at * 8,
        Part::CarryIn => 66 + at * 8,
        Part::C => 67 + at * 8,
        Part::X => 68 + at * 8,
        Part::Sum => 69 + at * 8,
        Part::Carry => 70 + at * 8,
        Part::Output => 71 + at * 8,
        Part::Row => 576 + at,
    }
}

/// The place of a vector of a stage among all marks.
fn place_of(part: Part, stage: u32, col: u32) -> usize
    ensures { result ≡ stage * 2048 + 2 + place_in part col }
{
    stage as usize * 2048 + 2 + part_place(part, col)
}

/// Whether a vector is written.
pub fn is_kept(marks: &[bool], net: Net) -> bool
    ensures { result ≡ is_kept marks.now net }
{
    match net {
        Net::Of(part, stage, col) => {
            let at = place_of(part, stage, col);
            at < marks.len() && marks[at]
        }
        _ => true,
    }
}

/// Marks a place, where it is one.
fn mark_place(marks: &mut [bool], at: usize)
    ensures { marks.new ≡ slice_set marks.old at true }
{
    if at < marks.len() {
        marks[at] = true;
    }
}

/// Marks a vector.
fn mark(marks: &mut [bool], net: Net)
    ensures { marks.new ≡ marked marks.old net }
{
    if let Net::Of(part, stage, col) = net {
        mark_place(marks, place_of(part, stage, col));
    }
}

/// Marks what an atom reads.
fn mark_atom(marks: &mut [bool], atom: Atom)
    ensures { marks.new ≡ all_marked marks.old (reads (atom_expr atom)) }
{
    match atom {
        Atom::Byte(_) | Atom::Bit(_) => {}
        Atom::Read(net) | Atom::Pick(net, _) | Atom::Low(net, _) | Atom::Wide(net) => {
            mark(marks, net)
        }
    }
}

/// Marks what a factor reads.
fn mark_factor(marks: &mut [bool], factor: Factor)
    ensures { marks.new ≡ all_marked marks.old (reads (factor_expr factor)) }
{
    match factor {
        Factor::Plain(atom) | Factor::Not(atom) | Factor::IsZero(atom) => mark_atom(marks, atom),
        Factor::Left(atom, _) | Factor::Right(atom, _) => mark_atom(marks, atom),
    }
}

/// Marks what two factors read.
fn mark_two(marks: &mut [bool], one: Factor, other: Factor)
    ensures { marks.new ≡ all_marked marks.old (reads (factor_expr one) ++ reads (factor_expr other)) }
{
    mark_factor(marks, one);
    mark_factor(marks, other);
}

/// Marks what a form reads.
fn mark_form(marks: &mut [bool], form: Form)
    ensures { marks.new ≡ all_marked marks.old (reads (form_expr form)) }
{
    match form {
        Form::One(factor) => mark_factor(marks, factor),
        Form::Two(_, one, other) | Form::NotTwo(_, one, other) => mark_two(marks, one, other),
    }
}

/// Marks what a choice reads.
fn mark_choice(marks: &mut [bool], condition: Net, one: Form, other: Form)
    ensures { marks.new ≡ all_marked marks.old
        (condition ∷ (reads (form_expr one) ++ reads (form_expr other))) }
{
    mark(marks, condition);
    mark_form(marks, one);
    mark_form(marks, other);
}

/// Marks what a sum reads.
fn mark_sum(marks: &mut [bool], one: Atom, two: Atom, three: Atom)
    ensures { marks.new ≡ all_marked marks.old
        ((reads (atom_expr one) ++ reads (atom_expr two)) ++ reads (atom_expr three)) }
{
    mark_atom(marks, one);
    mark_atom(marks, two);
    mark_atom(marks, three);
}

/// Marks what an enabled register reads.
fn mark_next(marks: &mut [bool], atom: Atom, own: Net)
    ensures { marks.new ≡ all_marked marks.old (reads (atom_expr atom) ++ own ∷ []) }
{
    mark_atom(marks, atom);
    mark(marks, own);
}

/// Marks what a change of a state reads.
fn mark_change(marks: &mut [bool], change: Change)
    ensures { marks.new ≡ all_marked marks.old
        (change.read ∷ change.next ∷ change.own ∷ change.own ∷ []) }
{
    mark(marks, change.read);
    mark(marks, change.next);
    mark(marks, change.own);
    mark(marks, change.own);
}

/// Marks what a flag reads.
fn mark_flag(marks: &mut [bool], read: Net, own: Net)
    ensures { marks.new ≡ all_marked marks.old (read ∷ own ∷ []) }
{
    mark(marks, read);
    mark(marks, own);
}

/// Marks what a right side reads.
fn mark_term(marks: &mut [bool], term: Term)
    ensures { marks.new ≡ all_marked marks.old (reads (term_expr term)) }
{
    match term {
        Term::Whole(form) => mark_form(marks, form),
        Term::Choice(condition, one, other) => mark_choice(marks, condition, one, other),
        Term::Sum(one, two, three) => mark_sum(marks, one, two, three),
        Term::Next(atom, own) => mark_next(marks, atom, own),
        Term::State(change) => mark_change(marks, change),
        Term::Flag { read, own } => mark_flag(marks, read, own),
    }
}

/// Marks what the assignment to a vector reads, where that is written.
fn mark_line(marks: &mut [bool], line: &Line)
    ensures { marks.new ≡ needed (assign_of line.now ∷ []) marks.old }
{
    if is_kept(marks, line.net) {
        mark_term(marks, line.term);
    }
}

/// Marks what assignments read, the last one first.
pub fn mark_lines(marks: &mut [bool], lines: &[Line])
    ensures { marks.new ≡ needed (assigns_of lines.now) marks.old }
{
    let mut left = lines.len();
    while 0 < left {
        left -= 1;
        mark_line(marks, &lines[left]);
    }
}

/// Marks what a state becomes.
fn mark_change_of(marks: &mut [bool], next: Next, stage: u32, col: u32)
    ensures { marks.new ≡ next_marked next stage col marks.old }
{
    match next {
        Next::Keep => {}
        Next::Output => mark(marks, Net::Of(Part::Output, stage, col)),
        Next::A => mark(marks, Net::Of(Part::A, stage, col)),
    }
}

/// Marks what the states of a stage become, the last one first.
fn mark_changes(marks: &mut [bool], stage: u32, pes: &[Pe])
    requires { length pes.now ≤ 64 }
    ensures { marks.new ≡ nexts_marked stage 0 pes.now marks.old }
{
    let mut left = pes.len();
    while 0 < left {
        left -= 1;
        mark_change_of(marks, pes[left].next, stage, left as u32);
    }
}

/// Marks what a stage needs for the row that the stage above reads, and for its states.
fn mark_stage(
    alloc: Global,
    marks: &mut [bool],
    columns: u32,
    registers: u32,
    stage: u32,
    pes: &[Pe],
) -> Result<(), AllocError>
    requires columns { columns ≤ 64 }
    requires registers { registers ≤ 16 }
    requires few { length pes.now ≤ 64 }
    ensures { OnOk result (marks.new ≡ stage_needed columns registers stage pes.now marks.old) }
{
    let mut rows = Vec::new(alloc);
    add_rows(&mut rows, columns, stage, registers.saturating_sub(1), pes)?;
    let wires = stage_wires(alloc, columns, stage, pes)?;
    mark_lines(marks, &rows);
    mark_changes(marks, stage, pes);
    mark_lines(marks, &wires);
    Ok(())
}

/// Marks what stages need, the last one first.
fn mark_stages<const N: usize>(
    alloc: Global,
    marks: &mut [bool],
    columns: u32,
    registers: u32,
    stages: &[Stage<N>],
) -> Result<(), AllocError>
    requires columns { columns ≤ 64 }
    requires registers { registers ≤ 16 }
    requires most { N ≤ 64 }
    requires few { length stages.now ≤ 32768 }
    ensures { OnOk result (marks.new ≡ stages_needed columns registers 0 (map pes_of stages.now) marks.old) }
{
    let mut left = stages.len();
    while 0 < left {
        left -= 1;
        let pes = stages[left].pes.as_slice();
        mark_stage(alloc, marks, columns, registers, left as u32, pes)?;
    }
    Ok(())
}

/// Marks what a configuration needs.
fn mark_all<const N: usize, const P: usize>(
    alloc: Global,
    marks: &mut [bool],
    conf: &Configuration<N, P>,
) -> Result<(), AllocError>
    ensures { OnOk result (marks.new ≡ stages_needed N P 0 (shape_of conf.now).stages
        (needed (tap_wires N (last_of (shape_of conf.now)) 0 (taps_of (shape_of conf.now))) marks.old)) }
{
    let taps = tap_lines::<N, P>(alloc, conf)?;
    mark_lines(marks, &taps);
    mark_stages::<N>(alloc, marks, N as u32, P as u32, &conf.stages)
}

/// The marks of a configuration.
pub fn marks_of<const N: usize, const P: usize>(
    alloc: Global,
    conf: &Configuration<N, P>,
) -> Result<Vec<bool>, AllocError>
    ensures { IfOk result (λ marks. marks.items ≡ marks_of N P (shape_of conf.now)) }
{
    let mut marks = vec![in alloc; false; conf.stages.len() * 2048]?;
    mark_all::<N, P>(alloc, &mut marks, conf)?;
    Ok(marks)
}
