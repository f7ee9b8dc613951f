//! Operators at their widths.

ghost use Rattle.std.specs.Prelude.{ℕ, ◌≡◌, ◌≤◌, ◌<◌, ◌+◌, ◌^◌, min, [], ◌∷◌, true, length, IfOk};
ghost use Rattle.pr_base.specs.Numbers.{slices_of};
ghost use Rattle.pr_flat.specs.Facts.{arity, has_lawful_ends};
ghost use Rattle.pr_flat.specs.Rows.{takes};
ghost use Rattle.pr_flat.specs.declared.equations.Op.{Op};
ghost use Rattle.pr_cut_units.specs.Parts.{filled, units_after, slices_after};
ghost use Rattle.pr_cut_units.specs.Widening.{read_as, widened};
ghost use Rattle.pr_cut_units.specs.Table.{argument_forms, units_at};
ghost use Rattle.pr_cut_cells.specs.Arguments.{argument_of, pair_of, triple_of};
ghost use Rattle.pr_cut.specs.Operators.{arguments_of, is_operator};

use pr_base::slices;
use pr_cut_cells::Argument;
use pr_cut_ops::{finished, operator_choice, operator_one, operator_two};
use pr_flat::{Form, Op};
use pr_flat_ops::{natural_choice, natural_one, natural_two};
use pr_net::{Slice, Unit};
use std::alloc::{AllocError, Global};

/// The kind and the width of an operand.
fn form_of(a: &Argument) -> Form
    ensures { result ≡ (argument_of a.now).form }
{
    Form {
        signed: a.signed,
        width: u16::from(a.width),
    }
}

/// How many of so many bits are computed at a width.
fn computed(natural: Form, w: u8) -> u8
    ensures { result ≡ min w natural.width }
{
    u16::from(w).min(natural.width) as u8
}

/// A result of `e` bits at width `w`: its own slices where they are as many.
#[tactic(auto, using(crate::proofs::OperatorLemmas::all_slices))]
fn at_width(
    alloc: Global,
    units: &mut Vec<Unit>,
    w: u8,
    e: u8,
    signed: bool,
    x: Vec<Slice>,
) -> Result<Vec<Slice>, AllocError>
    requires some { 1 ≤ e }
    requires whole { length x.items ≡ slices_of e }
    requires fits { length units.old.items + 1 < 2 ^ 32 }
    ensures units { IfOk result (λ s. units.new.items ≡
        units_after units.old.items (filled (slices_of w) (widened (read_as signed e x.items) w))) }
    ensures slices { IfOk result (λ s. s.items ≡
        slices_after units.old.items (filled (slices_of w) (widened (read_as signed e x.items) w))) }
{
    let wider = signed && e < w;
    if !wider && slices(e) == slices(w) {
        return Ok(x);
    }
    let all = finished(alloc, units, w, e, signed, &x)?;
    Ok(all)
}

/// An operator on one operand, at `w` bits.
fn units_one(
    alloc: Global,
    units: &mut Vec<Unit>,
    w: u8,
    op: Op,
    a: &Argument,
) -> Result<Vec<Slice>, AllocError>
    requires some { 1 ≤ w }
    requires few { w ≤ 128 }
    requires operator { is_operator op ≡ true }
    requires arity { arity op ≡ 1 }
    requires takes { takes op ((argument_of a.now).form ∷ []) ≡ true }
    requires ends { has_lawful_ends op ≡ true }
    requires fits { length units.old.items + 2 < 2 ^ 32 }
    ensures units { IfOk result (λ s. units.new.items ≡
        units_after units.old.items (units_at w op (argument_of a.now ∷ []))) }
    ensures slices { IfOk result (λ s. s.items ≡
        slices_after units.old.items (units_at w op (argument_of a.now ∷ []))) }
{
    let natural = natural_one(op, form_of(a)).unwrap();
    let e = computed(natural, w);
    let x = operator_one(alloc, units, e, op, a)?;
    let all = at_width(alloc, units, w, e, natural.signed, x)?;
    Ok(all)
}

/// An operator on two operands, at `w` bits.
fn units_two(
    alloc: Global,
    units: &mut Vec<Unit>,
    w: u8,
    op: Op,
    a: &Argument,
    b: &Argument,
) -> Result<Vec<Slice>, AllocError>
    requires some { 1 ≤ w }
    requires few { w ≤ 128 }
    requires arity { arity op ≡ 2 }
    requires fits { length units.old.items + 20001 < 2 ^ 32 }
    ensures units { IfOk result (λ s. units.new.items ≡
        units_after units.old.items (units_at w op (pair_of a.now b.now))) }
    ensures slices { IfOk result (λ s. s.items ≡ slices_after units.old.items (units_at w op (pair_of a.now b.now))) }
{
    let natural = natural_two(op, form_of(a), form_of(b));
    let e = computed(natural, w);
    let x = operator_two(alloc, units, e, op, a, b)?;
    let all = at_width(alloc, units, w, e, natural.signed, x)?;
    Ok(all)
}

/// A choice, at `w` bits.
fn units_choice(
    alloc: Global,
    units: &mut Vec<Unit>,
    w: u8,
    c: &Argument,
    a: &Argument,
    b: &Argument,
) -> Result<Vec<Slice>, AllocError>
    requires some { 1 ≤ w }
    requires few { w ≤ 128 }
    requires takes { takes Op.Choose (argument_forms (triple_of c.now a.now b.now)) ≡ true }
    requires fits { length units.old.items + 4 < 2 ^ 32 }
    ensures units { IfOk result (λ s. units.new.items ≡
        units_after units.old.items (units_at w Op.Choose (triple_of c.now a.now b.now))) }
    ensures slices { IfOk result (λ s. s.items ≡
        slices_after units.old.items (units_at w Op.Choose (triple_of c.now a.now b.now))) }
{
    let natural = natural_choice(form_of(c), form_of(a), form_of(b)).unwrap();
    let e = computed(natural, w);
    let x = operator_choice(alloc, units, e, c, a, b)?;
    let all = at_width(alloc, units, w, e, natural.signed, x)?;
    Ok(all)
}

/// An operator, at `w` bits.
#[tactic(auto, using(crate::proofs::ItemLemmas::one_argument, crate::proofs::ItemLemmas::two_arguments, crate::proofs::ItemLemmas::three_arguments))]
pub fn units_at(
    alloc: Global,
    units: &mut Vec<Unit>,
    w: u8,
    op: Op,
    args: &[Argument],
) -> Result<Vec<Slice>, AllocError>
    requires some { 1 ≤ w }
    requires few { w ≤ 128 }
    requires operator { is_operator op ≡ true }
    requires count { length args.now ≡ arity op }
    requires takes { takes op (argument_forms (arguments_of args.now)) ≡ true }
    requires ends { has_lawful_ends op ≡ true }
    requires fits { length units.old.items + 20001 < 2 ^ 32 }
    ensures units { IfOk result (λ s. units.new.items ≡
        units_after units.old.items (units_at w op (arguments_of args.now))) }
    ensures slices { IfOk result (λ s. s.items ≡ slices_after units.old.items (units_at w op (arguments_of args.now))) }
{
    match args {
        [a] => {
            let all = units_one(alloc, units, w, op, a)?;
            Ok(all)
        }
        [a, b] => {
            let all = units_two(alloc, units, w, op, a, b)?;
            Ok(all)
        }
        [c, a, b] => {
            let all = units_choice(alloc, units, w, c, a, b)?;
            Ok(all)
        }
        _ => Ok(Vec::new(alloc)),
    }
}
