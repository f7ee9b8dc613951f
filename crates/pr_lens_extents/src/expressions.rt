//! What is known of expressions, and of the comparisons in them.

ghost use Rattle.std.specs.Prelude.{◌≡◌, ◌++◌, map, option_map, OnOk};
ghost use Rattle.pr_lens_extents.specs.Expressions.{all_verdicts, argument_verdict, arguments_verdict, assigned_verdicts, blank_width, call_verdict, call_verdicts, called, compares, concatenated, extent_of, judged, outer_of, reading_of, repeated_verdicts, verdicts_of, width_verdict, width_verdicts};
ghost use Rattle.pr_lens_extents.specs.Scenes.{seen_in};

use crate::parameters::{is_signed, signs_at};
use crate::scenes::{Scene, fixed_value, known_of};
use crate::verdicts::{Verdict, cut_of, negative_of, verdict_on};
use pr_lang::{BinOp, Expr, Name};
use pr_lens_reach::{
    Extent, beside, binary_of, choice_of, constant, no_parts, not_of, past_of, signed_of, slice_of,
};
use std::alloc::AllocError;

fn compares(op: BinOp) -> bool
    ensures { result ≡ compares op }
{
    match op {
        BinOp::Equal | BinOp::NotEqual => true,
        BinOp::Less | BinOp::LessEqual => true,
        BinOp::Greater | BinOp::GreaterEqual => true,
        _ => false,
    }
}

/// What is known of an expression.
#[cycle(extent)]
pub fn extent_of(scene: &Scene, value: &Expr) -> Option<Extent>
    ensures { result ≡ extent_of value.now (seen_in scene.now) }
{
    match value {
        Expr::Number(number) => Some(constant(*number)),
        Expr::Refer(target) => known_of(scene, target),
        Expr::Delay(target, _) => past_of(known_of(scene, target)),
        Expr::Slice(_, high, low) => slice_of(fixed_value(scene, high), fixed_value(scene, low)),
        Expr::Not(inner) => not_of(extent_of(scene, inner)),
        Expr::Binary(op, left, right) => {
            let one = extent_of(scene, left);
            let other = extent_of(scene, right);
            binary_of(*op, one, other)
        }
        Expr::Choose(_, one, other) => {
            let one = extent_of(scene, one);
            let other = extent_of(scene, other);
            choice_of(one, other)
        }
        Expr::Call(name, args) => called(scene, name, args),
        Expr::Cat(parts) => concatenated(scene, parts),
        Expr::Paren(inner) => extent_of(scene, inner),
    }
}

/// What is known of a call: of the functions only `signed` is looked at.
#[cycle(extent)]
fn called(scene: &Scene, name: &Name, args: &[Expr]) -> Option<Extent>
    ensures { result ≡ called name.now (map reading_of args.now) (seen_in scene.now) }
{
    match args {
        [arg] => {
            if is_signed(name) {
                return signed_of(extent_of(scene, arg));
            }
            None
        }
        _ => None,
    }
}

/// What is known of parts beside one another.
#[cycle(extent)]
fn concatenated(scene: &Scene, parts: &[Expr]) -> Option<Extent>
    ensures { result ≡ concatenated (map reading_of parts.now) (seen_in scene.now) }
{
    let mut above = Some(no_parts());
    for part in parts {
        above = beside(above, extent_of(scene, part));
    }
    above
}

/// What is known of a comparison.
fn judged(scene: Option<&Scene>, op: BinOp, left: &Expr, right: &Expr) -> Verdict
    ensures { result ≡ judged op (reading_of left.now) (reading_of right.now) (option_map (λ s. seen_in s.now) scene.entry) }
{
    match scene {
        None => Verdict::Unseen,
        Some(scene) => verdict_on(op, extent_of(scene, left), extent_of(scene, right)),
    }
}

/// What is known of an argument.
fn argument_verdict(scene: &Scene, function: &Name, at: u64, extent: Option<Extent>) -> Verdict
    ensures { result ≡ argument_verdict function.now at extent (seen_in scene.now) }
{
    if signs_at(scene, function, at) {
        return negative_of(at, extent);
    }
    Verdict::Unseen
}

/// What is known of the first argument of which something is said.
fn arguments_verdict(scene: &Scene, function: &Name, args: &[Expr]) -> Verdict
    ensures { result ≡ arguments_verdict function.now 0 (map reading_of args.now) (seen_in scene.now) }
{
    for at in 0..args.len() {
        match argument_verdict(scene, function, at as u64, extent_of(scene, &args[at])) {
            Verdict::Unseen => {}
            said => return said,
        }
    }
    Verdict::Unseen
}

/// What is known of a call.
fn call_verdict(scene: Option<&Scene>, function: &Name, args: &[Expr]) -> Verdict
    ensures { result ≡ call_verdict function.now (map reading_of args.now) (option_map (λ s. seen_in s.now) scene.entry) }
{
    match scene {
        None => Verdict::Unseen,
        Some(scene) => arguments_verdict(scene, function, args),
    }
}

/// Adds the verdicts on the comparisons and calls of an expression.
#[cycle(verdicts)]
pub fn put_verdicts(
    verdicts: &mut Vec<Verdict>,
    scene: Option<&Scene>,
    value: &Expr,
) -> Result<(), AllocError>
    ensures { OnOk result (verdicts.new.items ≡ verdicts.old.items ++ verdicts_of value.now (option_map (λ s. seen_in s.now) scene.entry)) }
{
    match value {
        Expr::Number(_) | Expr::Refer(_) | Expr::Delay(_, _) => Ok(()),
        Expr::Slice(inner, _, _) => put_verdicts(verdicts, scene, inner),
        Expr::Not(inner) => put_verdicts(verdicts, scene, inner),
        Expr::Binary(op, left, right) => {
            put_verdicts(verdicts, scene, left)?;
            if compares(*op) {
                verdicts.push(judged(scene, *op, left, right))?;
            }
            put_verdicts(verdicts, scene, right)
        }
        Expr::Choose(condition, one, other) => {
            put_verdicts(verdicts, scene, condition)?;
            put_verdicts(verdicts, scene, one)?;
            put_verdicts(verdicts, scene, other)
        }
        Expr::Call(function, args) => put_call(verdicts, scene, function, args),
        Expr::Cat(parts) => put_all(verdicts, scene, parts),
        Expr::Paren(inner) => put_verdicts(verdicts, scene, inner),
    }
}

/// Adds the verdict on a call, and those on what stands in its arguments.
#[cycle(verdicts)]
fn put_call(
    verdicts: &mut Vec<Verdict>,
    scene: Option<&Scene>,
    function: &Name,
    args: &[Expr],
) -> Result<(), AllocError>
    ensures { OnOk result (verdicts.new.items ≡ verdicts.old.items
        ++ call_verdicts function.now (map reading_of args.now) (option_map (λ s. seen_in s.now) scene.entry)) }
{
    verdicts.push(call_verdict(scene, function, args))?;
    put_all(verdicts, scene, args)
}

/// Adds the verdicts on the comparisons and calls of expressions, one after the other.
#[cycle(verdicts)]
fn put_all(
    verdicts: &mut Vec<Verdict>,
    scene: Option<&Scene>,
    parts: &[Expr],
) -> Result<(), AllocError>
    ensures { OnOk result (verdicts.new.items
        ≡ verdicts.old.items ++ all_verdicts (map reading_of parts.now) (option_map (λ s. seen_in s.now) scene.entry)) }
{
    for part in parts {
        put_verdicts(verdicts, scene, part)?;
    }
    Ok(())
}

/// The operator outside of all others.
fn outer_of(value: &Expr) -> Option<BinOp>
    ensures { result ≡ outer_of value.now }
{
    match value {
        Expr::Binary(op, _, _) => Some(*op),
        Expr::Paren(inner) => outer_of(inner),
        _ => None,
    }
}

/// What a declared width makes of an expression.
fn width_verdict(scene: Option<&Scene>, width: u64, value: &Expr) -> Verdict
    ensures { result ≡ width_verdict width value.now (option_map (λ s. seen_in s.now) scene.entry) }
{
    match scene {
        None => Verdict::Unseen,
        Some(scene) => cut_of(outer_of(value), width, extent_of(scene, value)),
    }
}

/// Adds the verdict on a declared width, where there is one.
fn put_width(
    verdicts: &mut Vec<Verdict>,
    scene: Option<&Scene>,
    width: Option<u64>,
    value: &Expr,
) -> Result<(), AllocError>
    ensures { OnOk result (verdicts.new.items
        ≡ verdicts.old.items ++ width_verdicts width value.now (option_map (λ s. seen_in s.now) scene.entry)) }
{
    if let Some(width) = width {
        verdicts.push(width_verdict(scene, width, value))?;
    }
    Ok(())
}

/// Adds the verdicts on what is assigned: on the declared width and on the comparisons behind it.
pub fn put_assigned(
    verdicts: &mut Vec<Verdict>,
    scene: Option<&Scene>,
    width: Option<u64>,
    value: &Expr,
) -> Result<(), AllocError>
    ensures { OnOk result (verdicts.new.items
        ≡ verdicts.old.items ++ assigned_verdicts width value.now (option_map (λ s. seen_in s.now) scene.entry)) }
{
    put_width(verdicts, scene, width, value)?;
    put_verdicts(verdicts, scene, value)
}

/// Adds nothing but a place for the declared width of a recurrence.
fn put_blank_width(verdicts: &mut Vec<Verdict>, width: Option<u64>) -> Result<(), AllocError>
    ensures { OnOk result (verdicts.new.items ≡ verdicts.old.items ++ blank_width width) }
{
    if width.is_some() {
        verdicts.push(Verdict::Unseen)?;
    }
    Ok(())
}

/// Adds the verdicts on the body of a recurrence, which wraps around at its declared width.
pub fn put_repeated(
    verdicts: &mut Vec<Verdict>,
    scene: Option<&Scene>,
    width: Option<u64>,
    body: &Expr,
) -> Result<(), AllocError>
    ensures { OnOk result (verdicts.new.items
        ≡ verdicts.old.items ++ repeated_verdicts width body.now (option_map (λ s. seen_in s.now) scene.entry)) }
{
    put_blank_width(verdicts, width)?;
    put_verdicts(verdicts, scene, body)
}
