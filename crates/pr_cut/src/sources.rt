//! Equations with their widths and their plan.

use pr_cut_plan::CutPlan;
use pr_flat::{Equation, Flat};
use pr_net::Slice;
use std::marker::Model;

/// Equations with their widths and their plan.
#[derive(Clone, Copy)]
pub struct PlannedEquations<'a> {
    pub flat: &'a Flat,
    pub widths: &'a [u8],
    pub plan: &'a CutPlan,
}

/// An equation whose turn it is.
#[derive(Clone, Copy)]
pub struct NextEquation<'a> {
    pub number: usize,
    pub equation: &'a Equation,
    /// How many inputs stand before it.
    pub inputs: u32,
}

/// The slices of an equation; none where it has no units.
#[derive(Drop)]
pub struct Value {
    pub slices: Vec<Slice>,
}

impl Model for Value {
    ghost use Rattle.std.specs.Prelude.{List};
    ghost use Rattle.pr_net.specs.declared.cells.Slice.{Slice};

    ghost Value = { List Slice };

    ghost view = { λ v. v.slices.items };
}
