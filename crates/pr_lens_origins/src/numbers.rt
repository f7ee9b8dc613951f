//! For each instance of a program the number of its name.

ghost use Rattle.std.specs.Prelude.{◌≡◌, ◌<◌, ◌++◌, ◌^◌, IfOk, None, OnOk, vec_len};
ghost use Rattle.pr_scope_names.specs.Names.{IsOutside, known_in};
ghost use Rattle.pr_scope.specs.Walk.{offence};
ghost use Rattle.pr_probe.specs.Instances.{IsFree, known_after};
ghost use Rattle.pr_lens_origins.specs.Numbers.{item_numbers, item_size, numbers_of};

use crate::walks::{later, number_stmt, size_of, sizes_of, with_number};
use pr_lang::{Item, Program};
use pr_probe::know_item;
use pr_scope_names::Statics;
use std::alloc::{AllocError, Global};

/// How many names of streams an item has.
fn item_size(item: &Item) -> usize
    ensures { result ≡ item_size item.now }
{
    match item {
        Item::Input { name: _, width: _ } => 1,
        Item::Output {
            name: _,
            width: _,
            value: _,
        } => 1,
        Item::Const { name: _, value: _ } => 0,
        Item::Table { name: _, values: _ } => 0,
        Item::Function {
            name: _,
            params: _,
            width: _,
            body,
            result: _,
        } => sizes_of(body),
        Item::Step(stmt) => size_of(stmt),
    }
}

/// Adds the numbers of an item, the first name of which has this one.
fn number_item(
    alloc: Global,
    statics: &mut Statics,
    listed: Vec<usize>,
    at: usize,
    number: u32,
    item: &Item,
) -> Result<Vec<usize>, AllocError>
    requires outside { IsOutside statics.old }
    requires free { IsFree item.now (known_in statics.old) }
    ensures value { IfOk result (λ v. v.items ≡ listed.items ++ item_numbers item.now at (known_in statics.old)) }
    ensures known { OnOk result (known_in statics.new ≡ known_after number item.now (known_in statics.old)) }
    ensures outside { OnOk result (IsOutside statics.new) }
{
    match item {
        Item::Input { name: _, width: _ } => with_number(listed, at),
        Item::Output {
            name: _,
            width: _,
            value: _,
        } => with_number(listed, at),
        Item::Const { .. } | Item::Table { .. } | Item::Function { .. } => {
            know_item(alloc, statics, number, item)?;
            Ok(listed)
        }
        Item::Step(stmt) => {
            let more = number_stmt(alloc, statics, listed, at, stmt)?;
            Ok(more)
        }
    }
}

/// For each stream instance of a program that keeps the rules of scope the number of its name.
pub fn instance_numbers(alloc: Global, program: &Program) -> Result<Vec<usize>, AllocError>
    requires kept { offence program.now ≡ None }
    requires few { vec_len program.now.items < 2 ^ 32 }
    ensures { IfOk result (λ v. v.items ≡ numbers_of program.now) }
{
    let mut statics = Statics::new(alloc)?;
    let mut listed = Vec::new(alloc);
    let mut number = 0;
    let mut at = 0;
    for item in &program.items {
        listed = number_item(alloc, &mut statics, listed, at, number, item)?;
        at = later(at, item_size(item));
        number += 1;
    }
    Ok(listed)
}
