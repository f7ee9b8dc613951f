//! The stream instances that are visible at the end of a program.

ghost use Rattle.std.specs.Prelude.{◌≡◌, ◌<◌, ◌++◌, ◌∷◌, [], ◌^◌, IfOk, None, OnOk, map, vec_len};
ghost use Rattle.pr_scope_names.specs.declared.names.Static.TheVariants as static;
ghost use Rattle.pr_scope_names.specs.Names.{IsOutside, known_in};
ghost use Rattle.pr_scope.specs.Walk.{offence};
ghost use Rattle.pr_lang_meaning.specs.Programs.{function_at};
ghost use Rattle.pr_expand_spec.specs.Making.{constant};
ghost use Rattle.pr_probe.specs.Instances.{IsFree, instances_of, item_listing, known_after};

use crate::lists::{list_stmt, value_of};
use pr_lang::{Fixed, Item, Name, Param, Program};
use pr_scope_names::{Callee, Instance, Static, Statics, Table};
use std::alloc::{AllocError, Global};

/// The entries of a table.
fn entries_of(alloc: Global, statics: &Statics, values: &[Fixed]) -> Result<Vec<u64>, AllocError>
    ensures { IfOk result (λ v. v.items ≡ map (λ f. constant f (known_in statics.now)) values.now) }
{
    let mut entries = Vec::new(alloc);
    for value in values {
        entries.push(value_of(statics, value))?;
    }
    Ok(entries)
}

/// What callers see of a function of so many parameters.
fn callee(number: u32, params: &[Param]) -> Callee
    ensures { static.Function result ≡ function_at number params.now }
{
    Callee {
        item: Some(number),
        params: params.len(),
        turns: 0,
        depth: 0,
        past: false,
    }
}

/// Adds what an item is for those behind it: a constant, a table or a function.
pub fn know_item(
    alloc: Global,
    statics: &mut Statics,
    number: u32,
    item: &Item,
) -> Result<(), AllocError>
    requires outside { IsOutside statics.old }
    requires free { IsFree item.now (known_in statics.old) }
    ensures known { OnOk result (known_in statics.new ≡ known_after number item.now (known_in statics.old)) }
    ensures outside { OnOk result (IsOutside statics.new) }
{
    match item {
        Item::Const { name, value } => {
            let amount = value_of(statics, value);
            statics.set(alloc, name, number, Static::Constant(amount))
        }
        Item::Table { name, values } => {
            let entries = entries_of(alloc, statics, values)?;
            statics.set(alloc, name, number, Static::Table(Table::new(entries)))
        }
        Item::Function {
            name,
            params,
            width: _,
            body: _,
            result: _,
        } => {
            let what = Static::Function(callee(number, params));
            statics.set(alloc, name, number, what)
        }
        Item::Input { .. } | Item::Output { .. } | Item::Step(_) => Ok(()),
    }
}

/// Adds an instance without an index.
fn list_name(alloc: Global, listed: Vec<Instance>, name: &Name) -> Result<Vec<Instance>, AllocError>
    ensures { IfOk result (λ v. v.items ≡ listed.items ++ record { name = name.now; index = None } ∷ []) }
{
    let mut listed = listed;
    let name = name.copy(alloc)?;
    listed.push(Instance { name, index: None })?;
    Ok(listed)
}

/// Adds what an item assigns.
fn list_item(
    alloc: Global,
    statics: &mut Statics,
    listed: Vec<Instance>,
    number: u32,
    item: &Item,
) -> Result<Vec<Instance>, AllocError>
    requires outside { IsOutside statics.old }
    requires free { IsFree item.now (known_in statics.old) }
    ensures value { IfOk result (λ v. v.items ≡ listed.items ++ item_listing item.now (known_in statics.old)) }
    ensures known { OnOk result (known_in statics.new ≡ known_after number item.now (known_in statics.old)) }
    ensures outside { OnOk result (IsOutside statics.new) }
{
    match item {
        Item::Input { name, width: _ } => list_name(alloc, listed, name),
        Item::Output {
            name,
            width: _,
            value: _,
        } => list_name(alloc, listed, name),
        Item::Const { .. } | Item::Table { .. } | Item::Function { .. } => {
            know_item(alloc, statics, number, item)?;
            Ok(listed)
        }
        Item::Step(stmt) => {
            let more = list_stmt(alloc, statics, listed, stmt)?;
            Ok(more)
        }
    }
}

/// The stream instances that are visible at the end of a program that keeps the rules of scope.
pub fn instances(alloc: Global, program: &Program) -> Result<Vec<Instance>, AllocError>
    requires kept { offence program.now ≡ None }
    requires few { vec_len program.now.items < 2 ^ 32 }
    ensures { IfOk result (λ v. v.items ≡ instances_of program.now) }
{
    let mut statics = Statics::new(alloc)?;
    let mut listed = Vec::new(alloc);
    let mut number = 0;
    for item in &program.items {
        listed = list_item(alloc, &mut statics, listed, number, item)?;
        number += 1;
    }
    Ok(listed)
}
