//! The equations of items.
ghost use Rattle.std.specs.Prelude.{◌≡◌, ℕ, ◌+◌, ◌<◌, ◌^◌, length, vec_len, List, ◌++◌, [], ◌∷◌, IfErr, IfOk};
ghost use Rattle.std.specs.Prelude.{None, Some, map, slice_get};
ghost use Rattle.pr_scope_names.specs.declared.names.Static.TheVariants as static;
ghost use Rattle.pr_scope_names.specs.Names.{KeepsNames, bind, known_in};
ghost use Rattle.pr_lang.specs.declared.trees.Item.{Item};
ghost use Rattle.pr_flat.specs.Shape.{shapes_of};
ghost use Rattle.pr_lang_meaning.specs.Programs.{function_at};
ghost use Rattle.pr_expand_spec.specs.Making.{Equations, constant};
ghost use Rattle.pr_expand_spec.specs.Statements as statements;
ghost use Rattle.pr_expand_spec.specs.Statements.{change_of};
ghost use Rattle.pr_expand_spec.specs.Programs.{equations_of, input_width, item_change, items_change, start};
ghost use Rattle.pr_expand.specs.Code.{IsPast, progress_of};
ghost use Rattle.pr_expand.specs.Parts.{input_made, output_made};
ghost use Rattle.pr_expand.specs.Scopes.{IsBefore, visible_at};
ghost use Rattle.pr_scope.specs.Walk.{offence};
ghost use Rattle.pr_expand.specs.Worlds.{AreWalked, IsFree, flattened, world_at};

use crate::environment::Environment;
use crate::expressions::{Assigned, make_assigned, make_stmt, named};
use crate::ledgers::{Expansion, Ledger, Progress, no_equations};
use crate::making::input;
use crate::operands::value_of;
use crate::stops::Stop;
use pr_flat::Operand;
use pr_lang::{Fixed, Item, Name, Param, Program, Stmt};
use pr_scope_names::{Callee, Static, Statics, Table};
use std::alloc::{AllocError, Global};

/// What the items so far have made.
#[derive(Drop)]
pub struct World {
    pub statics: Statics,
    pub progress: Progress,
    pub outputs: Vec<Operand>,
}

/// The declared width of an input.
fn width_of(width: u64) -> u8
    ensures { result ≡ input_width width }
{
    if width >= 1 && width <= 128 {
        return width as u8;
    }
    1
}

/// The entries of a table.
fn entries_of(alloc: Global, statics: &Statics, values: &[Fixed]) -> Result<Vec<u64>, AllocError>
    ensures { IfOk result (λ v. v.items ≡ map (λ f. constant f (known_in statics.now)) values.now) }
{
    let mut entries = Vec::new(alloc);
    for value in values {
        entries.push(value_of(statics, value))?;
    }
    Ok(entries)
}

/// A name that stands for no stream, from the item of this number on.
fn introduce(
    alloc: Global,
    items: &[Item],
    world: World,
    number: u32,
    name: &Name,
    what: Static,
) -> Result<World, Stop>
    requires at { IsBefore items.now world.statics number }
    requires free { known_in world.statics name.now ≡ None }
    requires known { (visible_at items.now (number + 1)).known
        ≡ bind name.now what (visible_at items.now number).known }
    ensures at { IfOk result (λ w. IsBefore items.now w.statics (number + 1)) }
    ensures progress { IfOk result (λ w. w.progress ≡ world.progress) }
    ensures outputs { IfOk result (λ w. w.outputs ≡ world.outputs) }
    ensures limit { (es : Equations) → IfErr result (λ s. IsPast s es) }
{
    let mut world = world;
    world.statics.set(alloc, name, number, what)?;
    Ok(world)
}

/// An input.
fn input_item(alloc: Global, progress: Progress, name: &Name, width: u64) -> Result<Progress, Stop>
    ensures value { IfOk result (λ p. progress_of p
        ≡ statements.named name.now None (progress_of progress).streams (input_made width progress)) }
    ensures limit { IfErr result (λ s. IsPast s (input_made width progress).equations) }
{
    let Progress { env, ledger } = progress;
    let made = input(alloc, ledger, width_of(width))?;
    named(alloc, env, name, None, made)
}

/// What an input adds.
fn add_input(alloc: Global, world: World, name: &Name, width: u64) -> Result<World, Stop>
    ensures progress { IfOk result (λ w. progress_of w.progress
        ≡ statements.named name.now None (progress_of world.progress).streams (input_made width world.progress)) }
    ensures outputs { IfOk result (λ w. w.outputs ≡ world.outputs) }
    ensures names { IfOk result (λ w. KeepsNames world.statics w.statics) }
    ensures limit { IfErr result (λ s. IsPast s (input_made width world.progress).equations) }
{
    let World {
        statics,
        progress,
        outputs,
    } = world;
    let progress = input_item(alloc, progress, name, width)?;
    Ok(World {
        statics,
        progress,
        outputs,
    })
}

/// An output.
fn output_item(
    alloc: Global,
    items: &[Item],
    world: World,
    number: u32,
    name: &Name,
    value: &Assigned,
) -> Result<World, Stop>
    requires { IsBefore items.now world.statics number }
    ensures progress { IfOk result (λ w. progress_of w.progress
        ≡ statements.named name.now None (progress_of world.progress).streams
        (output_made value.now.width value.now.expr.now items.now number world.progress)) }
    ensures outputs { IfOk result (λ w. w.outputs.items ≡ world.outputs.items
        ++ (output_made value.now.width value.now.expr.now items.now number world.progress).given.operand ∷ []) }
    ensures names { IfOk result (λ w. KeepsNames world.statics w.statics) }
    ensures limit { IfErr result (λ s. IsPast s
        (output_made value.now.width value.now.expr.now items.now number world.progress).equations) }
{
    let World {
        mut statics,
        progress,
        mut outputs,
    } = world;
    let Progress { env, ledger } = progress;
    let frame = statics.enter(alloc, number);
    let made = make_assigned(alloc, items, &mut statics, &env, ledger, value)?;
    statics.leave(frame);
    match outputs.push(made.given.operand) {
        Err(failed) => return Err(Stop::Memory(failed.into())),
        Ok(()) => {}
    }
    let progress = named(alloc, env, name, None, made)?;
    Ok(World {
        statics,
        progress,
        outputs,
    })
}

/// A statement.
fn step_item(
    alloc: Global,
    items: &[Item],
    world: World,
    number: u32,
    stmt: &Stmt,
) -> Result<World, Stop>
    requires { IsBefore items.now world.statics number }
    ensures progress { IfOk result (λ w. progress_of w.progress
        ≡ change_of stmt.now (visible_at items.now number) (progress_of world.progress)) }
    ensures outputs { IfOk result (λ w. w.outputs ≡ world.outputs) }
    ensures names { IfOk result (λ w. KeepsNames world.statics w.statics) }
    ensures limit { IfErr result (λ s. IsPast s
        (change_of stmt.now (visible_at items.now number) (progress_of world.progress)).equations) }
{
    let World {
        mut statics,
        progress,
        outputs,
    } = world;
    let frame = statics.enter(alloc, number);
    let progress = make_stmt(alloc, items, &mut statics, progress, stmt)?;
    statics.leave(frame);
    Ok(World {
        statics,
        progress,
        outputs,
    })
}

/// What callers see of a function of so many parameters.
fn callee(number: u32, params: &[Param]) -> Callee
    ensures { static.Function result ≡ function_at number params.now }
{
    Callee {
        item: Some(number),
        params: params.len(),
        turns: 0,
        depth: 0,
        past: false,
    }
}

/// The item of this number.
fn item(
    alloc: Global,
    items: &[Item],
    world: World,
    number: u32,
    item: &Item,
) -> Result<World, Stop>
    requires at { IsBefore items.now world.statics number }
    requires is { slice_get items.now number ≡ Some item.now }
    requires free { IsFree item.now world.statics }
    ensures at { IfOk result (λ w. IsBefore items.now w.statics (number + 1)) }
    ensures value { IfOk result (λ w. world_at items.now (number + 1) w
        ≡ item_change number item.now (world_at items.now number world)) }
    ensures limit { IfErr result (λ s. IsPast s
        (item_change number item.now (world_at items.now number world)).progress.equations) }
{
    match item {
        Item::Input { name, width } => add_input(alloc, world, name, *width),
        Item::Output { name, width, value } => {
            let value = Assigned {
                width: *width,
                expr: value,
            };
            output_item(alloc, items, world, number, name, &value)
        }
        Item::Const { name, value } => {
            let amount = value_of(&world.statics, value);
            introduce(alloc, items, world, number, name, Static::Constant(amount))
        }
        Item::Table { name, values } => {
            let entries = entries_of(alloc, &world.statics, values)?;
            let what = Static::Table(Table::new(entries));
            introduce(alloc, items, world, number, name, what)
        }
        Item::Function {
            name,
            params,
            width: _,
            body: _,
            result: _,
        } => {
            let what = Static::Function(callee(number, params));
            introduce(alloc, items, world, number, name, what)
        }
        Item::Step(stmt) => step_item(alloc, items, world, number, stmt),
    }
}

/// Before the first item.
fn begin(alloc: Global) -> Result<World, AllocError>
    ensures at { (items : List Item) → IfOk result (λ w. IsBefore items w.statics 0) }
    ensures value { (items : List Item) → IfOk result (λ w. world_at items 0 w ≡ start) }
{
    let statics = Statics::new(alloc)?;
    let ledger = no_equations(alloc);
    let env = Environment::new(alloc);
    Ok(World {
        statics,
        progress: Progress { env, ledger },
        outputs: Vec::new(alloc),
    })
}

/// The items, one after the other.
fn all_items(alloc: Global, items: &[Item]) -> Result<World, Stop>
    requires walked { AreWalked items.now }
    requires few { length items.now < 2 ^ 32 }
    ensures value { IfOk result (λ w. (n : ℕ) × (world_at items.now n w ≡ items_change 0 items.now start)) }
    ensures limit { IfErr result (λ s. IsPast s (items_change 0 items.now start).progress.equations) }
{
    let mut world = begin(alloc)?;
    let mut number = 0;
    for one in items {
        world = item(alloc, items, world, number, one)?;
        number += 1;
    }
    Ok(world)
}

/// What the items have made.
fn hand_over(world: World) -> Expansion
    ensures equations { shapes_of result.equations.items ≡ (progress_of world.progress).equations }
    ensures outputs { result.outputs ≡ world.outputs }
{
    let World {
        statics: _,
        progress,
        outputs,
    } = world;
    let Progress { env: _, ledger } = progress;
    let Ledger {
        equations,
        delays: _,
    } = ledger;
    Expansion { equations, outputs }
}

/// The equations of a program: those of its items, one after the other.
pub fn equations(alloc: Global, program: &Program) -> Result<Expansion, Stop>
    requires kept { offence program.now ≡ None }
    requires few { vec_len program.now.items < 2 ^ 32 }
    ensures value { IfOk result (λ e. flattened e ≡ equations_of program.now) }
    ensures limit { IfErr result (λ s. IsPast s (equations_of program.now).equations) }
{
    let world = all_items(alloc, &program.items)?;
    Ok(hand_over(world))
}
