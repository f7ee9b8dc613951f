//! The walk over an expression.
ghost use Rattle.std.specs.Prelude.{◌≡◌, ◌≤◌, IfOk, ℕ, Bool, Option, None, Some, if◌then◌else◌, map};
ghost use Rattle.pr_scope_names.specs.Outcomes.{and_then};
ghost use Rattle.pr_scope_names.specs.Names.{held, known_in, same_place, streams_in};
ghost use Rattle.pr_scope_names.specs.Constants.{constant_of, place_of};
ghost use Rattle.pr_scope.specs.Expressions.{back_by, bounds, called, delayed, is_delay, is_instance, is_past, is_shift, past_of, pasts_of, reading, shifted, used, walk_of, walks_of};

use pr_lang::{BinOp, Expr, Fixed, Name, Ref};
use pr_scope_names::{
    Callee, Count, Instance, Offence, Rule, Static, Statics, Streams, amount, constant, count_one,
    place, read_static,
};

/// The most samples that a delay may go back.
const MOST_DELAY: u64 = 256;
/// The most bits of a constant shift.
const MOST_SHIFT: u64 = 128;
/// The depth that a function has at most.
const MOST_DEPTH: u32 = 32;

/// Where an expression stands: in the body of a recurrence, whose own instance this is, and in a function's body.
#[derive(Drop)]
pub struct Scene {
    pub own: Option<Instance>,
    pub inside: bool,
}

fn same(a: Option<u64>, b: Option<u64>) -> bool
    ensures { result ≡ same_place a b }
{
    match a {
        None => b.is_none(),
        Some(m) => match b {
            None => false,
            Some(n) => m == n,
        },
    }
}

fn is_own(scene: &Scene, name: &Name, place: Option<u64>) -> bool
    ensures { result ≡ is_instance scene.now.own name.now place }
{
    match &scene.own {
        None => false,
        Some(own) => own.name.is(name) && same(own.index, place),
    }
}

/// A name that is no stream, alone or with an index, and not called.
fn use_static(known: &Static, index: Option<u64>, count: Count) -> Result<Count, Offence>
    ensures value { (own assigned : Bool) → result ≡ used (Some known.now) own assigned index count }
    ensures grows { IfOk result (λ c. count.turns ≤ c.turns) }
{
    read_static(known, index)?;
    Ok(count)
}

/// A stream that is assigned or not, and may be the own instance.
fn use_stream(own: bool, assigned: bool, count: Count) -> Result<Count, Offence>
    ensures value { (index : Option ℕ) → result ≡ used None own assigned index count }
    ensures grows { IfOk result (λ c. count.turns ≤ c.turns) }
{
    if assigned && !own {
        Ok(count)
    } else {
        Err(Offence::Breaks(Rule::Assigned))
    }
}

fn use_name(
    statics: &Statics,
    streams: &Streams,
    scene: &Scene,
    count: Count,
    name: &Name,
    index: Option<u64>,
) -> Result<Count, Offence>
    ensures value { result ≡ used (known_in statics.now name.now) (is_instance scene.now.own name.now index)
        (held (streams_in streams.now name.now) index) index count }
    ensures grows { IfOk result (λ c. count.turns ≤ c.turns) }
{
    match statics.get(name) {
        Some(known) => use_static(known, index, count),
        None => {
            let own = is_own(scene, name, index);
            let assigned = streams.has(name, index);
            use_stream(own, assigned, count)
        }
    }
}

/// A name, alone or with an index, and not called.
fn refer(
    statics: &Statics,
    streams: &Streams,
    scene: &Scene,
    count: Count,
    target: &Ref,
) -> Result<Count, Offence>
    ensures value { let known = known_in statics.now in
        let name = target.now.name in
        result ≡ and_then (place_of target.now known) (λ index.
        used (known name) (is_instance scene.now.own name index) (held (streams_in streams.now name) index)
        index count) }
    ensures grows { IfOk result (λ c. count.turns ≤ c.turns) }
{
    let index = place(statics, target)?;
    use_name(statics, streams, scene, count, &target.name, index)
}

/// A stream before `@` that is assigned or not, and may be the own instance.
fn delay_stream(own: bool, assigned: bool, count: Count) -> Result<Count, Offence>
    ensures value { result ≡ delayed None own assigned count }
    ensures grows { IfOk result (λ c. count.turns ≤ c.turns) }
{
    if assigned || own {
        Ok(count)
    } else {
        Err(Offence::Breaks(Rule::Assigned))
    }
}

fn delay_name(
    statics: &Statics,
    streams: &Streams,
    own: bool,
    count: Count,
    name: &Name,
    index: Option<u64>,
) -> Result<Count, Offence>
    ensures value { result
        ≡ delayed (known_in statics.now name.now) own (held (streams_in streams.now name.now) index) count }
    ensures grows { IfOk result (λ c. count.turns ≤ c.turns) }
{
    match statics.get(name) {
        Some(_) => Err(Offence::Breaks(Rule::Kinds)),
        None => delay_stream(own, streams.has(name, index), count),
    }
}

fn may_go_back(own: bool, samples: u64) -> bool
    ensures { result ≡ is_delay own samples }
{
    samples <= MOST_DELAY && (!own || 0 < samples)
}

/// How far a delay goes back.
fn go_back(statics: &Statics, own: bool, count: Count, back: &Fixed) -> Result<Count, Offence>
    ensures value { result ≡ back_by own (constant_of back.now (known_in statics.now)) count }
    ensures grows { IfOk result (λ c. count.turns ≤ c.turns) }
{
    let samples = constant(statics, back)?;
    if may_go_back(own, samples) {
        Ok(count)
    } else {
        Err(Offence::Breaks(Rule::Bounds))
    }
}

/// A name before `@`, and how far it goes back.
fn delay(
    statics: &Statics,
    streams: &Streams,
    scene: &Scene,
    count: Count,
    target: &Ref,
    back: &Fixed,
) -> Result<Count, Offence>
    ensures value { let known = known_in statics.now in
        let name = target.now.name in
        result ≡ and_then (place_of target.now known) (λ index.
        and_then
        (delayed (known name) (is_instance scene.now.own name index)
        (held (streams_in streams.now name) index) count)
        (back_by (is_instance scene.now.own name index) (constant_of back.now known))) }
    ensures grows { IfOk result (λ c. count.turns ≤ c.turns) }
{
    let index = place(statics, target)?;
    let own = is_own(scene, &target.name, index);
    let count = delay_name(statics, streams, own, count, &target.name, index)?;
    go_back(statics, own, count, back)
}

/// The bounds of a slice.
fn slice(statics: &Statics, count: Count, high: &Fixed, low: &Fixed) -> Result<Count, Offence>
    ensures value { result
        ≡ bounds (constant_of high.now (known_in statics.now)) (constant_of low.now (known_in statics.now)) count }
    ensures grows { IfOk result (λ c. count.turns ≤ c.turns) }
{
    let high = constant(statics, high)?;
    let low = constant(statics, low)?;
    if low > high {
        return Err(Offence::Breaks(Rule::Bounds));
    }
    Ok(count)
}

/// A call of a function, whose arguments were walked.
fn call_function(
    callee: &Callee,
    given: usize,
    scene: &Scene,
    count: Count,
) -> Result<Count, Offence>
    ensures value { result ≡ called (Some (Static.Function callee.now)) given scene.now count }
    ensures grows { IfOk result (λ c. count.turns ≤ c.turns) }
{
    let count = count_one(count, callee.turns)?;
    if given != callee.params {
        return Err(Offence::Breaks(Rule::Calls));
    }
    if scene.inside && callee.depth >= MOST_DEPTH {
        return Err(Offence::Breaks(Rule::Calls));
    }
    if scene.own.is_some() && callee.past {
        return Err(Offence::Breaks(Rule::Recurrences));
    }
    if !scene.inside {
        return Ok(count);
    }
    let depth = callee.depth as u8;
    Ok(Count {
        turns: count.turns,
        deepest: count.deepest.max(depth),
    })
}

/// A call, whose arguments were walked.
fn call(
    statics: &Statics,
    scene: &Scene,
    count: Count,
    name: &Name,
    given: usize,
) -> Result<Count, Offence>
    ensures value { result ≡ called (known_in statics.now name.now) given scene.now count }
    ensures grows { IfOk result (λ c. count.turns ≤ c.turns) }
{
    if let Some(Static::Function(callee)) = statics.get(name) {
        return call_function(callee, given, scene, count);
    }
    count_one(count, 0)?;
    Err(Offence::Breaks(Rule::Kinds))
}

fn shifts(op: BinOp) -> bool
    ensures { result ≡ is_shift op }
{
    matches!(op, BinOp::Left | BinOp::Right)
}

/// A shift by a constant.
fn shift(amount: Result<u64, Offence>, count: Count) -> Result<Count, Offence>
    ensures value { result ≡ shifted amount count }
    ensures grows { IfOk result (λ c. count.turns ≤ c.turns) }
{
    let bits = amount?;
    if bits > MOST_SHIFT {
        return Err(Offence::Breaks(Rule::Bounds));
    }
    Ok(count)
}

fn shift_amount(statics: &Statics, op: BinOp, right: &Expr) -> Option<Result<u64, Offence>>
    ensures { result ≡ (if is_shift op then (reading right.now).amount (known_in statics.now) else None) }
{
    if shifts(op) {
        amount(statics, right)
    } else {
        None
    }
}

/// The count after an expression, whose walk begins with this count.
#[cycle(walk)]
pub fn walk(
    statics: &Statics,
    streams: &Streams,
    scene: &Scene,
    count: Count,
    expr: &Expr,
) -> Result<Count, Offence>
    ensures value { result ≡ walk_of expr.now (known_in statics.now) (streams_in streams.now) scene.now count }
    ensures grows { IfOk result (λ c. count.turns ≤ c.turns) }
{
    match expr {
        Expr::Number(_) => Ok(count),
        Expr::Refer(target) => refer(statics, streams, scene, count, target),
        Expr::Delay(target, back) => delay(statics, streams, scene, count, target, back),
        Expr::Slice(inner, high, low) => {
            let count = walk(statics, streams, scene, count, inner)?;
            slice(statics, count, high, low)
        }
        Expr::Not(inner) => walk(statics, streams, scene, count, inner),
        Expr::Binary(op, left, right) => {
            let count = walk(statics, streams, scene, count, left)?;
            match shift_amount(statics, *op, right) {
                None => walk(statics, streams, scene, count, right),
                Some(amount) => shift(amount, count),
            }
        }
        Expr::Choose(condition, one, other) => {
            let count = walk(statics, streams, scene, count, condition)?;
            let count = walk(statics, streams, scene, count, one)?;
            walk(statics, streams, scene, count, other)
        }
        Expr::Call(name, args) => {
            let count = walk_all(statics, streams, scene, count, args)?;
            call(statics, scene, count, name, args.len())
        }
        Expr::Cat(parts) => walk_all(statics, streams, scene, count, parts),
        Expr::Paren(inner) => walk(statics, streams, scene, count, inner),
    }
}

#[cycle(walk)]
fn walk_all(
    statics: &Statics,
    streams: &Streams,
    scene: &Scene,
    count: Count,
    parts: &[Expr],
) -> Result<Count, Offence>
    ensures value { result
        ≡ walks_of (map reading parts.now) (known_in statics.now) (streams_in streams.now) scene.now count }
    ensures grows { IfOk result (λ c. count.turns ≤ c.turns) }
{
    let mut count = count;
    for part in parts {
        count = walk(statics, streams, scene, count, part)?;
    }
    Ok(count)
}

fn calls_past(statics: &Statics, name: &Name) -> bool
    ensures { result ≡ is_past (known_in statics.now name.now) }
{
    matches!(statics.get(name), Some(Static::Function(callee)) if callee.past)
}

/// Whether the text has `@`, or a call of a function that has a past.
#[cycle(past)]
pub fn has_past(statics: &Statics, expr: &Expr) -> bool
    ensures { result ≡ past_of expr.now (known_in statics.now) }
{
    match expr {
        Expr::Number(_) | Expr::Refer(_) => false,
        Expr::Delay(_, _) => true,
        Expr::Slice(inner, _, _) => has_past(statics, inner),
        Expr::Not(inner) => has_past(statics, inner),
        Expr::Binary(_, left, right) => has_past(statics, left) || has_past(statics, right),
        Expr::Choose(condition, one, other) => {
            has_past(statics, condition) || has_past(statics, one) || has_past(statics, other)
        }
        Expr::Call(name, args) => calls_past(statics, name) || any_past(statics, args),
        Expr::Cat(parts) => any_past(statics, parts),
        Expr::Paren(inner) => has_past(statics, inner),
    }
}

#[cycle(past)]
fn any_past(statics: &Statics, parts: &[Expr]) -> bool
    ensures { result ≡ pasts_of (map past_of parts.now) (known_in statics.now) }
{
    for part in parts {
        if has_past(statics, part) {
            return true;
        }
    }
    false
}
