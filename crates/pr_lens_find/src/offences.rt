//! Broken rules of scope.

ghost use Rattle.std.specs.Prelude.{◌≡◌, ◌<◌, ◌≤◌, ◌-◌, ◌↔◌, [], length, IfNone, IfOk, IfSome, IsFalse, IsTrue, MatchOption};
ghost use Rattle.pr_lens_find.specs.Fronts.{spot_of};
ghost use Rattle.pr_lens_source.specs.Spans.{StandsIn};
ghost use Rattle.pr_lens_find.specs.Offences.{IsWrongWidth, IsFirstWrong, HasNoWrong, StandsBefore, IsAgain, Breaks, BreaksNot, TurnsUpTo, TurnsNot, IsValue, IsFirstFrame, HasNoFrame, IsOfConstants, IsOfFrame, HasNoneOfFrame, IsOfItem, HasNoneAt, HasNoneOfItem, IsOfTree, HasNoneOfTree, IsFoundIn, IsNowhere, IsTold, cut_by, is_again};
ghost use Rattle.pr_lens_items.specs.Steps.{entry_of, entries_of};
ghost use Rattle.pr_scope_names.specs.Outcomes.{number_of};

use crate::counts::{numbered, short};
use crate::fronts::{Part, Seen, cut_front, item_of, see};
use crate::halves::{Question, turn_above, turn_between};
use pr_lang::{Item, Kind};
use pr_lens_items::{Cut, Frame, Points, points_of};
use pr_lens_source::{Source, introduced_before};
use pr_scope_names::Rule;
use std::alloc::{AllocError, Global};

/// A rule that is broken by an item.
#[derive(Clone, Copy)]
pub struct Broken<'a> {
    pub rule: Rule,
    pub part: Part<'a>,
}

/// Whether what is said of a program is that an item breaks the rule.
fn is_breach(seen: Seen, wanted: Rule, number: usize) -> bool
    ensures { IsTrue result ↔ (seen ≡ Seen.Broken (number_of wanted) number) }
{
    match seen {
        Seen::Broken { rule, item } => rule == wanted.number() && item as usize == number,
        Seen::Kept | Seen::TooLong => false,
    }
}

/// Whether the item, cut off so, breaks the rule.
fn breaks(alloc: Global, broken: &Broken, cut: Cut) -> Result<bool, AllocError>
    requires { length broken.now.part.source.text.now ≤ 1048576 }
    ensures yes { IfOk result (λ answer. IsTrue answer → Breaks (spot_of broken.now.part) broken.now.rule cut) }
    ensures no { IfOk result (λ answer. IsFalse answer → BreaksNot (spot_of broken.now.part) broken.now.rule cut) }
{
    match cut_front(alloc, &broken.part, cut)? {
        None => Ok(false),
        Some(program) => {
            let seen = see(alloc, program)?;
            Ok(is_breach(seen, broken.rule, broken.part.number))
        }
    }
}

/// What is cut off at a count.
#[derive(Clone, Copy)]
pub enum By {
    /// The points of expressions, in so many frames.
    Values(usize),
    Frames,
    /// The points of constant expressions, of the last of so many frames.
    Fixeds(usize),
}

fn cut_by(by: By, kept: usize) -> Cut
    ensures { result ≡ cut_by by kept }
{
    match by {
        By::Values(frames) => Cut {
            values: short(kept),
            frames: short(frames),
            fixeds: u32::MAX,
        },
        By::Frames => Cut {
            values: 0,
            frames: short(kept),
            fixeds: u32::MAX,
        },
        By::Fixeds(frames) => Cut {
            values: 0,
            frames: short(frames),
            fixeds: short(kept),
        },
    }
}

/// Whether an item, cut off at a count, breaks a rule.
#[derive(Clone, Copy)]
struct Search<'a> {
    broken: Broken<'a>,
    by: By,
}

impl<'a> Question for Search<'a> {
    ghost can_ask = { λ s. length s.broken.part.source.text.now ≤ 1048576 };

    ghost yes = { λ s count. Breaks (spot_of s.broken.part) s.broken.rule (cut_by s.by count) };

    ghost no = { λ s count. BreaksNot (spot_of s.broken.part) s.broken.rule (cut_by s.by count) };

    fn ask(&self, alloc: Global, count: usize) -> Result<bool, AllocError> {
        breaks(alloc, &self.broken, cut_by(self.by, count))
    }
}

/// A count up to `most` with which the rule is broken and with one less it is not, where it is broken with so many and not
/// with none.
fn first_count(
    alloc: Global,
    broken: &Broken,
    by: By,
    most: usize,
) -> Result<Option<usize>, AllocError>
    requires { length broken.now.part.source.text.now ≤ 1048576 }
    ensures { let spot = spot_of broken.now.part in IfOk result (λ found.
        MatchOption found (TurnsNot spot broken.now.rule by most) (TurnsUpTo spot broken.now.rule by most)) }
{
    let search = Search {
        broken: *broken,
        by,
    };
    turn_between(alloc, &search, 0, most)
}

/// The number of the first frame with which the rule is broken, whatever the item's expressions are.
fn first_frame(alloc: Global, broken: &Broken, most: usize) -> Result<Option<usize>, AllocError>
    requires { length broken.now.part.source.text.now ≤ 1048576 }
    ensures { let spot = spot_of broken.now.part in IfOk result (λ found.
        MatchOption found (HasNoFrame spot broken.now.rule most) (IsFirstFrame spot broken.now.rule)) }
{
    let search = Search {
        broken: *broken,
        by: By::Frames,
    };
    if search.ask(alloc, 1)? {
        return Ok(Some(1));
    }
    turn_above(alloc, &search, 1, most)
}

/// Whether a token is a width that is none.
fn is_wrong_width(source: &Source, token: u32) -> bool
    ensures wrong { IsTrue result → IsWrongWidth source.now.tokens.now token }
    ensures right { IsFalse result → IsWrongWidth source.now.tokens.now token → ⊥ }
{
    match source.kind(token as usize) {
        Kind::Number(bits) => {
            return bits < 1 || 128 < bits;
        }
        _ => {
            return false;
        }
    }
}

/// The first width that is none.
fn wrong_width(source: &Source, widths: &[u32]) -> Option<usize>
    ensures first { IfSome result (IsFirstWrong source.now.tokens.now widths.now) }
    ensures none { IfNone result (HasNoWrong source.now.tokens.now widths.now) }
{
    for token in widths {
        if is_wrong_width(source, *token) {
            return Some(*token as usize);
        }
    }
    None
}

/// Whether a name was introduced before.
fn is_again(source: &Source, token: u32) -> bool
    ensures value { result ≡ is_again source.now.text.now source.now.tokens.now source.now.spans.now token }
    ensures before { IsTrue result → StandsBefore source.now.text.now source.now.tokens.now token }
{
    match introduced_before(source, token as usize) {
        None => {
            return false;
        }
        Some(_earlier) => {
            return true;
        }
    }
}

/// The first name that was introduced before, or else the first of all.
fn name_again(source: &Source, names: &[u32]) -> Option<usize>
    ensures { MatchOption result (names.now ≡ [])
        (IsAgain source.now.text.now source.now.tokens.now source.now.spans.now names.now) }
{
    for token in names {
        if is_again(source, *token) {
            return Some(*token as usize);
        }
    }
    numbered(names, 1)
}

/// The token of a point of constant expressions at which the rule is broken, of the frame of this number.
fn in_fixeds(
    alloc: Global,
    broken: &Broken,
    frame: &Frame,
    number: usize,
) -> Result<Option<usize>, AllocError>
    requires short { length broken.now.part.source.text.now ≤ 1048576 }
    requires rule { IsOfConstants broken.now.rule }
    ensures { let spot = spot_of broken.now.part in let entry = entry_of frame.now in IfOk result (λ found.
        MatchOption found (HasNoneOfFrame spot broken.now.rule number entry)
        (IsOfFrame spot broken.now.rule number entry)) }
{
    let most = frame.fixeds.len();
    match first_count(alloc, broken, By::Fixeds(number), most)? {
        None => Ok(None),
        Some(count) => Ok(numbered(&frame.fixeds, count)),
    }
}

/// The token in the frame of this number that breaks the rule.
fn in_frame(
    alloc: Global,
    broken: &Broken,
    frame: &Frame,
    number: usize,
) -> Result<Option<usize>, AllocError>
    requires { length broken.now.part.source.text.now ≤ 1048576 }
    ensures { let spot = spot_of broken.now.part in let entry = entry_of frame.now in IfOk result (λ found.
        MatchOption found (HasNoneOfFrame spot broken.now.rule number entry)
        (IsOfFrame spot broken.now.rule number entry)) }
{
    match broken.rule {
        Rule::Introduced => {
            return Ok(name_again(&broken.part.source, &frame.names));
        }
        Rule::Bounds => {
            return Ok(wrong_width(&broken.part.source, &frame.widths));
        }
        Rule::Recurrences => {
            return Ok(numbered(&frame.fixeds, frame.fixeds.len()));
        }
        _ => {
            return in_fixeds(alloc, broken, frame, number);
        }
    }
}

/// The token of the first expression's point at which the rule is broken, in so many frames.
fn in_values(
    alloc: Global,
    broken: &Broken,
    points: &Points,
    frames: usize,
) -> Result<Option<usize>, AllocError>
    requires { length broken.now.part.source.text.now ≤ 1048576 }
    ensures { let spot = spot_of broken.now.part in IfOk result (λ found.
        MatchOption found (TurnsNot spot broken.now.rule (By.Values frames) (length points.now.values.items))
        (IsValue spot broken.now.rule frames points.now.values.items)) }
{
    let most = points.values.len();
    match first_count(alloc, broken, By::Values(frames), most)? {
        None => Ok(None),
        Some(count) => Ok(numbered(&points.values, count)),
    }
}

/// The token in the frame of this number that breaks the rule, where the item has so many, and no expression in the
/// frames before it breaks it earlier.
fn in_numbered(
    alloc: Global,
    broken: &Broken,
    points: &Points,
    number: usize,
) -> Result<Option<usize>, AllocError>
    requires short { length broken.now.part.source.text.now ≤ 1048576 }
    requires first { IsFirstFrame (spot_of broken.now.part) broken.now.rule number }
    requires earliest { 1 < number → TurnsNot (spot_of broken.now.part) broken.now.rule (By.Values (number - 1))
        (length points.now.values.items) }
    ensures { let spot = spot_of broken.now.part in let frames = entries_of points.now.frames.items in
        IfOk result (λ found. MatchOption found (HasNoneAt spot broken.now.rule frames number)
        (IsOfItem spot broken.now.rule points.now.values.items frames)) }
{
    match points.frames.get(number.saturating_sub(1)) {
        None => {
            return Ok(None);
        }
        Some(frame) => {
            return in_frame(alloc, broken, frame, number);
        }
    }
}

/// The token at which the rule is broken, where the frame of this number is the first that breaks it: an expression in
/// the frames before it can break it earlier.
fn among_frames(
    alloc: Global,
    broken: &Broken,
    points: &Points,
    number: usize,
) -> Result<Option<usize>, AllocError>
    requires short { length broken.now.part.source.text.now ≤ 1048576 }
    requires first { IsFirstFrame (spot_of broken.now.part) broken.now.rule number }
    ensures { let spot = spot_of broken.now.part in let frames = entries_of points.now.frames.items in
        IfOk result (λ found.
        MatchOption found (HasNoneOfItem spot broken.now.rule points.now.values.items frames)
        (IsOfItem spot broken.now.rule points.now.values.items frames)) }
{
    if number <= 1 {
        return in_numbered(alloc, broken, points, number);
    }
    match in_values(alloc, broken, points, number - 1)? {
        None => {
            return in_numbered(alloc, broken, points, number);
        }
        Some(token) => {
            return Ok(Some(token));
        }
    }
}

/// The token of an expression's point at which the rule is broken, in all frames, where no frame breaks it.
fn in_all_frames(
    alloc: Global,
    broken: &Broken,
    points: &Points,
) -> Result<Option<usize>, AllocError>
    requires short { length broken.now.part.source.text.now ≤ 1048576 }
    requires none { HasNoFrame (spot_of broken.now.part) broken.now.rule (length (entries_of points.now.frames.items)) }
    ensures { let spot = spot_of broken.now.part in let values = points.now.values.items in
        IfOk result (λ found. MatchOption found
        (TurnsNot spot broken.now.rule (By.Values 18446744073709551615) (length values))
        (IsOfItem spot broken.now.rule values (entries_of points.now.frames.items))) }
{
    in_values(alloc, broken, points, usize::MAX)
}

fn among_points(
    alloc: Global,
    broken: &Broken,
    points: &Points,
) -> Result<Option<usize>, AllocError>
    requires { length broken.now.part.source.text.now ≤ 1048576 }
    ensures { let spot = spot_of broken.now.part in let frames = entries_of points.now.frames.items in
        IfOk result (λ found.
        MatchOption found (HasNoneOfItem spot broken.now.rule points.now.values.items frames)
        (IsOfItem spot broken.now.rule points.now.values.items frames)) }
{
    match first_frame(alloc, broken, points.frames.len())? {
        None => {
            return in_all_frames(alloc, broken, points);
        }
        Some(number) => {
            return among_frames(alloc, broken, points, number);
        }
    }
}

/// The token at which an item breaks the rule.
fn token_of(alloc: Global, broken: &Broken) -> Result<Option<usize>, AllocError>
    requires { length broken.now.part.source.text.now ≤ 1048576 }
    ensures { let spot = spot_of broken.now.part in IfOk result (λ found.
        MatchOption found (HasNoneOfTree spot broken.now.rule) (IsOfTree spot broken.now.rule)) }
{
    let first = short(broken.part.source.first(broken.part.number));
    let points = points_of(alloc, first, broken.part.item)?;
    among_points(alloc, broken, &points)
}

/// The token at which the item of this number breaks a rule of scope.
fn offending(
    alloc: Global,
    source: &Source,
    rule: Rule,
    number: usize,
) -> Result<Option<usize>, AllocError>
    requires { length source.now.text.now ≤ 1048576 }
    ensures { let source = source.now in IfOk result (λ found. MatchOption found
        (IsNowhere source.text.now source.tokens.now source.spans.now rule number)
        (IsFoundIn source.text.now source.tokens.now source.spans.now rule number)) }
{
    if number >= source.spans.len() {
        return Ok(None);
    }
    let Some(item) = item_of(alloc, source, number)? else {
        return Ok(None);
    };
    let part = Part {
        source: *source,
        number,
        item: &item,
    };
    token_of(alloc, &Broken { rule, part })
}

/// The token at which an item breaks a rule of scope; the item's first token where none is found, or where what is found
/// stands outside the item.
///
/// What is found is a point behind which the item, cut off there, breaks the rule, and cut off before it does not; of a
/// frame, that is a statement without its expressions, also a name or a width. Where the item breaks the rule at several
/// points, it is the first of them, but for loops that break it in other turns.
pub fn find_offence(
    alloc: Global,
    source: &Source,
    rule: Rule,
    number: usize,
) -> Result<usize, AllocError>
    requires { length source.now.text.now ≤ 1048576 }
    ensures stands { IfOk result (StandsIn source.now.tokens.now source.now.spans.now number) }
    ensures found { IfOk result
        (IsTold source.now.text.now source.now.tokens.now source.now.spans.now rule number) }
{
    let found = offending(alloc, source, rule, number)?;
    Ok(source.held(number, found))
}
