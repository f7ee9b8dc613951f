//! Opening the next stripe.

ghost use Rattle.std.specs.Prelude.{◌≡◌, ◌≤◌, ◌<◌, ◌+◌, ◌-◌, ℕ, All, length, slice_index, slice_set};
ghost use Rattle.pr_place.specs.Plans.{count_of_lists};
ghost use Rattle.pr_place.specs.Registers.{count_of};
ghost use Rattle.pr_place.specs.Tables.{readers_in};
ghost use Rattle.pr_place.specs.Opening.{noted, readings, AreLists, Woken};

use crate::candidates::Candidates;
use crate::lookups::Tables;

/// Notes the stage of these groups.
pub fn note(stages: &mut Vec<Option<u32>>, groups: &[u32], stage: u32)
    requires { All (λ g. g < length stages.old.items) groups.now }
    ensures { stages.new.items ≡ noted stage stages.old.items groups.now }
{
    for &group in groups {
        stages[group as usize] = Some(stage);
    }
}

/// A group waits for one reading less, and is a candidate once it waits for none.
fn wake_one(class: &[u8], waits: &mut Vec<usize>, candidates: &mut Candidates, group: usize)
    requires lists { AreLists class.now waits.old.items candidates.old }
    requires there { group < length waits.old.items }
    requires waits { 1 ≤ slice_index waits.old.items group }
    ensures lists { AreLists class.now waits.new.items candidates.new }
    ensures waits { waits.new.items ≡ slice_set waits.old.items group (slice_index waits.old.items group - 1) }
    ensures woken { Woken class.now waits.old.items candidates.old.ready.items
        waits.new.items candidates.new.ready.items }
{
    waits[group] -= 1;
    if waits[group] == 0 {
        candidates.add(group, class[group]);
    }
}

/// All these groups wait for one reading less.
fn wake_readers(
    class: &[u8],
    waits: &mut Vec<usize>,
    candidates: &mut Candidates,
    readers: &[usize],
)
    requires lists { AreLists class.now waits.old.items candidates.old }
    requires there { All (λ g. g < length waits.old.items) readers.now }
    requires waits { (g : ℕ) → count_of g readers.now ≤ slice_index waits.old.items g }
    ensures lists { AreLists class.now waits.new.items candidates.new }
    ensures long { length waits.new.items ≡ length waits.old.items }
    ensures waits { (g : ℕ) → slice_index waits.new.items g + count_of g readers.now ≡ slice_index waits.old.items g }
    ensures woken { Woken class.now waits.old.items candidates.old.ready.items
        waits.new.items candidates.new.ready.items }
{
    for &reader in readers {
        wake_one(class, waits, candidates, reader);
    }
}

/// The readers of these groups wait for them no more.
pub fn wake(tables: &Tables, waits: &mut Vec<usize>, candidates: &mut Candidates, groups: &[u32])
    requires lists { AreLists tables.now.class.items waits.old.items candidates.old }
    requires long { count_of_lists tables.now.readers ≡ length waits.old.items }
    requires there { (h : ℕ) → All (λ g. g < length waits.old.items) (readers_in tables.now h) }
    requires groups { All (λ h. h < length waits.old.items) groups.now }
    requires waits { (g : ℕ) → readings tables.now g groups.now ≤ slice_index waits.old.items g }
    ensures lists { AreLists tables.now.class.items waits.new.items candidates.new }
    ensures long { length waits.new.items ≡ length waits.old.items }
    ensures waits { (g : ℕ) → slice_index waits.new.items g + readings tables.now g groups.now ≡
        slice_index waits.old.items g }
    ensures woken { Woken tables.now.class.items waits.old.items candidates.old.ready.items
        waits.new.items candidates.new.ready.items }
{
    for &group in groups {
        wake_readers(
            &tables.class,
            waits,
            candidates,
            tables.readers.of(group as usize),
        );
    }
}
