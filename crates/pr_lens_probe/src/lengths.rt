//! How long the names of a program are.

ghost use Rattle.std.specs.Prelude.{◌≡◌, ◌≤◌, ℕ, length};
ghost use Rattle.pr_probe.specs.Probes.{AreNamed, HaveNames};
ghost use Rattle.pr_lens_probe.specs.Fresh.{IsNamed, is_within};

use pr_lang::Item;
use pr_scope_names::Instance;

/// The length of the one name that every program knows, `signed`.
const BUILT_IN: usize = 6;

/// The length of the name that an item introduces, unless that is a stream; 0 for a stream.
fn length_of(item: &Item) -> usize
    ensures { (most : ℕ) → result ≤ most → IsNamed (is_within most) item.now }
{
    match item {
        Item::Const { name, value: _ } => name.as_bytes().len(),
        Item::Table { name, values: _ } => name.as_bytes().len(),
        Item::Function {
            name,
            params: _,
            width: _,
            body: _,
            result: _,
        } => name.as_bytes().len(),
        _ => 0,
    }
}

/// The greatest length of a name that is none of a stream.
fn longest_static(items: &[Item]) -> usize
    ensures { (most : ℕ) → result ≤ most → HaveNames (is_within most) items.now }
{
    let mut longest = BUILT_IN;
    for item in items {
        longest = longest.max(length_of(item));
    }
    longest
}

/// The length of the name of an instance.
fn name_length(instance: &Instance) -> usize
    ensures { result ≡ length instance.now.name }
{
    instance.name.as_bytes().len()
}

/// The greatest length of a name of an instance.
fn longest_instance(instances: &[Instance]) -> usize
    ensures { (most : ℕ) → result ≤ most → AreNamed (is_within most) instances.now }
{
    let mut longest = 0;
    for instance in instances {
        longest = longest.max(name_length(instance));
    }
    longest
}

/// The greatest length of a name, in bytes.
pub fn longest(items: &[Item], instances: &[Instance]) -> usize
    ensures statics { HaveNames (is_within result) items.now }
    ensures instances { AreNamed (is_within result) instances.now }
{
    let statics = longest_static(items);
    let streams = longest_instance(instances);
    statics.max(streams)
}
