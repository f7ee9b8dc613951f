//! Recurrences that read each other.

ghost use Rattle.std.specs.Prelude.{◌≡◌, ◌<◌, length};
ghost use Rattle.pr_lens_source.specs.Kinds.{is_at, is_by, is_for, is_rec};
ghost use Rattle.pr_lens_rules.specs.Uses.{body_reads, first_sought, is_crossed, is_mutual, is_sought};

use pr_lens_names::{is_same_instance, is_target, kind_behind, target_around};
use pr_lens_source::{Source, is_at, is_by, is_for, is_rec};

/// What is looked for among tokens.
#[derive(Clone, Copy)]
pub enum Sought {
    /// The word with which a loop begins.
    Loop,
    /// The word before the body of a recurrence.
    Body,
    /// A name that is written as this one, with its index, in the statement with this target.
    Read { name: usize, target: usize },
}

/// Whether a token is one of those that are looked for.
fn is_sought(source: &Source, sought: Sought, at: usize) -> bool
    ensures { result ≡ is_sought source.now.text.now source.now.tokens.now sought at }
{
    match sought {
        Sought::Loop => is_for(source.kind(at)),
        Sought::Body => is_by(source.kind(at)),
        Sought::Read { name, target } => {
            is_same_instance(source, name, at) && is_target(target_around(source, at), target)
        }
    }
}

/// The first such token from one up to another, and that other one where there is none.
fn first_sought(source: &Source, sought: Sought, from: usize, to: usize) -> usize
    ensures { result ≡ first_sought source.now.text.now source.now.tokens.now sought from to }
{
    for at in from..to {
        if is_sought(source, sought, at) {
            return at;
        }
    }
    to
}

/// Whether the body of the recurrence that begins with a token reads the instance at another one.
#[tactic(auto, unfolding(crate::specs::Uses::body_reads))]
fn body_reads(source: &Source, first: usize, name: usize) -> bool
    requires { first < length source.now.tokens.now }
    ensures { result ≡ body_reads source.now.text.now source.now.tokens.now first name }
{
    let tokens = source.tokens.len();
    let body = first_sought(source, Sought::Body, first, tokens);
    let target = first + 1;
    first_sought(source, Sought::Read { name, target }, body, tokens) < tokens
}

/// Whether the recurrence with this target reads another one at a token, before `@`, and that one, which begins behind with
/// a token and in the same loop, reads it back.
#[tactic(auto, unfolding(crate::specs::Uses::is_mutual))]
fn is_mutual(source: &Source, token: usize, own: usize, first: usize) -> bool
    requires { first < length source.now.tokens.now }
    ensures { result ≡ is_mutual source.now.text.now source.now.tokens.now token own first }
{
    is_rec(source.kind(own.saturating_sub(1)))
        && is_at(kind_behind(source, token, 1))
        && is_same_instance(source, token, first + 1)
        && first_sought(source, Sought::Loop, own, first) == first
        && body_reads(source, first, own)
}

/// The same, where the token stands in a statement with a target.
pub fn is_crossed(source: &Source, token: usize, target: Option<usize>, first: usize) -> bool
    requires { first < length source.now.tokens.now }
    ensures { result ≡ is_crossed source.now.text.now source.now.tokens.now token target first }
{
    match target {
        None => {
            return false;
        }
        Some(own) => {
            return is_mutual(source, token, own, first);
        }
    }
}
