//! The names of streams in a text.

ghost use Rattle.std.specs.Prelude.{◌≡◌, ◌++◌, ◌∷◌, [], IfOk, OnOk, if◌then◌else◌};
ghost use Rattle.pr_lens_source.specs.Kinds.{is_name};
ghost use Rattle.pr_lens_origins.specs.Spots.{is_stream_name, name_tokens, names_stream};

use pr_lang::{Keyword, Kind};
use pr_lens_source::{Source, is_name};
use std::alloc::{AllocError, Global};

/// Whether the name behind this word is that of a stream.
fn names_stream(kind: Kind) -> bool
    ensures { result ≡ names_stream kind }
{
    match kind {
        Kind::Word(keyword) => match keyword {
            Keyword::Input | Keyword::Output | Keyword::Let | Keyword::Rec => true,
            _ => false,
        },
        _ => false,
    }
}

/// Whether a token is the name of a stream, where that is introduced.
#[tactic(auto, unfolding(crate::specs::Spots::is_stream_name))]
fn is_stream_name(source: &Source, at: usize) -> bool
    ensures { result ≡ is_stream_name source.now.tokens.now at }
{
    is_name(source.kind(at)) && names_stream(source.kind(at.saturating_sub(1)))
}

/// Adds a token, where it is such a name.
fn put_name(names: &mut Vec<usize>, source: &Source, at: usize) -> Result<(), AllocError>
    ensures { OnOk result (names.new.items ≡ names.old.items
        ++ (if is_stream_name source.now.tokens.now at then at ∷ [] else [])) }
{
    if is_stream_name(source, at) {
        names.push(at)?;
    }
    Ok(())
}

/// The tokens at which streams are introduced by their names.
#[tactic(auto, unfolding(crate::specs::Spots::name_tokens))]
pub fn names_in(alloc: Global, source: &Source) -> Result<Vec<usize>, AllocError>
    ensures { IfOk result (λ names. names.items ≡ name_tokens source.now.tokens.now) }
{
    let mut names = Vec::new(alloc);
    for at in 0..source.tokens.len() {
        put_name(&mut names, source, at)?;
    }
    Ok(names)
}
