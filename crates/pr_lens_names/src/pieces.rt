//! Pieces of messages.

ghost use Rattle.std.specs.Prelude.{◌≡◌, ◌++◌, OnOk};
ghost use Rattle.pr_lens_names.specs.Pieces.{is_end, place_text, quoted, token_text};

use pr_lang::Kind;
use pr_lens_source::Source;
use pr_lens_text::{place_at, put, put_counted};
use std::alloc::AllocError;

/// Whether this is the end of the text.
fn is_end(kind: Kind) -> bool
    ensures { result ≡ is_end kind }
{
    matches!(kind, Kind::End)
}

/// Adds bytes in quotes.
#[tactic(auto, unfolding(crate::specs::Pieces::quoted))]
pub fn put_in_quotes(message: &mut Vec<u8>, bytes: &[u8]) -> Result<(), AllocError>
    ensures { OnOk result (message.new.items ≡ message.old.items ++ quoted bytes.now) }
{
    put(message, "`")?;
    message.extend_from_slice(bytes)?;
    put(message, "`")
}

/// Adds a token as it is written, in quotes; the end of the text as a sentence begins with it.
#[tactic(auto, unfolding(crate::specs::Pieces::token_text))]
pub fn put_quoted(message: &mut Vec<u8>, source: &Source, token: usize) -> Result<(), AllocError>
    ensures { OnOk result (message.new.items
        ≡ message.old.items ++ token_text source.now.text.now source.now.tokens.now token) }
{
    if is_end(source.kind(token)) {
        return put(message, "The end of the text");
    }
    put_in_quotes(message, source.bytes(token))
}

/// Adds the line and the column of a token.
#[tactic(auto, unfolding(crate::specs::Pieces::place_text))]
pub fn put_place(message: &mut Vec<u8>, source: &Source, token: usize) -> Result<(), AllocError>
    ensures { OnOk result (message.new.items
        ≡ message.old.items ++ place_text source.now.text.now source.now.tokens.now token) }
{
    let place = place_at(source.text, source.start(token));
    put_counted(message, "line ", place.line)?;
    put_counted(message, " column ", place.column)
}
