//! Words, each after a space.

ghost use Rattle.std.specs.Prelude.{◌≡◌, ◌++◌, ◌∷◌, [], OnOk};
ghost use Rattle.pr_lang.specs.Word.{named, numbered, keyword, symbol};
ghost use Rattle.pr_parse_print.specs.Put.{IsPut, comma_before};

use itoa::Buffer;
use pr_lang::{Keyword, Name, Symbol};
use std::alloc::AllocError;

/// A space and these bytes.
fn put_bytes(text: &mut Vec<u8>, bytes: &[u8]) -> Result<(), AllocError>
    ensures { OnOk result (text.new.items ≡ text.old.items ++ 32 ∷ bytes.now) }
{
    text.push(b' ')?;
    text.extend_from_slice(bytes)
}

pub fn put_keyword(text: &mut Vec<u8>, key: Keyword) -> Result<(), AllocError>
    ensures { OnOk result (IsPut text.old.items (keyword key ∷ []) text.new.items) }
{
    put_bytes(text, key.as_str().as_bytes())
}

pub fn put_symbol(text: &mut Vec<u8>, mark: Symbol) -> Result<(), AllocError>
    ensures { OnOk result (IsPut text.old.items (symbol mark ∷ []) text.new.items) }
{
    put_bytes(text, mark.as_str().as_bytes())
}

pub fn put_number(text: &mut Vec<u8>, value: u64) -> Result<(), AllocError>
    ensures { OnOk result (IsPut text.old.items (numbered value ∷ []) text.new.items) }
{
    let mut buffer = Buffer::new();
    put_bytes(text, buffer.format(value).as_bytes())
}

pub fn put_name(text: &mut Vec<u8>, name: &Name) -> Result<(), AllocError>
    ensures { OnOk result (IsPut text.old.items (named name.now ∷ []) text.new.items) }
{
    put_bytes(text, name.as_bytes())
}

/// A keyword and a name.
pub fn put_named(text: &mut Vec<u8>, key: Keyword, name: &Name) -> Result<(), AllocError>
    ensures { OnOk result (IsPut text.old.items (keyword key ∷ named name.now ∷ []) text.new.items) }
{
    put_keyword(text, key)?;
    put_name(text, name)
}

/// The comma before the element with this number, which the first does not have.
pub fn put_comma(text: &mut Vec<u8>, i: usize) -> Result<(), AllocError>
    ensures { OnOk result (IsPut text.old.items (comma_before i) text.new.items) }
{
    if i == 0 {
        return Ok(());
    }
    put_symbol(text, Symbol::Comma)
}
