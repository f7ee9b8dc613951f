//! The words of a file, each four bytes with the highest first.

ghost use Rattle.std.specs.Prelude.{◌≡◌, ◌<◌, ◌^◌, ◌++◌, ◌+◌, ◌∷◌, [], drop, MatchResult, OnOk};
ghost use Rattle.pr_code.specs.Spelling.{bytes_of_words};
ghost use Rattle.pr_code.specs.Reading.{words_of_bytes};
ghost use Rattle.pr_code.specs.declared.faults.CodeFault.TheVariants.{BadConfig};

use crate::faults::CodeFault;
use byteorder::{BigEndian, ByteOrder};
use std::alloc::AllocError;

/// Appends a word.
#[tactic(auto, unfolding(crate::specs::Spelling::bytes_of_words))]
pub fn put_word(out: &mut Vec<u8>, word: u32) -> Result<(), AllocError>
    ensures { OnOk result (out.new.items ≡ out.old.items ++ bytes_of_words (word ∷ [])) }
{
    let mut bytes = [0; 4];
    BigEndian::write_u32(&mut bytes, word);
    out.extend_from_slice(&bytes)?;
    Ok(())
}

/// Appends four words at once.
#[tactic(auto, unfolding(crate::specs::Spelling::bytes_of_words))]
pub fn put_four(out: &mut Vec<u8>, words: [u32; 4]) -> Result<(), AllocError>
    ensures { OnOk result (out.new.items ≡ out.old.items ++ bytes_of_words words) }
{
    let mut bytes = [0; 16];
    BigEndian::write_u32_into(&words, &mut bytes);
    out.extend_from_slice(&bytes)?;
    Ok(())
}

/// Appends words.
pub fn put_words(out: &mut Vec<u8>, words: &[u32]) -> Result<(), AllocError>
    ensures { OnOk result (out.new.items ≡ out.old.items ++ bytes_of_words words.now) }
{
    for word in words {
        put_word(out, *word)?;
    }
    Ok(())
}

/// The word at a place.
pub fn word_at(bytes: &[u8], place: usize) -> Result<u32, CodeFault>
    requires { place < 2 ^ 31 }
    ensures { let words = drop place (words_of_bytes bytes.now) in
        MatchResult result (λ w. words ≡ w ∷ drop (place + 1) (words_of_bytes bytes.now))
        (λ e. (words ≡ []) × (e ≡ BadConfig 1 place)) }
{
    let at = 4 * place;
    if bytes.len() < at + 4 {
        return Err(CodeFault::BadConfig {
            rule: 1,
            place: place as u32,
        });
    }
    Ok(u32::from_be_bytes([bytes[at], bytes[at + 1], bytes[at + 2], bytes[at + 3]]))
}
