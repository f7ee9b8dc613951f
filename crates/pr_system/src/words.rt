//! The words of the command line.
ghost use Rattle.std.specs.Prelude.{◌≡◌, Err, IfOk, IfErr};
ghost use Rattle.std.specs.IoError.{error_kind};
ghost use Rattle.std.specs.Vec.Iter.{into_iter_items};
ghost use Rattle.pr_system.specs.Words.{fault_of};
ghost use Rattle.pr_system.specs.declared.words.WordsFault.{WordsFault};

use std::alloc::{AllocError, Global};
use std::env::{self, Args};
use std::io::{self, ErrorKind};
use std::rt::Env;

/// Why the words of the command line cannot be had.
#[derive(Clone, Copy, PartialEq, Eq, Debug)]
pub enum WordsFault {
    /// A word is no text.
    NoText,
    /// Memory was wanting.
    Memory,
}

impl From<AllocError> for WordsFault {
    ghost use Rattle.std.specs.Prelude.{◌≡◌};
    ghost use Rattle.pr_system.specs.declared.words.WordsFault.TheVariants.{Memory};

    ghost from_gives = { λ a e. e ≡ Memory };

    fn from(_error: AllocError) -> WordsFault {
        WordsFault::Memory
    }
}

/// Why the words cannot be had, by what the system says.
fn fault_of(kind: ErrorKind) -> WordsFault
    ensures { result ≡ fault_of kind }
{
    match kind {
        ErrorKind::InvalidData => WordsFault::NoText,
        _ => WordsFault::Memory,
    }
}

/// The words that the system gave, in a list.
fn listed(alloc: Global, given: io::Result<Args>) -> Result<Vec<String>, WordsFault>
    ensures words { IfOk given (λ words. IfOk result (λ list. list.items ≡ into_iter_items words)) }
    ensures full { IfOk given (λ words. IfErr result (λ fault. fault ≡ WordsFault.Memory)) }
    ensures refused { IfErr given (λ e. result ≡ Err (fault_of (error_kind e))) }
{
    match given {
        Ok(words) => Ok(words.collect(alloc)?),
        Err(e) => Err(fault_of(e.kind())),
    }
}

/// The words of the command line, the program's name first.
///
/// # Errors
///
/// `NoText` for a word that is no text, and `Memory` for any other cause.
pub fn words_of<R: Env + AllocGlobal>(rt: &R) -> Result<Vec<String>, WordsFault> {
    listed(rt.alloc(), env::args(rt))
}
