//! The call: words in, what they ask for out.

ghost use Rattle.std.specs.Prelude.{◌≡◌, IfOk, IsErrOf, Some, None, map, string_bytes};
ghost use Rattle.clap.specs.Values.{kind_of};
ghost use Rattle.clap.specs.declared.error.Error.{Error};
ghost use Rattle.clap.specs.declared.error.kind.ErrorKind.TheVariants.{OutOfMemory};
ghost use Rattle.pr_tool_words.specs.Lawful.{lawful_words};
ghost use Rattle.pr_tool_words.specs.Orders.{order_of};

use crate::asking::asked;
use crate::modes::Mode;
use crate::options::Options;
use crate::parsing::values_of;
use std::alloc::{AllocError, Global};
use thiserror::Error;

/// What the words of a command line ask for.
#[derive(Clone, Copy, PartialEq, Eq, Debug)]
pub struct Words<'a> {
    /// The mode, with its files.
    pub mode: Mode<'a>,
    /// What the options say.
    pub options: Options<'a>,
}

/// Why the words of a command line were not taken.
#[derive(Debug, Drop, Error)]
pub enum WordsFault {
    /// They are no lawful command line. A request for help or for the version is none either.
    #[error("the words are no lawful command line")]
    Usage,
    /// Memory was wanting.
    #[error("out of memory")]
    Memory(AllocError),
    /// The parser of command lines had no memory. This is its own error, which is of that kind.
    #[error("out of memory")]
    Unparsed(clap::error::Error),
}

/// What the words ask for, the program's name first among them.
#[tactic(auto, unfolding(crate::specs::Lawful::lawful_words))]
pub fn read_words<'a>(alloc: Global, words: &'a [String]) -> Result<Words<'a>, WordsFault>
    ensures order { IfOk result (λ w. lawful_words (map string_bytes words.entry.now) ≡ Some (order_of w)) }
    ensures usage { IsErrOf result WordsFault.Usage → lawful_words (map string_bytes words.entry.now) ≡ None }
    ensures unparsed { (e : Error) → IsErrOf result (WordsFault.Unparsed e) → kind_of e ≡ OutOfMemory }
{
    let values = values_of(alloc, words)?;
    asked(&values).ok_or(WordsFault::Usage)
}
