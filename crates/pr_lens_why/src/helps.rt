//! Which options make a program that is refused fit.

ghost use Rattle.std.specs.Prelude.{◌≡◌, ◌≤◌, ◌++◌, true, length, IfOk, OnOk};
ghost use Rattle.pr_compile.specs.Refusals.{IsCompileAnswer};
ghost use Rattle.pr_lens_why.specs.Helps.{IsFitting, IsHelp, help_text, may_narrow, may_widen, narrow_words, wide_words};

use pr_base::Cap;
use pr_compile::{CompileFault, compile_counted};
use pr_lens_text::put;
use std::alloc::{AllocError, Global};

/// Which options make a program that is refused fit.
#[derive(Clone, Copy, PartialEq, Eq, Debug)]
pub struct Help {
    /// `--narrow`, with the other options as they are.
    pub narrow: bool,
    /// `--fabric wide`, the same.
    pub wide: bool,
}

impl Help {
    /// No option.
    pub const NONE: Help = Help {
        narrow: false,
        wide: false,
    };
}

/// That the program of a text does not fit, as this answer says; want of memory is none.
fn not_fitting<const N: usize, const P: usize>(
    text: &[u8],
    narrowed: bool,
    fault: CompileFault,
) -> Result<bool, AllocError>
    requires { IsCompileAnswer N P narrowed text.now fault }
    ensures { IfOk result (IsFitting true N P narrowed text.now) }
{
    match fault {
        CompileFault::Memory(error) => Err(error),
        _ => Ok(false),
    }
}

/// Whether the program of a text fits on N columns and P registers, with narrowed equations or without, where that is
/// asked.
fn fits_on<const N: usize, const P: usize>(
    alloc: Global,
    text: &[u8],
    narrowed: bool,
    asked: bool,
) -> Result<bool, AllocError>
    requires short { length text.now ≤ 1048576 }
    requires columns { 1 ≤ N }
    requires most_columns { N ≤ 64 }
    requires registers { 2 ≤ P }
    requires most_registers { P ≤ 16 }
    ensures { IfOk result (IsFitting asked N P narrowed text.now) }
{
    if !asked {
        return Ok(false);
    }
    match compile_counted::<N, P>(alloc, text, narrowed) {
        Ok(_compiled) => Ok(true),
        Err(fault) => not_fitting::<N, P>(text, narrowed, fault),
    }
}

/// Whether fewer bits may help.
fn may_narrow(fault: &CompileFault) -> bool
    ensures { result ≡ may_narrow fault.now }
{
    match fault {
        CompileFault::NoFit { unit: _ } | CompileFault::Limit(Cap::Units) => true,
        _ => false,
    }
}

/// Whether more columns may help.
fn may_widen(fault: &CompileFault) -> bool
    ensures { result ≡ may_widen fault.now }
{
    match fault {
        CompileFault::NoFit { unit: _ } | CompileFault::Limit(Cap::InputBytes) => true,
        _ => false,
    }
}

/// Which options make a program fit that this fault refuses, on N columns and P registers, with narrowed equations or
/// without. It is compiled once more for each option that may help.
pub fn help_of<const N: usize, const P: usize>(
    alloc: Global,
    text: &[u8],
    narrowed: bool,
    fault: &CompileFault,
) -> Result<Help, AllocError>
    requires short { length text.now ≤ 1048576 }
    requires columns { 1 ≤ N }
    requires most_columns { N ≤ 64 }
    requires registers { 2 ≤ P }
    requires most_registers { P ≤ 16 }
    ensures { IfOk result (IsHelp N P narrowed text.now fault.now) }
{
    let narrow = may_narrow(fault) && !narrowed;
    let wide = may_widen(fault) && N < 32;
    Ok(Help {
        narrow: fits_on::<N, P>(alloc, text, true, narrow)?,
        wide: fits_on::<32, 16>(alloc, text, narrowed, wide)?,
    })
}

/// That the program fits with narrowed equations, where it does.
fn narrow_words(fits: bool) -> &'static str
    ensures { result.now ≡ narrow_words fits }
{
    if fits {
        "With `--narrow` the program fits.\n"
    } else {
        ""
    }
}

/// That the program fits on the wide fabric, where it does.
fn wide_words(fits: bool) -> &'static str
    ensures { result.now ≡ wide_words fits }
{
    if fits {
        "On `--fabric wide` the program fits.\n"
    } else {
        ""
    }
}

/// Adds a line for each option that helps.
pub fn put_help(message: &mut Vec<u8>, help: &Help) -> Result<(), AllocError>
    ensures { OnOk result (message.new.items ≡ message.old.items ++ help_text help.now) }
{
    put(message, narrow_words(help.narrow))?;
    put(message, wide_words(help.wide))
}
