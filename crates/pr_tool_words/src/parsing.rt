//! The parser of the command line: which value each option and each place has.

ghost use Rattle.std.specs.Prelude.{◌≡◌, IfOk, IsErrOf, Some, None, map, string_bytes, false, option_map};
ghost use Rattle.clap.specs.Values.{kind_of};
ghost use Rattle.clap.specs.Words.{app_of, rule_of, found_of};
ghost use Rattle.clap.specs.declared.error.Error.{Error};
ghost use Rattle.clap.specs.declared.error.kind.ErrorKind.TheVariants.{OutOfMemory};
ghost use Rattle.pr_tool_words.specs.Lawful.{said_by, is_true};
ghost use Rattle.pr_tool_words.specs.Orders.{said_in, found_in};
ghost use Rattle.pr_tool_words.specs.Shape.{app, place, option, option_or, flag};

use crate::calling::WordsFault;
use clap::error::ErrorKind;
use clap::{Arg, ArgAction, ArgMatches, Command};
use std::alloc::{AllocError, Global};

/// The number of stripes where none is given.
const STRIPES: &str = "16";
/// The fabric where none is given.
const FABRIC: &str = "base";

/// The values of a command line, as they were written.
#[derive(Clone, Copy, Drop)]
pub struct Values<'a> {
    pub mode: &'a str,
    pub first: Option<&'a str>,
    pub second: Option<&'a str>,
    pub stripes: &'a str,
    pub stall: Option<&'a str>,
    pub fabric: &'a str,
    pub narrow: bool,
}

/// A place for a word.
fn place<'a>(alloc: Global, name: &'a str, required: bool) -> Arg<'a>
    ensures rule { rule_of result ≡ place name.entry.now required }
    ensures local { result.global ≡ false }
{
    Arg::new(alloc, name).required(required)
}

/// An option with a value.
fn option<'a>(alloc: Global, name: &'a str) -> Arg<'a>
    ensures rule { rule_of result ≡ option name.entry.now }
    ensures local { result.global ≡ false }
{
    Arg::new(alloc, name).long(name)
}

/// An option with a value, and the value where it is not given.
fn option_or<'a>(alloc: Global, name: &'a str, usual: &'a str) -> Arg<'a>
    ensures rule { rule_of result ≡ option_or name.entry.now usual.entry.now }
    ensures local { result.global ≡ false }
{
    Arg::new(alloc, name).long(name).default_value(usual)
}

/// An option without a value.
fn flag<'a>(alloc: Global, name: &'a str) -> Arg<'a>
    ensures rule { rule_of result ≡ flag name.entry.now }
    ensures local { result.global ≡ false }
{
    Arg::new(alloc, name).long(name).action(ArgAction::SetTrue)
}

/// The command line of the tool.
fn command<'a>(alloc: Global) -> Result<Command<'a>, AllocError>
    ensures { IfOk result (λ c. app_of c ≡ app) }
{
    let mode = Command::new(alloc, "piperench").arg(place(alloc, "mode", true))?;
    let first = mode.arg(place(alloc, "first", false))?;
    let second = first.arg(place(alloc, "second", false))?;
    let stripes = second.arg(option_or(alloc, "stripes", STRIPES))?;
    let stall = stripes.arg(option(alloc, "stall"))?;
    let fabric = stall.arg(option_or(alloc, "fabric", FABRIC))?;
    fabric.arg(flag(alloc, "narrow"))
}

/// Whether the value of a flag is `true`.
fn is_true(value: Option<&str>) -> bool
    ensures { result ≡ is_true (option_map (λ s. s.now) value.entry) }
{
    match value {
        Some(text) => text == "true",
        None => false,
    }
}

/// The values among the matches, where those are there that always are.
fn found<'a>(matches: &ArgMatches<'a>) -> Option<Values<'a>>
    ensures { option_map said_in result ≡ found_in (found_of matches.now) }
{
    Some(Values {
        mode: matches.get_str("mode")?,
        first: matches.get_str("first"),
        second: matches.get_str("second"),
        stripes: matches.get_str("stripes")?,
        stall: matches.get_str("stall"),
        fabric: matches.get_str("fabric")?,
        narrow: is_true(matches.get_str("narrow")),
    })
}

/// The values of the command line, where its words are one.
pub fn values_of<'a>(alloc: Global, words: &'a [String]) -> Result<Values<'a>, WordsFault>
    ensures values { IfOk result (λ v. said_by (map string_bytes words.entry.now) ≡ Some (said_in v)) }
    ensures usage { IsErrOf result WordsFault.Usage → said_by (map string_bytes words.entry.now) ≡ None }
    ensures unparsed { (e : Error) → IsErrOf result (WordsFault.Unparsed e) → kind_of e ≡ OutOfMemory }
{
    let command = command(alloc).map_err(WordsFault::Memory)?;
    let matches = match command.try_get_matches_from(words) {
        Ok(matches) => matches,
        Err(e) => match e.kind() {
            ErrorKind::OutOfMemory => return Err(WordsFault::Unparsed(e)),
            _ => return Err(WordsFault::Usage),
        },
    };
    found(&matches).ok_or(WordsFault::Usage)
}
