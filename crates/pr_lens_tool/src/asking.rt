//! From words to an order.

ghost use Rattle.std.specs.Prelude.{◌≡◌, IfOk, IsErrOf, Some, None, true, false, option_map};
ghost use Rattle.clap.specs.Values.{kind_of};
ghost use Rattle.clap.specs.Words.{app_of, rule_of, found_of};
ghost use Rattle.clap.specs.declared.error.Error.{Error};
ghost use Rattle.clap.specs.declared.error.kind.ErrorKind.TheVariants.{OutOfMemory};
ghost use Rattle.pr_tool_words.specs.Lawful.{fabric_named, is_true, number_in};
ghost use Rattle.pr_tool_words.specs.Shape.{place, option, option_or, flag};
ghost use Rattle.pr_lens_tool.specs.Asked.{asked_in, product_in, task_in};
ghost use Rattle.pr_lens_tool.specs.Tasks.{are_name_bytes, form_of, is_module_name, is_name_byte, module_named, one_file, said_in, task_of, two_files};
ghost use Rattle.pr_lens_tool.specs.Orders.{AskForHelp, MayAskForHelp, app, asked_of, asked_by, said_of};

use crate::orders::{Drawing, Order, Product, Question, Target, Task};
use clap::error::ErrorKind;
use clap::{Arg, ArgAction, ArgMatches, Command};
use itoa::Buffer;
use pr_base::Fabric;
use pr_lens_log::Window;
use pr_lens_signals::Style;
use pr_lens_tracks::Form;
use pr_tool_words::number_in;
use std::alloc::{AllocError, Global};

/// Why the words of a command line are no order.
#[derive(Drop)]
pub enum OrderFault {
    /// They ask for the help.
    Help,
    /// They are no lawful command line.
    Usage,
    /// Memory was wanting.
    Memory(AllocError),
    /// The parser of command lines had no memory. This is its own error, which is of that kind.
    Unparsed(clap::error::Error),
}

impl From<AllocError> for OrderFault {
    ghost use Rattle.std.specs.Prelude.{◌≡◌};
    ghost use Rattle.pr_lens_tool.specs.declared.asking.OrderFault.TheVariants.{Memory};

    ghost from_gives = { λ a e. e ≡ Memory a };

    fn from(error: AllocError) -> OrderFault {
        OrderFault::Memory(error)
    }
}

/// The values of all options.
#[derive(Clone, Copy)]
pub struct Options<'a> {
    fabric: Fabric,
    narrowed: bool,
    samples: u32,
    json: bool,
    warnings: bool,
    /// The name of a module.
    name: &'a str,
    style: Style<'a>,
    seed: u32,
    window: Window,
}

/// The fabric where none is given.
const FABRIC: &str = "base";
/// The samples of a run where no number is given.
const SAMPLES: &str = "1000";
/// The name of a module where none is given.
const NAME: &str = "pipeline";
/// The seed of a bench where none is given.
const SEED: &str = "1";
/// The first and the last cycle that are drawn where none are given.
const FROM: &str = "0";

const TO: &str = "18446744073709551615";

/// A place for a word, which has to be there or not.
fn place<'a>(alloc: Global, name: &'a str, required: bool) -> Arg<'a>
    ensures rule { rule_of result ≡ place name.entry.now required }
    ensures local { result.global ≡ false }
{
    Arg::new(alloc, name).required(required)
}

/// An option with a value, which may be left out.
fn option<'a>(alloc: Global, name: &'a str) -> Arg<'a>
    ensures rule { rule_of result ≡ option name.entry.now }
    ensures local { result.global ≡ false }
{
    Arg::new(alloc, name).long(name)
}

/// An option with a value, and the value where it is not given.
fn option_or<'a>(alloc: Global, name: &'a str, usual: &'a str) -> Arg<'a>
    ensures rule { rule_of result ≡ option_or name.entry.now usual.entry.now }
    ensures local { result.global ≡ false }
{
    Arg::new(alloc, name).long(name).default_value(usual)
}

/// An option without a value.
fn flag<'a>(alloc: Global, name: &'a str) -> Arg<'a>
    ensures rule { rule_of result ≡ flag name.entry.now }
    ensures local { result.global ≡ false }
{
    Arg::new(alloc, name).long(name).action(ArgAction::SetTrue)
}

/// The command line.
fn command<'a>(alloc: Global) -> Result<Command<'a>, AllocError>
    ensures { IfOk result (λ c. app_of c ≡ app) }
{
    let task = Command::new(alloc, "pipelens").arg(place(alloc, "task", true))?;
    let file = task.arg(place(alloc, "file", true))?;
    let second = file.arg(place(alloc, "second", false))?;
    let fabric = second.arg(option_or(alloc, "fabric", FABRIC))?;
    let narrow = fabric.arg(flag(alloc, "narrow"))?;
    let samples = narrow.arg(option_or(alloc, "samples", SAMPLES))?;
    let json = samples.arg(flag(alloc, "json"))?;
    let csv = json.arg(flag(alloc, "csv"))?;
    let warnings = csv.arg(flag(alloc, "no-warnings"))?;
    let name = warnings.arg(option_or(alloc, "name", NAME))?;
    let signed = name.arg(option(alloc, "signed"))?;
    let seed = signed.arg(option_or(alloc, "seed", SEED))?;
    let from = seed.arg(option_or(alloc, "from", FROM))?;
    from.arg(option_or(alloc, "to", TO))
}

/// Whether the value of an option without one is `true`.
fn is_true(value: Option<&str>) -> bool
    ensures { result ≡ is_true (option_map (λ s. s.now) value.entry) }
{
    match value {
        Some(text) => text == "true",
        None => false,
    }
}

/// The fabric of this name.
fn fabric_named(name: &str) -> Option<Fabric>
    ensures { result ≡ fabric_named name.now }
{
    match name {
        "base" => Some(Fabric::Base),
        "wide" => Some(Fabric::Wide),
        _ => None,
    }
}

/// Whether a byte may stand in the name of a module.
fn is_name_byte(byte: u8) -> bool
    ensures { result ≡ is_name_byte byte }
{
    matches!(byte, b'A'..=b'Z' | b'a'..=b'z' | b'0'..=b'9' | b'_')
}

/// Whether all of these bytes may stand in the name of a module.
fn are_name_bytes(bytes: &[u8]) -> bool
    ensures { result ≡ are_name_bytes bytes.now }
{
    bytes.iter().all(|&byte| is_name_byte(byte))
}

/// Whether a module may have this name: a letter or an underscore, then such or digits.
fn is_module_name(name: &str) -> bool
    ensures { result ≡ is_module_name name.now }
{
    let bytes = name.as_bytes();
    match bytes.first() {
        None => false,
        Some(first) => !first.is_ascii_digit() && are_name_bytes(bytes),
    }
}

/// The name of a module, where it may have it.
fn module_named<'a>(name: &'a str) -> Option<&'a str>
    ensures { option_map (λ s. s.now) result ≡ module_named name.now }
{
    if is_module_name(name) {
        Some(name)
    } else {
        None
    }
}

/// The number of 64 bits that the text says in decimal digits without leading zeros.
fn long_in(text: &str) -> Option<u64>
    ensures { result ≡ number_in 0 18446744073709551615 text.now }
{
    let number = match text.parse::<u64>() {
        Ok(number) => number,
        Err(_) => return None,
    };
    let mut buffer = Buffer::new();
    if buffer.format(number) == text {
        Some(number)
    } else {
        None
    }
}

/// The kind of the text of streams.
fn form_of(csv: bool) -> Form
    ensures { result ≡ form_of csv }
{
    if csv { Form::Csv } else { Form::Wave }
}

/// The values of the options, where all are lawful, also of those that the task has no use for.
fn options_of<'a>(matches: &ArgMatches<'a>) -> Option<Options<'a>>
    ensures { option_map said_in result ≡ said_of (found_of matches.now) }
{
    let fabric = fabric_named(matches.get_str("fabric")?)?;
    let samples = number_in(matches.get_str("samples")?, 0, u32::MAX)?;
    let name = module_named(matches.get_str("name")?)?;
    let seed = number_in(matches.get_str("seed")?, 0, u32::MAX)?;
    let from = long_in(matches.get_str("from")?)?;
    let to = long_in(matches.get_str("to")?)?;
    Some(Options {
        fabric,
        narrowed: is_true(matches.get_str("narrow")),
        samples,
        json: is_true(matches.get_str("json")),
        warnings: !is_true(matches.get_str("no-warnings")),
        name,
        style: Style {
            form: form_of(is_true(matches.get_str("csv"))),
            signed: matches.get_str("signed"),
        },
        seed,
        window: Window { from, to },
    })
}

/// What is made of one file by the task of this name.
fn one_file<'a>(task: &str, options: &Options<'a>) -> Option<Product<'a>>
    ensures { option_map product_in result ≡ one_file task.now (said_in options.now) }
{
    match task {
        "why" => Some(Product::OfProgram(Question::Why {
            json: options.json,
            warnings: options.warnings,
        })),
        "cost" => Some(Product::OfProgram(Question::Cost {
            json: options.json,
            samples: options.samples,
        })),
        "graph" => Some(Product::OfProgram(Question::Graph)),
        "rtl" => Some(Product::OfProgram(Question::Rtl { name: options.name })),
        "wave" => Some(Product::OfLog {
            drawing: Drawing::Wave,
            window: options.window,
        }),
        "chart" => Some(Product::OfLog {
            drawing: Drawing::Chart,
            window: options.window,
        }),
        _ => None,
    }
}

/// The task of this name on a program and samples.
fn two_files<'a>(task: &str, samples: &'a str, options: &Options<'a>) -> Option<Task<'a>>
    ensures { option_map task_in result ≡ two_files task.now samples.entry.now (said_in options.now) }
{
    match task {
        "signals" => Some(Task::Signals {
            samples,
            style: options.style,
        }),
        "testbench" => Some(Task::Whole(Product::Bench {
            samples,
            name: options.name,
            seed: options.seed,
        })),
        _ => None,
    }
}

/// The task of this name, where a second file is given or none.
fn task_of<'a>(task: &str, second: Option<&'a str>, options: &Options<'a>) -> Option<Task<'a>>
    ensures { option_map task_in result ≡
        task_of task.now (option_map (λ s. s.now) second.entry) (said_in options.now) }
{
    match second {
        None => Some(Task::Whole(one_file(task, options)?)),
        Some(samples) => two_files(task, samples, options),
    }
}

/// The order among the matches, where its words are lawful.
fn found<'a>(matches: &ArgMatches<'a>) -> Option<Order<'a>>
    ensures { option_map asked_in result ≡ asked_of (found_of matches.now) }
{
    let options = options_of(matches)?;
    let task = task_of(
        matches.get_str("task")?,
        matches.get_str("second"),
        &options,
    )?;
    let target = Target {
        file: matches.get_str("file")?,
        fabric: options.fabric,
        narrowed: options.narrowed,
    };
    Some(Order { target, task })
}

/// What the words ask for, the program's name first among them.
pub fn read_order<'a>(alloc: Global, words: &'a [String]) -> Result<Order<'a>, OrderFault>
    ensures order { IfOk result (λ o. asked_by words.entry.now ≡ Some (asked_in o)) }
    ensures usage { IsErrOf result OrderFault.Usage → asked_by words.entry.now ≡ None }
    ensures help { IsErrOf result OrderFault.Help → asked_by words.entry.now ≡ None }
    ensures unasked { IsErrOf result OrderFault.Usage → AskForHelp words.entry.now → ⊥ }
    ensures asks { IsErrOf result OrderFault.Help → MayAskForHelp words.entry.now }
    ensures unparsed { (e : Error) → IsErrOf result (OrderFault.Unparsed e) → kind_of e ≡ OutOfMemory }
{
    let command = command(alloc)?;
    let matches = match command.try_get_matches_from(words) {
        Ok(matches) => matches,
        Err(e) => match e.kind() {
            ErrorKind::OutOfMemory => return Err(OrderFault::Unparsed(e)),
            ErrorKind::DisplayHelp => return Err(OrderFault::Help),
            _ => return Err(OrderFault::Usage),
        },
    };
    found(&matches).ok_or(OrderFault::Usage)
}
