//! From the values of a command line to what they ask for.

ghost use Rattle.std.specs.Prelude.{◌≡◌, option_map};
ghost use Rattle.pr_tool_words.specs.Lawful.{one_file, two_files, task_of, fabric_named, asked_of};
ghost use Rattle.pr_tool_words.specs.Orders.{mode_task, order_of, said_in};

use crate::calling::Words;
use crate::modes::{GenSize, Mode};
use crate::options::Options;
use crate::parsing::Values;
use crate::quantities::number_in;
use pr_base::Fabric;

/// The mode of this name on one file, or on a number.
fn one_file<'a>(mode: &str, first: &'a str) -> Option<Mode<'a>>
    ensures { option_map mode_task result ≡ one_file mode.now first.entry.now }
{
    match mode {
        "compile" => Some(Mode::Compile { program: first }),
        "show" => Some(Mode::Show {
            configuration: first,
        }),
        "gen" => match number_in(first, 1, 1000) {
            Some(turns) => Some(Mode::Gen {
                size: GenSize { turns },
            }),
            None => None,
        },
        "migrate" => Some(Mode::Migrate {
            configuration: first,
        }),
        "share" => Some(Mode::Share { list: first }),
        _ => None,
    }
}

/// The mode of this name on two files.
fn two_files<'a>(mode: &str, first: &'a str, samples: &'a str) -> Option<Mode<'a>>
    ensures { option_map mode_task result ≡ two_files mode.now first.entry.now samples.entry.now }
{
    match mode {
        "run" => Some(Mode::Run {
            program: first,
            samples,
        }),
        "trace" => Some(Mode::Trace {
            program: first,
            samples,
        }),
        "exec" => Some(Mode::Exec {
            configuration: first,
            samples,
        }),
        "eval" => Some(Mode::Eval {
            program: first,
            samples,
        }),
        "checkpoint" => Some(Mode::Checkpoint {
            program: first,
            samples,
        }),
        "move" => Some(Mode::Move {
            checkpoint: first,
            samples,
        }),
        "extend" => Some(Mode::Extend {
            checkpoint: first,
            samples,
        }),
        _ => None,
    }
}

/// The mode of this name on these files.
fn mode_of<'a>(mode: &str, first: Option<&'a str>, second: Option<&'a str>) -> Option<Mode<'a>>
    ensures { option_map mode_task result ≡
        task_of mode.now (option_map (λ s. s.now) first.entry) (option_map (λ s. s.now) second.entry) }
{
    match (first, second) {
        (Some(file), None) => one_file(mode, file),
        (Some(file), Some(samples)) => two_files(mode, file, samples),
        _ => None,
    }
}

/// The fabric of this name.
fn fabric_named(name: &str) -> Option<Fabric>
    ensures { result ≡ fabric_named name.now }
{
    match name {
        "base" => Some(Fabric::Base),
        "wide" => Some(Fabric::Wide),
        _ => None,
    }
}

/// What the values of a command line ask for.
#[tactic(auto, unfolding(crate::specs::Lawful::asked_of))]
pub fn asked<'a>(values: &Values<'a>) -> Option<Words<'a>>
    ensures { option_map order_of result ≡ asked_of (said_in values.now) }
{
    let mode = mode_of(values.mode, values.first, values.second)?;
    let stripes = number_in(values.stripes, 2, 256)? as usize;
    let fabric = fabric_named(values.fabric)?;
    Some(Words {
        mode,
        options: Options {
            stripes,
            stall: values.stall,
            fabric,
            narrow: values.narrow,
        },
    })
}
