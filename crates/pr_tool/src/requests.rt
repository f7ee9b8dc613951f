//! What a command line asks for.
ghost use Rattle.std.specs.Prelude.{◌≡◌, false, option_map};
ghost use Rattle.pr_tool_words.specs.Orders.{order_of};
ghost use Rattle.pr_tool_modes.specs.Jobs.{job, stall_in, source_of, resumption_of};
ghost use Rattle.pr_tool_modes.specs.Sources.{File, Text};
ghost use Rattle.pr_tool.specs.Requests.{Texts, Runs, Folds, request_of, request_in};

use pr_tool_modes::{ConfSource, Form, Generation, Job, Resumption, Run, Target};
use pr_tool_share::Sharing;
use pr_tool_words::{GenSize, Mode, Options, Words};

/// What a command line asks for.
#[derive(Clone, Copy, PartialEq, Eq, Debug)]
pub enum Request<'a> {
    /// Write a configuration, as its file or its summary.
    Texts { form: Form, source: ConfSource<'a> },
    /// Run a configuration on samples.
    Runs(Job<'a>),
    /// Run a configuration on samples, and write the checkpoint after them.
    Folds(Job<'a>),
    /// Go on from a checkpoint, and write the lines.
    Moves(Resumption<'a>),
    /// Go on from a checkpoint, and write the next one.
    Extends(Resumption<'a>),
    /// Evaluate a program on samples.
    Evaluates { program: &'a str, samples: &'a str },
    /// Run a generated program.
    Generates(Generation),
    /// Run the programs of a list in turns.
    Shares(Sharing<'a>),
}

/// What programs are compiled for.
fn target(options: &Options<'_>) -> Target
    ensures { result ≡ record { fabric = options.now.fabric; narrowed = options.now.narrow } }
{
    Target {
        fabric: options.fabric,
        narrowed: options.narrow,
    }
}

/// A configuration file.
fn file(name: &str) -> ConfSource<'_>
    ensures { source_of result ≡ File name.now }
{
    ConfSource::File { name }
}

/// The file of a program, with the options of a command line.
fn program<'a>(options: &Options<'a>, name: &'a str) -> ConfSource<'a>
    ensures { source_of result ≡ Text name.now (record { fabric = options.now.fabric; narrowed = options.now.narrow }) }
{
    ConfSource::Program {
        name,
        target: target(options),
    }
}

/// A text of the configuration of a source.
fn texts<'a>(form: Form, source: ConfSource<'a>) -> Request<'a>
    ensures { request_in result ≡ Texts form (source_of source.entry) }
{
    Request::Texts { form, source }
}

/// A run of a generated program, with the options of a command line.
fn generation(options: &Options<'_>, size: GenSize) -> Generation
    ensures turns { result.turns ≡ size.turns }
    ensures target { result.target ≡ record { fabric = options.now.fabric; narrowed = options.now.narrow } }
    ensures stripes { result.stripes ≡ options.now.stripes }
{
    Generation {
        turns: size.turns,
        target: target(options),
        stripes: options.stripes,
    }
}

/// On what samples a configuration is run, and how, with the options of a command line.
fn run_on<'a>(options: &Options<'a>, samples: &'a str, log: bool) -> Run<'a>
    ensures samples { result.samples.now ≡ samples.now }
    ensures stall { stall_in result ≡ option_map (λ s. s.now) options.now.stall }
    ensures stripes { result.stripes ≡ options.now.stripes }
    ensures log { result.log ≡ log }
{
    Run {
        samples,
        stall: options.stall,
        stripes: options.stripes,
        log,
    }
}

/// A run that goes on from a checkpoint, with the options of a command line.
fn resumption<'a>(options: &Options<'a>, checkpoint: &'a str, samples: &'a str) -> Resumption<'a>
    ensures { resumption_of result ≡ record {
      name = checkpoint.now;
      second = samples.now;
      stall = option_map (λ s. s.now) options.now.stall;
      stripes = options.now.stripes;
      log = false;
    } }
{
    Resumption {
        checkpoint,
        run: run_on(options, samples, false),
    }
}

/// A run of a source on samples, with the options of a command line.
fn runs<'a>(
    options: &Options<'a>,
    source: ConfSource<'a>,
    samples: &'a str,
    log: bool,
) -> Request<'a>
    ensures { request_in result ≡ Runs
        (job (source_of source.entry) samples.now (option_map (λ s. s.now) options.now.stall) options.now.stripes log) }
{
    Request::Runs(Job {
        source,
        run: run_on(options, samples, log),
    })
}

/// A run of a source for the checkpoint after these samples, with the options of a command line.
fn folds<'a>(options: &Options<'a>, source: ConfSource<'a>, samples: &'a str) -> Request<'a>
    ensures { request_in result ≡ Folds
        (job (source_of source.entry) samples.now (option_map (λ s. s.now) options.now.stall) options.now.stripes
        false) }
{
    Request::Folds(Job {
        source,
        run: run_on(options, samples, false),
    })
}

/// The programs of a list, with the options of a command line.
fn sharing<'a>(options: &Options<'_>, list: &'a str) -> Sharing<'a>
    ensures list { result.list.now ≡ list.now }
    ensures stripes { result.stripes ≡ options.now.stripes }
{
    Sharing {
        list,
        stripes: options.stripes,
    }
}

/// What is done for a lawful command line.
pub fn request_of<'a>(words: &Words<'a>) -> Request<'a>
    ensures { request_in result ≡ request_of (order_of words.now) }
{
    let options = &words.options;
    match words.mode {
        Mode::Show { configuration } => texts(Form::Summary, file(configuration)),
        Mode::Migrate { configuration } => texts(Form::File, file(configuration)),
        Mode::Compile { program: name } => texts(Form::File, program(options, name)),
        Mode::Exec {
            configuration,
            samples,
        } => runs(options, file(configuration), samples, false),
        Mode::Run {
            program: name,
            samples,
        } => runs(options, program(options, name), samples, false),
        Mode::Trace {
            program: name,
            samples,
        } => runs(options, program(options, name), samples, true),
        Mode::Checkpoint {
            program: name,
            samples,
        } => folds(options, program(options, name), samples),
        Mode::Eval { program, samples } => Request::Evaluates { program, samples },
        Mode::Gen { size } => Request::Generates(generation(options, size)),
        Mode::Move {
            checkpoint,
            samples,
        } => Request::Moves(resumption(options, checkpoint, samples)),
        Mode::Extend {
            checkpoint,
            samples,
        } => Request::Extends(resumption(options, checkpoint, samples)),
        Mode::Share { list } => Request::Shares(sharing(options, list)),
    }
}
