//! What can be asked for.

use pr_base::Fabric;
use pr_lens_log::Window;
use pr_lens_signals::Style;

/// The file that is looked at, and how it is compiled where it is a program.
#[derive(Clone, Copy)]
pub struct Target<'a> {
    /// The name of the file.
    pub file: &'a str,
    /// The fabric that it is compiled for.
    pub fabric: Fabric,
    /// Whether its equations are narrowed.
    pub narrowed: bool,
}

/// What is asked of a program.
#[derive(Clone, Copy)]
pub enum Question<'a> {
    /// Why it is refused, or what is pointed out in it. Findings are told for people or as JSON.
    Why { json: bool, warnings: bool },
    /// What it costs, and the cycles of a run of so many samples, for people or as JSON.
    Cost { json: bool, samples: u32 },
    /// Its units by stage, with their wires.
    Graph,
    /// Its stages as a module of this name in Verilog.
    Rtl { name: &'a str },
}

/// How a log is drawn.
#[derive(Clone, Copy)]
pub enum Drawing {
    /// As a waveform.
    Wave,
    /// As a picture.
    Chart,
}

/// A text that is made whole before it is written.
#[derive(Clone, Copy)]
pub enum Product<'a> {
    /// What is asked of a program.
    OfProgram(Question<'a>),
    /// The drawing of those cycles of a log that a window shows.
    OfLog {
        drawing: Drawing,
        window: Window,
    },
    /// A bench that tries the module of this name on samples. The seed decides when it offers samples and takes results.
    Bench {
        samples: &'a str,
        name: &'a str,
        seed: u32,
    },
}

/// What is to be made of a file.
#[derive(Clone, Copy)]
pub enum Task<'a> {
    /// A text that is made whole before it is written.
    Whole(Product<'a>),
    /// The streams of a program on samples, which are written as samples come.
    Signals { samples: &'a str, style: Style<'a> },
}

/// What the words of a command line ask for.
#[derive(Clone, Copy)]
pub struct Order<'a> {
    pub target: Target<'a>,
    pub task: Task<'a>,
}
