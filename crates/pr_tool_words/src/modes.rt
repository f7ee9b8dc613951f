//! The modes of the tool, each with what it works on.

ghost use Rattle.std.specs.Prelude.{◌≤◌};

/// The size of a generated program, from 1 to 1,000.
#[derive(Clone, Copy, PartialEq, Eq, Debug)]
pub struct GenSize {
    /// The turns of its loop.
    pub turns: u32,
    ghost least: { 1 ≤ turns },
    ghost greatest: { turns ≤ 1000 },
}

/// A mode, with the names of its files.
#[derive(Clone, Copy, PartialEq, Eq, Debug)]
pub enum Mode<'a> {
    /// The results of a program on samples.
    Run {
        program: &'a str,
        samples: &'a str,
    },
    /// The same, with the log of the cycles.
    Trace {
        program: &'a str,
        samples: &'a str,
    },
    /// The configuration of a program.
    Compile {
        program: &'a str,
    },
    /// The results of a configuration on samples.
    Exec {
        configuration: &'a str,
        samples: &'a str,
    },
    /// The results of a program on samples, by the meaning of its text.
    Eval {
        program: &'a str,
        samples: &'a str,
    },
    /// A summary of a configuration.
    Show {
        configuration: &'a str,
    },
    /// A run of a generated program, of which a summary is told.
    Gen {
        size: GenSize,
    },
    /// A configuration in the newer format.
    Migrate {
        configuration: &'a str,
    },
    /// The results of several programs that take turns.
    Share {
        list: &'a str,
    },
    /// A program with its state after samples.
    Checkpoint {
        program: &'a str,
        samples: &'a str,
    },
    /// The results of a checkpoint on further samples.
    Move {
        checkpoint: &'a str,
        samples: &'a str,
    },
    /// A checkpoint after further samples.
    Extend {
        checkpoint: &'a str,
        samples: &'a str,
    },
}
