//! What a run is asked to do.
ghost use Rattle.std.specs.Prelude.{◌≤◌};

use crate::targets::Target;

/// Where a configuration comes from.
#[derive(Clone, Copy, PartialEq, Eq, Debug)]
pub enum ConfSource<'a> {
    /// From a configuration file.
    File {
        /// Its name.
        name: &'a str,
    },
    /// From the file of a program, which is compiled.
    Program {
        /// Its name.
        name: &'a str,
        /// What it is compiled for.
        target: Target,
    },
}

/// On what a configuration is run, and how.
#[derive(Clone, Copy, PartialEq, Eq, Debug)]
pub struct Run<'a> {
    /// The name of the file of samples.
    pub samples: &'a str,
    /// The name of the stall file, where there is one.
    pub stall: Option<&'a str>,
    /// The number of stripes.
    pub stripes: usize,
    /// Whether the log is written among the results.
    pub log: bool,
    ghost least: { 2 ≤ stripes },
    ghost greatest: { stripes ≤ 256 },
}

/// What a run is asked to do.
#[derive(Clone, Copy, PartialEq, Eq, Debug)]
pub struct Job<'a> {
    /// Where the configuration comes from.
    pub source: ConfSource<'a>,
    /// The samples, and how they are run.
    pub run: Run<'a>,
}

/// What a run is asked to do that goes on from a checkpoint.
#[derive(Clone, Copy, PartialEq, Eq, Debug)]
pub struct Resumption<'a> {
    /// The name of the file of the checkpoint.
    pub checkpoint: &'a str,
    /// The further samples, and how they are run.
    pub run: Run<'a>,
}

/// A program that is to be generated and run.
#[derive(Clone, Copy, PartialEq, Eq, Debug)]
pub struct Generation {
    /// The turns of its loop.
    pub turns: u32,
    /// What it is compiled for.
    pub target: Target,
    /// The number of stripes.
    pub stripes: usize,
    ghost least_turns: { 1 ≤ turns },
    ghost greatest_turns: { turns ≤ 1000 },
    ghost least: { 2 ≤ stripes },
    ghost greatest: { stripes ≤ 256 },
}
