//! The options of a command line.

ghost use Rattle.std.specs.Prelude.{◌≤◌};

use pr_base::Fabric;

/// What the options of a command line say, each by its word or by what stands for it where it is not given.
#[derive(Clone, Copy, PartialEq, Eq, Debug)]
pub struct Options<'a> {
    /// The number of stripes, from 2 to 256.
    pub stripes: usize,
    /// The name of the stall file, where there is one.
    pub stall: Option<&'a str>,
    /// The fabric that programs are compiled for.
    pub fabric: Fabric,
    /// Whether programs are narrowed.
    pub narrow: bool,
    ghost least: { 2 ≤ stripes },
    ghost greatest: { stripes ≤ 256 },
}
