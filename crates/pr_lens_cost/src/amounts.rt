//! Equations, units and stages of a program, and the streams that take most units.

ghost use Rattle.std.specs.Prelude.{◌≤◌, vec_len};

use crate::counts::StageCost;
use pr_lens_origins::Spot;
use pr_lens_shares::Share;

/// What a program costs.
#[derive(Drop)]
pub struct Cost {
    pub equations: usize,
    pub units: usize,
    /// The streams for which most units are made.
    pub shares: Vec<Share>,
    /// Where the name of each stream stands in the text, by their places.
    pub spots: Vec<Spot>,
    pub stages: Vec<StageCost>,
    pub ghost few: { vec_len stages ≤ 32768 },
}
