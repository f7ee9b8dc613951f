//! Configurations of either fabric.

ghost use Rattle.std.specs.Prelude.{◌≤◌, ◌^◌};

use pr_conf::Configuration;

/// A configuration of one of the fabrics.
#[derive(Drop)]
pub enum Loadable {
    /// 16 columns of 8 registers.
    Base(Configuration<16, 8>),
    /// 32 columns of 16 registers.
    Wide(Configuration<32, 16>),
}

/// Where a run begins.
#[derive(Drop)]
pub struct Origin {
    /// The configuration.
    pub conf: Loadable,
    /// How many samples came before.
    pub before: u64,
    ghost most: { before ≤ 2 ^ 40 },
}
