//! What programs are compiled for.

use pr_base::Fabric;

/// What a program is compiled for.
#[derive(Clone, Copy, PartialEq, Eq, Debug)]
pub struct Target {
    /// The fabric.
    pub fabric: Fabric,
    /// Whether its equations are narrowed before.
    pub narrowed: bool,
}
