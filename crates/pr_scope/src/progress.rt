//! What a walk has come to.
ghost use Rattle.pr_scope_names.specs.Names.{IsOutside};

use pr_scope_names::{Count, Statics, Streams};

/// What the items so far have made.
#[derive(Drop)]
pub struct WalkState {
    pub statics: Statics,
    pub streams: Streams,
    pub count: Count,
    pub inputs: Vec<u8>,
    pub has_output: bool,
    ghost outside: { IsOutside statics },
}
