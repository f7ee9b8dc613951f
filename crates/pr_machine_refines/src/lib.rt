//! What a machine of stripes stands for, as definitions and their laws over plain values, and no code that runs.
//!
//! A machine is seen as a number of places, a store of state rows and two queues. The laws say that one cycle of these
//! keeps what a machine stands for, whatever the stages compute.
#![tactic(auto)]
