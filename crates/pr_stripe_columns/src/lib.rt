//! The columns of a stage, one by one and as rows: definitions and lemmas. Nothing here runs.
#![tactic(auto)]
