// The OpenType codec: coverage formats 1 and 2.
#![tactic(auto)]

pub mod opentype;
pub mod ranges;
