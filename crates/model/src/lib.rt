// Theorems about the model of a graph, each on the contract of a function that does nothing.
#![tactic(auto)]

pub mod cutting;
pub mod keeping;
pub mod law;
pub mod loading;
pub mod numbering;
pub mod pieces;
pub mod samples;
pub mod shaping;
pub mod wrapping;
pub mod written;
