// Steps of the middle language as data, written to lent words and read back.
#![tactic(auto)]

pub mod read;
pub mod step;
pub mod write;
