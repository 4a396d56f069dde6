// From the bytes of a text to its pieces, one at a time: what stands first, as names, numbers, signs and first words, and what is left.
#![tactic(auto)]

pub mod eating;
pub mod flat;
pub mod lead;
mod lex;
mod names;
pub mod piece;
pub mod refused;
pub mod seen;
pub mod words;

pub use lex::next_piece;
pub use names::{is_name, number};
