// Names looked up in a program's row, and the check of function bodies.
#![tactic(auto)]

pub mod asking;
pub mod body;
pub mod file;
pub mod find;
pub mod follow;
pub mod found;
pub mod function;
pub mod items;
pub mod kinds;
pub mod own;
pub mod pile;
pub mod refer;
