// Rows of lent words, and programs as rows: what the parser writes and the checks read.
#![tactic(auto)]

ghost use Rattle.rows.specs.Trees.{BodiesNodes};

pub mod kind;
mod put;
pub mod read;
pub mod row;
pub mod tag;

// The row of a function's body is that of its nodes.
pub fn bodies_are_nodes() -> bool
    ensures { BodiesNodes }
{
    true
}
