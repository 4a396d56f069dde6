// Bodies of functions: expressions and statements, read from a text as the model parser reads them and written as the rows of their trees.
#![tactic(auto)]

// The text and the row are not one struct: what is left of the text is given back, and a piece that need not stand is not put back.

mod expr;
mod put;
mod stmt;

pub use put::put_num;
pub use stmt::body;
