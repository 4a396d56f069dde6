// Programs: items, files and whole texts, read as the model parser reads them and written as the row of their tree.
#![tactic(auto)]

// The text and the row are not one struct, as in `bodies`: what is left of the text is given back.

mod element;
mod file;
mod item;
mod list;
mod put;

pub use file::parse;
