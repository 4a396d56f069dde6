// Files that are named on a command line, and what is shown of a problem in them.
#![tactic(auto)]

mod files;
mod lines;
mod show;

pub use files::{MOST, Source, join, read_sources, read_within};
pub use lines::{Place, find_place, line_from};
pub use show::show_problem;
