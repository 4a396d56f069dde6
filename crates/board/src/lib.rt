// A board to run images on: numbers and words from text and bytes, what memory and registers hold before an image is loaded,
// the options, and the start. The program that uses it has only to read and to print.
#![tactic(auto)]

mod bytes;
mod filling;
mod numbers;
mod options;
mod starting;

pub use bytes::words_of_bytes;
pub use filling::Pattern;
pub use numbers::{parse_number, read_words};
pub use options::{SettingError, Settings};
pub use starting::start;
