// The words that an outline has for a problem, where they are others: it says less of where it is.
use super::problem::{Fault, What};
use pieces::refused::Reason;
use std::fmt;

#[derive(Clone, Copy, Debug, PartialEq, Eq)]
pub struct Outline(pub What);

impl fmt::Display for Outline {
    fn fmt<W: fmt::Write>(&self, f: &mut fmt::Formatter<W>) -> fmt::Result {
        f.write_str(match self.0 {
            What::Reads(Reason::ExpectedFile) => "expected `file`",
            What::Fails(Fault::ArgumentKind) =>
                "in this function a word is given for an array, or an array for a word",
            What::Fails(Fault::TooManyElements) =>
                "the arrays at the top of all files have more than 262144 elements together",
            What::Fails(Fault::TableUnlike) => "the functions of a table have the same parameters",
            What::Fails(Fault::NotThere) => "the file named has no such item",
            What::Fails(Fault::NoMain) =>
                "there is no function `main` without parameters in the first file",
            what => return write!(f, "{what}"),
        })
    }
}
