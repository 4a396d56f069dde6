// What is wrong with a text that is no program, and where.
use pieces::refused::Reason;
use places::Located;
use std::fmt;

// Which check fails files that are written as files are.
#[derive(Clone, Copy, Debug, PartialEq, Eq)]
pub enum Fault {
    // there is none
    NoFile,
    UnknownName,
    WrongKind,
    DoubledName,
    DoubledFile,
    NumberTooLarge,
    OutsideLoop,
    // how many a call has
    Arguments,
    // an array for a word, a word for an array, or an array of the other kind
    ArgumentKind,
    SizeOutOfRange,
    NoValue,
    TooManyParameters,
    TooManyVariables,
    TooManyArrays,
    TooManyElements,
    TableUnlike,
    // what is used: no such file, or no such name in it
    UnknownFile,
    NotThere,
    NoMain,
    // it is no function, or has parameters
    MainUnlike,
}

impl fmt::Display for Fault {
    fn fmt<W: fmt::Write>(&self, f: &mut fmt::Formatter<W>) -> fmt::Result {
        f.write_str(match self {
            Fault::NoFile => "expected `file` and a name: there is nothing in the text",
            Fault::UnknownName => "this name stands for nothing that is wanted here",
            Fault::WrongKind => "this name stands for something of another kind",
            Fault::DoubledName => "this name is given twice",
            Fault::DoubledFile => "this file's name is given twice",
            Fault::NumberTooLarge => "a number is 4294967295 at most",
            Fault::OutsideLoop => "there is no loop around this",
            Fault::Arguments => "there are not as many arguments as parameters",
            Fault::ArgumentKind =>
                "the parameter is of another kind: a word, an array of words or an array of bytes",
            Fault::SizeOutOfRange =>
                "an array has 1 to 65536 elements at the top of a file, and 1 to 4096 in a function",
            Fault::NoValue => "at least one value is needed",
            Fault::TooManyParameters => "a function has 8 parameters at most",
            Fault::TooManyVariables => "a function has 64 variables at most",
            Fault::TooManyArrays => "a function has 16 arrays at most",
            Fault::TooManyElements =>
                "with this one the arrays at the top of all files have more than 262144 elements",
            Fault::TableUnlike => "this function has other parameters than the table's first",
            Fault::UnknownFile => "there is no other file of this name",
            Fault::NotThere => "the file named has nothing of this name at its top",
            Fault::NoMain => "there is no function `main` in the first file",
            Fault::MainUnlike => "`main` in the first file must be a function without parameters",
        })
    }
}

#[derive(Clone, Copy, Debug, PartialEq, Eq)]
pub enum What {
    // the grammar's: what was expected, or which of its limits was passed
    Reads(Reason),
    // the checks'
    Fails(Fault),
}

impl fmt::Display for What {
    fn fmt<W: fmt::Write>(&self, f: &mut fmt::Formatter<W>) -> fmt::Result {
        match self {
            What::Reads(reason) => write!(f, "{reason}"),
            What::Fails(fault) => write!(f, "{fault}"),
        }
    }
}

// Where it is, and what is wrong there.
pub type Problem = Located<What>;
