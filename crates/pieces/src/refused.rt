// Why a text is refused, and where: what an engineer is told.
ghost use Rattle.pieces.specs.Refusing.{Left};

use super::lex::{next_piece, skip_gap};
use super::piece::Piece;
use std::fmt;

// What was expected where the text is refused, or which limit was passed.
#[derive(Clone, Copy, Debug, PartialEq, Eq)]
pub enum Reason {
    // a sign, by its byte
    Expected(u8),
    ExpectedName,
    ExpectedNumber,
    ExpectedText,
    ExpectedExpression,
    ExpectedItem,
    ExpectedFile,
    UnfinishedQuote,
    TextTooLong,
    BracketsTooDeep,
    SignsTooMany,
}

impl fmt::Display for Reason {
    fn fmt<W: fmt::Write>(&self, f: &mut fmt::Formatter<W>) -> fmt::Result {
        match self {
            Reason::Expected(sign) => write!(f, "expected `{}`", char::from(*sign)),
            Reason::ExpectedName => {
                f.write_str("expected a name (not a keyword, at most 32 bytes)")
            }
            Reason::ExpectedNumber => f.write_str("expected a number"),
            Reason::ExpectedText => f.write_str("expected a text in quotes"),
            Reason::ExpectedExpression => f.write_str("expected an expression"),
            Reason::ExpectedItem => {
                f.write_str("expected `var`, `array`, `bytes`, `table`, `use`, `fn` or `file`")
            }
            Reason::ExpectedFile => f.write_str("expected `file` and a name"),
            Reason::UnfinishedQuote => {
                f.write_str("no piece of the language starts here, or a quote does not end")
            }
            Reason::TextTooLong => f.write_str("the text has more than 32768 bytes"),
            Reason::BracketsTooDeep => f.write_str("more than 40 brackets are open"),
            Reason::SignsTooMany => f.write_str("more than 40 signs in a row"),
        }
    }
}

#[derive(Clone, Copy, Debug, PartialEq, Eq)]
pub struct Refused {
    // how many bytes of the text are left, from the refused piece on
    pub left: usize,
    pub reason: Reason,
}

// A text is refused at its first piece.
pub fn refuse(text: &[u8], reason: Reason) -> Refused
    ensures { Left text.now result.left }
{
    let body = skip_gap(text);
    let left = body.len();
    match next_piece(body) {
        (Piece::Bad, _) => Refused {
            left,
            reason: Reason::UnfinishedQuote,
        },
        _ => Refused { left, reason },
    }
}
