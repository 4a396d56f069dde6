// How a statement begins: by its first word, or as an expression does.
ghost use Rattle.pieces.specs.Leads.{Leads, Led};

use super::lex::next_piece;
use super::names::is_name;
use super::piece::Piece;
use super::words;

#[derive(Clone, Copy, Debug, PartialEq, Eq)]
pub enum Lead<'a> {
    Out,
    If,
    While,
    Return,
    Break,
    Next,
    Named(&'a [u8]),
    // an expression, or nothing
    Other,
}

// No `match` on the word: of a byte string's arm a proof learns the length alone.
fn lead_word<'a>(w: &'a [u8]) -> Lead<'a>
    ensures { Leads result w.now }
{
    if is_name(w) {
        return Lead::Named(w);
    }
    if w == words::OUT {
        return Lead::Out;
    }
    if w == words::IF {
        return Lead::If;
    }
    if w == words::WHILE {
        return Lead::While;
    }
    if w == words::RETURN {
        return Lead::Return;
    }
    if w == words::BREAK {
        return Lead::Break;
    }
    if w == words::CONTINUE {
        return Lead::Next;
    }
    Lead::Other
}

// The word that a statement begins with, and what is left behind it.
pub fn see_lead<'a>(text: &'a [u8]) -> (Lead<'a>, &'a [u8])
    ensures { Led result.0 text.now result.1.now }
{
    let (piece, rest) = next_piece(text);
    let Piece::Word(w) = piece else {
        return (Lead::Other, rest);
    };
    (lead_word(w), rest)
}
