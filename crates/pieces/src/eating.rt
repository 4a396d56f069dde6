// What stands first in a text: a sign, a word, a name, a number, a quoted text, or nothing; and what is left behind it.
ghost use Rattle.std.specs.Prelude.{◌≡◌, true, [], ◌∷◌, MatchOption, MatchResult};
ghost use Rattle.std.proofs.Math.Option.{none};
ghost use Rattle.grammar.specs.Text.{pieces, gap, word_bytes};
ghost use Rattle.pieces.specs.Refusing.{Left};
ghost use Rattle.pieces.specs.Seen.{ate, is_no_name, Ate, AteName, Signy, no_num, AteNum, no_text, AteText, no_piece};

use super::lex::next_piece;
use super::names::number;
use super::piece::Piece;
use super::refused::{Reason, Refused, refuse};
use super::seen::{Look, see};

// What is left behind a sign of one byte, if that stands first.
pub fn eat<'a>(text: &'a [u8], c: u8) -> Option<&'a [u8]>
    requires { Signy c }
    ensures { MatchOption result (ate (c ∷ []) (pieces gap text.now) ≡ none) (λ rest. Ate (c ∷ []) text.now rest.now) }
{
    let (piece, rest) = next_piece(text);
    match piece {
        Piece::Sign(a) if a == c => Some(rest),
        _ => None,
    }
}

// What is left behind a word, if that stands first.
pub fn eat_word<'a>(text: &'a [u8], w: &[u8]) -> Option<&'a [u8]>
    requires { word_bytes w.now ≡ true }
    ensures { MatchOption result (ate w.now (pieces gap text.now) ≡ none) (λ rest. Ate w.now text.now rest.now) }
{
    let (piece, rest) = next_piece(text);
    let Piece::Word(v) = piece else {
        return None;
    };
    if v == w { Some(rest) } else { None }
}

// A name that stands first, and what is left behind it.
pub fn eat_name<'a>(text: &'a [u8]) -> Option<(&'a [u8], &'a [u8])>
    ensures { MatchOption result (is_no_name (pieces gap text.now) ≡ true) (λ p. AteName p.0.now text.now p.1.now) }
{
    let (look, rest) = see(text);
    match look {
        Look::Named(w) => Some((w, rest)),
        _ => None,
    }
}

// A number that stands first, and what is left behind it.
pub fn eat_num<'a>(text: &'a [u8]) -> Option<(u64, &'a [u8])>
    ensures { MatchOption result (no_num (pieces gap text.now) ≡ true) (λ p. AteNum p.0 text.now p.1.now) }
{
    let (piece, rest) = next_piece(text);
    let Piece::Word(w) = piece else {
        return None;
    };
    Some((number(w)?, rest))
}

// A text in quotes that stands first, and what is left behind it.
pub fn eat_text<'a>(text: &'a [u8]) -> Option<(&'a [u8], &'a [u8])>
    ensures { MatchOption result (no_text (pieces gap text.now) ≡ true) (λ p. AteText p.0.now text.now p.1.now) }
{
    let (piece, rest) = next_piece(text);
    match piece {
        Piece::Text(w) => Some((w, rest)),
        _ => None,
    }
}

// What is left behind a sign that must stand first.
pub fn expect<'a>(text: &'a [u8], c: u8) -> Result<&'a [u8], Refused>
    requires { Signy c }
    ensures { MatchResult result (λ rest. Ate (c ∷ []) text.now rest.now) (λ e. (ate (c ∷ []) (pieces gap text.now) ≡ none) × Left text.now e.left) }
{
    eat(text, c).ok_or_else(|| refuse(text, Reason::Expected(c)))
}

// A name that must stand first, and what is left behind it.
pub fn expect_name<'a>(text: &'a [u8]) -> Result<(&'a [u8], &'a [u8]), Refused>
    ensures { MatchResult result (λ p. AteName p.0.now text.now p.1.now) (λ e. (is_no_name (pieces gap text.now) ≡ true) × Left text.now e.left) }
{
    eat_name(text).ok_or_else(|| refuse(text, Reason::ExpectedName))
}

// A number that must stand first, and what is left behind it.
pub fn expect_num<'a>(text: &'a [u8]) -> Result<(u64, &'a [u8]), Refused>
    ensures { MatchResult result (λ p. AteNum p.0 text.now p.1.now) (λ e. (no_num (pieces gap text.now) ≡ true) × Left text.now e.left) }
{
    eat_num(text).ok_or_else(|| refuse(text, Reason::ExpectedNumber))
}

// A text in quotes that must stand first, and what is left behind it.
pub fn expect_text<'a>(text: &'a [u8]) -> Result<(&'a [u8], &'a [u8]), Refused>
    ensures { MatchResult result (λ p. AteText p.0.now text.now p.1.now) (λ e. (no_text (pieces gap text.now) ≡ true) × Left text.now e.left) }
{
    eat_text(text).ok_or_else(|| refuse(text, Reason::ExpectedText))
}

// Is no piece left?
pub fn at_end(text: &[u8]) -> bool
    ensures { no_piece (pieces gap text.now) ≡ result }
{
    matches!(next_piece(text), (Piece::End, _))
}
