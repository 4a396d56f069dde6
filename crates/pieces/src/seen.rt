// What a piece is, as an expression sees it: numbers, names, operators with how tightly they hold, brackets.
ghost use Rattle.std.specs.Prelude.{◌≡◌, ◌+◌, ◌<◌, true, [], ◌∷◌, MatchOption};
ghost use Rattle.grammar.specs.Text.{word_bytes};
ghost use Rattle.grammar.specs.Parse.{find, fixed, p_other};
ghost use Rattle.pieces.specs.Cutting.{Sane};
ghost use Rattle.pieces.specs.Seen.{binary_number, unary_number, level_of, piece_of, keep, Fine, Looks, LooksAs, Seen, Tied, Untied};

use super::lex::next_piece;
use super::names::{is_name, number};
use super::piece::Piece;
use super::words;

// An operator between two, of those that work out both.
#[derive(Clone, Copy, Debug, PartialEq, Eq)]
pub enum Binary {
    Add,
    Subtract,
    Multiply,
    Divide,
    Remainder,
    Equal,
    Unequal,
    Less,
    LessOrEqual,
    Greater,
    GreaterOrEqual,
    BitAnd,
    BitOr,
    BitXor,
    ShiftLeft,
    ShiftRight,
}

// By its number in trees.
impl From<Binary> for u32 {
    ghost from_gives = { λ op n. n ≡ binary_number op };

    fn from(op: Binary) -> u32 {
        match op {
            Binary::Add => 0,
            Binary::Subtract => 1,
            Binary::Multiply => 2,
            Binary::Divide => 3,
            Binary::Remainder => 4,
            Binary::Equal => 5,
            Binary::Unequal => 6,
            Binary::Less => 7,
            Binary::LessOrEqual => 8,
            Binary::Greater => 9,
            Binary::GreaterOrEqual => 10,
            Binary::BitAnd => 11,
            Binary::BitOr => 12,
            Binary::BitXor => 13,
            Binary::ShiftLeft => 14,
            Binary::ShiftRight => 15,
        }
    }
}

// An operator before one.
#[derive(Clone, Copy, Debug, PartialEq, Eq)]
pub enum Unary {
    Negate,
    Not,
    Invert,
}

// By its number in trees.
impl From<Unary> for u32 {
    ghost from_gives = { λ op n. n ≡ unary_number op };

    fn from(op: Unary) -> u32 {
        match op {
            Unary::Negate => 0,
            Unary::Not => 1,
            Unary::Invert => 2,
        }
    }
}

// An operator between two.
#[derive(Clone, Copy, Debug, PartialEq, Eq)]
pub enum Op {
    Or,
    And,
    Two(Binary),
}

impl Op {
    // How tightly it holds.
    pub fn level(self) -> u32
        ensures { result ≡ level_of self }
    {
        match self {
            Op::Or => 0,
            Op::And => 1,
            Op::Two(op) => match op {
                Binary::Equal | Binary::Unequal => 2,
                Binary::Less | Binary::LessOrEqual | Binary::Greater | Binary::GreaterOrEqual => 2,
                Binary::BitOr | Binary::BitXor => 3,
                Binary::BitAnd => 4,
                Binary::ShiftLeft | Binary::ShiftRight => 5,
                Binary::Add | Binary::Subtract => 6,
                Binary::Multiply | Binary::Divide | Binary::Remainder => 7,
            },
        }
    }
}

#[derive(Clone, Copy, Debug, PartialEq, Eq)]
pub enum Look<'a> {
    Num(u64),
    Named(&'a [u8]),
    // an operator between two
    Tie(Op),
    // between two or before one
    Minus,
    // an operator before one
    Before(Unary),
    OpenRound,
    ShutRound,
    OpenSquare,
    Comma,
    Len,
    Call,
    In,
    Other,
    End,
}

fn look_sign<'a>(a: u8) -> Look<'a>
    ensures is { piece_of result ≡ find p_other (keep 1 fixed) (a ∷ []) }
    ensures fine { Fine result (a ∷ []) }
{
    match a {
        b'(' => Look::OpenRound,
        b')' => Look::ShutRound,
        b'[' => Look::OpenSquare,
        b',' => Look::Comma,
        b'-' => Look::Minus,
        b'!' => Look::Before(Unary::Not),
        b'~' => Look::Before(Unary::Invert),
        b'+' => Look::Tie(Op::Two(Binary::Add)),
        b'*' => Look::Tie(Op::Two(Binary::Multiply)),
        b'/' => Look::Tie(Op::Two(Binary::Divide)),
        b'%' => Look::Tie(Op::Two(Binary::Remainder)),
        b'<' => Look::Tie(Op::Two(Binary::Less)),
        b'>' => Look::Tie(Op::Two(Binary::Greater)),
        b'&' => Look::Tie(Op::Two(Binary::BitAnd)),
        b'|' => Look::Tie(Op::Two(Binary::BitOr)),
        b'^' => Look::Tie(Op::Two(Binary::BitXor)),
        _ => Look::Other,
    }
}

fn look_pair<'a>(a: u8, b: u8) -> Look<'a>
    ensures is { piece_of result ≡ find p_other (keep 2 fixed) (a ∷ b ∷ []) }
    ensures fine { Fine result (a ∷ b ∷ []) }
{
    match (a, b) {
        (b'|', b'|') => Look::Tie(Op::Or),
        (b'&', b'&') => Look::Tie(Op::And),
        (b'=', b'=') => Look::Tie(Op::Two(Binary::Equal)),
        (b'!', b'=') => Look::Tie(Op::Two(Binary::Unequal)),
        (b'<', b'=') => Look::Tie(Op::Two(Binary::LessOrEqual)),
        (b'>', b'=') => Look::Tie(Op::Two(Binary::GreaterOrEqual)),
        (b'<', b'<') => Look::Tie(Op::Two(Binary::ShiftLeft)),
        (b'>', b'>') => Look::Tie(Op::Two(Binary::ShiftRight)),
        _ => Look::Other,
    }
}

// No `match` on the word: of a byte string's arm a proof learns the length alone.
fn look_word<'a>(w: &'a [u8]) -> Look<'a>
    requires { word_bytes w.now ≡ true }
    ensures { Looks result w.now }
{
    if let Some(n) = number(w) {
        return Look::Num(n);
    }
    if is_name(w) {
        return Look::Named(w);
    }
    if w == words::LEN {
        return Look::Len;
    }
    if w == words::CALL {
        return Look::Call;
    }
    if w == words::IN {
        return Look::In;
    }
    Look::Other
}

fn look_piece<'a>(piece: Piece<'a>) -> Look<'a>
    requires { Sane piece }
    ensures { LooksAs result piece.entry }
{
    match piece {
        Piece::Word(w) => look_word(w),
        Piece::Sign(a) => look_sign(a),
        Piece::Pair(a, b) => look_pair(a, b),
        Piece::End => Look::End,
        _ => Look::Other,
    }
}

// The next piece, and what is left behind it.
pub fn see<'a>(text: &'a [u8]) -> (Look<'a>, &'a [u8])
    ensures { Seen result.0 text.now result.1.now }
{
    let (piece, rest) = next_piece(text);
    (look_piece(piece), rest)
}

// An operator between two that stands first, and what is left behind it.
pub fn see_op<'a>(text: &'a [u8]) -> Option<(Op, &'a [u8])>
    ensures { MatchOption result (Untied text.now) (λ p. Tied p.0 text.now p.1.now) }
{
    let (look, rest) = see(text);
    match look {
        Look::Tie(op) => Some((op, rest)),
        Look::Minus => Some((Op::Two(Binary::Subtract), rest)),
        _ => None,
    }
}
