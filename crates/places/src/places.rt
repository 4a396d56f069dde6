// Where pieces of a text stand: each place is what is left of the text there.
ghost use Rattle.std.specs.Prelude.{◌≡◌, ◌⊎◌, ◌≤◌, true, length};
ghost use Rattle.places.specs.Tails.{Tail, First};

use crate::cuts::pieces_of;
use pieces::piece::Piece;
use pieces::refused::{Reason, refuse};

// The byte offset of the first piece of what is left of a text.
pub fn offset(text: &[u8], rest: &[u8]) -> usize
    ensures { result ≤ length text.now }
{
    text.len()
        .saturating_sub(refuse(rest, Reason::ExpectedItem).left)
}

// The text behind so many pieces.
pub fn past_pieces(text: &[u8], n: usize) -> &[u8]
    ensures { Tail text.now result.now }
{
    let mut rest = text;
    for cutting in pieces_of(text).take(n) {
        rest = cutting.behind;
    }
    rest
}

// The text from a piece on, past so many of those that are sought; if there are no more, the text as it is.
pub fn from_piece<F: Fn(Piece) -> bool>(text: &[u8], n: usize, is_sought: F) -> &[u8]
    requires { F.IsAlwaysCallable is_sought }
    ensures place { Tail text.now result.now }
    ensures found { result.now ≡ text.now ⊎ First (λ piece. F.post is_sought piece true) result.now }
{
    let mut left = n;
    for cutting in pieces_of(text) {
        if is_sought(cutting.piece) {
            if left == 0 {
                return cutting.from;
            }
            left -= 1;
        }
    }
    text
}

// The text from an item on, by how many items stand before it in all files.
pub fn from_item(text: &[u8], before: usize) -> &[u8]
    ensures { Tail text.now result.now }
{
    let mut behind = text;
    let mut depth: usize = 0;
    let mut begins = true;
    let mut left = before;
    for cutting in pieces_of(text) {
        if begins && !matches!(cutting.piece, Piece::Word(b"file")) {
            if left == 0 {
                return cutting.from;
            }
            left -= 1;
        }
        match cutting.piece {
            Piece::Sign(b'{') => depth = depth.saturating_add(1),
            Piece::Sign(b'}') => depth = depth.saturating_sub(1),
            _ => {}
        }
        begins = depth == 0 && matches!(cutting.piece, Piece::Sign(b';' | b'}'));
        behind = cutting.behind;
    }
    behind
}

// The text from an argument on, by its number; the text begins with the name that is called. A table's index, in square brackets,
// stands before the arguments.
pub fn from_argument(text: &[u8], n: usize) -> &[u8]
    ensures { Tail text.now result.now }
{
    let mut depth: usize = 0;
    let mut listed = false;
    let mut left = n;
    for cutting in pieces_of(text) {
        let begins = depth == 0 && matches!(cutting.piece, Piece::Sign(b'('));
        let next = listed && depth == 1 && matches!(cutting.piece, Piece::Sign(b','));
        if begins || next {
            if left == 0 {
                return cutting.behind;
            }
            left -= 1;
            listed = true;
        }
        match cutting.piece {
            Piece::Sign(b'(' | b'[') => depth = depth.saturating_add(1),
            Piece::Sign(b')' | b']') => depth = depth.saturating_sub(1),
            _ => {}
        }
    }
    text
}
