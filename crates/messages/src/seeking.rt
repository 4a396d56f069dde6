// Which words are sought, and the first of them.
use pieces::piece::Piece;
use pieces::{is_name, number};
use places::from_piece;
use rows::read::name_at;

// Whether a piece is the name that stands at a place of the row.
fn is_name_at(piece: Piece, row: &[u32], place: usize) -> bool {
    let Piece::Word(word) = piece else {
        return false;
    };
    let name = name_at(row, place);
    name.len() == word.len()
        && name
            .iter()
            .zip(word)
            .all(|(letter, byte)| *letter == u32::from(*byte))
}

// The text from a name on, which stands at a place of the row; if it is not there, the text as it is.
pub(super) fn from_name<'a>(text: &'a [u8], row: &[u32], place: usize) -> &'a [u8] {
    from_piece(text, 0, |piece| is_name_at(piece, row, place))
}

pub(super) fn is_any_name(piece: Piece) -> bool {
    matches!(piece, Piece::Word(word) if is_name(word))
}

pub(super) fn is_number(piece: Piece) -> bool {
    matches!(piece, Piece::Word(word) if number(word).is_some())
}

// A number that is no word of 32 bits.
fn is_large(piece: Piece) -> bool {
    matches!(piece, Piece::Word(word) if number(word).is_some_and(|n| u32::try_from(n).is_err()))
}

fn is_leaving(piece: Piece) -> bool {
    matches!(piece, Piece::Word(b"break" | b"continue"))
}

// The text from the first number on that is no word of 32 bits.
pub(super) fn from_large(text: &[u8]) -> &[u8] {
    from_piece(text, 0, is_large)
}

// The text from one of the words `break` and `continue` on, behind so many others of them.
pub(super) fn from_leaving(text: &[u8], others: usize) -> &[u8] {
    from_piece(text, others, is_leaving)
}
