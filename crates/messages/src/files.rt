// The names of files.
use super::problem::Fault;
use limits::entries::{files_of, is_named};
use pieces::piece::Piece;
use places::{Located, from_piece, locate, past_pieces};
use rows::read::name_at;

// Whether one of the first files has a name.
pub(super) fn is_file(row: &[u32], files: usize, name: &[u32]) -> bool {
    files_of(row)
        .take(files)
        .any(|file| is_named(row, file, name))
}

// The second of two files with one name.
pub(super) fn doubled_file(whole: &[u8], row: &[u32]) -> Located<Fault> {
    let which = files_of(row)
        .enumerate()
        .find(|(k, file)| is_file(row, *k, name_at(row, *file)))
        .map_or(1, |(k, _)| k);
    let text = from_piece(whole, which, |piece| matches!(piece, Piece::Word(b"file")));
    locate(whole, past_pieces(text, 1), Fault::DoubledFile)
}
