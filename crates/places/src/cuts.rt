// The pieces of a text, one after another.
ghost use Rattle.std.specs.Prelude.{◌≡◌, length};
ghost use Rattle.std.specs.Iterator.{at_most};
ghost use Rattle.places.specs.Tails.{Next};

use pieces::next_piece;
use pieces::piece::Piece;

// A piece, the text from it on, and what is left behind it.
#[derive(Clone, Copy)]
pub struct Cutting<'a> {
    pub piece: Piece<'a>,
    pub from: &'a [u8],
    pub behind: &'a [u8],
}

// What is left of a text that is cut into its pieces.
#[derive(Drop)]
pub struct Cuts<'a> {
    pub text: &'a [u8],
}

impl<'a> Iterator for Cuts<'a> {
    type Item = Cutting<'a>;

    ghost next_gives = { Next };

    ghost remaining = { λ s. at_most (length s.text.now) };

    fn next(&mut self) -> Option<Cutting<'a>> {
        let from = self.text;
        let (piece, behind) = next_piece(from);
        self.text = behind;
        if matches!(piece, Piece::End) {
            return None;
        }
        Some(Cutting {
            piece,
            from,
            behind,
        })
    }
}

pub fn pieces_of(text: &[u8]) -> Cuts<'_>
    ensures { result.text.now ≡ text.now }
{
    Cuts { text }
}
