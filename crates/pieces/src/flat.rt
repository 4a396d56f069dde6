// The limits of nesting: how deep brackets stand in one another, and how many signs stand before one in a row.
ghost use Rattle.std.specs.Prelude.{◌≡◌, ◌≤◌, true, false, ◌&&◌, MatchResult};
ghost use Rattle.grammar.specs.Text.{pieces, gap, flat as flats, calm};
ghost use Rattle.pieces.specs.Cutting.{Sane};
ghost use Rattle.pieces.specs.Flat.{opened_after, signed_after};

use super::lex::next_piece;
use super::piece::Piece;
use super::refused::{Reason, Refused, refuse};

// How many brackets are open, and how many signs before one stand in a row.
#[derive(Clone, Copy, Debug, Default, PartialEq, Eq)]
pub struct Nesting {
    pub brackets: u32,
    pub signs: u32,
}

impl Nesting {
    // What they are behind one piece more.
    pub fn after(self, piece: Piece) -> Nesting
        requires sane { Sane piece }
        requires brackets { self.brackets ≤ 40 }
        requires signs { self.signs ≤ 40 }
        ensures brackets { result.brackets ≡ opened_after piece.entry self.brackets }
        ensures signs { result.signs ≡ signed_after piece.entry self.signs }
    {
        let Piece::Sign(a) = piece else {
            return Nesting {
                brackets: self.brackets,
                signs: 0,
            };
        };
        let brackets = match a {
            b'(' | b'[' | b'{' => self.brackets + 1,
            b')' | b']' | b'}' => self.brackets.saturating_sub(1),
            _ => self.brackets,
        };
        let signs = match a {
            b'-' | b'!' | b'~' => self.signs + 1,
            _ => 0,
        };
        Nesting { brackets, signs }
    }
}

// At most 40 brackets in one another, and 40 signs before one in a row.
pub fn check_flat(text: &[u8]) -> Result<(), Refused>
    ensures { MatchResult result (λ _. (flats 0 (pieces gap text.now) && calm 0 (pieces gap text.now)) ≡ true) (λ _. (flats 0 (pieces gap text.now) && calm 0 (pieces gap text.now)) ≡ false) }
{
    let mut rest = text;
    let mut nesting = Nesting::default();
    loop {
        let (piece, behind) = next_piece(rest);
        if let Piece::End = piece {
            return Ok(());
        }
        if nesting.brackets > 40 {
            return Err(refuse(rest, Reason::BracketsTooDeep));
        }
        if nesting.signs > 40 {
            return Err(refuse(rest, Reason::SignsTooMany));
        }
        nesting = nesting.after(piece);
        rest = behind;
    }
}
