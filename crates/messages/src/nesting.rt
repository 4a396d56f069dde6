// Where a text passes the limit of open brackets, or of signs in a row.
ghost use Rattle.messages.specs.Nesting.{PastLimit};

use pieces::flat::Nesting;
use pieces::refused::Reason;
use places::{Located, locate, pieces_of};

// The first piece that is one too many, if another stands behind it.
pub fn past_limit(text: &[u8]) -> Option<Located<Reason>>
    ensures { PastLimit text.now result }
{
    let mut last = text;
    let mut nesting = Nesting::default();
    for cutting in pieces_of(text) {
        if nesting.brackets > 40 {
            return Some(locate(text, last, Reason::BracketsTooDeep));
        }
        if nesting.signs > 40 {
            return Some(locate(text, last, Reason::SignsTooMany));
        }
        nesting = nesting.after(cutting.piece);
        last = cutting.from;
    }
    None
}
