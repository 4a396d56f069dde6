// Lists: elements of one kind with commas between, up to a sign; and parts of one kind, one behind another.
ghost use Rattle.std.specs.Prelude.{◌≡◌, ℕ, ◌+◌, ◌≤◌, List, length, MatchResult};
ghost use Rattle.language.specs.Syntax.{Name};
ghost use Rattle.grammar.specs.Text.{pieces, gap};
ghost use Rattle.grammar.specs.Parse.{Res, fail};
ghost use Rattle.rows.specs.Row.{Wrote};
ghost use Rattle.bodies.specs.Outcome.{Ready};
ghost use Rattle.pieces.specs.Seen.{Signy};
ghost use Rattle.parser.specs.Lists.{Listed, Listable, Parted};

use pieces::eating::eat;
use pieces::refused::{Reason, Refused, refuse};
use rows::row::Row;

// How an element of a list is read, and written.
pub trait Element<'a>: Copy {
    type Value: Copy;

    ghost Tree: { Type 0 };

    ghost tree: { Self → Self.Value → Tree };

    ghost words: { Self → Tree → List ℕ };

    ghost can_put: { Self → Self.Value → Type 0 };
    // the list as the model parser reads it
    ghost list: { Self → List Name → Res (List Tree) };
    // the sign that ends it
    ghost last: { ℕ };

    fn read(self, text: &'a [u8]) -> Result<(Self::Value, &'a [u8]), Refused>
        ensures { MatchResult result (λ p. Listable last (list self) (words self) (tree self p.0) text.now p.1.now × can_put self p.0) (λ _. list self (pieces gap text.now) ≡ fail) };

    fn put(self, value: Self::Value, out: &mut Row)
        requires room { out.old.len + length (words self (tree self value)) ≤ length out.old.words.now }
        requires fine { can_put self value }
        ensures { Wrote out.old out.new (words self (tree self value)) };

    fn end(self) -> u8
        ensures is { result ≡ last }
        ensures signy { Signy result };
}

// Elements with commas between, one at least, up to the sign that ends them and with it.
pub fn list_of<'a, E: Element<'a>>(
    text: &'a [u8],
    element: E,
    out: &mut Row,
) -> Result<(u32, &'a [u8]), Refused>
    requires ready { Ready 0 text.now out.old }
    ensures { Listed 0 (E.list element (pieces gap text.now)) (E.words element) text.now out.old out.new result }
{
    let end = element.end();
    let mut rest = text;
    let mut count = 0;
    loop {
        let (value, behind) = element.read(rest)?;
        if let Some(after) = eat(behind, end) {
            element.put(value, out);
            return Ok((count + 1, after));
        }
        let Some(after) = eat(behind, b',') else {
            return Err(refuse(behind, Reason::Expected(end)));
        };
        element.put(value, out);
        count += 1;
        rest = after;
    }
}

// How a part of a text is read and written, if one stands first.
pub trait Part<'a>: Copy {
    ghost Tree: { Type 0 };

    ghost words: { Tree → List ℕ };
    // the parts as the model parser reads them
    ghost list: { List Name → Res (List Tree) };

    fn read(self, text: &'a [u8], out: &mut Row) -> Result<Option<&'a [u8]>, Refused>
        requires ready { Ready 0 text.now out.old }
        ensures { Parted list words text.now out.old out.new result };
}

// Parts one behind another, up to where none stands.
pub fn all_of<'a, P: Part<'a>>(
    text: &'a [u8],
    part: P,
    out: &mut Row,
) -> Result<(u32, &'a [u8]), Refused>
    requires ready { Ready 0 text.now out.old }
    ensures { Listed 1 (P.list (pieces gap text.now)) P.words text.now out.old out.new result }
{
    let mut rest = text;
    let mut count = 0;
    while let Some(behind) = part.read(rest, out)? {
        count += 1;
        rest = behind;
    }
    Ok((count, rest))
}
