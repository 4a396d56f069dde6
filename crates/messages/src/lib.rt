// What an engineer is told of a text that is no program: where, and why.
#![tactic(auto)]

ghost use Rattle.std.specs.Prelude.{◌≤◌, length};
ghost use Rattle.messages.specs.Explains.{Explains};

use front::{Parsed, Unreadable, check, parse_words};
use pieces::refused::{Reason, Refused};
use places::Located;

mod body;
mod closing;
mod coarse;
mod exact;
mod files;
mod function;
mod item;
mod nesting;
pub mod outline;
pub mod problem;
mod search;
mod seeking;

use nesting::past_limit;
use problem::{Fault, Problem, What};
use search::Search;

// Bytes of a text at most.
const MOST_BYTES: usize = 32768;

// Where a text is refused, and why.
fn refusal_of(text: &[u8], refused: Refused) -> Located<Reason> {
    Located {
        at: match refused.reason {
            Reason::TextTooLong => MOST_BYTES,
            _ => text.len().saturating_sub(refused.left),
        },
        what: refused.reason,
    }
}

// The same; the parser stops at the piece behind the one that is too many.
fn exact_refusal(text: &[u8], refused: Refused) -> Located<Reason> {
    let told = refusal_of(text, refused);
    if text.len() > MOST_BYTES {
        return told;
    }
    past_limit(text).unwrap_or(told)
}

// Where and why a text is no program, by what finds the fault of a tree and the place of a refusal.
fn explain_by<C, R>(text: &[u8], work: &mut [u32], find_fault: C, refuse: R) -> Option<Problem>
where
    C: FnOnce(&mut Search) -> Located<Fault>,
    R: FnOnce(&[u8], Refused) -> Located<Reason>,
    requires finds { C.IsAlwaysCallable find_fault }
    requires refuses { R.IsAlwaysCallable refuse }
    ensures { Explains text.now (length work.old) result }
{
    let Err(Unreadable::NoProgram) = check(text, work) else {
        return None;
    };
    let found = match parse_words(text, work) {
        Ok(parsed) => {
            let Parsed { row, pile } = parsed;
            let mut search = Search { text, row, pile };
            find_fault(&mut search).map(What::Fails)
        }
        Err(refused) => refuse(text, refused).map(What::Reads),
    };
    Some(Located {
        at: found.at.min(text.len()),
        what: found.what,
    })
}

// Where and why a text is no program; nothing if it is one, or if there are too few work words to tell.
pub fn explain(text: &[u8], work: &mut [u32]) -> Option<Problem>
    ensures { Explains text.now (length work.old) result }
{
    explain_by(text, work, exact::find_fault, exact_refusal)
}

// The same in outline: of what is wrong with an item, where the item begins.
pub fn explain_outline(text: &[u8], work: &mut [u32]) -> Option<Problem>
    ensures { Explains text.now (length work.old) result }
{
    explain_by(text, work, coarse::find_fault, refusal_of)
}

#[cfg(test)]
mod tests {
    use super::*;

    fn problem_of(text: &[u8]) -> Option<Problem> {
        let mut work = [0; 81920];
        explain(text, &mut work)
    }

    fn outline_of(text: &[u8]) -> Option<Problem> {
        let mut work = [0; 81920];
        explain_outline(text, &mut work)
    }

    // The place of a problem that is one of a name.
    fn name_place(found: Option<Problem>) -> Option<usize> {
        let found = found?;
        match found.what {
            What::Fails(Fault::UnknownName | Fault::WrongKind | Fault::DoubledName) => Some(
                found.at,
            ),
            _ => None,
        }
    }

    // The place of a problem that is one of a number or of a limit on how many there are.
    fn limit_place(found: Option<Problem>) -> Option<usize> {
        let found = found?;
        match found.what {
            What::Fails(Fault::NumberTooLarge | Fault::SizeOutOfRange | Fault::Arguments) => Some(
                found.at,
            ),
            _ => None,
        }
    }

    // The place of a sign that was expected.
    fn sign_place(found: Option<Problem>, sign: u8) -> Option<usize> {
        let found = found?;
        if found.what == What::Reads(Reason::Expected(sign)) {
            Some(found.at)
        } else {
            None
        }
    }

    #[test]
    fn tells_nothing_of_a_program(rt: HostRuntime) {
        assert!(rt; problem_of(b"file a; fn main() { }").is_none());
        assert!(rt; outline_of(b"file a; fn main() { }").is_none());
    }

    #[test]
    fn tells_signs(rt: HostRuntime) {
        let (one, two, three) = (
            b"file a; fn main() { return (1; }",
            b"file a; fn main() { var x return 0; }",
            b"file a; fn main() {",
        );
        assert!(rt; sign_place(problem_of(one), b')') == Some(29));
        assert!(rt; sign_place(problem_of(two), b';') == Some(26));
        assert!(rt; sign_place(problem_of(three), b'}') == Some(19));
        assert!(rt; sign_place(outline_of(one), b')') == Some(29));
        assert!(rt; sign_place(outline_of(two), b';') == Some(26));
        assert!(rt; sign_place(outline_of(three), b'}') == Some(19));
    }

    #[test]
    fn tells_names(rt: HostRuntime) {
        let (one, two, three) = (
            b"file a; fn main() { return x; }",
            b"file a; array x[2]; fn main() { return x; }",
            b"file a; var x; fn x() { } fn main() { }",
        );
        assert!(rt; name_place(problem_of(one)) == Some(27));
        assert!(rt; name_place(problem_of(two)) == Some(39));
        assert!(rt; name_place(problem_of(three)) == Some(18));
        assert!(rt; name_place(outline_of(one)) == Some(27));
        assert!(rt; name_place(outline_of(two)) == Some(39));
        assert!(rt; name_place(outline_of(three)) == Some(18));
    }

    #[test]
    fn tells_limits(rt: HostRuntime) {
        let (one, two, three, four) = (
            b"file a; fn main() { return 4294967296; }",
            b"file a; array x[65537]; fn main() { }",
            b"file a; fn main() { array x[4097]; }",
            b"file a; fn f() { } fn main() { return f(1); }",
        );
        assert!(rt; limit_place(problem_of(one)) == Some(27));
        assert!(rt; limit_place(problem_of(two)) == Some(16));
        assert!(rt; limit_place(problem_of(three)) == Some(28));
        assert!(rt; limit_place(problem_of(four)) == Some(38));
        assert!(rt; limit_place(outline_of(one)) == Some(27));
        assert!(rt; limit_place(outline_of(two)) == Some(8));
        assert!(rt; limit_place(outline_of(three)) == Some(8));
        assert!(rt; limit_place(outline_of(four)) == Some(38));
    }
}
