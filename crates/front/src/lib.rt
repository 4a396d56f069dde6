// The reading half of the compiler: a text of any bytes is answered exactly as the definitions answer it.
#![tactic(auto)]

ghost use Rattle.std.specs.Prelude.{◌≡◌, ◌+◌, ◌*◌, ◌<◌, ◌≤◌, true, ◌&&◌, length, nat_lt, MatchResult};
ghost use Rattle.language.specs.Syntax.{Prog};
ghost use Rattle.language.specs.Checks.{ok};
ghost use Rattle.rows.specs.Trees.{prog_row};
ghost use Rattle.generator.specs.ResolvedRows.{resolved_words, resolve_prog};
ghost use Rattle.parser.specs.Programs.{Unread};
ghost use Rattle.front.specs.Refusals.{unbuilt_of};
ghost use Rattle.front.specs.Answers.{work_words, IsParsed, CheckSays, ReadSays, Begins};

mod parsed;

use limits::{fits, stage};
use lower::Unbuilt;
use names::items::check_names;
pub use parsed::Parsed;
use parser::parse;
use pieces::refused::Refused;
use resolver::resolve_program;
use rows::row::Row;
use std::error::Error;
use std::fmt;

// A program's stage, its row in the lent words, and the words that are left.
#[derive(Drop)]
pub struct Accepted<'a> {
    pub stage: u32,
    pub row: &'a [u32],
    pub rest: &'a mut [u32],
}

// A program's stage, its row in the lent words, the same with its names resolved, and the words that are left.
#[derive(Drop)]
pub struct Tree<'a> {
    pub stage: u32,
    pub row: &'a [u32],
    pub resolved: &'a [u32],
    pub rest: &'a mut [u32],
}

// Why no program was read: there are too few work words, or the text is none.
#[derive(Clone, Copy, Debug, PartialEq, Eq)]
pub enum Unreadable {
    Few,
    NoProgram,
}

impl fmt::Display for Unreadable {
    fn fmt<W: fmt::Write>(&self, f: &mut fmt::Formatter<W>) -> fmt::Result {
        f.write_str(match self {
            Unreadable::Few => "few",
            Unreadable::NoProgram => "no program",
        })
    }
}

impl Error for Unreadable {}

impl From<Unreadable> for Unbuilt {
    ghost from_gives = { λ refusal unbuilt. unbuilt ≡ unbuilt_of refusal };

    fn from(refusal: Unreadable) -> Unbuilt {
        match refusal {
            Unreadable::Few => Unbuilt::Few,
            Unreadable::NoProgram => Unbuilt::NoProgram,
        }
    }
}

// Whether the program of a row passes all checks. The pile has room for as many words as the row.
fn is_checked(row: &[u32], pile: &mut [u32]) -> bool
    requires { length row.now ≤ length pile.old }
    ensures { (p : Prog) → row.now ≡ prog_row p → result ≡ ok p }
{
    fits(row) & check_names(row, pile)
}

// Writes the row of the tree of a text, before the checks; or says where and why there is none.
pub fn parse_words<'a>(text: &[u8], work: &'a mut [u32]) -> Result<Parsed<'a>, Refused>
    requires { work_words text.now ≤ length work.old }
    ensures { MatchResult result (IsParsed text.now (length work.old)) (λ _. Unread text.now) }
{
    let (words, pile) = work.split_at_mut(4 * text.len() + 1);
    let mut out = Row { words, len: 0 };
    parse(text, &mut out)?;
    let Row { words, len } = out;
    Ok(Parsed {
        row: &words[..len],
        pile,
    })
}

// Writes the program of a row with its names resolved, if there is room, and says how many words were written.
fn resolve_row(row: &[u32], words: &mut [u32]) -> usize
    ensures is { (p : Prog) → row.now ≡ prog_row p → ok p ≡ true → length row.now < 4294967296 → length (resolved_words (resolve_prog p)) ≤ length words.old → Begins words.new result (resolved_words (resolve_prog p)) }
    ensures inside { result ≤ length words.new }
    ensures kept { length words.new ≡ length words.old }
{
    let mut out = Row { words, len: 0 };
    resolve_program(row, &mut out);
    out.len
}

// Whether there are fewer work words than 65,536 and 16 for each byte.
fn is_few(words: usize, bytes: usize) -> bool
    ensures { result ≡ nat_lt words (65536 + 16 * bytes) }
{
    words < 65536 || (words - 65536) / 16 < bytes
}

// Reads a text, with work words that its row is written to, for callers that want no names resolved.
pub fn check<'a>(text: &[u8], work: &'a mut [u32]) -> Result<Accepted<'a>, Unreadable>
    ensures { CheckSays text.now (length work.old) result }
{
    if is_few(work.len(), text.len()) {
        return Err(Unreadable::Few);
    }
    let Ok(parsed) = parse_words(text, work) else {
        return Err(Unreadable::NoProgram);
    };
    let Parsed { row, pile } = parsed;
    if !is_checked(row, pile) {
        return Err(Unreadable::NoProgram);
    }
    Ok(Accepted {
        stage: stage(row),
        row,
        rest: pile,
    })
}

// The same, and the names of the program resolved.
pub fn read<'a>(text: &[u8], work: &'a mut [u32]) -> Result<Tree<'a>, Unreadable>
    ensures { ReadSays text.now (length work.old) result }
{
    let accepted = check(text, work)?;
    let Accepted { stage, row, rest } = accepted;
    let (names, rest) = rest.split_at_mut(3 * text.len() + 4);
    let resolved = resolve_row(row, names);
    Ok(Tree {
        stage,
        row,
        resolved: &names[..resolved],
        rest,
    })
}

#[cfg(test)]
mod tests {
    use super::*;

    // The stage of a text of at most 1,024 bytes that is a program.
    fn stage_of(text: &[u8]) -> Option<u32> {
        let mut work = [0; 81920];
        match read(text, &mut work) {
            Ok(tree) => Some(tree.stage),
            Err(_) => None,
        }
    }

    fn is_no_program(text: &[u8]) -> bool {
        let mut work = [0; 81920];
        matches!(read(text, &mut work), Err(Unreadable::NoProgram))
    }

    #[test]
    fn tells_few_words(rt: HostRuntime) {
        let mut work = [0; 65551];
        assert!(rt; matches!(read(b"!", &mut work), Err(Unreadable::Few)));
    }

    #[test]
    fn reads_brackets_and_signs_to_their_limits(rt: HostRuntime) {
        // the body's own bracket is one of the 40
        assert!(rt;
            stage_of(
                b"file a; fn main() { return (((((((((((((((((((((((((((((((((((((((1))))))))))))))))))))))))))))))))))))))); }",
            ) == Some(0)
        );
        assert!(rt;
            is_no_program(
                b"file a; fn main() { return ((((((((((((((((((((((((((((((((((((((((1)))))))))))))))))))))))))))))))))))))))); }",
            )
        );
        assert!(rt;
            stage_of(b"file a; fn main() { return ----------------------------------------1; }")
                == Some(0)
        );
        assert!(rt;
            is_no_program(
                b"file a; fn main() { return -----------------------------------------1; }",
            )
        );
    }

    #[test]
    fn reads_names_and_numbers_to_their_limits(rt: HostRuntime) {
        assert!(rt;
            stage_of(b"file a; var xxxxxxxxxxxxxxxxxxxxxxxxxxxxxxxx; fn main() { }") == Some(0)
        );
        assert!(rt; is_no_program(b"file a; var xxxxxxxxxxxxxxxxxxxxxxxxxxxxxxxxx; fn main() { }"));
        assert!(rt; stage_of(b"file a; fn main() { return 4294967295; }") == Some(0));
        assert!(rt; is_no_program(b"file a; fn main() { return 4294967296; }"));
    }

    #[test]
    fn refuses_what_is_no_program(rt: HostRuntime) {
        assert!(rt; is_no_program(b""));
        assert!(rt; is_no_program(&[255; 300]));
        assert!(rt; is_no_program(b"file a; bytes b = \"abc; fn main() { }"));
        assert!(rt; is_no_program(b"file a; fn main() { return x; }"));
        assert!(rt; is_no_program(b"file a; fn main(x) { }"));
        assert!(rt; stage_of(b"file a; fn main() { } # a note without a line end") == Some(0));
    }

    #[test]
    fn reads_files_that_use_one_another(rt: HostRuntime) {
        assert!(rt;
            stage_of(
                b"file a; use b: g; fn f() { } fn main() { g(); } file b; use a: f; fn g() { f(); }",
            ) == Some(3)
        );
        assert!(rt;
            is_no_program(
                b"file a; use b: f; fn main() { f(); } file b; use c: f; file c; fn f() { }",
            )
        );
    }
}
