// Files, and whole texts.
ghost use Rattle.std.specs.Prelude.{◌+◌, ◌*◌, ◌≤◌, length, MatchResult};
ghost use Rattle.language.specs.Syntax.{Item, File};
ghost use Rattle.grammar.specs.Text.{pieces, gap};
ghost use Rattle.grammar.specs.ParseAll.{again, items_step, files_step};
ghost use Rattle.rows.specs.Trees.{item_row, file_row};
ghost use Rattle.bodies.specs.Outcome.{Ready, Parsed};
ghost use Rattle.parser.specs.Programs.{file_of, ReadAs, Unread};

use super::element::{Part, all_of};
use super::item::item;
use pieces::eating::{at_end, eat_word, expect, expect_name};
use pieces::flat::check_flat;
use pieces::refused::{Reason, Refused, refuse};
use pieces::words;
use rows::row::Row;

// The largest text.
const TEXT_BYTES: usize = 32768;

// The items of a file, up to the next file or the end.
#[derive(Clone, Copy)]
struct Items;

impl<'a> Part<'a> for Items {
    ghost Tree = { Item };

    ghost words = { item_row };

    ghost list = { again items_step };

    fn read(self, text: &'a [u8], out: &mut Row) -> Result<Option<&'a [u8]>, Refused> {
        if at_end(text) {
            return Ok(None);
        }
        if let Some(_) = eat_word(text, words::FILE) {
            return Ok(None);
        }
        Ok(Some(item(text, out)?))
    }
}

// A file, behind its first word.
fn file<'a>(text: &'a [u8], out: &mut Row) -> Result<&'a [u8], Refused>
    requires ready { Ready 0 text.now out.old }
    ensures { Parsed 0 (file_of (pieces gap text.now)) file_row text.now out.old out.new result }
{
    let (x, rest) = expect_name(text)?;
    let rest = expect(rest, b';')?;
    out.put_name(x);
    let at = out.len;
    out.put(0);
    let (count, rest) = all_of(rest, Items, out)?;
    out.set(at, count);
    Ok(rest)
}

// Files, to the end.
#[derive(Clone, Copy)]
struct Files;

impl<'a> Part<'a> for Files {
    ghost Tree = { File };

    ghost words = { file_row };

    ghost list = { again files_step };

    fn read(self, text: &'a [u8], out: &mut Row) -> Result<Option<&'a [u8]>, Refused> {
        if at_end(text) {
            return Ok(None);
        }
        let Some(rest) = eat_word(text, words::FILE) else {
            return Err(refuse(text, Reason::ExpectedFile));
        };
        Ok(Some(file(rest, out)?))
    }
}

// A whole text: the row of the program that it is, or where and why it is none.
pub fn parse(text: &[u8], out: &mut Row) -> Result<(), Refused>
    requires room { out.old.len + 4 * length text.now + 1 ≤ length out.old.words.now }
    ensures { MatchResult result (λ _. ReadAs text.now out.old out.new) (λ _. Unread text.now) }
{
    if text.len() > TEXT_BYTES {
        return Err(refuse(text, Reason::TextTooLong));
    }
    check_flat(text)?;
    let at = out.len;
    out.put(0);
    let (count, _) = all_of(text, Files, out)?;
    out.set(at, count);
    Ok(())
}

#[cfg(test)]
mod tests {
    use super::*;
    use std::test::Fail;

    // A name that is an argument by itself, and the counts and lengths that are set at the ends.
    #[test]
    fn one_function(rt: HostRuntime) {
        let mut words = [9; 128];
        let mut row = Row {
            words: &mut words,
            len: 0,
        };
        let read = parse(b"file a; fn main(x){f((x));}", &mut row);
        assert!(rt; read.is_ok());
        let len = row.len;
        assert_eq!(rt; len, 28);
        assert_eq!(rt; words[5], 22);
        assert_eq!(rt; words[11], 1);
        assert_eq!(rt; words[19], 26);
        assert_eq!(rt; words[27], 25);
    }

    // All kinds of items, in two files.
    #[test]
    fn two_files(rt: HostRuntime) {
        let mut words = [9; 640];
        let mut row = Row {
            words: &mut words,
            len: 0,
        };
        let text =
            b"file a; var n; array t[3]; array u = 1,2,3; bytes b[4]; bytes s = \"hi\"; table f = g,h; fn g(){} file b; use a: g,n;";
        let read = parse(text, &mut row);
        assert!(rt; read.is_ok());
        let len = row.len;
        assert_eq!(rt; len, 73);
        assert_eq!(rt; words[0], 2);
        assert_eq!(rt; words[3], 7);
    }

    // An operand is missing: the place is that of the piece that stands there.
    #[test]
    fn refused_place(rt: HostRuntime) -> Result<(), Fail> {
        let mut words = [9; 640];
        let mut row = Row {
            words: &mut words,
            len: 0,
        };
        let read = parse(b"file a; fn main(){ x = 1 + ; }", &mut row);
        match read {
            Ok(_) => {
                assert!(rt; false);
                Ok(())
            },
            Err(no) => {
                assert!(rt; matches!(no.reason, Reason::ExpectedExpression));
                assert_eq!(rt; no.left, 3);
                Ok(())
            }
        }
    }
}
