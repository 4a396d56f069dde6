// Statements: each function reads as its part of the model parser does, and writes the row of the tree that it read.
ghost use Rattle.std.specs.Prelude.{◌+◌, ◌*◌, ◌<◌, ◌≤◌, false, [], ◌∷◌, ◌++◌, length};
ghost use Rattle.grammar.specs.Text.{pieces, gap};
ghost use Rattle.grammar.specs.ParseAll.{name_st, stmt, st_by, l_if, l_while, body as bodies};
ghost use Rattle.bodies.specs.Outcome.{Ready, Parsed};
ghost use Rattle.rows.specs.Nodes.{expr_row};
ghost use Rattle.rows.specs.NodeTags.{tag_no};
ghost use Rattle.pieces.specs.Seen.{AteName};
ghost use Rattle.bodies.specs.Parts.{ex_end, semi, index_st, else_b};
ghost use Rattle.rows.specs.Nodes.{stmt_row, block_row};

use super::expr::{chain, climb};
use super::put::{number_of, put_named};
use pieces::eating::{at_end, eat, eat_word, expect};
use pieces::lead::{Lead, see_lead};
use pieces::refused::{Reason, Refused, refuse};
use pieces::words;
use rows::row::Row;
use rows::tag::Tag;

// An expression and a semicolon.
fn ex_semi<'a>(text: &'a [u8], out: &mut Row) -> Result<&'a [u8], Refused>
    requires ready { Ready 0 text.now out.old }
    ensures { Parsed 0 (ex_end (pieces gap text.now)) (expr_row false) text.now out.old out.new result }
{
    let rest = climb(text, 0, out)?;
    expect(rest, b';')
}

// The same, and a word that says what it is for. Not by `ex_semi`: its contract keeps no word of the semicolon's for the tag.
fn with_semi<'a>(text: &'a [u8], tag: Tag, out: &mut Row) -> Result<&'a [u8], Refused>
    requires ready { Ready 0 text.now out.old }
    ensures { Parsed 0 (ex_end (pieces gap text.now)) (λ e. expr_row false e ++ (tag_no tag ∷ [])) text.now out.old out.new result }
{
    let rest = climb(text, 0, out)?;
    let rest = expect(rest, b';')?;
    out.put(number_of(tag));
    Ok(rest)
}

// A semicolon alone.
fn just_semi<'a>(text: &'a [u8], tag: Tag, out: &mut Row) -> Result<&'a [u8], Refused>
    requires ready { Ready 0 text.now out.old }
    ensures { Parsed 0 (semi (pieces gap text.now)) (λ e. tag_no tag ∷ []) text.now out.old out.new result }
{
    let rest = expect(text, b';')?;
    out.put(number_of(tag));
    Ok(rest)
}

// A name with an index, behind the bracket: what is stored there, or an expression that begins so.
fn indexed<'a>(x: &[u8], text: &'a [u8], out: &mut Row) -> Result<&'a [u8], Refused>
    requires ready { Ready (4 * length x.now) text.now out.old }
    requires some { 1 ≤ length x.now }
    requires short { length x.now ≤ 32 }
    ensures { Parsed (4 * length x.now) (index_st x.now (pieces gap text.now)) stmt_row text.now out.old out.new result }
{
    let rest = climb(text, 0, out)?;
    let rest = expect(rest, b']')?;
    if let Some(rest) = eat(rest, b'=') {
        let rest = ex_semi(rest, out)?;
        put_named(out, Tag::Store, x);
        return Ok(rest);
    }
    put_named(out, Tag::Idx, x);
    let rest = chain(rest, 0, out)?;
    let rest = expect(rest, b';')?;
    out.put(Tag::Ex as u32);
    Ok(rest)
}

// A statement that begins with a name; `behind` is what is left behind that.
fn named<'a>(x: &[u8], text: &'a [u8], behind: &'a [u8], out: &mut Row) -> Result<&'a [u8], Refused>
    requires ready { Ready 0 text.now out.old }
    requires begins { AteName x.now text.now behind.now }
    ensures { Parsed 0 (name_st x.now (pieces gap behind.now)) stmt_row text.now out.old out.new result }
{
    if let Some(rest) = eat(behind, b'=') {
        let rest = ex_semi(rest, out)?;
        put_named(out, Tag::Set, x);
        return Ok(rest);
    }
    if let Some(rest) = eat(behind, b'[') {
        return indexed(x, rest, out);
    }
    with_semi(text, Tag::Ex, out)
}

// What stands behind `if`.
#[cycle(statements)]
fn if_of<'a>(text: &'a [u8], out: &mut Row) -> Result<&'a [u8], Refused>
    requires ready { Ready 3 text.now out.old }
    ensures { Parsed 3 (st_by bodies l_if [] (pieces gap text.now)) stmt_row text.now out.old out.new result }
{
    let rest = climb(text, 0, out)?;
    let rest = expect(rest, b'{')?;
    out.put(Tag::If as u32);
    let rest = body(rest, out)?;
    out.put(Tag::Else as u32);
    let rest = else_of(rest, out)?;
    out.put(Tag::Fi as u32);
    Ok(rest)
}

// What stands behind an `else`, if there is one.
#[cycle(statements)]
fn else_of<'a>(text: &'a [u8], out: &mut Row) -> Result<&'a [u8], Refused>
    requires ready { Ready 1 text.now out.old }
    ensures { Parsed 1 (else_b (pieces gap text.now)) block_row text.now out.old out.new result }
{
    let Some(rest) = eat_word(text, words::ELSE) else {
        return Ok(text);
    };
    let rest = expect(rest, b'{')?;
    body(rest, out)
}

// What stands behind `while`.
#[cycle(statements)]
fn while_of<'a>(text: &'a [u8], out: &mut Row) -> Result<&'a [u8], Refused>
    requires ready { Ready 3 text.now out.old }
    ensures { Parsed 3 (st_by bodies l_while [] (pieces gap text.now)) stmt_row text.now out.old out.new result }
{
    out.put(Tag::Loop as u32);
    let rest = climb(text, 0, out)?;
    let rest = expect(rest, b'{')?;
    out.put(Tag::While as u32);
    let rest = body(rest, out)?;
    out.put(Tag::Again as u32);
    Ok(rest)
}

// A statement.
#[cycle(statements)]
fn statement<'a>(text: &'a [u8], out: &mut Row) -> Result<&'a [u8], Refused>
    requires ready { Ready 0 text.now out.old }
    ensures { Parsed 0 (stmt bodies (pieces gap text.now)) stmt_row text.now out.old out.new result }
{
    let (lead, rest) = see_lead(text);
    match lead {
        Lead::Out => with_semi(rest, Tag::Out, out),
        Lead::If => if_of(rest, out),
        Lead::While => while_of(rest, out),
        Lead::Return => with_semi(rest, Tag::Ret, out),
        Lead::Break => just_semi(rest, Tag::Break, out),
        Lead::Next => just_semi(rest, Tag::Next, out),
        Lead::Named(x) => named(x, text, rest, out),
        Lead::Other => with_semi(text, Tag::Ex, out),
    }
}

// Statements up to the bracket, and with it.
#[cycle(statements)]
pub fn body<'a>(text: &'a [u8], out: &mut Row) -> Result<&'a [u8], Refused>
    requires ready { Ready 0 text.now out.old }
    ensures { Parsed 0 (bodies (pieces gap text.now)) block_row text.now out.old out.new result }
{
    let mut rest = text;
    loop {
        if let Some(behind) = eat(rest, b'}') {
            return Ok(behind);
        }
        if at_end(rest) {
            return Err(refuse(rest, Reason::Expected(b'}')));
        }
        rest = statement(rest, out)?;
    }
}
