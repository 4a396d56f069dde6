// Expressions: each function reads as its part of the model parser does, and writes the row of the tree that it read.
ghost use Rattle.std.specs.Prelude.{◌+◌, ◌*◌, ◌<◌, ◌≤◌, true, false, [], length, IfOk};
ghost use Rattle.grammar.specs.Text.{pieces, gap};
ghost use Rattle.grammar.specs.Parse.{reader, climb as climbs, args_of, name as names, signed as signs, start, p_lp, p_len, p_call, p_in};
ghost use Rattle.pieces.specs.Seen.{unary_number};
ghost use Rattle.bodies.specs.Outcome.{Ready, Parsed, ParsedArgs, ParsedChain};
ghost use Rattle.rows.specs.Nodes.{expr_row};

use super::put::{mark_arg, put_call, put_mid, put_named, put_num, put_post};
use pieces::eating::{eat, expect, expect_name};
use pieces::refused::{Reason, Refused, refuse};
use pieces::seen::{Look, Unary, see, see_op};
use rows::row::Row;
use rows::tag::Tag;

// len(x), behind the word.
fn length_of<'a>(text: &'a [u8], out: &mut Row) -> Result<&'a [u8], Refused>
    requires ready { Ready 0 text.now out.old }
    ensures { Parsed 0 (start reader [] p_len (pieces gap text.now)) (expr_row false) text.now out.old out.new result }
{
    let rest = expect(text, b'(')?;
    let (x, rest) = expect_name(rest)?;
    let rest = expect(rest, b')')?;
    put_named(out, Tag::Len, x);
    Ok(rest)
}

// in(), behind the word.
fn input<'a>(text: &'a [u8], out: &mut Row) -> Result<&'a [u8], Refused>
    requires ready { Ready 0 text.now out.old }
    ensures { Parsed 0 (start reader [] p_in (pieces gap text.now)) (expr_row false) text.now out.old out.new result }
{
    let rest = expect(text, b'(')?;
    let rest = expect(rest, b')')?;
    out.put(Tag::In as u32);
    Ok(rest)
}

// An expression in brackets, behind the first of them.
#[cycle(expressions)]
fn brackets<'a>(text: &'a [u8], out: &mut Row) -> Result<&'a [u8], Refused>
    requires ready { Ready 0 text.now out.old }
    ensures { Parsed 0 (start reader [] p_lp (pieces gap text.now)) (expr_row false) text.now out.old out.new result }
{
    let rest = climb(text, 0, out)?;
    expect(rest, b')')
}

// What stands behind a sign before one.
#[cycle(expressions)]
fn signed<'a>(text: &'a [u8], op: Unary, out: &mut Row) -> Result<&'a [u8], Refused>
    requires ready { Ready 2 text.now out.old }
    ensures { Parsed 2 (signs reader (unary_number op) (pieces gap text.now)) (expr_row false) text.now out.old out.new result }
{
    let rest = one(text, out)?;
    out.put_all(&[Tag::Un as u32, u32::from(op)]);
    Ok(rest)
}

// A name, and what it opens: a call, an index, or nothing.
#[cycle(expressions)]
fn name<'a>(x: &[u8], text: &'a [u8], out: &mut Row) -> Result<&'a [u8], Refused>
    requires ready { Ready (4 * length x.now) text.now out.old }
    requires some { 1 ≤ length x.now }
    requires short { length x.now ≤ 32 }
    ensures { Parsed (4 * length x.now) (names reader x.now (pieces gap text.now)) (expr_row false) text.now out.old out.new result }
{
    if let Some(rest) = eat(text, b'(') {
        let (count, rest) = args(rest, out)?;
        put_call(out, Tag::Call, count, x);
        return Ok(rest);
    }
    if let Some(rest) = eat(text, b'[') {
        let rest = climb(rest, 0, out)?;
        let rest = expect(rest, b']')?;
        put_named(out, Tag::Idx, x);
        return Ok(rest);
    }
    put_named(out, Tag::Var, x);
    Ok(text)
}

// A call through a table, behind the word.
#[cycle(expressions)]
fn by_table<'a>(text: &'a [u8], out: &mut Row) -> Result<&'a [u8], Refused>
    requires ready { Ready 0 text.now out.old }
    ensures { Parsed 0 (start reader [] p_call (pieces gap text.now)) (expr_row false) text.now out.old out.new result }
{
    let (x, rest) = expect_name(text)?;
    let rest = expect(rest, b'[')?;
    let rest = climb(rest, 0, out)?;
    let rest = expect(rest, b']')?;
    let rest = expect(rest, b'(')?;
    let (count, rest) = args(rest, out)?;
    put_call(out, Tag::By, count, x);
    Ok(rest)
}

// One, with the signs before it.
#[cycle(expressions)]
pub fn one<'a>(text: &'a [u8], out: &mut Row) -> Result<&'a [u8], Refused>
    requires ready { Ready 0 text.now out.old }
    ensures { Parsed 0 (reader.one (pieces gap text.now)) (expr_row false) text.now out.old out.new result }
{
    let (look, rest) = see(text);
    match look {
        Look::Num(n) => {
            out.put(Tag::Num as u32);
            put_num(out, n);
            Ok(rest)
        }
        Look::Named(x) => name(x, rest, out),
        Look::Minus => signed(rest, Unary::Negate, out),
        Look::Before(op) => signed(rest, op, out),
        Look::OpenRound => brackets(rest, out),
        Look::Len => length_of(rest, out),
        Look::Call => by_table(rest, out),
        Look::In => input(rest, out),
        _ => Err(refuse(text, Reason::ExpectedExpression)),
    }
}

// Operators and operands behind a first operand, as long as they hold at least as tightly as the level.
#[cycle(expressions)]
pub fn chain<'a>(text: &'a [u8], level: u32, out: &mut Row) -> Result<&'a [u8], Refused>
    requires ready { Ready 0 text.now out.old }
    ensures { ParsedChain level text.now out.old out.new result }
{
    let mut rest = text;
    loop {
        let Some((op, behind)) = see_op(rest) else {
            return Ok(rest);
        };
        let tight = op.level();
        if tight < level {
            return Ok(rest);
        }
        put_mid(out, op);
        rest = climb(behind, tight + 1, out)?;
        put_post(out, op);
    }
}

// An expression of operators that hold at least as tightly as the level.
#[cycle(expressions)]
pub fn climb<'a>(text: &'a [u8], level: u32, out: &mut Row) -> Result<&'a [u8], Refused>
    requires ready { Ready 0 text.now out.old }
    ensures { Parsed 0 (climbs reader level (pieces gap text.now)) (expr_row false) text.now out.old out.new result }
{
    let rest = one(text, out)?;
    chain(rest, level, out)
}

// An argument.
#[cycle(expressions)]
fn arg<'a>(text: &'a [u8], out: &mut Row) -> Result<&'a [u8], Refused>
    requires ready { Ready 0 text.now out.old }
    ensures { Parsed 0 (climbs reader 0 (pieces gap text.now)) (expr_row true) text.now out.old out.new result }
{
    let start = out.len;
    let rest = climb(text, 0, out)?;
    mark_arg(out, start);
    Ok(rest)
}

// Behind an argument: the others, up to the bracket and with it; and how many. Not by the parser's `list_of`, which writes an
// element when the sign behind it is read: an argument is written as it is read, by functions that call this one.
#[cycle(expressions)]
fn more_args<'a>(text: &'a [u8], out: &mut Row) -> Result<(u32, &'a [u8]), Refused>
    requires ready { Ready 0 text.now out.old }
    ensures few { IfOk result (λ q. q.0 ≤ 32768) }
    ensures did { ParsedArgs (reader.args (pieces gap text.now)) text.now out.old out.new result }
{
    let mut rest = text;
    let mut count = 0;
    loop {
        if let Some(behind) = eat(rest, b')') {
            return Ok((count, behind));
        }
        let Some(behind) = eat(rest, b',') else {
            return Err(refuse(rest, Reason::Expected(b')')));
        };
        rest = arg(behind, out)?;
        count += 1;
    }
}

// Arguments up to the bracket, and with it; and how many.
#[cycle(expressions)]
fn args<'a>(text: &'a [u8], out: &mut Row) -> Result<(u32, &'a [u8]), Refused>
    requires ready { Ready 0 text.now out.old }
    ensures { ParsedArgs (args_of reader (pieces gap text.now)) text.now out.old out.new result }
{
    if let Some(rest) = eat(text, b')') {
        return Ok((0, rest));
    }
    let rest = arg(text, out)?;
    let (count, rest) = more_args(rest, out)?;
    Ok((count + 1, rest))
}
