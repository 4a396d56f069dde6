// Items, each behind its first word. An item's length and its lists' counts are known at their ends, and are set then.
ghost use Rattle.std.specs.Prelude.{◌≡◌, ◌+◌, ◌*◌, ◌≤◌, length};
ghost use Rattle.language.specs.Syntax.{pick};
ghost use Rattle.grammar.specs.Text.{pieces, gap};
ghost use Rattle.grammar.specs.ParseAll.{it_by, h_var, h_table, h_use, h_fn, item as items};
ghost use Rattle.rows.specs.Kinds.{item_kind_no};
ghost use Rattle.rows.specs.Trees.{item_row};
ghost use Rattle.bodies.specs.Outcome.{Ready, Parsed};
ghost use Rattle.parser.specs.Programs.{array_head, sized_in, data_in, listed_in};

use super::element::{all_of, list_of};
use super::list::{Arrays, Names, params_of, size_of, values_to, vars_of};
use super::put::{close_item, open_item};
use bodies::{body, put_num};
use pieces::eating::{eat, eat_word, expect, expect_name};
use pieces::refused::{Reason, Refused, refuse};
use pieces::words;
use rows::kind::ItemKind;
use rows::row::Row;
use rows::tag::Tag;

// A word.
fn word_item<'a>(text: &'a [u8], out: &mut Row) -> Result<&'a [u8], Refused>
    requires ready { Ready 0 text.now out.old }
    ensures { Parsed 0 (it_by h_var (pieces gap text.now)) item_row text.now out.old out.new result }
{
    let (x, rest) = expect_name(text)?;
    let rest = expect(rest, b';')?;
    let start = out.len;
    open_item(out, ItemKind::Word, x);
    close_item(out, start);
    Ok(rest)
}

// An array with its values, behind the sign.
fn data<'a>(text: &'a [u8], wide: bool, x: &[u8], out: &mut Row) -> Result<&'a [u8], Refused>
    requires ready { Ready (4 * length x.now + 4) text.now out.old }
    requires some { 1 ≤ length x.now }
    requires short { length x.now ≤ 32 }
    ensures { Parsed (4 * length x.now + 4) (data_in wide x.now (pieces gap text.now)) item_row text.now out.old out.new result }
{
    let start = out.len;
    open_item(out, ItemKind::Data, x);
    let at = out.len;
    out.put_all(&[u32::from(wide), 0]);
    let (count, rest) = values_to(text, wide, out)?;
    out.set(at + 1, count);
    close_item(out, start);
    Ok(rest)
}

// An array with its size.
fn sized<'a>(text: &'a [u8], wide: bool, x: &[u8], out: &mut Row) -> Result<&'a [u8], Refused>
    requires ready { Ready (4 * length x.now) text.now out.old }
    requires short { length x.now ≤ 32 }
    ensures { Parsed (4 * length x.now) (sized_in wide x.now (pieces gap text.now)) item_row text.now out.old out.new result }
{
    let (n, rest) = size_of(text)?;
    let start = out.len;
    open_item(out, ItemKind::Array, x);
    out.put(u32::from(wide));
    put_num(out, n);
    close_item(out, start);
    Ok(rest)
}

// An array of words or of bytes, with its values or its size.
fn array_item<'a>(text: &'a [u8], wide: bool, out: &mut Row) -> Result<&'a [u8], Refused>
    requires ready { Ready 0 text.now out.old }
    ensures { Parsed 0 (it_by (array_head wide) (pieces gap text.now)) item_row text.now out.old out.new result }
{
    let (x, rest) = expect_name(text)?;
    match eat(rest, b'=') {
        Some(rest) => data(rest, wide, x, out),
        None => sized(rest, wide, x, out),
    }
}

fn list_kind(used: bool) -> ItemKind
    ensures { item_kind_no result ≡ pick used 5 3 }
{
    if used { ItemKind::Use } else { ItemKind::Table }
}

// A name with those that are listed behind a sign: used of another file, or a table's functions.
fn listed<'a>(text: &'a [u8], used: bool, x: &[u8], out: &mut Row) -> Result<&'a [u8], Refused>
    requires ready { Ready (4 * length x.now + 4) text.now out.old }
    requires short { length x.now ≤ 32 }
    ensures { Parsed (4 * length x.now + 4) (listed_in used x.now (pieces gap text.now)) item_row text.now out.old out.new result }
{
    let start = out.len;
    open_item(out, list_kind(used), x);
    let at = out.len;
    out.put(0);
    let (count, rest) = list_of(text, Names { local: false }, out)?;
    out.set(at, count);
    close_item(out, start);
    Ok(rest)
}

// A table of functions.
fn table_item<'a>(text: &'a [u8], out: &mut Row) -> Result<&'a [u8], Refused>
    requires ready { Ready 0 text.now out.old }
    ensures { Parsed 0 (it_by h_table (pieces gap text.now)) item_row text.now out.old out.new result }
{
    let (x, rest) = expect_name(text)?;
    let rest = expect(rest, b'=')?;
    listed(rest, false, x, out)
}

// What is used of another file.
fn use_item<'a>(text: &'a [u8], out: &mut Row) -> Result<&'a [u8], Refused>
    requires ready { Ready 0 text.now out.old }
    ensures { Parsed 0 (it_by h_use (pieces gap text.now)) item_row text.now out.old out.new result }
{
    let (x, rest) = expect_name(text)?;
    let rest = expect(rest, b':')?;
    listed(rest, true, x, out)
}

// A function.
fn function<'a>(text: &'a [u8], out: &mut Row) -> Result<&'a [u8], Refused>
    requires ready { Ready 0 text.now out.old }
    ensures { Parsed 0 (it_by h_fn (pieces gap text.now)) item_row text.now out.old out.new result }
{
    let (x, rest) = expect_name(text)?;
    let rest = expect(rest, b'(')?;
    let start = out.len;
    open_item(out, ItemKind::Function, x);
    let at = out.len;
    out.put_all(&[0; 3]);
    let (params, rest) = params_of(rest, out)?;
    let rest = expect(rest, b'{')?;
    let (vars, rest) = vars_of(rest, out)?;
    let (arrays, rest) = all_of(rest, Arrays, out)?;
    let rest = body(rest, out)?;
    out.put(Tag::End as u32);
    out.set(at, params);
    out.set(at + 1, vars);
    out.set(at + 2, arrays);
    close_item(out, start);
    Ok(rest)
}

// An item.
pub fn item<'a>(text: &'a [u8], out: &mut Row) -> Result<&'a [u8], Refused>
    requires ready { Ready 0 text.now out.old }
    ensures { Parsed 0 (items (pieces gap text.now)) item_row text.now out.old out.new result }
{
    if let Some(rest) = eat_word(text, words::VAR) {
        return word_item(rest, out);
    }
    if let Some(rest) = eat_word(text, words::ARRAY) {
        return array_item(rest, true, out);
    }
    if let Some(rest) = eat_word(text, words::BYTES) {
        return array_item(rest, false, out);
    }
    if let Some(rest) = eat_word(text, words::TABLE) {
        return table_item(rest, out);
    }
    if let Some(rest) = eat_word(text, words::USE) {
        return use_item(rest, out);
    }
    let Some(rest) = eat_word(text, words::FN) else {
        return Err(refuse(text, Reason::ExpectedItem));
    };
    function(rest, out)
}
