// Lists of names, of numbers, of parameters and of arrays: each is read up to its end, and counted.
ghost use Rattle.std.specs.Prelude.{◌≡◌, ℕ, ◌+◌, ◌≤◌, true, length, MatchResult};
ghost use Rattle.language.specs.Syntax.{Name, k_arr, Param, Arr};
ghost use Rattle.grammar.specs.Text.{pieces, gap};
ghost use Rattle.grammar.specs.Parse.{fail, got};
ghost use Rattle.grammar.specs.ParseAll.{size, names_in, nums_in, arr, arrs_step, again, par_kind, pars_step, pars_of, vars_in};
ghost use Rattle.rows.specs.Kinds.{local_kind_no};
ghost use Rattle.rows.specs.Nodes.{num_row};
ghost use Rattle.rows.specs.Trees.{kind_no};
ghost use Rattle.pieces.specs.Seen.{Signy};
ghost use Rattle.bodies.specs.Outcome.{Ready, Parsed};
ghost use Rattle.parser.specs.Lists.{Sized, quoted_in, values_in, Listed, name_row, array_row, param_row, kind_of, KindIs};

use super::element::{Element, Part, list_of};
use super::put::{put_listed, put_local, put_text};
use bodies::put_num;
use pieces::eating::{eat, eat_word, expect, expect_name, expect_num, expect_text};
use pieces::refused::{Reason, Refused, refuse};
use pieces::words;
use rows::kind::LocalKind;
use rows::row::Row;

// Names, up to a semicolon: a function's variables, or names alone.
#[derive(Clone, Copy)]
pub struct Names {
    pub local: bool,
}

impl<'a> Element<'a> for Names {
    type Value = &'a [u8];

    ghost Tree = { Name };

    ghost tree = { λ s v. v.now };

    ghost words = { λ s. name_row s.local };

    ghost can_put = { λ s v. length v.now ≤ 32 };

    ghost list = { λ s. names_in };

    ghost last = { 59 };

    fn read(self, text: &'a [u8]) -> Result<(&'a [u8], &'a [u8]), Refused> {
        expect_name(text)
    }

    fn put(self, value: &'a [u8], out: &mut Row) {
        put_listed(out, self.local, value);
    }

    fn end(self) -> u8
        ensures is { result ≡ 59 }
        ensures signy { Signy result }
    {
        b';'
    }
}

// Numbers, up to a semicolon.
#[derive(Clone, Copy)]
struct Numbers;

impl<'a> Element<'a> for Numbers {
    type Value = u64;

    ghost Tree = { ℕ };

    ghost tree = { λ s v. v };

    ghost words = { λ s. num_row };

    ghost can_put = { λ s v. Unit {0} };

    ghost list = { λ s. nums_in };

    ghost last = { 59 };

    fn read(self, text: &'a [u8]) -> Result<(u64, &'a [u8]), Refused> {
        expect_num(text)
    }

    fn put(self, value: u64, out: &mut Row) {
        put_num(out, value);
    }

    fn end(self) -> u8
        ensures is { result ≡ 59 }
        ensures signy { Signy result }
    {
        b';'
    }
}

// A text in quotes up to a semicolon and with it, as numbers.
fn text_to<'a>(text: &'a [u8], out: &mut Row) -> Result<(u32, &'a [u8]), Refused>
    requires ready { Ready 0 text.now out.old }
    ensures { Listed 0 (quoted_in (pieces gap text.now)) num_row text.now out.old out.new result }
{
    let (w, rest) = expect_text(text)?;
    let rest = expect(rest, b';')?;
    put_text(out, w);
    Ok((w.len() as u32, rest))
}

// The values of an array: numbers for words, a text for bytes.
pub fn values_to<'a>(text: &'a [u8], wide: bool, out: &mut Row) -> Result<(u32, &'a [u8]), Refused>
    requires ready { Ready 0 text.now out.old }
    ensures { Listed 0 (values_in wide (pieces gap text.now)) num_row text.now out.old out.new result }
{
    if wide {
        list_of(text, Numbers, out)
    } else {
        text_to(text, out)
    }
}

// What stands behind a parameter's name: nothing, or brackets.
fn param_kind<'a>(text: &'a [u8]) -> Result<(LocalKind, &'a [u8]), Refused>
    ensures { MatchResult result (λ p. KindIs (par_kind (pieces gap text.now)) p.0 text.now p.1.now) (λ _. par_kind (pieces gap text.now) ≡ fail) }
{
    let Some(rest) = eat(text, b'[') else {
        return Ok((LocalKind::Word, text));
    };
    if let Some(rest) = eat(rest, b']') {
        return Ok((LocalKind::Words, rest));
    }
    let Some(rest) = eat(rest, b':') else {
        return Err(refuse(rest, Reason::Expected(b']')));
    };
    let rest = expect(rest, b']')?;
    Ok((LocalKind::Bytes, rest))
}

// Parameters, up to a bracket.
#[derive(Clone, Copy)]
struct Params;

impl<'a> Element<'a> for Params {
    type Value = (LocalKind, &'a [u8]);

    ghost Tree = { Param };

    ghost tree = { λ s v. record { name = v.1.now; kind = kind_of v.0 } };

    ghost words = { λ s. param_row };

    ghost can_put = { λ s v. length v.1.now ≤ 32 };

    ghost list = { λ s. again pars_step };

    ghost last = { 41 };

    fn read(self, text: &'a [u8]) -> Result<((LocalKind, &'a [u8]), &'a [u8]), Refused> {
        let (x, rest) = expect_name(text)?;
        let (kind, rest) = param_kind(rest)?;
        Ok(((kind, x), rest))
    }

    fn put(self, value: (LocalKind, &'a [u8]), out: &mut Row) {
        let (kind, x) = value;
        put_local(out, kind, 0, x);
    }

    fn end(self) -> u8
        ensures is { result ≡ 41 }
        ensures signy { Signy result }
    {
        b')'
    }
}

// Parameters, up to the bracket and with it.
pub fn params_of<'a>(text: &'a [u8], out: &mut Row) -> Result<(u32, &'a [u8]), Refused>
    requires ready { Ready 0 text.now out.old }
    ensures { Listed 0 (pars_of (pieces gap text.now)) param_row text.now out.old out.new result }
{
    if let Some(rest) = eat(text, b')') {
        return Ok((0, rest));
    }
    list_of(text, Params, out)
}

// The variables of a function.
pub fn vars_of<'a>(text: &'a [u8], out: &mut Row) -> Result<(u32, &'a [u8]), Refused>
    requires ready { Ready 0 text.now out.old }
    ensures { Listed 1 (vars_in (pieces gap text.now)) (name_row true) text.now out.old out.new result }
{
    let Some(rest) = eat_word(text, words::VAR) else {
        return Ok((0, text));
    };
    list_of(rest, Names { local: true }, out)
}

fn array_kind(wide: bool) -> LocalKind
    ensures { local_kind_no result ≡ kind_no (k_arr wide) }
{
    if wide {
        LocalKind::Words
    } else {
        LocalKind::Bytes
    }
}

// A size in brackets with its semicolon.
pub fn size_of<'a>(text: &'a [u8]) -> Result<(u64, &'a [u8]), Refused>
    ensures { MatchResult result (λ p. Sized p.0 text.now p.1.now) (λ _. size (pieces gap text.now) (λ n r. got n r) ≡ fail) }
{
    let rest = expect(text, b'[')?;
    let (n, rest) = expect_num(rest)?;
    let rest = expect(rest, b']')?;
    let rest = expect(rest, b';')?;
    Ok((n, rest))
}

// An array of a function, behind its first word: of words, or of bytes.
fn array<'a>(text: &'a [u8], wide: bool, out: &mut Row) -> Result<&'a [u8], Refused>
    requires ready { Ready 0 text.now out.old }
    ensures { Parsed 0 (arr wide (pieces gap text.now)) array_row text.now out.old out.new result }
{
    let (x, rest) = expect_name(text)?;
    let (n, rest) = size_of(rest)?;
    put_local(out, array_kind(wide), n, x);
    Ok(rest)
}

// The arrays of a function.
#[derive(Clone, Copy)]
pub struct Arrays;

impl<'a> Part<'a> for Arrays {
    ghost Tree = { Arr };

    ghost words = { array_row };

    ghost list = { again arrs_step };

    fn read(self, text: &'a [u8], out: &mut Row) -> Result<Option<&'a [u8]>, Refused> {
        if let Some(rest) = eat_word(text, words::ARRAY) {
            return Ok(Some(array(rest, true, out)?));
        }
        let Some(rest) = eat_word(text, words::BYTES) else {
            return Ok(None);
        };
        Ok(Some(array(rest, false, out)?))
    }
}
