// The limits of what stands at the top of a file: sizes and values of arrays, how many names a function has, and that they differ.
ghost use Rattle.std.specs.Prelude.{◌≡◌, ℕ, Bool, ◌&&◌, List, ◌∷◌, length, nat_le, nat_lt};
ghost use Rattle.language.specs.Syntax.{Fn, Item, i_fn, pick};
ghost use Rattle.language.specs.Words.{all, bit};
ghost use Rattle.language.specs.Checks.{words_ok};
ghost use Rattle.rows.specs.Has.{Has};
ghost use Rattle.rows.specs.Nodes.{num_row};
ghost use Rattle.rows.specs.Trees.{Local, local_row, list_row, item_row};
ghost use Rattle.limits.specs.Entries.{Left};
ghost use Rattle.limits.specs.Within.{size_within, local_sizes, few, fn_within, item_within};

use super::entries::{Entries, LETTERS, Locals, Numbers};
use super::head::{head_of, own_arrays};
use super::numbers::{BASE, number_at};
use rows::kind::ItemKind;
use rows::read::{at, item_kind_at, past_name};

// The most elements of an array at the top, and of a function's own.
const MOST_AT_TOP: usize = 65536;

pub const MOST_OWN: usize = 4096;

// The most parameters, variables and arrays of a function.
pub const MOST_PARAMS: usize = 8;

pub const MOST_VARS: usize = 64;

pub const MOST_ARRAYS: usize = 16;

// How many bytes there are.
const BYTES: usize = 256;

// Whether a size is at least 1 and at most so much.
fn size_fits(most: usize, size: usize) -> bool
    ensures { result ≡ size_within most size }
{
    (1..=most).contains(&size)
}

// Whether a value is below its limit.
fn value_fits(row: &[u32], value: usize, limit: usize) -> bool
    ensures { (n : ℕ) → Has row.now value (num_row n) → result ≡ nat_lt n limit }
{
    number_at(row, value) < limit
}

// Whether values are below their limit.
fn values_fit(row: &[u32], mut values: Entries<Numbers>, limit: usize) -> bool
    ensures { (wide : Bool) (ns : List ℕ) → limit ≡ pick wide all 256 → Left num_row row.now values.entry ns → result ≡ words_ok wide ns }
{
    values.all(|value| value_fits(row, value, limit))
}

// Whether an array with values has one at least, and all are below their limit.
fn data_fits(row: &[u32], tail: usize) -> bool
    ensures { (wide : Bool) (ns : List ℕ) → Has row.now tail (bit wide ∷ length ns ∷ list_row num_row ns) → result ≡ (nat_le 1 (length ns) && words_ok wide ns) }
{
    let values = Entries::counted(row, tail.saturating_add(1));
    let limit = if at(row, tail) == 1 { BASE } else { BYTES };
    (1 <= values.len()) & values_fit(row, values, limit)
}

// Whether an own array of a function has a size that it may.
fn own_array_fits(row: &[u32], array: usize) -> bool
    ensures { (l : Local) → Has row.now array (local_row l) → result ≡ size_within 4096 l.size }
{
    size_fits(MOST_OWN, number_at(row, array.saturating_add(1)))
}

// Whether own arrays of a function have sizes that they may.
fn arrays_fit(row: &[u32], mut arrays: Entries<Locals>) -> bool
    ensures { (ls : List Local) → Left local_row row.now arrays.entry ls → result ≡ local_sizes ls }
{
    arrays.all(|array| own_array_fits(row, array))
}

// Whether a function has no more names of each sort than it may.
fn names_are_few(params: usize, vars: usize, arrays: usize) -> bool
    ensures { result ≡ few params vars arrays }
{
    params <= MOST_PARAMS && vars <= MOST_VARS && arrays <= MOST_ARRAYS
}

// Whether a function is within its limits, but for its body.
fn fn_fits(row: &[u32], item: usize) -> bool
    ensures { (g : Fn) → Has row.now item (item_row (i_fn g)) → result ≡ fn_within g }
{
    let head = head_of(row, item);
    names_are_few(head.params.len(), head.vars, head.arrays)
        && arrays_fit(row, own_arrays(row, head))
        && head.locals.differ(LETTERS)
}

// Whether what stands at the top is within its limits, but for what names stand for.
pub fn item_fits(row: &[u32], item: usize) -> bool
    ensures { (i : Item) → Has row.now item (item_row i) → result ≡ item_within i }
{
    let tail = past_name(row, item.saturating_add(2));
    match item_kind_at(row, item) {
        ItemKind::Array => size_fits(MOST_AT_TOP, number_at(row, tail.saturating_add(1))),
        ItemKind::Data => data_fits(row, tail),
        ItemKind::Function => fn_fits(row, item),
        ItemKind::Word | ItemKind::Table | ItemKind::Use => true,
    }
}
