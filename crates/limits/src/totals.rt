// How many elements the arrays at the top have together.
ghost use Rattle.std.specs.Prelude.{◌≡◌, min, nat_le};
ghost use Rattle.language.specs.Syntax.{Item, File, Prog};
ghost use Rattle.language.specs.Checks.{total, totals};
ghost use Rattle.rows.specs.Has.{Has};
ghost use Rattle.rows.specs.Trees.{item_row, file_row, prog_row};
ghost use Rattle.limits.specs.Totals.{elements};

use super::entries::{files_of, items_of};
use super::numbers::number_at;
use rows::kind::ItemKind;
use rows::read::{at, item_kind_at, past_name};

// How many elements the arrays at the top of all files have at most.
pub const MOST_ELEMENTS: usize = 262144;

// How many elements an item adds.
pub fn elements_of_item(row: &[u32], item: usize) -> usize
    ensures { (i : Item) → Has row.now item (item_row i) → result ≡ elements i }
{
    let size = past_name(row, item.saturating_add(2)).saturating_add(1);
    match item_kind_at(row, item) {
        ItemKind::Array => number_at(row, size),
        ItemKind::Data => at(row, size),
        ItemKind::Word | ItemKind::Table | ItemKind::Function | ItemKind::Use => 0,
    }
}

// How many elements a file adds, up to the largest number.
fn elements_of_file(row: &[u32], file: usize) -> usize
    ensures { (f : File) → Has row.now file (file_row f) → result ≡ min (total f.items) 18446744073709551615 }
{
    items_of(row, file).fold(
        0,
        |sum: usize, item| sum.saturating_add(elements_of_item(row, item)),
    )
}

// Whether the arrays at the top have no more elements together than they may.
pub fn totals_fit(row: &[u32]) -> bool
    ensures { (p : Prog) → row.now ≡ prog_row p → result ≡ nat_le (totals p) 262144 }
{
    let sum = files_of(row).fold(
        0,
        |sum: usize, file| sum.saturating_add(elements_of_file(row, file)),
    );
    sum <= MOST_ELEMENTS
}
