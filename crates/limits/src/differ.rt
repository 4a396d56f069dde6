// That names differ: those at the top of a file with those that it uses, and those of the files.
ghost use Rattle.std.specs.Prelude.{◌≡◌, List, ◌++◌};
ghost use Rattle.language.specs.Syntax.{Name, Item, File, Prog, listed};
ghost use Rattle.language.specs.Checks.{once, names_in, file_names};
ghost use Rattle.rows.specs.Has.{Has, named};
ghost use Rattle.rows.specs.Trees.{item_row, file_row, prog_row};
ghost use Rattle.limits.specs.Entries.{Left};
ghost use Rattle.limits.specs.Apart.{item_names, apart};

use super::entries::{Entries, Items, Names, files_of, is_named, items_of, own_name, used};
use rows::kind::ItemKind;
use rows::read::{item_kind_at, name_at};

// Whether an item gives its file a name.
fn gives(row: &[u32], item: usize, name: &[u32]) -> bool
    ensures { (i : Item) → Has row.now item (item_row i) → result ≡ listed name.now (item_names i) }
{
    match item_kind_at(row, item) {
        ItemKind::Use => used(row, item).have(0, name),
        _ => is_named(row, item.saturating_add(2), name),
    }
}

// Whether one of some items gives its file a name.
fn give(row: &[u32], mut items: Entries<Items>, name: &[u32]) -> bool
    ensures { (is : List Item) → Left item_row row.now items.entry is → result ≡ listed name.now (names_in is) }
{
    items.any(|item| gives(row, item, name))
}

// Whether names differ from one another and from those of the items that follow.
fn names_apart(row: &[u32], mut names: Entries<Names>, items: Entries<Items>) -> bool
    ensures { (xs : List Name) (is : List Item) → Left named row.now names.entry xs → Left item_row row.now items.entry is → result ≡ apart xs (names_in is) }
{
    while let Some(here) = names.next() {
        let name = name_at(row, here);
        if names.have(0, name) | give(row, items, name) {
            return false;
        }
    }
    true
}

// Whether the names of an item differ from one another and from those of the items that follow.
fn item_apart(row: &[u32], item: usize, items: Entries<Items>) -> bool
    ensures { (i : Item) (is : List Item) → Has row.now item (item_row i) → Left item_row row.now items.entry is → result ≡ apart (item_names i) (names_in is) }
{
    match item_kind_at(row, item) {
        ItemKind::Use => names_apart(row, used(row, item), items),
        _ => !give(row, items, own_name(row, item)),
    }
}

// Whether the names at the top of a file, with those that it uses, differ.
pub fn names_once(row: &[u32], file: usize) -> bool
    ensures { (f : File) → Has row.now file (file_row f) → result ≡ once (names_in f.items) }
{
    let mut items = items_of(row, file);
    while let Some(item) = items.next() {
        if !item_apart(row, item, items) {
            return false;
        }
    }
    true
}

// Whether the names of the files differ.
pub fn files_once(row: &[u32]) -> bool
    ensures { (p : Prog) → row.now ≡ prog_row p → result ≡ once (file_names p) }
{
    files_of(row).differ(0)
}
