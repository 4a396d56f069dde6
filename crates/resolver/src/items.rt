// Items of one kind, in the order of the files: words, tables, functions.
ghost use Rattle.std.specs.Prelude.{◌≡◌, true, List, ◌==◌};
ghost use Rattle.language.specs.Syntax.{Name, Item, i_table, Prog};
ghost use Rattle.language.specs.Syntax as tree;
ghost use Rattle.language.specs.Checks.{ok_item, ok_is};
ghost use Rattle.rows.specs.Row.{Pushed};
ghost use Rattle.rows.specs.Has.{Has, named};
ghost use Rattle.rows.specs.Kinds.{item_kind_no};
ghost use Rattle.rows.specs.Trees.{list_row, item_no, item_row, file_row, prog_row};
ghost use Rattle.steps.specs.Fits.{Each};
ghost use Rattle.steps.specs.Generate.{fn_nos};
ghost use Rattle.generator.specs.ResolvedRows.{table_words};
ghost use Rattle.limits.specs.Entries.{Left};
ghost use Rattle.names.specs.File.{IsFile};
ghost use Rattle.resolver.specs.Sound.{Sound, Known, Lent};
ghost use Rattle.resolver.specs.Items.{item_words, file_words, sum_of, is_sort, sort_in};

use crate::function::push_function;
use crate::node::function_number;
use crate::words::word;
use limits::entries::{Entries, Names, files_of, items_of};
use names::file::File;
use names::function::Function;
use rows::kind::ItemKind;
use rows::read::{item_kind_at, name_at, past_name};
use rows::row::Row;

// The numbers of functions that are named in a file.
fn push_numbers(file: File, names: Entries<Names>, out: &mut Row)
    ensures lent { Lent out.old out.new }
    ensures pushed { (p : Prog) (f : Name) (xs : List Name) → Sound file.entry.row.now p → IsFile p f file.entry → Left named file.entry.row.now names.entry xs → Each (Known p f) xs → Pushed out.old out.new (fn_nos p f xs) }
{
    for name in names {
        out.push(word(function_number(file, name_at(file.row, name))));
    }
}

// The table that is an item of a file.
fn push_table(file: File, item: usize, out: &mut Row)
    ensures lent { Lent out.old out.new }
    ensures pushed { (p : Prog) (f x : Name) (xs : List Name) → Sound file.entry.row.now p → ok_item p f (i_table x xs) ≡ true → IsFile p f file.entry → Has file.entry.row.now item (item_row (i_table x xs)) → Pushed out.old out.new (table_words (fn_nos p f xs)) }
{
    let row = file.row;
    let names: Entries<Names> = Entries::counted(row, past_name(row, item.saturating_add(2)));
    out.push(word(names.len()));
    push_numbers(file, names, out);
}

// Whether an item is of a kind.
fn is_of(row: &[u32], item: usize, kind: ItemKind) -> bool
    ensures { (i : Item) → Has row.now item (item_row i) → result ≡ (item_no i == item_kind_no kind) }
{
    item_kind_at(row, item) == kind
}

// An item of a file, if it is of a kind.
fn push_item(kind: ItemKind, file: File, item: usize, out: &mut Row)
    ensures lent { Lent out.old out.new }
    ensures pushed { (p : Prog) (f : Name) (i : Item) → Sound file.entry.row.now p → ok_item p f i ≡ true → IsFile p f file.entry → Has file.entry.row.now item (item_row i) → Pushed out.old out.new (item_words p f (item_kind_no kind) i) }
{
    if is_of(file.row, item, kind) {
        match kind {
            ItemKind::Function => push_function(Function { file, item }, out),
            ItemKind::Table => push_table(file, item, out),
            ItemKind::Word | ItemKind::Array | ItemKind::Data | ItemKind::Use => {}
        }
    }
}

// The items of a kind of a file.
fn push_items(kind: ItemKind, file: File, out: &mut Row)
    ensures lent { Lent out.old out.new }
    ensures pushed { (p : Prog) (f : tree.File) → Sound file.entry.row.now p → ok_is p f.name f.items ≡ true → Has file.entry.row.now file.entry.name (file_row f) → Pushed out.old out.new (file_words p (item_kind_no kind) f) }
{
    for item in items_of(file.row, file.name) {
        push_item(kind, file, item, out);
    }
}

// The items of a kind of all files.
pub fn push_files(row: &[u32], kind: ItemKind, out: &mut Row)
    ensures lent { Lent out.old out.new }
    ensures pushed { (p : Prog) → Sound row.now p → Pushed out.old out.new (list_row (file_words p (item_kind_no kind)) p) }
{
    for file in files_of(row) {
        push_items(kind, File { row, name: file }, out);
    }
}

// 1 if an item is of a kind.
fn one_of(row: &[u32], item: usize, kind: ItemKind) -> usize
    ensures { (i : Item) → Has row.now item (item_row i) → result ≡ is_sort (item_kind_no kind) i }
{
    if is_of(row, item, kind) { 1 } else { 0 }
}

// How many items of a file are of a kind.
fn count_items(row: &[u32], kind: ItemKind, file: usize) -> usize
    ensures { (f : tree.File) → Has row.now file (file_row f) → result ≡ sort_in (item_kind_no kind) f }
{
    items_of(row, file).fold(
        0,
        |count: usize, item| count.saturating_add(one_of(row, item, kind)),
    )
}

// How many items of all files are of a kind.
pub fn count_files(row: &[u32], kind: ItemKind) -> usize
    ensures { (p : Prog) → row.now ≡ prog_row p → result ≡ sum_of (sort_in (item_kind_no kind)) p }
{
    files_of(row).fold(
        0,
        |count: usize, file| count.saturating_add(count_items(row, kind, file)),
    )
}
