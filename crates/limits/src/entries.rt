// Entries of a row that stand one after another, passed one by one: names, a function's names, numbers, items, files.
ghost use Rattle.std.specs.Prelude.{◌≡◌, ℕ, ◌+◌, min, List, ◌∷◌, length};
ghost use Rattle.std.specs.Iterator.{at_most};
ghost use Rattle.language.specs.Syntax.{Name, Item, File, Prog, i_use, same, listed};
ghost use Rattle.language.specs.Checks.{once};
ghost use Rattle.rows.specs.Has.{Has, named};
ghost use Rattle.rows.specs.Nodes.{num_row};
ghost use Rattle.limits.specs.Entries.{Left};
ghost use Rattle.rows.specs.Trees.{Local, map_list, local_row, list_row, name_of, item_row, file_row, prog_row};

use rows::read::{at, name_at, past_item, past_name};
use std::marker::PhantomData;

// What stands in a row as an entry, and can be passed.
pub trait Entry: Copy {
    ghost Tree: { Type 0 };

    ghost row_of: { Tree → List ℕ };

    // The place behind the entry at a place.
    fn past(row: &[u32], place: usize) -> usize
        ensures { (t : Tree) → Has row.now place (row_of t) → result ≡ place + length (row_of t) };
}

#[derive(Clone, Copy)]
pub struct Names;

impl Entry for Names {
    ghost Tree = { Name };

    ghost row_of = { named };

    fn past(row: &[u32], place: usize) -> usize {
        past_name(row, place)
    }
}

// How far behind the start of one of a function's names its letters stand: behind its kind and its size.
pub const LETTERS: usize = 3;

#[derive(Clone, Copy)]
pub struct Locals;

impl Entry for Locals {
    ghost Tree = { Local };

    ghost row_of = { local_row };

    fn past(row: &[u32], place: usize) -> usize {
        past_name(row, place.saturating_add(LETTERS))
    }
}

#[derive(Clone, Copy)]
pub struct Numbers;

impl Entry for Numbers {
    ghost Tree = { ℕ };

    ghost row_of = { num_row };

    fn past(_row: &[u32], place: usize) -> usize {
        place.saturating_add(2)
    }
}

#[derive(Clone, Copy)]
pub struct Items;

impl Entry for Items {
    ghost Tree = { Item };

    ghost row_of = { item_row };

    fn past(row: &[u32], place: usize) -> usize {
        past_item(row, place)
    }
}

#[derive(Clone, Copy)]
pub struct Files;

impl Entry for Files {
    ghost Tree = { File };

    ghost row_of = { file_row };

    fn past(row: &[u32], place: usize) -> usize {
        past_file(row, place)
    }
}

// The places of entries: the next one's, and how many are left.
#[derive(Clone, Copy)]
pub struct Entries<'a, E> {
    row: &'a [u32],
    here: usize,
    left: usize,
    of: PhantomData<E>,
}

impl<'a, E: Entry> Entries<'a, E> {
    ghost use Rattle.limits.specs.Entries.{NamesAt};

    // So many, from a place on.
    pub fn new(row: &'a [u32], place: usize, n: usize) -> Entries<'a, E>
        ensures left { (ts : List E.Tree) → Has row.now place (list_row E.row_of ts) → length ts ≡ n → Left E.row_of row.now result ts }
        ensures starts { result.here ≡ place }
    {
        Entries {
            row,
            here: place,
            left: n,
            of: PhantomData,
        }
    }

    // Those that stand behind their number.
    pub fn counted(row: &'a [u32], place: usize) -> Entries<'a, E>
        ensures left { (ts : List E.Tree) → Has row.now place (length ts ∷ list_row E.row_of ts) → Left E.row_of row.now result ts }
        ensures starts { result.here ≡ min (place + 1) 18446744073709551615 }
    {
        Entries::new(row, place.saturating_add(1), at(row, place))
    }

    // The place behind them all.
    pub fn end(self) -> usize
        ensures { (w : List ℕ) (ts : List E.Tree) → Left E.row_of w self.entry ts → result ≡ self.entry.here + length (list_row E.row_of ts) }
    {
        let mut here = self.here;
        for _ in 0..self.left {
            here = E::past(self.row, here);
        }
        here
    }

    // Where the next one stands, or behind the last.
    pub fn place(self) -> usize
        ensures { result ≡ self.entry.here }
    {
        self.here
    }

    // How many are left.
    pub fn len(self) -> usize
        ensures { result ≡ self.entry.left }
    {
        self.left
    }

    // Whether a name is among theirs, which stand so far behind their starts.
    pub fn have(mut self, offset: usize, name: &[u32]) -> bool
        ensures { (w : List ℕ) (ts : List E.Tree) (name_of : E.Tree → Name) → Left E.row_of w self.entry ts → NamesAt E.row_of name_of w offset → result ≡ listed name.now (map_list name_of ts) }
    {
        let row = self.row;
        self.any(|here| is_named(row, here.saturating_add(offset), name))
    }

    // Whether their names, which stand so far behind their starts, differ.
    pub fn differ(mut self, offset: usize) -> bool
        ensures { (w : List ℕ) (ts : List E.Tree) (name_of : E.Tree → Name) → Left E.row_of w self.entry ts → NamesAt E.row_of name_of w offset → result ≡ once (map_list name_of ts) }
    {
        while let Some(here) = self.next() {
            if self.have(offset, name_at(self.row, here.saturating_add(offset))) {
                return false;
            }
        }
        true
    }
}

impl<'a, E: Entry> Iterator for Entries<'a, E> {
    ghost use Rattle.limits.specs.Entries.{Passes};

    type Item = usize;

    ghost next_gives = { Passes E.row_of };

    ghost remaining = { λ s. at_most s.left };

    fn next(&mut self) -> Option<usize> {
        if self.left == 0 {
            return None;
        }
        let here = self.here;
        self.left -= 1;
        self.here = E::past(self.row, here);
        Some(here)
    }
}

// Whether a name stands at a place.
pub fn is_named(row: &[u32], place: usize, name: &[u32]) -> bool
    ensures { (x : Name) → Has row.now place (named x) → result ≡ same x name.now }
{
    // letter by letter: look-ups pass many names, and `==` of slices is a call for each of the same length and first letter
    if at(row, place) != name.len() {
        return false;
    }
    let letters = name_at(row, place);
    for (letter, sought) in letters.iter().zip(name) {
        if *letter != *sought {
            return false;
        }
    }
    // where the row ends too soon, there are none
    letters.len() == name.len()
}

// The items of a file.
pub fn items_of(row: &[u32], file: usize) -> Entries<Items>
    ensures left { (f : File) → Has row.now file (file_row f) → Left item_row row.now result f.items }
    ensures ends { (f : File) → Has row.now file (file_row f) → result.here + length (list_row item_row f.items) ≡ file + length (file_row f) }
{
    Entries::counted(row, past_name(row, file))
}

// The place behind a file.
pub fn past_file(row: &[u32], file: usize) -> usize
    ensures { (f : File) → Has row.now file (file_row f) → result ≡ file + length (file_row f) }
{
    items_of(row, file).end()
}

// The files of a program.
pub fn files_of(row: &[u32]) -> Entries<Files>
    ensures { (p : Prog) → row.now ≡ prog_row p → Left file_row row.now result p }
{
    Entries::counted(row, 0)
}

// An item's own name.
pub fn own_name(row: &[u32], item: usize) -> &[u32]
    ensures { (i : Item) → Has row.now item (item_row i) → result.now ≡ name_of i }
{
    name_at(row, item.saturating_add(2))
}

// The names that a use takes of another file.
pub fn used(row: &[u32], item: usize) -> Entries<Names>
    ensures { (y : Name) (xs : List Name) → Has row.now item (item_row (i_use y xs)) → Left named row.now result xs }
{
    Entries::counted(row, past_name(row, item.saturating_add(2)))
}
