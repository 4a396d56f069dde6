// What the items of a program's files refer to: functions of tables, names that are used, bodies of functions.
ghost use Rattle.std.specs.Prelude.{◌≡◌, ℕ, ◌≤◌, false, List, ◌∷◌, ◌++◌, length};
ghost use Rattle.std.proofs.Math.Option.{Option};
ghost use Rattle.language.specs.Syntax.{opt, Name, Param, Fn, Item, i_fn, Prog};
ghost use Rattle.language.specs.Syntax as tree;
ghost use Rattle.language.specs.Meaning.{all_tops};
ghost use Rattle.language.specs.Checks.{once, param_names, arr_names, head_fn, alike, all_there, no_more, has_main};
ghost use Rattle.rows.specs.Has.{Has, named};
ghost use Rattle.rows.specs.Trees.{Local, list_row, map_list, of_param, local_row, item_row, file_row, prog_row};
ghost use Rattle.limits.specs.Entries.{Left};
ghost use Rattle.names.specs.File.{IsFile};
ghost use Rattle.names.specs.Fold.{fit};
ghost use Rattle.names.specs.Effects.{local_kinds};
ghost use Rattle.names.specs.Kinds.{FindsParams};
ghost use Rattle.names.specs.Resolved.{like, there, item_resolved, items_resolved, files_resolved, resolved};

use crate::file::File;
use crate::find::MAIN;
use crate::function::Function;
use crate::kinds::params_at;
use limits::entries::{Entries, LETTERS, Locals, Names, files_of, items_of};
use limits::head::head_of;
use rows::kind::ItemKind;
use rows::read::{at, item_kind_at, name_at, past_name, same_at};

// Whether all names of a function differ.
pub fn names_differ(row: &[u32], item: usize) -> bool
    ensures { (g : Fn) → Has row.now item (item_row (i_fn g)) → result ≡ once (param_names g.params ++ (g.vars ++ arr_names g.arrs)) }
{
    head_of(row, item).locals.differ(LETTERS)
}

// Whether names are as many as others, and of the same kinds.
fn same_kinds(row: &[u32], names: Entries<Locals>, others: Entries<Locals>) -> bool
    ensures { (ls ms : List Local) → Left local_row row.now names.entry ls → Left local_row row.now others.entry ms → result ≡ fit (local_kinds ls) (local_kinds ms) }
{
    let mut rest = others;
    for name in names {
        let Some(other) = rest.next() else {
            return false;
        };
        if at(row, name) != at(row, other) {
            return false;
        }
    }
    rest.len() == 0
}

impl File<'_> {
    // Whether a name is that of a function with these kinds of parameters.
    pub fn is_alike(self, params: Entries<Locals>, name: &[u32]) -> bool
        ensures { (p : Prog) (f : Name) (qs : List Param) → IsFile p f self.entry → Left local_row self.entry.row.now params.entry (map_list of_param qs) → result ≡ like p f qs name.now }
    {
        match self.params_named(name) {
            Some(others) => same_kinds(self.row, params, others),
            None => false,
        }
    }

    // Whether all names that stand behind their number are those of functions with these kinds of parameters.
    fn are_alike(self, params: Entries<Locals>, place: usize) -> bool
        ensures { (p : Prog) (f : Name) (qs : List Param) (xs : List Name) → IsFile p f self.entry → Left local_row self.entry.row.now params.entry (map_list of_param qs) → Has self.entry.row.now place (length xs ∷ list_row named xs) → result ≡ alike p f qs xs }
    {
        let names: Entries<Names> = Entries::counted(self.row, place);
        for name in names {
            if !self.is_alike(params, name_at(self.row, name)) {
                return false;
            }
        }
        true
    }

    // Whether the functions of a table, which are named behind their number, have the same kinds of parameters.
    fn check_table(self, place: usize) -> bool
        ensures { (p : Prog) (f : Name) (xs : List Name) → IsFile p f self.entry → Has self.entry.row.now place (length xs ∷ list_row named xs) → result ≡ opt (head_fn p f xs) false (λ qs. alike p f qs xs) }
    {
        match self.params_first(place) {
            Some(params) => self.are_alike(params, place),
            None => false,
        }
    }

    // Whether a name stands at the top of the file itself.
    pub fn is_there(self, name: &[u32]) -> bool
        ensures { (p : Prog) (y : Name) → IsFile p y self.entry → result ≡ there (all_tops p 0 0) y name.now }
    {
        self.find_top(name).is_some()
    }

    // Whether all names that stand behind their number stand at the top of the file itself.
    fn are_there(self, place: usize) -> bool
        ensures { (p : Prog) (y : Name) (xs : List Name) → IsFile p y self.entry → Has self.entry.row.now place (length xs ∷ list_row named xs) → result ≡ all_there (all_tops p 0 0) y xs }
    {
        let names: Entries<Names> = Entries::counted(self.row, place);
        for name in names {
            if !self.is_there(name_at(self.row, name)) {
                return false;
            }
        }
        true
    }

    // Whether what an item of the file refers to is as the checks ask. The pile has room for as many words as the row.
    pub fn check_item(self, item: usize, pile: &mut [u32]) -> bool
        requires { length self.row.now ≤ length pile.old }
        ensures { (p : Prog) (f : Name) (i : Item) → IsFile p f self.entry → Has self.entry.row.now item (item_row i) → result ≡ item_resolved p f i }
    {
        let row = self.row;
        let name = item.saturating_add(2);
        let rest = past_name(row, name);
        match item_kind_at(row, item) {
            ItemKind::Word | ItemKind::Array | ItemKind::Data => true,
            ItemKind::Table => self.check_table(rest),
            ItemKind::Function => (Function { file: self, item }).check_body(pile),
            ItemKind::Use => {
                let other = File { row, name };
                !same_at(row, name, self.name) & other.are_there(rest)
            }
        }
    }

    // Whether what the items of the file refer to is as the checks ask.
    fn check_items(self, pile: &mut [u32]) -> bool
        requires { length self.row.now ≤ length pile.old }
        ensures { (p : Prog) (f : tree.File) → self.entry.row.now ≡ prog_row p → Has self.entry.row.now self.entry.name (file_row f) → result ≡ items_resolved p f.name f.items }
    {
        for item in items_of(self.row, self.name) {
            if !self.check_item(item, pile) {
                return false;
            }
        }
        true
    }
}

// Whether what the items of all files refer to is as the checks ask.
fn check_files(row: &[u32], pile: &mut [u32]) -> bool
    requires { length row.now ≤ length pile.old }
    ensures { (p : Prog) → row.now ≡ prog_row p → result ≡ files_resolved p p }
{
    for file in files_of(row) {
        if !(File { row, name: file }).check_items(pile) {
            return false;
        }
    }
    true
}

// Whether a function was found that has no parameters.
fn is_plain(found: Option<Entries<Locals>>) -> bool
    ensures { (row : List ℕ) (o : Option (List Param)) → FindsParams row o found.entry → result ≡ opt o false no_more }
{
    match found {
        Some(params) => params.len() == 0,
        None => false,
    }
}

// Whether main stands in the first file itself, and has no parameters.
pub fn check_main(row: &[u32]) -> bool
    ensures { (p : Prog) → row.now ≡ prog_row p → result ≡ has_main p }
{
    if at(row, 0) == 0 {
        return false;
    }
    match (File { row, name: 1 }).find_top(&MAIN) {
        Some(spot) => is_plain(params_at(row, spot.item)),
        None => false,
    }
}

// Whether the names of a program are as the checks ask: main, and what each item refers to. The pile has room for as many words as the row.
pub fn check_names(row: &[u32], pile: &mut [u32]) -> bool
    requires { length row.now ≤ length pile.old }
    ensures { (p : Prog) → row.now ≡ prog_row p → result ≡ resolved p }
{
    check_main(row) & check_files(row, pile)
}

#[cfg(test)]
mod tests {
    use super::*;

    // file a: var x; fn f(y) { return y; } fn main() { x = f(7); }
    const ROW: [u32; 46] = [
        1, 1, 97, 3, 0, 2, 1, 120, 4, 15, 1, 102, 1, 0, 0, 0, 0, 0, 1, 121, 1, 1, 121, 22, 25, 4,
        19, 4, 109, 97, 105, 110, 0, 0, 0, 0, 7, 0, 9, 1, 1, 102, 12, 1, 120, 25,
    ];

    // with another word in a place
    fn passes(place: usize, word: u32) -> bool {
        let mut row = ROW;
        if place < 46 {
            row[place] = word;
        }
        let mut pile = [0; 46];
        check_names(&row, &mut pile)
    }

    #[test]
    fn accepts(rt: HostRuntime) {
        assert!(rt; passes(0, 1));
        // any number below 2 ^ 32
        assert!(rt; passes(36, 4294967295));
    }

    #[test]
    fn refuses(rt: HostRuntime) {
        // a number of 2 ^ 32 and more
        assert!(rt; !passes(37, 1));
        // a call of what is no function, and a value for what is no word
        assert!(rt; !passes(41, 103));
        assert!(rt; !passes(44, 102));
        // an array is wanted, a word given
        assert!(rt; !passes(15, 2));
        // no main
        assert!(rt; !passes(28, 110));
    }
}
