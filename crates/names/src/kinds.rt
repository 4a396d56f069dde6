// What names are in a function: kinds of names, and the parameters of what is called.
ghost use Rattle.std.specs.Prelude.{◌≡◌, List, ◌∷◌, length};
ghost use Rattle.std.proofs.Math.Option.{some};
ghost use Rattle.language.specs.Syntax.{Name, k_arr, Fn, Item, i_fn, Prog};
ghost use Rattle.language.specs.Meaning.{on_some};
ghost use Rattle.language.specs.Checks.{fn_named, head_fn};
ghost use Rattle.rows.specs.Has.{Has, named};
ghost use Rattle.rows.specs.Kinds.{local_kind};
ghost use Rattle.rows.specs.Trees.{list_row, item_row};
ghost use Rattle.steps.specs.Generate.{slots_of};
ghost use Rattle.names.specs.File.{IsFile};
ghost use Rattle.names.specs.Finds.{FindsOwn};
ghost use Rattle.names.specs.Kinds.{kind_found, kind_of_item, item_params, item_table, kind_top, FindsParams};

use crate::file::File;
use crate::found::Own;
use crate::own::find_own;
use limits::entries::{Entries, Locals, Names};
use limits::head::head_of;
use rows::kind::{ItemKind, LocalKind};
use rows::read::{at, item_kind_at, name_at, past_name};

// A name among those of the function that an item is, as the generator numbers them.
pub fn own_in(row: &[u32], item: usize, name: &[u32]) -> Option<Own>
    ensures { (g : Fn) → Has row.now item (item_row (i_fn g)) → FindsOwn (slots_of g) name.now result }
{
    find_own(row, head_of(row, item).locals, name)
}

// The kind of an array.
fn array_kind(wide: bool) -> LocalKind
    ensures { result ≡ local_kind (k_arr wide) }
{
    if wide {
        LocalKind::Words
    } else {
        LocalKind::Bytes
    }
}

// The kind of an item, if it is a word or an array.
pub fn item_kind(row: &[u32], item: usize) -> Option<LocalKind>
    ensures { (i : Item) → Has row.now item (item_row i) → result ≡ kind_found (kind_of_item i) }
{
    match item_kind_at(row, item) {
        ItemKind::Word => Some(LocalKind::Word),
        ItemKind::Array | ItemKind::Data => {
            let width = at(row, past_name(row, item.saturating_add(2)));
            Some(array_kind(width == 1))
        }
        ItemKind::Table | ItemKind::Function | ItemKind::Use => None,
    }
}

// The parameters of an item, if it is a function.
pub fn params_at(row: &[u32], item: usize) -> Option<Entries<Locals>>
    ensures { (i : Item) → Has row.now item (item_row i) → FindsParams row.now (item_params i) result }
{
    match item_kind_at(row, item) {
        ItemKind::Function => Some(head_of(row, item).params),
        _ => None,
    }
}

impl<'a> File<'a> {
    // The kind at the top of the file of what a name means.
    pub(super) fn top_kind(self, name: &[u32]) -> Option<LocalKind>
        ensures { (p : Prog) (f : Name) → IsFile p f self.entry → result ≡ kind_found (kind_top p f name.now) }
    {
        let spot = self.resolve(name)?;
        item_kind(self.row, spot.item)
    }

    // The parameters of a function that is named at the top of the file.
    pub fn params_named(self, name: &[u32]) -> Option<Entries<'a, Locals>>
        ensures { (p : Prog) (f : Name) → IsFile p f self.entry → FindsParams self.entry.row.now (on_some (fn_named p f name.now) (λ h. some h.params)) result }
    {
        let spot = self.resolve(name)?;
        params_at(self.row, spot.item)
    }

    // The parameters of the first of the functions that are named behind their number.
    pub fn params_first(self, place: usize) -> Option<Entries<'a, Locals>>
        ensures { (p : Prog) (f : Name) (fs : List Name) → IsFile p f self.entry → Has self.entry.row.now place (length fs ∷ list_row named fs) → FindsParams self.entry.row.now (head_fn p f fs) result }
    {
        let mut names: Entries<Names> = Entries::counted(self.row, place);
        let first = names.next()?;
        self.params_named(name_at(self.row, first))
    }

    // The parameters of the functions of an item, if it is a table.
    pub(super) fn table_at(self, item: usize) -> Option<Entries<'a, Locals>>
        ensures { (p : Prog) (f : Name) (i : Item) → IsFile p f self.entry → Has self.entry.row.now item (item_row i) → FindsParams self.entry.row.now (item_table p f i) result }
    {
        match item_kind_at(self.row, item) {
            ItemKind::Table => self.params_first(past_name(self.row, item.saturating_add(2))),
            _ => None,
        }
    }
}
