// Names at the top of the files looked up in a program's row.
ghost use Rattle.std.specs.Prelude.{◌≡◌, not, ◌&&◌, List, ◌==◌};
ghost use Rattle.language.specs.Syntax.{Name, same, Item, Prog};
ghost use Rattle.language.specs.Meaning.{all_tops, used_in, items_of};
ghost use Rattle.rows.specs.Has.{Has, named};
ghost use Rattle.rows.specs.Kinds.{kind_of_item};
ghost use Rattle.rows.specs.Trees.{item_no, name_of, item_row, prog_row};
ghost use Rattle.limits.specs.Entries.{Left};
ghost use Rattle.names.specs.File.{IsFile};
ghost use Rattle.names.specs.Finds.{FindsTop, FindsItems, FindsUse, Resolves, uses};

use crate::file::File;
use crate::found::{Passed, Spot};
use limits::entries::{Entries, Items, files_of, is_named, items_of, used};
use rows::kind::ItemKind;
use rows::read::{item_kind_at, name_at, past_item, same_at};

// The name main.
pub const MAIN: [u32; 4] = [109, 97, 105, 110];

// Whether an item of a kind declares a name.
fn declares(row: &[u32], item: usize, kind: ItemKind, name: &[u32]) -> bool
    ensures { (i : Item) → Has row.now item (item_row i) → kind ≡ kind_of_item i → result ≡ (not (item_no i == 5) && same (name_of i) name.now) }
{
    is_named(row, item.saturating_add(2), name) && !matches!(kind, ItemKind::Use)
}

// Whether an item uses a name from another file.
fn is_used(row: &[u32], item: usize, name: &[u32]) -> bool
    ensures { (i : Item) → Has row.now item (item_row i) → result ≡ uses i name.now }
{
    match item_kind_at(row, item) {
        ItemKind::Use => used(row, item).have(0, name),
        _ => false,
    }
}

// The items of the first file of a name.
fn find_items(row: &[u32], file: usize) -> Option<Entries<Items>>
    ensures { (p : Prog) (f : Name) → row.now ≡ prog_row p → Has row.now file (named f) → FindsItems row.now (items_of p f) result }
{
    let files = files_of(row);
    let mut other = files.place();
    for _ in 0..files.len() {
        let items = items_of(row, other);
        if same_at(row, other, file) {
            return Some(items);
        }
        other = items.end();
    }
    None
}

// The file that some items use a name from: the place of its name.
pub fn find_use(row: &[u32], mut items: Entries<Items>, name: &[u32]) -> Option<usize>
    ensures { (is : List Item) → Left item_row row.now items.entry is → FindsUse row.now (used_in is name.now) result }
{
    let item = items.find(|item| is_used(row, *item, name))?;
    Some(item.saturating_add(2))
}

impl File<'_> {
    // A name at the top of the file.
    pub fn find_top(self, name: &[u32]) -> Option<Spot>
        ensures { (p : Prog) (f : Name) → IsFile p f self.entry → FindsTop self.entry.row.now (all_tops p 0 0) f name.now result }
    {
        let row = self.row;
        let sought = name_at(row, self.name);
        let mut passed = Passed::none();
        let files = files_of(row);
        // not `for file in files`, which passes a file before it is looked at
        let mut file = files.place();
        for _ in 0..files.len() {
            let here = is_named(row, file, sought);
            let items = items_of(row, file);
            let mut item = items.place();
            for _ in 0..items.len() {
                let kind = item_kind_at(row, item);
                if here && declares(row, item, kind, name) {
                    return Some(passed.spot(file, item));
                }
                passed.pass(kind);
                item = past_item(row, item);
            }
            file = item;
        }
        None
    }

    // The file that a name is used from: the place of its name.
    fn find_home(self, name: &[u32]) -> Option<usize>
        ensures { (p : Prog) (f : Name) → IsFile p f self.entry → FindsUse self.entry.row.now (used_in (items_of p f) name.now) result }
    {
        let items = find_items(self.row, self.name)?;
        find_use(self.row, items, name)
    }

    // A name at the top of the file, its own or one that it uses from another.
    pub fn resolve(self, name: &[u32]) -> Option<Spot>
        ensures { (p : Prog) (f : Name) → IsFile p f self.entry → Resolves self.entry.row.now p f name.now result }
    {
        if let Some(spot) = self.find_top(name) {
            return Some(spot);
        }
        let place = self.find_home(name)?;
        let home = File {
            name: place,
            ..self
        };
        home.find_top(name)
    }
}
