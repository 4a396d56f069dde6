// What a function's row begins with: its names, and how many of each sort.
ghost use Rattle.std.specs.Prelude.{◌≡◌, ◌++◌, List};
ghost use Rattle.language.specs.Syntax.{Fn, i_fn};
ghost use Rattle.rows.specs.Has.{Has};
ghost use Rattle.rows.specs.Nodes.{nodes_row, nodes_b};
ghost use Rattle.rows.specs.Trees.{map_list, of_array, local_row, item_row};
ghost use Rattle.limits.specs.Entries.{Left};
ghost use Rattle.limits.specs.Head.{Heads};

use crate::entries::{Entries, Locals};
use rows::read::{at, past_name};

#[derive(Clone, Copy)]
pub struct Head<'a> {
    pub params: Entries<'a, Locals>,
    // parameters and variables
    pub words: Entries<'a, Locals>,
    // and own arrays
    pub locals: Entries<'a, Locals>,
    pub vars: usize,
    pub arrays: usize,
}

// The head of the function that an item is.
pub fn head_of(row: &[u32], item: usize) -> Head
    ensures { (g : Fn) → Has row.now item (item_row (i_fn g)) → Heads row.now g result }
{
    let place = past_name(row, item.saturating_add(2));
    let params = at(row, place);
    let vars = at(row, place.saturating_add(1));
    let arrays = at(row, place.saturating_add(2));
    let names = place.saturating_add(3);
    Head {
        params: Entries::new(row, names, params),
        words: Entries::new(row, names, params + vars),
        locals: Entries::new(row, names, params + vars + arrays),
        vars,
        arrays,
    }
}

// Its own arrays, behind parameters and variables.
pub fn own_arrays<'a>(row: &'a [u32], head: Head<'a>) -> Entries<'a, Locals>
    ensures { (g : Fn) → Heads row.now g head.entry → Left local_row row.now result (map_list of_array g.arrs) }
{
    Entries::new(row, head.words.end(), head.arrays)
}

// Where its body stands, behind all names.
pub fn body_of(row: &[u32], item: usize) -> usize
    ensures { (g : Fn) → Has row.now item (item_row (i_fn g)) → Has row.now result (nodes_row (nodes_b g.body)) }
{
    head_of(row, item).locals.end()
}
