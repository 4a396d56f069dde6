// A function's own names looked up: parameters, variables, own arrays, one list in the row.
ghost use Rattle.std.specs.Prelude.{List};
ghost use Rattle.rows.specs.Trees.{Local, local_row};
ghost use Rattle.limits.specs.Entries.{Left};
ghost use Rattle.names.specs.Finds.{FindsOwn, slots_in};

use crate::found::Own;
use limits::entries::{Entries, LETTERS, Locals, is_named};
use rows::kind::LocalKind;
use rows::read::local_kind_at;

// A name among a function's.
pub fn find_own(row: &[u32], locals: Entries<Locals>, name: &[u32]) -> Option<Own>
    ensures { (ls : List Local) → Left local_row row.now locals.entry ls → FindsOwn (slots_in ls) name.now result }
{
    let mut words: usize = 0;
    let mut arrays: usize = 0;
    for local in locals {
        let kind = local_kind_at(row, local);
        let here = is_named(row, local.saturating_add(LETTERS), name);
        match kind {
            LocalKind::Word => {
                if here {
                    return Some(Own { index: words, kind });
                }
                words = words.saturating_add(1);
            }
            _ => {
                if here {
                    return Some(Own {
                        index: arrays,
                        kind,
                    });
                }
                arrays = arrays.saturating_add(1);
            }
        }
    }
    None
}
