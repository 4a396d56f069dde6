// All that can be told of a program without looking names up.
ghost use Rattle.std.specs.Prelude.{◌≡◌};
ghost use Rattle.language.specs.Syntax.{File, Prog};
ghost use Rattle.rows.specs.Has.{Has};
ghost use Rattle.rows.specs.Trees.{file_row, prog_row};
ghost use Rattle.limits.specs.Split.{items_within, files_within, within, Splits};

use super::differ::{files_once, names_once};
use super::entries::{files_of, items_of};
use super::items::item_fits;
use super::totals::totals_fit;

// Whether all that stands at the top of a file is within its limits.
fn items_fit(row: &[u32], file: usize) -> bool
    ensures { (f : File) → Has row.now file (file_row f) → result ≡ items_within f.items }
{
    items_of(row, file).all(|item| item_fits(row, item))
}

// Whether in each file the names differ and all that stands there is within its limits.
fn files_fit(row: &[u32]) -> bool
    ensures { (p : Prog) → row.now ≡ prog_row p → result ≡ files_within p }
{
    files_of(row).all(|file| items_fit(row, file) & names_once(row, file))
}

// Whether a program is all that it must be, but for what names stand for.
pub fn fits(row: &[u32]) -> bool
    ensures { (p : Prog) → row.now ≡ prog_row p → result ≡ within p }
{
    files_once(row) && totals_fit(row) && files_fit(row)
}

// Files are a program exactly if they are within the limits and names stand for what is wanted of them.
pub fn checks_split() -> bool
    ensures { Splits }
{
    true
}
