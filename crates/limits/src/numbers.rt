// Numbers as they stand in a row: by their two digits to the base 2 ^ 32.
ghost use Rattle.std.specs.Prelude.{◌≡◌, ℕ};
ghost use Rattle.rows.specs.Has.{Has};
ghost use Rattle.rows.specs.Nodes.{num_row};

use rows::read::at;

pub(super) const BASE: usize = 4294967296;

// The number that stands at a place.
pub(super) fn number_at(row: &[u32], i: usize) -> usize
    ensures { (n : ℕ) → Has row.now i (num_row n) → result ≡ n }
{
    let low = at(row, i);
    let high = at(row, i.saturating_add(1));
    high * BASE + low
}
