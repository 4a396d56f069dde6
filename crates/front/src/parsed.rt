// What the parser leaves for the checks.
ghost use Rattle.std.specs.Prelude.{◌≤◌, length};

// The row of a text's tree, before the checks, and the work words that are left.
#[derive(Drop)]
pub struct Parsed<'a> {
    pub row: &'a [u32],
    pub pile: &'a mut [u32],
    // the pile of a check has room for as many words as the row
    ghost room: { length row.now ≤ length pile.now },
}
