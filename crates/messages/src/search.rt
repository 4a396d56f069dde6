// Where a problem is sought.
ghost use Rattle.std.specs.Prelude.{◌≤◌, length};

// A text, the row of its tree, and words with room for the checks of bodies.
#[derive(Drop)]
pub(super) struct Search<'a> {
    pub(super) text: &'a [u8],
    pub(super) row: &'a [u32],
    pub(super) pile: &'a mut [u32],
    ghost room: { length row.now ≤ length pile.now },
}
