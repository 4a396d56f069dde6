// Lent words of an image's code, written from their start on.
ghost use Rattle.std.specs.Prelude.{◌≤◌, length};

// `here` is the place of the next instruction; there are no more words than a jump reaches over.
#[derive(Drop)]
pub struct Code<'a> {
    pub words: &'a mut [u32],
    pub here: u32,
    ghost ok: { (here ≤ length words.now) × (length words.now ≤ 262144) },
}
