// The pile of kinds in lent words.
ghost use Rattle.std.specs.Prelude.{◌≡◌, ◌≤◌, length, take};

// The kinds' numbers, the top last. No `Vec`: what checks names has no heap, and is lent the words.
#[derive(Drop)]
pub struct Pile<'a> {
    pub words: &'a mut [u32],
    pub len: usize,
    ghost room: { len ≤ length words.now },
}

impl Pile<'_> {
    // The kinds that it has.
    pub fn kinds(&self) -> &[u32]
        ensures { result.now ≡ take self.now.len self.now.words.now }
    {
        &self.words[..self.len]
    }
}
