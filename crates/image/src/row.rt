// An image's row of words, taken apart and found sound, or refused.
ghost use Rattle.std.specs.Prelude.{◌≡◌, length, IsTrue, MatchOption};
ghost use Rattle.image.specs.Image.{within};
ghost use Rattle.image.specs.Rows.{NoSound, SoundRow};

// The word that a row begins with.
const MARK: u32 = 19525;

// The parts of a row: the body, how many noughts follow it, the number of the word to begin at, and the numbers of the words to move.
#[derive(Clone, Copy)]
pub(super) struct Parts<'a> {
    pub(super) body: &'a [u32],
    pub(super) noughts: usize,
    pub(super) entry: usize,
    pub(super) moved: &'a [u32],
    ghost moved_inside: { IsTrue (within (length body.now) moved.now) },
}

// Whether each number is below the limit.
fn all_below(numbers: &[u32], limit: usize) -> bool
    ensures { result ≡ within limit numbers.now }
{
    numbers.iter().all(|&number| (number as usize) < limit)
}

// The parts of a sound image's row.
pub(super) fn read_row(image: &[u32]) -> Option<Parts<'_>>
    ensures { MatchOption result (NoSound image.now) (λ p. SoundRow image.now p.body.now p.noughts p.entry p.moved.now) }
{
    let [MARK, bodies, noughts, entry, moves, words @ ..] = image else {
        return None;
    };
    let bodies = *bodies as usize;
    if words.len() != bodies + *moves as usize {
        return None;
    }
    let (body, moved) = words.split_at(bodies);
    let entry = *entry as usize;
    if entry >= bodies || !all_below(moved, bodies) {
        return None;
    }
    Some(Parts {
        body,
        noughts: *noughts as usize,
        entry,
        moved,
    })
}
