// What registers and memory hold before an image is loaded.
ghost use Rattle.std.specs.Prelude.{◌≡◌, ℕ, ◌+◌, ◌-◌, ◌*◌, ◌/◌, ◌%◌, ◌^◌, ◌<◌, ◌≤◌, length};
ghost use Rattle.board.specs.declared.filling.Pattern.TheVariants.{Random};
ghost use Rattle.board.specs.Filling.{next as following, later, stream, filled, left_of};

// All bits set, or words from a seed.
#[derive(Clone, Copy, Debug, PartialEq, Eq)]
pub enum Pattern {
    Ones,
    Random(u64),
}

impl From<u32> for Pattern {
    ghost from_gives = { λ seed p. p ≡ Random seed };

    fn from(seed: u32) -> Self {
        Pattern::Random(u64::from(seed))
    }
}

impl Pattern {
    // Fills all words, and says what to fill further ones from.
    pub fn fill(self, words: &mut [u32]) -> Self
        ensures words { words.new ≡ filled self (length words.old) }
        ensures left { result ≡ left_of self (length words.old) }
    {
        match self {
            Pattern::Ones => {
                words.fill(u32::MAX);
                self
            }
            Pattern::Random(seed) => Pattern::Random(fill_random(words, seed)),
        }
    }
}

// A linear congruence modulo 2^64.
fn next_state(state: u64) -> u64
    ensures { result ≡ following state }
{
    state
        .wrapping_mul(6364136223846793005)
        .wrapping_add(1442695040888963407)
}

// Words from a seed, and the seed of those behind them.
fn fill_random(words: &mut [u32], seed: u64) -> u64
    ensures { (words.new ≡ stream (length words.old) seed) × (result ≡ later (length words.old) seed) }
{
    let mut state = seed;
    for word in words.iter_mut() {
        state = next_state(state);
        *word = (state >> 32) as u32;
    }
    state
}
