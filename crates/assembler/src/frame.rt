// What a step's instructions depend on, and what is found by it: places of steps, functions and words.
ghost use Rattle.std.specs.Prelude.{◌≡◌, ◌*◌, ◌<◌};
ghost use Rattle.language.specs.Words.{all};
ghost use Rattle.lower.specs.Lower.{word_no};
ghost use Rattle.assembler.specs.Frames.{bare, entry_at, step_place};

use crate::function::Function;
use crate::place::ImagePlace;
use crate::program::Tables;
use rows::read::word_at;

// The tables, how many words are at the top; the function at hand and the number of its first step. That 4 times `words` is a word is a premise of
// what is ensured, and no ghost field: it would have to be proved where frames are made, of rows that are no program's too.
#[derive(Clone, Copy)]
pub struct Frame<'a> {
    pub tables: Tables<'a>,
    pub words: u32,
    pub function: Function<'a>,
    pub first: usize,
}

impl Frame<'_> {
    // Where a step of the function at hand begins.
    pub fn step(self, t: u32) -> ImagePlace
        ensures { result.0 ≡ step_place self.entry t }
    {
        let step = self.first.saturating_add(t as usize);
        ImagePlace(word_at(self.tables.places, step))
    }

    pub fn function(self, g: u32) -> ImagePlace
        ensures { result.0 ≡ entry_at self.entry g }
    {
        ImagePlace(word_at(self.tables.entries, g as usize))
    }

    // How far a word at the top is from the stack's floor.
    pub fn far(self, i: u32) -> u32
        ensures { 4 * self.entry.words < all → result ≡ word_no (bare self.entry.words) i }
    {
        let below = self.words.saturating_sub(i);
        0u32.wrapping_sub(below.wrapping_mul(4))
    }
}
