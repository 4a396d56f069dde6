// Sizes: where each function and each step begins.
ghost use Rattle.std.specs.Prelude.{◌≡◌, ℕ, ◌<◌, true, List, ◌∷◌, length};
ghost use Rattle.language.specs.Words.{all};
ghost use Rattle.rows.specs.Row.{Pushed};
ghost use Rattle.steps.specs.Steps.{Step as MStep, MFn, MProg};
ghost use Rattle.generator.specs.StepRows.{step_words};
ghost use Rattle.lower.specs.Lower.{width as wide, at_of, entry_of};
ghost use Rattle.lower.specs.Core.{core_step};
ghost use Rattle.assembler.specs.Tables.{starts, begins, all_starts, StepsAre, FunctionsAre};

use crate::function::split_function;
use crate::program::Program;
use crate::sizes::width;
use middle::read::read_step;
use rows::row::Row;

// What a run begins with: the call of the main function, and the program's end.
pub const BEGINNING: u32 = 6;

// How many instructions the step that these words are has.
fn width_of(words: &[u32; 5]) -> u32
    ensures { (m : MProg) (f : MFn) (s : MStep) → core_step s ≡ true → words.now ≡ step_words s → result ≡ wide m f s }
{
    read_step(words).map_or(0, width)
}

// Where each step begins, the first one at `start`; and where the code goes on.
fn measure_steps(steps: &[[u32; 5]], start: u32, places: &mut Row) -> u32
    ensures { (m : MProg) (f : MFn) (ss : List MStep) → StepsAre steps.now ss → at_of m f ss start (length ss) < all → (result ≡ at_of m f ss start (length ss)) × Pushed places.old places.new (starts m f ss start) }
{
    let mut place = start;
    for words in steps {
        places.push(place);
        place = place.saturating_add(width_of(words));
    }
    place
}

// Where each function and each of its steps begins; and how much code there is in all.
pub fn measure_functions(program: Program, entries: &mut Row, places: &mut Row) -> Option<u32>
    ensures { (m : MProg) (fs : List MFn) → FunctionsAre program.entry.steps.now program.entry.count fs → entry_of m fs 6 (length fs) < all → (result ≡ Some (entry_of m fs 6 (length fs))) × Pushed entries.old entries.new (0 ∷ begins m fs 6) × Pushed places.old places.new (all_starts m fs 6) }
{
    // no code is function 0's
    entries.push(0);
    // functions have different lengths: there are no chunks to go over
    let mut rest = program.steps;
    let mut place = BEGINNING;
    for i in 0..program.count {
        let (function, behind) = split_function(rest)?;
        entries.push(place);
        let start = place.saturating_add(function.entering_width());
        place = measure_steps(function.steps, start, places);
        rest = behind;
    }
    Some(place)
}
