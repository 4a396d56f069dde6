// The instructions of all functions, from their row of steps.
ghost use Rattle.std.specs.Prelude.{◌≡◌, ℕ, ◌*◌, ◌<◌, true, List};
ghost use Rattle.language.specs.Words.{all};
ghost use Rattle.rows.specs.Has.{Has};
ghost use Rattle.steps.specs.Steps.{Step as MStep, MFn, MProg};
ghost use Rattle.steps.specs.Fits.{Each, StepFits, FnFits};
ghost use Rattle.generator.specs.StepRows.{step_words};
ghost use Rattle.lower.specs.Lower.{lower, code_of, funs_row, entry_in};
ghost use Rattle.lower.specs.Core.{core_step};
ghost use Rattle.assembler.specs.Emission.{reals, Put};
ghost use Rattle.assembler.specs.Frames.{bare, routine, entry_at, step_place};
ghost use Rattle.assembler.specs.Tables.{all_starts, StepsAre, FunctionsAre, Framed, Tabled};

use crate::code::Code;
use crate::frame::Frame;
use crate::function::split_function;
use crate::program::{Program, Tables};
use middle::read::read_step;

impl Code<'_> {
    // The step that these words are.
    fn step_from(&mut self, words: &[u32; 5], f: Frame)
        ensures { (s : MStep) → core_step s ≡ true → words.now ≡ step_words s → 4 * f.entry.words < all → Put self.old self.new (reals self.old.here (lower (entry_at f.entry) (step_place f.entry) (bare f.entry.words) (routine f.entry.function) self.old.here s)) }
    {
        if let Some(step) = read_step(words) {
            self.step(step, f);
        }
    }

    // The steps of the function at hand.
    fn steps_of(&mut self, f: Frame)
        ensures { (m : MProg) (g : MFn) (begin : ℕ → ℕ) (ss : List MStep) → Framed f.entry m g begin → StepsAre f.entry.function.steps.now ss → Each (StepFits m g) ss → Put self.old self.new (reals self.old.here (code_of (entry_in m) begin m g ss self.old.here)) }
    {
        for words in f.function.steps {
            self.step_from(words, f);
        }
    }

    // The program's functions, by the tables of where functions and steps begin.
    pub fn functions(&mut self, program: Program, tables: Tables)
        ensures { (m : MProg) (fs : List MFn) → Tabled m program.entry.words tables.entry.entries.now → FunctionsAre program.entry.steps.now program.entry.count fs → Each (FnFits m) fs → Has tables.entry.places.now 0 (all_starts m fs self.old.here) → Put self.old self.new (reals self.old.here (funs_row (entry_in m) m fs self.old.here)) }
    {
        // functions have different lengths: there are no chunks to go over
        let mut rest = program.steps;
        let mut first = 0usize;
        for i in 0..program.count {
            let Some((function, behind)) = split_function(rest) else {
                return;
            };
            let frame = Frame {
                tables,
                words: program.words,
                function,
                first,
            };
            self.enter(function);
            self.steps_of(frame);
            first = first.saturating_add(function.steps.len());
            rest = behind;
        }
    }
}
