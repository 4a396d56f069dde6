// Steps read back.
ghost use Rattle.std.specs.Prelude.{◌≡◌, true};
ghost use Rattle.rows.specs.Has.{Has};
ghost use Rattle.steps.specs.Steps as steps;
ghost use Rattle.lower.specs.Core.{core_step};
ghost use Rattle.generator.specs.StepRows.{step_words};
ghost use Rattle.middle.specs.Steps.{ReadsBack};

use crate::step::Step;

// The step that five words are; none for words that are no step of stage 0.
pub fn read_step(words: &[u32; 5]) -> Option<Step>
    ensures { (s : steps.Step) → core_step s ≡ true → words.now ≡ step_words s → ReadsBack s result }
{
    Step::try_from(*words).ok()
}

// The step at a place of a row: the one whose words stand there.
pub fn step_at(words: &[u32], at: usize) -> Option<Step>
    ensures { (s : steps.Step) → core_step s ≡ true → Has words.now at (step_words s) → ReadsBack s result }
{
    read_step(words.get(at..)?.first_chunk::<5>()?)
}
