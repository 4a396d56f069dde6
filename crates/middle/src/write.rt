// Writing steps.
ghost use Rattle.rows.specs.Row.{Pushed};
ghost use Rattle.generator.specs.StepRows.{step_words};
ghost use Rattle.middle.specs.Steps.{seen};

use crate::step::Step;
use rows::row::Row;

// A step, if there is room for it.
pub fn push_step(out: &mut Row, step: Step)
    ensures { Pushed out.old out.new (step_words (seen step)) }
{
    out.push_all(&<[u32; 5]>::from(step));
}
