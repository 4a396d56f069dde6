// Steps of a resolved program's functions: one loop from left to right over a function's nodes that writes its steps into lent words.
#![tactic(auto)]

ghost use Rattle.std.specs.Prelude.{length};
ghost use Rattle.rows.specs.Row.{Pushed};
ghost use Rattle.generator.specs.ResolvedRows.{ResolvedProg};
ghost use Rattle.stepper.specs.Swapped.{Lent};
ghost use Rattle.stepper.specs.Bodies.{Suits, steps_row};

use crate::routine::write_routine;
use rows::row::Row;

mod body;
mod jumps;
mod node;
mod routine;
mod swap;
mod tests;
mod turn;
mod values;
mod writer;

// Writes all functions of a resolved program of stage 0, one behind the other. The pile holds what waits while a function is gone through.
pub fn write_steps(resolved: &[u32], pile: &mut [u32], out: &mut Row)
    ensures steps { (r : ResolvedProg) → Suits resolved.now r (length pile.old) → Pushed out.old out.new (steps_row r) }
    ensures lent { Lent out.old out.new }
{
    let Some((&[_, _, count], mut rest)) = resolved.split_first_chunk::<3>() else {
        return;
    };
    // functions have different lengths: there are no chunks to go over
    for i in 0..count {
        rest = write_routine(rest, pile, out);
    }
}
