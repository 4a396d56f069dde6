// The targets of jumps that were written.
ghost use Rattle.stepper.specs.Swapped.{Swapped};

use middle::step::{JUMP, JUMP_ZERO};
use rows::row::Row;

// Another target for a jump, by its number among the steps that begin at word `first`; what the target was. For any other step 0, and nothing is done.
pub fn swap_target(out: &mut Row, first: usize, jump: u32, target: u32) -> u32
    ensures { Swapped out.old out.new first jump target result }
{
    // by its words, not as a `Step`: what is said of it holds of steps of every stage
    let at = first.saturating_add(jump as usize * 5 + 2);
    if out.len <= at {
        return 0;
    }
    let tag = out.words[at - 2];
    if tag != JUMP && tag != JUMP_ZERO {
        return 0;
    }
    let old = out.words[at];
    out.set(at, target);
    old
}
