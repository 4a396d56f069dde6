// A function: how many words are passed to it, its variables, its places, its steps.
ghost use Rattle.std.specs.Prelude.{length};
ghost use Rattle.stepper.specs.Bodies.{Filled, RoutineDone};

use crate::body::write_body;
use rows::row::Row;

// A word where one was written; elsewhere nothing.
fn fill(out: &mut Row, place: usize, word: u32)
    ensures { Filled out.old out.new place word }
{
    if place < out.len {
        out.set(place, word);
    }
}

// Writes the function that stands first; what stands behind it. How many places and steps it has is known only at its end.
pub fn write_routine<'a>(resolved: &'a [u32], pile: &mut [u32], out: &mut Row) -> &'a [u32]
    ensures { RoutineDone resolved.now (length pile.old) out.old result.now out.new }
{
    let Some((&[params, _, vars, _, count], rest)) = resolved.split_first_chunk::<5>() else {
        return &[];
    };
    let (nodes, _) = rest.as_chunks::<3>();
    let count = nodes.len().min(count as usize);
    let start = out.len;
    out.push_all(&[params, vars, 0, 0]);
    let body = write_body(&nodes[..count], params.saturating_add(vars), pile, out);
    fill(out, start.saturating_add(2), body.places);
    fill(out, start.saturating_add(3), body.steps);
    &rest[3 * count..]
}
