// From the steps of all functions to the words of an image: sizes first, then instructions.
#![tactic(auto)]

ghost use Rattle.std.specs.Prelude.{◌≡◌, ℕ, ◌+◌, ◌≤◌, length};
ghost use Rattle.rows.specs.Trees.{list_row};
ghost use Rattle.image.specs.Image.{row};
ghost use Rattle.steps.specs.Steps.{MProg};
ghost use Rattle.generator.specs.StepRows.{fn_words};
ghost use Rattle.lower.specs.Lower.{others, code_words, image_of};
ghost use Rattle.lower.specs.Core.{Core};
ghost use Rattle.assembler.specs.Tables.{steps_in};
ghost use Rattle.assembler.specs.Assembled.{Given, Assembled};

mod code;
mod emit;
mod frame;
mod function;
mod functions;
mod imaging;
mod measure;
mod operator;
mod place;
pub mod program;
mod register;
mod sizes;
mod stepping;

use imaging::{HEADER, measure, write_image};
use program::{Program, Tables};

// The image of a program's steps, if there is room for it: how many words it has. `program.steps` is the row of its functions but for function 0.
// `work` is room for a word for each function and each step. Nothing of the image is written before its size is known and there is room for it.
pub fn assemble(program: Program, work: &mut [u32], image: &mut [u32]) -> Option<usize>
    ensures { (m : MProg) → Given m program.entry → steps_in (others m.funs) + length m.funs ≤ length work.old → Assembled (row (image_of m (code_words m program.entry.main))) image.old image.new result }
{
    let (entries, places) = work.split_at_mut_checked(program.count as usize + 1)?;
    let size = measure(program, entries, places)?;
    let whole = HEADER + size as usize;
    if image.len() < whole {
        return None;
    }
    write_image(program, Tables { entries, places }, size, image);
    Some(whole)
}
