// The compiler: from a text to an image. What is promised of `build` stands in lower/specs/Promise; it reads as the list of layers.
#![tactic(auto)]

ghost use Rattle.std.specs.Prelude.{◌≡◌, ℕ, ◌+◌, ◌*◌, ◌≤◌, List, length, take};
ghost use Rattle.language.specs.Syntax.{Prog, stage};
ghost use Rattle.grammar.specs.Text.{Reads};
ghost use Rattle.image.specs.Image.{row};
ghost use Rattle.lower.specs.Lower.{compile};
ghost use Rattle.lower.specs.Promise.{BuiltPost};
ghost use Rattle.generator.specs.ResolvedRows.{ResolvedProg, resolved_words, resolve_prog};
ghost use Rattle.stepper.specs.Bodies.{Suits, steps_row as row_of_steps};
ghost use Rattle.assembler.specs.Assembled.{Assembled};

use assembler::assemble;
use assembler::program::Program;
use front::read;
use lower::Unbuilt;
use rows::row::Row;
use stepper::write_steps;

// The highest stage whose programs can be built.
pub const LANDED: u32 = 0;

// Words for the values that wait while a function's steps are written: no function of a text has more.
const PILE: usize = 1022;

// Writes the row of a program's steps, if there is room, and says how many words were written.
fn steps_row(resolved: &[u32], pile: &mut [u32], words: &mut [u32]) -> usize
    ensures is { (r : ResolvedProg) → Suits resolved.now r (length pile.old) → length (row_of_steps r) ≤ length words.old → take result words.new ≡ row_of_steps r }
    ensures inside { result ≤ length words.new }
    ensures kept { length words.new ≡ length words.old }
{
    let mut out = Row { words, len: 0 };
    write_steps(resolved, pile, &mut out);
    out.len
}

// The image of a program whose names are resolved, if there is room for it: how many words it has.
fn generate(resolved: &[u32], work: &mut [u32], image: &mut [u32]) -> Option<usize>
    ensures { (t : List ℕ) (p : Prog) → Reads t p → stage p ≡ 0 → resolved.now ≡ resolved_words (resolve_prog p) → 10 * length t + 1023 ≤ length work.old → Assembled (row (compile p)) image.old image.new result }
{
    let [words, main, count] = *resolved.first_chunk::<3>()?;
    let (pile, rest) = work.split_at_mut_checked(PILE)?;
    let n = steps_row(resolved, pile, rest);
    let (steps, tables) = rest.split_at_mut(n);
    let program = Program {
        steps,
        count,
        words,
        main,
    };
    assemble(program, tables, image)
}

// Builds the image of a text: reads and checks it, resolves its names, makes its steps, and lowers them. How many words it has.
pub fn build(text: &[u8], image: &mut [u32], work: &mut [u32]) -> Result<usize, Unbuilt>
    ensures { BuiltPost text.now (length work.old) image.old image.new result }
{
    let tree = read(text, work)?;
    if tree.stage > LANDED {
        return Err(Unbuilt::NotYet(tree.stage));
    }
    // named first: a call with both parts of the tree in its arguments gets no generated proof
    let resolved = tree.resolved;
    let rest = tree.rest;
    generate(resolved, rest, image).ok_or(Unbuilt::ImageFull)
}
