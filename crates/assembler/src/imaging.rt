// The image of a program's steps.
ghost use Rattle.std.specs.Prelude.{◌≡◌, ℕ, ◌+◌, ◌<◌, ◌≤◌, List, [], ◌∷◌, ◌++◌, length, drop, IfSome};
ghost use Rattle.rows.specs.Has.{Has};
ghost use Rattle.steps.specs.Steps.{MFn, MProg};
ghost use Rattle.lower.specs.Lower.{others, row_of, words_of, entry_of};
ghost use Rattle.lower.specs.Core.{Core};
ghost use Rattle.assembler.specs.Tables.{begins, all_starts, steps_in, FunctionsAre};
ghost use Rattle.assembler.specs.Assembled.{Given, Ready};

use crate::code::Code;
use crate::measure::measure_functions;
use crate::place::ImagePlace;
use crate::program::{Program, Tables};
use rows::read::word_at;
use rows::row::Row;

// The word that an image's row begins with.
const MARK: u32 = 19525;

// How many words it begins with: the mark, how much code there is, how many words at the top, and no arrays.
pub const HEADER: usize = 5;

// No jump reaches over more words.
const REACH: u32 = 262144;

// Where each function and each step begins, one word each; and how many words of code there are, if every jump reaches.
pub fn measure(program: Program, entries: &mut [u32], places: &mut [u32]) -> Option<u32>
    ensures reached { IfSome result (λ n. n < 262144) }
    ensures is { (m : MProg) (fs : List MFn) → FunctionsAre program.entry.steps.now program.entry.count fs → entry_of m fs 6 (length fs) < 262144 → 1 + length fs ≤ length entries.old → steps_in fs ≤ length places.old → (result ≡ Some (entry_of m fs 6 (length fs))) × Has entries.new 0 (0 ∷ begins m fs 6) × Has places.new 0 (all_starts m fs 6) }
{
    let mut entry_row = Row {
        words: entries,
        len: 0,
    };
    let mut place_row = Row {
        words: places,
        len: 0,
    };
    let size = measure_functions(program, &mut entry_row, &mut place_row)?;
    (size < REACH).then_some(size)
}

// The words of the instructions.
fn write_code(program: Program, tables: Tables, body: &mut [u32])
    requires { length body.old ≤ 262144 }
    ensures { (m : MProg) → Given m program.entry → Ready m tables.entry → length body.old ≡ length (row_of m program.entry.main) → body.new ≡ words_of 0 (row_of m program.entry.main) }
{
    let mut code = Code {
        words: body,
        here: 0,
    };
    code.begin(ImagePlace(word_at(tables.entries, program.main as usize)));
    code.functions(program, tables);
}

// The header and the code.
pub fn write_image(program: Program, tables: Tables, size: u32, image: &mut [u32])
    requires reach { size ≤ 262144 }
    requires room { 5 + size ≤ length image.old }
    ensures { (m : MProg) → Given m program.entry → Ready m tables.entry → size ≡ length (row_of m program.entry.main) → image.new ≡ (19525 ∷ size ∷ program.entry.words ∷ 0 ∷ 0 ∷ words_of 0 (row_of m program.entry.main)) ++ drop (5 + size) image.old }
{
    image[0..HEADER].copy_from_slice(&[MARK, size, program.words, 0, 0]);
    write_code(program, tables, &mut image[HEADER..HEADER + size as usize]);
}
