// A function: how many words it has of each sort, its own arrays, its nodes.
ghost use Rattle.std.specs.Prelude.{◌≡◌, true, List};
ghost use Rattle.language.specs.Syntax.{Name, k_word, Arr, Fn, Prog};
ghost use Rattle.language.specs.Checks.{sizes, ok_fn, same_k};
ghost use Rattle.language.specs.Words.{bit};
ghost use Rattle.rows.specs.Row.{Pushed};
ghost use Rattle.rows.specs.Has.{Has};
ghost use Rattle.rows.specs.Trees.{Local, list_row, map_list, of_array, local_row};
ghost use Rattle.steps.specs.Generate.{words_of, shapes_of};
ghost use Rattle.limits.specs.Entries.{Left};
ghost use Rattle.names.specs.Finds.{slots_in};
ghost use Rattle.names.specs.Function.{IsFunction};
ghost use Rattle.generator.specs.ResolvedRows.{shape_words, routine_words, resolve_fn};
ghost use Rattle.resolver.specs.Sound.{Sound, Lent};

use crate::body::push_nodes;
use crate::words::word;
use limits::entries::{Entries, Locals};
use limits::head::{head_of, own_arrays};
use limits::nodes::Body;
use names::function::Function;
use rows::kind::LocalKind;
use rows::read::{at, local_kind_at};
use rows::row::Row;

// 1 if a name of a function is a word.
fn one_word(row: &[u32], local: usize) -> usize
    ensures { (l : Local) → Has row.now local (local_row l) → result ≡ bit (same_k l.kind k_word) }
{
    match local_kind_at(row, local) {
        LocalKind::Word => 1,
        LocalKind::Bytes | LocalKind::Words => 0,
    }
}

// How many words are among names of a function.
fn count_words(row: &[u32], locals: Entries<Locals>) -> usize
    ensures { (ls : List Local) → Left local_row row.now locals.entry ls → result ≡ words_of (slots_in ls) }
{
    locals.fold(
        0,
        |words: usize, local| words.saturating_add(one_word(row, local)),
    )
}

// Whether an own array is of words (1) or of bytes.
fn array_width(row: &[u32], array: usize) -> u32
    ensures { (b : Arr) → Has row.now array (local_row (of_array b)) → result ≡ bit b.wide }
{
    match local_kind_at(row, array) {
        LocalKind::Words => 1,
        _ => 0,
    }
}

// Own arrays: whether each is of words, and its size.
fn push_arrays(row: &[u32], arrays: Entries<Locals>, out: &mut Row)
    ensures lent { Lent out.old out.new }
    ensures pushed { (bs : List Arr) → Left local_row row.now arrays.entry (map_list of_array bs) → sizes 4096 bs ≡ true → Pushed out.old out.new (list_row shape_words (shapes_of bs)) }
{
    for array in arrays {
        let size = at(row, array.saturating_add(1));
        out.push_all(&[array_width(row, array), word(size)]);
    }
}

// A function.
pub fn push_function(function: Function, out: &mut Row)
    ensures lent { Lent out.old out.new }
    ensures pushed { (p : Prog) (f : Name) (g : Fn) → Sound function.entry.file.row.now p → ok_fn p f g ≡ true → IsFunction p f g function.entry → Pushed out.old out.new (routine_words (resolve_fn p f g)) }
{
    let row = function.file.row;
    let head = head_of(row, function.item);
    let words = count_words(row, head.params);
    let arrays = head.params.len().saturating_sub(words);
    let nodes = Body::new(row, head.locals.end());
    out.push_all(&[
        word(words),
        word(arrays),
        word(head.vars),
        word(head.arrays),
        word(nodes.count()),
    ]);
    push_arrays(row, own_arrays(row, head), out);
    push_nodes(function, nodes, out);
}
