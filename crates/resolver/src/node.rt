// One node with its name resolved.
ghost use Rattle.std.specs.Prelude.{◌≡◌, true};
ghost use Rattle.language.specs.Syntax.{Name, Fn, Prog};
ghost use Rattle.language.specs.Meaning.{as_table};
ghost use Rattle.language.specs.Checks.{ok_fn};
ghost use Rattle.rows.specs.Has.{Has};
ghost use Rattle.rows.specs.Nodes.{Node, node_row};
ghost use Rattle.steps.specs.Generate.{scope, slots_of, number, fn_no};
ghost use Rattle.names.specs.File.{IsFile};
ghost use Rattle.names.specs.Function.{IsFunction};
ghost use Rattle.generator.specs.Resolved.{resolve_node};
ghost use Rattle.generator.specs.ResolvedRows.{node_words};
ghost use Rattle.resolver.specs.Sound.{Sound, Known, Checked};
ghost use Rattle.resolver.specs.Stands.{seen};

use crate::words::{Resolved, named, names_value, plain, word};
use names::file::File;
use names::function::Function;
use rows::read::{name_at, tag_at, word_at};
use rows::tag::Tag;

// The number of a function that is named in a file; function 0 calls main. No Option: the row has a number there, and a name of a program stands for one.
pub fn function_number(file: File, name: &[u32]) -> usize
    ensures { (p : Prog) (f : Name) → Sound file.entry.row.now p → IsFile p f file.entry → Known p f name.now → result ≡ fn_no p f name.now }
{
    match file.resolve(name) {
        Some(spot) => spot.fns.saturating_add(1),
        None => 0,
    }
}

// The number of a table that is named in a file.
fn table_number(file: File, name: &[u32]) -> usize
    ensures { (p : Prog) (f : Name) → Sound file.entry.row.now p → IsFile p f file.entry → Known p f name.now → result ≡ number as_table p f name.now }
{
    match file.resolve(name) {
        Some(spot) => spot.tables,
        None => 0,
    }
}

// The node at a place, in a function.
pub fn resolved_node(function: Function, node: usize) -> Resolved
    ensures { (p : Prog) (f : Name) (g : Fn) (t : Node) → Sound function.entry.file.row.now p → ok_fn p f g ≡ true → IsFunction p f g function.entry → Has function.entry.file.row.now node (node_row t) → Checked p f t → node_words (seen result) ≡ node_words (resolve_node (scope p f (slots_of g)) t) }
{
    let row = function.file.row;
    let tag = tag_at(row, node);
    let second = node.saturating_add(1);
    let third = node.saturating_add(2);
    match tag {
        Tag::Call => Resolved::Call(
            word(function_number(function.file, name_at(row, third))),
            word_at(row, second),
        ),
        Tag::By => Resolved::By(
            word(table_number(function.file, name_at(row, third))),
            word_at(row, second),
        ),
        _ => if names_value(tag) {
            named(tag, function.refer(name_at(row, second)))
        } else {
            plain(tag, word_at(row, second))
        },
    }
}
