// The stage of a program: the highest of its forms' stages.
ghost use Rattle.std.specs.Prelude.{◌≡◌, List};
ghost use Rattle.language.specs.Syntax.{pick, Kind, Fn, Item, i_fn, File, Prog, stage_k, stage_i, stage_is};
ghost use Rattle.language.specs.Syntax.{stage as stage_of};
ghost use Rattle.rows.specs.Has.{Has};
ghost use Rattle.rows.specs.Kinds.{local_kind};
ghost use Rattle.rows.specs.Nodes.{Node};
ghost use Rattle.rows.specs.NodeTags.{tag_of};
ghost use Rattle.rows.specs.Trees.{Local, local_row, item_row, file_row, prog_row};
ghost use Rattle.limits.specs.Body.{NodesLeft};
ghost use Rattle.limits.specs.Entries.{Left};
ghost use Rattle.limits.specs.Stages.{node_stage, nodes_stage, locals_stage, fn_stage};

use super::entries::{Entries, Locals, files_of, items_of};
use super::head::head_of;
use super::nodes::Body;
use rows::kind::{ItemKind, LocalKind};
use rows::read::{at, item_kind_at, local_kind_at, past_name, tag_at};
use rows::tag::Tag;

// The stage of a node by its tag.
fn stage_of_tag(tag: Tag) -> u32
    ensures { (t : Node) → tag ≡ tag_of t → result ≡ node_stage t }
{
    match tag {
        Tag::Idx | Tag::In | Tag::Store => 1,
        Tag::Len => 2,
        Tag::By => 6,
        _ => 0,
    }
}

// The stage of a body's nodes.
fn stage_of_nodes(row: &[u32], nodes: Body) -> u32
    ensures { (ts : List Node) → NodesLeft row.now nodes.entry ts → result ≡ nodes_stage ts }
{
    nodes.fold(0, |stage, node| stage.max(stage_of_tag(tag_at(row, node))))
}

// The stage of a name of a function by its kind.
fn stage_of_kind(kind: LocalKind) -> u32
    ensures { (k : Kind) → kind ≡ local_kind k → result ≡ stage_k k }
{
    match kind {
        LocalKind::Word => 0,
        LocalKind::Bytes => 5,
        LocalKind::Words => 2,
    }
}

// The stage of names of a function.
fn stage_of_locals(row: &[u32], locals: Entries<Locals>) -> u32
    ensures { (ls : List Local) → Left local_row row.now locals.entry ls → result ≡ locals_stage ls }
{
    locals.fold(
        0,
        |stage, local| stage.max(stage_of_kind(local_kind_at(row, local))),
    )
}

// The stage of a function.
fn stage_of_fn(row: &[u32], item: usize) -> u32
    ensures { (g : Fn) → Has row.now item (item_row (i_fn g)) → result ≡ fn_stage g }
{
    let locals = head_of(row, item).locals;
    let nodes = Body::new(row, locals.end());
    stage_of_locals(row, locals).max(stage_of_nodes(row, nodes))
}

// The stage of an array at the top: arrays of words have this stage.
fn stage_of_array(wide: bool, words: u32) -> u32
    ensures { result ≡ pick wide words 5 }
{
    if wide { words } else { 5 }
}

// The stage of what stands at the top of a file.
fn stage_of_item(row: &[u32], item: usize) -> u32
    ensures { (i : Item) → Has row.now item (item_row i) → result ≡ stage_i i }
{
    let tail = past_name(row, item.saturating_add(2));
    let wide = at(row, tail) == 1;
    match item_kind_at(row, item) {
        ItemKind::Word => 0,
        ItemKind::Array => stage_of_array(wide, 1),
        ItemKind::Data => stage_of_array(wide, 4),
        ItemKind::Table => 6,
        ItemKind::Function => stage_of_fn(row, item),
        ItemKind::Use => 3,
    }
}

// The stage of a file.
fn stage_of_file(row: &[u32], file: usize) -> u32
    ensures { (f : File) → Has row.now file (file_row f) → result ≡ stage_is f.items }
{
    items_of(row, file).fold(0, |stage, item| stage.max(stage_of_item(row, item)))
}

// The stage of a program.
pub fn stage(row: &[u32]) -> u32
    ensures { (p : Prog) → row.now ≡ prog_row p → result ≡ stage_of p }
{
    let files = files_of(row);
    let stage = files.fold(0, |stage, file| stage.max(stage_of_file(row, file)));
    if files.len() > 1 { stage.max(3) } else { stage }
}
