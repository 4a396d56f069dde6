// Reading a row: a word, a name, and the place behind a name, an item or a node. Reads are total: behind the row's end is 0.
ghost use Rattle.std.specs.Prelude.{◌≡◌, ℕ, ◌+◌, ◌^◌, ◌<◌, ◌≤◌, ◌||◌, length, slice_index};
ghost use Rattle.language.specs.Syntax.{Name, Item, same};
ghost use Rattle.rows.specs.Has.{Has, named};
ghost use Rattle.rows.specs.Nodes.{Node, node_row};
ghost use Rattle.rows.specs.NodeTags.{tag_of};
ghost use Rattle.rows.specs.Kinds.{kind_of_item, local_kind};
ghost use Rattle.rows.specs.Trees.{rest_row, item_row, Local, local_row};

use super::kind::{ItemKind, LocalKind};
use super::tag::Tag;

// The word at a place; 0 behind the row's end.
pub fn word_at(row: &[u32], i: usize) -> u32
    ensures { result ≡ slice_index row.now i }
{
    row.get(i).copied().unwrap_or(0)
}

// The same as a place or a count.
pub fn at(row: &[u32], i: usize) -> usize
    ensures is { result ≡ slice_index row.now i }
    ensures small { result < 2 ^ 32 }
{
    word_at(row, i) as usize
}

// The tag of the node at a place.
pub fn tag_at(row: &[u32], i: usize) -> Tag
    ensures { (t : Node) → Has row.now i (node_row t) → result ≡ tag_of t }
{
    Tag::try_from(word_at(row, i)).unwrap_or(Tag::End)
}

// The kind of the item at a place.
pub fn item_kind_at(row: &[u32], i: usize) -> ItemKind
    ensures { (item : Item) → Has row.now i (item_row item) → result ≡ kind_of_item item }
{
    ItemKind::try_from(word_at(row, i)).unwrap_or(ItemKind::Use)
}

// The kind of a function's name at a place.
pub fn local_kind_at(row: &[u32], i: usize) -> LocalKind
    ensures { (l : Local) → Has row.now i (local_row l) → result ≡ local_kind l.kind }
{
    LocalKind::try_from(word_at(row, i)).unwrap_or(LocalKind::Words)
}

// The letters of the name at a place.
pub fn name_at(row: &[u32], i: usize) -> &[u32]
    ensures { (x : Name) → Has row.now i (named x) → result.now ≡ x }
{
    let start = i.saturating_add(1);
    row.get(start..start.saturating_add(at(row, i)))
        .unwrap_or(&[])
}

// Whether two names of a row are the same.
pub fn same_at(row: &[u32], i: usize, j: usize) -> bool
    ensures { (x y : Name) → Has row.now i (named x) → Has row.now j (named y) → result ≡ same x y }
{
    name_at(row, i) == name_at(row, j)
}

// The place behind the name at a place.
pub fn past_name(row: &[u32], i: usize) -> usize
    ensures { (x : Name) → Has row.now i (named x) → result ≡ i + (length x + 1) }
{
    i.saturating_add(at(row, i) + 1)
}

// The place behind an item.
pub fn past_item(row: &[u32], item: usize) -> usize
    ensures { (i : Item) → Has row.now item (item_row i) → result ≡ item + (2 + length (rest_row i)) }
{
    item.saturating_add(2 + at(row, item.saturating_add(1)))
}

// The place behind a node.
pub fn past_node(row: &[u32], i: usize) -> usize
    ensures { (t : Node) → Has row.now i (node_row t) → result ≡ i + length (node_row t) }
{
    let tag = tag_at(row, i);
    let j = i.saturating_add(tag.lead());
    if tag.has_name() { past_name(row, j) } else { j }
}
