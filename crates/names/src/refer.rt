// What a name of a function's body stands for, for the pass that replaces names by numbers.
ghost use Rattle.std.specs.Prelude.{◌≡◌};
ghost use Rattle.language.specs.Syntax.{Item};
ghost use Rattle.rows.specs.Has.{Has};
ghost use Rattle.rows.specs.Kinds.{local_kind};
ghost use Rattle.rows.specs.Trees.{item_row};
ghost use Rattle.steps.specs.Generate.{Ref};
ghost use Rattle.names.specs.Finds.{ref_kind, ref_index};
ghost use Rattle.names.specs.Refer.{of_ref, item_meant, NamesGenerated};

use crate::found::{Own, Reference, Spot};
use crate::kinds::item_kind;
use rows::kind::LocalKind;

// A name of the function's own.
pub(super) fn own_reference(own: Own) -> Reference
    ensures { (ref : Ref) → own.index ≡ ref_index ref → own.kind ≡ local_kind (ref_kind ref) → result ≡ of_ref ref }
{
    match own.kind {
        LocalKind::Word => Reference::OwnWord(own.index),
        LocalKind::Bytes => Reference::OwnArray(own.index, false),
        LocalKind::Words => Reference::OwnArray(own.index, true),
    }
}

// An item at the top.
pub(super) fn top_reference(row: &[u32], spot: Spot) -> Reference
    ensures { (i : Item) → Has row.now spot.item (item_row i) → result ≡ item_meant i spot.words spot.arrays }
{
    match item_kind(row, spot.item) {
        Some(LocalKind::Word) => Reference::TopWord(spot.words),
        Some(LocalKind::Bytes) => Reference::TopArray(spot.arrays, false),
        Some(LocalKind::Words) => Reference::TopArray(spot.arrays, true),
        None => Reference::Other,
    }
}

// All that the generator asks of such a name is what it stands for.
pub fn names_are_generated() -> bool
    ensures { NamesGenerated }
{
    true
}
