// A node on the pile of kinds: whether the top is as a node asks, and what the node leaves of it.
ghost use Rattle.std.specs.Prelude.{◌≡◌, ℕ, ◌+◌, ◌-◌, ◌<◌, ◌≤◌, ◌&&◌, List, ◌++◌, length, drop, replicate, nat_le, ◌==◌};
ghost use Rattle.std.specs.List.{list_all};
ghost use Rattle.language.specs.Syntax.{Kind, k_word};
ghost use Rattle.rows.specs.Nodes.{Node};
ghost use Rattle.rows.specs.Trees.{Local, local_row, map_list, kind_no};
ghost use Rattle.rows.specs.Kinds.{local_kind_no};
ghost use Rattle.limits.specs.Entries.{Left};
ghost use Rattle.names.specs.Fold.{Ctx, fit, step};
ghost use Rattle.names.specs.Effects.{local_kinds, Does};
ghost use Rattle.names.specs.Pile.{Piled, Leaves, StillLent};

use crate::asking::Effect;
use crate::pile::Pile;
use limits::entries::{Entries, Locals};
use rows::kind::LocalKind;
use rows::read::at;

// Whether kinds of the pile are words.
fn are_words(kinds: &[u32]) -> bool
    ensures { result ≡ list_all (λ kind. kind == 0) kinds.now }
{
    kinds.iter().all(|kind| *kind == 0)
}

// Whether kinds of the pile are those of a function's names.
fn are_kinds(row: &[u32], names: Entries<Locals>, kinds: &[u32]) -> bool
    ensures { (ls : List Local) (ks : List Kind) → Left local_row row.now names.entry ls → kinds.now ≡ map_list kind_no ks → result ≡ fit ks (local_kinds ls) }
{
    let mut rest = kinds;
    for name in names {
        let Some((kind, others)) = rest.split_first() else {
            return false;
        };
        if at(row, name) != *kind as usize {
            return false;
        }
        rest = others;
    }
    rest.is_empty()
}

// Whether the top of the pile is as a node asks.
fn top_fits(row: &[u32], e: Effect, pile: &[u32]) -> bool
    ensures { (ls : List Local) (st : List Kind) → Left local_row row.now e.entry.params ls → pile.now ≡ map_list kind_no st → result ≡ (nat_le (e.entry.words + length ls) (length st) && fit (drop (length st - (e.entry.words + length ls)) st) (replicate e.entry.words k_word ++ local_kinds ls)) }
{
    let wanted = e.words.saturating_add(e.params.len());
    if pile.len() < wanted {
        return false;
    }
    let (words, kinds) = pile[pile.len() - wanted..].split_at(e.words);
    are_words(words) & are_kinds(row, e.params, kinds)
}

// A kind's number.
fn number_of(kind: LocalKind) -> u32
    ensures { result ≡ local_kind_no kind }
{
    kind as u32
}

impl Pile<'_> {
    // What a node leaves of the pile. None is that the node is refused.
    pub fn follow(&mut self, row: &[u32], e: Effect) -> Option<()>
        requires { self.old.len < length self.old.words.now }
        ensures leaves { (Γ : Ctx) (d : ℕ) (t : Node) (st : List Kind) → Does row.now Γ d t e.entry → Piled self.old.words.now self.old.len st → Leaves self.new (step Γ d t st) result }
        ensures grows { self.new.len ≤ self.old.len + 1 }
        ensures lent { StillLent self.old self.new }
    {
        if !top_fits(row, e, self.kinds()) {
            return None;
        }
        self.len = self
            .len
            .saturating_sub(e.words)
            .saturating_sub(e.params.len());
        if let Some(kind) = e.gives {
            self.words[self.len] = number_of(kind);
            self.len += 1;
        }
        Some(())
    }
}
