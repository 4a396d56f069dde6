// What a node of a body asks of the pile of kinds and gives to it.
ghost use Rattle.std.specs.Prelude.{◌≡◌, ℕ, List};
ghost use Rattle.std.proofs.Math.Option.{Option};
ghost use Rattle.language.specs.Syntax.{Name, Fn, Param, Prog};
ghost use Rattle.rows.specs.Has.{Has};
ghost use Rattle.rows.specs.Nodes.{Node, node_row};
ghost use Rattle.rows.specs.NodeTags.{tag_no};
ghost use Rattle.names.specs.Fold.{ctx};
ghost use Rattle.names.specs.Function.{IsFunction};
ghost use Rattle.names.specs.Kinds.{FindsParams};
ghost use Rattle.names.specs.Effects.{takes, gives, wants_kind, suits, stands, deeper, MayDo, MayAsk};

use crate::function::Function;
use limits::entries::{Entries, Locals};
use rows::kind::LocalKind;
use rows::read::{at, name_at, tag_at};
use rows::tag::Tag;

// What a node does to the pile of kinds: it asks for words and above them for these kinds of parameters, and gives a kind or none.
#[derive(Clone, Copy)]
pub struct Effect<'a> {
    pub words: usize,
    pub params: Entries<'a, Locals>,
    pub gives: Option<LocalKind>,
}

// How many words a node asks for.
fn takes_of(tag: Tag) -> usize
    ensures { result ≡ takes (tag_no tag) }
{
    match tag {
        Tag::Bin | Tag::Store => 2,
        Tag::And
        | Tag::Or
        | Tag::Join
        | Tag::Un
        | Tag::Idx
        | Tag::Set
        | Tag::Ex
        | Tag::Out
        | Tag::If
        | Tag::While
        | Tag::Ret => 1,
        _ => 0,
    }
}

// The kind that a node gives, by the kind of its name.
fn gives_of(tag: Tag, kind: Option<LocalKind>) -> Option<LocalKind>
    ensures { result ≡ gives (tag_no tag) kind }
{
    match tag {
        Tag::Var | Tag::Arg => kind,
        Tag::Num | Tag::Bin | Tag::Join | Tag::Un | Tag::Idx | Tag::Len | Tag::In => {
            Some(LocalKind::Word)
        }
        _ => None,
    }
}

// Whether a node is of those whose name has a kind.
fn has_kind(tag: Tag) -> bool
    ensures { result ≡ wants_kind (tag_no tag) }
{
    matches!(
        tag,
        Tag::Var | Tag::Idx | Tag::Len | Tag::Set | Tag::Store | Tag::Arg
    )
}

// Whether the kind of its name is as it must be.
fn kind_suits(tag: Tag, kind: Option<LocalKind>) -> bool
    ensures { result ≡ suits (tag_no tag) kind }
{
    match tag {
        Tag::Var | Tag::Arg => kind.is_some(),
        Tag::Set => matches!(kind, Some(LocalKind::Word)),
        _ => matches!(kind, Some(LocalKind::Bytes | LocalKind::Words)),
    }
}

// Whether a node without a name may stand where it does.
fn may_stand(tag: Tag, high: usize, depth: usize) -> bool
    ensures { result ≡ stands (tag_no tag) high depth }
{
    match tag {
        Tag::Num => high == 0,
        Tag::Break | Tag::Next => depth != 0,
        _ => true,
    }
}

// In how many loops the next node stands.
pub fn depth_behind(tag: Tag, depth: usize) -> usize
    ensures { result ≡ deeper (tag_no tag) depth }
{
    match tag {
        Tag::Loop => depth.saturating_add(1),
        Tag::Again => depth.saturating_sub(1),
        _ => depth,
    }
}

// The same by the number of a tag; a number of none changes nothing.
pub fn depth_past(tag: usize, depth: usize) -> usize
    ensures { result ≡ deeper tag depth }
{
    match tag {
        19 => depth.saturating_add(1),
        21 => depth.saturating_sub(1),
        _ => depth,
    }
}

// A call with so many arguments behind so many words, of what was found. None is that it is refused.
fn call_with(found: Option<Entries<Locals>>, count: usize, words: usize) -> Option<Effect>
    ensures { (row : List ℕ) (o : Option (List Param)) → FindsParams row o found.entry → MayAsk row o count words result }
{
    let params = found?;
    (params.len() == count).then_some(Effect {
        words,
        params,
        gives: Some(LocalKind::Word),
    })
}

impl<'a> Function<'a> {
    // What the node at a place does. None is that it may not stand there.
    pub fn effect_of(self, node: usize, depth: usize) -> Option<Effect<'a>>
        ensures { (p : Prog) (f : Name) (g : Fn) (t : Node) → IsFunction p f g self.entry → Has self.entry.file.row.now node (node_row t) → MayDo self.entry.file.row.now (ctx p f g) depth t result }
    {
        let row = self.file.row;
        let tag = tag_at(row, node);
        let second = node.saturating_add(1);
        let third = node.saturating_add(2);
        match tag {
            Tag::Call => call_with(self.params_of(name_at(row, third)), at(row, second), 0),
            Tag::By => call_with(
                self.params_of_table(name_at(row, third)),
                at(row, second),
                1,
            ),
            _ => {
                let params = Entries::new(row, 0, 0);
                let words = takes_of(tag);
                if has_kind(tag) {
                    let kind = self.kind_of(name_at(row, second));
                    let gives = gives_of(tag, kind);
                    kind_suits(tag, kind).then_some(Effect {
                        words,
                        params,
                        gives,
                    })
                } else {
                    let gives = gives_of(tag, None);
                    may_stand(tag, at(row, third), depth).then_some(Effect {
                        words,
                        params,
                        gives,
                    })
                }
            }
        }
    }
}
