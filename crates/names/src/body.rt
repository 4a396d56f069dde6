// The check of a function's body: its nodes one by one over a pile of kinds in lent words.
ghost use Rattle.std.specs.Prelude.{◌≡◌, ◌+◌, ◌<◌, ◌≤◌, false, List, length};
ghost use Rattle.language.specs.Syntax.{Name, Kind, Fn, Prog};
ghost use Rattle.language.specs.Checks.{ok_b};
ghost use Rattle.rows.specs.Has.{Has};
ghost use Rattle.rows.specs.Nodes.{Node, node_row};
ghost use Rattle.names.specs.Fold.{ctx, step};
ghost use Rattle.names.specs.Function.{IsFunction};
ghost use Rattle.names.specs.Pile.{Piled, Leaves, StillLent};

use crate::asking::depth_behind;
use crate::function::Function;
use crate::pile::Pile;
use limits::head::body_of;
use limits::nodes::Body;
use rows::read::tag_at;

impl Function<'_> {
    // What the node at a place leaves of the pile.
    fn check_node(self, node: usize, depth: usize, pile: &mut Pile) -> Option<()>
        requires { pile.old.len < length pile.old.words.now }
        ensures leaves { (p : Prog) (f : Name) (g : Fn) → IsFunction p f g self.entry → (t : Node) (st : List Kind) → Has self.entry.file.row.now node (node_row t) → Piled pile.old.words.now pile.old.len st → Leaves pile.new (step (ctx p f g) depth t st) result }
        ensures grows { pile.new.len ≤ pile.old.len + 1 }
        ensures lent { StillLent pile.old pile.new }
    {
        let effect = self.effect_of(node, depth)?;
        pile.follow(self.file.row, effect)
    }

    // Whether its body passes the checks. The pile has room for as many words as the row.
    pub fn check_body(self, pile: &mut [u32]) -> bool
        requires { length self.file.row.now ≤ length pile.old }
        ensures { (p : Prog) (f : Name) (g : Fn) → IsFunction p f g self.entry → result ≡ ok_b p f g false g.body }
    {
        let mut pile = Pile {
            words: pile,
            len: 0,
        };
        let mut depth = 0;
        for node in Body::new(self.file.row, body_of(self.file.row, self.item)) {
            let Some(()) = self.check_node(node, depth, &mut pile) else {
                return false;
            };
            depth = depth_behind(tag_at(self.file.row, node), depth);
        }
        true
    }
}
