// The nodes of a function's body, passed one by one up to its end.
ghost use Rattle.std.specs.Prelude.{◌≡◌, List, length};
ghost use Rattle.std.specs.Iterator.{at_most};
ghost use Rattle.rows.specs.Has.{Has};
ghost use Rattle.rows.specs.Nodes.{Node, node_row, nodes_row};
ghost use Rattle.limits.specs.Body.{Closed, NodesLeft};
ghost use Rattle.limits.specs.Entries.{Gives};

use rows::read::{past_node, tag_at};
use rows::tag::Tag;

// The next node's place, and how many come at most.
#[derive(Clone, Copy)]
pub struct Body<'a> {
    row: &'a [u32],
    here: usize,
    left: usize,
}

impl<'a> Body<'a> {
    // The nodes from a place on.
    pub fn new(row: &'a [u32], place: usize) -> Body<'a>
        ensures left { (ts : List Node) → Has row.now place (nodes_row ts) → Closed ts → NodesLeft row.now result ts }
        ensures most { result.left ≡ length row.now }
    {
        Body {
            row,
            here: place,
            left: row.len(),
        }
    }
}

impl Iterator for Body<'_> {
    type Item = usize;

    ghost next_gives = { Gives NodesLeft node_row };

    ghost remaining = { λ s. at_most s.left };

    fn next(&mut self) -> Option<usize> {
        if self.left == 0 {
            return None;
        }
        let node = self.here;
        self.left = match tag_at(self.row, node) {
            Tag::End => 0,
            _ => self.left - 1,
        };
        self.here = past_node(self.row, node);
        Some(node)
    }
}
