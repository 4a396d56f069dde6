// The nodes of a function, one by one.
ghost use Rattle.std.specs.Prelude.{length};
ghost use Rattle.stepper.specs.Bodies.{BodyDone};

use crate::node::Node;
use crate::writer::Writer;
use rows::row::Row;

// What is known of a function when its steps are written.
#[derive(Clone, Copy, Debug, PartialEq, Eq)]
pub struct Body {
    // how many places it has: the highest that a value waits in
    pub places: u32,
    pub steps: u32,
}

// Writes the steps of a function's nodes, three words each. Words that are no node of stage 0 are read as the last node, which does no harm.
pub fn write_body(nodes: &[[u32; 3]], base: u32, pile: &mut [u32], out: &mut Row) -> Body
    ensures { BodyDone nodes.now base (length pile.old) out.old result.places result.steps out.new }
{
    let mut writer = Writer {
        first: out.len,
        base,
        height: 0,
        waiting: 0,
        head: 0,
        next: 0,
        pile,
        out,
    };
    let mut waiting = 0;
    let mut places = base;
    for words in nodes {
        let node = Node::try_from(*words).unwrap_or(Node::End);
        waiting = node.count_behind(waiting);
        places = places.max(base.saturating_add(waiting));
        writer.turn(node);
    }
    Body {
        places,
        steps: writer.next,
    }
}
