// A body's nodes, written one by one with their names resolved.
ghost use Rattle.std.specs.Prelude.{◌≡◌, true, List};
ghost use Rattle.language.specs.Syntax.{Name, Fn, Prog};
ghost use Rattle.language.specs.Checks.{ok_fn};
ghost use Rattle.rows.specs.Row.{Pushed};
ghost use Rattle.rows.specs.Nodes.{Node};
ghost use Rattle.rows.specs.Trees.{list_row};
ghost use Rattle.steps.specs.Fits.{Each};
ghost use Rattle.steps.specs.Generate.{scope, slots_of};
ghost use Rattle.generator.specs.Resolved.{resolve_nodes};
ghost use Rattle.generator.specs.ResolvedRows.{node_words};
ghost use Rattle.limits.specs.Body.{NodesLeft};
ghost use Rattle.names.specs.Function.{IsFunction};
ghost use Rattle.resolver.specs.Sound.{Sound, Checked, Lent};

use crate::node::resolved_node;
use limits::nodes::Body;
use names::function::Function;
use rows::row::Row;

// The nodes of a function.
pub fn push_nodes(function: Function, nodes: Body, out: &mut Row)
    ensures lent { Lent out.old out.new }
    ensures pushed { (p : Prog) (f : Name) (g : Fn) (ns : List Node) → Sound function.entry.file.row.now p → ok_fn p f g ≡ true → IsFunction p f g function.entry → NodesLeft function.entry.file.row.now nodes.entry ns → Each (Checked p f) ns → Pushed out.old out.new (list_row node_words (resolve_nodes (scope p f (slots_of g)) ns)) }
{
    for node in nodes {
        out.push_all(&<[u32; 3]>::from(resolved_node(function, node)));
    }
}
