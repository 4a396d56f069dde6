// What is wrong with a function's body: the first of its nodes that fails, and exactly where.
use super::closing::left_at_name;
use super::function::check_node;
use super::problem::Fault;
use super::search::Search;
use super::seeking::{from_large, from_leaving};
use limits::entries::{Entries, Locals};
use limits::head::head_of;
use limits::nodes::Body;
use names::asking::depth_behind;
use names::function::Function;
use names::pile::Pile;
use places::{Located, from_argument, locate, past_pieces};
use rows::read::{at, tag_at, word_at};
use rows::tag::Tag;

// How far a body is read.
#[derive(Clone, Copy)]
struct Reader {
    // the number of the next node's name, in the order of nodes; the function's own names come first
    name: usize,
    // how many `break` and `continue` stand before it, and in how many loops it stands
    leaving: usize,
    depth: usize,
}

impl Reader {
    // Past a node.
    fn past(self, row: &[u32], node: usize) -> Reader {
        let tag = tag_at(row, node);
        Reader {
            name: self.name.saturating_add(usize::from(tag.has_name())),
            leaving: self
                .leaving
                .saturating_add(usize::from(matches!(tag, Tag::Break | Tag::Next))),
            depth: depth_behind(tag, self.depth),
        }
    }
}

// The first of the arguments on top of the pile that is not of its parameter's kind.
fn unlike_argument(row: &[u32], params: Entries<Locals>, pile: &[u32]) -> usize {
    let from = pile.len().saturating_sub(params.len());
    params
        .zip(&pile[from..])
        .position(|(param, kind)| word_at(row, param) != *kind)
        .unwrap_or(0)
}

// The text from the name of a node on; the text begins with the function.
fn from_name<'a>(whole: &'a [u8], text: &[u8], name: usize) -> &'a [u8] {
    let left = left_at_name(past_pieces(text, 2), name);
    &whole[whole.len().saturating_sub(left)..]
}

impl Search<'_> {
    // The body of a function, which the text begins with.
    pub(super) fn check_function(
        &mut self,
        text: &[u8],
        function: Function,
    ) -> Result<(), Located<Fault>> {
        let row = self.row;
        let locals = head_of(row, function.item).locals;
        let mut reader = Reader {
            name: locals.len(),
            leaving: 0,
            depth: 0,
        };
        let mut pile = Pile {
            words: self.pile,
            len: 0,
        };
        for node in Body::new(row, locals.end()) {
            if let Err(fault) = check_node(function, node, reader.depth) {
                let place = match fault {
                    Fault::NumberTooLarge => from_large(text),
                    Fault::OutsideLoop => from_leaving(text, reader.leaving),
                    _ => from_name(self.text, text, reader.name),
                };
                return Err(locate(self.text, place, fault));
            }
            if pile.len >= pile.words.len() {
                return Ok(());
            }
            // what its function's check has passed does something
            let Some(effect) = function.effect_of(node, reader.depth) else {
                return Ok(());
            };
            let Some(()) = pile.follow(row, effect) else {
                let unlike = unlike_argument(row, effect.params, pile.kinds());
                let name = from_name(self.text, text, reader.name);
                return Err(locate(self.text, from_argument(name, unlike), Fault::ArgumentKind));
            };
            reader = reader.past(row, node);
        }
        Ok(())
    }
}
