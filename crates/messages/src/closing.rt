// The names of a function in the order of their nodes. A node is written where its form ends: a name alone ends at itself, one
// before a bracket where that is shut, one that is set where the statement ends.
use super::seeking::is_any_name;
use pieces::piece::Piece;
use places::pieces_of;

// Brackets that may be open at once.
const DEEPEST: usize = 40;

// Names are given by how many bytes of the text are left there.
#[derive(Drop)]
struct Walk {
    // those before the open brackets
    waiting: [Option<usize>; DEEPEST],
    depth: usize,
    // the one whose form goes up to the piece that was read last
    last: Option<usize>,
    // the one that is set in this statement
    set: Option<usize>,
    // how many forms have still to end
    left: usize,
}

impl Walk {
    // Opens a bracket behind what was read last.
    fn open(&mut self) {
        if self.depth < DEEPEST {
            self.waiting[self.depth] = self.last.take();
            self.depth += 1;
        }
        self.last = None;
    }

    // Shuts a bracket: the name before it is what was read last.
    fn shut(&mut self) {
        self.depth = self.depth.saturating_sub(1);
        self.last = self.waiting.get(self.depth).copied().flatten();
    }

    // The form of a name ends, if there is one: gives the name if it is the one sought.
    fn end(&mut self, name: Option<usize>) -> Option<usize> {
        let name = name?;
        if self.left == 0 {
            return Some(name);
        }
        self.left -= 1;
        None
    }

    // Goes past a piece, with so many bytes left at it; gives the name sought if its form has ended.
    fn go(&mut self, piece: Piece, left: usize) -> Option<usize> {
        match piece {
            Piece::Sign(b'(' | b'[') => {
                self.open();
                return None;
            }
            Piece::Sign(b'=') => {
                self.set = self.last.take();
                return None;
            }
            _ => {}
        }
        let last = self.last.take();
        let ended = self.end(last);
        if ended.is_some() {
            return ended;
        }
        match piece {
            Piece::Sign(b')' | b']') => self.shut(),
            Piece::Sign(b';') => {
                let set = self.set.take();
                return self.end(set);
            }
            _ if is_any_name(piece) => self.last = Some(left),
            _ => {}
        }
        None
    }
}

// How many bytes of the text are left at a name, by its number in the order of nodes; the text begins with the function's parameters.
pub(super) fn left_at_name(text: &[u8], n: usize) -> usize {
    let mut walk = Walk {
        waiting: [None; DEEPEST],
        depth: 0,
        last: None,
        set: None,
        left: n,
    };
    for cutting in pieces_of(text) {
        if let Some(left) = walk.go(cutting.piece, cutting.from.len()) {
            return left;
        }
    }
    text.len()
}
