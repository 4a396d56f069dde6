// What look-ups find: an item at the top, behind how many others, a function's own name, what a name stands for.
ghost use Rattle.std.specs.Prelude.{◌≡◌};
ghost use Rattle.language.specs.Syntax.{Item};
ghost use Rattle.rows.specs.Kinds.{kind_of_item};
ghost use Rattle.names.specs.Finds.{Passes, behind};

use rows::kind::{ItemKind, LocalKind};

// Where an item stands in a program's row, the place of its file's name, and how many words, arrays, functions and tables stand before it.
#[derive(Clone, Copy, Debug, PartialEq, Eq)]
pub struct Spot {
    pub file: usize,
    pub item: usize,
    pub words: usize,
    pub arrays: usize,
    pub fns: usize,
    pub tables: usize,
}

impl Spot {
    // Behind an item of a kind.
    pub fn past(self, kind: ItemKind) -> Spot
        ensures { (i : Item) → kind ≡ kind_of_item i → Passes i self result }
    {
        let mut passed = Passed {
            counts: [self.words, self.arrays, 0, self.tables, self.fns, 0],
        };
        passed.pass(kind);
        passed.spot(self.file, self.item)
    }
}

// How many items were passed, of each kind. Look-ups pass many: with a count for each kind it is one sum an item, and no jump by its kind.
#[derive(Clone, Copy, Debug, PartialEq, Eq)]
pub struct Passed {
    counts: [usize; 6],
}

impl Passed {
    // None yet.
    pub fn none() -> Passed
        ensures { behind result 0 0 ≡ record { file = 0; item = 0; words = 0; arrays = 0; fns = 0; tables = 0 } }
    {
        Passed { counts: [0; 6] }
    }

    // One more of a kind.
    pub fn pass(&mut self, kind: ItemKind)
        ensures { (i : Item) → kind ≡ kind_of_item i → Passes i (behind self.old 0 0) (behind self.new 0 0) }
    {
        let count = &mut self.counts[kind as usize];
        *count = count.saturating_add(1);
    }

    // Where the item behind them stands.
    pub fn spot(self, file: usize, item: usize) -> Spot
        ensures { result ≡ behind self file item }
    {
        let [words, arrays, data, tables, fns, _] = self.counts;
        Spot {
            file,
            item,
            words,
            arrays: arrays.saturating_add(data),
            fns,
            tables,
        }
    }
}

// A function's own name: its number among the words or among the arrays, and its kind.
#[derive(Clone, Copy, Debug, PartialEq, Eq)]
pub struct Own {
    pub index: usize,
    pub kind: LocalKind,
}

// What a name stands for where a word or an array is wanted: the function's own with this number, or that of the top; an array of words (true)
// or of bytes; else something other.
#[derive(Clone, Copy, Debug, PartialEq, Eq)]
pub enum Reference {
    OwnWord(usize),
    OwnArray(usize, bool),
    TopWord(usize),
    TopArray(usize, bool),
    Other,
}

#[cfg(test)]
mod tests {
    use super::*;

    // Behind an item of each kind, which changes one number at most.
    #[test]
    fn passes_items(rt: HostRuntime) {
        let before = Spot {
            file: 1,
            item: 4,
            words: 2,
            arrays: 3,
            fns: 5,
            tables: 6,
        };
        let word = Spot { words: 3, ..before };
        let array = Spot {
            arrays: 4,
            ..before
        };
        let table = Spot {
            tables: 7,
            ..before
        };
        let function = Spot { fns: 6, ..before };
        let most = Spot {
            words: usize::MAX,
            ..before
        };
        assert!(rt; before.past(ItemKind::Word) == word);
        assert!(rt; before.past(ItemKind::Array) == array);
        assert!(rt; before.past(ItemKind::Data) == array);
        assert!(rt; before.past(ItemKind::Table) == table);
        assert!(rt; before.past(ItemKind::Function) == function);
        assert!(rt; before.past(ItemKind::Use) == before);
        // no number is larger
        assert!(rt; most.past(ItemKind::Word) == most);
    }
}
