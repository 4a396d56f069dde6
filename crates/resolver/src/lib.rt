// One pass over a program's row that writes the program with its names resolved: each name is looked up once and replaced by what it stands for.
#![tactic(auto)]

ghost use Rattle.std.specs.Prelude.{◌≡◌, ◌<◌, true, length};
ghost use Rattle.language.specs.Syntax.{Prog};
ghost use Rattle.language.specs.Meaning.{first_file, w_main};
ghost use Rattle.language.specs.Checks.{ok};
ghost use Rattle.rows.specs.Row.{Pushed};
ghost use Rattle.rows.specs.Trees.{prog_row};
ghost use Rattle.steps.specs.Generate.{fn_no};
ghost use Rattle.generator.specs.ResolvedRows.{resolved_words, resolve_prog};
ghost use Rattle.resolver.specs.Sound.{Sound, Lent};

use items::{count_files, push_files};
use names::file::File;
use names::find::MAIN;
use rows::kind::ItemKind;
use rows::row::Row;
use words::word;

mod body;
mod function;
mod items;
mod node;
mod words;

// The number of main.
fn main_number(row: &[u32]) -> usize
    ensures { (p : Prog) → Sound row.now p → result ≡ fn_no p (first_file p) w_main }
{
    match (File { row, name: 1 }).find_top(&MAIN) {
        Some(spot) => spot.fns.saturating_add(1),
        None => 0,
    }
}

// The resolved program behind what was written, if there is room for it: how many words there are at the top, the number of main, the functions
// and the tables, each behind how many there are. Whatever the row is, the same words are lent afterwards.
pub fn resolve_program(row: &[u32], out: &mut Row)
    ensures lent { Lent out.old out.new }
    ensures pushed { (p : Prog) → row.now ≡ prog_row p → ok p ≡ true → length row.now < 4294967296 → Pushed out.old out.new (resolved_words (resolve_prog p)) }
{
    let words = count_files(row, ItemKind::Word);
    let functions = count_files(row, ItemKind::Function);
    out.push_all(&[word(words), word(main_number(row)), word(functions)]);
    push_files(row, ItemKind::Function, out);
    out.push(word(count_files(row, ItemKind::Table)));
    push_files(row, ItemKind::Table, out);
}

#[cfg(test)]
mod tests {
    use super::*;

    // file a: var x; fn f(y) { return y; } fn main() { x = f(7); }
    const ROW: [u32; 46] = [
        1, 1, 97, 3, 0, 2, 1, 120, 4, 15, 1, 102, 1, 0, 0, 0, 0, 0, 1, 121, 1, 1, 121, 22, 25, 4,
        19, 4, 109, 97, 105, 110, 0, 0, 0, 0, 7, 0, 9, 1, 1, 102, 12, 1, 120, 25,
    ];

    // one word, main is function 2 of 2; f has a parameter and 3 nodes, main 4 nodes; no table
    #[test]
    fn resolves(rt: HostRuntime) {
        let mut words = [9; 40];
        let mut out = Row {
            words: &mut words,
            len: 0,
        };
        resolve_program(&ROW, &mut out);
        let len = out.len;
        assert_eq!(rt; len, 35);
        assert_eq!(rt; words[1], 2);
        assert_eq!(rt; words[3], 1);
        // the parameter is read where it stands
        assert_eq!(rt; words[8], 1);
        assert_eq!(rt; words[9], 0);
        // f is called with one argument, the word at the top is set
        assert_eq!(rt; words[25], 12);
        assert_eq!(rt; words[26], 1);
        assert_eq!(rt; words[27], 1);
        assert_eq!(rt; words[28], 16);
        assert_eq!(rt; words[34], 0);
    }

    // without room nothing is written behind the words that are lent
    #[test]
    fn keeps_to_its_room(rt: HostRuntime) {
        let mut words = [9; 8];
        let mut out = Row {
            words: &mut words[0..4],
            len: 0,
        };
        resolve_program(&ROW, &mut out);
        let len = out.len;
        assert!(rt; len <= 4);
        assert_eq!(rt; words[4], 9);
    }
}
