// Words as names and as numbers. A name is short, begins with no digit and has no meaning of its own.
ghost use Rattle.std.specs.Prelude.{◌≡◌, ◌+◌, ◌-◌, ◌<◌, true, false, [], ◌∷◌, MatchOption};
ghost use Rattle.language.specs.Syntax.{listed, same};
ghost use Rattle.grammar.specs.Text.{word_bytes, is_name, reserved, k_file, k_use, k_var, k_array, k_bytes, k_table, k_fn, k_if, k_else, k_while, k_return, k_break, k_continue, k_out, k_in, k_len, k_call};
ghost use Rattle.std.proofs.Math.Option.{some, none};
ghost use Rattle.grammar.specs.Parse.{num_of};

use super::lex::is_word_byte;
use super::words::RESERVED;

// Whether a word has a meaning of its own. Not by `contains`: with it a text takes a tenth more time to read.
fn is_reserved(w: &[u8]) -> bool
    ensures { result ≡ listed w.now reserved }
{
    RESERVED.iter().any(|word| *word == w)
}

fn all_word_bytes(w: &[u8]) -> bool
    ensures { result ≡ word_bytes w.now }
{
    w.iter().all(|c| is_word_byte(*c))
}

pub fn is_name(w: &[u8]) -> bool
    ensures { result ≡ is_name w.now }
{
    !w.is_empty() && w.len() <= 32 && all_word_bytes(w) && !w[0].is_ascii_digit() && !is_reserved(w)
}

pub fn number(w: &[u8]) -> Option<u64>
    ensures { MatchOption result (num_of w.now ≡ none) (λ n. (num_of w.now ≡ some n) × (n < 10000000000)) }
{
    if w.is_empty() || w.len() > 10 {
        return None;
    }
    let mut v = 0;
    for c in w {
        if !c.is_ascii_digit() {
            return None;
        }
        v = v * 10 + u64::from(*c - b'0');
    }
    Some(v)
}
