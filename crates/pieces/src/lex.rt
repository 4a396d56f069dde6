// From bytes to pieces: the first piece of a text, and what is left behind it.
ghost use Rattle.std.specs.Prelude.{◌≡◌, ◌+◌, ◌-◌, ◌<◌, ◌≤◌, true, false, [], ◌∷◌, length, take, drop, slice_index, MatchOption};
ghost use Rattle.grammar.specs.Text.{pieces, gap, word, quoted, word_byte, word_bytes, blank, may_join, joins};
ghost use Rattle.pieces.specs.Cutting.{Starts, Body, Cut};

use super::piece::Piece;

pub fn is_word_byte(c: u8) -> bool
    ensures { result ≡ word_byte c }
{
    matches!(c, b'a'..=b'z' | b'A'..=b'Z' | b'_' | b'0'..=b'9')
}

fn is_blank(c: u8) -> bool
    ensures { result ≡ blank c }
{
    c == b' ' || c == b'\n' || c == b'\r' || c == b'\t'
}

// Whether a second byte may follow as part of the sign.
fn begins_pair(c: u8) -> bool
    ensures { result ≡ may_join c }
{
    matches!(c, b'=' | b'!' | b'<' | b'>' | b'&' | b'|')
}

fn joins_pair(d: u8, c: u8) -> bool
    ensures { result ≡ joins d c }
{
    if c == b'=' {
        d != b'&' && d != b'|'
    } else {
        c == d && d != b'!'
    }
}

// How many bytes stand in front of the first piece: blanks, and notes from # to the end of the line.
fn gap_len(text: &[u8]) -> usize
    ensures within { result ≤ length text.now }
    ensures same { pieces gap text.now ≡ pieces gap (drop result text.now) }
    ensures stops { Starts (drop result text.now) }
{
    let mut noted = false;
    for (n, c) in text.iter().enumerate() {
        if noted {
            noted = *c != b'\n';
        } else if *c == b'#' {
            noted = true;
        } else if !is_blank(*c) {
            return n;
        }
    }
    text.len()
}

// How many bytes of a word stand at the front.
fn word_len(text: &[u8]) -> usize
    requires some { 0 < length text.now }
    requires first { word_byte (slice_index text.now 0) ≡ true }
    ensures some { 0 < result }
    ensures all { word_bytes (take result text.now) ≡ true }
    ensures within { result ≤ length text.now }
    ensures is { pieces (word []) text.now ≡ take result text.now ∷ pieces gap (drop result text.now) }
{
    1 + text[1..].iter().take_while(|c| is_word_byte(**c)).count()
}

// How many bytes stand before the first quote, if there is one.
fn text_len(text: &[u8]) -> Option<usize>
    ensures { MatchOption result (pieces (quoted (34 ∷ [])) text.now ≡ (35 ∷ []) ∷ []) (λ n. (n < length text.now) × (pieces (quoted (34 ∷ [])) text.now ≡ (34 ∷ take n text.now) ∷ pieces gap (drop (n + 1) text.now))) }
{
    text.iter().position(|c| *c == b'"')
}

// The text from its first piece on.
pub fn skip_gap(text: &[u8]) -> &[u8]
    ensures { Body text.now result.now }
{
    let n = gap_len(text);
    &text[n..]
}

// The first piece of a text, and what is left behind it: a pair that callers take apart at once, as all functions here give.
pub fn next_piece<'a>(text: &'a [u8]) -> (Piece<'a>, &'a [u8])
    ensures { Cut text.now result.0 result.1.now }
{
    let body = skip_gap(text);
    let Some((first, rest)) = body.split_first() else {
        return (Piece::End, body);
    };
    let c = *first;
    if c == b'"' {
        let Some(n) = text_len(rest) else {
            return (Piece::Bad, &rest[rest.len()..]);
        };
        let (inner, closed) = rest.split_at(n);
        return (Piece::Text(inner), &closed[1..]);
    }
    if is_word_byte(c) {
        let n = word_len(body);
        let (word, rest) = body.split_at(n);
        return (Piece::Word(word), rest);
    }
    if !begins_pair(c) {
        return (Piece::Sign(c), rest);
    }
    let Some((second, behind)) = rest.split_first() else {
        return (Piece::Sign(c), rest);
    };
    let d = *second;
    if joins_pair(c, d) {
        return (Piece::Pair(c, d), behind);
    }
    (Piece::Sign(c), rest)
}
