// Lines of a text.
ghost use Rattle.std.specs.Prelude.{◌≡◌, ◌≢◌, ◌==◌, ◌⊎◌, ℕ, ◌+◌, ◌-◌, ◌<◌, ◌≤◌, length, slice_index, take, count_by, position, unwrap_or};

// The line that a byte stands in, from 1, and where the line starts.
#[derive(Clone, Copy, Debug, PartialEq, Eq)]
pub struct Place {
    pub line: usize,
    pub start: usize,
}

pub fn find_place(text: &[u8], at: usize) -> Place
    ensures line { result.line ≡ 1 + count_by (λ byte. byte == 10) (take at text.now) }
    ensures begins { result.start ≡ 0 ⊎ slice_index text.now (result.start - 1) ≡ 10 }
    ensures unbroken { (k : ℕ) → result.start ≤ k → k < at → k < length text.now → slice_index text.now k ≢ 10 }
    ensures before { result.start ≤ at }
{
    let before = &text[..at.min(text.len())];
    let line = 1 + before.iter().filter(|byte| **byte == b'\n').count();
    let start = before
        .iter()
        .rposition(|byte| *byte == b'\n')
        .map_or(0, |end| end + 1);
    Place { line, start }
}

// Where the end of the line stands.
fn line_end(text: &[u8]) -> Option<usize>
    ensures { result ≡ position (λ byte. byte == 10) text.now }
{
    text.iter().position(|byte| *byte == b'\n')
}

// The bytes of a text up to the end of the line.
pub fn line_from(text: &[u8]) -> &[u8]
    ensures { result.now ≡ take (unwrap_or (position (λ byte. byte == 10) text.now) (length text.now)) text.now }
{
    &text[..line_end(text).unwrap_or(text.len()).min(text.len())]
}
