// Decimal numbers in text: one for an option, many for the words that there are to read.
ghost use Rattle.std.specs.Prelude.{◌≡◌, ℕ, ◌+◌, ◌-◌, ◌*◌, ◌<◌, ◌≤◌, IfOk, Some, None, MatchOption};
ghost use Rattle.board.specs.Numbers.{number, blank, more, numbers as listed};

use std::alloc::{AllocError, Global};

// One more byte behind a number: a digit, and still a word.
fn push_digit(value: u32, b: u8) -> Option<u32>
    ensures { result ≡ more value b }
{
    let digit = char::from(b).to_digit(10)?;
    // in 64 bits, so that one test says whether it is too large: `checked_mul` and `checked_add` are two
    u32::try_from(u64::from(value) * 10 + u64::from(digit)).ok()
}

// The word that a text is the number of, in digits alone.
pub fn parse_number(text: &[u8]) -> Option<u32>
    ensures { result ≡ number text.now }
{
    if text.is_empty() {
        return None;
    }
    let mut value = 0;
    for b in text {
        value = push_digit(value, *b)?;
    }
    Some(value)
}

fn is_blank(b: u8) -> bool
    ensures { result ≡ blank b }
{
    // not `matches!`: LLVM makes one mask of this, and several tests of that
    b == b' ' || b == b'\t' || b == b'\n' || b == b'\r'
}

// The numbers of a text with blanks and ends of lines between them; none if anything else stands there.
pub fn read_words(heap: Global, text: &[u8]) -> Result<Option<Vec<u32>>, AllocError>
    ensures { IfOk result (λ o. MatchOption o (listed None text.now ≡ None) (λ v. listed None text.now ≡ Some v.items)) }
{
    let mut words = Vec::new(heap);
    let mut begun: Option<u32> = None;
    // not `split`: each byte is gone over once, and the first wrong one ends it
    for b in text {
        if is_blank(*b) {
            if let Some(n) = begun.take() {
                words.push(n)?;
            }
        } else {
            let Some(n) = push_digit(begun.unwrap_or(0), *b) else {
                return Ok(None);
            };
            begun = Some(n);
        }
    }
    if let Some(n) = begun {
        words.push(n)?;
    }
    Ok(Some(words))
}

#[cfg(test)]
mod tests {
    use super::*;
    use std::test::Fail;

    #[test]
    fn reads_one_number(rt: HostRuntime) {
        assert_eq!(rt; parse_number(b"0"), Some(0));
        assert_eq!(rt; parse_number(b"007"), Some(7));
        assert_eq!(rt; parse_number(b"4294967295"), Some(4294967295));
        assert_eq!(rt; parse_number(b"4294967296"), None);
        assert_eq!(rt; parse_number(b"99999999999999999999999"), None);
        assert_eq!(rt; parse_number(b""), None);
        assert_eq!(rt; parse_number(b"-1"), None);
        assert_eq!(rt; parse_number(b"1 "), None);
    }

    #[test]
    fn reads_many_numbers(rt: HostRuntime) -> Result<(), Fail> {
        let none = read_words(rt.alloc(), b" \n\t")?.ok_or("refused")?;
        assert_eq!(rt; none.len(), 0);
        let three = read_words(rt.alloc(), b"1 22\r\n 4294967295")?.ok_or("refused")?;
        assert!(rt; three.as_slice() == [1, 22, 4294967295].as_slice());
        assert!(rt; read_words(rt.alloc(), b"1 4294967296")?.is_none());
        assert!(rt; read_words(rt.alloc(), b"1,2")?.is_none());
        Ok(())
    }
}
