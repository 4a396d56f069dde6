// Words of 32 bits from bytes, the lowest first.
ghost use Rattle.std.specs.Prelude.{◌≡◌, ℕ, ◌+◌, ◌-◌, ◌*◌, ◌/◌, ◌%◌, ◌<◌, ◌≤◌, [], ◌∷◌, length, IfOk, MatchOption, ◌≢◌};
ghost use Rattle.board.specs.Bytes.{bytes as laid};

use std::alloc::{AllocError, Global};

// The words whose bytes these are; none if the last is not whole.
pub fn words_of_bytes(heap: Global, bytes: &[u8]) -> Result<Option<Vec<u32>>, AllocError>
    ensures { IfOk result (λ o. MatchOption o (length bytes.now % 4 ≢ 0) (λ v. laid v.items ≡ bytes.now)) }
{
    let (whole, rest) = bytes.as_chunks::<4>();
    if !rest.is_empty() {
        return Ok(None);
    }
    let words = whole
        .iter()
        .map(|four| u32::from_le_bytes(*four))
        .collect(heap)?;
    Ok(Some(words))
}

#[cfg(test)]
mod tests {
    use super::*;
    use std::test::Fail;

    #[test]
    fn lowest_byte_first(rt: HostRuntime) -> Result<(), Fail> {
        let words = words_of_bytes(rt.alloc(), &[69, 76, 0, 0, 255, 255, 255, 255])?.ok_or(
            "refused",
        )?;
        assert!(rt; words.as_slice() == [19525, 4294967295].as_slice());
        assert!(rt; words_of_bytes(rt.alloc(), &[1, 2, 3, 4, 5])?.is_none());
        Ok(())
    }
}
