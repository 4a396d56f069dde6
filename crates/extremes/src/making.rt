// Makes texts of their parts.
use super::texts::{Limit, Numbered, USED};
use std::alloc::{AllocError, Global};

fn add(text: &mut Vec<u8>, part: &[u8], times: usize) -> Result<(), AllocError> {
    for _ in 0..times {
        text.extend_from_slice(part)?;
    }
    Ok(())
}

// A part so many times between a front and a back.
pub fn repeated(
    heap: Global,
    front: &[u8],
    part: &[u8],
    times: usize,
    back: &[u8],
) -> Result<Vec<u8>, AllocError> {
    let mut text = Vec::new(heap);
    text.extend_from_slice(front)?;
    add(&mut text, part, times)?;
    text.extend_from_slice(back)?;
    Ok(text)
}

// A kind of text that grows up to a limit.
pub trait Growing {
    fn name(&self) -> &str;

    // How often its part may stand.
    fn most(&self) -> usize;

    // The text in which its part stands so many times.
    fn text(&self, heap: Global, times: usize) -> Result<Vec<u8>, AllocError>;
}

impl Growing for Limit {
    fn name(&self) -> &str {
        self.name
    }

    fn most(&self) -> usize {
        self.most
    }

    fn text(&self, heap: Global, times: usize) -> Result<Vec<u8>, AllocError> {
        let mut text = repeated(heap, self.front, self.part, times, self.middle)?;
        add(&mut text, self.shut, times)?;
        text.extend_from_slice(self.back)?;
        Ok(text)
    }
}

impl Growing for Numbered {
    fn name(&self) -> &str {
        self.name
    }

    fn most(&self) -> usize {
        self.most
    }

    fn text(&self, heap: Global, times: usize) -> Result<Vec<u8>, AllocError> {
        let mut text = Vec::new(heap);
        text.extend_from_slice(self.front)?;
        for n in 1..times {
            text.extend_from_slice(self.before)?;
            let digits = format!(in heap; "{n}")?;
            text.extend_from_slice(digits.as_bytes())?;
            text.extend_from_slice(self.behind)?;
        }
        text.extend_from_slice(self.back)?;
        Ok(text)
    }
}

pub fn used_text(heap: Global) -> Result<Vec<u8>, AllocError> {
    let mut text = USED.text(heap, USED.most)?;
    add(&mut text, b"+x1399", 3300)?;
    text.extend_from_slice(b";}")?;
    Ok(text)
}
