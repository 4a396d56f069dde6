// The loader: takes an image's row apart, puts the image into memory, and says how the board is to start it.
#![tactic(auto)]

ghost use Rattle.std.specs.Prelude.{◌≡◌, ◌%◌};
ghost use Rattle.image.specs.Place.{PlacedSays, StartSays, OneImage, OneAnswer, PlacedReady};

mod load;
mod row;

use self::row::read_row;
use std::error::Error;
use std::fmt;

// Where a loaded image begins, and where the stack's part does, as addresses in bytes.
#[derive(Clone, Copy, Debug, PartialEq, Eq)]
pub struct Placed {
    pub entry: u64,
    pub floor: u64,
}

// Why an image was not loaded: its row is that of no sound image, or it passes the stack's part or the memory.
#[derive(Clone, Copy, Debug, PartialEq, Eq)]
pub enum Refusal {
    NoImage,
    TooLarge,
}

impl fmt::Display for Refusal {
    fn fmt<W: fmt::Write>(&self, f: &mut fmt::Formatter<W>) -> fmt::Result {
        f.write_str(match self {
            Refusal::NoImage => "no image",
            Refusal::TooLarge => "too large",
        })
    }
}

impl Error for Refusal {}

// What the board is given besides the memory: its program counter, register 2 (the end of the stack's part) and register 3 (where that part begins).
#[derive(Clone, Copy, Debug, PartialEq, Eq)]
pub struct Start {
    pub pc: u32,
    pub stack: u32,
    pub floor: u32,
}

// Loads an image at word `at`, with the stack's part up to word `top`; or says why not, and writes nothing.
pub fn place(image: &[u32], at: u32, top: u32, memory: &mut [u32]) -> Result<Placed, Refusal>
    ensures { PlacedSays image.now at top memory.old memory.new result }
{
    let parts = read_row(image).ok_or(Refusal::NoImage)?;
    let start = at as usize;
    let end = start + parts.body.len() + parts.noughts;
    if end > top as usize || top as usize > memory.len() {
        return Err(Refusal::TooLarge);
    }
    parts.write(&mut memory[start..end], at.wrapping_mul(4));
    Ok(Placed {
        entry: 4 * (start + parts.entry) as u64,
        floor: 4 * end as u64,
    })
}

impl Placed {
    // How the board starts the image, with the same word `top` as it was placed with.
    pub fn start(self, top: u32) -> Start
        ensures says { StartSays self top result }
        ensures ready { PlacedReady }
    {
        Start {
            pc: low_word(self.entry),
            stack: top.wrapping_mul(4),
            floor: low_word(self.floor),
        }
    }
}

// A number modulo 2^32: `as` alone takes only a number that fits.
fn low_word(number: u64) -> u32
    ensures { result ≡ number % 4294967296 }
{
    (number % 4294967296) as u32
}

// A row is that of one image, and `place` can answer in one way only; the function says that this is proved.
pub fn one_answer() -> bool
    ensures image { OneImage }
    ensures answer { OneAnswer }
{
    true
}

#[cfg(test)]
mod tests {
    use super::*;

    // Three body words, the last of them named twice and before the first, and two noughts.
    const SMALL: [u32; 11] = [19525, 3, 2, 1, 3, 10, 20, 4294967295, 2, 0, 2];

    fn placed(entry: u64, floor: u64) -> Result<Placed, Refusal> {
        Ok(Placed { entry, floor })
    }

    #[test]
    fn loads(rt: HostRuntime) {
        let mut memory = [7; 9];
        assert_eq!(rt; place(&SMALL, 0, 9, &mut memory), placed(4, 20));
        assert!(rt; memory == [10, 20, 4294967295, 0, 0, 7, 7, 7, 7]);
        memory = [7; 9];
        assert_eq!(rt; place(&SMALL, 1, 8, &mut memory), placed(8, 24));
        assert!(rt; memory == [7, 14, 20, 7, 0, 0, 7, 7, 7]);
        // with nothing over
        memory = [7; 9];
        assert_eq!(rt; place(&SMALL, 4, 9, &mut memory), placed(20, 36));
        assert!(rt; memory == [7, 7, 7, 7, 26, 20, 31, 0, 0]);
    }

    fn no_image(row: &[u32]) -> bool {
        let mut memory = [7; 9];
        place(row, 0, 9, &mut memory) == Err(Refusal::NoImage) && memory == [7; 9]
    }

    #[test]
    fn refuses_rows(rt: HostRuntime) {
        assert!(rt; no_image(&[19524, 1, 0, 0, 0, 10]));
        assert!(rt; no_image(&[]));
        assert!(rt; no_image(&SMALL[..4]));
        assert!(rt; no_image(&SMALL[..10]));
        assert!(rt; no_image(&[19525, 1, 0, 0, 0, 10, 0]));
        assert!(rt; no_image(&[19525, 1, 0, 1, 0, 10]));
        assert!(rt; no_image(&[19525, 1, 0, 0, 1, 10, 1]));
        assert!(rt; no_image(&[19525, 0, 0, 0, 0]));
    }

    fn too_large(row: &[u32], at: u32, top: u32) -> bool {
        let mut memory = [7; 9];
        place(row, at, top, &mut memory) == Err(Refusal::TooLarge) && memory == [7; 9]
    }

    #[test]
    fn refuses_places(rt: HostRuntime) {
        assert!(rt; too_large(&SMALL, 0, 4));
        assert!(rt; too_large(&SMALL, 5, 9));
        assert!(rt; too_large(&SMALL, 0, 10));
        assert!(rt; too_large(&SMALL, 1073741824, 9));
        assert!(rt; too_large(&SMALL, 4294967295, 4294967295));
        // the sum of all is above 2^33 - 2
        assert!(rt; too_large(&[19525, 1, 4294967295, 0, 0, 10], 4294967295, 9));
    }

    #[test]
    fn starts(rt: HostRuntime) {
        let first = Placed {
            entry: 8,
            floor: 24,
        }
        .start(9);
        assert_eq!(rt;
            first,
            Start {
                pc: 8,
                stack: 36,
                floor: 24
            }
        );
        // the memory's end, at 2^32 bytes
        let last = Placed {
            entry: 4294967292,
            floor: 4294967296,
        }
        .start(1073741824);
        assert_eq!(rt;
            last,
            Start {
                pc: 4294967292,
                stack: 0,
                floor: 0
            }
        );
    }
}
