// A step of the middle language, and the five words that it is in a row.
ghost use Rattle.std.specs.Prelude.{◌≡◌, slice_index};
ghost use Rattle.generator.specs.StepRows.{step_words};
ghost use Rattle.middle.specs.Steps.{seen, decoded};

use std::error::Error;
use std::fmt;

// A step of the middle language, as far as stage 0 has them. Places are numbers of the function's words; targets are numbers of its steps.
#[derive(Clone, Copy, Debug, PartialEq, Eq)]
pub enum Step {
    // a number to a place
    Num(u32, u32),
    // to a place from another
    Copy(u32, u32),
    // operator, to a place, from two
    Bin(u32, u32, u32, u32),
    Un(u32, u32, u32),
    // 1 where the place holds no 0
    Flag(u32, u32),
    // to a place from a word at the top, and back
    GetWord(u32, u32),
    SetWord(u32, u32),
    Jump(u32),
    // a place and a target
    JumpZero(u32, u32),
    // the result's place, the function, the first of the arguments' places, how many
    Call(u32, u32, u32, u32),
    Out(u32),
    Ret(u32),
}

// The tags of the two steps whose third word is a target.
pub const JUMP: u32 = 7;

pub const JUMP_ZERO: u32 = 8;

// A tag that no step of stage 0 has.
#[derive(Clone, Copy, Debug, PartialEq, Eq)]
pub struct UnknownStep(pub u32);

impl fmt::Display for UnknownStep {
    fn fmt<W: fmt::Write>(&self, f: &mut fmt::Formatter<W>) -> fmt::Result {
        write!(f, "no step has the tag {}", self.0)
    }
}

impl Error for UnknownStep {}

impl From<Step> for [u32; 5] {
    ghost from_gives = { λ step words. words ≡ step_words (seen step) };

    fn from(step: Step) -> [u32; 5] {
        match step {
            Step::Num(d, n) => [0, d, n, 0, 0],
            Step::Copy(d, a) => [1, d, a, 0, 0],
            Step::Bin(o, d, a, b) => [2, o, d, a, b],
            Step::Un(o, d, a) => [3, o, d, a, 0],
            Step::Flag(d, a) => [4, d, a, 0, 0],
            Step::GetWord(d, i) => [5, d, i, 0, 0],
            Step::SetWord(i, a) => [6, i, a, 0, 0],
            Step::Jump(t) => [JUMP, 0, t, 0, 0],
            Step::JumpZero(a, t) => [JUMP_ZERO, a, t, 0, 0],
            Step::Call(d, f, k, n) => [9, d, f, k, n],
            Step::Out(a) => [10, a, 0, 0, 0],
            Step::Ret(a) => [11, a, 0, 0, 0],
        }
    }
}

impl TryFrom<[u32; 5]> for Step {
    type Error = UnknownStep;

    ghost try_from_gives = { λ words result. result ≡ decoded (slice_index words 0) (slice_index words 1) (slice_index words 2) (slice_index words 3) (slice_index words 4) };

    fn try_from(words: [u32; 5]) -> Result<Step, UnknownStep> {
        let [tag, w, x, y, z] = words;
        match tag {
            0 => Ok(Step::Num(w, x)),
            1 => Ok(Step::Copy(w, x)),
            2 => Ok(Step::Bin(w, x, y, z)),
            3 => Ok(Step::Un(w, x, y)),
            4 => Ok(Step::Flag(w, x)),
            5 => Ok(Step::GetWord(w, x)),
            6 => Ok(Step::SetWord(w, x)),
            JUMP => Ok(Step::Jump(x)),
            JUMP_ZERO => Ok(Step::JumpZero(w, x)),
            9 => Ok(Step::Call(w, x, y, z)),
            10 => Ok(Step::Out(w)),
            11 => Ok(Step::Ret(w)),
            12..=u32::MAX => Err(UnknownStep(tag)),
        }
    }
}
