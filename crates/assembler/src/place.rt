// Places: of a word in a function's frame, and of an instruction in the image's code.
ghost use Rattle.std.specs.Prelude.{◌≡◌, suc};
ghost use Rattle.lower.specs.Code.{off};

// A word of the function at hand; the frame's first word, where the function returns to, is none of them.
#[derive(Clone, Copy, Debug, PartialEq, Eq)]
pub struct FramePlace(pub u32);

impl FramePlace {
    // How far the word is from register 2.
    pub fn offset(self) -> u32
        ensures { result ≡ off (suc self.0) }
    {
        self.0.wrapping_mul(4).wrapping_add(0xffff_f804)
    }
}

// An instruction, counted from the code's first.
#[derive(Clone, Copy, Debug, PartialEq, Eq)]
pub struct ImagePlace(pub u32);
