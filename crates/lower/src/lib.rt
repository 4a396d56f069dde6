// From programs to images: the theory of the compiler. What is promised stands in specs/Promise, the compiler as a definition in
// specs/Lower, what `build` gives in specs/Build. The theorems stand on the contracts below; each function only says that its theorem is proved.
#![tactic(auto)]

ghost use Rattle.lower.specs.Correct.{CompiledRight, CompiledSound, CompiledFits, CompiledShort, BareRight};
ghost use Rattle.lower.specs.Build.{BuildsRight};
ghost use Rattle.lower.specs.Samples.{Worked};

use std::error::Error;
use std::fmt;

// Why no image was built: there is no room for it, the program is of a stage that can't be built yet, the text is none, or there are too few
// work words.
#[derive(Clone, Copy, Debug, PartialEq, Eq)]
pub enum Unbuilt {
    ImageFull,
    NotYet(u32),
    NoProgram,
    Few,
}

impl fmt::Display for Unbuilt {
    fn fmt<W: fmt::Write>(&self, f: &mut fmt::Formatter<W>) -> fmt::Result {
        match self {
            Unbuilt::ImageFull => f.write_str("image full"),
            Unbuilt::NotYet(stage) => write!(f, "not yet {}", stage),
            Unbuilt::NoProgram => f.write_str("no program"),
            Unbuilt::Few => f.write_str("few"),
        }
    }
}

impl Error for Unbuilt {}

// Wherever it is loaded, the image of a text's program does what the program means: for the stages that are built.
pub fn images_do_what_is_meant() -> bool
    ensures { CompiledRight }
{
    true
}

// The same for programs of every stage whose functions have no arrays.
pub fn bare_images_do_what_is_meant() -> bool
    ensures { BareRight }
{
    true
}

// Every compiled image is one that the loader takes.
pub fn images_are_sound() -> bool
    ensures { CompiledSound }
{
    true
}

// An image is no longer than is promised for its text, and has no more noughts.
pub fn images_fit() -> bool
    ensures { CompiledFits }
{
    true
}

// All code of a text's program is in reach of a jump.
pub fn code_is_in_reach() -> bool
    ensures { CompiledShort }
{
    true
}

// A build that gives what specs/Build says keeps the whole promise of the call.
pub fn builds_keep_the_promise() -> bool
    ensures { BuildsRight }
{
    true
}

// Programs compiled, placed and run by the definitions.
pub fn worked_images() -> bool
    ensures { Worked }
{
    true
}
