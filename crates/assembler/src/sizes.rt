// How many instructions a step has, and a function's beginning.
ghost use Rattle.std.specs.Prelude.{◌≡◌, ◌<◌, ◌≤◌, true, length};
ghost use Rattle.language.specs.Words.{all};
ghost use Rattle.steps.specs.Steps.{MFn, MProg};
ghost use Rattle.lower.specs.Lower.{ops, ops1, width as wide, pro_width};
ghost use Rattle.lower.specs.Core.{core_step};
ghost use Rattle.middle.specs.Steps.{seen};
ghost use Rattle.assembler.specs.Operators.{two, one};
ghost use Rattle.assembler.specs.Frames.{routine};

use crate::function::Function;
use crate::operator::{One, Two};
use middle::step::Step;

// So many words are passed at most.
pub const PASSED: u32 = 8;

impl Two {
    fn width(self) -> u32
        ensures { result ≡ length (ops 0 (two self)) }
    {
        match self {
            Two::Div | Two::Rem => 5,
            Two::Ne | Two::Shl | Two::Shr => 3,
            Two::Eq | Two::Le | Two::Ge => 2,
            Two::Add | Two::Sub | Two::Mul | Two::Lt | Two::Gt | Two::And | Two::Or | Two::Xor => 1,
        }
    }
}

impl One {
    fn width(self) -> u32
        ensures { result ≡ length (ops1 (one self)) }
    {
        match self {
            One::Neg | One::Inv | One::Flag => 2,
            One::Not => 1,
        }
    }
}

pub fn width(step: Step) -> u32
    ensures { (m : MProg) (f : MFn) → core_step (seen step) ≡ true → result ≡ wide m f (seen step) }
{
    match step {
        Step::Num(..) | Step::JumpZero(..) | Step::Out(_) => 3,
        Step::Copy(..) => 2,
        Step::Bin(o, ..) => Two::from(o).width() + 3,
        Step::Un(o, ..) => One::from(o).width() + 2,
        Step::Flag(..) | Step::GetWord(..) | Step::SetWord(..) => 4,
        Step::Jump(_) => 1,
        Step::Call(.., n) => n.min(PASSED) + 2,
        Step::Ret(_) => 6,
    }
}

impl Function<'_> {
    // How many instructions its beginning has.
    pub fn entering_width(self) -> u32
        ensures { self.entry.params ≤ 8 → pro_width (routine self.entry) < all → result ≡ pro_width (routine self.entry) }
    {
        self.vars.saturating_add(self.params.min(PASSED) + 10)
    }
}
