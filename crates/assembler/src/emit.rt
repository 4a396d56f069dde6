// Writing instructions.
ghost use Rattle.std.specs.Prelude.{◌≡◌, ℕ, suc, ◌<◌, [], ◌∷◌, ◌++◌};
ghost use Rattle.steps.specs.Fits.{Each};
ghost use Rattle.processor.specs.Decode.{Regs};
ghost use Rattle.lower.specs.Code.{rel, off};
ghost use Rattle.lower.specs.Lower.{number as numbered, top, low};
ghost use Rattle.assembler.specs.Emission.{reals, Put};

use crate::code::Code;
use crate::place::{FramePlace, ImagePlace};
use crate::register::STACK;
use processor::instr::{Imm, Instr};
use processor::lay_out_parts;

// A word of the function to a register.
pub fn load(register: u32, place: FramePlace) -> Instr
    requires { register < 32 }
    ensures is { result ≡ Instr.Lw register 2 (off (suc place.0)) }
    ensures regs { Regs result }
{
    Instr::Lw(register, STACK, place.offset())
}

// A register to a word of the function.
pub fn store(register: u32, place: FramePlace) -> Instr
    requires { register < 32 }
    ensures is { result ≡ Instr.Sw 2 register (off (suc place.0)) }
    ensures regs { Regs result }
{
    Instr::Sw(STACK, register, place.offset())
}

// The upper 20 bits of a number, and what is added to them.
pub fn split(n: u32) -> (u32, u32)
    ensures is { result ≡ (top n, low n) }
    ensures fits { result.0 < 1048576 }
{
    let high = n.wrapping_add(2048) >> 12;
    (high, n.wrapping_sub(high << 12))
}

impl Code<'_> {
    // An instruction, if there is room for it.
    pub fn put(&mut self, i: Instr)
        requires { Regs i }
        ensures { Put self.old self.new (i ∷ []) }
    {
        let here = self.here as usize;
        if here < self.words.len() {
            self.words[here] = lay_out_parts(i);
            self.here += 1;
        }
    }

    // Some instructions, one behind another.
    pub fn put_all(&mut self, row: &[Instr])
        requires { Each Regs row.now }
        ensures { Put self.old self.new row.now }
    {
        for i in row {
            self.put(*i);
        }
    }

    // Any number to a register.
    pub fn number(&mut self, register: u32, n: u32)
        requires { register < 32 }
        ensures { Put self.old self.new (reals 0 (numbered register n)) }
    {
        let (high, low) = split(n);
        self.put_all(&[
            Instr::Lui(register, high),
            Instr::OpImm(Imm::Addi, register, register, low),
        ]);
    }

    // A jump; the register keeps where to go on.
    pub fn jump(&mut self, register: u32, to: ImagePlace)
        requires { register < 32 }
        ensures { Put self.old self.new (Instr.Jal register (rel self.old.here to.0) ∷ []) }
    {
        let distance = to.0.wrapping_sub(self.here).wrapping_mul(4);
        self.put(Instr::Jal(register, distance));
    }
}
