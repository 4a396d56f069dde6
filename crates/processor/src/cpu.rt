// The processor's own state, registers and program counter, and what a step can do beyond it.
ghost use Rattle.std.specs.Prelude.{◌≡◌, ℕ, ◌+◌, ◌-◌, ◌*◌, ◌/◌, ◌%◌, ◌^◌, ◌<◌, ◌≤◌};
ghost use Rattle.processor.specs.Promise.{reg_of, put_cpu, jump_cpu};

use std::fmt;

// Registers, of which 0 is read as 0, and where the next instruction is. Memory is the board's, and lent to each step.
#[derive(Clone, Debug, PartialEq, Eq, Drop)]
pub struct Cpu {
    pub regs: [u32; 32],
    pub pc: u32,
}

// What a step did beyond registers and memory.
#[derive(Clone, Copy, Debug, PartialEq, Eq)]
pub enum Event {
    Goes,
    Out(u32),
    In,
    Halts(Halt),
}

// What no step is made after.
#[derive(Clone, Copy, Debug, PartialEq, Eq)]
pub enum Halt {
    End(u32),
    Trap(u32),
    NoRoom,
    Fault,
}

impl fmt::Display for Halt {
    fn fmt<W: fmt::Write>(&self, f: &mut fmt::Formatter<W>) -> fmt::Result {
        match self {
            Halt::End(word) => write!(f, "end {word}"),
            Halt::Trap(code) => write!(f, "trap {code}"),
            Halt::NoRoom => f.write_str("no room"),
            Halt::Fault => f.write_str("fault"),
        }
    }
}

// `r < 32` stays a clause: an instruction's registers are plain numbers, and `Regs` says it once of all of them.
impl Cpu {
    pub(super) fn get(&self, r: u32) -> u32
        requires { r < 32 }
        ensures { result ≡ reg_of self.now.regs r }
    {
        if r == 0 { 0 } else { self.regs[r as usize] }
    }

    pub(super) fn finish(&mut self, r: u32, x: u32)
        requires { r < 32 }
        ensures { self.new ≡ put_cpu self.old r x }
    {
        self.regs[r as usize] = x;
        self.pc = self.pc.wrapping_add(4);
    }

    pub(super) fn jump(&mut self, r: u32, a: u32)
        requires { r < 32 }
        ensures { self.new ≡ jump_cpu self.old r a }
    {
        self.regs[r as usize] = self.pc.wrapping_add(4);
        self.pc = a;
    }
}
