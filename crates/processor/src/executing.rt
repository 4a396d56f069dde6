// What an instruction does to registers, program counter and memory.
ghost use Rattle.std.specs.Prelude.{◌≡◌, ℕ, ◌+◌, ◌-◌, ◌*◌, ◌/◌, ◌%◌, ◌^◌, ◌<◌, ◌≤◌};
ghost use Rattle.processor.specs.Decode.{Regs};
ghost use Rattle.processor.specs.Instr.{by_alu, by_prod, by_cond};
ghost use Rattle.processor.specs.Machine.{less_s, sar};
ghost use Rattle.processor.specs.Promise.{Located, Followed};

use super::cpu::{Cpu, Event, Halt};
use super::instr::{Alu, Cond, Instr, Prod};

// Compared with a sign.
fn less_signed(x: u32, y: u32) -> bool
    ensures { result ≡ less_s x y }
{
    x.cast_signed() < y.cast_signed()
}

// Shifted to the right with the top bit kept.
fn shift_signed(x: u32, n: u32) -> u32
    ensures { result ≡ sar x (n % 32) }
{
    x.cast_signed().wrapping_shr(n).cast_unsigned()
}

impl Alu {
    fn apply(self, x: u32, y: u32) -> u32
        ensures { result ≡ by_alu self x y }
    {
        match self {
            Alu::Add => x.wrapping_add(y),
            Alu::Sub => x.wrapping_sub(y),
            Alu::Sll => x.wrapping_shl(y),
            Alu::Slt => u32::from(less_signed(x, y)),
            Alu::Sltu => u32::from(x < y),
            Alu::Xor => x ^ y,
            Alu::Srl => x.wrapping_shr(y),
            Alu::Sra => shift_signed(x, y),
            Alu::Or => x | y,
            Alu::And => x & y,
        }
    }
}

impl Prod {
    fn apply(self, x: u32, y: u32) -> u32
        ensures { result ≡ by_prod self x y }
    {
        match self {
            Prod::Mul => x.wrapping_mul(y),
            Prod::Mulhu => ((u64::from(x) * u64::from(y)) >> 32) as u32,
            Prod::Divu => x.checked_div(y).unwrap_or(u32::MAX),
            Prod::Remu => x.checked_rem(y).unwrap_or(x),
        }
    }
}

impl Cond {
    fn holds(self, x: u32, y: u32) -> bool
        ensures { result ≡ by_cond self x y }
    {
        match self {
            Cond::Beq => x == y,
            Cond::Bne => x != y,
            Cond::Blt => less_signed(x, y),
            Cond::Bge => !less_signed(x, y),
            Cond::Bltu => x < y,
            Cond::Bgeu => x >= y,
        }
    }
}

// The place of an address in a memory of `len` words.
pub fn locate(len: usize, a: u32) -> Option<usize>
    ensures { Located len a result }
{
    let i = (a / 4) as usize;
    (a % 4 == 0 && i < len).then_some(i)
}

impl Cpu {
    // What an instruction does; its registers are below 32, as those of a decoded one are.
    pub fn execute(&mut self, i: Instr, mem: &mut [u32]) -> Event
        requires { Regs i }
        ensures { Followed i self.old mem.old result self.new mem.new }
    {
        match i {
            Instr::Lui(rd, n) => {
                self.finish(rd, n << 12);
                Event::Goes
            }
            Instr::Auipc(rd, n) => {
                let x = self.pc.wrapping_add(n << 12);
                self.finish(rd, x);
                Event::Goes
            }
            Instr::Jal(rd, x) => {
                let a = self.pc.wrapping_add(x);
                self.jump(rd, a);
                Event::Goes
            }
            Instr::Jalr(rd, r1, x) => {
                let a = self.get(r1).wrapping_add(x) / 2 * 2;
                self.jump(rd, a);
                Event::Goes
            }
            Instr::Branch(c, r1, r2, x) => {
                let far = if c.holds(self.get(r1), self.get(r2)) {
                    x
                } else {
                    4
                };
                self.pc = self.pc.wrapping_add(far);
                Event::Goes
            }
            Instr::Lw(rd, r1, x) => {
                let a = self.get(r1).wrapping_add(x);
                let Some(k) = locate(mem.len(), a) else {
                    return Event::Halts(Halt::Fault);
                };
                self.finish(rd, mem[k]);
                Event::Goes
            }
            Instr::Sw(r1, r2, x) => {
                let a = self.get(r1).wrapping_add(x);
                let Some(k) = locate(mem.len(), a) else {
                    return Event::Halts(Halt::Fault);
                };
                mem[k] = self.get(r2);
                self.pc = self.pc.wrapping_add(4);
                Event::Goes
            }
            Instr::OpImm(f, rd, r1, x) => {
                let y = Alu::from(f).apply(self.get(r1), x);
                self.finish(rd, y);
                Event::Goes
            }
            Instr::OpShift(f, rd, r1, n) => {
                let y = Alu::from(f).apply(self.get(r1), n);
                self.finish(rd, y);
                Event::Goes
            }
            Instr::Op(f, rd, r1, r2) => {
                let y = f.apply(self.get(r1), self.get(r2));
                self.finish(rd, y);
                Event::Goes
            }
            Instr::OpProd(f, rd, r1, r2) => {
                let y = f.apply(self.get(r1), self.get(r2));
                self.finish(rd, y);
                Event::Goes
            }
            // calls by the numbers that images put into register 17
            Instr::Ecall => match self.get(17) {
                0 => Event::Halts(Halt::End(self.get(10))),
                1 => {
                    self.pc = self.pc.wrapping_add(4);
                    Event::Out(self.get(10))
                }
                2 => Event::In,
                3 => Event::Halts(Halt::Trap(self.get(10))),
                4 => Event::Halts(Halt::NoRoom),
                _ => Event::Halts(Halt::Fault),
            },
        }
    }
}
