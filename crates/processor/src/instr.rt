// Instructions as data: registers by their numbers in the manual's order (rd, rs1, rs2), numbers as 32-bit words. An operation's
// number is its bits in a word: field 3, and field 7 above it where the operation has that field.
ghost use Rattle.processor.specs.Decode.{ReadsBack};
ghost use Rattle.processor.specs.Instr.{cond3, imm3, shift3, shift7, alu3, alu7, prod3, by_alu, by_imm, by_shift};
ghost use Rattle.std.specs.Prelude.{◌≡◌, ℕ, ◌+◌, ◌*◌, ◌<◌};

use std::error::Error;
use std::fmt;

// Which branch is taken.
#[derive(Clone, Copy, Debug, PartialEq, Eq)]
pub enum Cond {
    Beq = 0,
    Bne = 1,
    Blt = 4,
    Bge = 5,
    Bltu = 6,
    Bgeu = 7,
}

// Operations with a number of 12 bits.
#[derive(Clone, Copy, Debug, PartialEq, Eq)]
pub enum Imm {
    Addi = 0,
    Slti = 2,
    Sltiu = 3,
    Xori = 4,
    Ori = 6,
    Andi = 7,
}

// Shifts by a number.
#[derive(Clone, Copy, Debug, PartialEq, Eq)]
pub enum Shift {
    Slli = 1,
    Srli = 5,
    Srai = 0x105,
}

// Operations on two registers.
#[derive(Clone, Copy, Debug, PartialEq, Eq)]
pub enum Alu {
    Add = 0,
    Sub = 0x100,
    Sll = 1,
    Slt = 2,
    Sltu = 3,
    Xor = 4,
    Srl = 5,
    Sra = 0x105,
    Or = 6,
    And = 7,
}

// Multiplication and division, without a sign.
#[derive(Clone, Copy, Debug, PartialEq, Eq)]
pub enum Prod {
    Mul = 8,
    Mulhu = 11,
    Divu = 13,
    Remu = 15,
}

#[derive(Clone, Copy, Debug, PartialEq, Eq)]
pub enum Instr {
    Lui(u32, u32),
    Auipc(u32, u32),
    Jal(u32, u32),
    Jalr(u32, u32, u32),
    Branch(Cond, u32, u32, u32),
    Lw(u32, u32, u32),
    Sw(u32, u32, u32),
    OpImm(Imm, u32, u32, u32),
    OpShift(Shift, u32, u32, u32),
    Op(Alu, u32, u32, u32),
    OpProd(Prod, u32, u32, u32),
    Ecall,
}

// Bits that the manual keeps free: no operation has them.
#[derive(Clone, Copy, Debug, PartialEq, Eq)]
pub struct KeptFree;

impl fmt::Display for KeptFree {
    fn fmt<W: fmt::Write>(&self, f: &mut fmt::Formatter<W>) -> fmt::Result {
        f.write_str("no operation has these bits")
    }
}

impl Error for KeptFree {}

impl TryFrom<u32> for Cond {
    type Error = KeptFree;

    ghost try_from_gives = { ReadsBack cond3 };

    fn try_from(bits: u32) -> Result<Self, KeptFree> {
        match bits {
            0 => Ok(Cond::Beq),
            1 => Ok(Cond::Bne),
            4 => Ok(Cond::Blt),
            5 => Ok(Cond::Bge),
            6 => Ok(Cond::Bltu),
            7 => Ok(Cond::Bgeu),
            _ => Err(KeptFree),
        }
    }
}

impl TryFrom<u32> for Imm {
    type Error = KeptFree;

    ghost try_from_gives = { ReadsBack imm3 };

    fn try_from(bits: u32) -> Result<Self, KeptFree> {
        match bits {
            0 => Ok(Imm::Addi),
            2 => Ok(Imm::Slti),
            3 => Ok(Imm::Sltiu),
            4 => Ok(Imm::Xori),
            6 => Ok(Imm::Ori),
            7 => Ok(Imm::Andi),
            _ => Err(KeptFree),
        }
    }
}

impl TryFrom<u32> for Shift {
    type Error = KeptFree;

    ghost try_from_gives = { ReadsBack (λ f. shift7 f * 8 + shift3 f) };

    fn try_from(bits: u32) -> Result<Self, KeptFree> {
        match bits {
            1 => Ok(Shift::Slli),
            5 => Ok(Shift::Srli),
            0x105 => Ok(Shift::Srai),
            _ => Err(KeptFree),
        }
    }
}

impl TryFrom<u32> for Alu {
    type Error = KeptFree;

    ghost try_from_gives = { ReadsBack (λ f. alu7 f * 8 + alu3 f) };

    fn try_from(bits: u32) -> Result<Self, KeptFree> {
        match bits {
            0 => Ok(Alu::Add),
            0x100 => Ok(Alu::Sub),
            1 => Ok(Alu::Sll),
            2 => Ok(Alu::Slt),
            3 => Ok(Alu::Sltu),
            4 => Ok(Alu::Xor),
            5 => Ok(Alu::Srl),
            0x105 => Ok(Alu::Sra),
            6 => Ok(Alu::Or),
            7 => Ok(Alu::And),
            _ => Err(KeptFree),
        }
    }
}

impl TryFrom<u32> for Prod {
    type Error = KeptFree;

    ghost try_from_gives = { ReadsBack (λ f. 8 + prod3 f) };

    fn try_from(bits: u32) -> Result<Self, KeptFree> {
        match bits {
            8 => Ok(Prod::Mul),
            11 => Ok(Prod::Mulhu),
            13 => Ok(Prod::Divu),
            15 => Ok(Prod::Remu),
            _ => Err(KeptFree),
        }
    }
}

// The same operation, on two registers.
impl From<Imm> for Alu {
    ghost from_gives = { λ f g. (x y : ℕ) → by_alu g x y ≡ by_imm f x y };

    fn from(f: Imm) -> Self {
        match f {
            Imm::Addi => Alu::Add,
            Imm::Slti => Alu::Slt,
            Imm::Sltiu => Alu::Sltu,
            Imm::Xori => Alu::Xor,
            Imm::Ori => Alu::Or,
            Imm::Andi => Alu::And,
        }
    }
}

impl From<Shift> for Alu {
    ghost from_gives = { λ f g. (x n : ℕ) → n < 32 → by_alu g x n ≡ by_shift f x n };

    fn from(f: Shift) -> Self {
        match f {
            Shift::Slli => Alu::Sll,
            Shift::Srli => Alu::Srl,
            Shift::Srai => Alu::Sra,
        }
    }
}
