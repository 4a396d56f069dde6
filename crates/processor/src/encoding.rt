// Instructions as words: the fields of a word, and `encode`, which puts a word together.
ghost use Rattle.std.specs.Prelude.{◌≡◌, ℕ, ◌+◌, ◌-◌, ◌*◌, ◌/◌, ◌%◌, ◌^◌, ◌<◌, ◌≤◌, Some};
ghost use Rattle.processor.specs.Decode.{decode as decoded, Regs};
ghost use Rattle.processor.specs.Instr.{word as laid, encode as coded, Fit, Wf, Means};

use super::instr::Instr;

// The manual's numbers of the formats, in the lowest seven bits: constants, so that a `match` on them reads as its table.
pub const OP_LUI: u32 = 0x37;

pub const OP_AUIPC: u32 = 0x17;

pub const OP_JAL: u32 = 0x6f;

pub const OP_JALR: u32 = 0x67;

pub const OP_BRANCH: u32 = 0x63;

pub const OP_LOAD: u32 = 0x03;

pub const OP_STORE: u32 = 0x23;

pub const OP_IMM: u32 = 0x13;

pub const OP_REG: u32 = 0x33;

pub const ECALL: u32 = 0x73;

// The bits of `x` from `low` on, `count` of them.
pub fn part(x: u32, low: u32, count: u32) -> u32
    requires { (low < 32) × (count < 32) }
    ensures { result ≡ x / 2 ^ low % 2 ^ count }
{
    (x >> low) & ((1 << count) - 1)
}

// `high` above the `k` bits of `low`.
pub fn above(high: u32, k: u32, low: u32) -> u32
    requires { (k < 32) × ((low < 2 ^ k) × (high * 2 ^ k < 2 ^ 32)) }
    ensures { result ≡ low + high * 2 ^ k }
{
    high << k | low
}

// Six fields, from the lowest, as one word.
fn put_fields(op: u32, rd: u32, f3: u32, r1: u32, r2: u32, f7: u32) -> u32
    requires { Fit op rd f3 r1 r2 f7 }
    ensures { result ≡ laid op rd f3 r1 r2 f7 }
{
    f7 << 25 | r2 << 20 | r1 << 15 | f3 << 12 | rd << 7 | op
}

// The fields of an instruction, one after the other; of a number that does not fit, the bits that there is room for.
pub fn lay_out_parts(i: Instr) -> u32
    requires { Regs i }
    ensures { result ≡ coded i }
{
    match i {
        Instr::Lui(rd, n) => above(above(n, 5, rd), 7, OP_LUI),
        Instr::Auipc(rd, n) => above(above(n, 5, rd), 7, OP_AUIPC),
        Instr::Jal(rd, x) => put_fields(
            OP_JAL,
            rd,
            part(x, 12, 3),
            part(x, 15, 5),
            above(part(x, 1, 4), 1, part(x, 11, 1)),
            above(part(x, 20, 1), 6, part(x, 5, 6)),
        ),
        Instr::Jalr(rd, r1, x) => put_fields(OP_JALR, rd, 0, r1, part(x, 0, 5), part(x, 5, 7)),
        Instr::Branch(c, r1, r2, x) => put_fields(
            OP_BRANCH,
            above(part(x, 1, 4), 1, part(x, 11, 1)),
            c as u32,
            r1,
            r2,
            above(part(x, 12, 1), 6, part(x, 5, 6)),
        ),
        Instr::Lw(rd, r1, x) => put_fields(OP_LOAD, rd, 2, r1, part(x, 0, 5), part(x, 5, 7)),
        Instr::Sw(r1, r2, x) => put_fields(OP_STORE, part(x, 0, 5), 2, r1, r2, part(x, 5, 7)),
        Instr::OpImm(f, rd, r1, x) => put_fields(
            OP_IMM,
            rd,
            f as u32,
            r1,
            part(x, 0, 5),
            part(x, 5, 7),
        ),
        Instr::OpShift(f, rd, r1, n) => {
            let bits = f as u32;
            put_fields(OP_IMM, rd, bits % 8, r1, n, bits / 8)
        }
        Instr::Op(f, rd, r1, r2) => {
            let bits = f as u32;
            put_fields(OP_REG, rd, bits % 8, r1, r2, bits / 8)
        }
        Instr::OpProd(f, rd, r1, r2) => {
            let bits = f as u32;
            put_fields(OP_REG, rd, bits % 8, r1, r2, bits / 8)
        }
        Instr::Ecall => ECALL,
    }
}

// The word of an instruction that fits: registers are below 32, and numbers have as many bits, with a sign, as the instruction
// has room for (12 for loads, stores and arithmetic, 13 for branches, 21 for jumps, both even; 20 without a sign for the
// upper part of a word, 5 for shifts).
pub fn encode(i: Instr) -> u32
    requires { Wf i }
    ensures word { result ≡ coded i }
    ensures means { Means result i }
    ensures back { decoded result ≡ Some i }
{
    lay_out_parts(i)
}
