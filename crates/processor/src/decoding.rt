// Words as instructions: the numbers with a sign that stand in a word's fields, and `decode`.
ghost use Rattle.std.specs.Prelude.{◌≡◌, ℕ, ◌+◌, ◌-◌, ◌*◌, ◌/◌, ◌%◌, ◌^◌, ◌<◌, ◌≤◌};
ghost use Rattle.processor.specs.Decode.{decode as decoded, Known};
ghost use Rattle.processor.specs.Machine.{imm_i_of, imm_s_of, imm_b_of, imm_j_of};
ghost use Rattle.language.specs.Words.{signed};

use super::encoding::{
    ECALL, OP_AUIPC, OP_BRANCH, OP_IMM, OP_JAL, OP_JALR, OP_LOAD, OP_LUI, OP_REG, OP_STORE, above,
    part,
};
use super::instr::{Alu, Cond, Imm, Instr, KeptFree, Prod, Shift};

// `n` bits with a sign, as 32; the library has no integers of such widths.
fn extend(x: u32, n: u32) -> u32
    requires { (0 < n) × ((n < 32) × (x < 2 ^ n)) }
    ensures { result ≡ signed n x }
{
    if x < 1 << (n - 1) {
        x
    } else {
        x.wrapping_sub(1 << n)
    }
}

fn imm_i(w: u32) -> u32
    ensures { result ≡ imm_i_of w }
{
    extend(w >> 20, 12)
}

fn imm_s(w: u32) -> u32
    ensures { result ≡ imm_s_of w }
{
    extend(above(w >> 25, 5, part(w, 7, 5)), 12)
}

fn imm_b(w: u32) -> u32
    ensures { result ≡ imm_b_of w }
{
    let low = above(part(w, 25, 6), 5, part(w, 8, 4) << 1);
    extend(above(above(w >> 31, 1, part(w, 7, 1)), 11, low), 13)
}

fn imm_j(w: u32) -> u32
    ensures { result ≡ imm_j_of w }
{
    let low = above(part(w, 20, 1), 11, part(w, 21, 10) << 1);
    extend(above(above(w >> 31, 8, part(w, 12, 8)), 12, low), 21)
}

// The instruction that a word is.
pub fn decode(w: u32) -> Option<Instr>
    ensures { (result ≡ decoded w) × (Known result) }
{
    let rd = part(w, 7, 5);
    let f3 = part(w, 12, 3);
    let r1 = part(w, 15, 5);
    let r2 = part(w, 20, 5);
    let f7 = w >> 25;
    let bits = above(f7, 3, f3);
    match part(w, 0, 7) {
        OP_LUI => Some(Instr::Lui(rd, w >> 12)),
        OP_AUIPC => Some(Instr::Auipc(rd, w >> 12)),
        OP_JAL => Some(Instr::Jal(rd, imm_j(w))),
        OP_JALR => (f3 == 0).then_some(Instr::Jalr(rd, r1, imm_i(w))),
        OP_BRANCH => Some(Instr::Branch(Cond::try_from(f3).ok()?, r1, r2, imm_b(w))),
        OP_LOAD => (f3 == 2).then_some(Instr::Lw(rd, r1, imm_i(w))),
        OP_STORE => (f3 == 2).then_some(Instr::Sw(r1, r2, imm_s(w))),
        OP_IMM => match Imm::try_from(f3) {
            Ok(f) => Some(Instr::OpImm(f, rd, r1, imm_i(w))),
            Err(KeptFree) => Some(Instr::OpShift(Shift::try_from(bits).ok()?, rd, r1, r2)),
        },
        OP_REG => {
            if f7 == 1 {
                Some(Instr::OpProd(Prod::try_from(bits).ok()?, rd, r1, r2))
            } else {
                Some(Instr::Op(Alu::try_from(bits).ok()?, rd, r1, r2))
            }
        }
        _ => (w == ECALL).then_some(Instr::Ecall),
    }
}
