// The instructions of a step, of a function's beginning, and of the program's.
ghost use Rattle.std.specs.Prelude.{◌≡◌, ℕ, suc, ◌+◌, ◌*◌, ◌<◌, ◌≤◌, min, true, [], ◌∷◌, ◌++◌};
ghost use Rattle.language.specs.Words.{all};
ghost use Rattle.lower.specs.Code.{rel, off, l_lw, l_sw, l_num, l_alui, l_upr, l_jal, l_lwr, l_swr, l_ecall};
ghost use Rattle.lower.specs.Lower.{ops, ops1, number as numbered, near_floor, low, loads, stores, prologue, lower, stub};
ghost use Rattle.lower.specs.Core.{core_step};
ghost use Rattle.middle.specs.Steps.{seen};
ghost use Rattle.assembler.specs.Operators.{two as two_seen, one as one_seen};
ghost use Rattle.assembler.specs.Emission.{reals, Put};
ghost use Rattle.assembler.specs.Frames.{bare, routine, entry_at, step_place};

use crate::code::Code;
use crate::emit::{load, split, store};
use crate::frame::Frame;
use crate::function::Function;
use crate::operator::{One, Two};
use crate::place::{FramePlace, ImagePlace};
use crate::register::{ARGUMENT, CALL, FLOOR, LEFT, RESULT, RETURN, RIGHT, STACK, WITHIN};
use crate::sizes::PASSED;
use middle::step::Step;
use processor::instr::{Alu, Cond, Imm, Instr, Prod};

// Environment calls: the program's end, a word that is put out, a trap, and that there is no room.
const END: u32 = 0;

const OUT: u32 = 1;

const TRAP: u32 = 3;

const NO_ROOM: u32 = 4;

// The trap of a division by nought.
const BY_NOUGHT: u32 = 2;

// 2,048 bytes below register 2: the frame's first word, where the function returns to.
const FRAME: u32 = 0xffff_f800;

// A small number to a register.
fn small(register: u32, n: u32) -> Instr
    ensures { result ≡ Instr.OpImm Imm.Addi register 0 n }
{
    Instr::OpImm(Imm::Addi, register, 0, n)
}

impl Code<'_> {
    // Register 7 from 5 and 6; a trap where 6 is 0.
    fn divide(&mut self, f: Prod)
        ensures { Put self.old self.new (Instr.Branch Cond.Bne 6 0 16 ∷ Instr.OpImm Imm.Addi 10 0 2 ∷ Instr.OpImm Imm.Addi 17 0 3 ∷ Instr.Ecall ∷ Instr.OpProd f 7 5 6 ∷ []) }
    {
        self.put_all(&[
            Instr::Branch(Cond::Bne, RIGHT, 0, 16),
            small(ARGUMENT, BY_NOUGHT),
            small(CALL, TRAP),
            Instr::Ecall,
            Instr::OpProd(f, RESULT, LEFT, RIGHT),
        ]);
    }

    fn two(&mut self, o: Two)
        ensures { Put self.old self.new (reals 0 (ops 0 (two_seen o))) }
    {
        let sub = Instr::Op(Alu::Sub, RESULT, LEFT, RIGHT);
        let less = Instr::Op(Alu::Sltu, RESULT, LEFT, RIGHT);
        let more = Instr::Op(Alu::Sltu, RESULT, RIGHT, LEFT);
        let turn = Instr::OpImm(Imm::Xori, RESULT, RESULT, 1);
        let nought = Instr::OpImm(Imm::Sltiu, RESULT, RESULT, 1);
        let within = Instr::OpImm(Imm::Sltiu, WITHIN, RIGHT, 32);
        let keep = Instr::OpProd(Prod::Mul, RESULT, RESULT, WITHIN);
        match o {
            Two::Add => self.put(Instr::Op(Alu::Add, RESULT, LEFT, RIGHT)),
            Two::Sub => self.put(sub),
            Two::Mul => self.put(Instr::OpProd(Prod::Mul, RESULT, LEFT, RIGHT)),
            Two::Div => self.divide(Prod::Divu),
            Two::Rem => self.divide(Prod::Remu),
            Two::Eq => self.put_all(&[sub, nought]),
            Two::Ne => self.put_all(&[sub, nought, turn]),
            Two::Lt => self.put(less),
            Two::Le => self.put_all(&[more, turn]),
            Two::Gt => self.put(more),
            Two::Ge => self.put_all(&[less, turn]),
            Two::And => self.put(Instr::Op(Alu::And, RESULT, LEFT, RIGHT)),
            Two::Or => self.put(Instr::Op(Alu::Or, RESULT, LEFT, RIGHT)),
            Two::Xor => self.put(Instr::Op(Alu::Xor, RESULT, LEFT, RIGHT)),
            Two::Shl => self.put_all(&[Instr::Op(Alu::Sll, RESULT, LEFT, RIGHT), within, keep]),
            Two::Shr => self.put_all(&[Instr::Op(Alu::Srl, RESULT, LEFT, RIGHT), within, keep]),
        }
    }

    fn one(&mut self, o: One)
        ensures { Put self.old self.new (reals 0 (ops1 (one_seen o))) }
    {
        let nought = Instr::OpImm(Imm::Sltiu, RESULT, LEFT, 1);
        let less = Instr::Op(Alu::Sub, RESULT, RIGHT, LEFT);
        match o {
            One::Neg => self.put_all(&[small(RIGHT, 0), less]),
            One::Not => self.put(nought),
            One::Inv => self.put_all(&[small(RIGHT, u32::MAX), less]),
            One::Flag => self.put_all(&[nought, Instr::OpImm(Imm::Xori, RESULT, RESULT, 1)]),
        }
    }

    fn set_number(&mut self, to: FramePlace, n: u32)
        ensures { Put self.old self.new (reals 0 (numbered 5 n ++ (l_sw 5 (suc to.0) ∷ []))) }
    {
        self.number(LEFT, n);
        self.put(store(LEFT, to));
    }

    fn copy(&mut self, to: FramePlace, from: FramePlace)
        ensures { Put self.old self.new (reals 0 (l_lw 5 (suc from.0) ∷ l_sw 5 (suc to.0) ∷ [])) }
    {
        self.put_all(&[load(LEFT, from), store(LEFT, to)]);
    }

    fn binary(&mut self, o: Two, to: FramePlace, left: FramePlace, right: FramePlace)
        ensures { Put self.old self.new (reals 0 (l_lw 5 (suc left.0) ∷ l_lw 6 (suc right.0) ∷ []) ++ (reals 0 (ops 0 (two_seen o)) ++ reals 0 (l_sw 7 (suc to.0) ∷ []))) }
    {
        self.put_all(&[load(LEFT, left), load(RIGHT, right)]);
        self.two(o);
        self.put(store(RESULT, to));
    }

    fn unary(&mut self, o: One, to: FramePlace, from: FramePlace)
        ensures { Put self.old self.new (reals 0 (l_lw 5 (suc from.0) ∷ []) ++ (reals 0 (ops1 (one_seen o)) ++ reals 0 (l_sw 7 (suc to.0) ∷ []))) }
    {
        self.put(load(LEFT, from));
        self.one(o);
        self.put(store(RESULT, to));
    }

    // The word that is so far from the stack's floor, to a place.
    fn get_word(&mut self, to: FramePlace, far: u32)
        ensures { Put self.old self.new (reals 0 (near_floor 5 far ++ (l_lwr 6 5 (low far) ∷ l_sw 6 (suc to.0) ∷ []))) }
    {
        let (high, low) = split(far);
        self.put_all(&[
            Instr::Lui(LEFT, high),
            Instr::Op(Alu::Add, LEFT, LEFT, FLOOR),
            Instr::Lw(RIGHT, LEFT, low),
            store(RIGHT, to),
        ]);
    }

    // And back.
    fn set_word(&mut self, far: u32, from: FramePlace)
        ensures { Put self.old self.new (reals 0 (near_floor 5 far ++ (l_lw 6 (suc from.0) ∷ l_swr 6 5 (low far) ∷ []))) }
    {
        let (high, low) = split(far);
        self.put_all(&[
            Instr::Lui(LEFT, high),
            Instr::Op(Alu::Add, LEFT, LEFT, FLOOR),
            load(RIGHT, from),
            Instr::Sw(LEFT, RIGHT, low),
        ]);
    }

    // Over the jump, if the place doesn't hold 0.
    fn jump_zero(&mut self, tested: FramePlace, to: ImagePlace)
        ensures { Put self.old self.new (Instr.Lw 5 2 (off (suc tested.0)) ∷ Instr.Branch Cond.Bne 5 0 8 ∷ Instr.Jal 0 (rel (suc (suc self.old.here)) to.0) ∷ []) }
    {
        self.put_all(&[load(LEFT, tested), Instr::Branch(Cond::Bne, LEFT, 0, 8)]);
        self.jump(0, to);
    }

    // The arguments, from a place on, to the registers from 10 on.
    fn load_arguments(&mut self, from: FramePlace, count: u32)
        requires { count ≤ 8 }
        ensures { Put self.old self.new (reals 0 (loads 10 from.0 count)) }
    {
        for j in 0..count {
            self.put(load(ARGUMENT + j, FramePlace(from.0.wrapping_add(j))));
        }
    }

    // And from the registers to the first places.
    fn store_arguments(&mut self, count: u32)
        requires { count ≤ 8 }
        ensures { Put self.old self.new (reals 0 (stores (λ j. 10 + j) 0 count)) }
    {
        for j in 0..count {
            self.put(store(ARGUMENT + j, FramePlace(j)));
        }
    }

    // Register 5 to some places.
    fn clear(&mut self, from: u32, count: u32)
        ensures { Put self.old self.new (reals 0 (stores (λ j. 5) from count)) }
    {
        for j in 0..count {
            self.put(store(LEFT, FramePlace(from.wrapping_add(j))));
        }
    }

    fn call(&mut self, to: FramePlace, entry: ImagePlace, from: FramePlace, count: u32)
        ensures { count ≤ 8 → Put self.old self.new (reals 0 (loads 10 from.0 count) ++ (Instr.Jal 1 (rel (self.old.here + count) entry.0) ∷ Instr.Sw 2 10 (off (suc to.0)) ∷ [])) }
    {
        self.load_arguments(from, count.min(PASSED));
        self.jump(RETURN, entry);
        self.put(store(ARGUMENT, to));
    }

    // The result, and the end of the frame.
    fn leave(&mut self, from: FramePlace, places: u32)
        ensures { Put self.old self.new (reals 0 (l_lw 10 (suc from.0) ∷ l_lw 1 0 ∷ []) ++ (reals 0 (numbered 6 (4 * suc places)) ++ (Instr.Op Alu.Add 2 2 6 ∷ Instr.Jalr 0 1 0 ∷ []))) }
    {
        self.put_all(&[load(ARGUMENT, from), Instr::Lw(RETURN, STACK, FRAME)]);
        self.number(RIGHT, places.wrapping_add(1).wrapping_mul(4));
        self.put_all(&[
            Instr::Op(Alu::Add, STACK, STACK, RIGHT),
            Instr::Jalr(0, RETURN, 0),
        ]);
    }

    // No room unless the stack has the frame; then the frame, where to return to, the arguments, and noughts for the variables.
    pub fn enter(&mut self, f: Function)
        ensures { f.entry.params ≤ 8 → Put self.old self.new (reals 0 (prologue 0 (routine f.entry))) }
    {
        self.put_all(&[
            Instr::OpImm(Imm::Addi, LEFT, STACK, FRAME),
            Instr::Op(Alu::Sub, LEFT, LEFT, FLOOR),
        ]);
        self.number(RIGHT, f.places.wrapping_add(1).wrapping_mul(4));
        self.put_all(&[
            Instr::Branch(Cond::Bgeu, LEFT, RIGHT, 12),
            small(CALL, NO_ROOM),
            Instr::Ecall,
            Instr::Op(Alu::Sub, STACK, STACK, RIGHT),
            Instr::Sw(STACK, RETURN, FRAME),
        ]);
        self.store_arguments(f.params.min(PASSED));
        self.put(small(LEFT, 0));
        self.clear(f.params, f.vars);
    }

    // The instructions of a step.
    pub fn step(&mut self, step: Step, f: Frame)
        ensures { core_step (seen step) ≡ true → 4 * f.entry.words < all → Put self.old self.new (reals self.old.here (lower (entry_at f.entry) (step_place f.entry) (bare f.entry.words) (routine f.entry.function) self.old.here (seen step))) }
    {
        match step {
            Step::Num(d, n) => self.set_number(FramePlace(d), n),
            Step::Copy(d, a) => self.copy(FramePlace(d), FramePlace(a)),
            Step::Bin(o, d, a, b) => self.binary(
                Two::from(o),
                FramePlace(d),
                FramePlace(a),
                FramePlace(b),
            ),
            Step::Un(o, d, a) => self.unary(One::from(o), FramePlace(d), FramePlace(a)),
            Step::Flag(d, a) => self.unary(One::Flag, FramePlace(d), FramePlace(a)),
            Step::GetWord(d, i) => self.get_word(FramePlace(d), f.far(i)),
            Step::SetWord(i, a) => self.set_word(f.far(i), FramePlace(a)),
            Step::Jump(t) => self.jump(0, f.step(t)),
            Step::JumpZero(a, t) => self.jump_zero(FramePlace(a), f.step(t)),
            Step::Call(d, g, k, n) => self.call(FramePlace(d), f.function(g), FramePlace(k), n),
            Step::Out(a) => {
                self.put_all(&[
                    load(ARGUMENT, FramePlace(a)),
                    small(CALL, OUT),
                    Instr::Ecall,
                ])
            },
            Step::Ret(a) => self.leave(FramePlace(a), f.function.places),
        }
    }

    // The call of the main function, and the program's end.
    pub fn begin(&mut self, main: ImagePlace)
        ensures { Put self.old self.new (reals 0 (l_num 5 2047 ∷ l_alui Imm.Addi 5 5 1 ∷ l_upr 5 ∷ []) ++ (Instr.Jal 1 (rel (self.old.here + 3) main.0) ∷ reals 4 stub)) }
    {
        self.put_all(&[
            small(LEFT, 2047),
            Instr::OpImm(Imm::Addi, LEFT, LEFT, 1),
            Instr::Op(Alu::Add, STACK, STACK, LEFT),
        ]);
        self.jump(RETURN, main);
        self.put_all(&[small(CALL, END), Instr::Ecall]);
    }
}
