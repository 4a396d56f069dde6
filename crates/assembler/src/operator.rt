// Operators by their numbers; any other number is that of the last, as in the definition.
ghost use Rattle.std.specs.Prelude.{◌≡◌};
ghost use Rattle.lower.specs.Lower.{op_of, op1_of};
ghost use Rattle.assembler.specs.Operators.{two, one};

#[derive(Clone, Copy, Debug, PartialEq, Eq)]
pub enum Two {
    Add,
    Sub,
    Mul,
    Div,
    Rem,
    Eq,
    Ne,
    Lt,
    Le,
    Gt,
    Ge,
    And,
    Or,
    Xor,
    Shl,
    Shr,
}

#[derive(Clone, Copy, Debug, PartialEq, Eq)]
pub enum One {
    Neg,
    Not,
    Inv,
    // 1 unless it is 0
    Flag,
}

impl From<u32> for Two {
    ghost from_gives = { λ number result. two result ≡ op_of number };

    fn from(number: u32) -> Two {
        match number {
            0 => Two::Add,
            1 => Two::Sub,
            2 => Two::Mul,
            3 => Two::Div,
            4 => Two::Rem,
            5 => Two::Eq,
            6 => Two::Ne,
            7 => Two::Lt,
            8 => Two::Le,
            9 => Two::Gt,
            10 => Two::Ge,
            11 => Two::And,
            12 => Two::Or,
            13 => Two::Xor,
            14 => Two::Shl,
            15..=u32::MAX => Two::Shr,
        }
    }
}

impl From<u32> for One {
    ghost from_gives = { λ number result. one result ≡ op1_of number };

    fn from(number: u32) -> One {
        match number {
            0 => One::Neg,
            1 => One::Not,
            2..=u32::MAX => One::Inv,
        }
    }
}
