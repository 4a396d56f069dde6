// Registers, by what they are for. Numbers, no enum and no type with the bound 32: instructions take numbers, and arguments are counted from
// one on; `Instr::Op(Alu::Sub, RESULT.0, RIGHT.0, LEFT.0)` is no plainer.

// where a function returns to
pub const RETURN: u32 = 1;

// 2,048 above the frame
pub const STACK: u32 = 2;

// the stack's floor
pub const FLOOR: u32 = 3;

// what is worked out: from two, or from the first, and another for a shift
pub const LEFT: u32 = 5;

pub const RIGHT: u32 = 6;

pub const RESULT: u32 = 7;

pub const WITHIN: u32 = 28;

// the first argument, which is also the result of a call, and the word of an environment call
pub const ARGUMENT: u32 = 10;

// which environment call
pub const CALL: u32 = 17;
