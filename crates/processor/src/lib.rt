// The processor: its instructions as data and as words, and its runs. specs/Machine is what must be believed of it; bit
// fields are seen in this crate and nowhere else.
#![tactic(auto)]

ghost use Rattle.processor.specs.Samples.{LoopRuns};

mod cpu;
mod decoding;
mod encoding;
mod executing;
pub mod instr;
mod running;

pub use cpu::{Cpu, Event, Halt};
pub use decoding::decode;
pub use encoding::{encode, lay_out_parts};
pub use running::Ran;

// The small program of specs/Samples puts out 10 and ends with 100, by the definition alone.
pub fn sample_loop_runs() -> bool
    ensures { LoopRuns }
{
    true
}
