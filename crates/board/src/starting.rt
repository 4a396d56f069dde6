// An image loaded into memory, and the processor set to begin it.
ghost use Rattle.board.specs.Starting.{Starts};

use image::{Refusal, place};
use processor::Cpu;

// Loads an image at word `at` with the stack's part up to word `top`. The registers are as given, but those that loading sets.
pub fn start(
    image: &[u32],
    at: u32,
    top: u32,
    registers: [u32; 32],
    memory: &mut [u32],
) -> Result<Cpu, Refusal>
    ensures { Starts image.now at top registers memory.old memory.new result }
{
    let from = place(image, at, top, memory)?.start(top);
    let mut cpu = Cpu {
        regs: registers,
        pc: from.pc,
    };
    cpu.regs[2] = from.stack;
    cpu.regs[3] = from.floor;
    Ok(cpu)
}

#[cfg(test)]
mod tests {
    use super::*;
    use processor::{Event, Halt};
    use std::alloc::Global;
    use std::process::Abort;
    use std::test::Fail;

    // The processor's sample: it puts out 10 and ends with 100. Twelve words, eight noughts, the entry at its first word.
    const LOOP_IMAGE: [u32; 17] = [
        19525, 12, 8, 0, 0, 1299, 4194963, 5571891, 4294083219, 4261584099, 1050771, 115,
        4271975971, 4290847491, 40043827, 2195, 115,
    ];

    const MEMORY: usize = 65600;

    // Registers and memory are all ones before.
    fn runs_at(rt: &impl Abort, heap: Global, at: u32) -> Result<(), Fail> {
        let mut memory = vec![in heap; u32::MAX; MEMORY]?;
        let Ok(mut cpu) = start(
            &LOOP_IMAGE,
            at,
            65600,
            [u32::MAX; 32],
            memory.as_mut_slice(),
        ) else {
            return Err(Fail::new("it was not placed"));
        };
        let mut output = [0; 4];
        let ran = cpu.run(memory.as_mut_slice(), &[], &mut output, 100);
        assert_eq!(rt; ran.shown, 1);
        assert_eq!(rt; output[0], 10);
        assert_eq!(rt; ran.event, Event::Halts(Halt::End(100)));
        Ok(())
    }

    #[test]
    fn runs_anywhere(rt: HostRuntime) -> Result<(), Fail> {
        runs_at(&rt, rt.alloc(), 0)?;
        runs_at(&rt, rt.alloc(), 1)?;
        runs_at(&rt, rt.alloc(), 1000)?;
        runs_at(&rt, rt.alloc(), 65537)
    }
}
