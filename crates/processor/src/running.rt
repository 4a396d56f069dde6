// Steps of the processor, one at a time or up to a budget, with words to read and room for words put out.
ghost use Rattle.std.specs.Prelude.{◌≡◌, ℕ, ◌+◌, ◌-◌, ◌*◌, ◌/◌, ◌%◌, ◌^◌, ◌<◌, ◌≤◌};
ghost use Rattle.processor.specs.Promise.{Stepped, Answered, RunsAs};

use super::cpu::{Cpu, Event, Halt};
use super::decoding::decode;
use super::executing::locate;

// How a run ended, after how many steps, and how many words it read and put out: numbers, as `read` gives of a buffer that is lent
// to it, so that nothing stays lent while they are used.
#[derive(Clone, Copy, Debug, PartialEq, Eq)]
pub struct Ran {
    pub event: Event,
    pub steps: u32,
    pub taken: usize,
    pub shown: usize,
}

impl Cpu {
    // One step: the word at the program counter is read, and what it says is done.
    pub fn step(&mut self, mem: &mut [u32]) -> Event
        ensures { Stepped self.old mem.old result self.new mem.new }
    {
        let Some(k) = locate(mem.len(), self.pc) else {
            return Event::Halts(Halt::Fault);
        };
        let Some(i) = decode(mem[k]) else {
            return Event::Halts(Halt::Fault);
        };
        self.execute(i, mem)
    }

    // The next word that there is to read, for a step that asked for it.
    pub fn answer(&mut self, next: Option<u32>)
        ensures { Answered next self.old self.new }
    {
        self.regs[10] = next.unwrap_or(0);
        self.regs[11] = u32::from(next.is_some());
        self.pc = self.pc.wrapping_add(4);
    }

    // At most `steps` steps, with words to read and room for those that are put out. It can be resumed: with what is left of the
    // input and room for more words. `Out` is the event only where a word found no room; it is then in the event alone.
    pub fn run(&mut self, mem: &mut [u32], input: &[u32], output: &mut [u32], steps: u32) -> Ran
        ensures { RunsAs steps input.now self.old mem.old output.old result self.new mem.new output.new }
    {
        let mut left = input;
        let mut shown = 0;
        for k in 0..steps {
            match self.step(mem) {
                Event::Goes => {}
                Event::Out(x) => {
                    if shown == output.len() {
                        return Ran {
                            event: Event::Out(x),
                            steps: k + 1,
                            taken: input.len() - left.len(),
                            shown,
                        };
                    }
                    output[shown] = x;
                    shown += 1;
                }
                Event::In => match left.split_first() {
                    Some((x, rest)) => {
                        self.answer(Some(*x));
                        left = rest;
                    }
                    None => self.answer(None),
                },
                Event::Halts(halt) => return Ran {
                    event: Event::Halts(halt),
                    steps: k + 1,
                    taken: input.len() - left.len(),
                    shown,
                },
            }
        }
        Ran {
            event: Event::Goes,
            steps,
            taken: input.len() - left.len(),
            shown,
        }
    }
}

#[cfg(test)]
mod tests {
    use super::*;

    // The small program of specs/Samples.
    const LOOP_WORDS: [u32; 20] = [
        1299, 4194963, 5571891, 4294083219, 4261584099, 1050771, 115, 4271975971, 4290847491,
        40043827, 2195, 115, 0, 0, 0, 0, 0, 0, 0, 0,
    ];

    fn at_start() -> Cpu {
        let mut cpu = Cpu {
            regs: [0; 32],
            pc: 0,
        };
        cpu.regs[2] = 64;
        cpu
    }

    #[test]
    fn runs_to_the_end(rt: HostRuntime) {
        let mut mem = LOOP_WORDS;
        let mut cpu = at_start();
        let mut output = [7; 2];
        let ran = cpu.run(&mut mem, &[], &mut output, 100);
        assert_eq!(rt; ran.shown, 1);
        assert!(rt; output == [10, 7]);
        assert_eq!(rt; ran.steps, 21);
        assert_eq!(rt; ran.event, Event::Halts(Halt::End(100)));
    }

    // The budget used up, then no room for the word put out, then the rest.
    #[test]
    fn is_resumed(rt: HostRuntime) {
        let mut mem = LOOP_WORDS;
        let mut cpu = at_start();
        let first = cpu.run(&mut mem, &[], &mut [], 5);
        assert_eq!(rt; first.event, Event::Goes);
        let second = cpu.run(&mut mem, &[], &mut [], 100);
        assert_eq!(rt; second.event, Event::Out(10));
        let third = cpu.run(&mut mem, &[], &mut [], 100);
        assert_eq!(rt; 5 + second.steps + third.steps, 21);
        assert_eq!(rt; third.event, Event::Halts(Halt::End(100)));
    }
}
