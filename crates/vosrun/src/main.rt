// vosrun: places an image in memory and runs it on the proved processor. All that is worked out stands in the crates below;
// here is only what reads and prints.
#![tactic(auto)]

use anyhow::{Context, anyhow, bail, ensure};
use board::{SettingError, Settings, read_words, start, words_of_bytes};
use processor::{Cpu, Event};
use std::io::Read;
use std::{env, fs, io};

const USAGE: &str = "usage: vosrun IMAGE [--at A] [--top T] [--memory N] [--fill SEED] [--steps K]

Runs the image in the file IMAGE, words of 32 bits, the lowest byte first.
  --at A       place it at word A of memory (0)
  --top T      its stack ends at word T (the end of memory)
  --memory N   words of memory, at most 1073741824 (1048576)
  --fill SEED  what registers and memory hold before: words that the number SEED gives (0), or `ones` for all bits set
  --steps K    instructions at most (1000000000)
Numbers are decimal and below 4294967296. The words that the image reads are numbers on standard input, with blanks or ends of
lines between them. The words that it puts out are printed one to a line; then `end V`, `trap C`, `no room` (on its stack),
`fault` (no instruction, or no such address) or `steps` (all used up); or `no image` or `too large` if it can't be placed.";

// Words of memory at most: an address has 32 bits.
const MOST_MEMORY: u32 = 1073741824;

// Steps and words put out from one print to the next.
const CHUNK: u32 = 1000000;

const ROOM: usize = 1024;

// What the command line asks for.
#[derive(Drop)]
enum Task {
    Help,
    Run(String, Settings),
}

fn read_arguments(rt: &HostRuntime) -> anyhow::Result<Task> {
    let mut settings = Settings::default();
    let mut image: Option<String> = None;
    let mut pending: Option<String> = None;
    for word in env::args(rt)?.skip(1) {
        if let Some(name) = pending.take() {
            settings = settings
                .with(name.as_str(), word.as_str())
                .map_err(|error| match error {
                    SettingError::NoOption => anyhow!("there is no option {name}"),
                    SettingError::NoNumber => anyhow!("{name}: {word} is {error}"),
                })?;
        } else if word.as_str() == "--help" {
            return Ok(Task::Help);
        } else if word.as_str().starts_with("--") {
            pending = Some(word);
        } else if image.is_some() {
            bail!("more than one image is named");
        } else {
            image = Some(word);
        }
    }
    if let Some(name) = pending {
        bail!("{name}: there is no value");
    }
    ensure!(
        settings.memory <= MOST_MEMORY,
        "--memory: at most {MOST_MEMORY} words can be addressed"
    );
    let path = image.context("no image is named; --help says how")?;
    Ok(Task::Run(path, settings))
}

fn read_image(rt: &HostRuntime, path: &str) -> anyhow::Result<Vec<u32>> {
    let bytes = fs::read(rt, path).map_err(|error| anyhow!("{path}: {error}"))?;
    words_of_bytes(rt.alloc(), bytes.as_slice())?.context(format_args!(
        "{path}: its size is no multiple of 4 bytes"
    ))
}

fn read_input(rt: &HostRuntime) -> anyhow::Result<Vec<u32>> {
    let heap = rt.alloc();
    let mut text = Vec::new(heap);
    rt.stdin().read_to_end(&mut text)?;
    read_words(heap, text.as_slice())?.context(
        "standard input has something that is no number below 4294967296",
    )
}

fn print_words(rt: &HostRuntime, words: &[u32]) -> io::Result<()> {
    for word in words {
        println!(rt; "{word}")?;
    }
    Ok(())
}

// Runs to the end or until the steps are used up, and prints words as they come.
fn follow(
    rt: &HostRuntime,
    cpu: &mut Cpu,
    memory: &mut [u32],
    mut input: &[u32],
    steps: u32,
) -> io::Result<()> {
    let mut output = [0; ROOM];
    let mut left = steps;
    // not a `for`: a turn takes as many steps as its run made
    while left > 0 {
        let ran = cpu.run(memory, input, &mut output, left.min(CHUNK));
        input = input.split_at(ran.taken).1;
        left -= ran.steps;
        print_words(rt, &output[..ran.shown])?;
        match ran.event {
            Event::Goes | Event::In => {}
            Event::Out(word) => println!(rt; "{word}")?,
            Event::Halts(halt) => return println!(rt; "{halt}"),
        }
    }
    println!(rt; "steps")
}

fn run_image(
    rt: &HostRuntime,
    settings: Settings,
    image: &[u32],
    input: &[u32],
) -> anyhow::Result<()> {
    let mut memory = vec![in rt.alloc(); 0; settings.memory as usize]?;
    let mut registers = [0; 32];
    let rest = settings.fill.fill(&mut registers);
    rest.fill(memory.as_mut_slice());
    let top = settings.top.unwrap_or(settings.memory);
    match start(image, settings.at, top, registers, memory.as_mut_slice()) {
        Ok(mut cpu) => follow(rt, &mut cpu, memory.as_mut_slice(), input, settings.steps)?,
        Err(refusal) => println!(rt; "{refusal}")?,
    }
    Ok(())
}

fn work(rt: &HostRuntime) -> anyhow::Result<()> {
    match read_arguments(rt)? {
        Task::Help => println!(rt; "{USAGE}")?,
        Task::Run(path, settings) => {
            let image = read_image(rt, path.as_str())?;
            let input = read_input(rt)?;
            run_image(rt, settings, image.as_slice(), input.as_slice())?;
        }
    }
    Ok(())
}

fn main(rt: HostRuntime) -> anyhow::Result<()> {
    let outcome = work(&rt);
    if let Err(error) = &outcome {
        let _ = eprintln!(rt; "vosrun: {error}");
    }
    outcome
}
