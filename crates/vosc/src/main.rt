// vosc: says of the text in the files named whether it is a program, and of which stage; or where and why it is none. What is
// answered is worked out in the crates below; here is only what reads and prints.
#![tactic(auto)]

use anyhow::anyhow;
use chain::LANDED;
use front::check;
use messages::explain_outline;
use messages::outline::Outline;
use sources::{MOST, Source, join, read_within, show_problem};
use std::env;

const USAGE: &str = "usage: vosc FILE...

The bytes of the files, one after another, are the text. The answer is the last line on standard output: `stage N` if the text
is a program of stage N, `not yet N` if it is one of a stage N that can't be built yet, or `no program`; then standard error says
where and why, as FILE:LINE:COLUMN: reason.";

// Says what the text is; whether it is a program.
fn answer(rt: &HostRuntime, sources: &[Source]) -> anyhow::Result<bool> {
    let text = join(rt.alloc(), sources)?;
    let mut work = vec![in rt.alloc(); 0; text.len().min(MOST) * 16 + 65536]?;
    if let Ok(program) = check(text.as_slice(), work.as_mut_slice()) {
        let stage = program.stage;
        if stage > LANDED {
            println!(rt; "not yet {stage}")?;
        } else {
            println!(rt; "stage {stage}")?;
        }
        return Ok(true);
    }
    if let Some(problem) = explain_outline(text.as_slice(), work.as_mut_slice()) {
        show_problem(rt, sources, problem.at, &Outline(problem.what))?;
    }
    println!(rt; "no program")?;
    Ok(false)
}

fn work(rt: &HostRuntime) -> anyhow::Result<bool> {
    let names: Vec<String> = env::args(rt)?.skip(1).collect(rt.alloc())?;
    if names.is_empty() {
        return Err(anyhow!(USAGE));
    }
    // whole files: the line behind the last byte that a text may have is shown whole too
    let sources = read_within(rt, names.as_slice(), usize::MAX)?;
    answer(rt, sources.as_slice())
}

fn main(rt: HostRuntime) -> anyhow::Result<()> {
    match work(&rt) {
        Ok(true) => Ok(()),
        Ok(false) => Err(anyhow!("no program")),
        Err(error) => {
            let _ = eprintln!(rt; "vosc: {error}");
            Err(error)
        }
    }
}
