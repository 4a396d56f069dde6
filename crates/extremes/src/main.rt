// extremes: makes texts at the limits of the language, and says what `read` answers of each; of one that is no program, where
// and why.
#![tactic(auto)]

use anyhow::anyhow;
use front::{Unreadable, read};
use messages::explain;
use std::alloc::Global;
use std::env;

mod making;
mod texts;

use making::{Growing, repeated, used_text};
use texts::{KEYWORDS, LIMITS, NAMES, NUMBERED, USED, WRITTEN};

const USAGE: &str = "usage: extremes [--times N | --uses N]

Says what is answered of texts at the limits of the language. With an option it says nothing, and reads one text N times: with
--times one that is full of names, with --uses one in which a name is used that is found last.";

// Work words for a text of 32,770 bytes, the longest one here.
const WORK: usize = 589856;

// Work words that a text of 21 bytes takes.
const ENOUGH: usize = 65872;

// Prints what is answered of a text.
fn tell(rt: &HostRuntime, name: &str, text: &[u8], work: &mut [u32]) -> anyhow::Result<()> {
    let size = text.len();
    match read(text, work) {
        Ok(tree) => {
            let stage = tree.stage;
            println!(rt; "{name}, {size} bytes: stage {stage}")?;
        }
        Err(Unreadable::Few) => println!(rt; "{name}, {size} bytes: few")?,
        Err(Unreadable::NoProgram) => {
            if let Some(problem) = explain(text, work) {
                let at = problem.at;
                let what = problem.what;
                println!(rt; "{name}, {size} bytes: no program, at byte {at}: {what}")?;
            }
        }
    }
    Ok(())
}

fn tell_written(rt: &HostRuntime, work: &mut [u32]) -> anyhow::Result<()> {
    for text in &WRITTEN {
        tell(rt, text.name, text.text, work)?;
    }
    Ok(())
}

fn tell_keywords(rt: &HostRuntime, work: &mut [u32]) -> anyhow::Result<()> {
    for word in &KEYWORDS {
        let name = format!(in rt.alloc(); "a name `{word}`")?;
        let text = repeated(
            rt.alloc(),
            b"file a; var ",
            word.as_bytes(),
            1,
            b"; fn main() { }",
        )?;
        tell(rt, name.as_str(), text.as_slice(), work)?;
    }
    Ok(())
}

// A limit, and one more.
fn tell_limit<G: Growing>(rt: &HostRuntime, parts: &G, work: &mut [u32]) -> anyhow::Result<()> {
    for more in 0..2 {
        let times = parts.most().saturating_add(more);
        let name = format!(in rt.alloc(); "{times} {}", parts.name())?;
        let text = parts.text(rt.alloc(), times)?;
        tell(rt, name.as_str(), text.as_slice(), work)?;
    }
    Ok(())
}

// Texts of 32,768 bytes that are no chain.
fn tell_long(rt: &HostRuntime, work: &mut [u32]) -> anyhow::Result<()> {
    let heap = rt.alloc();
    let call = repeated(heap, b"file a;fn f(x){}fn main(){f(1", b",1", 16368, b");}")?;
    tell(
        rt,
        "16369 arguments for one parameter",
        call.as_slice(),
        work,
    )?;
    let sum = repeated(heap, b"file a;fn f(x){}fn main(){f(1", b"+1", 16368, b");}")?;
    tell(rt, "one argument of 16369 numbers", sum.as_slice(), work)?;
    let quote = repeated(
        heap,
        b"file a;fn main(){}bytes b=\"",
        b"\xff",
        32739,
        b"\";",
    )?;
    tell(rt, "a quoted text of 32739 bytes", quote.as_slice(), work)?;
    let bytes = repeated(heap, b"", b"\xff", 32768, b"")?;
    tell(rt, "bytes that are all ones", bytes.as_slice(), work)
}

// With just enough work words, and with one word less.
fn tell_few(rt: &HostRuntime) -> anyhow::Result<()> {
    for less in 0..2 {
        let words = ENOUGH - less;
        let mut work = vec![in rt.alloc(); 0; words]?;
        let name = format!(in rt.alloc(); "{words} work words")?;
        tell(
            rt,
            name.as_str(),
            b"file a; fn main() { }",
            work.as_mut_slice(),
        )?;
    }
    Ok(())
}

fn tell_all(rt: &HostRuntime, work: &mut [u32]) -> anyhow::Result<()> {
    tell_written(rt, work)?;
    tell_keywords(rt, work)?;
    for limit in &LIMITS {
        tell_limit(rt, limit, work)?;
    }
    for parts in &NUMBERED {
        tell_limit(rt, parts, work)?;
    }
    tell_long(rt, work)?;
    let used = used_text(rt.alloc())?;
    tell(rt, USED.name, used.as_slice(), work)?;
    tell_few(rt)
}

// Reads a text so many times.
fn read_again(text: &[u8], times: u32, work: &mut [u32]) {
    for _ in 0..times {
        let _ = read(text, work);
    }
}

fn run(rt: &HostRuntime) -> anyhow::Result<()> {
    let heap = rt.alloc();
    let mut work = vec![in heap; 0; WORK]?;
    let mut words = env::args(rt)?.skip(1);
    let Some(option) = words.next() else {
        return tell_all(rt, work.as_mut_slice());
    };
    let Some(number) = words.next() else {
        return Err(anyhow!(USAGE));
    };
    let times = number.as_str().parse::<u32>()?;
    let text = match option.as_str() {
        "--times" => NAMES.text(heap, NAMES.most)?,
        "--uses" => used_text(heap)?,
        _ => return Err(anyhow!(USAGE)),
    };
    read_again(text.as_slice(), times, work.as_mut_slice());
    Ok(())
}

fn main(rt: HostRuntime) -> anyhow::Result<()> {
    let outcome = run(&rt);
    if let Err(error) = &outcome {
        let _ = eprintln!(rt; "extremes: {error}");
    }
    outcome
}
