// builder: builds the program that the files named are, and writes its image; or says where and why they are none. What is answered
// and what the image holds is worked out in the crates below; here is only what reads, writes and prints.
#![tactic(auto)]

use anyhow::anyhow;
use chain::build;
use lower::Unbuilt;
use messages::explain;
use sources::{MOST, Source, join, read_sources, show_problem};

mod files;
mod options;

use files::write_image;
use options::{Order, Request, image_name, read_request};

const USAGE: &str = "usage: builder [-o IMAGE] FILE...

Builds the program that the files are, their bytes one after another, and writes its image.
  -o IMAGE   the image's file (the first file's name with .img for its ending)
The answer is the last line on standard output: `done N` if an image of N words was written; `no program`, and then standard error
says where and why, as FILE:LINE:COLUMN: reason; `not yet N` for a program of a stage N that can't be built yet.";

// Builds the text and writes its image; whether it could be built.
fn answer(rt: &HostRuntime, order: &Order, sources: &[Source]) -> anyhow::Result<bool> {
    let heap = rt.alloc();
    let text = join(heap, sources)?;
    let bytes = text.len().min(MOST);
    let mut work = vec![in heap; 0; bytes * 16 + 65536]?;
    let mut image = vec![in heap; 0; bytes * 8 + 4096]?;
    match build(text.as_slice(), image.as_mut_slice(), work.as_mut_slice()) {
        Ok(words) => {
            let name = image_name(heap, order)?;
            write_image(rt, name.as_str(), &image.as_slice()[..words])?;
            println!(rt; "done {words}")?;
            Ok(true)
        }
        Err(why) => {
            if why == Unbuilt::NoProgram {
                if let Some(problem) = explain(text.as_slice(), work.as_mut_slice()) {
                    show_problem(rt, sources, problem.at, &problem.what)?;
                }
            }
            println!(rt; "{why}")?;
            Ok(false)
        }
    }
}

fn work(rt: &HostRuntime) -> anyhow::Result<bool> {
    match read_request(rt)? {
        Request::Help => {
            println!(rt; "{USAGE}")?;
            Ok(true)
        }
        Request::Build(order) => {
            let sources = read_sources(rt, order.files.as_slice())?;
            answer(rt, &order, sources.as_slice())
        }
    }
}

fn main(rt: HostRuntime) -> anyhow::Result<()> {
    match work(&rt) {
        Ok(true) => Ok(()),
        Ok(false) => Err(anyhow!("nothing was built")),
        Err(error) => {
            let _ = eprintln!(rt; "builder: {error}");
            Err(error)
        }
    }
}
