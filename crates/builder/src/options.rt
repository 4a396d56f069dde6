// What the command line asks for.
use anyhow::{Context, anyhow};
use std::alloc::Global;
use std::env;

#[derive(Drop)]
pub enum Request {
    Help,
    Build(Order),
}

// The files of a program, one at least, and the image's file, if it was named.
#[derive(Drop)]
pub struct Order {
    pub image: Option<String>,
    pub files: Vec<String>,
}

pub fn read_request(rt: &HostRuntime) -> anyhow::Result<Request> {
    let mut image: Option<String> = None;
    let mut files = Vec::new(rt.alloc());
    let mut help = false;
    let mut words = env::args(rt)?.skip(1);
    // not a `for`: an option takes the word behind it
    while let Some(word) = words.next() {
        match word.as_str() {
            "--help" => help = true,
            "-o" => image = Some(words.next().context("-o: no file is named")?),
            option if option.starts_with("-") => return Err(anyhow!(format!(in rt.alloc();
                "there is no option {option}; --help says which there are"
            )?)),
            _ => files.push(word)?,
        }
    }
    if help {
        return Ok(Request::Help);
    }
    if files.is_empty() {
        return Err(anyhow!("no file is named; --help says how"));
    }
    Ok(Request::Build(Order { image, files }))
}

// A file's name up to its ending: before the last point behind the last slash.
fn stem(name: &str) -> &str {
    match name.rsplit_once('.') {
        Some((front, ending)) if !ending.contains('/') => front,
        _ => name,
    }
}

// The image's file: the one that was named, or the first file's name with another ending.
pub fn image_name(heap: Global, order: &Order) -> anyhow::Result<String> {
    match &order.image {
        Some(name) => Ok(name.clone()?),
        None => {
            let first = order
                .files
                .first()
                .map_or("image", |file| stem(file.as_str()));
            Ok(format!(in heap; "{first}.img")?)
        }
    }
}
