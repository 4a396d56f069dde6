// A problem, shown with the line that it stands in.
use crate::files::Source;
use crate::lines::{find_place, line_from};
use std::fmt::Display;
use std::io;
use std::io::Write;

// The line of a text that starts at a place, and a mark under another place.
fn show_line(rt: &HostRuntime, text: &[u8], start: usize, at: usize) -> io::Result<()> {
    let line = line_from(&text[start.min(text.len())..]);
    rt.stderr().write_all(line)?;
    eprintln!(rt; "")?;
    for byte in line.iter().take(at.saturating_sub(start)) {
        let blank = if *byte == b'\t' { b"\t" } else { b" " };
        rt.stderr().write_all(blank)?;
    }
    eprintln!(rt; "^")
}

fn show_in(rt: &HostRuntime, source: &Source, at: usize, what: &impl Display) -> io::Result<()> {
    let text = source.bytes.as_slice();
    let place = find_place(text, at);
    let name = source.name.as_str();
    let line = place.line;
    let column = at.saturating_sub(place.start).saturating_add(1);
    eprintln!(rt; "{name}:{line}:{column}: {what}")?;
    show_line(rt, text, place.start, at)
}

// What is wrong at a byte of the whole text, shown in the file that it stands in; at the text's end, in the last one.
pub fn show_problem(
    rt: &HostRuntime,
    sources: &[Source],
    at: usize,
    what: &impl Display,
) -> io::Result<()> {
    let mut at = at;
    for (i, source) in sources.iter().enumerate() {
        let size = source.bytes.len();
        if at < size || sources.len() - i == 1 {
            return show_in(rt, source, at, what);
        }
        at -= size;
    }
    Ok(())
}
