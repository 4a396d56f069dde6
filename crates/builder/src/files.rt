// The image's file.
use anyhow::anyhow;
use std::alloc::Global;
use std::io::Write;
use std::{fs, io};

// Words of 32 bits, the lowest byte first; 1,024 at a time.
fn write_words(heap: Global, file: &mut impl Write, words: &[u32]) -> io::Result<()> {
    for part in words.chunks(1024) {
        let mut bytes = Vec::new(heap);
        for word in part {
            bytes.extend_from_slice(&word.to_le_bytes())?;
        }
        file.write_all(bytes.as_slice())?;
    }
    Ok(())
}

fn write_file(rt: &HostRuntime, name: &str, words: &[u32]) -> io::Result<()> {
    let mut file = fs::create(rt, name)?;
    write_words(rt.alloc(), &mut file, words)
}

fn put_in_place(rt: &HostRuntime, part: &str, name: &str, words: &[u32]) -> anyhow::Result<()> {
    write_file(rt, part, words).map_err(|error| anyhow!("{part}: {error}"))?;
    fs::rename(rt, part, name).map_err(|error| anyhow!("{name}: {error}"))
}

// Writes an image under another name first, so that no half of one ever stands under its own.
pub fn write_image(rt: &HostRuntime, name: &str, words: &[u32]) -> anyhow::Result<()> {
    let part = format!(in rt.alloc(); "{name}.part")?;
    let outcome = put_in_place(rt, part.as_str(), name, words);
    if outcome.is_err() {
        let _ = fs::remove_file(rt, part.as_str());
    }
    outcome
}
