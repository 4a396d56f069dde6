// The files that are read.
ghost use Rattle.std.specs.Prelude.{◌≡◌, ◌≤◌, length, take, map, string_bytes, IfOk};
ghost use Rattle.std.specs.List.{flat_map};

use anyhow::anyhow;
use std::alloc::{AllocError, Global};
use std::fs;
use std::io::{self, Read};

// A text has at most 32,768 bytes; with one more, it is no program.
pub const MOST: usize = 32769;

// A file that was named: its name, and its bytes as far as they were asked for.
#[derive(Drop)]
pub struct Source {
    pub name: String,
    pub bytes: Vec<u8>,
}

// The first bytes of a file, as many as there are and not more than a limit.
fn read_start(rt: &HostRuntime, name: &str, limit: usize) -> io::Result<Vec<u8>>
    ensures { IfOk result (λ bytes. length bytes.items ≤ limit) }
{
    let mut bytes = Vec::new(rt.alloc());
    fs::open(rt, name)?
        .take(limit as u64)
        .read_to_end(&mut bytes)?;
    // of what a machine gives, the library promises no limit
    bytes.truncate(limit);
    Ok(bytes)
}

// Reads the files named, one after another, and of all of them no more bytes than can matter.
pub fn read_sources(rt: &HostRuntime, names: &[String]) -> anyhow::Result<Vec<Source>>
    ensures named { IfOk result (λ sources. map (λ source. string_bytes source.name) sources.items ≡ map string_bytes names.now) }
    ensures short { IfOk result (λ sources. length (flat_map (λ source. source.bytes.items) sources.items) ≤ 32769) }
{
    read_within(rt, names, MOST)
}

// The same, with no more bytes of all of them together than a limit.
pub fn read_within(rt: &HostRuntime, names: &[String], limit: usize) -> anyhow::Result<Vec<Source>>
    ensures named { IfOk result (λ sources. map (λ source. string_bytes source.name) sources.items ≡ map string_bytes names.now) }
    ensures short { IfOk result (λ sources. length (flat_map (λ source. source.bytes.items) sources.items) ≤ limit) }
{
    let mut sources = Vec::new(rt.alloc());
    let mut left = limit;
    for name in names {
        // the reason is no cause of its own: `main` would print that on a line of its own
        let bytes = read_start(rt, name.as_str(), left).map_err(|error| anyhow!(
            "{name}: {error}"
        ))?;
        left = left.saturating_sub(bytes.len());
        sources.push(Source {
            name: name.clone()?,
            bytes,
        })?;
    }
    Ok(sources)
}

// The bytes of all files, one after another, with one more than a text may have at the most.
pub fn join(heap: Global, sources: &[Source]) -> Result<Vec<u8>, AllocError>
    ensures { IfOk result (λ text. text.items ≡ take 32769 (flat_map (λ source. source.bytes.items) sources.now)) }
{
    sources
        .iter()
        .flat_map(|source| source.bytes.iter())
        .copied()
        .take(MOST)
        .collect(heap)
}

#[cfg(test)]
mod tests {
    use super::*;
    use std::test::Fail;

    #[test]
    fn joins_files_up_to_the_limit(rt: HostRuntime) -> Result<(), Fail> {
        let mut sources = Vec::new(rt.alloc());
        for (bytes, times) in [(b"ab", 1), (b"cd", MOST)] {
            sources.push(Source {
                name: String::new(rt.alloc()),
                bytes: bytes.repeat(rt.alloc(), times)?,
            })?;
        }
        let text = join(rt.alloc(), sources.as_slice())?;
        assert!(rt; text.as_slice().starts_with(b"abcdcd"));
        assert!(rt; text.len() == MOST);
        sources.truncate(1);
        let text = join(rt.alloc(), sources.as_slice())?;
        assert!(rt; text.as_slice() == b"ab".as_slice());
        Ok(())
    }

    // A device serves as a file: there is one wherever tests run.
    #[test]
    fn reads_files_up_to_the_limit(rt: HostRuntime) -> Result<(), Fail> {
        let names = vec![in rt.alloc();
            String::from_str(rt.alloc(), "/dev/zero")?,
            String::from_str(rt.alloc(), "/dev/zero")?,
        ]?;
        let sources = read_within(&rt, names.as_slice(), 5).map_err(|_| "refused")?;
        assert!(rt; sources.len() == 2);
        assert!(rt; sources.as_slice()[0].bytes.as_slice() == [0; 5].as_slice());
        assert!(rt; sources.as_slice()[1].bytes.is_empty());
        Ok(())
    }
}
