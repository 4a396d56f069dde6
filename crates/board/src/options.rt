// The options of a run: their values if none is given, and what each sets.
ghost use Rattle.board.specs.Options.{set as setting, word as word_of, fill_of, Defaults};
ghost use Rattle.std.specs.Prelude.{◌≡◌};

use super::filling::Pattern;
use super::numbers::parse_number;
use std::error::Error;
use std::fmt;

// Where the image is placed, the end of the stack's part if it is not the memory's, the words of memory, what it is filled
// with, and how many steps are made at most.
#[derive(Clone, Copy, Debug, PartialEq, Eq)]
pub struct Settings {
    pub at: u32,
    pub top: Option<u32>,
    pub memory: u32,
    pub fill: Pattern,
    pub steps: u32,
}

// Why an option was not set: there is none of that name, or its value is none.
#[derive(Clone, Copy, Debug, PartialEq, Eq)]
pub enum SettingError {
    NoOption,
    NoNumber,
}

impl fmt::Display for SettingError {
    fn fmt<W: fmt::Write>(&self, f: &mut fmt::Formatter<W>) -> fmt::Result {
        f.write_str(match self {
            SettingError::NoOption => "there is no option of this name",
            SettingError::NoNumber => "no number below 4294967296",
        })
    }
}

impl Error for SettingError {}

impl Default for Settings {
    ghost is_default = { Defaults };

    fn default() -> Self {
        Settings {
            at: 0,
            top: None,
            memory: 1048576,
            fill: Pattern::Random(0),
            steps: 1000000000,
        }
    }
}

fn word(value: &str) -> Result<u32, SettingError>
    ensures { result ≡ word_of value.now }
{
    parse_number(value.as_bytes()).ok_or(SettingError::NoNumber)
}

// `ones`, or a seed's number.
fn parse_fill(value: &str) -> Result<Pattern, SettingError>
    ensures { result ≡ fill_of value.now }
{
    if value == "ones" {
        Ok(Pattern::Ones)
    } else {
        word(value).map(Pattern::from)
    }
}

impl Settings {
    // The settings with one option more; of two with one name the later counts.
    pub fn with(self, name: &str, value: &str) -> Result<Self, SettingError>
        ensures { result ≡ setting self name.now value.now }
    {
        match name {
            "--at" => Ok(Settings {
                at: word(value)?,
                ..self
            }),
            "--top" => Ok(Settings {
                top: Some(word(value)?),
                ..self
            }),
            "--memory" => Ok(Settings {
                memory: word(value)?,
                ..self
            }),
            "--fill" => Ok(Settings {
                fill: parse_fill(value)?,
                ..self
            }),
            "--steps" => Ok(Settings {
                steps: word(value)?,
                ..self
            }),
            _ => Err(SettingError::NoOption),
        }
    }
}

#[cfg(test)]
mod tests {
    use super::*;

    #[test]
    fn sets_options(rt: HostRuntime) -> Result<(), SettingError> {
        let placed = Settings::default().with("--at", "65537")?;
        let filled = placed.with("--fill", "ones")?;
        assert_eq!(rt; filled.at, 65537);
        assert_eq!(rt; filled.fill, Pattern::Ones);
        assert!(rt; filled.top.is_none());
        assert_eq!(rt; filled.with("--at", "x"), Err(SettingError::NoNumber));
        assert_eq!(rt; filled.with("--fill", "none"), Err(SettingError::NoNumber));
        assert_eq!(rt; filled.with("-at", "1"), Err(SettingError::NoOption));
        Ok(())
    }
}
