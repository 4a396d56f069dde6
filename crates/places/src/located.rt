// What is said of a place in a text.
ghost use Rattle.std.specs.Prelude.{◌≡◌, ◌≤◌, length};

use crate::places::offset;

// A byte offset, and what is said of it.
#[derive(Clone, Copy, Debug, PartialEq, Eq)]
pub struct Located<T> {
    pub at: usize,
    pub what: T,
}

// What is said of the first piece of what is left of a text.
pub fn locate<T>(text: &[u8], rest: &[u8], what: T) -> Located<T>
    ensures within { result.at ≤ length text.now }
    ensures what { result.what ≡ what }
{
    Located {
        at: offset(text, rest),
        what,
    }
}

impl<T> Located<T> {
    // The same place, and what is made of what is said.
    pub fn map<U, F: FnOnce(T) -> U>(self, change: F) -> Located<U>
        requires { F.pre change self.what }
        ensures place { result.at ≡ self.at }
        ensures made { F.post change self.what result.what }
    {
        Located {
            at: self.at,
            what: change(self.what),
        }
    }
}
