// Writing words: one, some, a name; and another in a place that was written.
ghost use Rattle.std.specs.Prelude.{ℕ, ◌+◌, ◌<◌, ◌≤◌, List, [], ◌∷◌, length};
ghost use Rattle.rows.specs.Row.{Wrote, Patched, Pushed};
ghost use Rattle.rows.specs.Has.{named};

use super::row::Row;

impl Row<'_> {
    pub fn put(&mut self, a: u32)
        requires { self.old.len + 1 ≤ length self.old.words.now }
        ensures { Wrote self.old self.new (a ∷ []) }
    {
        self.words[self.len] = a;
        self.len += 1;
    }

    // Some words, one behind another.
    pub fn put_all(&mut self, words: &[u32])
        requires { self.old.len + length words.now ≤ length self.old.words.now }
        ensures { Wrote self.old self.new words.now }
    {
        for word in words {
            self.put(*word);
        }
    }

    // A name, behind its length.
    pub fn put_name(&mut self, w: &[u8])
        requires room { self.old.len + (length w.now + 1) ≤ length self.old.words.now }
        requires short { length w.now ≤ 32 }
        ensures { Wrote self.old self.new (named w.now) }
    {
        self.put(w.len() as u32);
        for byte in w {
            self.put(*byte as u32);
        }
    }

    // A word if there is room for it, else none: for passes whose rows are known to fit by what they are rows of.
    pub fn push(&mut self, a: u32)
        ensures { Pushed self.old self.new (a ∷ []) }
    {
        if self.len < self.words.len() {
            self.put(a);
        }
    }

    pub fn push_all(&mut self, words: &[u32])
        ensures { Pushed self.old self.new words.now }
    {
        for word in words {
            self.push(*word);
        }
    }

    // Another word in a place that was written.
    pub fn set(&mut self, at: usize, v: u32)
        requires { at < self.old.len }
        ensures { Patched self.old self.new at v }
    {
        self.words[at] = v;
    }
}
