// The part of the memory that an image takes, written: the body with its addresses moved, and noughts behind it.
ghost use Rattle.std.specs.Prelude.{◌≡◌, ◌-◌, ◌≤◌, ◌++◌, length, replicate};
ghost use Rattle.image.specs.Image.{placed};

use super::row::Parts;

impl Parts<'_> {
    // The body, with `by` added to each word that is named, as often as it is named.
    fn write_moved(&self, words: &mut [u32], by: u32)
        requires { length words.old ≡ length self.now.body.now }
        ensures { words.new ≡ placed self.now.body.now self.now.moved.now by }
    {
        words.copy_from_slice(self.body);
        for name in self.moved {
            let n = *name as usize;
            words[n] = words[n].wrapping_add(by);
        }
    }

    // The body with its words moved, and noughts up to the end of the part.
    pub(super) fn write(&self, part: &mut [u32], by: u32)
        requires { length self.now.body.now ≤ length part.old }
        ensures { part.new ≡ placed self.now.body.now self.now.moved.now by
            ++ replicate (length part.old - length self.now.body.now) 0 }
    {
        let bodies = self.body.len();
        self.write_moved(&mut part[..bodies], by);
        part[bodies..].fill(0);
    }
}
