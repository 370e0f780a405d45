ghost use Rattle.std.specs.Prelude.{◌≡◌, ◌+◌, ◌<◌, length};
ghost use Rattle.lent.specs.Puts.{Behind};

use crate::front::Front;

impl<'a> Front<'a> {
    // Writes the bytes behind what is written, where there is room; else nothing is written.
    pub fn put(&mut self, bytes: &[u8])
        ensures written { Behind self.old self.new bytes.now }
        ensures full { length self.old.out.now < self.old.at + length bytes.now → (self.new.out.now ≡ self.old.out.now) × (self.new.at ≡ self.old.at) }
    {
        if self.at > self.out.len() || bytes.len() > self.out.len() - self.at {
            return;
        }
        let to = self.at + bytes.len();
        self.out[self.at..to].copy_from_slice(bytes);
        self.at = to;
    }
}
