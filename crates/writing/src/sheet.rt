// Parts put into an output one after the other: what does not fit is counted and not written.
ghost use Rattle.std.specs.Prelude.{◌+◌, ◌≤◌, length};
ghost use Rattle.writing.specs.inner.Puts.{longest, PutsOn};
ghost use Rattle.writing.specs.inner.Spelled.{spelled};

use steps::lookup::KEYED;

// An output, and the place after what has been put into it.
#[derive(Drop)]
pub struct Sheet<'a> {
    pub out: &'a mut [u8],
    pub at: usize,
}

impl Sheet<'_> {
    // Puts a part at the place, where it fits there.
    pub fn put(&mut self, part: &[u8])
        requires { self.old.at + length part.now ≤ longest }
        ensures { PutsOn self.old part.now self.new }
    {
        let end = self.at + part.len();
        if end <= self.out.len() {
            // Byte for byte: `copy_from_slice` of a length that is not known has the archive for C ask for one more function from outside.
            for j in 0..part.len() {
                self.out[self.at + j] = part[j];
            }
        }
        self.at = end;
    }

    // Puts the name at a span of the text.
    pub fn put_name(&mut self, text: &[u8], span: usize)
        requires { self.old.at + length (spelled text.now span) ≤ longest }
        ensures { PutsOn self.old (spelled text.now span) self.new }
    {
        let start = span % KEYED / 32;
        let size = span % 32;
        if start <= text.len() && size <= text.len() - start {
            self.put(&text[start..start + size]);
        }
    }
}
