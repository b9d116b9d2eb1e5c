// A page of bytes that are lent: what is said stands on it from its start on, one piece behind another. What has no room is cut, so that nobody has to
// ask for any.
ghost use Rattle.std.specs.Prelude.{◌≡◌, ◌↔◌, [], ◌+◌, ◌≤◌, ◌++◌, length, take, IsOk};

use std::fmt;

#[derive(Drop)]
pub struct Page<'a> {
    out: &'a mut [u8],
    size: usize,
    ghost within: { size ≤ length out.now },
}

impl<'a> Page<'a> {
    ghost use Rattle.faults.specs.Page.{written, room, Appends};

    // An empty one.
    pub fn new(out: &'a mut [u8]) -> Page<'a>
        ensures empty { written result ≡ [] }
        ensures whole { room result ≡ length out.old }
    {
        Page { out, size: 0 }
    }

    // What is written.
    pub fn bytes(&self) -> &[u8]
        ensures { result.now ≡ written self.now }
    {
        &self.out[..self.size]
    }

    // Bytes as they are, as many as have room; an error where that is not all of them.
    pub fn put(&mut self, bytes: &[u8]) -> fmt::Result
        ensures ok { IsOk result → Appends self.old bytes.now self.new }
        ensures fits { IsOk result ↔ (length (written self.old) + length bytes.now ≤ room self.old) }
        ensures room { room self.new ≡ room self.old }
        ensures written { written self.new ≡ take (room self.old) (written self.old ++ bytes.now) }
    {
        let kept = bytes.len().min(self.out.len() - self.size);
        let end = self.size + kept;
        self.out[self.size..end].copy_from_slice(&bytes[..kept]);
        self.size = end;
        if kept < bytes.len() {
            return Err(fmt::Error);
        }
        Ok(())
    }
}

impl fmt::Write for Page<'_> {
    ghost use Rattle.faults.specs.Page.{Appends};

    ghost write_str_gives = { Appends };

    fn write_str(&mut self, words: &str) -> fmt::Result
        ensures { IsOk result → Appends self.old words.now self.new }
    {
        self.put(words.as_bytes())
    }
}
