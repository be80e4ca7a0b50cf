// Bytes written one after the other into a memory, with a room that they must not pass. Past the end of
// the memory nothing is written, so that an empty one measures.
ghost use Rattle.std.specs.Prelude.{◌≤◌, [], ◌∷◌};

// The memory that is written to, the room, and the place of the next byte, which never passes the room.
#[derive(Drop)]
pub(crate) struct Output<'a> {
    pub memory: &'a mut [u8],
    pub room: usize,
    pub at: usize,
    ghost within: { at ≤ room },
}

// The room ends before what there is to write.
#[derive(Clone, Copy, Debug)]
pub(crate) struct Full;

impl Output<'_> {
    ghost use Rattle.writer.specs.Puts.{Puts};

    pub(crate) fn put(&mut self, b: u8) -> Result<(), Full>
        ensures { Puts (b ∷ []) self.old self.new result }
    {
        if self.at >= self.room {
            return Err(Full);
        }
        // By index, since `get_mut` of a slice does not say what the slice holds afterwards.
        if self.at < self.memory.len() {
            self.memory[self.at] = b;
        }
        self.at += 1;
        Ok(())
    }

    pub(crate) fn put_all(&mut self, bytes: &[u8]) -> Result<(), Full>
        ensures { Puts bytes.now self.old self.new result }
    {
        for b in bytes {
            self.put(*b)?;
        }
        Ok(())
    }
}
