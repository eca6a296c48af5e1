//! Bytes that are read in order.
ghost use Rattle.std.specs.Prelude.{◌≤◌, vec_len};

/// Bytes in memory, with the place of the first that wasn't read yet.
#[derive(Drop)]
pub(crate) struct Unread {
    pub(crate) bytes: Vec<u8>,
    pub(crate) place: usize,
    ghost within: { place ≤ vec_len bytes },
}

impl Unread {
    ghost use Rattle.std.specs.Prelude.{◌≡◌, Some, length};
    ghost use Rattle.pas_io.specs.{Told.Moves, Unread.left};

    pub(crate) fn new(bytes: Vec<u8>) -> Unread
        ensures { left result ≡ bytes.items }
    {
        Unread { bytes, place: 0 }
    }

    /// Moves as many of the bytes as there are places into the front of the buffer, and answers how many.
    pub(crate) fn fill(&mut self, buffer: &mut [u8]) -> usize
        ensures within { result ≤ length buffer.old }
        ensures moves { Moves (left self.old) (Some (left self.new)) buffer.old buffer.new result }
    {
        let rest = &self.bytes[self.place..];
        let count = rest.len().min(buffer.len());
        buffer[..count].copy_from_slice(&rest[..count]);
        self.place += count;
        count
    }
}
