//! Where a text is written to.
ghost use Rattle.std.specs.Prelude.{◌≡◌, ◌++◌, ℕ, List, [], IfOk, length, take};

use crate::slices::front;

/// There is no room for a text, or no memory.
#[derive(Clone, Copy, PartialEq, Eq, Debug)]
pub struct NoRoom;

/// What takes bytes: a `Vec`, or the front of a buffer.
pub trait Put {
    /// What was written.
    ghost written: { Self → List ℕ };

    /// Writes these bytes behind what was written. After an error what was written means nothing.
    ///
    /// # Errors
    /// [`NoRoom`].
    fn put(&mut self, bytes: &[u8]) -> Result<(), NoRoom>
        ensures { IfOk result (λ _. written self.new ≡ written self.old ++ bytes.now) };

    /// What was written.
    fn bytes(&self) -> &[u8]
        ensures { result.now ≡ written self.now };
}

impl Put for Vec<u8> {
    ghost written = { λ v. v.items };

    fn put(&mut self, bytes: &[u8]) -> Result<(), NoRoom> {
        match self.extend_from_slice(bytes) {
            Ok(()) => Ok(()),
            Err(_) => Err(NoRoom),
        }
    }

    fn bytes(&self) -> &[u8] {
        self
    }
}

/// The front of a buffer, for callers that have no memory.
#[derive(Drop)]
pub struct Front<'a> {
    room: &'a mut [u8],
    len: usize,
}

impl<'a> Front<'a> {
    /// The front of a buffer, where nothing is written yet.
    pub fn new(room: &'a mut [u8]) -> Front<'a>
        ensures { take result.len result.room.now ≡ [] }
    {
        Front { room, len: 0 }
    }
}

impl Put for Front<'_> {
    ghost written = { λ f. take f.len f.room.now };

    fn put(&mut self, bytes: &[u8]) -> Result<(), NoRoom> {
        let len = self.len.min(self.room.len());
        if self.room.len() - len < bytes.len() {
            return Err(NoRoom);
        }
        let end = len + bytes.len();
        self.room[len..end].copy_from_slice(bytes);
        self.len = end;
        Ok(())
    }

    fn bytes(&self) -> &[u8] {
        front(self.room, self.len.min(self.room.len()))
    }
}
