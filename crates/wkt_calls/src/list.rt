//! A list in a room of the caller's.
ghost use Rattle.std.specs.Prelude.{◌≡◌, ◌++◌, ◌∷◌, [], MatchResult};
ghost use Rattle.wkt_calls.specs.Rows.{items_of};

use crate::fill::copy_to_front;
use crate::status::MEMORY;

/// Items at the front of a room, which is what an item more needs.
#[derive(Drop)]
pub(crate) struct RoomList<'a, T> {
    pub(crate) room: &'a mut [T],
    pub(crate) len: usize,
}

/// How many items are added one by one, since more at once cost a call for each list.
const FEW: usize = 8;

impl<'a, T: Copy> RoomList<'a, T> {
    /// No item.
    pub(crate) fn new(room: &'a mut [T]) -> RoomList<'a, T>
        ensures { items_of result ≡ [] }
    {
        RoomList { room, len: 0 }
    }

    /// The items.
    #[inline(always)]
    pub(crate) fn items(&self) -> &[T]
        ensures { result.now ≡ items_of self.now }
    {
        if self.len < self.room.len() {
            &self.room[..self.len]
        } else {
            self.room
        }
    }

    /// Adds an item.
    #[inline(always)]
    pub(crate) fn push(&mut self, item: T) -> Result<(), u32>
        ensures { MatchResult result (λ _. items_of self.new ≡ items_of self.old ++ item ∷ []) (λ s. s ≡ MEMORY) }
    {
        if self.len >= self.room.len() {
            return Err(MEMORY);
        }
        let room = &mut *self.room;
        room[self.len] = item;
        self.len += 1;
        Ok(())
    }

    /// Adds items.
    #[inline(always)]
    pub(crate) fn append(&mut self, list: &[T]) -> Result<(), u32>
        ensures { MatchResult result (λ _. items_of self.new ≡ items_of self.old ++ list.now) (λ s. s ≡ MEMORY) }
    {
        if list.len() > FEW {
            return self.append_many(list);
        }
        for item in list {
            self.push(*item)?;
        }
        Ok(())
    }

    /// Adds many items.
    #[inline(never)]
    fn append_many(&mut self, list: &[T]) -> Result<(), u32>
        ensures { MatchResult result (λ _. items_of self.new ≡ items_of self.old ++ list.now) (λ s. s ≡ MEMORY) }
    {
        if list.len() > self.room.len() || self.len > self.room.len() - list.len() {
            return Err(MEMORY);
        }
        let room = &mut *self.room;
        copy_to_front(list, &mut room[self.len..]);
        self.len += list.len();
        Ok(())
    }
}
