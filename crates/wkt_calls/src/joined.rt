//! Lists joined in a row.
ghost use Rattle.std.specs.Prelude.{◌≡◌, MatchResult};
ghost use Rattle.wkt_calls.specs.Rows.{HoldsNoList, AddsList};

use crate::list::RoomList;
use crate::status::MEMORY;

/// Lists in a row, and where each begins, with the end of the last.
#[derive(Drop)]
pub(crate) struct Joined<'a, T> {
    pub(crate) items: RoomList<'a, T>,
    pub(crate) ends: RoomList<'a, usize>,
}

impl<'a, T: Copy> Joined<'a, T> {
    /// No list: the first offset is 0.
    pub(crate) fn new(room: &'a mut [T], ends_room: &'a mut [usize]) -> Result<Joined<'a, T>, u32>
        ensures { MatchResult result HoldsNoList (λ s. s ≡ MEMORY) }
    {
        let items = RoomList::new(room);
        let mut ends = RoomList::new(ends_room);
        ends.push(0)?;
        Ok(Joined { items, ends })
    }

    /// Adds a list.
    #[inline(always)]
    pub(crate) fn add(&mut self, list: &[T]) -> Result<(), u32>
        ensures { MatchResult result (λ _. AddsList list.now self.old self.new) (λ s. s ≡ MEMORY) }
    {
        self.items.append(list)?;
        let end = self.items.items().len();
        self.ends.push(end)
    }
}
