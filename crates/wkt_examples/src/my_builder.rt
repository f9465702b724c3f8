//! A custom builder: whether a part of a geometry is EMPTY, found while the text is read. No geometry is made, and no memory
//! taken.
ghost use Rattle.std.specs.Prelude.{MatchOption};
ghost use Rattle.wkt.specs.Front.{HasNoFront};
ghost use Rattle.wkt_examples.specs.Empties.{HasEmpty};

use wkt::WktNum;
use wkt::events::{Axis, Builder, ByteCursor, Part, drive, read_at};
use wkt::types::Dimension;

/// Whether an EMPTY came.
#[derive(Drop)]
pub struct Empties {
    pub found: bool,
}

impl<T: WktNum> Builder<T> for Empties {
    ghost use Rattle.wkt_examples.specs.Empties.{empties_maker};

    ghost maker = { empties_maker T.read };

    fn begin(self, _whole: Part, _dim: Dimension) -> Self {
        self
    }

    fn open(self, _part: Part) -> Self {
        self
    }

    fn comma(self, _part: Part) -> Self {
        self
    }

    fn close(self, _part: Part) -> Self {
        self
    }

    fn empty(self, _part: Part) -> Self {
        Empties { found: true }
    }

    fn number(self, _number: T, _axis: Axis) -> Self {
        self
    }

    fn number_in(self, text: &[u8], at: usize, _axis: Axis) -> (Self, Option<usize>) {
        match read_at::<T>(text, at) {
            Some((_, end)) => (self, Some(end)),
            None => (self, None),
        }
    }

    fn bare_in(self, text: &[u8], at: usize) -> (Self, Option<usize>) {
        match read_at::<T>(text, at) {
            Some((_, end)) => (self, Some(end)),
            None => (self, None),
        }
    }
}

/// Whether a part of the geometry at the front of the text is EMPTY, or all of it; `None` where there is no geometry.
pub fn has_empty<T: WktNum>(text: &str) -> Option<bool>
    ensures { MatchOption result (HasNoFront T.read text.now) (HasEmpty T.read text.now) }
{
    let source = ByteCursor::<'_, false>::new(text.as_bytes(), 0);
    let empties = Empties { found: false };
    match drive::<T, ByteCursor<'_, false>, Empties>(source, empties) {
        Ok(over) => Some(over.builder.found),
        Err(_) => None,
    }
}
