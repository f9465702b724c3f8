//! The flat arrays of the geometry that a text begins with.
ghost use Rattle.wkt_fill.specs.Filled.{FillsFrontIfAny};

use crate::array_builder::{ArrayBuilder, Room};
use wkt_machine::Progress;
use wkt_machine::drive::drive;
use wkt_num::Places;
use wkt_sources::ByteCursor;

/// Arrays, and where their geometry ends in the text.
#[derive(Drop)]
pub struct Filled<'a> {
    pub arrays: ArrayBuilder<'a>,
    pub end: usize,
}

/// The arrays of the geometry that the bytes begin with; `None` where they begin with none. That what follows the geometry
/// is text isn't looked at. The status is 22 only where the room is too small for them.
pub fn fill_arrays<'a>(places: Places, text: &[u8], room: Room<'a>) -> Option<Filled<'a>>
    ensures { FillsFrontIfAny places text.now room.entry result }
{
    let source = ByteCursor::<'_, false>::new(text, 0);
    match drive::<i128, ByteCursor<'_, false>, ArrayBuilder<'a>>(
        source,
        ArrayBuilder::new(places, room),
    ) {
        Ok(over) => {
            let Progress {
                source,
                builder,
                ..
            } = over;
            let mut arrays = builder;
            arrays.refuse_collection();
            Some(Filled {
                arrays,
                end: source.at,
            })
        }
        Err(_) => None,
    }
}
