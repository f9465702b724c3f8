//! The events of the geometry that a text begins with.
ghost use Rattle.std.specs.Prelude.{◌≡◌, IfSome};
ghost use Rattle.wkt_fill.specs.EventLists.{WritesFrontIfAny};

use crate::event_writer::{EventRoom, EventWriter};
use wkt_machine::Progress;
use wkt_machine::drive::drive;
use wkt_num::Places;
use wkt_sources::ByteCursor;
use wkt_types::Dimension;

/// How many events and numbers a geometry has, and where it ends in the text.
#[derive(Clone, Copy)]
pub struct EventCounts {
    pub events: usize,
    pub numbers: usize,
    pub end: usize,
}

/// Writes the events and the numbers of the geometry that the bytes begin with to the fronts of the rooms; `None` where
/// they begin with none. That what follows the geometry is text isn't looked at. Where one of them doesn't fit into its
/// room, or there is no geometry, what the rooms hold means nothing.
///
/// The machine holds the rooms by value, and they are put back here, so that whoever lends them knows them afterwards.
pub fn write_events(places: Places, text: &[u8], room: &mut EventRoom<'_>) -> Option<EventCounts>
    ensures same_events { IfSome result (λ c. room.new.events.ghost_name ≡ room.old.events.ghost_name) }
    ensures same_numbers { IfSome result (λ c. room.new.numbers.ghost_name ≡ room.old.numbers.ghost_name) }
    ensures writes { WritesFrontIfAny places text.now room.old room.new result }
{
    let source = ByteCursor::<'_, false>::new(text, 0);
    let events = std::mem::take(&mut room.events);
    let numbers = std::mem::take(&mut room.numbers);
    let writer = EventWriter {
        events,
        numbers,
        event_count: 0,
        number_count: 0,
        coordinates: 0,
        dimension: Dimension::XY,
        places,
    };
    match drive::<i128, ByteCursor<'_, false>, EventWriter<'_>>(source, writer) {
        Ok(over) => {
            let Progress {
                source,
                machine: _,
                builder,
            } = over;
            let EventWriter {
                events,
                numbers,
                event_count,
                number_count,
                coordinates: _,
                dimension: _,
                places: _,
            } = builder;
            room.events = events;
            room.numbers = numbers;
            Some(EventCounts {
                events: event_count,
                numbers: number_count,
                end: source.at,
            })
        }
        Err(_) => None,
    }
}
