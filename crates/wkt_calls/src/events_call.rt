//! A geometry of any kind as events and numbers, in the caller's rooms.
ghost use Rattle.std.specs.Prelude.{◌≡◌, ◌≤◌, IfOk, MatchResult};
ghost use Rattle.wkt_calls.specs.Answer.{read_at, places_in, RefusesText};
ghost use Rattle.wkt_calls.specs.EventCalls.{AreInRooms};

use crate::flat::{is_text_from, refused};
use crate::options::places_of;
use crate::status::NOT_TEXT;
use wkt_fill::{EventCounts, EventRoom, write_events};
use wkt_num::Places;

/// Writes the events and the numbers of the geometry at the front of a text to the rooms, or says why it has none.
fn front_events(text: &[u8], places: Places, room: &mut EventRoom<'_>) -> Result<EventCounts, u32>
    ensures same_events { IfOk result (λ c. room.new.events.ghost_name ≡ room.old.events.ghost_name) }
    ensures same_numbers { IfOk result (λ c. room.new.numbers.ghost_name ≡ room.old.numbers.ghost_name) }
    ensures answers { MatchResult result (AreInRooms places text.now room.old room.new) (RefusesText (read_at places) text.now) }
{
    let Some(counts) = write_events(places, text, room) else {
        return Err(refused(places, text));
    };
    // A front is text, so only what follows it has to be looked at.
    if !is_text_from(text, counts.end) {
        return Err(NOT_TEXT);
    }
    Ok(counts)
}

/// The same with decimals of as many places as are asked for. Where one of the lists doesn't fit, what the rooms hold means
/// nothing.
pub fn front_events_asked(
    text: &[u8],
    options: u32,
    room: &mut EventRoom<'_>,
) -> Result<EventCounts, u32>
    requires { places_in options ≤ 36 }
    ensures same_events { IfOk result (λ c. room.new.events.ghost_name ≡ room.old.events.ghost_name) }
    ensures same_numbers { IfOk result (λ c. room.new.numbers.ghost_name ≡ room.old.numbers.ghost_name) }
    ensures answers { MatchResult result (AreInRooms (places_in options) text.now room.old room.new) (RefusesText (read_at (places_in options)) text.now) }
{
    front_events(text, Places::new(places_of(options)), room)
}
