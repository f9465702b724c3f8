//! The function that C calls to read a geometry of any kind.
ghost use Rattle.std.specs.Prelude.{◌≡◌, ◌≤◌, ◌<◌, ◌≢◌, ◌⊎◌};
ghost use Rattle.wkt_calls.specs.Answer.{places_in, asks_whole, EndsAsAsked, RefusesAt};
ghost use Rattle.wkt_calls.specs.EventCalls.{AreWritten, HasNoRoomFor, HasMoreAfter};

use wkt_calls::events_call::front_events_asked;
use wkt_calls::options::{ends_as_asked, has_places};
use wkt_calls::status::{DONE, NO_PLACES, NOT_WHOLE, SMALL};
use wkt_fill::{EventRoom, WktUnits};

/// Writes the events and the numbers of the geometry that `text` begins with, which may be a collection, to the fronts of
/// `events` and `numbers`, how many there are to `event_count` and `number_count`, and to `end` where the geometry ends in
/// `text`. Where one of the two has no room, the counts say how much it needs. Numbers are decimals of so many places;
/// with 256 more the whole text is to be one geometry.
#[unsafe(no_mangle)]
pub extern "C" fn wkt_read_events(
    text: &[u8],
    places: u32,
    events: &mut [usize],
    numbers: &mut [WktUnits],
    event_count: &mut usize,
    number_count: &mut usize,
    end: &mut usize,
) -> u32
    ensures written { result ≡ DONE → AreWritten (places_in places) text.now event_count.new number_count.new end.new
        events.old events.new numbers.old numbers.new }
    ensures small { result ≡ SMALL → HasNoRoomFor (places_in places) text.now event_count.new number_count.new end.new
        events.old numbers.old }
    ensures as_asked { (result ≡ DONE) ⊎ (result ≡ SMALL) → EndsAsAsked (asks_whole places) text.now end.new }
    ensures more { result ≡ NOT_WHOLE → HasMoreAfter (places_in places) (asks_whole places) text.now event_count.new
        number_count.new end.new }
    ensures others { 1 ≤ result → result ≢ SMALL → result ≢ NOT_WHOLE → RefusesAt (places_in places) text.now result }
    ensures no_places { 36 < places_in places → result ≡ NO_PLACES }
    ensures counts_kept { 1 ≤ result → result ≢ SMALL → result ≢ NOT_WHOLE →
        (event_count.new ≡ event_count.old) × (number_count.new ≡ number_count.old) × (end.new ≡ end.old) }
{
    if !has_places(places) {
        return NO_PLACES;
    }
    let mut room = EventRoom {
        events: &mut *events,
        numbers: &mut *numbers,
    };
    match front_events_asked(text, places, &mut room) {
        Ok(counts) => {
            let (told, read) = (counts.events, counts.numbers);
            *event_count = told;
            *number_count = read;
            *end = counts.end;
            if !ends_as_asked(text, counts.end, places) {
                return NOT_WHOLE;
            }
            if told > events.len() || read > numbers.len() {
                return SMALL;
            }
            DONE
        }
        Err(status) => status,
    }
}
