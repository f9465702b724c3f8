//! The functions that C calls to learn why a text is refused.
ghost use Rattle.std.specs.Prelude.{◌≡◌, ◌≤◌, ◌<◌, ◌≢◌, ◌↔◌, ℕ, length};
ghost use Rattle.wkt_calls.specs.Answer.{read_at, places_in, asks_whole};
ghost use Rattle.wkt_calls.specs.Explained.{IsExplained, IsHinted, IsFollowed, IsUnexplained};

use wkt_calls::explain::{number_of_expected, number_of_hint, problem};
use wkt_calls::options::{has_places, places_of};
use wkt_calls::status::{DONE, NO_PLACES, NOT_WHOLE};
use wkt_explain::Problem;

/// Reports where `text` is refused: from byte `start` to byte `stop` is the lexeme that is too much, or nothing, where the
/// text ends too early; `message` is the number of the message, and `expected` that of what could come next. The
/// status is 29 where the text isn't refused. Numbers are decimals of so many places; with 256 more the whole text is to be
/// one geometry: where more than white space follows it, that is from `start` to `stop`, and the status is 30.
#[unsafe(no_mangle)]
pub extern "C" fn wkt_explain(
    text: &[u8],
    places: u32,
    message: &mut u32,
    start: &mut usize,
    stop: &mut usize,
    expected: &mut u32,
) -> u32
    ensures explained { result ≡ DONE → IsExplained (read_at (places_in places)) text.now message.new start.new stop.new expected.new }
    ensures more { result ≡ NOT_WHOLE → IsFollowed (read_at (places_in places)) (asks_whole places) text.now start.new × (stop.new ≡ length text.now) }
    ensures others { 1 ≤ result → result ≢ NOT_WHOLE → result ≢ NO_PLACES → IsUnexplained (read_at (places_in places)) (asks_whole places) text.now result }
    ensures no_places { (result ≡ NO_PLACES) ↔ (36 < places_in places) }
    ensures kept { 1 ≤ result → (message.new ≡ message.old) × (expected.new ≡ expected.old) }
    ensures place_kept { 1 ≤ result → result ≢ NOT_WHOLE → (start.new ≡ start.old) × (stop.new ≡ stop.old) }
{
    if !has_places(places) {
        return NO_PLACES;
    }
    match problem(text, places) {
        Ok(Problem::Refused(why)) => {
            *message = why.message.number();
            *start = why.start;
            *stop = why.end;
            *expected = number_of_expected(why.expected);
            DONE
        }
        Ok(Problem::Rest(at)) => {
            *start = at;
            *stop = text.len();
            NOT_WHOLE
        }
        Err(status) => status,
    }
}

/// Reports what the lexeme may come from with which `text` is refused: the number of a hint, or 0 where nothing is known.
/// The status is as of `wkt_explain`.
#[unsafe(no_mangle)]
pub extern "C" fn wkt_hint(text: &[u8], places: u32, hint: &mut u32) -> u32
    ensures hinted { result ≡ DONE → IsHinted (read_at (places_in places)) (places_in places) text.now hint.new }
    ensures more { result ≡ NOT_WHOLE → (start : ℕ) × IsFollowed (read_at (places_in places)) (asks_whole places) text.now start }
    ensures others { 1 ≤ result → result ≢ NOT_WHOLE → result ≢ NO_PLACES → IsUnexplained (read_at (places_in places)) (asks_whole places) text.now result }
    ensures no_places { (result ≡ NO_PLACES) ↔ (36 < places_in places) }
    ensures kept { 1 ≤ result → hint.new ≡ hint.old }
{
    if !has_places(places) {
        return NO_PLACES;
    }
    match problem(text, places) {
        Ok(Problem::Refused(why)) => {
            *hint = number_of_hint(why.hint(text, places_of(places)));
            DONE
        }
        Ok(Problem::Rest(_)) => NOT_WHOLE,
        Err(status) => status,
    }
}
