//! The functions that C calls for short texts, where rooms that they don't need would cost 6 to 12 in 100 of a call
//! (`capi/bench/calls.sh`). For a longer text the status is 22, and C calls the function that has rooms.
ghost use Rattle.std.specs.Prelude.{◌≡◌, ◌≤◌, ◌<◌, ℕ, length};
ghost use Rattle.wkt_calls.specs.Answer.{places_in};
ghost use Rattle.wkt_calls.specs.Arrays.{AnswersArrays};
ghost use Rattle.wkt_calls.specs.Calls.{AnswersCanonical, AnswersSame};

use wkt_calls::arrays_call::arrays_short;
use wkt_calls::canonical::{SHORT, canonical_short};
use wkt_calls::compare::same_short;
use wkt_calls::options::has_places;
use wkt_calls::sizes::WktSizes;
use wkt_calls::status::{MEMORY, NO_PLACES};

/// Does what `wkt_canonical` does, without a room: the status is 22 for a text of more than 200 bytes.
#[unsafe(no_mangle)]
pub extern "C" fn wkt_canonical_short(
    text: &[u8],
    places: u32,
    out: &mut [u8],
    needed: &mut usize,
    end: &mut usize,
) -> u32
    ensures answers { places_in places ≤ 36 →
        AnswersCanonical places text.now result out.old out.new needed.old needed.new end.old end.new }
    ensures no_places { 36 < places_in places → result ≡ NO_PLACES }
    ensures kept { result ≡ NO_PLACES → (out.new ≡ out.old) × (needed.new ≡ needed.old) × (end.new ≡ end.old) }
{
    if !has_places(places) {
        return NO_PLACES;
    }
    canonical_short(text, places, out, needed, end)
}

/// Does what `wkt_same` does, without rooms: the status is 22 for a text of more than 200 bytes.
#[unsafe(no_mangle)]
pub extern "C" fn wkt_same_short(one: &[u8], other: &[u8], places: u32, same: &mut u32) -> u32
    ensures answers { places_in places ≤ 36 → (end : ℕ) × (end' : ℕ) × (other_end : ℕ) × (other_end' : ℕ)
        × AnswersSame places one.now other.now result same.old same.new end end' other_end other_end' }
    ensures no_places { 36 < places_in places → result ≡ NO_PLACES }
    ensures kept { 1 ≤ result → same.new ≡ same.old }
{
    if !has_places(places) {
        return NO_PLACES;
    }
    if one.len() > SHORT || other.len() > SHORT {
        return MEMORY;
    }
    match same_short(one, other, places) {
        Ok(compared) => compared.report(one, other, places, same),
        Err(status) => status,
    }
}

/// Does what `wkt_arrays` does, without rooms: the status may be 22 for a text of more than 64 bytes.
#[unsafe(no_mangle)]
pub extern "C" fn wkt_arrays_short(
    text: &[u8],
    places: u32,
    sizes: &mut WktSizes,
    numbers: &mut [i64],
    rings: &mut [usize],
    polygons: &mut [usize],
) -> u32
    ensures answers { places_in places ≤ 36 → AnswersArrays places text.now (64 < length text.now) result sizes.old sizes.new
        numbers.old numbers.new rings.old rings.new polygons.old polygons.new }
    ensures no_places { 36 < places_in places → result ≡ NO_PLACES }
    ensures kept { result ≡ NO_PLACES → (sizes.new ≡ sizes.old) × (numbers.new ≡ numbers.old)
        × (rings.new ≡ rings.old) × (polygons.new ≡ polygons.old) }
{
    if !has_places(places) {
        return NO_PLACES;
    }
    arrays_short(text, places, sizes, numbers, rings, polygons)
}
