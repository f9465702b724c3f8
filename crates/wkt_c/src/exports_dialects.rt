//! The functions that C calls with dialects, and the one that reads an SRID. A text in dialects is read as another text,
//! which is written in a room where it begins with no geometry as it stands.
ghost use Rattle.std.specs.Prelude.{◌≡◌, ◌≤◌, ◌≢◌, ℕ, List, length, drop};
ghost use Rattle.wkt_dialects.specs.Dialects.{HasSrid};
ghost use Rattle.wkt_calls.specs.Dialects.{AnswersCanonicalIn, AnswersSameIn, AnswersArraysIn, AnswersExplainIn, AnswersHintIn};

use crate::dialects::{answer, arrays_of, compare, is_refused};
use wkt_calls::dialects::{behind_srid, has_dialects, hint_in, problem_in, read_as};
use wkt_calls::explain::number_of_expected;
use wkt_calls::sizes::WktSizes;
use wkt_calls::status::{DONE, NO_PLACES, NOT_WHOLE};
use wkt_dialects::{Front, split_srid};
use wkt_explain::Problem;

/// Reports the SRID in front of `text`, and to `end` where what stands behind it begins: 0 and 0 where there is none.
#[unsafe(no_mangle)]
pub extern "C" fn wkt_srid(text: &[u8], srid: &mut u32, end: &mut usize) -> u32
    ensures done { result ≡ DONE }
    ensures inside { end.new ≤ length text.now }
    ensures some { 1 ≤ end.new → HasSrid text.now srid.new (drop end.new text.now) }
    ensures none { end.new ≡ 0 → (srid.new ≡ 0) × ((n : ℕ) (rest : List ℕ) → HasSrid text.now n rest → ⊥) }
{
    match split_srid(text) {
        Some((number, at)) => {
            *srid = number;
            *end = at;
        }
        None => {
            *srid = 0;
            *end = 0;
        }
    }
    DONE
}

/// Does what `wkt_canonical` does, of a text in the dialects that are asked for beside the places. What the text is read as
/// is written in `read_room`, and the status is 22 where that is too small: twelve times the text and a byte more is enough.
/// The canonical text is written in `room`, as `wkt_canonical` writes that of the text that is read.
#[unsafe(no_mangle)]
pub extern "C" fn wkt_canonical_in(
    text: &[u8],
    places: u32,
    read_room: &mut [u8],
    room: &mut [u8],
    out: &mut [u8],
    needed: &mut usize,
    end: &mut usize,
) -> u32
    ensures { AnswersCanonicalIn places text.now result out.old out.new needed.old needed.new end.old end.new }
{
    if !has_dialects(places) {
        return NO_PLACES;
    }
    let plain = behind_srid(text, places);
    let status = answer(plain, places, room, out, needed, end);
    if !is_refused(status) {
        return status;
    }
    let mut other = Front::new(read_room);
    match read_as(text, places, &mut other) {
        Ok(read) => answer(read, places, room, out, needed, end),
        Err(status) => status,
    }
}

/// Does what `wkt_same_ends` does, of texts in dialects, each of which has a room for what it is read as.
#[unsafe(no_mangle)]
pub extern "C" fn wkt_same_ends_in(
    one: &[u8],
    other: &[u8],
    places: u32,
    read_room: &mut [u8],
    other_read_room: &mut [u8],
    room: &mut [u8],
    other_room: &mut [u8],
    same: &mut u32,
    end: &mut usize,
    other_end: &mut usize,
) -> u32
    ensures { AnswersSameIn places one.now other.now result same.old same.new end.old end.new other_end.old other_end.new }
{
    if !has_dialects(places) {
        return NO_PLACES;
    }
    let first = behind_srid(one, places);
    let second = behind_srid(other, places);
    let status = compare(
        first, second, places, room, other_room, same, end, other_end,
    );
    if !is_refused(status) {
        return status;
    }
    let mut first = Front::new(read_room);
    let mut second = Front::new(other_read_room);
    let read = match read_as(one, places, &mut first) {
        Ok(read) => read,
        Err(status) => return status,
    };
    match read_as(other, places, &mut second) {
        Ok(other) => compare(read, other, places, room, other_room, same, end, other_end),
        Err(status) => status,
    }
}

/// Does what `wkt_same` does, of texts in dialects.
#[unsafe(no_mangle)]
pub extern "C" fn wkt_same_in(
    one: &[u8],
    other: &[u8],
    places: u32,
    read_room: &mut [u8],
    other_read_room: &mut [u8],
    room: &mut [u8],
    other_room: &mut [u8],
    same: &mut u32,
) -> u32
    ensures { (end : ℕ) × (end' : ℕ) × (other_end : ℕ) × (other_end' : ℕ)
        × AnswersSameIn places one.now other.now result same.old same.new end end' other_end other_end' }
{
    let mut end = 0;
    let mut other_end = 0;
    wkt_same_ends_in(
        one,
        other,
        places,
        read_room,
        other_read_room,
        room,
        other_room,
        same,
        &mut end,
        &mut other_end,
    )
}

/// Does what `wkt_arrays` does, of a text in dialects, which has a room for what it is read as.
#[unsafe(no_mangle)]
pub extern "C" fn wkt_arrays_in(
    text: &[u8],
    places: u32,
    read_room: &mut [u8],
    numbers_room: &mut [i64],
    words_room: &mut [usize],
    sizes: &mut WktSizes,
    numbers: &mut [i64],
    rings: &mut [usize],
    polygons: &mut [usize],
) -> u32
    ensures { AnswersArraysIn places text.now result sizes.old sizes.new numbers.old numbers.new rings.old rings.new
        polygons.old polygons.new }
{
    if !has_dialects(places) {
        return NO_PLACES;
    }
    let plain = behind_srid(text, places);
    let status = arrays_of(
        plain,
        places,
        numbers_room,
        words_room,
        sizes,
        numbers,
        rings,
        polygons,
    );
    if !is_refused(status) {
        return status;
    }
    let mut other = Front::new(read_room);
    match read_as(text, places, &mut other) {
        Ok(read) => arrays_of(
            read,
            places,
            numbers_room,
            words_room,
            sizes,
            numbers,
            rings,
            polygons,
        ),
        Err(status) => status,
    }
}

/// Does what `wkt_explain` does, of a text in dialects, which has a room for what it is read as.
#[unsafe(no_mangle)]
pub extern "C" fn wkt_explain_in(
    text: &[u8],
    places: u32,
    read_room: &mut [u8],
    message: &mut u32,
    start: &mut usize,
    stop: &mut usize,
    expected: &mut u32,
) -> u32
    ensures answers { AnswersExplainIn places text.now result message.new start.new stop.new expected.new }
    ensures kept { 1 ≤ result → (message.new ≡ message.old) × (expected.new ≡ expected.old) }
    ensures place_kept { 1 ≤ result → result ≢ NOT_WHOLE → (start.new ≡ start.old) × (stop.new ≡ stop.old) }
{
    if !has_dialects(places) {
        return NO_PLACES;
    }
    let mut other = Front::new(read_room);
    match problem_in(text, places, &mut other) {
        Ok(Problem::Refused(why)) => {
            *message = why.message.number();
            *start = why.start;
            *stop = why.end;
            *expected = number_of_expected(why.expected);
            DONE
        }
        Ok(Problem::Rest(at)) => {
            *start = at;
            *stop = text.len();
            NOT_WHOLE
        }
        Err(status) => status,
    }
}

/// Does what `wkt_hint` does, of a text in dialects, which has a room for what it is read as.
#[unsafe(no_mangle)]
pub extern "C" fn wkt_hint_in(text: &[u8], places: u32, read_room: &mut [u8], hint: &mut u32) -> u32
    ensures answers { AnswersHintIn places text.now result hint.new }
    ensures kept { 1 ≤ result → hint.new ≡ hint.old }
{
    if !has_dialects(places) {
        return NO_PLACES;
    }
    let mut other = Front::new(read_room);
    match hint_in(text, places, &mut other) {
        Ok(Some(number)) => {
            *hint = number;
            DONE
        }
        Ok(None) => NOT_WHOLE,
        Err(status) => status,
    }
}
