//! The flat arrays of the geometry that a text begins with.
ghost use Rattle.std.specs.Prelude.{◌≡◌, ◌≤◌, ◌↔◌, IsTrue, IsUtf8, IfSome, MatchResult, length, drop, true};
ghost use Rattle.wkt_read.specs.Front.{HasNoFront};
ghost use Rattle.wkt_calls.specs.Answer.{places_in, read_at, RefusesText};
ghost use Rattle.wkt_calls.specs.Arrays.{IsFlat, IsFlatPoint, IsNotFlatIn};

use crate::infer::{number_of_dimension, number_of_kind};
use crate::options::places_of;
use crate::status::NOT_TEXT;
use wkt_fill::{ArrayBuilder, Room, fill_arrays};
use wkt_num::Places;
use wkt_sources::{FastPoint, fast_point};

/// Flat arrays with the kind, the dimension and the end of their geometry.
#[derive(Drop)]
pub struct Flat<'a> {
    pub kind: u32,
    pub dimension: u32,
    pub end: usize,
    pub arrays: ArrayBuilder<'a>,
}

/// The arrays of the geometry at the front of a text, in the room. 22: the room is too small.
#[inline(always)]
fn make_flat<'a>(text: &[u8], places: Places, room: Room<'a>) -> Result<Flat<'a>, u32>
    ensures { MatchResult result (IsFlat places text.now) (IsNotFlatIn places text.now room.entry) }
{
    let Some(filled) = fill_arrays(places, text, room) else {
        return Err(refused(places, text));
    };
    // A front is text, so only what follows it has to be looked at.
    if !is_text_from(text, filled.end) {
        return Err(NOT_TEXT);
    }
    let status = filled.arrays.status;
    if status != 0 {
        return Err(status);
    }
    Ok(Flat {
        kind: number_of_kind(filled.arrays.kind),
        dimension: number_of_dimension(filled.arrays.dimension),
        end: filled.end,
        arrays: filled.arrays,
    })
}

/// Whether the bytes from there on are UTF-8.
#[inline(always)]
pub(crate) fn is_text_from(text: &[u8], end: usize) -> bool
    requires { end ≤ length text.now }
    ensures { IsTrue result ↔ IsUtf8 (drop end text.now) }
{
    if end == text.len() {
        return true;
    }
    // A line feed alone, mostly.
    if end + 1 == text.len() && text[end] < 128 {
        return true;
    }
    match str::from_utf8(&text[end..]) {
        Ok(_) => true,
        Err(_) => false,
    }
}

/// The status of a text that has no front: the number of its message. It takes no memory, and no stack for nesting.
#[cold]
#[inline(never)]
fn refusal(places: Places, text: &str) -> u32
    requires { HasNoFront (read_at places) text.now }
    ensures { RefusesText (read_at places) text.now result }
{
    wkt_explain::message(places, text).number()
}

/// Why bytes are refused that have no front.
#[cold]
#[inline(never)]
pub(crate) fn refused(places: Places, text: &[u8]) -> u32
    requires { IsUtf8 text.now → HasNoFront (read_at places) text.now }
    ensures { RefusesText (read_at places) text.now result }
{
    match str::from_utf8(text) {
        Ok(text) => refusal(places, text),
        Err(_) => NOT_TEXT,
    }
}

/// The flat arrays of a text's front, or why it has none, with decimals of as many places as are asked for.
pub fn flat_asked<'a>(text: &[u8], options: u32, room: Room<'a>) -> Result<Flat<'a>, u32>
    requires { places_in options ≤ 36 }
    ensures { MatchResult result (IsFlat (places_in options) text.now) (IsNotFlatIn (places_in options) text.now room.entry) }
{
    make_flat(text, Places::new(places_of(options)), room)
}

/// The point of two numbers at the front of a text. `None`: the caller falls back.
#[inline(always)]
pub fn make_point(places: u32, text: &[u8]) -> Option<FastPoint>
    ensures { IfSome result (λ p. IsFlatPoint places text.now p) }
{
    let Some(point) = fast_point(places, text) else {
        return None;
    };
    if !is_text_from(text, point.end) {
        return None;
    }
    Some(point)
}

/// Puts the point at the front of a text there, with decimals of as many places as are asked for, and returns whether
/// there is one. A point that is returned would need a result slot, zeroed for each text.
#[inline(never)]
pub(crate) fn find_point(text: &[u8], options: u32, point: &mut FastPoint) -> bool
    ensures { result ≡ true → IsFlatPoint (places_in options) text.now point.new }
{
    match make_point(places_of(options), text) {
        Some(found) => {
            *point = found;
            true
        }
        None => false,
    }
}
