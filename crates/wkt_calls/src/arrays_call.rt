//! The arrays of one text, for a caller's buffers.
ghost use Rattle.std.specs.Prelude.{◌≡◌, ◌≤◌, ◌<◌, ◌≢◌, ◌⊎◌, length, false};
ghost use Rattle.wkt_calls.specs.Answer.{places_in, asks_whole, EndsAsAsked};
ghost use Rattle.wkt_calls.specs.Rooms.{LackRooms};
ghost use Rattle.wkt_calls.specs.Arrays.{IsNotFlat, HasMoreAt, HasNoPlaceFor, AnswersArrays, IsFlatPoint, AreHandedOut, HaveNoRoom};

use crate::fill::{copy_to_front, put_two};
use crate::flat::{find_point, flat_asked};
use crate::options::ends_as_asked;
use crate::sizes::WktSizes;
use crate::status::{DONE, MEMORY, NOT_WHOLE, SMALL};
use wkt_fill::Room;
use wkt_sources::FastPoint;

/// How long a text may be whose arrays are made in a room on the stack.
pub const FEW_ARRAYS: usize = 64;
/// How long a text may be whose arrays are made in the least room, which is cleared for each call.
const FEWEST_ARRAYS: usize = 32;

/// Copies out the arrays of a text, which are made in the room first.
#[inline(always)]
pub fn arrays_in(
    text: &[u8],
    places: u32,
    room: Room<'_>,
    sizes: &mut WktSizes,
    numbers: &mut [i64],
    rings: &mut [usize],
    polygons: &mut [usize],
) -> u32
    requires { places_in places ≤ 36 }
    ensures filled { result ≡ DONE → AreHandedOut (places_in places) text.now sizes.new numbers.old numbers.new rings.old
        rings.new polygons.old polygons.new }
    ensures small { result ≡ SMALL → HaveNoRoom (places_in places) text.now sizes.new numbers.old rings.old polygons.old }
    ensures as_asked { (result ≡ DONE) ⊎ (result ≡ SMALL) → EndsAsAsked (asks_whole places) text.now sizes.new.end }
    ensures more { result ≡ NOT_WHOLE → HasMoreAt (places_in places) (asks_whole places) text.now sizes.new }
    ensures memory { result ≡ MEMORY → HasNoPlaceFor (places_in places) text.now (length room.entry.numbers.now)
        (length room.entry.rings.now) (length room.entry.polygons.now) }
    ensures others { 1 ≤ result → result ≢ SMALL → result ≢ MEMORY → result ≢ NOT_WHOLE →
        IsNotFlat (places_in places) text.now result }
    ensures kept { 1 ≤ result →
        (numbers.new ≡ numbers.old) × (rings.new ≡ rings.old) × (polygons.new ≡ polygons.old) }
    ensures sizes_kept { 1 ≤ result → result ≢ SMALL → result ≢ NOT_WHOLE → sizes.new ≡ sizes.old }
{
    match flat_asked(text, places, room) {
        Ok(flat) => {
            let all = flat.arrays.numbers();
            let ring_ends = flat.arrays.rings();
            let polygon_ends = flat.arrays.polygons();
            sizes.kind = flat.kind;
            sizes.dimension = flat.dimension;
            sizes.numbers = all.len();
            sizes.rings = ring_ends.len();
            sizes.polygons = polygon_ends.len();
            sizes.end = flat.end;
            if !ends_as_asked(text, flat.end, places) {
                return NOT_WHOLE;
            }
            if all.len() > numbers.len()
                || ring_ends.len() > rings.len()
                || polygon_ends.len() > polygons.len()
            {
                return SMALL;
            }
            copy_to_front(all, numbers);
            copy_to_front(ring_ends, rings);
            copy_to_front(polygon_ends, polygons);
            DONE
        }
        Err(status) => status,
    }
}

/// Copies out the arrays of a point, which the text begins with.
#[inline(always)]
fn copy_out_point(
    text: &[u8],
    places: u32,
    point: FastPoint,
    sizes: &mut WktSizes,
    numbers: &mut [i64],
    rings: &mut [usize],
    polygons: &mut [usize],
) -> u32
    requires { IsFlatPoint (places_in places) text.now point }
    ensures filled { result ≡ DONE → AreHandedOut (places_in places) text.now sizes.new numbers.old numbers.new rings.old
        rings.new polygons.old polygons.new }
    ensures small { result ≡ SMALL → HaveNoRoom (places_in places) text.now sizes.new numbers.old rings.old polygons.old }
    ensures as_asked { (result ≡ DONE) ⊎ (result ≡ SMALL) → EndsAsAsked (asks_whole places) text.now sizes.new.end }
    ensures more { result ≡ NOT_WHOLE → HasMoreAt (places_in places) (asks_whole places) text.now sizes.new }
    ensures three { (result ≡ DONE) ⊎ ((result ≡ SMALL) ⊎ (result ≡ NOT_WHOLE)) }
    ensures kept { 1 ≤ result →
        (numbers.new ≡ numbers.old) × (rings.new ≡ rings.old) × (polygons.new ≡ polygons.old) }
    ensures sizes_kept { 1 ≤ result → result ≢ SMALL → result ≢ NOT_WHOLE → sizes.new ≡ sizes.old }
{
    sizes.kind = 0;
    sizes.dimension = 0;
    sizes.numbers = 2;
    sizes.rings = 2;
    sizes.polygons = 2;
    sizes.end = point.end;
    if !ends_as_asked(text, point.end, places) {
        return NOT_WHOLE;
    }
    if numbers.len() < 2 || rings.len() < 2 || polygons.len() < 2 {
        return SMALL;
    }
    put_two(point.x, point.y, numbers);
    put_two(0, 1, rings);
    put_two(0, 1, polygons);
    DONE
}

/// Copies out the arrays of a short text. A longer one may have no room.
pub fn arrays_short(
    text: &[u8],
    places: u32,
    sizes: &mut WktSizes,
    numbers: &mut [i64],
    rings: &mut [usize],
    polygons: &mut [usize],
) -> u32
    requires { places_in places ≤ 36 }
    ensures { AnswersArrays places text.now (64 < length text.now) result sizes.old sizes.new numbers.old numbers.new
        rings.old rings.new polygons.old polygons.new }
{
    let mut point = FastPoint { x: 0, y: 0, end: 0 };
    if find_point(text, places, &mut point) {
        return copy_out_point(text, places, point, sizes, numbers, rings, polygons);
    }
    // As many as a text of that length may have: a number takes two bytes at least, with what follows it; a ring takes
    // four, and a polygon six.
    if text.len() <= FEWEST_ARRAYS {
        return arrays_cleared::<18, 10, 7>(text, places, sizes, numbers, rings, polygons);
    }
    arrays_cleared::<34, 18, 12>(text, places, sizes, numbers, rings, polygons)
}

/// The arrays of a text that may be no point. It is apart since its room, for so many, is cleared for each call.
#[inline(never)]
fn arrays_cleared<const NUMBERS: usize, const RINGS: usize, const POLYGONS: usize>(
    text: &[u8],
    places: u32,
    sizes: &mut WktSizes,
    numbers: &mut [i64],
    rings: &mut [usize],
    polygons: &mut [usize],
) -> u32
    requires places { places_in places ≤ 36 }
    requires few { (NUMBERS ≤ 34) × (RINGS ≤ 18) × (POLYGONS ≤ 12) }
    ensures { AnswersArrays places text.now (HasNoPlaceFor (places_in places) text.now NUMBERS RINGS POLYGONS) result
        sizes.old sizes.new numbers.old numbers.new rings.old rings.new polygons.old polygons.new }
{
    let mut few_numbers = [0i64; NUMBERS];
    let mut few_rings = [0usize; RINGS];
    let mut few_polygons = [0usize; POLYGONS];
    let room = Room {
        numbers: &mut few_numbers,
        rings: &mut few_rings,
        polygons: &mut few_polygons,
    };
    arrays_in(text, places, room, sizes, numbers, rings, polygons)
}

/// Copies out the arrays of a text that isn't short, which are made in the rooms first.
#[inline(never)]
pub fn arrays_long(
    text: &[u8],
    places: u32,
    numbers_room: &mut [i64],
    words_room: &mut [usize],
    sizes: &mut WktSizes,
    numbers: &mut [i64],
    rings: &mut [usize],
    polygons: &mut [usize],
) -> u32
    requires { places_in places ≤ 36 }
    ensures { AnswersArrays places text.now (LackRooms (places_in places) text.now (length numbers_room.old)
        (length words_room.old)) result sizes.old sizes.new numbers.old numbers.new rings.old rings.new polygons.old
        polygons.new }
{
    let Some((ring_room, polygon_room)) = words_room.split_at_mut_checked(text.len() / 4 + 2) else {
        return MEMORY;
    };
    let room = Room {
        numbers: numbers_room,
        rings: ring_room,
        polygons: polygon_room,
    };
    arrays_in(text, places, room, sizes, numbers, rings, polygons)
}
