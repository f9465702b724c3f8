//! The text of flat arrays: they are checked, and their parts go to a text builder.
ghost use Rattle.std.specs.Prelude.{◌≡◌, ◌≤◌, ◌<◌, ◌^◌, length, true, false, IfOk, IfErr, IfSome, IfNone};
ghost use Rattle.wkt_access.specs.declared.dimensions.Dimension.{Dimension};
ghost use Rattle.wkt_types.specs.declared.geometry_type.GeometryType.{GeometryType};
ghost use Rattle.wkt_canonical.specs.TextBuilderMaker.{IsWithin, written_of};
ghost use Rattle.wkt_calls.specs.Answer.{kind_number, dimension_number};
ghost use Rattle.wkt_calls.specs.ColumnArrays.{IsTextOf, AreOfSome};
ghost use Rattle.wkt_calls.specs.Rooms.{text_room};
ghost use Rattle.wkt_calls.specs.Rows.{IsRefused, CopiesOutText};

use crate::fill::copy_out;
use crate::options::MOST_ASKED;
use crate::status::{MEMORY, NO_PLACES, NOT_ARRAYS};
use wkt_canonical::TextBuilder;
use wkt_canonical::laws::texts_are_short;
use wkt_fill::{Given, are_arrays, tell};
use wkt_num::Places;
use wkt_types::{Dimension, GeometryType};

/// Flat arrays of the caller's.
#[derive(Clone, Copy)]
pub struct GivenArrays<'a> {
    pub kind: u32,
    pub dimension: u32,
    pub numbers: &'a [i64],
    pub rings: &'a [usize],
    pub polygons: &'a [usize],
}

fn kind_of(number: u32) -> Result<GeometryType, u32>
    ensures ok { IfOk result (λ k. number ≡ kind_number k) }
    ensures one { IfOk result (λ k. (l : GeometryType) → number ≡ kind_number l → k ≡ l) }
    ensures err { IfErr result (λ s. (s ≡ 26) × ((k : GeometryType) → number ≡ kind_number k → ⊥)) }
{
    match number {
        0 => Ok(GeometryType::Point),
        1 => Ok(GeometryType::LineString),
        2 => Ok(GeometryType::Polygon),
        3 => Ok(GeometryType::MultiPoint),
        4 => Ok(GeometryType::MultiLineString),
        5 => Ok(GeometryType::MultiPolygon),
        6 => Ok(GeometryType::GeometryCollection),
        _ => Err(NOT_ARRAYS),
    }
}

fn dimension_of(number: u32) -> Result<Dimension, u32>
    ensures ok { IfOk result (λ d. number ≡ dimension_number d) }
    ensures one { IfOk result (λ d. (e : Dimension) → number ≡ dimension_number e → d ≡ e) }
    ensures err { IfErr result (λ s. (s ≡ 26) × ((d : Dimension) → number ≡ dimension_number d → ⊥)) }
{
    match number {
        0 => Ok(Dimension::XY),
        1 => Ok(Dimension::XYZ),
        2 => Ok(Dimension::XYM),
        3 => Ok(Dimension::XYZM),
        _ => Err(NOT_ARRAYS),
    }
}

/// How much room a text builder needs for the text of the arrays, or `None` where that is no size: the text of a number has no more
/// than its places and 21 bytes; a number takes two more, a ring and a polygon seven each, and the text builder 74.
fn room_of(given: Given<'_>, places: u32) -> Option<usize>
    requires { places ≤ 36 }
    ensures some { IfSome result (λ n. n ≡ text_room places given.entry.numbers.now given.entry.rings.now given.entry.polygons.now) }
    ensures none { IfNone result (2 ^ 64 ≤ text_room places given.entry.numbers.now given.entry.rings.now given.entry.polygons.now) }
{
    let numbers = given.numbers.len().checked_mul(places as usize + 23)?;
    let rings = given.rings.len().checked_mul(7)?;
    let polygons = given.polygons.len().checked_mul(7)?;
    let parts = rings.checked_add(polygons)?;
    numbers.checked_add(parts)?.checked_add(74)
}

/// Whether a room of so many bytes is enough for a text builder.
fn is_enough(room: usize, given: Given<'_>, places: u32) -> bool
    requires { places ≤ 36 }
    ensures yes { result ≡ true → text_room places given.entry.numbers.now given.entry.rings.now given.entry.polygons.now ≤ room }
    ensures no { result ≡ false → room < text_room places given.entry.numbers.now given.entry.rings.now given.entry.polygons.now }
{
    match room_of(given, places) {
        Some(needed) => needed <= room,
        None => false,
    }
}

/// A text builder that has written the text of the geometry of those arrays, if the room is large enough.
pub(crate) fn text_of<'a>(
    given: GivenArrays<'_>,
    places: Places,
    room: &'a mut [u8],
) -> Result<TextBuilder<'a, Places>, u32>
    requires { places ≤ 36 }
    ensures ok { IfOk result (λ builder. IsTextOf places given.entry.kind given.entry.dimension given.entry.numbers.now given.entry.rings.now given.entry.polygons.now (written_of builder).bytes) }
    ensures within { IfOk result IsWithin }
    ensures err { IfErr result (IsRefused (AreOfSome places given.entry.kind given.entry.dimension given.entry.numbers.now given.entry.rings.now given.entry.polygons.now)) }
    ensures lacks { IfErr result (λ s. s ≡ MEMORY → length room.old < text_room places given.entry.numbers.now given.entry.rings.now given.entry.polygons.now) }
{
    let arrays = Given {
        kind: kind_of(given.kind)?,
        dimension: dimension_of(given.dimension)?,
        numbers: given.numbers,
        rings: given.rings,
        polygons: given.polygons,
    };
    if !are_arrays(arrays) {
        return Err(NOT_ARRAYS);
    }
    if !is_enough(room.len(), arrays, places.places()) {
        return Err(MEMORY);
    }
    // No effect at run time. The proof reads that no number's text is too long.
    texts_are_short();
    let builder = TextBuilder::new(places, room);
    Ok(tell::<TextBuilder<'a, Places>>(arrays, builder))
}

/// Copies out the text of the geometry of those arrays.
fn copy_out_text(
    given: GivenArrays<'_>,
    places: Places,
    room: &mut [u8],
    out: &mut [u8],
    needed: &mut usize,
) -> u32
    requires { places ≤ 36 }
    ensures { CopiesOutText places given.entry.kind given.entry.dimension given.entry.numbers.now given.entry.rings.now given.entry.polygons.now
        (length room.old) out.old out.new needed.old needed.new result }
{
    match text_of(given, places, room) {
        Ok(builder) => copy_out(builder.written(), out, needed),
        Err(status) => status,
    }
}

/// Copies out the text of the geometry of those arrays, with decimals of so many places.
pub fn copy_out_text_at(
    given: GivenArrays<'_>,
    places: u32,
    room: &mut [u8],
    out: &mut [u8],
    needed: &mut usize,
) -> u32
    ensures { CopiesOutText places given.entry.kind given.entry.dimension given.entry.numbers.now given.entry.rings.now given.entry.polygons.now
        (length room.old) out.old out.new needed.old needed.new result }
{
    if places > MOST_ASKED {
        return NO_PLACES;
    }
    copy_out_text(given, Places::new(places), room, out, needed)
}
