//! A column of flat arrays as texts at once.
ghost use Rattle.std.specs.Prelude.{◌≡◌, ◌↔◌, ◌⊎◌, ◌≤◌, ◌<◌, IsTrue, MatchResult, length};
ghost use Rattle.wkt_calls.specs.Answer.{HasNoPlaces};
ghost use Rattle.wkt_calls.specs.Column.{AreOffsets, row_count, is_null};
ghost use Rattle.wkt_calls.specs.ColumnArrays.{AreArrayColumn, IsArrayColumn, HasOffsets};
ghost use Rattle.wkt_calls.specs.Rows.{row_of, given_arrays, AddsArraysText, HoldsTexts};

use crate::column::{Rows, are_offsets, has_bits, is_null};
use crate::given_text::{GivenArrays, text_of};
use crate::options::MOST_ASKED;
use crate::status::{DONE, MEMORY, NO_PLACES, NULL_ROW};
use wkt_num::Places;

/// A column of arrays of the caller's, with the bits of the rows that aren't null, if any row is.
#[derive(Clone, Copy)]
pub struct GivenRows<'a> {
    pub kinds: &'a [u32],
    pub dimensions: &'a [u32],
    pub numbers: &'a [i64],
    pub number_offsets: &'a [usize],
    pub rings: &'a [usize],
    pub ring_offsets: &'a [usize],
    pub polygons: &'a [usize],
    pub polygon_offsets: &'a [usize],
    pub valid: &'a [u8],
}

/// Whether these are offsets into the items for so many rows.
fn has_offsets<T>(items: &[T], offsets: &[usize], rows: usize) -> bool
    ensures { IsTrue result ↔ HasOffsets items.now offsets.now rows }
{
    are_offsets(items, offsets) && offsets.len() - 1 == rows
}

/// Whether those are arrays of a column.
fn are_arrays(given: GivenRows<'_>) -> bool
    ensures { IsTrue result ↔ AreArrayColumn (given_arrays given.entry) given.entry.valid.now }
{
    let rows = given.kinds.len();
    if given.dimensions.len() != rows || !has_bits(given.valid, rows) {
        return false;
    }
    has_offsets(given.numbers, given.number_offsets, rows)
        && has_offsets(given.rings, given.ring_offsets, rows)
        && has_offsets(given.polygons, given.polygon_offsets, rows)
}

/// Whether those are arrays of a column, with buffers of so many offsets and statuses for its texts.
pub fn is_array_column(given: GivenRows<'_>, ends: &[usize], statuses: &[u32]) -> bool
    ensures { IsTrue result ↔ IsArrayColumn (given_arrays given.entry) given.entry.valid.now ends.now statuses.now }
{
    let rows = given.kinds.len();
    are_arrays(given) && !ends.is_empty() && ends.len() - 1 == rows && statuses.len() == rows
}

/// Adds the text of a row's arrays, which is written in the room first.
fn add_text(
    places: Places,
    rows: &mut Rows<'_>,
    room: &mut [u8],
    row: GivenArrays<'_>,
    null: bool,
) -> Result<(), u32>
    requires { places ≤ 36 }
    ensures { MatchResult result
        (λ _. AddsArraysText places null (row_of row.entry.kind row.entry.dimension row.entry.numbers.now row.entry.rings.now row.entry.polygons.now) rows.old rows.new)
        (λ s. s ≡ MEMORY) }
{
    if null {
        return rows.add(&[], NULL_ROW);
    }
    match text_of(row, places, room) {
        Ok(builder) => rows.add(builder.written(), DONE),
        Err(MEMORY) => Err(MEMORY),
        Err(status) => rows.add(&[], status),
    }
}

/// The texts of all rows of a column of arrays, in the rooms: each is written in the first, and added to those in the second.
fn all_texts<'a>(
    given: GivenRows<'_>,
    places: Places,
    row_room: &mut [u8],
    room: &'a mut [u8],
    ends_room: &'a mut [usize],
    codes_room: &'a mut [u32],
) -> Result<Rows<'a>, u32>
    requires places { places ≤ 36 }
    requires arrays { AreArrayColumn (given_arrays given) given.valid.now }
    ensures { MatchResult result
        (HoldsTexts places (given_arrays given.entry) given.entry.valid.now (length given.entry.kinds.now))
        (λ s. s ≡ MEMORY) }
{
    let count = given.kinds.len();
    let mut rows = Rows::new(room, ends_room, codes_room)?;
    for i in 0..count {
        let row = GivenArrays {
            kind: given.kinds[i],
            dimension: given.dimensions[i],
            numbers: &given.numbers[given.number_offsets[i]..given.number_offsets[i + 1]],
            rings: &given.rings[given.ring_offsets[i]..given.ring_offsets[i + 1]],
            polygons: &given.polygons[given.polygon_offsets[i]..given.polygon_offsets[i + 1]],
        };
        let null = is_null(given.valid, i);
        add_text(places, &mut rows, row_room, row, null)?;
    }
    Ok(rows)
}

/// The texts of all rows, with decimals of so many places.
pub fn texts_at<'a>(
    given: GivenRows<'_>,
    places: u32,
    room: &'a mut [u8],
    ends_room: &'a mut [usize],
    codes_room: &'a mut [u32],
) -> Result<Rows<'a>, u32>
    requires arrays { AreArrayColumn (given_arrays given) given.valid.now }
    ensures { MatchResult result
        (HoldsTexts places (given_arrays given.entry) given.entry.valid.now (length given.entry.kinds.now))
        (λ s. HasNoPlaces places s ⊎ (s ≡ MEMORY)) }
{
    if places > MOST_ASKED {
        return Err(NO_PLACES);
    }
    let half = room.len() / 2;
    let (row_room, room) = room.split_at_mut(half);
    all_texts(
        given,
        Places::new(places),
        row_room,
        room,
        ends_room,
        codes_room,
    )
}
