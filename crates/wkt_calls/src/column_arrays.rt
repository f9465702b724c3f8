//! A column of texts as flat arrays at once.
ghost use Rattle.std.specs.Prelude.{◌≡◌, ◌≤◌, ◌⊎◌, IfErr, MatchResult, [], false, length};
ghost use Rattle.wkt_calls.specs.Answer.{places_in, asks_whole};
ghost use Rattle.wkt_calls.specs.Column.{AreOffsets, HasBits, row_count};
ghost use Rattle.wkt_calls.specs.Arrays.{IsFlatPoint};
ghost use Rattle.wkt_calls.specs.ColumnArrays.{FillColumn, LackRoom, as_column};
ghost use Rattle.wkt_calls.specs.Rows.{HoldsNoArrays, AddsArrays, AddsRowArrays, HoldsArrays, held_arrays, items_of, row_of};

use crate::column::{GivenColumn, is_null};
use crate::fill::{copy_to_front, copy_whole};
use crate::flat::{flat_asked, make_point};
use crate::given_text::GivenArrays;
use crate::joined::Joined;
use crate::list::RoomList;
use crate::options::{ends_as_asked, places_of};
use crate::sizes::WktColumnSizes;
use crate::status::{DONE, MEMORY, NOT_WHOLE, NULL_ROW, SMALL};
use wkt_fill::Room;
use wkt_sources::FastPoint;

/// The arrays of some first rows, one row's after the other's.
#[derive(Drop)]
pub struct ArrayRows<'a> {
    pub(crate) numbers: Joined<'a, i64>,
    pub(crate) rings: Joined<'a, usize>,
    pub(crate) polygons: Joined<'a, usize>,
    pub(crate) kinds: RoomList<'a, u32>,
    pub(crate) dimensions: RoomList<'a, u32>,
    pub(crate) statuses: RoomList<'a, u32>,
}

impl<'a> ArrayRows<'a> {
    /// Adds a row of those arrays, with its status.
    #[inline(always)]
    fn add(&mut self, row: GivenArrays<'_>, status: u32) -> Result<(), u32>
        ensures { MatchResult result
            (λ _. AddsArrays (row_of row.entry.kind row.entry.dimension row.entry.numbers.now row.entry.rings.now row.entry.polygons.now) status self.old self.new)
            (λ s. s ≡ MEMORY) }
    {
        self.numbers.add(row.numbers)?;
        self.rings.add(row.rings)?;
        self.polygons.add(row.polygons)?;
        self.kinds.push(row.kind)?;
        self.dimensions.push(row.dimension)?;
        self.statuses.push(status)
    }

    /// Adds a row without arrays, which has this status.
    #[cold]
    #[inline(never)]
    fn add_none(&mut self, status: u32) -> Result<(), u32>
        ensures { MatchResult result (λ _. AddsArrays (row_of 0 0 [] [] []) status self.old self.new) (λ s. s ≡ MEMORY) }
    {
        let none = GivenArrays {
            kind: 0,
            dimension: 0,
            numbers: &[],
            rings: &[],
            polygons: &[],
        };
        self.add(none, status)
    }

    /// Adds the arrays of a row that is a point.
    #[inline(always)]
    fn add_point(&mut self, text: &[u8], options: u32, point: FastPoint) -> Result<(), u32>
        requires { IsFlatPoint (places_in options) text.now point }
        ensures { MatchResult result
            (λ _. AddsRowArrays (places_in options) (asks_whole options) false text.now self.old self.new) (λ s. s ≡ MEMORY) }
    {
        if !ends_as_asked(text, point.end, options) {
            return self.add_none(NOT_WHOLE);
        }
        let row = GivenArrays {
            kind: 0,
            dimension: 0,
            numbers: &[point.x, point.y],
            rings: &[0, 1],
            polygons: &[0, 1],
        };
        self.add(row, DONE)
    }

    /// Adds the arrays of a row, which are made in the room first.
    #[inline(always)]
    fn add_row(
        &mut self,
        text: &[u8],
        null: bool,
        options: u32,
        numbers: &mut [i64],
        rings: &mut [usize],
        polygons: &mut [usize],
    ) -> Result<(), u32>
        requires places { places_in options ≤ 36 }
        ensures { MatchResult result
            (λ _. AddsRowArrays (places_in options) (asks_whole options) null text.now self.old self.new) (λ s. s ≡ MEMORY) }
    {
        if null {
            return self.add_none(NULL_ROW);
        }
        if let Some(point) = make_point(places_of(options), text) {
            return self.add_point(text, options, point);
        }
        self.add_flat(text, options, numbers, rings, polygons)
    }

    /// Adds the arrays of a row that isn't null and may be no point.
    #[inline(never)]
    fn add_flat(
        &mut self,
        text: &[u8],
        options: u32,
        numbers: &mut [i64],
        rings: &mut [usize],
        polygons: &mut [usize],
    ) -> Result<(), u32>
        requires { places_in options ≤ 36 }
        ensures { MatchResult result
            (λ _. AddsRowArrays (places_in options) (asks_whole options) false text.now self.old self.new) (λ s. s ≡ MEMORY) }
    {
        let room = Room {
            numbers,
            rings,
            polygons,
        };
        match flat_asked(text, options, room) {
            Ok(flat) => {
                if !ends_as_asked(text, flat.end, options) {
                    return self.add_none(NOT_WHOLE);
                }
                let row = GivenArrays {
                    kind: flat.kind,
                    dimension: flat.dimension,
                    numbers: flat.arrays.numbers(),
                    rings: flat.arrays.rings(),
                    polygons: flat.arrays.polygons(),
                };
                self.add(row, DONE)
            }
            Err(MEMORY) => Err(MEMORY),
            Err(status) => self.add_none(status),
        }
    }
}

/// The first places of a room, so many, and the others.
fn cut<T>(room: &mut [T], at: usize) -> Result<(&mut [T], &mut [T]), u32>
    ensures { IfErr result (λ s. s ≡ MEMORY) }
{
    match room.split_at_mut_checked(at) {
        Some(parts) => Ok(parts),
        None => Err(MEMORY),
    }
}

/// Adds the arrays of all rows of a column, each of which are made in these places first.
fn add_rows<'a>(
    given: GivenColumn<'_>,
    options: u32,
    none: ArrayRows<'a>,
    numbers: &mut [i64],
    rings: &mut [usize],
    polygons: &mut [usize],
) -> Result<ArrayRows<'a>, u32>
    requires offsets { AreOffsets given.texts.now given.offsets.now }
    requires bits { HasBits given.valid.now (row_count given.offsets.now) }
    requires places { places_in options ≤ 36 }
    requires none { HoldsNoArrays none }
    ensures { MatchResult result
        (HoldsArrays (places_in options) (asks_whole options) given.entry.texts.now given.entry.offsets.now given.entry.valid.now (row_count given.entry.offsets.now))
        (λ s. s ≡ MEMORY) }
{
    let mut rows = none;
    let count = given.offsets.len() - 1;
    for i in 0..count {
        let text = &given.texts[given.offsets[i]..given.offsets[i + 1]];
        let null = is_null(given.valid, i);
        rows.add_row(text, null, options, numbers, rings, polygons)?;
    }
    Ok(rows)
}

/// The arrays of all rows of a column, in the rooms: those of a row are made in places apart, and added to the others.
pub fn all_arrays<'a>(
    given: GivenColumn<'_>,
    options: u32,
    numbers_room: &'a mut [i64],
    words_room: &'a mut [usize],
    codes_room: &'a mut [u32],
) -> Result<ArrayRows<'a>, u32>
    requires offsets { AreOffsets given.texts.now given.offsets.now }
    requires bits { HasBits given.valid.now (row_count given.offsets.now) }
    requires places { places_in options ≤ 36 }
    ensures { MatchResult result
        (HoldsArrays (places_in options) (asks_whole options) given.entry.texts.now given.entry.offsets.now given.entry.valid.now (row_count given.entry.offsets.now))
        (λ s. s ≡ MEMORY) }
{
    let bytes = given.texts.len();
    let count = given.offsets.len() - 1;
    let (row_numbers, numbers) = cut(numbers_room, bytes / 2 + 2)?;
    let (number_ends, words) = cut(words_room, count.saturating_add(1))?;
    let (ring_ends, words) = cut(words, count.saturating_add(1))?;
    let (polygon_ends, words) = cut(words, count.saturating_add(1))?;
    let (row_rings, words) = cut(words, bytes / 4 + 2)?;
    let (row_polygons, words) = cut(words, bytes / 6 + 2)?;
    let (rings, polygons) = cut(words, (bytes / 4).saturating_add(count.saturating_mul(2)))?;
    let (kinds, codes) = cut(codes_room, count)?;
    let (dimensions, statuses) = cut(codes, count)?;
    let rows = ArrayRows {
        numbers: Joined::new(numbers, number_ends)?,
        rings: Joined::new(rings, ring_ends)?,
        polygons: Joined::new(polygons, polygon_ends)?,
        kinds: RoomList::new(kinds),
        dimensions: RoomList::new(dimensions),
        statuses: RoomList::new(statuses),
    };
    add_rows(given, options, rows, row_numbers, row_rings, row_polygons)
}

/// Copies out the arrays of a column, if there is room for them.
pub fn copy_out_arrays(
    rows: &ArrayRows<'_>,
    sizes: &mut WktColumnSizes,
    kinds: &mut [u32],
    dimensions: &mut [u32],
    numbers: &mut [i64],
    number_offsets: &mut [usize],
    rings: &mut [usize],
    ring_offsets: &mut [usize],
    polygons: &mut [usize],
    polygon_offsets: &mut [usize],
    statuses: &mut [u32],
) -> u32
    requires number_offsets_fit { length (items_of rows.now.numbers.ends) ≡ length number_offsets.old }
    requires ring_offsets_fit { length (items_of rows.now.rings.ends) ≡ length ring_offsets.old }
    requires polygon_offsets_fit { length (items_of rows.now.polygons.ends) ≡ length polygon_offsets.old }
    requires kinds_fit { length (items_of rows.now.kinds) ≡ length kinds.old }
    requires dimensions_fit { length (items_of rows.now.dimensions) ≡ length dimensions.old }
    requires statuses_fit { length (items_of rows.now.statuses) ≡ length statuses.old }
    ensures stands { result ≡ DONE → FillColumn (held_arrays rows.now) sizes.new numbers.old rings.old polygons.old
        (as_column kinds.new dimensions.new numbers.new number_offsets.new rings.new ring_offsets.new polygons.new
        polygon_offsets.new) }
    ensures statuses_are { result ≡ DONE → statuses.new ≡ items_of rows.now.statuses }
    ensures lacks { result ≡ SMALL → LackRoom (held_arrays rows.now) sizes.new (as_column kinds.old dimensions.old
        numbers.old number_offsets.old rings.old ring_offsets.old polygons.old polygon_offsets.old) }
    ensures kept { 1 ≤ result → (numbers.new ≡ numbers.old) × (rings.new ≡ rings.old) × (polygons.new ≡ polygons.old) }
    ensures offsets_kept { 1 ≤ result → (number_offsets.new ≡ number_offsets.old)
        × (ring_offsets.new ≡ ring_offsets.old) × (polygon_offsets.new ≡ polygon_offsets.old) }
    ensures rows_kept { 1 ≤ result →
        (kinds.new ≡ kinds.old) × (dimensions.new ≡ dimensions.old) × (statuses.new ≡ statuses.old) }
    ensures two { (result ≡ DONE) ⊎ (result ≡ SMALL) }
{
    sizes.numbers = rows.numbers.items.items().len();
    sizes.rings = rows.rings.items.items().len();
    sizes.polygons = rows.polygons.items.items().len();
    if rows.numbers.items.items().len() > numbers.len()
        || rows.rings.items.items().len() > rings.len()
        || rows.polygons.items.items().len() > polygons.len()
    {
        return SMALL;
    }
    copy_whole(rows.kinds.items(), kinds);
    copy_whole(rows.dimensions.items(), dimensions);
    copy_whole(rows.statuses.items(), statuses);
    copy_to_front(rows.numbers.items.items(), numbers);
    copy_whole(rows.numbers.ends.items(), number_offsets);
    copy_to_front(rows.rings.items.items(), rings);
    copy_whole(rows.rings.ends.items(), ring_offsets);
    copy_to_front(rows.polygons.items.items(), polygons);
    copy_whole(rows.polygons.ends.items(), polygon_offsets);
    DONE
}
