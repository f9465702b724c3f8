//! A column to arrays at once, for C.
ghost use Rattle.wkt_calls.specs.Answer.{IsHandedOut, HasNoRoom, places_in};
ghost use Rattle.std.specs.Prelude.{◌≡◌, ◌≤◌, ◌<◌, ◌≢◌, ◌⊎◌, ℕ, List, length};
ghost use Rattle.wkt_calls.specs.ColumnArrays.{ColumnArrays, AreColumnArrays, AreFilled, LackRoom, HasNoArrays, IsTextColumn, IsArrayColumn, AreColumnTexts, HasNoTexts, as_column};

use wkt_calls::column::{GivenColumn, copy_out_rows, is_column};
use wkt_calls::column_arrays::{all_arrays, copy_out_arrays};
use wkt_calls::column_texts::{GivenRows, is_array_column, texts_at};
use wkt_calls::options::has_places;
use wkt_calls::sizes::WktColumnSizes;
use wkt_calls::status::{DONE, NO_PLACES, NOT_COLUMN, SMALL};

/// Writes the arrays of all texts of a column, each as `wkt_arrays` gives those of one: of each row the kind and the
/// dimension; the numbers and offsets, one row's after the other's, to the fronts of `numbers`, `rings` and `polygons`,
/// with where each row's begin, and the end of the last; and of each row 0, or why it has no arrays. Where a buffer has
/// no room, `sizes` says how much each of the three needs. A column is as for `wkt_column_canonical`. The arrays are made in
/// the rooms first, and the status is 22 where these are too small; so that it never is, texts of n bytes in r rows have
/// n / 2 * 2 + 2 r + 2 numbers, n / 4 * 2 + n / 6 * 2 + 7 r + 7 words and 3 r codes.
#[unsafe(no_mangle)]
pub extern "C" fn wkt_column_arrays(
    texts: &[u8],
    offsets: &[usize],
    valid: &[u8],
    places: u32,
    numbers_room: &mut [i64],
    words_room: &mut [usize],
    codes_room: &mut [u32],
    sizes: &mut WktColumnSizes,
    kinds: &mut [u32],
    dimensions: &mut [u32],
    numbers: &mut [i64],
    number_offsets: &mut [usize],
    rings: &mut [usize],
    ring_offsets: &mut [usize],
    polygons: &mut [usize],
    polygon_offsets: &mut [usize],
    statuses: &mut [u32],
) -> u32
    ensures filled { result ≡ DONE → AreFilled places texts.now offsets.now valid.now statuses.new sizes.new numbers.old
        rings.old polygons.old (as_column kinds.new dimensions.new numbers.new number_offsets.new rings.new
        ring_offsets.new polygons.new polygon_offsets.new) }
    ensures small { result ≡ SMALL → (arrays : ColumnArrays) × (reported : List ℕ) × AreColumnArrays places texts.now
        offsets.now valid.now arrays reported × LackRoom arrays sizes.new (as_column kinds.old dimensions.old numbers.old
        number_offsets.old rings.old ring_offsets.old polygons.old polygon_offsets.old) }
    ensures column { (result ≡ DONE) ⊎ (result ≡ SMALL) → IsTextColumn texts.now offsets.now valid.now (as_column kinds.old
        dimensions.old numbers.old number_offsets.old rings.old ring_offsets.old polygons.old polygon_offsets.old)
        statuses.old }
    ensures no_column { (IsTextColumn texts.now offsets.now valid.now (as_column kinds.old dimensions.old numbers.old
        number_offsets.old rings.old ring_offsets.old polygons.old polygon_offsets.old) statuses.old → ⊥) →
        result ≡ NOT_COLUMN }
    ensures others { 1 ≤ result → result ≢ SMALL → HasNoArrays places texts.now offsets.now valid.now (as_column
        kinds.old dimensions.old numbers.old number_offsets.old rings.old ring_offsets.old polygons.old
        polygon_offsets.old) statuses.old result }
    ensures no_places { IsTextColumn texts.now offsets.now valid.now (as_column kinds.old dimensions.old numbers.old
        number_offsets.old rings.old ring_offsets.old polygons.old polygon_offsets.old) statuses.old →
        36 < places_in places → result ≡ NO_PLACES }
    ensures kept { 1 ≤ result → (numbers.new ≡ numbers.old) × (rings.new ≡ rings.old) × (polygons.new ≡ polygons.old) }
    ensures offsets_kept { 1 ≤ result → (number_offsets.new ≡ number_offsets.old)
        × (ring_offsets.new ≡ ring_offsets.old) × (polygon_offsets.new ≡ polygon_offsets.old) }
    ensures rows_kept { 1 ≤ result →
        (kinds.new ≡ kinds.old) × (dimensions.new ≡ dimensions.old) × (statuses.new ≡ statuses.old) }
    ensures sizes_kept { 1 ≤ result → result ≢ SMALL → sizes.new ≡ sizes.old }
{
    let given = GivenColumn {
        texts,
        offsets,
        valid,
    };
    if !is_column(given, number_offsets, statuses) {
        return NOT_COLUMN;
    }
    let rows = statuses.len();
    if ring_offsets.len() != offsets.len()
        || polygon_offsets.len() != offsets.len()
        || kinds.len() != rows
        || dimensions.len() != rows
    {
        return NOT_COLUMN;
    }
    if !has_places(places) {
        return NO_PLACES;
    }
    match all_arrays(given, places, numbers_room, words_room, codes_room) {
        Ok(rows) => copy_out_arrays(
            &rows,
            sizes,
            kinds,
            dimensions,
            numbers,
            number_offsets,
            rings,
            ring_offsets,
            polygons,
            polygon_offsets,
            statuses,
        ),
        Err(status) => status,
    }
}

/// Writes the canonical texts of a column of arrays, which are as `wkt_column_arrays` gives them, to the front of `out`,
/// their length to `needed`, where each begins in `out`, with the end of the last, to `out_offsets`, and of each row to
/// `statuses` why it has none, or 0. `valid` has a bit for each row, which is 0 where the row is null, or no byte. The
/// texts are made in the rooms first, and the status is 22 where these are too small; so that it never is, the first has
/// twice as many bytes as `wkt_from_arrays` needs for all arrays and 74 a row, and the others an offset a row and one more, and
/// a code a row.
#[unsafe(no_mangle)]
pub extern "C" fn wkt_column_from_arrays(
    kinds: &[u32],
    dimensions: &[u32],
    numbers: &[i64],
    number_offsets: &[usize],
    rings: &[usize],
    ring_offsets: &[usize],
    polygons: &[usize],
    polygon_offsets: &[usize],
    valid: &[u8],
    places: u32,
    room: &mut [u8],
    ends_room: &mut [usize],
    codes_room: &mut [u32],
    out: &mut [u8],
    out_offsets: &mut [usize],
    statuses: &mut [u32],
    needed: &mut usize,
) -> u32
    ensures written { result ≡ DONE → (answers : List ℕ) × AreColumnTexts places (as_column kinds.now dimensions.now
        numbers.now number_offsets.now rings.now ring_offsets.now polygons.now polygon_offsets.now) valid.now answers
        out_offsets.new statuses.new × IsHandedOut answers needed.new out.old out.new }
    ensures small { result ≡ SMALL → (answers : List ℕ) × (ends : List ℕ) × (reported : List ℕ) × AreColumnTexts places
        (as_column kinds.now dimensions.now numbers.now number_offsets.now rings.now ring_offsets.now polygons.now
        polygon_offsets.now) valid.now answers ends reported × HasNoRoom answers needed.new out.old }
    ensures column { (result ≡ DONE) ⊎ (result ≡ SMALL) → IsArrayColumn (as_column kinds.now dimensions.now numbers.now
        number_offsets.now rings.now ring_offsets.now polygons.now polygon_offsets.now) valid.now out_offsets.old
        statuses.old }
    ensures no_column { (IsArrayColumn (as_column kinds.now dimensions.now numbers.now number_offsets.now rings.now
        ring_offsets.now polygons.now polygon_offsets.now) valid.now out_offsets.old statuses.old → ⊥) →
        result ≡ NOT_COLUMN }
    ensures others { 1 ≤ result → result ≢ SMALL → HasNoTexts places (as_column kinds.now dimensions.now numbers.now
        number_offsets.now rings.now ring_offsets.now polygons.now polygon_offsets.now) valid.now out_offsets.old
        statuses.old result }
    ensures kept { 1 ≤ result →
        (out.new ≡ out.old) × (out_offsets.new ≡ out_offsets.old) × (statuses.new ≡ statuses.old) }
    ensures needed_kept { 1 ≤ result → result ≢ SMALL → needed.new ≡ needed.old }
{
    let given = GivenRows {
        kinds,
        dimensions,
        numbers,
        number_offsets,
        rings,
        ring_offsets,
        polygons,
        polygon_offsets,
        valid,
    };
    if !is_array_column(given, out_offsets, statuses) {
        return NOT_COLUMN;
    }
    match texts_at(given, places, room, ends_room, codes_room) {
        Ok(rows) => copy_out_rows(&rows, out, out_offsets, statuses, needed),
        Err(status) => status,
    }
}
