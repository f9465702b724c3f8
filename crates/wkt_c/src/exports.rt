//! The functions that C calls.
ghost use Rattle.std.specs.Prelude.{◌≡◌, ◌≤◌, ◌<◌, ◌≢◌, ◌+◌, ◌*◌, ◌⊎◌, ℕ, List, Bool, length};
ghost use Rattle.wkt_lines.specs.Output.{IsOutput};
ghost use Rattle.wkt_calls.specs.Answer.{read_at, print_at, places_in, asks_whole, EndsAsAsked, IsCanonicalOf, IsMore, HasMore, Compares, RefusesAt, RefusesOneAt, IsHeaderOf, NamesNone, HasNoPlaces, IsHandedOut, HasNoRoom, same_number};
ghost use Rattle.wkt_calls.specs.Chunks.{AnswersSome, AnswersNone};
ghost use Rattle.wkt_calls.specs.Rooms.{LackRooms, LackRoom, LacksLineRoom, text_room};
ghost use Rattle.wkt_calls.specs.Calls.{ends_here};
ghost use Rattle.wkt_calls.specs.Column.{AreColumnAnswers, IsColumn, IsNoColumn, row_count};
ghost use Rattle.wkt_calls.specs.ColumnArrays.{IsTextOf, IsNoTextAt};
ghost use Rattle.wkt_calls.specs.Arrays.{IsNotFlat, HasMoreAt, AreHandedOut, HaveNoRoom};

use wkt_calls::arrays_call::{FEW_ARRAYS, arrays_long, arrays_short};
use wkt_calls::canonical::{SHORT, canonical};
use wkt_calls::column::{GivenColumn, answers, copy_out_rows, is_column};
use wkt_calls::compare;
use wkt_calls::fill::copy_out;
use wkt_calls::given_text::{GivenArrays, copy_out_text_at};
use wkt_calls::infer::infer;
use wkt_calls::lines::{self, answer_some, is_last};
use wkt_calls::options::{MOST_ASKED, has_places};
use wkt_calls::sizes::WktSizes;
use wkt_calls::status::{DONE, MEMORY, NO_PLACES, NOT_COLUMN, NOT_WHOLE, SMALL};
use wkt_num::Places;

/// Writes the one text of the geometry that `text` begins with to the front of `out`, its length to `needed`,
/// and to `end` where the geometry ends in `text`. Numbers are decimals of so many places; with 256 more the whole
/// text is to be one geometry. A text of more than 200 bytes is written in the room first, and the status is 22 where that
/// isn't 65 bytes longer than twice the text; what stands in it afterwards means nothing.
#[unsafe(no_mangle)]
pub extern "C" fn wkt_canonical(
    text: &[u8],
    places: u32,
    room: &mut [u8],
    out: &mut [u8],
    needed: &mut usize,
    end: &mut usize,
) -> u32
    ensures written { result ≡ DONE → (answer : List ℕ) × IsCanonicalOf (read_at (places_in places)) (print_at (places_in places)) text.now answer
        end.new × EndsAsAsked (asks_whole places) text.now end.new × IsHandedOut answer needed.new out.old out.new }
    ensures small { result ≡ SMALL → (answer : List ℕ) × IsCanonicalOf (read_at (places_in places)) (print_at (places_in places)) text.now answer
        end.new × EndsAsAsked (asks_whole places) text.now end.new × HasNoRoom answer needed.new out.old }
    ensures bound { (result ≡ DONE) ⊎ (result ≡ SMALL) → needed.new ≤ 2 * length text.now + 65 }
    ensures more { result ≡ NOT_WHOLE → HasMore (read_at (places_in places)) (asks_whole places) text.now end.new }
    ensures memory { result ≡ MEMORY → (SHORT < length text.now) × (length room.old < 2 * length text.now + 65) }
    ensures others { 1 ≤ result → result ≢ SMALL → result ≢ MEMORY → result ≢ NOT_WHOLE →
        RefusesAt (places_in places) text.now result }
    ensures no_places { 36 < places_in places → result ≡ NO_PLACES }
    ensures kept { 1 ≤ result → out.new ≡ out.old }
    ensures needed_kept { 1 ≤ result → result ≢ SMALL → needed.new ≡ needed.old }
    ensures end_kept { 1 ≤ result → result ≢ SMALL → result ≢ NOT_WHOLE → end.new ≡ end.old }
{
    if !has_places(places) {
        return NO_PLACES;
    }
    canonical(text, places, room, out, needed, end)
}

/// Reports whether two texts begin with one geometry: `same` is 1 where their canonical texts are equal, and else
/// 0; `end` and `other_end` are where each geometry ends in its text. Numbers are decimals of so many places; with 256
/// more both whole texts are to be one geometry each. Where a text has more than 200 bytes they are written in the rooms,
/// and the status is 22 where one of these isn't 65 bytes longer than twice its text.
#[unsafe(no_mangle)]
pub extern "C" fn wkt_same_ends(
    one: &[u8],
    other: &[u8],
    places: u32,
    room: &mut [u8],
    other_room: &mut [u8],
    same: &mut u32,
    end: &mut usize,
    other_end: &mut usize,
) -> u32
    ensures compared { result ≡ DONE → (answer : Bool) × Compares (read_at (places_in places)) (print_at (places_in places)) one.now other.now
        end.new other_end.new answer × (same.new ≡ same_number answer) }
    ensures as_asked { result ≡ DONE →
        EndsAsAsked (asks_whole places) one.now end.new × EndsAsAsked (asks_whole places) other.now other_end.new }
    ensures more { result ≡ NOT_WHOLE → (answer : Bool) × Compares (read_at (places_in places)) (print_at (places_in places)) one.now other.now
        end.new other_end.new answer
        × (IsMore (asks_whole places) one.now end.new ⊎ IsMore (asks_whole places) other.now other_end.new) }
    ensures memory { result ≡ MEMORY → ((SHORT < length one.now) ⊎ (SHORT < length other.now))
        × ((length room.old < 2 * length one.now + 65) ⊎ (length other_room.old < 2 * length other.now + 65)) }
    ensures others { 1 ≤ result → result ≢ MEMORY → result ≢ NOT_WHOLE →
        RefusesOneAt (places_in places) one.now other.now result }
    ensures no_places { 36 < places_in places → result ≡ NO_PLACES }
    ensures kept { 1 ≤ result → same.new ≡ same.old }
    ensures ends_kept { 1 ≤ result → result ≢ NOT_WHOLE → (end.new ≡ end.old) × (other_end.new ≡ other_end.old) }
{
    if !has_places(places) {
        return NO_PLACES;
    }
    match compare::same(one, other, places, room, other_room) {
        Ok(compared) => {
            *end = compared.end;
            *other_end = compared.other_end;
            compared.report(one, other, places, same)
        }
        Err(status) => status,
    }
}

/// Whether two texts begin with one geometry, as [`wkt_same_ends`] reports, without where these end.
#[unsafe(no_mangle)]
pub extern "C" fn wkt_same(
    one: &[u8],
    other: &[u8],
    places: u32,
    room: &mut [u8],
    other_room: &mut [u8],
    same: &mut u32,
) -> u32
    ensures compared { result ≡ DONE → (end : ℕ) × (other_end : ℕ) × (answer : Bool)
        × Compares (read_at (places_in places)) (print_at (places_in places)) one.now other.now end other_end answer
        × EndsAsAsked (asks_whole places) one.now end × EndsAsAsked (asks_whole places) other.now other_end
        × (same.new ≡ same_number answer) }
    ensures more { result ≡ NOT_WHOLE → (end : ℕ) × (other_end : ℕ) × (answer : Bool)
        × Compares (read_at (places_in places)) (print_at (places_in places)) one.now other.now end other_end answer
        × (IsMore (asks_whole places) one.now end ⊎ IsMore (asks_whole places) other.now other_end) }
    ensures memory { result ≡ MEMORY → ((SHORT < length one.now) ⊎ (SHORT < length other.now))
        × ((length room.old < 2 * length one.now + 65) ⊎ (length other_room.old < 2 * length other.now + 65)) }
    ensures others { 1 ≤ result → result ≢ MEMORY → result ≢ NOT_WHOLE →
        RefusesOneAt (places_in places) one.now other.now result }
    ensures no_places { 36 < places_in places → result ≡ NO_PLACES }
    ensures kept { 1 ≤ result → same.new ≡ same.old }
{
    let mut end = 0;
    let mut other_end = 0;
    wkt_same_ends(
        one,
        other,
        places,
        room,
        other_room,
        same,
        &mut end,
        &mut other_end,
    )
}

/// Reports the kind (0 Point to 6 GeometryCollection) and the dimension (0 XY, 1 XYZ, 2 XYM, 3 XYZM) that the
/// header of `text` names.
#[unsafe(no_mangle)]
pub extern "C" fn wkt_infer(text: &[u8], kind: &mut u32, dimension: &mut u32) -> u32
    ensures named { result ≡ DONE → IsHeaderOf text.now kind.new dimension.new }
    ensures others { 1 ≤ result → NamesNone text.now result }
    ensures kept { 1 ≤ result → (kind.new ≡ kind.old) × (dimension.new ≡ dimension.old) }
{
    match infer(text) {
        Ok((k, d)) => {
            *kind = k;
            *dimension = d;
            DONE
        }
        Err(status) => status,
    }
}

/// Writes the answers to all lines of `input` to the front of `out`, and their length to `needed`: of each line
/// the text of the geometry that it begins with, or `refused`, and a line feed. They are written in the room first, and the
/// status is 22 where that has no place for them, or may have none for one of them. Numbers are decimals of so many places.
#[unsafe(no_mangle)]
pub extern "C" fn wkt_lines(
    input: &[u8],
    places: u32,
    room: &mut [u8],
    out: &mut [u8],
    needed: &mut usize,
) -> u32
    ensures written { result ≡ DONE → (answers : List ℕ) × IsOutput (read_at places) (print_at places) input.now answers
        × IsHandedOut answers needed.new out.old out.new }
    ensures small { result ≡ SMALL → (answers : List ℕ)
        × IsOutput (read_at places) (print_at places) input.now answers × HasNoRoom answers needed.new out.old }
    ensures memory { result ≡ MEMORY → LackRoom (read_at places) (print_at places) input.now (length room.old) }
    ensures others { 1 ≤ result → result ≢ SMALL → HasNoPlaces places result ⊎ (result ≡ MEMORY) }
    ensures no_places { 36 < places → result ≡ NO_PLACES }
    ensures kept { 1 ≤ result → out.new ≡ out.old }
    ensures needed_kept { 1 ≤ result → result ≢ SMALL → needed.new ≡ needed.old }
{
    if places > MOST_ASKED {
        return NO_PLACES;
    }
    match lines::answers(input, Places::new(places), room) {
        Ok(size) => copy_out(&room[..size], out, needed),
        Err(status) => status,
    }
}

/// Writes the answers to as many whole lines at the front of `input` as fit to the front of `out`: `taken` is how many
/// bytes of the input they are, and `written` how many bytes of `out` are answers; what stands behind these means nothing.
/// Where `last` isn't 0 the input ends here, and what is left behind its last line feed is a line too. A line whose answer
/// may not fit is answered in the room, and the status is 22 where it may not fit there; no line of n bytes has an answer of
/// more than 2 * n + 8. Numbers are decimals of so many places.
#[unsafe(no_mangle)]
pub extern "C" fn wkt_lines_some(
    input: &[u8],
    places: u32,
    last: u32,
    room: &mut [u8],
    out: &mut [u8],
    taken: &mut usize,
    written: &mut usize,
) -> u32
    ensures answered { result ≡ DONE →
        AnswersSome (read_at places) (print_at places) (ends_here last) input.now taken.new written.new out.new }
    ensures memory { result ≡ MEMORY →
        LacksLineRoom (read_at places) (print_at places) (ends_here last) input.now (length room.old) }
    ensures others { 1 ≤ result → HasNoPlaces places result
        ⊎ AnswersNone (read_at places) (print_at places) (ends_here last) input.now out.old result }
    ensures no_places { 36 < places → result ≡ NO_PLACES }
    ensures kept { 1 ≤ result → (taken.new ≡ taken.old) × (written.new ≡ written.old) }
{
    if places > MOST_ASKED {
        return NO_PLACES;
    }
    match answer_some(input, Places::new(places), is_last(last), room, out) {
        Ok(answered) => {
            *taken = answered.taken;
            *written = answered.written;
            DONE
        }
        Err(status) => status,
    }
}

/// Writes the canonical texts of a column of texts to the front of `out`, their length to `needed`, where each begins
/// in `out`, with the end of the last, to `out_offsets`, and of each row to `statuses` why it has none, or 0. Row i is
/// the bytes of `texts` from offset i to offset i + 1. `valid` has a bit for each row, which is 0 where the row is
/// null, or no byte. Numbers are decimals of so many places; with 256 more each row as a whole is to be one geometry. The
/// answers are made in the rooms first, and the status is 22 where these are too small; so that it never is, the first has
/// four times as many bytes as the texts, two a row and 130 more, and the others an offset a row and one more, and a code a row.
#[unsafe(no_mangle)]
pub extern "C" fn wkt_column_canonical(
    texts: &[u8],
    offsets: &[usize],
    valid: &[u8],
    places: u32,
    room: &mut [u8],
    ends_room: &mut [usize],
    codes_room: &mut [u32],
    out: &mut [u8],
    out_offsets: &mut [usize],
    statuses: &mut [u32],
    needed: &mut usize,
) -> u32
    ensures written { result ≡ DONE → (answers : List ℕ)
        × AreColumnAnswers places texts.now offsets.now valid.now answers out_offsets.new statuses.new
        × IsHandedOut answers needed.new out.old out.new }
    ensures small { result ≡ SMALL → (answers : List ℕ) × (ends : List ℕ) × (codes : List ℕ) × AreColumnAnswers places
        texts.now offsets.now valid.now answers ends codes × HasNoRoom answers needed.new out.old }
    ensures bound { (result ≡ DONE) ⊎ (result ≡ SMALL) → needed.new ≤ 2 * length texts.now + row_count offsets.now }
    ensures column { (result ≡ DONE) ⊎ (result ≡ SMALL) →
        IsColumn texts.now offsets.now valid.now out_offsets.old statuses.old }
    ensures no_column { (IsColumn texts.now offsets.now valid.now out_offsets.old statuses.old → ⊥) → result ≡ NOT_COLUMN }
    ensures others { 1 ≤ result → result ≢ SMALL →
        IsNoColumn places texts.now offsets.now valid.now out_offsets.old statuses.old result }
    ensures no_places { IsColumn texts.now offsets.now valid.now out_offsets.old statuses.old → 36 < places_in places →
        result ≡ NO_PLACES }
    ensures kept { 1 ≤ result →
        (out.new ≡ out.old) × (out_offsets.new ≡ out_offsets.old) × (statuses.new ≡ statuses.old) }
    ensures needed_kept { 1 ≤ result → result ≢ SMALL → needed.new ≡ needed.old }
{
    let given = GivenColumn {
        texts,
        offsets,
        valid,
    };
    if !is_column(given, out_offsets, statuses) {
        return NOT_COLUMN;
    }
    if !has_places(places) {
        return NO_PLACES;
    }
    let half = room.len() / 2;
    let (row_room, room) = room.split_at_mut(half);
    match answers(given, places, row_room, room, ends_room, codes_room) {
        Ok(rows) => copy_out_rows(&rows, out, out_offsets, statuses, needed),
        Err(status) => status,
    }
}

/// Writes the numbers of the geometry that `text` begins with, in units of ten to the minus `places`, to the
/// front of `numbers`, and its offsets to the fronts of `rings` and `polygons`. Where a buffer has no room,
/// `sizes` says how much each needs. With 256 more places the whole text is to be one geometry. Arrays of a text of more
/// than 64 bytes are made in the rooms first: n bytes have at most n / 2 + 2 numbers, n / 4 + 2 offsets of rings and
/// n / 6 + 2 of polygons, and the status is 22 where there is no room for them.
#[unsafe(no_mangle)]
pub extern "C" fn wkt_arrays(
    text: &[u8],
    places: u32,
    numbers_room: &mut [i64],
    words_room: &mut [usize],
    sizes: &mut WktSizes,
    numbers: &mut [i64],
    rings: &mut [usize],
    polygons: &mut [usize],
) -> u32
    ensures filled { result ≡ DONE → AreHandedOut (places_in places) text.now sizes.new numbers.old numbers.new rings.old
        rings.new polygons.old polygons.new }
    ensures small { result ≡ SMALL → HaveNoRoom (places_in places) text.now sizes.new numbers.old rings.old polygons.old }
    ensures as_asked { (result ≡ DONE) ⊎ (result ≡ SMALL) → EndsAsAsked (asks_whole places) text.now sizes.new.end }
    ensures more { result ≡ NOT_WHOLE → HasMoreAt (places_in places) (asks_whole places) text.now sizes.new }
    ensures memory { result ≡ MEMORY → (64 < length text.now)
        × LackRooms (places_in places) text.now (length numbers_room.old) (length words_room.old) }
    ensures others { 1 ≤ result → result ≢ SMALL → result ≢ MEMORY → result ≢ NOT_WHOLE →
        IsNotFlat (places_in places) text.now result }
    ensures no_places { 36 < places_in places → result ≡ NO_PLACES }
    ensures kept { 1 ≤ result →
        (numbers.new ≡ numbers.old) × (rings.new ≡ rings.old) × (polygons.new ≡ polygons.old) }
    ensures sizes_kept { 1 ≤ result → result ≢ SMALL → result ≢ NOT_WHOLE → sizes.new ≡ sizes.old }
{
    if !has_places(places) {
        return NO_PLACES;
    }
    if text.len() <= FEW_ARRAYS {
        return arrays_short(text, places, sizes, numbers, rings, polygons);
    }
    arrays_long(
        text,
        places,
        numbers_room,
        words_room,
        sizes,
        numbers,
        rings,
        polygons,
    )
}

/// Writes the text of the geometry of those arrays, which are as `wkt_arrays` gives them, to the front of `out`,
/// and its length to `needed`. It is written in the room first, and the status is 22 where that is too small for such arrays.
#[unsafe(no_mangle)]
pub extern "C" fn wkt_from_arrays(
    kind: u32,
    dimension: u32,
    numbers: &[i64],
    rings: &[usize],
    polygons: &[usize],
    places: u32,
    room: &mut [u8],
    out: &mut [u8],
    needed: &mut usize,
) -> u32
    ensures written { result ≡ DONE → (answer : List ℕ) × IsTextOf places kind dimension numbers.now rings.now
        polygons.now answer × IsHandedOut answer needed.new out.old out.new }
    ensures small { result ≡ SMALL → (answer : List ℕ) × IsTextOf places kind dimension numbers.now rings.now
        polygons.now answer × HasNoRoom answer needed.new out.old }
    ensures memory { result ≡ MEMORY → length room.old < text_room places numbers.now rings.now polygons.now }
    ensures others { 1 ≤ result → result ≢ SMALL → IsNoTextAt places kind dimension numbers.now rings.now polygons.now
        result }
    ensures kept { 1 ≤ result → out.new ≡ out.old }
    ensures needed_kept { 1 ≤ result → result ≢ SMALL → needed.new ≡ needed.old }
{
    let given = GivenArrays {
        kind,
        dimension,
        numbers,
        rings,
        polygons,
    };
    copy_out_text_at(given, places, room, out, needed)
}
