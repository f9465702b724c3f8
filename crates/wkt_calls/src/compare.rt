//! Texts compared by the one text of what each begins with.
ghost use Rattle.std.specs.Prelude.{◌≡◌, ◌+◌, ◌*◌, ◌≤◌, ◌<◌, ◌↔◌, ◌⊎◌, ℕ, IsTrue, MatchResult, IsUtf8, length};
ghost use Rattle.wkt_calls.specs.Calls.{AreCompared};
ghost use Rattle.wkt_calls.specs.Answer.{read_at, print_at, places_in, asks_whole, EndsAsAsked, IsMore, IsCanonicalOf, RefusesOne, same_number};

use crate::canonical::{SHORT, SHORTEST, is_text, write_short, write_within};
use crate::options::ends_as_asked;
use crate::status::{DONE, MEMORY, NOT_TEXT, NOT_WHOLE};
use wkt_canonical::has_room;

/// Whether these two canonical texts are one.
fn is_one(one: &[u8], other: &[u8]) -> bool
    ensures { IsTrue result ↔ (one.now ≡ other.now) }
{
    one == other
}

/// What a comparison returns of two texts: whether they begin with one geometry, and where each ends.
#[derive(Clone, Copy)]
pub struct Compared {
    pub same: bool,
    pub end: usize,
    pub other_end: usize,
}

impl Compared {
    /// Puts there whether the texts are of one geometry, as a number, if each geometry ends as is asked for.
    pub fn report(self, one: &[u8], other: &[u8], options: u32, same: &mut u32) -> u32
        requires end { self.end ≤ length one.now }
        requires other_end { self.other_end ≤ length other.now }
        ensures reported { result ≡ DONE → same.new ≡ same_number self.same }
        ensures as_asked { result ≡ DONE →
            EndsAsAsked (asks_whole options) one.now self.end × EndsAsAsked (asks_whole options) other.now self.other_end }
        ensures more { result ≡ NOT_WHOLE →
            IsMore (asks_whole options) one.now self.end ⊎ IsMore (asks_whole options) other.now self.other_end }
        ensures kept { 1 ≤ result → same.new ≡ same.old }
        ensures two { (result ≡ DONE) ⊎ (result ≡ NOT_WHOLE) }
    {
        if !ends_as_asked(one, self.end, options) {
            return NOT_WHOLE;
        }
        if !ends_as_asked(other, self.other_end, options) {
            return NOT_WHOLE;
        }
        *same = if self.same { 1 } else { 0 };
        DONE
    }
}

/// What a comparison returns of two texts, by their canonical texts.
pub fn judge(
    one: &[u8],
    first: &[u8],
    end: usize,
    other: &[u8],
    second: &[u8],
    other_end: usize,
    options: u32,
) -> Compared
    requires first { IsCanonicalOf (read_at (places_in options)) (print_at (places_in options)) one.now first.now end }
    requires second { IsCanonicalOf (read_at (places_in options)) (print_at (places_in options)) other.now second.now other_end }
    ensures { AreCompared options one.now other.now result }
{
    Compared {
        same: is_one(first, second),
        end,
        other_end,
    }
}

/// The status of two texts of which the first is refused with this one: that the other isn't UTF-8 comes first. The room is
/// one that is no longer needed, so that none is cleared for this.
#[cold]
#[inline(never)]
fn refused_first(status: u32, other: &[u8], room: &mut [u8]) -> u32
    requires { length other.now + 32 ≤ length room.old }
    ensures { ((result ≡ status) × IsUtf8 other.now) ⊎ ((result ≡ NOT_TEXT) × (IsUtf8 other.now → ⊥)) }
{
    room[..other.len()].copy_from_slice(other);
    if is_text(other, room) {
        status
    } else {
        NOT_TEXT
    }
}

/// Whether two texts of up to [`SHORT`] bytes begin with one geometry.
#[inline(always)]
pub fn same_short(one: &[u8], other: &[u8], options: u32) -> Result<Compared, u32>
    requires places { places_in options ≤ 36 }
    requires short { length one.now ≤ SHORT }
    requires other_short { length other.now ≤ SHORT }
    ensures { MatchResult result (AreCompared options one.now other.now) (RefusesOne (read_at (places_in options)) one.now other.now) }
{
    if one.len() <= SHORTEST && other.len() <= SHORTEST {
        return same_cleared::<64, 192>(one, other, options);
    }
    same_cleared::<256, 544>(one, other, options)
}

/// The same, with so many cleared bytes for each text, and so many for its canonical text.
#[inline(never)]
fn same_cleared<const PADDED: usize, const ROOM: usize>(
    one: &[u8],
    other: &[u8],
    options: u32,
) -> Result<Compared, u32>
    requires places { places_in options ≤ 36 }
    requires padded { length one.now + 32 ≤ PADDED }
    requires room { 2 * length one.now + 129 ≤ ROOM }
    requires other_padded { length other.now + 32 ≤ PADDED }
    requires other_room { 2 * length other.now + 129 ≤ ROOM }
    requires few { (PADDED ≤ 256) × (ROOM ≤ 544) }
    ensures { MatchResult result (AreCompared options one.now other.now) (RefusesOne (read_at (places_in options)) one.now other.now) }
{
    let mut padded = [0u8; PADDED];
    let mut room = [0u8; ROOM];
    let (end, n) = match write_short(one, options, &mut padded, &mut room) {
        Ok(written) => written,
        Err(status) => return Err(refused_first(status, other, &mut room)),
    };
    let mut other_padded = [0u8; PADDED];
    let mut other_room = [0u8; ROOM];
    let (other_end, m) = write_short(other, options, &mut other_padded, &mut other_room)?;
    Ok(judge(
        one,
        &room[..n],
        end,
        other,
        &other_room[..m],
        other_end,
        options,
    ))
}

/// Whether two texts begin with one geometry: whether their canonical texts are equal, which are written in the rooms, if
/// one of the texts is long.
pub fn same(
    one: &[u8],
    other: &[u8],
    options: u32,
    room: &mut [u8],
    other_room: &mut [u8],
) -> Result<Compared, u32>
    requires places { places_in options ≤ 36 }
    ensures { MatchResult result (AreCompared options one.now other.now)
        (λ s. ((s ≡ MEMORY) × (((SHORT < length one.now) ⊎ (SHORT < length other.now))
        × ((length room.old < 2 * length one.now + 65) ⊎ (length other_room.old < 2 * length other.now + 65))))
        ⊎ RefusesOne (read_at (places_in options)) one.now other.now s) }
{
    if one.len() <= SHORT && other.len() <= SHORT {
        return same_short(one, other, options);
    }
    same_long(one, other, options, room, other_room)
}

/// The same, of texts of which one at least isn't short.
///
/// Apart from the short ones, for which no place of what is needed here is cleared then.
#[inline(never)]
fn same_long(
    one: &[u8],
    other: &[u8],
    options: u32,
    room: &mut [u8],
    other_room: &mut [u8],
) -> Result<Compared, u32>
    requires places { places_in options ≤ 36 }
    ensures { MatchResult result (AreCompared options one.now other.now)
        (λ s. ((s ≡ MEMORY) × ((length room.old < 2 * length one.now + 65) ⊎ (length other_room.old < 2 * length other.now + 65)))
        ⊎ RefusesOne (read_at (places_in options)) one.now other.now s) }
{
    if !has_room(room.len(), one.len()) || !has_room(other_room.len(), other.len()) {
        return Err(MEMORY);
    }
    let Ok(one) = str::from_utf8(one) else {
        return Err(NOT_TEXT);
    };
    let Ok(other) = str::from_utf8(other) else {
        return Err(NOT_TEXT);
    };
    let (end, n) = write_within(one, options, room)?;
    let (other_end, m) = write_within(other, options, other_room)?;
    Ok(judge(
        one.as_bytes(),
        &room[..n],
        end,
        other.as_bytes(),
        &other_room[..m],
        other_end,
        options,
    ))
}
