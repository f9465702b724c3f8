//! A column of texts answered at once, as dataframes have it.
ghost use Rattle.std.specs.Prelude.{◌≡◌, ◌↔◌, ◌⊎◌, ◌<◌, ◌≤◌, ◌+◌, ◌*◌, IsTrue, MatchResult, IfOk, OnOk, IsUtf8, length, take};
ghost use Rattle.wkt_calls.specs.Answer.{read_at, print_at, places_in, asks_whole, IsCanonicalOf, RefusesText, IsHandedOut, HasNoRoom};
ghost use Rattle.wkt_calls.specs.Column.{AreOffsets, HasBits, row_count, is_null, IsColumn};
ghost use Rattle.wkt_calls.specs.Rows.{HoldsNoRow, AddsRow, AddsTextAnswer, HoldsAnswers, items_of};

use crate::canonical::write_within;
use crate::fill::{copy_out, copy_whole};
use crate::joined::Joined;
use crate::list::RoomList;
use crate::options::ends_as_asked;
use crate::status::{DONE, MEMORY, NOT_TEXT, NOT_WHOLE, NULL_ROW, SMALL};
use wkt_canonical::has_room;

/// A column of the caller's: the bytes of all texts, where each begins, with the end of the last, and the bits of
/// the rows that aren't null, if any row is.
#[derive(Clone, Copy)]
pub struct GivenColumn<'a> {
    pub texts: &'a [u8],
    pub offsets: &'a [usize],
    pub valid: &'a [u8],
}

/// The texts of some first rows, or why they have none.
#[derive(Drop)]
pub struct Rows<'a> {
    pub(crate) texts: Joined<'a, u8>,
    pub(crate) statuses: RoomList<'a, u32>,
}

/// Whether these are offsets into the items.
pub(crate) fn are_offsets<T>(items: &[T], offsets: &[usize]) -> bool
    ensures { IsTrue result ↔ AreOffsets items.now offsets.now }
{
    if offsets.is_empty() {
        return false;
    }
    let rows = offsets.len() - 1;
    for i in 0..rows {
        if offsets[i] > offsets[i + 1] {
            return false;
        }
    }
    offsets[rows] <= items.len()
}

/// Whether there are no bits, or one for each row.
pub(crate) fn has_bits(valid: &[u8], rows: usize) -> bool
    ensures { IsTrue result ↔ HasBits valid.now rows }
{
    valid.is_empty() || rows.div_ceil(8) <= valid.len()
}

/// Whether that is a column with buffers of so many offsets and statuses for its answers.
pub fn is_column(given: GivenColumn<'_>, ends: &[usize], statuses: &[u32]) -> bool
    ensures { IsTrue result ↔ IsColumn given.entry.texts.now given.entry.offsets.now given.entry.valid.now ends.now statuses.now }
{
    if !are_offsets(given.texts, given.offsets) {
        return false;
    }
    let rows = given.offsets.len() - 1;
    has_bits(given.valid, rows) && ends.len() == given.offsets.len() && statuses.len() == rows
}

/// Whether a row is null.
pub(crate) fn is_null(valid: &[u8], row: usize) -> bool
    requires { (length valid.now ≡ 0) ⊎ (row < 8 * length valid.now) }
    ensures { result ≡ is_null valid.now row }
{
    !valid.is_empty() && (valid[row / 8] >> (row % 8)) % 2 == 0
}

/// Writes the canonical text of what a text begins with to the front of the room, if that is large enough.
fn write_row(text: &str, options: u32, room: &mut [u8]) -> Result<(usize, usize), u32>
    requires places { places_in options ≤ 36 }
    requires utf8 { IsUtf8 text.now }
    ensures canonical { MatchResult result
        (λ r. IsCanonicalOf (read_at (places_in options)) (print_at (places_in options)) text.now (take r.1 room.new) r.0)
        (λ s. (s ≡ MEMORY) ⊎ RefusesText (read_at (places_in options)) text.now s) }
    ensures within { IfOk result (λ r. r.1 ≤ length room.new) }
    ensures bound { IfOk result (λ r. r.1 ≤ 2 * length text.now + 1) }
{
    if !has_room(room.len(), text.len()) {
        return Err(MEMORY);
    }
    write_within(text, options, room)
}

impl<'a> Rows<'a> {
    /// The texts of no row.
    pub(crate) fn new(
        room: &'a mut [u8],
        ends_room: &'a mut [usize],
        codes_room: &'a mut [u32],
    ) -> Result<Rows<'a>, u32>
        ensures { MatchResult result HoldsNoRow (λ s. s ≡ MEMORY) }
    {
        Ok(Rows {
            texts: Joined::new(room, ends_room)?,
            statuses: RoomList::new(codes_room),
        })
    }

    /// Adds a row of that text, with its status.
    pub(crate) fn add(&mut self, text: &[u8], status: u32) -> Result<(), u32>
        ensures { MatchResult result (λ _. AddsRow text.now status self.old self.new) (λ s. s ≡ MEMORY) }
    {
        self.texts.add(text)?;
        self.statuses.push(status)
    }

    /// Adds the answer to a row, which is written in the room first.
    fn add_answer(
        &mut self,
        text: &[u8],
        null: bool,
        options: u32,
        room: &mut [u8],
    ) -> Result<(), u32>
        requires { places_in options ≤ 36 }
        ensures adds { MatchResult result
            (λ _. AddsTextAnswer (asks_whole options) (read_at (places_in options)) (print_at (places_in options)) null text.now self.old self.new)
            (λ s. s ≡ MEMORY) }
        ensures bound { OnOk result
            (length (items_of self.new.texts.items) ≤ length (items_of self.old.texts.items) + 2 * length text.now + 1) }
    {
        if null {
            return self.add(&[], NULL_ROW);
        }
        let Ok(text) = str::from_utf8(text) else {
            return self.add(&[], NOT_TEXT);
        };
        match write_row(text, options, room) {
            Ok((end, n)) => {
                if !ends_as_asked(text.as_bytes(), end, options) {
                    return self.add(&[], NOT_WHOLE);
                }
                self.add(&room[..n], DONE)
            }
            Err(MEMORY) => Err(MEMORY),
            Err(status) => self.add(&[], status),
        }
    }
}

/// The answers to all rows of a column, in the rooms: each is written in the first, and added to those in the second.
pub fn answers<'a>(
    given: GivenColumn<'_>,
    options: u32,
    row_room: &mut [u8],
    room: &'a mut [u8],
    ends_room: &'a mut [usize],
    codes_room: &'a mut [u32],
) -> Result<Rows<'a>, u32>
    requires offsets { AreOffsets given.texts.now given.offsets.now }
    requires bits { HasBits given.valid.now (row_count given.offsets.now) }
    requires places { places_in options ≤ 36 }
    ensures answers { MatchResult result
        (HoldsAnswers (asks_whole options) (read_at (places_in options)) (print_at (places_in options)) given.entry.texts.now given.entry.offsets.now given.entry.valid.now (row_count given.entry.offsets.now))
        (λ s. s ≡ MEMORY) }
    ensures bound { IfOk result (λ r. length (items_of r.texts.items) ≤ 2 * length given.entry.texts.now + row_count given.entry.offsets.now) }
{
    let mut rows = Rows::new(room, ends_room, codes_room)?;
    let count = given.offsets.len() - 1;
    for i in 0..count {
        let text = &given.texts[given.offsets[i]..given.offsets[i + 1]];
        let null = is_null(given.valid, i);
        rows.add_answer(text, null, options, row_room)?;
    }
    Ok(rows)
}

/// Copies out the answers to a column, if there is room for their texts.
pub fn copy_out_rows(
    rows: &Rows<'_>,
    out: &mut [u8],
    ends: &mut [usize],
    statuses: &mut [u32],
    needed: &mut usize,
) -> u32
    requires ends_fit { length (items_of rows.now.texts.ends) ≡ length ends.old }
    requires statuses_fit { length (items_of rows.now.statuses) ≡ length statuses.old }
    ensures stands { result ≡ DONE → IsHandedOut (items_of rows.now.texts.items) needed.new out.old out.new }
    ensures ends_are { result ≡ DONE → ends.new ≡ items_of rows.now.texts.ends }
    ensures statuses_are { result ≡ DONE → statuses.new ≡ items_of rows.now.statuses }
    ensures lacks { result ≡ SMALL → HasNoRoom (items_of rows.now.texts.items) needed.new out.old }
    ensures kept { 1 ≤ result →
        (out.new ≡ out.old) × (ends.new ≡ ends.old) × (statuses.new ≡ statuses.old) }
    ensures two { (result ≡ DONE) ⊎ (result ≡ SMALL) }
{
    let status = copy_out(rows.texts.items.items(), out, needed);
    if status != DONE {
        return status;
    }
    copy_whole(rows.texts.ends.items(), ends);
    copy_whole(rows.statuses.items(), statuses);
    DONE
}
