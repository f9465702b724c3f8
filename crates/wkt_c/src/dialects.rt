//! The text that a text in dialects is read as, answered as without a dialect, by places of the text as it was given.
ghost use Rattle.std.specs.Prelude.{◌≡◌, ◌≤◌, ◌<◌, ◌⊎◌, true, false};
ghost use Rattle.wkt_calls.specs.Dialects.{AsksDialects, IsReadable, AnswersCanonicalOf, AnswersSameOf, AnswersArraysOf};

use crate::exports::{wkt_arrays, wkt_same_ends};
use wkt_calls::canonical::canonical;
use wkt_calls::dialects::{AsRead, without_dialects};
use wkt_calls::sizes::WktSizes;
use wkt_calls::status::{DONE, NOT_TEXT, NOT_WHOLE, SMALL};

/// Whether a call with this status says where a geometry ends.
fn says_end(status: u32) -> bool
    ensures yes { result ≡ true → (status ≡ DONE) ⊎ ((status ≡ SMALL) ⊎ (status ≡ NOT_WHOLE)) }
    ensures no { result ≡ false → ((status ≡ DONE) ⊎ ((status ≡ SMALL) ⊎ (status ≡ NOT_WHOLE))) → ⊥ }
{
    status == DONE || status == SMALL || status == NOT_WHOLE
}

/// Whether a text with this status begins with no geometry.
pub(crate) fn is_refused(status: u32) -> bool
    ensures yes { result ≡ true → (1 ≤ status) × (status < 20) }
    ensures no { result ≡ false → (status ≡ 0) ⊎ (20 ≤ status) }
{
    status != DONE && status < NOT_TEXT
}

/// Answers the text that a text is read as with its canonical text.
pub(crate) fn answer(
    read: AsRead<'_>,
    options: u32,
    room: &mut [u8],
    out: &mut [u8],
    needed: &mut usize,
    end: &mut usize,
) -> u32
    requires asks { AsksDialects options }
    requires readable { IsReadable read }
    ensures { AnswersCanonicalOf options read.entry result out.old out.new needed.old needed.new end.old end.new }
{
    let mut at = 0;
    let plain = without_dialects(options);
    let status = canonical(read.text, plain, room, out, needed, &mut at);
    if !says_end(status) {
        return status;
    }
    *end = read.place(at).0;
    status
}

/// Compares the texts that two texts are read as.
pub(crate) fn compare(
    one: AsRead<'_>,
    other: AsRead<'_>,
    options: u32,
    room: &mut [u8],
    other_room: &mut [u8],
    same: &mut u32,
    end: &mut usize,
    other_end: &mut usize,
) -> u32
    requires asks { AsksDialects options }
    requires readable { IsReadable one }
    requires other_readable { IsReadable other }
    ensures { AnswersSameOf options one.entry other.entry result same.old same.new end.old end.new other_end.old other_end.new }
{
    let mut at = 0;
    let mut other_at = 0;
    let status = wkt_same_ends(
        one.text,
        other.text,
        without_dialects(options),
        room,
        other_room,
        same,
        &mut at,
        &mut other_at,
    );
    if !says_end(status) {
        return status;
    }
    *end = one.place(at).0;
    *other_end = other.place(other_at).0;
    status
}

/// Copies out the arrays of the text that a text is read as.
pub(crate) fn arrays_of(
    read: AsRead<'_>,
    options: u32,
    numbers_room: &mut [i64],
    words_room: &mut [usize],
    sizes: &mut WktSizes,
    numbers: &mut [i64],
    rings: &mut [usize],
    polygons: &mut [usize],
) -> u32
    requires asks { AsksDialects options }
    requires readable { IsReadable read }
    ensures { AnswersArraysOf options read.entry result sizes.old sizes.new numbers.old numbers.new rings.old rings.new
        polygons.old polygons.new }
{
    let status = wkt_arrays(
        read.text,
        without_dialects(options),
        numbers_room,
        words_room,
        sizes,
        numbers,
        rings,
        polygons,
    );
    if !says_end(status) {
        return status;
    }
    sizes.end = read.place(sizes.end).0;
    status
}
