//! The one text of what a text begins with.
ghost use Rattle.std.specs.Prelude.{◌≡◌, ◌≢◌, ◌+◌, ◌*◌, ◌≤◌, ◌<◌, ◌⊎◌, ℕ, IfOk, IfSome, IfNone, IsUtf8, true, false, take, drop, length, slice_index};
ghost use Rattle.std.specs.Str.{IsAscii};
ghost use Rattle.wkt_num.specs.Bytes.{AllWhite};
ghost use Rattle.wkt_explain.specs.Problems.{IsPaddedFor};
ghost use Rattle.wkt_calls.specs.Calls.{AnswersCanonical, WritesAsked, WritesOrRefuses, WritesOrSaysWhy};
ghost use Rattle.wkt_calls.specs.Answer.{read_at, print_at, places_in, asks_whole, EndsAsAsked, IsHandedOut, HasNoRoom};

use crate::fill::{copy_out, copy_out_at_once};
use crate::options::{ends_as_asked, places_of};
use crate::status::{DONE, MEMORY, NOT_TEXT, NOT_WHOLE, SMALL};
use std::simd::prelude::*;
use wkt_canonical::laws::texts_are_short;
use wkt_canonical::{NoRoom, TextWritten, canonical_in_room, has_room};
use wkt_num::Places;
use wkt_read::Message;

/// How long a text may be that is answered with no memory.
pub const SHORT: usize = 200;
/// How long a text may be that is answered with the least room, since that is cleared for each call: most points are no longer,
/// and the room for one byte more is a vector longer.
pub(crate) const SHORTEST: usize = 31;
/// How many zeros stand behind a short text: what the machine looks at together.
const PADDING: usize = 32;

/// Writes the canonical text of what a text begins with to the front of the room, and returns where the front ends and how
/// long its canonical text is; or with which message a text is refused that begins with none.
#[inline(always)]
fn write(places: Places, text: &str, room: &mut [u8]) -> Result<(usize, usize), Message>
    requires { 2 * length text.now + 65 ≤ length room.old }
    ensures writes { WritesOrSaysWhy (read_at places) (print_at places) text.now room.new result }
    ensures within { IfOk result (λ r. r.1 + 64 ≤ length room.new) }
    ensures whole { length room.new ≡ length room.old }
{
    // No effect at run time. The proof reads that decimals have no texts for which there is no room.
    texts_are_short();
    match canonical_in_room(places, text, room) {
        Ok(Ok(TextWritten { end, len })) => Ok((end, len)),
        Ok(Err(message)) => Err(message),
        Err(NoRoom) => unreachable!(),
    }
}

/// Does what `write` does, and returns where the front ends and how long its canonical text is, or why the text is
/// refused. `padded_text` is the text, or the text and what stands behind a NUL.
fn write_or_refuse(
    text: &str,
    padded_text: &str,
    places: Places,
    room: &mut [u8],
) -> Result<(usize, usize), u32>
    requires room { 2 * length padded_text.now + 65 ≤ length room.old }
    requires utf8 { IsUtf8 text.now }
    requires padded_text { IsPaddedFor text.now padded_text.now }
    ensures canonical { WritesOrRefuses (read_at places) (print_at places) text.now room.new result }
    ensures within { IfOk result (λ r. r.1 + 64 ≤ length room.new) }
    ensures whole { length room.new ≡ length room.old }
{
    match write(places, padded_text, room) {
        Ok((end, n)) => Ok((end, n)),
        Err(message) => Err(message.number()),
    }
}

/// Writes the canonical text or returns the status of its refusal, with decimals of as many places as are asked for.
fn write_in(
    text: &str,
    padded_text: &str,
    options: u32,
    room: &mut [u8],
) -> Result<(usize, usize), u32>
    requires places { places_in options ≤ 36 }
    requires room { 2 * length padded_text.now + 65 ≤ length room.old }
    requires utf8 { IsUtf8 text.now }
    requires padded_text { IsPaddedFor text.now padded_text.now }
    ensures canonical { WritesAsked options text.now room.new result }
    ensures within { IfOk result (λ r. r.1 + 64 ≤ length room.new) }
    ensures whole { length room.new ≡ length room.old }
{
    write_or_refuse(text, padded_text, Places::new(places_of(options)), room)
}

/// Writes the canonical text of what a text begins with to the front of a room that is 65 bytes longer than twice the text,
/// and returns where the geometry ends in the text and how long the canonical text is, or why the text is refused. No more
/// of the room is used than that.
pub fn write_within(text: &str, options: u32, room: &mut [u8]) -> Result<(usize, usize), u32>
    requires places { places_in options ≤ 36 }
    requires room { 2 * length text.now + 65 ≤ length room.old }
    requires utf8 { IsUtf8 text.now }
    ensures canonical { WritesAsked options text.now room.new result }
    ensures within { IfOk result (λ r. r.1 ≤ length room.new) }
    ensures bound { IfOk result (λ r. r.1 ≤ 2 * length text.now + 1) }
    ensures whole { length room.new ≡ length room.old }
{
    write_in(text, text, options, &mut room[..2 * text.len() + 65])
}

/// Whether each of the first `n` bytes is of ASCII, and each of those behind them that are looked at too.
fn is_ascii(bytes: &[u8], n: usize) -> bool
    requires { n + 32 ≤ length bytes.now }
    ensures { result ≡ true → IsAscii (take n bytes.now) }
{
    // The first bytes stand before the loop, since many texts are no longer.
    let first = u8x32::from_slice(bytes)
        .simd_gt(u8x32::splat(127))
        .to_bitmask();
    if first != 0 {
        return false;
    }
    let mut at = 32;
    'wide: while at < n {
        let window = u8x32::from_slice(&bytes[at..]);
        let high = window.simd_gt(u8x32::splat(127)).to_bitmask();
        if high != 0 {
            return false;
        }
        at += 32;
    }
    true
}

/// Whether a text is UTF-8. It stands apart, since most texts are of ASCII.
#[cold]
#[inline(never)]
fn is_utf8(text: &[u8]) -> bool
    ensures yes { result ≡ true → IsUtf8 text.now }
    ensures no { result ≡ false → IsUtf8 text.now → ⊥ }
{
    str::from_utf8(text).is_ok()
}

/// Whether a text is UTF-8 that also stands at the front of these bytes: where they are of ASCII it is.
#[inline(always)]
pub(crate) fn is_text(text: &[u8], padded: &[u8]) -> bool
    requires within { length text.now + 32 ≤ length padded.now }
    requires front { take (length text.now) padded.now ≡ text.now }
    ensures yes { result ≡ true → IsUtf8 text.now }
    ensures no { result ≡ false → IsUtf8 text.now → ⊥ }
{
    if is_ascii(padded, text.len()) {
        return true;
    }
    is_utf8(text)
}

/// A short text, and the text before zeros, so that the machine sees 32 bytes at once up to its end; none where it isn't
/// UTF-8. `padded` is where it is copied to.
#[inline(always)]
pub(crate) fn before_zeros<'a>(text: &'a [u8], padded: &'a mut [u8]) -> Option<(&'a str, &'a str)>
    requires padded { length text.now + 32 ≤ length padded.old }
    requires zeros { (i : ℕ) → slice_index padded.old i ≡ 0 }
    ensures text { IfSome result (λ r. r.0.now ≡ text.now) }
    ensures padded_text { IfSome result (λ r. IsPaddedFor text.now r.1.now) }
    ensures long { IfSome result (λ r. length r.1.now ≡ length text.now + 32) }
    ensures none { IfNone result (IsUtf8 text.now → ⊥) }
{
    let n = text.len();
    padded[..n].copy_from_slice(text);
    if !is_text(text, padded) {
        return None;
    }
    let padded_text = unsafe { str::from_utf8_unchecked(&padded[..n + PADDING]) };
    let text = unsafe { str::from_utf8_unchecked(text) };
    Some((text, padded_text))
}

/// Writes the canonical text of what a short text begins with.
pub(crate) fn write_short(
    text: &[u8],
    options: u32,
    padded: &mut [u8],
    room: &mut [u8],
) -> Result<(usize, usize), u32>
    requires places { places_in options ≤ 36 }
    requires padded { length text.now + 32 ≤ length padded.old }
    requires zeros { (i : ℕ) → slice_index padded.old i ≡ 0 }
    requires room { 2 * length text.now + 129 ≤ length room.old }
    ensures canonical { WritesAsked options text.now room.new result }
    ensures within { IfOk result (λ r. r.1 ≤ length room.new) }
    ensures bound { IfOk result (λ r. r.1 ≤ 2 * length text.now + 65) }
    ensures whole { length room.new ≡ length room.old }
{
    let Some((text, padded_text)) = before_zeros(text, padded) else {
        return Err(NOT_TEXT);
    };
    write_in(
        text,
        padded_text,
        options,
        &mut room[..2 * text.len() + 129],
    )
}

/// Copies out an answer to a text whose geometry ends there, if that is as asked for and there is room for it.
pub fn copy_out_front(
    text: &[u8],
    end: usize,
    options: u32,
    answer: &[u8],
    out: &mut [u8],
    needed: &mut usize,
) -> u32
    requires { end ≤ length text.now }
    ensures as_asked { result ≢ NOT_WHOLE → EndsAsAsked (asks_whole options) text.now end }
    ensures stands { result ≡ DONE → IsHandedOut answer.now needed.new out.old out.new }
    ensures lacks { result ≡ SMALL → HasNoRoom answer.now needed.new out.old }
    ensures more { result ≡ NOT_WHOLE → (asks_whole options ≡ true) × (AllWhite (drop end text.now) → ⊥) }
    ensures kept { 1 ≤ result → out.new ≡ out.old }
    ensures needed_kept { result ≡ NOT_WHOLE → needed.new ≡ needed.old }
    ensures three { (result ≡ DONE) ⊎ ((result ≡ SMALL) ⊎ (result ≡ NOT_WHOLE)) }
{
    if !ends_as_asked(text, end, options) {
        return NOT_WHOLE;
    }
    copy_out(answer, out, needed)
}

/// Answers a text of up to [`SHORT`] bytes with the canonical text of what it begins with, and a longer one with 22.
#[inline(always)]
pub fn canonical_short(
    text: &[u8],
    options: u32,
    out: &mut [u8],
    needed: &mut usize,
    end: &mut usize,
) -> u32
    requires { places_in options ≤ 36 }
    ensures { AnswersCanonical options text.now result out.old out.new needed.old needed.new end.old end.new }
{
    if text.len() > SHORT {
        return MEMORY;
    }
    if text.len() > SHORTEST {
        return canonical_cleared::<256, 544>(text, options, out, needed, end);
    }
    // Last, so that it is jumped to and not called: most points go there.
    canonical_cleared::<64, 192>(text, options, out, needed, end)
}

/// The same, with so many cleared bytes for the text, and so many for its canonical text.
#[inline(never)]
fn canonical_cleared<const PADDED: usize, const ROOM: usize>(
    text: &[u8],
    options: u32,
    out: &mut [u8],
    needed: &mut usize,
    end: &mut usize,
) -> u32
    requires places { places_in options ≤ 36 }
    requires padded { length text.now + 32 ≤ PADDED }
    requires room { 2 * length text.now + 129 ≤ ROOM }
    requires few { (PADDED ≤ 256) × (ROOM ≤ 544) }
    ensures { AnswersCanonical options text.now result out.old out.new needed.old needed.new end.old end.new }
{
    let mut padded = [0u8; PADDED];
    let mut room = [0u8; ROOM];
    match write_short(text, options, &mut padded, &mut room) {
        Ok((at, n)) => {
            *end = at;
            if !ends_as_asked(text, at, options) {
                return NOT_WHOLE;
            }
            copy_out_at_once(&room[..n], out, needed)
        }
        Err(status) => status,
    }
}

/// Answers a text with the canonical text of what it begins with, which is written in the room first, if the text is long.
pub fn canonical(
    text: &[u8],
    options: u32,
    room: &mut [u8],
    out: &mut [u8],
    needed: &mut usize,
    end: &mut usize,
) -> u32
    requires { places_in options ≤ 36 }
    ensures answers { AnswersCanonical options text.now result out.old out.new needed.old needed.new end.old end.new }
    ensures lacks { result ≡ MEMORY → length room.old < 2 * length text.now + 65 }
{
    if text.len() > SHORT {
        return canonical_long(text, options, room, out, needed, end);
    }
    canonical_short(text, options, out, needed, end)
}

/// Answers a text that isn't short with the canonical text of what it begins with.
///
/// It isn't inlined, so that the function that chooses between short and long texts needs no stack frame.
#[inline(never)]
fn canonical_long(
    text: &[u8],
    options: u32,
    room: &mut [u8],
    out: &mut [u8],
    needed: &mut usize,
    end: &mut usize,
) -> u32
    requires places { places_in options ≤ 36 }
    requires long { SHORT < length text.now }
    ensures answers { AnswersCanonical options text.now result out.old out.new needed.old needed.new end.old end.new }
    ensures lacks { result ≡ MEMORY → length room.old < 2 * length text.now + 65 }
{
    if !has_room(room.len(), text.len()) {
        return MEMORY;
    }
    let Ok(text) = str::from_utf8(text) else {
        return NOT_TEXT;
    };
    match write_within(text, options, room) {
        Ok((at, n)) => {
            *end = at;
            copy_out_front(text.as_bytes(), at, options, &room[..n], out, needed)
        }
        Err(status) => status,
    }
}
