//! Rooms for canonical texts, which grow as longer ones come.
ghost use Rattle.std.specs.Prelude.{◌≡◌, ◌+◌, ◌*◌, ◌^◌, ◌<◌, ◌≤◌, OnOk, SomeIff, take, vec_len, true, false};
ghost use Rattle.wkt_canonical.specs.Through.{HoldsCanonical};

use crate::canonical::{NoRoom, TextWritten, canonical_or_message_outlined};
use std::alloc::AllocError;
use wkt_num::Numbers;

/// How much longer than twice a text the room for its canonical text is.
///
/// Twice the text and one byte is what its canonical text takes at most: the text of a number is shorter than twice its
/// run, which leaves a byte for the space before it, and a point of a multipoint has two bytes at least beside its
/// numbers for its parentheses. The other 64 bytes stay free, since the text builder stores words and numbers as whole windows.
pub const SPARE: usize = 65;

/// Whether a room of so many bytes surely is enough for the canonical text of `n` bytes, and a line feed.
#[inline(always)]
pub fn has_room(room: usize, n: usize) -> bool
    ensures yes { result ≡ true → 2 * n + 65 ≤ room }
    ensures no { result ≡ false → room < 2 * n + 65 }
{
    room >= SPARE && (room - SPARE) / 2 >= n
}

/// How many bytes that takes; `None` where it is no size.
#[inline]
pub fn room_for(n: usize) -> Option<usize>
    ensures { SomeIff result (2 * n + 65 < 2 ^ 64) (2 * n + 65) }
{
    n.checked_mul(2)?.checked_add(SPARE)
}

// So many bytes are cleared at once: the C library fills longer pieces by `rep`, an instruction a byte and no faster.
const PIECE: usize = 2048;

/// Makes a room that is at least so long: zeros follow what it has.
///
/// # Errors
/// Out of memory.
pub fn lengthen(room: &mut Vec<u8>, needed: usize) -> Result<(), AllocError>
    ensures kept { take (vec_len room.old) room.new.items ≡ room.old.items }
    ensures len { vec_len room.old ≤ vec_len room.new }
    ensures long { OnOk result (needed ≤ vec_len room.new) }
{
    if needed <= room.len() {
        return Ok(());
    }
    match room.reserve(needed - room.len()) {
        Ok(()) => {}
        Err(e) => return Err(e),
    }
    'pieces: while needed - room.len() > PIECE {
        match room.extend_from_slice(&[0; PIECE]) {
            Ok(()) => {}
            Err(e) => return Err(e),
        }
    }
    room.resize(needed, 0)
}

/// Makes room for the canonical text of `n` bytes behind the first `len` bytes, which are kept.
///
/// # Errors
/// Out of memory.
pub fn make_room(room: &mut Vec<u8>, len: usize, n: usize) -> Result<(), AllocError>
    requires { len ≤ vec_len room.old }
    ensures kept { take len room.new.items ≡ take len room.old.items }
    ensures room { OnOk result (len + 2 * n + 65 ≤ vec_len room.new) }
{
    if has_room(room.len() - len, n) {
        return Ok(());
    }
    let Some(more) = room_for(n) else {
        return Err(AllocError);
    };
    match len.checked_add(more) {
        Some(needed) => lengthen(room, needed),
        None => Err(AllocError),
    }
}

/// Doubles the room, and keeps what it has.
///
/// # Errors
/// Out of memory.
#[cold]
#[inline(never)]
pub fn widen(room: &mut Vec<u8>) -> Result<(), AllocError>
    requires { 65 ≤ vec_len room.old }
    ensures kept { take (vec_len room.old) room.new.items ≡ room.old.items }
    ensures grows { OnOk result (2 * vec_len room.old ≤ vec_len room.new) }
{
    match room.len().checked_mul(2) {
        Some(twice) => lengthen(room, twice),
        None => Err(AllocError),
    }
}

/// Writes the canonical text of the geometry at the front of the text to the front of a room, which grows as it has to;
/// `None` where the text has none there. What the room held means nothing then.
///
/// # Errors
/// Out of memory.
pub fn write_growing<N: Numbers>(
    numbers: N,
    text: &str,
    room: &mut Vec<u8>,
) -> Result<Option<TextWritten>, AllocError>
    ensures { HoldsCanonical (N.read numbers) (N.num numbers) text.now room.new.items result }
{
    match make_room(room, 0, text.len()) {
        Ok(()) => {}
        Err(e) => return Err(e),
    }
    'room: loop {
        match canonical_or_message_outlined(numbers, text, room.as_mut_slice()) {
            Ok(Ok(written)) => return Ok(Some(written)),
            Ok(Err(_)) => return Ok(None),
            Err(NoRoom) => {}
        }
        match widen(room) {
            Ok(()) => {}
            Err(e) => return Err(e),
        }
    }
}
