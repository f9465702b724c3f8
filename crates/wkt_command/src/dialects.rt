//! What becomes of a text in dialects: it is read as another text, and its places are those of the text as it was given.
ghost use Rattle.std.specs.Prelude.{◌≡◌, ◌≤◌, IfOk, IsUtf8, Some, length, drop};
ghost use Rattle.wkt_dialects.specs.Dialects.{IsRest};
ghost use Rattle.wkt_dialects.specs.Reading.{IsRestAs};
ghost use Rattle.wkt_command.specs.Dialects.{IsPlacedVerdict, IsVerdictIn};

use crate::verdict::{Refused, Verdict, verdict_at};
use std::alloc::{AllocError, Global};
use wkt_dialects::{Dialects, NoRoom, place_in, rest_of, write_as_read};

/// What becomes of a text, with its canonical text in the room, over decimals of so many places (36 where more are asked
/// for). In dialects `other` is for the text that it is read as: what it holds means nothing.
///
/// # Errors
/// Out of memory.
pub fn verdict_in<'a>(
    alloc: Global,
    dialects: Option<Dialects>,
    text: &'a str,
    places: u32,
    front: bool,
    other: &'a mut Vec<u8>,
    room: &mut Vec<u8>,
) -> Result<Verdict<'a>, AllocError>
    ensures { IfOk result (IsVerdictIn dialects places front text.now room.new.items) }
{
    let Some(dialects) = dialects else {
        return verdict_at(alloc, text, places, front, room);
    };
    let from = rest_of(dialects, text.as_bytes());
    let rest = behind(text, from);
    match verdict_at(alloc, rest, places, front, room) {
        Ok(Verdict::Read(len)) => return Ok(Verdict::Read(len)),
        Ok(Verdict::Rest(end)) => return Ok(Verdict::Rest(from + end)),
        Ok(Verdict::Refused(_)) => {}
        Err(error) => return Err(error),
    }
    other.clear();
    match write_as_read(dialects, rest.as_bytes(), other) {
        Ok(()) => {}
        Err(NoRoom) => return Err(AllocError),
    }
    let read = unsafe { str::from_utf8_unchecked(other.as_slice()) };
    match verdict_at(alloc, read, places, front, room) {
        Ok(verdict) => Ok(placed(dialects, text, from, read, verdict)),
        Err(error) => Err(error),
    }
}

/// The text from a byte on.
fn behind(text: &str, from: usize) -> &str
    requires inside { from ≤ length text.now }
    requires utf8 { IsUtf8 (drop from text.now) }
    ensures { result.now ≡ drop from text.now }
{
    unsafe { str::from_utf8_unchecked(&text.as_bytes()[from..]) }
}

/// The verdict on what is read, which isn't what stands from a byte on, by places of the text as it was given.
fn placed<'a>(
    dialects: Dialects,
    text: &'a str,
    from: usize,
    read: &str,
    verdict: Verdict<'a>,
) -> Verdict<'a>
    requires inside { from ≤ length text.now }
    requires rest { IsRest dialects text.now (drop from text.now) }
    requires read { IsRestAs dialects (drop from text.now) read.now }
    requires utf8 { IsUtf8 (drop from text.now) }
    ensures { IsPlacedVerdict (Some dialects) text.now read.now verdict.entry result }
{
    let rest = behind(text, from).as_bytes();
    match verdict {
        Verdict::Read(len) => Verdict::Read(len),
        Verdict::Rest(end) => {
            let (_, start, _) = place_in(dialects, rest, read.as_bytes(), end);
            Verdict::Rest(from + start)
        }
        Verdict::Refused(Refused { why, .. }) => {
            let (_, start, end) = place_in(dialects, rest, read.as_bytes(), why.start);
            Verdict::Refused(Refused {
                why,
                text,
                start: from + start,
                end: from + end,
            })
        }
    }
}
