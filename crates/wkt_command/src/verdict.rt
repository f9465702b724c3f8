//! Whether a text is read, over numbers of so many places, as the caller says at run time.
ghost use Rattle.std.specs.Prelude.{◌≡◌, ◌≤◌, IfOk, IsUtf8, length, take, min};
ghost use Rattle.wkt_lines.specs.First.{IsWholeAnswer};
ghost use Rattle.wkt_lines.specs.Laws.{IsWholeLines};
ghost use Rattle.wkt_lines.specs.Lines.{input_lines};
ghost use Rattle.wkt_lines.specs.Replies.{AreReplies};
ghost use Rattle.wkt_command.specs.Verdict.{IsVerdict};
ghost use Rattle.wkt_num.specs.Decimal.{decimal_text, read_decimal};

use std::alloc::{AllocError, Global};
use wkt_canonical::{TextWritten, write_growing};
use wkt_explain::{Explanation, explain_by};
use wkt_lines::{WholeLines, write_whole_lines};
use wkt_num::{Numbers, Places};
use wkt_read::words::is_blank;

/// The first bytes: so many, or all where there are fewer.
pub fn written(room: &[u8], len: usize) -> &[u8]
    ensures { result.now ≡ take len room.now }
{
    &room[..len.min(room.len())]
}

/// Why a text is refused, and where.
#[derive(Clone, Copy)]
pub struct Refused<'a> {
    /// Why the text that is read is refused.
    pub why: Explanation<'a>,
    /// The text as it was given, and from where to where in it.
    pub text: &'a str,
    pub start: usize,
    pub end: usize,
}

/// What became of a text.
#[derive(Clone, Copy)]
pub enum Verdict<'a> {
    /// It is read; its canonical text has so many bytes.
    Read(usize),
    /// It has no geometry at its front.
    Refused(Refused<'a>),
    /// More than white space follows its geometry, which ends at this byte.
    Rest(usize),
}

/// Whether the text is read, with its canonical text in the room; of a front, whatever follows it.
pub fn judge<'a, N: Numbers>(
    numbers: N,
    alloc: Global,
    text: &'a str,
    front: bool,
    room: &mut Vec<u8>,
) -> Result<Verdict<'a>, AllocError>
    ensures { IfOk result (IsVerdict (N.read numbers) (N.num numbers) front text.now room.new.items) }
{
    match write_growing(numbers, text, room)? {
        Some(TextWritten { end, len }) => {
            if front || is_blank(&text.as_bytes()[end..]) {
                Ok(Verdict::Read(len))
            } else {
                Ok(Verdict::Rest(end))
            }
        }
        None => match explain_by(numbers, text) {
            Some(why) => Ok(Verdict::Refused(Refused {
                why,
                text,
                start: why.start,
                end: why.end,
            })),
            None => unreachable!(),
        },
    }
}

/// Whether the text is read, with its canonical text in the room, over decimals of so many places (36 where more are
/// asked for).
///
/// # Errors
/// Out of memory.
pub fn verdict_at<'a>(
    alloc: Global,
    text: &'a str,
    places: u32,
    front: bool,
    room: &mut Vec<u8>,
) -> Result<Verdict<'a>, AllocError>
    ensures { IfOk result (IsVerdict (read_decimal 127 36 (min places 36)) (decimal_text (min places 36)) front text.now room.new.items) }
{
    judge(Places::new(places.min(36)), alloc, text, front, room)
}

/// Writes the canonical texts of the first lines, as [`write_whole_lines`] does, over decimals of so many places (36 where
/// more are asked for).
pub fn whole_lines_at(places: u32, front: bool, lines: &[u8], room: &mut [u8]) -> WholeLines
    ensures within { result.taken ≤ length lines.now }
    ensures whole { IsWholeLines (take result.taken lines.now) }
    ensures written { AreReplies
        (IsWholeAnswer (read_decimal 127 36 (min places 36)) (decimal_text (min places 36)) front)
        (input_lines (take result.taken lines.now)) (take result.len room.new) }
    ensures utf8 { IsUtf8 (take result.len room.new) }
{
    write_whole_lines(Places::new(places.min(36)), front, lines, room)
}
