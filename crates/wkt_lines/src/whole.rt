//! Lines that are read as whole texts, many at once: the fast path of who looks at more than the fronts of lines.
ghost use Rattle.std.specs.Prelude.{◌≡◌, ◌+◌, ◌*◌, ◌≤◌, IfSome, IsUtf8, length, take};
ghost use Rattle.wkt_lines.specs.First.{AnswersWhole, IsWholeAnswer, EndsWhole, TestsFrom};
ghost use Rattle.wkt_lines.specs.Laws.{IsWholeLines};
ghost use Rattle.wkt_lines.specs.Lines.{before_feed, input_lines};
ghost use Rattle.wkt_lines.specs.Replies.{AreReplies};

use crate::ends::{ends_there, text_end};
use crate::in_room::{Answer, utf8_from};
use wkt_canonical::{has_room, write_front};
use wkt_num::Numbers;
use wkt_read::words::is_blank;

/// Some first lines: how many they are, how many bytes they take with their line feeds, and how many are written of them.
#[derive(Clone, Copy)]
pub struct WholeLines {
    pub lines: usize,
    pub taken: usize,
    pub len: usize,
}

/// Writes the canonical texts of the first lines, each with a line feed, to the front of the room. It ends before the first
/// line that isn't a geometry with nothing but white space behind it, or, where `front` is set, doesn't begin with one; that
/// has no line feed; or for which the room may be too short. A room of twice the bytes and 65 more is long enough for the
/// first line, unless a number's text is longer than what it was read from.
///
/// ```text
/// write_whole_lines(Places::new(6), false, b"POINT(1 2.0)\nPOINT(3 4)\nPOINT(5)\n", &mut room)
/// // `POINT(1 2)`, `POINT(3 4)`: 2 lines, which take 24 bytes, of which 22 are written
/// ```
pub fn write_whole_lines<N: Numbers>(
    numbers: N,
    front: bool,
    bytes: &[u8],
    room: &mut [u8],
) -> WholeLines
    ensures within { result.taken ≤ length bytes.now }
    ensures whole { IsWholeLines (take result.taken bytes.now) }
    ensures lines { result.lines ≡ length (input_lines (take result.taken bytes.now)) }
    ensures written { AreReplies (IsWholeAnswer (N.read numbers) (N.num numbers) front)
        (input_lines (take result.taken bytes.now)) (take result.len room.new) }
    ensures utf8 { IsUtf8 (take result.len room.new) }
    ensures len { result.len ≤ length room.new }
    ensures room { length room.new ≡ length room.old }
{
    let mut lines = 0;
    let mut taken = 0;
    let mut len = 0;
    'lines: while has_room(room.len() - len, bytes.len() - taken) {
        match answer_whole(numbers, front, &bytes[taken..], &mut *room, len) {
            Some(answer) => {
                lines += 1;
                taken += answer.taken;
                len = answer.len;
            }
            None => break 'lines,
        }
    }
    WholeLines { lines, taken, len }
}

/// Writes the canonical text of the first line and a line feed behind the first `len` bytes, if the line has a line feed
/// and is read. What stands behind the first `len` bytes means nothing where it isn't.
#[inline(always)]
fn answer_whole<N: Numbers>(
    numbers: N,
    front: bool,
    rest: &[u8],
    room: &mut [u8],
    len: usize,
) -> Option<Answer>
    requires { len + 2 * length rest.now + 65 ≤ length room.old }
    ensures answers { IfSome result (λ a. AnswersWhole (N.read numbers) (N.num numbers) front rest.now
        (take len room.old) (take a.len room.new)) }
    ensures line { IfSome result (λ a. a.taken ≡ length (before_feed rest.now) + 1) }
    ensures within { IfSome result (λ a. a.taken ≤ length rest.now) }
    ensures fits { IfSome result (λ a. a.len ≤ length room.new) }
    ensures kept { take len room.new ≡ take len room.old }
    ensures room { length room.new ≡ length room.old }
{
    match write_front::<N, true>(numbers, rest, &mut *room, len) {
        Ok(Some((end, n))) => {
            let from = utf8_from(numbers, end);
            let line = if ends_there(rest, from) {
                from
            } else {
                whole_end(front, rest, from, end)?
            };
            if line == rest.len() {
                return None;
            }
            room[n] = b'\n';
            Some(Answer {
                taken: line + 1,
                len: n + 1,
            })
        }
        _ => None,
    }
}

/// Where the first line ends, if what it has from `from` on is UTF-8, and what it has from `end` on is white space or isn't
/// looked at.
#[cold]
#[inline(never)]
fn whole_end(front: bool, rest: &[u8], from: usize, end: usize) -> Option<usize>
    requires inside { from ≤ length rest.now }
    requires line { from ≤ length (before_feed rest.now) }
    requires end { end ≤ length (before_feed rest.now) }
    ensures { IfSome result (EndsWhole front rest.now from end) }
{
    let line = text_end(rest, from)?;
    if front {
        return Some(line);
    }
    if is_blank(&rest[end..line]) {
        Some(line)
    } else {
        None
    }
}
