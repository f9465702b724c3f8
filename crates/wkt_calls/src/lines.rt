//! Many lines answered at once, and whole lines at the front of an input.
ghost use Rattle.std.specs.Prelude.{◌≡◌, ◌⊎◌, ◌≤◌, ◌+◌, ◌*◌, ◌-◌, ◌++◌, MatchResult, IfOk, IfErr, length, take, drop, true, false};
ghost use Rattle.wkt_lines.specs.First.{AnswersBehind};
ghost use Rattle.wkt_lines.specs.Lines.{before_feed};
ghost use Rattle.wkt_lines.specs.Output.{IsOutput};
ghost use Rattle.wkt_calls.specs.Answer.{read_at, print_at};
ghost use Rattle.wkt_calls.specs.Chunks.{AnswersSome, AnswersNone};
ghost use Rattle.wkt_calls.specs.Rooms.{LackRoom, LacksLineRoom};
ghost use Rattle.wkt_calls.specs.Calls.{AnswersSure, AreWholeLines, IsChunkStuck, ends_here, IsFirstLine};

use crate::status::{MEMORY, SMALL};
use wkt_canonical::laws::texts_are_short;
use wkt_canonical::{NoRoom, SPARE, has_room};
use wkt_lines::{Answer, answer_line, line_end};
use wkt_num::Places;

/// How many bytes of an input are looked at together for whole lines, mostly.
const SUM_AT_ONCE: usize = 65536;

/// How many bytes of an input are answered, and how many bytes the answers take.
#[derive(Clone, Copy)]
pub struct Answered {
    /// How many bytes of the input.
    pub taken: usize,
    /// How many bytes the answers take.
    pub written: usize,
}

/// Whether the input ends here, by a number of the caller's.
pub fn is_last(last: u32) -> bool
    ensures { result ≡ ends_here last }
{
    last != 0
}

/// Writes the answer to the first line behind the first `len` bytes.
#[inline(always)]
fn answer_first(places: Places, rest: &[u8], out: &mut [u8], len: usize) -> Answer
    requires { len + 2 * length rest.now + 65 ≤ length out.old }
    ensures answers { AnswersBehind (read_at places) (print_at places) rest.now len out.old out.new result.taken result.len }
    ensures whole { length out.new ≡ length out.old }
    ensures room { result.len ≤ length out.old }
    ensures line { result.taken ≡ length (before_feed rest.now) + 1 }
    ensures within { result.taken ≤ length rest.now + 1 }
{
    match answer_line(places, rest, out, len) {
        Ok(answer) => answer,
        Err(NoRoom) => {
            // No effect at run time. The proof reads that decimals have no such texts.
            texts_are_short();
            unreachable!()
        }
    }
}

/// How long a text may be whose answer surely fits into so many bytes.
fn most_for(room: usize) -> usize
    ensures { (result ≡ 0) ⊎ (2 * result + 65 ≤ room) }
{
    if room < SPARE {
        return 0;
    }
    ((room - SPARE) / 2).min(SUM_AT_ONCE)
}

/// The lesser of two places.
#[inline(always)]
fn lesser(one: usize, other: usize) -> usize
    ensures one { result ≤ one }
    ensures other { result ≤ other }
    ensures is { (one ≤ result) ⊎ (result ≡ other) }
{
    if one < other { one } else { other }
}

/// Answers the lines behind those that are answered, as long as the next answer surely has room.
pub fn answer_lines(
    input: &[u8],
    places: Places,
    last: bool,
    done: Answered,
    out: &mut [u8],
) -> Answered
    requires taken { done.taken ≤ length input.now }
    requires written { done.written ≤ length out.old }
    requires lines { AreWholeLines last input.now done.taken }
    requires answers { IsOutput (read_at places) (print_at places) (take done.taken input.now) (take done.written out.old) }
    ensures taken { result.taken ≤ length input.now }
    ensures written { result.written ≤ length out.new }
    ensures lines { AreWholeLines last input.now result.taken }
    ensures answers { IsOutput (read_at places) (print_at places) (take result.taken input.now) (take result.written out.new) }
    ensures whole { length out.new ≡ length out.old }
    ensures goes { done.taken ≤ result.taken }
    ensures stuck { IsChunkStuck last (drop result.taken input.now) (length out.new - result.written) }
{
    let mut at = done.taken;
    let mut len = done.written;
    let mut end = at;
    'lines: while at < input.len() {
        let room = out.len() - len;
        if at >= end || !has_room(room, end - at) {
            end = at + whole_within(&input[at..], most_for(room), last);
            if end == at || !has_room(room, end - at) {
                return Answered {
                    taken: at,
                    written: len,
                };
            }
        }
        let answer = answer_first(places, &input[at..end], out, len);
        at = lesser(at + answer.taken, input.len());
        len = answer.len;
    }
    Answered {
        taken: at,
        written: len,
    }
}

/// Answers as many whole lines at the front of the input as surely fit into `out`, with decimals of so many places; where the
/// input ends, what is left behind the last line feed is a line too.
pub fn sure_lines_at(input: &[u8], places: u32, last: bool, out: &mut [u8]) -> Answered
    requires { places ≤ 36 }
    ensures { AnswersSure (read_at places) (print_at places) last input.now result.taken result.written out.new }
{
    let none = Answered {
        taken: 0,
        written: 0,
    };
    answer_lines(input, Places::new(places), last, none, out)
}

/// The bytes of the first line, if it is whole, else none.
#[tactic(auto, using(crate::proofs::Pieces::whole_line, crate::proofs::Pieces::one_line))]
pub fn first_line(rest: &[u8], last: bool) -> usize
    ensures within { result ≤ length rest.now }
    ensures whole { AreWholeLines last rest.now result }
    ensures line { IsFirstLine last rest.now result ⊎ (result ≡ 0) }
    ensures none { result ≡ 0 → (length rest.now ≡ 0) ⊎ ((last ≡ false) × (before_feed rest.now ≡ rest.now)) }
{
    let end = line_end(rest);
    if end < rest.len() {
        return end + 1;
    }
    if last { rest.len() } else { 0 }
}

/// The bytes of some whole lines at the front, no more than so many; else of the first line alone, if it is whole.
#[tactic(auto, using(crate::proofs::Pieces::whole_at))]
pub(crate) fn whole_within(rest: &[u8], most: usize, last: bool) -> usize
    ensures within { result ≤ length rest.now }
    ensures whole { AreWholeLines last rest.now result }
    ensures most { (result ≤ most) ⊎ IsFirstLine last rest.now result }
    ensures none { result ≡ 0 → (length rest.now ≡ 0) ⊎ ((last ≡ false) × (before_feed rest.now ≡ rest.now)) }
{
    let mut at = most.min(rest.len());
    'back: while at > 0 {
        if rest[at - 1] == b'\n' {
            return at;
        }
        at -= 1;
    }
    first_line(rest, last)
}

/// Writes the answers to all lines of the input to the front of the room, with decimals of so many places, and returns how
/// long they are.
pub fn answers(input: &[u8], places: Places, room: &mut [u8]) -> Result<usize, u32>
    ensures answers { IfOk result (λ n. IsOutput (read_at places) (print_at places) input.now (take n room.new)) }
    ensures within { IfOk result (λ n. n ≤ length room.new) }
    ensures whole { length room.new ≡ length room.old }
    ensures lacks { IfErr result (λ s. (s ≡ MEMORY) × LackRoom (read_at places) (print_at places) input.now (length room.old)) }
{
    let none = Answered {
        taken: 0,
        written: 0,
    };
    let done = answer_lines(input, places, true, none, room);
    if done.taken < input.len() {
        return Err(MEMORY);
    }
    Ok(done.written)
}

/// Puts the bytes behind the first `at`.
fn put_at(bytes: &[u8], out: &mut [u8], at: usize)
    requires { at + length bytes.now ≤ length out.old }
    ensures put { take (at + length bytes.now) out.new ≡ take at out.old ++ bytes.now }
    ensures whole { length out.new ≡ length out.old }
{
    out[at..at + bytes.len()].copy_from_slice(bytes);
}

/// Answers as many whole lines at the front of the input as fit into `out`, with decimals of so many places; where the input
/// ends, what is left behind the last line feed is a line too. A line whose answer may not fit is answered in the room.
pub fn answer_some(
    input: &[u8],
    places: Places,
    last: bool,
    room: &mut [u8],
    out: &mut [u8],
) -> Result<Answered, u32>
    ensures answers { MatchResult result (λ a. AnswersSome (read_at places) (print_at places) last input.now a.taken a.written out.new)
        (AnswersNone (read_at places) (print_at places) last input.now out.old) }
    ensures lacks { IfErr result (λ s. s ≡ MEMORY → LacksLineRoom (read_at places) (print_at places) last input.now (length room.old)) }
    ensures whole { length out.new ≡ length out.old }
{
    let mut done = Answered {
        taken: 0,
        written: 0,
    };
    'lines: loop {
        done = answer_lines(input, places, last, done, out);
        // Whether the answer to the next line fits shows only when it is written.
        let rest = &input[done.taken..];
        let line = first_line(rest, last);
        if line == 0 {
            return Ok(done);
        }
        let size = match answers(&rest[..line], places, room) {
            Ok(size) => size,
            Err(status) => return Err(status),
        };
        if size > out.len() - done.written {
            if done.taken == 0 {
                return Err(SMALL);
            }
            return Ok(done);
        }
        put_at(&room[..size], out, done.written);
        done = Answered {
            taken: done.taken + line,
            written: done.written + size,
        };
    }
}
