//! The answer to the first line, behind what a room holds.
ghost use Rattle.std.specs.Prelude.{◌≡◌, ◌+◌, ◌*◌, ◌≤◌, ◌++◌, ◌<◌, length, take, drop, codes};
ghost use Rattle.wkt_lines.specs.First.{AnswersIfRoom, TestsFrom, IfAnswered};
ghost use Rattle.wkt_lines.specs.Lines.{before_feed, after_feed};

use crate::ends::{ends_there, line_end, text_end};
use wkt_canonical::{NoRoom, write_front};
use wkt_num::Numbers;

/// How much of a block was answered, with its line feed, and how much is written then.
#[derive(Clone, Copy)]
pub struct Answer {
    pub taken: usize,
    pub len: usize,
}

/// Writes the answer to the first line behind the first `len` bytes: the canonical text of what it begins with, or
/// `refused`, and a line feed. There is room for twice the bytes that are left, and 65 more.
///
/// # Errors
/// [`NoRoom`]; what stands behind the first `len` bytes means nothing then.
#[inline(always)]
pub fn answer_line<N: Numbers>(
    numbers: N,
    rest: &[u8],
    out: &mut [u8],
    len: usize,
) -> Result<Answer, NoRoom>
    requires { len + 2 * length rest.now + 65 ≤ length out.old }
    ensures answers { AnswersIfRoom (N.read numbers) (N.num numbers) rest.now len out.old out.new result }
    ensures kept { take len out.new ≡ take len out.old }
    ensures whole { length out.new ≡ length out.old }
    ensures room { IfAnswered result (λ a. a.len ≤ length out.old) }
    ensures some { IfAnswered result (λ a. 0 < a.taken) }
    ensures line { IfAnswered result (λ a. a.taken ≡ length (before_feed rest.now) + 1) }
    ensures within { IfAnswered result (λ a. a.taken ≤ length rest.now + 1) }
{
    match write_front::<N, true>(numbers, rest, out, len) {
        Ok(Some((end, n))) => {
            let from = utf8_from(numbers, end);
            // Most lines end there. They are answered here, so that no `Option` is made for them.
            if ends_there(rest, from) {
                out[n] = b'\n';
                return Ok(Answer {
                    taken: from + 1,
                    len: n + 1,
                });
            }
            match text_end(rest, from) {
                Some(line) => {
                    out[n] = b'\n';
                    Ok(Answer {
                        taken: line + 1,
                        len: n + 1,
                    })
                }
                None => Ok(refuse(rest, out, len)),
            }
        }
        Ok(None) => Ok(refuse(rest, out, len)),
        Err(NoRoom) => Err(NoRoom),
    }
}

/// From where on a line is to be tested for UTF-8, of which a front was read that ends there.
#[inline(always)]
pub(crate) fn utf8_from<N: Numbers>(numbers: N, end: usize) -> usize
    ensures { TestsFrom (N.read numbers) end result }
{
    if numbers.reads_texts() { end } else { 0 }
}

/// Writes that the first line is refused.
fn refuse(rest: &[u8], out: &mut [u8], len: usize) -> Answer
    requires { len + 8 ≤ length out.old }
    ensures written { take result.len out.new ≡ take len out.old ++ codes "refused\n" }
    ensures left { drop result.taken rest.now ≡ after_feed rest.now }
    ensures kept { take len out.new ≡ take len out.old }
    ensures whole { length out.new ≡ length out.old }
    ensures room { result.len ≡ len + 8 }
    ensures some { 0 < result.taken }
    ensures line { result.taken ≡ length (before_feed rest.now) + 1 }
    ensures within { result.taken ≤ length rest.now + 1 }
{
    out[len..len + 8].copy_from_slice(b"refused\n");
    Answer {
        taken: line_end(rest) + 1,
        len: len + 8,
    }
}
