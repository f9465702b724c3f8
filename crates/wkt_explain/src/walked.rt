//! The machine over a text, and where it stops.
ghost use Rattle.std.specs.Prelude.{◌≤◌, length, IfOk, IfErr, IfSome, OnErr, false};
ghost use Rattle.wkt_read.specs.Front.{HasNoFront};
ghost use Rattle.wkt_read.specs.Refusal.{IsRefusedWith};
ghost use Rattle.wkt_read.specs.Explained.{EndsFront, IsRefusedAt, IsPart};
ghost use Rattle.wkt_read.specs.Table.{IsReportedAt};
ghost use Rattle.wkt_explain.specs.Problems.{IsPastWhite, EndsLexeme, IsTold, IsToldFirst, IsPaddedFor};
ghost use Rattle.wkt_events.specs.Remaining.{remaining_spanned};
ghost use Rattle.wkt_machine.specs.View.{IsDark};
ghost use Rattle.wkt_machine.specs.Goes.{IsStuck, StopsAt};

use crate::explanation::Refusal;
use wkt_events::{begins_number, byte_at, run_end, skip_white};
use wkt_machine::drive::drive;
use wkt_machine::{Machine, NullBuilder};
use wkt_num::Numbers;
use wkt_read::table::at_word;
use wkt_read::words::{is_white, kind_in};
use wkt_sources::{ByteCursor, message_at};

/// The first place from here on where no white space stands.
#[tactic(auto, using(crate::proofs::StopsAreRefusals::one_more, crate::proofs::StopsAreRefusals::stops_at))]
pub(crate) fn past_white(text: &[u8], from: usize) -> usize
    requires within { from ≤ length text.now }
    ensures { IsPastWhite text.now from result }
{
    let mut at = from;
    'white: while at < text.len() {
        if !is_white(text[at]) {
            return at;
        }
        at += 1;
    }
    at
}

/// Where the lexeme ends that begins there; where none does, that place.
fn lexeme_end(text: &[u8], start: usize) -> usize
    requires inside { start ≤ length text.now }
    requires dark { IsDark false text.now start }
    ensures { EndsLexeme text.now start result }
{
    let byte = byte_at(text, start);
    if byte == b'(' {
        return start + 1;
    }
    if byte == b')' {
        return start + 1;
    }
    if byte == b',' {
        return start + 1;
    }
    run_end(text, start)
}

/// The refusal of a text in which the machine stops.
fn refusal_at<N: Numbers>(numbers: N, machine: Machine, text: &str, at: usize) -> Refusal
    requires inside { at ≤ length text.now }
    requires stuck { IsStuck (N.read numbers) machine (remaining_spanned false text.now at) }
    ensures { IsTold (N.read numbers) text.now machine at result }
{
    let bytes = text.as_bytes();
    let start = skip_white::<false>(bytes, at);
    Refusal {
        message: message_at(numbers, machine, text, at),
        start,
        end: lexeme_end(bytes, start),
        expected: machine.expected(),
    }
}

/// Where the geometry ends that the text begins with; or where the machine stops, and in which state.
///
/// It is one function, so that the machine is built into it, however large it is.
#[inline(never)]
pub(crate) fn driven<N: Numbers>(numbers: N, text: &str) -> Result<usize, (Machine, usize)>
    ensures front { IfOk result (λ end. EndsFront (N.read numbers) text.now end) }
    ensures within { IfOk result (λ end. end ≤ length text.now) }
    ensures stopped { IfErr result (λ s. StopsAt (N.read numbers) text.now s.0 s.1) }
{
    let nothing = NullBuilder { numbers };
    match drive::<N::Number, ByteCursor<'_, false>, NullBuilder<N>>(
        ByteCursor::new(text.as_bytes(), 0),
        nothing,
    ) {
        Ok(over) => Ok(over.source.at),
        Err(stop) => Err((stop.machine, stop.source.at)),
    }
}

/// Whether a byte may begin a kind's word. It is a guess: `false` of most letters that don't.
#[inline(always)]
fn may_begin(byte: u8) -> bool {
    !byte.is_ascii_alphabetic() || matches!(byte | 32, b'g' | b'l' | b'm' | b'p')
}

/// The refusal of a text that begins with a word of no kind, if its first letter shows that: then nothing is made of the
/// text. `None` implies nothing.
#[inline(always)]
fn refused_first<N: Numbers>(numbers: N, text: &str) -> Option<Refusal>
    ensures { IfSome result (λ r. IsToldFirst (N.read numbers) text.now r) }
{
    let bytes = text.as_bytes();
    if may_begin(byte_at(bytes, 0)) {
        return None;
    }
    let start = skip_white::<false>(bytes, 0);
    let end = run_end(bytes, start);
    if end == start || begins_number(bytes[start]) {
        return None;
    }
    let word = &bytes[start..end];
    let None = kind_in(word) else {
        return None;
    };
    let expected = Machine::start().expected();
    Some(Refusal {
        message: at_word(expected, word),
        start,
        end,
        expected,
    })
}

/// Where the geometry ends that the text begins with, or where the text is refused. The machine goes over `padded_text`, which is
/// the text, or the text, a NUL and more.
pub(crate) fn walked<N: Numbers>(
    numbers: N,
    text: &str,
    padded_text: &str,
) -> Result<usize, Refusal>
    requires { IsPaddedFor text.now padded_text.now }
    ensures front { IfOk result (λ end. EndsFront (N.read numbers) text.now end) }
    ensures within { IfOk result (λ end. end ≤ length text.now) }
    ensures no_front { OnErr result (HasNoFront (N.read numbers) text.now) }
    ensures place { IfErr result (λ r. IsRefusedAt (N.read numbers) text.now r.start r.end r.expected) }
    ensures part { IfErr result (λ r. IsPart text.now r.start r.end) }
    ensures message { IfErr result (λ r. IsRefusedWith (N.read numbers) text.now r.message) }
    ensures table { IfErr result (λ r. IsReportedAt (N.read numbers) text.now r.start r.end r.expected r.message) }
{
    if let Some(why) = refused_first(numbers, text) {
        return Err(why);
    }
    match driven(numbers, padded_text) {
        Ok(end) => Ok(end),
        Err((machine, at)) => Err(refusal_at(numbers, machine, text, at)),
    }
}
