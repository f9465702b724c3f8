//! Numbers as values.
ghost use Rattle.std.specs.Prelude.{◌≡◌, ◌≤◌, ◌+◌, length, slice_index, slice_range, IfSome, IfNone, IsUtf8};
ghost use Rattle.wkt_read.specs.Lexemes.{starts_number};
ghost use Rattle.wkt_events.specs.Remaining.{ReadsNumber, plus_len};

use crate::bytes::{is_ascii_fast, run_end};
use wkt_num::Numbers;

/// The number at `at`, in any form, and its end.
#[inline(always)]
pub fn number_there<N: Numbers>(numbers: N, text: &[u8], at: usize) -> Option<(N::Number, usize)>
    requires { at ≤ length text.now }
    ensures { ReadsNumber (N.read numbers) text.now at result }
{
    let end = run_end(text, at);
    if end == at || !begins_number(text[at]) {
        return None;
    }
    let Some(run) = text_of(text, past_plus(text, at), end) else {
        return None;
    };
    let Some(number) = numbers.read_number(run) else {
        return None;
    };
    Some((number, end))
}

/// The bytes up to `end`, if they are UTF-8.
#[inline(always)]
fn text_of(text: &[u8], from: usize, end: usize) -> Option<&str>
    requires order { from ≤ end }
    requires inside { end ≤ length text.now }
    ensures some { IfSome result (λ s. s.now ≡ slice_range text.now from end) }
    ensures none { IfNone result (¬ (IsUtf8 (slice_range text.now from end))) }
{
    let bytes = &text[from..end];
    if is_ascii_fast(text, from, end) {
        return Some(unsafe { str::from_utf8_unchecked(bytes) });
    }
    match str::from_utf8(bytes) {
        Ok(run) => Some(run),
        Err(_) => None,
    }
}

/// Whether a number may begin with the byte.
#[inline(always)]
pub fn begins_number(byte: u8) -> bool
    ensures { result ≡ starts_number byte }
{
    byte.is_ascii_digit() || byte == b'.' || byte == b'-' || byte == b'+'
}

/// Past the plus, if one stands here.
fn past_plus(text: &[u8], at: usize) -> usize
    requires { at + 1 ≤ length text.now }
    ensures { result ≡ at + plus_len (slice_index text.now at) }
{
    if text[at] == b'+' { at + 1 } else { at }
}
