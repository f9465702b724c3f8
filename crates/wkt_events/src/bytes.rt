//! Bytes at places in a text that ends at NUL or with its last byte, and where white space and runs end.
//! Where `LF_ENDS`, the text ends at LF too, which else is white space.
ghost use Rattle.std.specs.Bool.{OnTrue};
ghost use Rattle.std.specs.Prelude.{◌≡◌, ◌≢◌, ◌↔◌, ◌≤◌, ◌<◌, ◌+◌, ℕ, IsTrue, IsAscii, length, get_or, slice_range};
ghost use Rattle.wkt_num.specs.Bytes.{White, Run, class_of};
ghost use Rattle.wkt_events.specs.Remaining.{line_of, class_in, remaining_spanned, IsRunEnd, low_mask, high_mask};

use std::simd::prelude::*;
use wkt_read::words;

/// The bytes of a window, in which most runs end.
const RUN_WINDOW: usize = 32;

/// The byte at this place; past the end it is NUL, which ends a text too.
#[inline(always)]
pub fn byte_at(text: &[u8], at: usize) -> u8
    ensures value { result ≡ get_or text.now at 0 }
    ensures some { 0 < result → at < length text.now }
{
    if at < text.len() { text[at] } else { 0 }
}

/// Whether it may stand between the lexemes of a line.
#[inline(always)]
fn is_white<const LF_ENDS: bool>(byte: u8) -> bool
    ensures { IsTrue result ↔ (class_in LF_ENDS byte ≡ White) }
{
    if LF_ENDS && byte == b'\n' {
        return false;
    }
    words::is_white(byte)
}

/// Past white space, of which mostly there is none, or one space.
#[inline(always)]
pub fn skip_white<const LF_ENDS: bool>(text: &[u8], at: usize) -> usize
    requires { at ≤ length text.now }
    ensures order { at ≤ result }
    ensures inside { result ≤ length text.now }
    ensures line { at ≤ length (line_of LF_ENDS text.now) → result ≤ length (line_of LF_ENDS text.now) }
    ensures same { remaining_spanned LF_ENDS text.now at ≡ remaining_spanned LF_ENDS text.now result }
    ensures white { (k : ℕ) → at ≤ k → k < result → class_in LF_ENDS (get_or text.now k 0) ≡ White }
    ensures stops { class_in LF_ENDS (get_or text.now result 0) ≢ White }
{
    if byte_at(text, at) > b' ' {
        return at;
    }
    if byte_at(text, at) == b' ' && byte_at(text, at + 1) > b' ' {
        return at + 1;
    }
    skip_more::<LF_ENDS>(text, at)
}

#[inline(never)]
fn skip_more<const LF_ENDS: bool>(text: &[u8], from: usize) -> usize
    requires { from ≤ length text.now }
    ensures order { from ≤ result }
    ensures inside { result ≤ length text.now }
    ensures line { from ≤ length (line_of LF_ENDS text.now) → result ≤ length (line_of LF_ENDS text.now) }
    ensures same { remaining_spanned LF_ENDS text.now from ≡ remaining_spanned LF_ENDS text.now result }
    ensures white { (k : ℕ) → from ≤ k → k < result → class_in LF_ENDS (get_or text.now k 0) ≡ White }
    ensures stops { class_in LF_ENDS (get_or text.now result 0) ≢ White }
{
    let mut at = from;
    while is_white::<LF_ENDS>(byte_at(text, at)) {
        at += 1;
    }
    at
}

/// Whether it is of a run.
#[inline(always)]
#[tactic(auto, unfolding(wkt_num::specs::Bytes::class_of))]
pub fn is_of_run(byte: u8) -> bool
    ensures { IsTrue result ↔ (class_of byte ≡ Run) }
{
    byte > b',' || !matches!(byte, 0 | b' ' | b'\n' | b'\r' | b'\t' | b'(' | b')' | b',')
}

/// Where the run ends that goes on here.
#[inline(always)]
pub fn run_end(text: &[u8], from: usize) -> usize
    requires { from ≤ length text.now }
    ensures { IsRunEnd text.now from result }
{
    if text.len() - from >= RUN_WINDOW {
        let low = low_bytes(text, from);
        if low != 0 {
            let end = from + low.trailing_zeros() as usize;
            if !is_of_run(text[end]) {
                return end;
            }
        }
    }
    slow_run_end(text, from)
}

/// The bytes of the window that are no more than a comma, as bits: what ends a run is among them.
#[inline(always)]
#[tactic(auto, using(crate::proofs::Runs::low_lanes))]
fn low_bytes(text: &[u8], from: usize) -> u64
    requires { from + 32 ≤ length text.now }
    ensures { result ≡ low_mask text.now from }
{
    let bytes = u8x32::from_slice(&text[from..]);
    bytes.simd_le(u8x32::splat(b',')).to_bitmask()
}

/// Whether the bytes of a run are ASCII; of one that is long, or ends near the text's end, it isn't asked.
#[inline(always)]
#[tactic(auto, using(crate::proofs::Runs::ascii_run, std::proofs::lemmas::Bool::OnTrue_from, std::proofs::lemmas::Bool::Decides::nat_tests))]
pub(crate) fn is_ascii_fast(text: &[u8], from: usize, end: usize) -> bool
    requires order { from ≤ end }
    requires inside { end ≤ length text.now }
    ensures { OnTrue result (IsAscii (slice_range text.now from end)) }
{
    if text.len() - from < RUN_WINDOW || end - from > RUN_WINDOW {
        return false;
    }
    high_bytes(text, from).trailing_zeros() as usize >= end - from
}

/// The bytes of the window that aren't ASCII, as bits.
#[inline(always)]
#[tactic(auto, using(crate::proofs::Runs::high_lanes))]
fn high_bytes(text: &[u8], from: usize) -> u64
    requires { from + 32 ≤ length text.now }
    ensures { result ≡ high_mask text.now from }
{
    let bytes = u8x32::from_slice(&text[from..]);
    bytes.simd_gt(u8x32::splat(127)).to_bitmask()
}

#[inline(never)]
fn slow_run_end(text: &[u8], from: usize) -> usize
    requires { from ≤ length text.now }
    ensures { IsRunEnd text.now from result }
{
    let mut at = from;
    while at < text.len() && is_of_run(text[at]) {
        at += 1;
    }
    at
}
