//! Where lines end.
ghost use Rattle.std.specs.Prelude.{◌≡◌, ◌≤◌, ◌+◌, ◌==◌, not, length, take, drop};
ghost use Rattle.std.specs.Bool.{OnTrue};
ghost use Rattle.std.specs.List.{prefix_len};
ghost use Rattle.std.specs.Simd.Lanes.{chunk};
ghost use Rattle.wkt_lines.specs.Lines.{before_feed, after_feed, EndsText, EndsTextIfAny};

use std::simd::prelude::*;
use wkt_events::byte_at;

/// Where the first line ends: before its line feed, or where the bytes end.
///
/// ```text
/// line_end(b"POINT(1 2)\nPOINT(3 4)") // 10
/// ```
pub fn line_end(rest: &[u8]) -> usize
    ensures within { result ≤ length rest.now }
    ensures before { take result rest.now ≡ before_feed rest.now }
    ensures after { drop (result + 1) rest.now ≡ after_feed rest.now }
{
    let mut at = 0;
    'wide: while rest.len() - at >= 32 {
        let feed = feed_in(rest, at);
        if feed < 32 {
            return at + feed;
        }
        at += 32;
    }
    'bytes: while at < rest.len() && rest[at] != b'\n' {
        at += 1;
    }
    at
}

/// The place of the first line feed among the 32 bytes from `at` on, or 32.
#[inline(always)]
fn feed_in(rest: &[u8], at: usize) -> usize
    requires { at + 32 ≤ length rest.now }
    ensures { result ≡ prefix_len (λ b. not (b == 10)) (chunk at 32 rest.now) }
{
    let feeds = u8x32::from_slice(&rest[at..])
        .simd_eq(u8x32::splat(b'\n'))
        .to_bitmask();
    if feeds == 0 {
        32
    } else {
        feeds.trailing_zeros() as usize
    }
}

/// Whether the first line ends there.
#[inline(always)]
pub fn ends_there(rest: &[u8], at: usize) -> bool
    requires inside { at ≤ length rest.now }
    requires line { at ≤ length (before_feed rest.now) }
    ensures { OnTrue result (EndsText rest.now at at) }
{
    if byte_at(rest, at) == b'\n' {
        return true;
    }
    false
}

/// Where the first line ends, if what it has from `from` on is UTF-8.
#[inline(never)]
#[tactic(auto, using(crate::proofs::Lining::none_tested))]
pub fn text_end(rest: &[u8], from: usize) -> Option<usize>
    requires inside { from ≤ length rest.now }
    requires line { from ≤ length (before_feed rest.now) }
    ensures { EndsTextIfAny rest.now from result }
{
    let end = from + line_end(&rest[from..]);
    match str::from_utf8(&rest[from..end]) {
        Ok(_) => Some(end),
        Err(_) => None,
    }
}
