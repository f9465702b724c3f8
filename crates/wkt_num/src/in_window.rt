//! Numbers that a window shows whole, read in one pass.
ghost use Rattle.std.specs.Prelude.{◌≡◌, ◌==◌, ◌+◌, ◌≤◌, ◌<◌, ◌^◌, IfSome, length, slice_range, take};
ghost use Rattle.std.specs.Fmt.{sign_text};
ghost use Rattle.std.specs.Str.Parse.{AllDigits, digits_value};
ghost use Rattle.wkt_num.specs.Decimal.{read_decimal};
ghost use Rattle.wkt_num.specs.Number.{BeginsNumber};
ghost use Rattle.wkt_num.specs.DigitParts.{ShowsWhole};
ghost use Rattle.wkt_num.specs.Whole.{signed};

use crate::kept::{after_minus, first_other, is_of_run, others_from};
use crate::lanes::first_8;
use crate::powers::{SHORT_PLACES, ten_to};
use std::simd::prelude::*;

/// The most digits before the point.
const MOST_WHOLE: usize = 8;

/// The units of the number that the bytes begin with, and where its run ends, if it does so among the first 32. `None`
/// implies nothing about the bytes: their run may be none, or be written in another way, or have more digits.
#[inline(always)]
pub(crate) fn units_in_window(places: u32, bytes: &[u8]) -> Option<(i128, usize)>
    requires { 32 ≤ length bytes.now }
    ensures reads { IfSome result (λ r. BeginsNumber (read_decimal 127 36 places) bytes.now r.0 r.1) }
    ensures within { IfSome result (λ r. r.1 < 32) }
    ensures places { IfSome result (λ r. places ≤ 36) }
{
    if places > SHORT_PLACES {
        return None;
    }
    let first = after_minus(bytes);
    let others = others_from(bytes, first);
    let Some(point) = first_other(bytes, first, others) else {
        return None;
    };
    if point == first || point - first > MOST_WHOLE {
        return None;
    }
    let whole = eight_from(bytes, first, point - first);
    if bytes[point] != b'.' {
        if is_of_run(bytes[point]) {
            return None;
        }
        let units = u128::from(whole) * u128::from(ten_to(places));
        return Some((with_sign(first == 1, units), point));
    }
    let Some(end) = first_other(bytes, point + 1, others & (others - 1)) else {
        return None;
    };
    let after = end - point - 1;
    if after == 0 || after > 16 || after > places as usize || is_of_run(bytes[end]) {
        return None;
    }
    let fraction = sixteen_from(bytes, point + 1, after);
    let units = u128::from(whole) * u128::from(ten_to(places))
        + u128::from(fraction * ten_to(places - after as u32));
    Some((with_sign(first == 1, units), end))
}

/// The magnitude with its sign.
#[inline(always)]
fn with_sign(negative: bool, magnitude: u128) -> i128
    requires { magnitude < 2 ^ 127 }
    ensures { result ≡ signed negative magnitude }
{
    let units = magnitude as i128;
    if negative { -units } else { units }
}

/// The number that one to eight digits spell.
#[inline(always)]
#[tactic(auto, using(crate::proofs::DigitLanes::given_lanes, crate::proofs::NumberInWindow::digits_small))]
fn eight_from(bytes: &[u8], from: usize, count: usize) -> u64
    requires within { from + 8 ≤ length bytes.now }
    requires some { 0 < count }
    requires few { count ≤ 8 }
    requires digits { AllDigits 10 (slice_range bytes.now from (from + count)) }
    ensures value { result ≡ digits_value 10 (slice_range bytes.now from (from + count)) }
    ensures small { result < 10 ^ count }
{
    first_8(u8x8::from_slice(&bytes[from..]) - u8x8::splat(48), count)
}

/// The number that one to sixteen digits spell.
#[inline(always)]
fn sixteen_from(bytes: &[u8], from: usize, count: usize) -> u64
    requires within { from + 16 ≤ length bytes.now }
    requires some { 0 < count }
    requires few { count ≤ 16 }
    requires digits { AllDigits 10 (slice_range bytes.now from (from + count)) }
    ensures value { result ≡ digits_value 10 (slice_range bytes.now from (from + count)) }
    ensures small { result < 10 ^ count }
{
    let first = eight_from(bytes, from, count.min(8));
    if count <= 8 {
        return first;
    }
    first * ten_to(count as u32 - 8) + eight_from(bytes, from + 8, count - 8)
}

/// What the digits from `first` on spell, which are a run or its end, and where they end.
#[inline(always)]
pub(crate) fn digits_in_window(most: usize, bytes: &[u8], first: usize) -> Option<(u64, usize)>
    requires window { 32 ≤ length bytes.now }
    requires most { most ≤ 16 }
    requires minus { first ≤ 1 }
    requires sign { take first bytes.now ≡ sign_text (first == 1) }
    ensures { IfSome result (λ r. ShowsWhole most bytes.now first r.0 r.1) }
{
    let others = others_from(bytes, first);
    let Some(end) = first_other(bytes, first, others) else {
        return None;
    };
    if end == first || end - first > most || is_of_run(bytes[end]) {
        return None;
    }
    Some((sixteen_from(bytes, first, end - first), end))
}
