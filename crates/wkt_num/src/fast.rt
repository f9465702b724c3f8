//! Numbers of few digits, straight to 64 bits.
ghost use Rattle.std.specs.Prelude.{◌≡◌, ◌+◌, ◌-◌, ◌*◌, ◌^◌, ◌≤◌, ◌<◌, Some, IfSome, length, slice_range};
ghost use Rattle.std.specs.Str.Parse.{AllDigits, digits_value};
ghost use Rattle.wkt_num.specs.DigitParts.{BeginsUnits, ReadsDigits, SpellsAll};
ghost use Rattle.wkt_num.specs.Whole.{signed};

use crate::kept::{after_minus, is_of_run};
use crate::lanes::first_8;
use crate::powers::{SHORT_PLACES, ten_to};
use crate::reading::digits_from;
use std::simd::prelude::*;

/// A number that ends before this place is read in 64 bits.
const MOST: usize = 18;

/// As many digits of units surely fit 64 bits without a sign.
const MOST_DIGITS: usize = 19;

/// The number that the bytes begin with, in units of ten to the minus `places`, and where its run ends. `None` implies
/// nothing: the run is none, or has more digits, or more follow the point than there are places, or the units don't fit.
#[inline(always)]
pub fn fast_units(places: u32, bytes: &[u8]) -> Option<(i64, usize)>
    ensures { IfSome result (λ r. BeginsUnits places bytes.now r.0 r.1) }
{
    if places > SHORT_PLACES {
        return None;
    }
    // Two calls, so that the place is a constant in the common one.
    if bytes.len() < MOST {
        units_before(places, bytes, bytes.len())
    } else {
        units_before(places, bytes, MOST)
    }
}

/// The number that the bytes begin with, and where its run ends, if it does so before this place.
#[inline(always)]
fn units_before(places: u32, bytes: &[u8], most: usize) -> Option<(i64, usize)>
    requires places { places ≤ 18 }
    requires few { most ≤ 18 }
    requires within { most ≤ length bytes.now }
    ensures { IfSome result (λ r. BeginsUnits places bytes.now r.0 r.1) }
{
    let first = after_minus(bytes);
    let (whole, point) = digits_from(bytes, first, most, 0);
    if point == first || point >= most || point - first + places as usize > MOST_DIGITS {
        return None;
    }
    if bytes[point] == b'.' {
        let (all, end) = fraction_from(bytes, point + 1, most, whole);
        let after = end - point - 1;
        if end >= most || is_of_run(bytes[end]) || after > places as usize {
            return None;
        }
        let units = scaled(first == 1, all, ten_to(places - after as u32))?;
        return Some((units, end));
    }
    if is_of_run(bytes[point]) {
        return None;
    }
    let units = scaled(first == 1, whole, ten_to(places))?;
    Some((units, point))
}

/// The number followed by the digits from `from` on and before `most`, and where they end. They are read at once where
/// they are few.
#[inline(always)]
fn fraction_from(bytes: &[u8], from: usize, most: usize, number: u64) -> (u64, usize)
    requires few { most ≤ 18 }
    requires within { most ≤ length bytes.now }
    requires order { from ≤ most }
    requires small { number < 10 ^ from }
    ensures { ReadsDigits bytes.now from most number result.0 result.1 }
{
    if most - from < 8 {
        return digits_from(bytes, from, most, number);
    }
    match fast_digits(bytes, from) {
        Some((fraction, count)) => (number * ten_to(count as u32) + fraction, from + count),
        None => digits_from(bytes, from, most, number),
    }
}

/// The number that the digits from `from` on spell, and how many they are, if a byte that is none follows one to seven of
/// them. `None` implies nothing.
#[inline(always)]
#[tactic(auto, using(crate::proofs::DigitLanes::first_lanes))]
fn fast_digits(bytes: &[u8], from: usize) -> Option<(u64, usize)>
    requires within { from + 8 ≤ length bytes.now }
    ensures some { IfSome result (λ r. 0 < r.1) }
    ensures few { IfSome result (λ r. r.1 < 8) }
    ensures digits { IfSome result (λ r. AllDigits 10 (slice_range bytes.now from (from + r.1))) }
    ensures value { IfSome result (λ r. r.0 ≡ digits_value 10 (slice_range bytes.now from (from + r.1))) }
{
    let digits = u8x8::from_slice(&bytes[from..]) - u8x8::splat(48);
    let count = digits.simd_gt(u8x8::splat(9)).to_bitmask().trailing_zeros() as usize;
    if count == 0 || count > 7 {
        return None;
    }
    Some((first_8(digits, count), count))
}

/// So many times a number, with a minus or without, if 64 bits hold it.
#[inline(always)]
fn scaled(negative: bool, number: u64, times: u64) -> Option<i64>
    requires { number * times < 2 ^ 64 }
    ensures is { IfSome result (λ units. units ≡ signed negative (number * times)) }
    ensures fits { IfSome result (λ _. number * times < 2 ^ 63) }
{
    let units = number * times;
    if units > i64::MAX as u64 {
        return None;
    }
    let units = units as i64;
    Some(if negative { -units } else { units })
}

/// What all bytes from `first` on spell, if they are digits, and the bytes are at most `most`.
#[inline(always)]
pub(crate) fn digits_of_all(most: usize, bytes: &[u8], first: usize) -> Option<u64>
    requires few { most ≤ 18 }
    requires minus { first ≤ length bytes.now }
    ensures { IfSome result (λ digits. SpellsAll most bytes.now first digits) }
{
    if bytes.len() > most {
        return None;
    }
    let (digits, end) = digits_from(bytes, first, bytes.len(), 0);
    if end == first || end < bytes.len() {
        return None;
    }
    Some(digits)
}
