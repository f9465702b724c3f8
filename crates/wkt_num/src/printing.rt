//! Decimal fractions as text, in one piece to a sink.
//!
//! What is inlined always divides by a power of ten that is then a constant of the type.
ghost use Rattle.std.specs.Prelude.{◌≡◌, ◌≢◌, ℕ, List, length, ◌<◌, ◌≤◌, ◌+◌, ◌-◌, ◌/◌, ◌%◌, ◌^◌, ◌++◌, take, drop, not, reverse, ◌==◌, slice_index};
ghost use Rattle.std.specs.List.{prefix_len};
ghost use Rattle.wkt_num.specs.Sink.{Puts};
ghost use Rattle.wkt_num.specs.DigitParts.{lowest};
ghost use Rattle.wkt_num.specs.Decimal.{zeros, EndsInDigit, padded, magnitude_text, fraction_text, fraction_digits};

use crate::digits::{put_small_whole, put_whole};
use crate::powers::{SHORT_PLACES, five_to, ten_to};
use crate::sink::TextSink;
use std::fmt;
use std::simd::prelude::*;

/// Writes a minus if `negative`, and `units` of ten to the minus `places`.
///
/// # Errors
/// The sink's; a beginning is written then.
#[inline(always)]
pub fn write_units<W: TextSink>(places: u32, negative: bool, units: u128, f: &mut W) -> fmt::Result
    requires { places ≤ 36 }
    ensures { Puts W.sink f.old (magnitude_text places negative units) f.new result }
{
    if places <= SHORT_PLACES && units >> places <= u128::from(u64::MAX) {
        return write_small(places, negative, units, f);
    }
    write_large(places, negative, units, f)
}

/// Writes units where the whole part fits 64 bits even before the division by the power of five: the fast path.
#[inline(always)]
fn write_small<W: TextSink>(places: u32, negative: bool, units: u128, f: &mut W) -> fmt::Result
    requires few { places ≤ 18 }
    requires small { units / 2 ^ places < 2 ^ 64 }
    ensures { Puts W.sink f.old (magnitude_text places negative units) f.new result }
{
    let mut out = [b'.'; 80];
    let (start, end) = put_small(places, negative, units, &mut out);
    // Its bytes are ASCII, as the proof says, so they aren't read again.
    f.write_str(unsafe { str::from_utf8_unchecked(&out[start..end]) })
}

/// Puts the text around the point, which stands at place 40, and returns where it starts and ends.
#[inline(always)]
#[tactic(auto, using(crate::proofs::Printed::fraction_less, crate::proofs::Printed::units_piece))]
fn put_small(places: u32, negative: bool, units: u128, out: &mut [u8; 80]) -> (usize, usize)
    requires few { places ≤ 18 }
    requires small { units / 2 ^ places < 2 ^ 64 }
    requires point { slice_index out.old 40 ≡ 46 }
    ensures order { result.0 ≤ result.1 }
    ensures within { result.1 ≤ 80 }
    ensures value { take (result.1 - result.0) (drop result.0 out.new) ≡ magnitude_text places negative units }
{
    let (whole, fraction) = split_short(places, units);
    let end = put_small_fraction(places, fraction, out);
    let start = put_small_whole(negative, whole, out);
    (start, end)
}

/// Puts the digits after the point, and returns where the fraction ends: before the point if it is 0.
#[inline(always)]
#[tactic(auto, using(crate::proofs::Printed::no_fraction))]
fn put_small_fraction(places: u32, fraction: u64, out: &mut [u8; 80]) -> usize
    requires few { places ≤ 18 }
    requires less { fraction < 10 ^ places }
    requires point { slice_index out.old 40 ≡ 46 }
    ensures start { 40 ≤ result }
    ensures bound { result ≤ 80 }
    ensures value { drop 40 (take result out.new) ≡ fraction_text places fraction }
{
    if fraction == 0 {
        return 40;
    }
    put_short(places, fraction, out)
}

/// Writes any units: the slow path.
#[inline(never)]
fn write_large<W: TextSink>(places: u32, negative: bool, units: u128, f: &mut W) -> fmt::Result
    requires { places ≤ 36 }
    ensures { Puts W.sink f.old (magnitude_text places negative units) f.new result }
{
    let mut out = [b'.'; 80];
    let (start, end) = put_units(places, negative, units, &mut out);
    // Its bytes are ASCII, as the proof says, so they aren't read again.
    f.write_str(unsafe { str::from_utf8_unchecked(&out[start..end]) })
}

/// Puts the text around the point, which stands at place 40, and returns where it starts and ends.
#[inline(always)]
#[tactic(auto, using(crate::proofs::Printed::fraction_less, crate::proofs::Printed::units_piece))]
fn put_units(places: u32, negative: bool, units: u128, out: &mut [u8; 80]) -> (usize, usize)
    requires few { places ≤ 36 }
    requires point { slice_index out.old 40 ≡ 46 }
    ensures order { result.0 ≤ result.1 }
    ensures within { result.1 ≤ 80 }
    ensures value { take (result.1 - result.0) (drop result.0 out.new) ≡ magnitude_text places negative units }
{
    let (whole, fraction) = split_units(places, units);
    let end = put_fraction(places, fraction, out);
    let start = put_whole(negative, whole, out);
    (start, end)
}

/// The whole part, and the units of the fraction.
#[inline(always)]
#[tactic(auto, using(crate::proofs::Printed::ten_fits))]
fn split_units(places: u32, units: u128) -> (u128, u128)
    requires { places ≤ 36 }
    ensures whole { result.0 ≡ units / 10 ^ places }
    ensures fraction { result.1 ≡ units % 10 ^ places }
{
    let unit = 10u128.pow(places);
    (units / unit, units % unit)
}

/// The whole part and the units of the fraction, where the whole part fits 64 bits even before the division by the
/// power of five.
#[inline(always)]
fn split_short(places: u32, units: u128) -> (u64, u64)
    requires few { places ≤ 18 }
    requires small { units / 2 ^ places < 2 ^ 64 }
    ensures whole { result.0 ≡ units / 10 ^ places }
    ensures fraction { result.1 ≡ units % 10 ^ places }
{
    let whole = (units >> places) as u64 / five_to(places);
    let fraction = units - u128::from(whole) * u128::from(ten_to(places));
    (whole, fraction as u64)
}

/// Puts the digits after the point, and returns where the fraction ends: before the point if it is 0.
#[inline(always)]
#[tactic(auto, using(crate::proofs::Printed::no_fraction))]
fn put_fraction(places: u32, fraction: u128, out: &mut [u8; 80]) -> usize
    requires few { places ≤ 36 }
    requires less { fraction < 10 ^ places }
    requires point { slice_index out.old 40 ≡ 46 }
    ensures start { 40 ≤ result }
    ensures bound { result ≤ 80 }
    ensures value { drop 40 (take result out.new) ≡ fraction_text places fraction }
{
    if fraction == 0 {
        return 40;
    }
    if places <= SHORT_PLACES {
        put_short(places, fraction as u64, out)
    } else {
        put_long(places, fraction, out)
    }
}

/// Puts the digits after the point, and returns where they end.
///
/// The fraction is first made one of 18 places, of which sixteen are put at once, or eight if the others are 0.
#[inline(always)]
fn put_short(places: u32, fraction: u64, out: &mut [u8; 80]) -> usize
    requires few { places ≤ 18 }
    requires less { fraction < 10 ^ places }
    requires some { fraction ≢ 0 }
    ensures start { 41 ≤ result }
    ensures bound { result ≤ 80 }
    ensures value { take result out.new ≡ take 41 out.old ++ fraction_digits places fraction }
{
    let all = fraction * ten_to(SHORT_PLACES - places);
    let high = all / 10_000_000_000;
    if high * 10_000_000_000 == all {
        // At most eight digits, as most fractions have.
        let digits = eight(high);
        digits.copy_to_slice(&mut out[41..49]);
        return 49 - zeros_after_eight(digits);
    }
    let front = all / 100;
    let last = all % 100;
    let digits = sixteen(front);
    digits.copy_to_slice(&mut out[41..57]);
    if last == 0 {
        return 57 - zeros_after(digits);
    }
    out[57] = b'0' + (last / 10) as u8;
    out[58] = b'0' + (last % 10) as u8;
    without_zeros(out, 59)
}

/// Eight digits.
#[inline(always)]
#[tactic(auto, using(crate::proofs::EighteenPlaces::padded_two))]
fn eight(n: u64) -> u8x8
    requires { n < 10 ^ 8 }
    ensures { result ≡ padded 8 n }
{
    two_fours((n / 10000) as u32, (n % 10000) as u32)
}

/// Four digits of each number.
#[inline(always)]
#[tactic(auto, using(crate::proofs::EighteenPlaces::two_fours))]
fn two_fours(a: u32, b: u32) -> u8x8
    requires { (a < 10000) × (b < 10000) }
    ensures { result ≡ padded 4 a ++ padded 4 b }
{
    // A division by 100, and then one by 10.
    let fours = u32x2::from_array([a, b]);
    let hundreds = (fours * u32x2::splat(5243)) >> u32x2::splat(19);
    let rests = fours - hundreds * u32x2::splat(100);
    let pairs: u32x4 = hundreds.shuffle(rests, [0, 2, 1, 3]);
    let pairs: u16x4 = pairs.cast();
    let tens = (pairs * u16x4::splat(103)) >> u16x4::splat(10);
    let ones = pairs - tens * u16x4::splat(10);
    let digits: u16x8 = tens.shuffle(ones, [0, 4, 1, 5, 2, 6, 3, 7]);
    let digits: u8x8 = digits.cast();
    digits + u8x8::splat(48)
}

/// How many zeros stand last.
#[inline(always)]
fn zeros_after_eight(digits: u8x8) -> usize
    ensures { result ≡ prefix_len (λ b. not (not (b == 48))) (reverse digits) }
{
    lowest(digits.reverse().simd_ne(u8x8::splat(b'0')).to_bitmask(), 8)
}

/// The lowest of these bits, or how many lanes there are.
#[inline(always)]
fn lowest(bits: u64, lanes: usize) -> usize
    ensures { result ≡ lowest lanes bits }
{
    if bits == 0 {
        lanes
    } else {
        bits.trailing_zeros() as usize
    }
}

/// Sixteen digits.
#[inline(always)]
fn sixteen(n: u64) -> u8x16
    requires { n < 10 ^ 16 }
    ensures { result ≡ padded 16 n }
{
    let front = n / 100_000_000;
    let back = n % 100_000_000;
    four_fours(
        (front / 10000) as u32,
        (front % 10000) as u32,
        (back / 10000) as u32,
        (back % 10000) as u32,
    )
}

/// The sixteen digits of four numbers of four digits each.
#[inline(always)]
#[tactic(auto, using(crate::proofs::EighteenPlaces::four_fours))]
fn four_fours(a: u32, b: u32, c: u32, d: u32) -> u8x16
    requires { (a < 10000) × (b < 10000) × (c < 10000) × (d < 10000) }
    ensures { result ≡ padded 4 a ++ (padded 4 b ++ (padded 4 c ++ padded 4 d)) }
{
    let fours = u32x4::from_array([a, b, c, d]);
    let hundreds = (fours * u32x4::splat(5243)) >> u32x4::splat(19);
    let rests = fours - hundreds * u32x4::splat(100);
    let pairs: u32x8 = hundreds.shuffle(rests, [0, 4, 1, 5, 2, 6, 3, 7]);
    let pairs: u16x8 = pairs.cast();
    let tens = (pairs * u16x8::splat(103)) >> u16x8::splat(10);
    let ones = pairs - tens * u16x8::splat(10);
    let digits: u16x16 = tens.shuffle(ones, [0, 8, 1, 9, 2, 10, 3, 11, 4, 12, 5, 13, 6, 14, 7, 15]);
    let digits: u8x16 = digits.cast();
    digits + u8x16::splat(48)
}

/// How many of sixteen digits are the last zeros.
#[inline(always)]
fn zeros_after(digits: u8x16) -> usize
    ensures { result ≡ prefix_len (λ b. not (not (b == 48))) (reverse digits) }
{
    lowest(
        digits.reverse().simd_ne(u8x16::splat(b'0')).to_bitmask(),
        16,
    )
}

/// Where what ends at `end` ends without its last zeros.
#[inline(always)]
fn without_zeros(out: &[u8; 80], end: usize) -> usize
    requires { 41 ≤ end × end ≤ 80 }
    ensures start { 41 ≤ result }
    ensures bound { result ≤ end }
    ensures value { (kept : List ℕ) (m : ℕ) → EndsInDigit kept → 41 < length kept
        → take end out.now ≡ kept ++ zeros m → take result out.now ≡ kept }
{
    let mut at = end;
    while at > 41 && out[at - 1] == b'0' {
        at -= 1;
    }
    at
}

/// Puts the digits after the point where ten times a rest needs 128 bits, and returns where they end.
fn put_long(places: u32, fraction: u128, out: &mut [u8; 80]) -> usize
    requires few { places ≤ 36 }
    requires less { fraction < 10 ^ places }
    ensures start { 41 ≤ result }
    ensures bound { result ≤ 80 }
    ensures value { take result out.new ≡ take 41 out.old ++ fraction_digits places fraction }
{
    let one = 10u128.pow(places);
    let mut rest = fraction;
    let mut at = 41;
    while rest != 0 {
        let next = rest * 10;
        out[at] = b'0' + (next / one) as u8;
        rest = next % one;
        at += 1;
    }
    at
}
