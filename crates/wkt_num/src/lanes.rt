//! Digits read eight or sixteen at once.
ghost use Rattle.std.specs.Prelude.{◌≡◌, ◌+◌, ◌-◌, ◌*◌, ◌%◌, ◌≤◌, ◌<◌, ◌++◌, ◌^◌, IfSome, length, take, drop, map, replicate};
ghost use Rattle.std.specs.Str.Parse.{AllDigits, digits_value};
ghost use Rattle.wkt_num.specs.DigitParts.{DigitLanes, lanes_value, last_lanes};

use std::simd::prelude::*;

/// The number that the last `count` bytes spell, if they are digits. `None` implies nothing.
#[inline(always)]
pub fn last_digits(body: &[u8], count: usize) -> Option<u64>
    requires { (8 ≤ length body.now) × (count ≤ length body.now) }
    ensures digits { IfSome result (λ _. AllDigits 10 (drop (length body.now - count) body.now)) }
    ensures value { IfSome result (λ n. n ≡ digits_value 10 (drop (length body.now - count) body.now)) }
{
    if body.len() < 16 {
        if count > 8 { None } else { last_8(body, count) }
    } else if count > 16 {
        None
    } else {
        last_16(body, count)
    }
}

/// The number that at most eight last bytes spell, if they are digits, of a text that has eight.
#[inline(always)]
fn last_8(body: &[u8], count: usize) -> Option<u64>
    requires { (8 ≤ length body.now) × (count ≤ 8) }
    ensures digits { IfSome result (λ _. AllDigits 10 (drop (length body.now - count) body.now)) }
    ensures value { IfSome result (λ n. n ≡ digits_value 10 (drop (length body.now - count) body.now)) }
{
    let digits = lanes_8(body, count);
    if digits.simd_gt(u8x8::splat(9)).to_bitmask() != 0 {
        return None;
    }
    Some(number_8(digits))
}

/// The number that at most sixteen last bytes spell, if they are digits, of a text that has sixteen.
#[inline(always)]
fn last_16(body: &[u8], count: usize) -> Option<u64>
    requires { (16 ≤ length body.now) × (count ≤ 16) }
    ensures digits { IfSome result (λ _. AllDigits 10 (drop (length body.now - count) body.now)) }
    ensures value { IfSome result (λ n. n ≡ digits_value 10 (drop (length body.now - count) body.now)) }
{
    let digits = lanes_16(body, count);
    if digits.simd_gt(u8x16::splat(9)).to_bitmask() != 0 {
        return None;
    }
    Some(number_16(digits))
}

/// Sixteen lanes to hide, and sixteen to keep.
static KEEP: [u8; 32] = [
    0, 0, 0, 0, 0, 0, 0, 0, 0, 0, 0, 0, 0, 0, 0, 0, 255, 255, 255, 255, 255, 255, 255, 255, 255,
    255, 255, 255, 255, 255, 255, 255,
];

/// The last `count` bytes less 48, after lanes of 0.
#[inline(always)]
fn lanes_8(body: &[u8], count: usize) -> u8x8
    requires { (8 ≤ length body.now) × (count ≤ 8) }
    ensures { result ≡ last_lanes 8 count body.now }
{
    let bytes = u8x8::from_slice(&body[body.len() - 8..]);
    (bytes - u8x8::splat(48)) & u8x8::from_slice(&KEEP[8 + count..])
}

/// The last `count` bytes less 48, after lanes of 0, in sixteen lanes.
#[inline(always)]
fn lanes_16(body: &[u8], count: usize) -> u8x16
    requires { (16 ≤ length body.now) × (count ≤ 16) }
    ensures { result ≡ last_lanes 16 count body.now }
{
    let bytes = u8x16::from_slice(&body[body.len() - 16..]);
    (bytes - u8x16::splat(48)) & u8x16::from_slice(&KEEP[count..])
}

/// The number of eight digits.
#[inline(always)]
fn number_8(digits: u8x8) -> u64
    requires { DigitLanes digits }
    ensures { result ≡ lanes_value digits }
{
    // Two digits a and b in 16 bits are a + 256 b, and 2561 times that has 10 a + b in its upper byte.
    let pairs = (u16x4::from_le_bytes(digits) * u16x4::splat(2561)) >> u16x4::splat(8);
    // Two pairs in 32 bits are a + 65536 b, and 6553601 times that has 100 a + b in its upper half.
    let fours = (u32x2::from_le_bytes(pairs.to_le_bytes()) * u32x2::splat(6_553_601))
        >> u32x2::splat(16);
    let [a, b] = fours.to_array();
    u64::from(a) * 10_000 + u64::from(b)
}

/// The number that the first `count` of eight lanes spell.
#[inline(always)]
#[tactic(auto, using(crate::proofs::DigitLanes::moved_digits))]
pub(crate) fn first_8(digits: u8x8, count: usize) -> u64
    requires some { 0 < count }
    requires most { count ≤ 8 }
    requires digits { DigitLanes (take count digits) }
    ensures { result ≡ lanes_value (take count digits) }
{
    // A shift moves them to the last lanes, after lanes of 0.
    let last = u64x1::from_le_bytes(digits) << u64x1::splat(64 - 8 * count as u64);
    number_8(last.to_le_bytes())
}

/// The number of sixteen digits.
#[inline(always)]
fn number_16(digits: u8x16) -> u64
    requires { DigitLanes digits }
    ensures { result ≡ lanes_value digits }
{
    let pairs = (u16x8::from_le_bytes(digits) * u16x8::splat(2561)) >> u16x8::splat(8);
    let [a, b, c, d, e, f, g, h] = pairs.to_array();
    eight(a, b, c, d) * 100_000_000 + eight(e, f, g, h)
}

/// The number of four pairs of digits.
#[inline(always)]
fn eight(a: u16, b: u16, c: u16, d: u16) -> u64
    requires { (a < 100) × (b < 100) × (c < 100) × (d < 100) }
    ensures { result ≡ a * 1000000 + b * 10000 + c * 100 + d }
{
    u64::from(a) * 1_000_000 + u64::from(b) * 10_000 + u64::from(c) * 100 + u64::from(d)
}
