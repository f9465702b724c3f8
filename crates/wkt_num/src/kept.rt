//! The text of a decimal inside the text that it is read from.
ghost use Rattle.std.specs.Prelude.{◌≡◌, ◌≢◌, ◌≤◌, ◌<◌, ◌+◌, ◌-◌, ◌==◌, ℕ, true, false, Some, IfSome, IfNone, MatchBool, length, take, slice_range, slice_index, slice_index_or};
ghost use Rattle.std.specs.Bool.{OnTrue, OnFalse};
ghost use Rattle.std.specs.Char.{is_ascii_digit};
ghost use Rattle.std.specs.Fmt.{sign_text};
ghost use Rattle.std.specs.Str.Parse.{AllDigits};
ghost use Rattle.wkt_num.specs.Bytes.{class_of, Run};
ghost use Rattle.wkt_num.specs.Decimal.{read_decimal, decimal_text};
ghost use Rattle.wkt_num.specs.Number.{KeepsText};
ghost use Rattle.wkt_num.specs.DigitParts.{IsWholePart, IsDecimalText, IsPlainDecimal, HasZeros, IsFirstOther, others_mask};

use crate::numbers::Places;
use std::simd::prelude::*;

/// Where the number run that the bytes begin with ends, and where its number's text does, if the run ends in a window. Each
/// text that is printed and ends there is found, if so few digits stand before its point that all such units fit.
#[inline(always)]
pub fn canonical_prefix(places: Places, bytes: &[u8]) -> Option<(usize, usize)>
    requires { 32 ≤ length bytes.now }
    ensures keeps { IfSome result (λ r. KeepsText (read_decimal 127 36 places) (decimal_text places) bytes.now r.0 r.1) }
    ensures within { IfSome result (λ r. r.0 < 32) }
    ensures finds { (end : ℕ) → IsDecimalText places bytes.now end → end < 32 → result ≡ Some (end, end) }
{
    let first = after_minus(bytes);
    let others = others_from(bytes, first);
    let Some(point) = first_other(bytes, first, others) else {
        return None;
    };
    if bytes[point] != b'.' {
        if !is_whole_number(places, bytes, first, point) || is_of_run(bytes[point]) {
            return None;
        }
        return Some((point, point));
    }
    let Some(end) = first_other(bytes, point + 1, others & (others - 1)) else {
        return None;
    };
    if is_of_run(bytes[end]) {
        return None;
    }
    if is_plain(places, bytes, first, end) {
        return Some((end, end));
    }
    if !is_whole_part(places, bytes, first, point) {
        return None;
    }
    kept_fraction(places, bytes, first, point, end)
}

/// The bytes of the window after a minus or none that are no digits, as bits.
#[inline(always)]
#[tactic(auto, using(crate::proofs::WindowDigits::minus_less))]
pub(crate) fn others_from(bytes: &[u8], first: usize) -> u64
    requires window { 32 ≤ length bytes.now }
    requires minus { first ≤ 1 }
    requires sign { take first bytes.now ≡ sign_text (first == 1) }
    ensures { result ≡ others_mask bytes.now first }
{
    // To take one away turns the lowest bit and those below it, which is that of the minus.
    let all = others(bytes);
    all & (all - first as u64)
}

/// The bytes of the window that are no digits, as bits.
#[inline(always)]
#[tactic(auto, using(crate::proofs::WindowDigits::mask_of))]
fn others(bytes: &[u8]) -> u64
    requires { 32 ≤ length bytes.now }
    ensures { result ≡ others_mask bytes.now 0 }
{
    let digits = u8x32::from_slice(bytes) - u8x32::splat(48);
    digits.simd_gt(u8x32::splat(9)).to_bitmask()
}

/// Where the digits from `from` on end, if they do so in the window: the lowest of these bits.
#[inline(always)]
pub(crate) fn first_other(bytes: &[u8], from: usize, others: u64) -> Option<usize>
    requires window { 32 ≤ length bytes.now }
    requires others { others ≡ others_mask bytes.now from }
    ensures some { IfSome result (λ at. IsFirstOther bytes.now from others at) }
    ensures none { IfNone result ((at : ℕ) → from ≤ at → at < 32 → is_ascii_digit (slice_index bytes.now at) ≡ true) }
{
    if others == 0 {
        return None;
    }
    Some(others.trailing_zeros() as usize)
}

/// What it answers of digits around a point, where the run ends with them.
#[inline(always)]
fn kept_fraction(
    places: Places,
    bytes: &[u8],
    first: usize,
    point: usize,
    end: usize,
) -> Option<(usize, usize)>
    requires sign { take first bytes.now ≡ sign_text (first == 1) }
    requires whole { IsWholePart places bytes.now first point }
    requires after { point < end }
    requires within { end ≤ length bytes.now }
    requires point { slice_index bytes.now point ≡ 46 }
    requires fraction { AllDigits 10 (slice_range bytes.now (point + 1) end) }
    requires stops { end < length bytes.now → class_of (slice_index bytes.now end) ≢ Run }
    ensures keeps { IfSome result (λ r. KeepsText (read_decimal 127 36 places) (decimal_text places) bytes.now r.0 r.1) }
    ensures end { IfSome result (λ r. r.0 ≡ end) }
    ensures finds { point + 1 < end → slice_index bytes.now (end - 1) ≢ 48 → end ≤ point + 1 + places → result ≡ Some (end, end) }
{
    let kept = before_zeros(bytes, point, end);
    if kept == point + 1 {
        return if is_minus_zero(bytes, first) {
            None
        } else {
            Some((end, point))
        };
    }
    if kept - point - 1 > places.places() as usize {
        return None;
    }
    Some((end, kept))
}

/// Where the digits begin: after a minus, if one stands first.
#[inline(always)]
pub(crate) fn after_minus(bytes: &[u8]) -> usize
    ensures within { result ≤ length bytes.now }
    ensures minus { result ≤ 1 }
    ensures sign { take result bytes.now ≡ sign_text (result == 1) }
    ensures none { result ≡ 0 → slice_index_or bytes.now 0 0 ≢ 45 }
{
    match bytes {
        [b'-', ..] => 1,
        _ => 0,
    }
}

/// Whether these digits, behind a minus or none, are a whole number as it is printed, with which the units fit. A zero that
/// stands first is the whole of it, so it ends behind one byte.
#[inline(always)]
fn is_whole_number(places: Places, bytes: &[u8], first: usize, end: usize) -> bool
    requires order { first ≤ end }
    requires within { end ≤ length bytes.now }
    requires minus { first ≤ 1 }
    requires digits { AllDigits 10 (slice_range bytes.now first end) }
    ensures whole { OnTrue result (IsWholePart places bytes.now first end) }
    ensures zero { OnTrue result (first ≡ 1 → slice_index bytes.now first ≢ 48) }
    ensures other { OnFalse result (IsWholePart places bytes.now first end → (first ≡ 1) × (slice_index bytes.now first ≡ 48)) }
{
    let count = end - first;
    if count == 0 || count > places.most_whole() {
        return false;
    }
    bytes[first] != b'0' || end == 1
}

/// Whether these digits are a whole part as it is printed, with which the units fit.
#[inline(always)]
fn is_whole_part(places: Places, bytes: &[u8], first: usize, point: usize) -> bool
    requires order { first ≤ point }
    requires within { point ≤ length bytes.now }
    requires digits { AllDigits 10 (slice_range bytes.now first point) }
    ensures { MatchBool result (IsWholePart places bytes.now first point) (IsWholePart places bytes.now first point → ⊥) }
{
    let count = point - first;
    if count == 0 || count > places.most_whole() {
        return false;
    }
    bytes[first] != b'0' || count == 1
}

/// Whether no zero stands first or last, nor the point, and all is so short that the units fit.
#[inline(always)]
fn is_plain(places: Places, bytes: &[u8], first: usize, end: usize) -> bool
    requires order { first < end }
    requires within { end ≤ length bytes.now }
    ensures { OnTrue result (IsPlainDecimal places bytes.now first end) }
{
    bytes[first] > b'0' && bytes[end - 1] > b'0' && end <= places.most_plain()
}

/// Whether a minus stands before a zero.
#[inline(always)]
fn is_minus_zero(bytes: &[u8], first: usize) -> bool
    requires { first < length bytes.now }
    ensures { MatchBool result ((first ≡ 1) × (slice_index bytes.now first ≡ 48)) (first ≡ 1 → slice_index bytes.now first ≢ 48) }
{
    bytes[first] == b'0' && first == 1
}

/// For each byte whether it is no part of a run: NUL, white space and marks.
static STOPS: [u8; 256] = [
    1, 0, 0, 0, 0, 0, 0, 0, 0, 1, 1, 0, 0, 1, 0, 0, 0, 0, 0, 0, 0, 0, 0, 0, 0, 0, 0, 0, 0, 0, 0, 0,
    1, 0, 0, 0, 0, 0, 0, 0, 1, 1, 0, 0, 1, 0, 0, 0, 0, 0, 0, 0, 0, 0, 0, 0, 0, 0, 0, 0, 0, 0, 0, 0,
    0, 0, 0, 0, 0, 0, 0, 0, 0, 0, 0, 0, 0, 0, 0, 0, 0, 0, 0, 0, 0, 0, 0, 0, 0, 0, 0, 0, 0, 0, 0, 0,
    0, 0, 0, 0, 0, 0, 0, 0, 0, 0, 0, 0, 0, 0, 0, 0, 0, 0, 0, 0, 0, 0, 0, 0, 0, 0, 0, 0, 0, 0, 0, 0,
    0, 0, 0, 0, 0, 0, 0, 0, 0, 0, 0, 0, 0, 0, 0, 0, 0, 0, 0, 0, 0, 0, 0, 0, 0, 0, 0, 0, 0, 0, 0, 0,
    0, 0, 0, 0, 0, 0, 0, 0, 0, 0, 0, 0, 0, 0, 0, 0, 0, 0, 0, 0, 0, 0, 0, 0, 0, 0, 0, 0, 0, 0, 0, 0,
    0, 0, 0, 0, 0, 0, 0, 0, 0, 0, 0, 0, 0, 0, 0, 0, 0, 0, 0, 0, 0, 0, 0, 0, 0, 0, 0, 0, 0, 0, 0, 0,
    0, 0, 0, 0, 0, 0, 0, 0, 0, 0, 0, 0, 0, 0, 0, 0, 0, 0, 0, 0, 0, 0, 0, 0, 0, 0, 0, 0, 0, 0, 0, 0,
];

/// Whether a byte is a part of a run.
#[inline(always)]
#[tactic(auto, using(crate::proofs::WindowDigits::table_reports))]
pub(crate) fn is_of_run(byte: u8) -> bool
    ensures { MatchBool result (class_of byte ≡ Run) (class_of byte ≢ Run) }
{
    STOPS[byte as usize] == 0
}

/// Where the zeros begin that end a fraction.
#[inline(always)]
#[tactic(auto, using(crate::proofs::DecimalParts::zero_more))]
fn before_zeros(bytes: &[u8], point: usize, end: usize) -> usize
    requires order { point < end }
    requires within { end ≤ length bytes.now }
    requires point { slice_index bytes.now point ≡ 46 }
    ensures after { point < result }
    ensures zeros { HasZeros bytes.now result end }
{
    let mut kept = end;
    while bytes[kept - 1] == b'0' {
        kept -= 1;
    }
    kept
}
