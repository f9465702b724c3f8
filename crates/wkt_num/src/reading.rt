//! Decimal fractions from text.
ghost use Rattle.std.specs.Prelude.{◌≡◌, ◌≢◌, ℕ, true, false, ◌+◌, ◌-◌, ◌*◌, ◌^◌, ◌≤◌, ◌<◌, Some, IfSome, length, nat_le};
ghost use Rattle.std.specs.Char.{is_ascii_digit};
ghost use Rattle.std.specs.Str.Parse.{starts_with_minus, without_leading_sign};
ghost use Rattle.wkt_num.specs.Whole.{keep_if};
ghost use Rattle.wkt_num.specs.Decimal.{read_magnitude, with_sign, and_then};
ghost use Rattle.wkt_num.specs.DigitParts.{ReadsDigits};

use crate::lanes::last_digits;
use crate::powers::{SHORT_PLACES, ten_to};

/// Whether a minus stands first, and what follows a sign.
pub fn split_sign(text: &[u8]) -> (bool, &[u8])
    ensures negative { result.0 ≡ starts_with_minus text.now }
    ensures body { result.1.now ≡ without_leading_sign text.now }
{
    match text {
        [b'-', body @ ..] => (true, body),
        [b'+', body @ ..] => (false, body),
        _ => (false, text),
    }
}

/// Reads digits with at most one point, as units of ten to the minus `places`, with their sign.
#[inline(always)]
#[tactic(auto, using(crate::proofs::NumberLaws::magnitude_small))]
pub fn read_signed(places: u32, negative: bool, body: &[u8]) -> Option<i128>
    requires { places ≤ 36 }
    ensures { result ≡ and_then (read_magnitude (2 ^ 127) places body.now) (with_sign 127 negative) }
{
    // Each way has its sign set apart, where its range is known.
    if body.len() < VECTOR_BYTES {
        return match read_few(places, body) {
            Some(units) => with_sign(negative, units),
            None => slow_read(places, negative, body),
        };
    }
    match fast_read(places, body) {
        Some(units) => with_sign(negative, units),
        None => slow_read(places, negative, body),
    }
}

/// The slow path, for a body of any form. Outlined: only this path zeroes the result slot, and the fast ones return in
/// registers.
#[inline(always)]
fn slow_read(places: u32, negative: bool, body: &[u8]) -> Option<i128>
    requires { places ≤ 36 }
    ensures { result ≡ and_then (read_magnitude (2 ^ 127) places body.now) (with_sign 127 negative) }
{
    slow_read_outlined(places, negative, body)
}

#[inline(never)]
fn slow_read_outlined(places: u32, negative: bool, body: &[u8]) -> Option<i128>
    requires { places ≤ 36 }
    ensures { result ≡ and_then (read_magnitude (2 ^ 127) places body.now) (with_sign 127 negative) }
{
    // Words and marks come here too, where a text is refused. Few of them end as a number does.
    if body.is_empty() || !may_end(body[body.len() - 1]) {
        return None;
    }
    if let Some(units) = read_short(places, body) {
        return with_sign(negative, units);
    }
    let units = read_magnitude(places, body)?;
    with_sign(negative, units)
}

/// Whether the digits of a number may end with the byte.
#[inline(always)]
fn may_end(byte: u8) -> bool
    ensures { result ≡ false → (byte ≢ 46) × (is_ascii_digit byte ≡ false) }
{
    byte == b'.' || byte.is_ascii_digit()
}

/// The most bytes whose digits, with a point among them or not, fit 64 bits.
const SHORT_BYTES: usize = 19;

/// The fewest bytes that a vector is loaded from.
const VECTOR_BYTES: usize = 8;

/// The units of a body of fewer bytes. `None` implies nothing about the body.
#[inline(always)]
fn read_few(places: u32, body: &[u8]) -> Option<u128>
    ensures { IfSome result (λ units. read_magnitude (2 ^ 127) places body.now ≡ Some units) }
{
    if places > SHORT_PLACES {
        return None;
    }
    let (all, after) = few_digits(body);
    if after > places as usize {
        return None;
    }
    Some(u128::from(all) * u128::from(ten_to(places - after as u32)))
}

/// The number of the digits of such a body, and how many of them follow a point. A count past all
/// places implies nothing about the body.
#[inline(always)]
#[tactic(auto, using(crate::proofs::TextInsideText::whole_body))]
fn few_digits(body: &[u8]) -> (u64, usize)
    ensures { (D : ℕ) → D ≤ 18 → result.1 ≤ D
        → read_magnitude (2 ^ 127) D body.now ≡ Some (result.0 * 10 ^ (D - result.1)) }
{
    let none = (0, 64);
    if body.len() >= VECTOR_BYTES {
        return none;
    }
    let (whole, at) = digits_from(body, 0, body.len(), 0);
    if at == body.len() {
        return if at == 0 { none } else { (whole, 0) };
    }
    let after = body.len() - at - 1;
    if body[at] != b'.' || after == 0 {
        return none;
    }
    let (all, end) = digits_from(body, at + 1, body.len(), whole);
    if end < body.len() { none } else { (all, after) }
}

/// The units by vectors, for a body of common length around a point. `None` implies nothing about the body.
#[inline(always)]
fn fast_read(places: u32, body: &[u8]) -> Option<u128>
    ensures { IfSome result (λ units. read_magnitude (2 ^ 127) places body.now ≡ Some units) }
{
    if places > SHORT_PLACES || body.len() > SHORT_BYTES || body.len() < VECTOR_BYTES {
        return None;
    }
    // Few whole parts are longer than a vector. With a constant for their bound, the loop takes no turns.
    let (whole, at) = digits_from(body, 0, VECTOR_BYTES, 0);
    if at == body.len() || body[at] != b'.' {
        return None;
    }
    let after = body.len() - at - 1;
    if after > places as usize {
        return None;
    }
    let fraction = last_digits(body, after)?;
    let shift = ten_to(places - after as u32);
    Some(u128::from(whole) * u128::from(ten_to(places)) + u128::from(fraction * shift))
}

/// The units in 64 bits, for a short body of digits, or of digits around a point with at most `places` after it. `None`
/// implies nothing about the body: it is then read in the plain way.
#[inline(always)]
#[tactic(auto, using(crate::proofs::TextInsideText::whole_body))]
fn read_short(places: u32, body: &[u8]) -> Option<u128>
    ensures { IfSome result (λ units. read_magnitude (2 ^ 127) places body.now ≡ Some units) }
{
    if places > SHORT_PLACES || body.len() > SHORT_BYTES {
        return None;
    }
    let (whole, at) = digits_from(body, 0, body.len(), 0);
    if at == body.len() {
        if at == 0 {
            return None;
        }
        return Some(u128::from(whole) * u128::from(ten_to(places)));
    }
    if body[at] != b'.' {
        return None;
    }
    let after = (body.len() - at - 1) as u32;
    if after == 0 || after > places {
        return None;
    }
    let (all, end) = digits_from(body, at + 1, body.len(), whole);
    if end < body.len() {
        return None;
    }
    Some(u128::from(all) * u128::from(ten_to(places - after)))
}

/// The number followed by the digits from `from` on and before `most`, in 64 bits, and where they end.
#[inline(always)]
pub(crate) fn digits_from(bytes: &[u8], from: usize, most: usize, number: u64) -> (u64, usize)
    requires few { most ≤ 19 }
    requires within { most ≤ length bytes.now }
    requires small { number < 10 ^ from }
    ensures { ReadsDigits bytes.now from most number result.0 result.1 }
{
    let mut all = number;
    let mut at = from;
    while at < most && bytes[at].is_ascii_digit() {
        all = all * 10 + u64::from(bytes[at] - b'0');
        at += 1;
    }
    (all, at)
}

/// The magnitude of the least number of units.
const LIMIT: u128 = 1 << 127;

/// The units of any body, read one digit after the other: `None` says that it stands for none.
#[inline(never)]
fn read_magnitude(places: u32, body: &[u8]) -> Option<u128>
    requires { places ≤ 36 }
    ensures { result ≡ read_magnitude (2 ^ 127) places body.now }
{
    let mut units = 0;
    let mut taken = 0;
    let mut seen = false;
    let mut any = false;
    for byte in body {
        if *byte == b'.' {
            if seen {
                return None;
            }
            seen = true;
        } else if byte.is_ascii_digit() {
            any = true;
            if !seen {
                units = append(units, *byte - b'0')?;
            } else if taken < places {
                units = append(units, *byte - b'0')?;
                taken += 1;
            } else if is_lost(*byte) {
                return None;
            }
        } else {
            return None;
        }
    }
    if !any {
        return None;
    }
    raise(units, places - taken)
}

/// Whether a digit past the last place says something.
fn is_lost(byte: u8) -> bool
    ensures lost { result ≡ true → byte ≢ 48 }
    ensures kept { result ≡ false → byte ≡ 48 }
{
    byte != b'0'
}

/// The number followed by a digit, if it isn't past the limit.
fn append(number: u128, digit: u8) -> Option<u128>
    requires { digit < 10 }
    ensures { result ≡ keep_if (nat_le (number * 10 + digit) (2 ^ 127)) (number * 10 + digit) }
{
    if number > LIMIT / 10 {
        return None;
    }
    let next = number * 10 + u128::from(digit);
    if next > LIMIT { None } else { Some(next) }
}

/// The number followed by zeros, if it isn't past the limit.
fn raise(number: u128, zeros: u32) -> Option<u128>
    requires { number ≤ 2 ^ 127 }
    ensures { result ≡ keep_if (nat_le (number * 10 ^ zeros) (2 ^ 127)) (number * 10 ^ zeros) }
{
    let mut raised = number;
    for done in 0..zeros {
        let Some(next) = append(raised, 0) else {
            return None;
        };
        raised = next;
    }
    Some(raised)
}

/// The magnitude with its sign.
#[inline(always)]
fn with_sign(negative: bool, magnitude: u128) -> Option<i128>
    requires { magnitude ≤ 2 ^ 127 }
    ensures { result ≡ with_sign 127 negative magnitude }
{
    if magnitude == LIMIT {
        return if negative { Some(i128::MIN) } else { None };
    }
    let units = magnitude as i128;
    Some(if negative { -units } else { units })
}
