//! Whole numbers as text, in one piece to a sink.
ghost use Rattle.std.specs.Prelude.{◌≡◌, ◌<◌, ◌≤◌, ◌+◌, ◌-◌, ◌^◌, ◌++◌, drop};
ghost use Rattle.std.specs.Fmt.{decimal, sign_text};
ghost use Rattle.wkt_num.specs.Sink.{Puts};

use crate::sink::TextSink;
use std::fmt;

/// Writes a minus if `negative`, and then `n`.
///
/// # Errors
/// The sink's; a beginning is written then.
#[tactic(auto, using(crate::proofs::Printed::whole_utf8))]
pub fn write_whole<W: TextSink>(negative: bool, n: u128, f: &mut W) -> fmt::Result
    ensures { Puts W.sink f.old (sign_text negative ++ decimal n) f.new result }
{
    let mut out = [b'.'; 80];
    let start = put_whole(negative, n, &mut out);
    // Its bytes are ASCII, as the proof says, so they aren't read again.
    f.write_str(unsafe { str::from_utf8_unchecked(&out[start..40]) })
}

/// Puts a minus if `negative` and the digits of `n` before place 40, and returns where they start.
pub fn put_whole(negative: bool, n: u128, out: &mut [u8; 80]) -> usize
    ensures bound { result ≤ 40 }
    ensures value { drop result out.new ≡ sign_text negative ++ decimal n ++ drop 40 out.old }
{
    let start = put_digits(n, out);
    put_minus(negative, start, out)
}

/// Puts a minus before `start` if `negative`, and returns where the text starts then.
#[inline(always)]
fn put_minus(negative: bool, start: usize, out: &mut [u8; 80]) -> usize
    requires some { 1 ≤ start }
    requires within { start ≤ 40 }
    ensures bound { result ≤ 40 }
    ensures value { drop result out.new ≡ sign_text negative ++ drop start out.old }
{
    if !negative {
        return start;
    }
    out[start - 1] = b'-';
    start - 1
}

/// Puts a minus if `negative` and the digits of `n`, in 64 bits, before place 40, and returns where they start.
#[inline(always)]
pub fn put_small_whole(negative: bool, n: u64, out: &mut [u8; 80]) -> usize
    ensures bound { result ≤ 40 }
    ensures value { drop result out.new ≡ sign_text negative ++ decimal n ++ drop 40 out.old }
{
    let start = put_few(n, out);
    put_minus(negative, start, out)
}

/// Puts the digits of `n`, in 64 bits, before place 40, and returns where they start.
#[inline(always)]
fn put_few(n: u64, out: &mut [u8; 80]) -> usize
    ensures sign { 1 ≤ result }
    ensures bound { result ≤ 40 }
    ensures value { drop result out.new ≡ decimal n ++ drop 40 out.old }
{
    if n < 1000 {
        put_three(n as u32, out)
    } else {
        put_short(n, 40, out)
    }
}

/// Puts the digits of a number below 1000 before place 40, and returns where they start.
#[inline(always)]
fn put_three(n: u32, out: &mut [u8; 80]) -> usize
    requires { n < 1000 }
    ensures sign { 1 ≤ result }
    ensures bound { result ≤ 40 }
    ensures value { drop result out.new ≡ decimal n ++ drop 40 out.old }
{
    // A division by 10, and then another.
    let tens = (n * 6554) >> 16;
    out[39] = digit_byte((n - tens * 10) as u8);
    if tens == 0 {
        return 39;
    }
    let hundreds = (tens * 205) >> 11;
    out[38] = digit_byte((tens - hundreds * 10) as u8);
    if hundreds == 0 {
        return 38;
    }
    out[37] = digit_byte(hundreds as u8);
    37
}

/// Puts the digits of `n` before place 40, and returns where they start.
fn put_digits(n: u128, out: &mut [u8; 80]) -> usize
    ensures sign { 1 ≤ result }
    ensures bound { result ≤ 40 }
    ensures value { drop result out.new ≡ decimal n ++ drop 40 out.old }
{
    let mut end = 40;
    let mut rest = n;
    while rest > u128::from(u64::MAX) {
        end -= 1;
        out[end] = digit_byte((rest % 10) as u8);
        rest /= 10;
    }
    put_short(rest as u64, end, out)
}

/// Puts the digits of `n` before `end`, and returns where they start.
fn put_short(n: u64, end: usize, out: &mut [u8; 80]) -> usize
    requires some { 2 ≤ end }
    requires within { end ≤ 40 }
    requires room { n < 10 ^ (end - 1) }
    ensures sign { 1 ≤ result }
    ensures bound { result ≤ end }
    ensures value { drop result out.new ≡ decimal n ++ drop end out.old }
{
    let mut at = end - 1;
    let mut rest = n;
    while rest >= 10 {
        out[at] = digit_byte((rest % 10) as u8);
        rest /= 10;
        at -= 1;
    }
    out[at] = digit_byte(rest as u8);
    at
}

fn digit_byte(d: u8) -> u8
    requires { d < 10 }
    ensures { result ≡ 48 + d }
{
    b'0' + d
}
