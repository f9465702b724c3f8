//! Numbers with an exponent, written without it.
ghost use Rattle.std.specs.Prelude.{◌≡◌, ◌≤◌, ◌+◌, ◌++◌, IfOk, MatchOption, length, drop, min, get_or, true, None};
ghost use Rattle.std.specs.Fmt.{sign_text};
ghost use Rattle.std.specs.Str.{all_ascii_digits};
ghost use Rattle.std.specs.Str.Parse.{digits_value, starts_with_minus, without_leading_sign, IsNumeral};
ghost use Rattle.wkt_num.specs.Bytes.{IsRun};
ghost use Rattle.wkt_num.specs.Whole.{is_numeral};
ghost use Rattle.wkt_read.specs.Lexemes.{starts_number, without_plus};
ghost use Rattle.wkt_num.specs.Decimal.{zeros};
ghost use Rattle.wkt_dialects.specs.Exponents.{is_e, after_e, IsSameNumber};
ghost use Rattle.wkt_dialects.specs.Numbers.{digits_of, moved, moved_left, moved_right, IsE, IsPoint, IsScaled, IsWrittenNumber};

use crate::put::{NoRoom, Put};
use crate::slices::{front, rest};

/// More zeros than these stand in no number of 36 places whose units fit 127 bits.
const MOST_ZEROS: usize = 40;

/// A number: whether it is negative, and the digits before and behind its point; whether its exponent moves the point to
/// the left, and by how many places: by 40 past the digits where it says more.
#[derive(Clone, Copy)]
pub(crate) struct Scaled<'a> {
    negative: bool,
    whole: &'a [u8],
    fraction: &'a [u8],
    left: bool,
    by: usize,
}

/// Whether it begins an exponent.
fn is_e(byte: u8) -> bool
    ensures { result ≡ is_e byte }
{
    byte == b'e' || byte == b'E'
}

/// Where the first e or E stands.
#[tactic(auto, using(crate::proofs::Passed::passed_e))]
fn e_in(number: &[u8]) -> Option<usize>
    ensures { MatchOption result (after_e number.now ≡ None) (λ at. IsE number.now at) }
{
    for at in 0..number.len() {
        if is_e(number[at]) {
            return Some(at);
        }
    }
    None
}

/// Where the point stands, or how many bytes there are.
#[tactic(auto, using(crate::proofs::Passed::passed_point))]
fn point_in(body: &[u8]) -> usize
    ensures { IsPoint body.now result }
{
    for at in 0..body.len() {
        if body[at] == b'.' {
            return at;
        }
    }
    body.len()
}

/// Whether each byte is a digit.
fn are_digits(bytes: &[u8]) -> bool
    ensures { result ≡ all_ascii_digits bytes.now }
{
    for byte in bytes {
        if !byte.is_ascii_digit() {
            return false;
        }
    }
    true
}

/// Whether it is a digit or more.
fn is_numeral(digits: &[u8]) -> bool
    ensures { result ≡ is_numeral digits.now }
{
    if digits.is_empty() {
        return false;
    }
    are_digits(digits)
}

/// Whether the two are a digit or more together.
#[tactic(auto, using(crate::proofs::Passed::both_parts))]
fn are_numeral(whole: &[u8], fraction: &[u8]) -> bool
    ensures { result ≡ is_numeral (whole.now ++ fraction.now) }
{
    if !are_digits(whole) {
        return false;
    }
    if whole.is_empty() {
        return is_numeral(fraction);
    }
    are_digits(fraction)
}

/// The number of these digits, but at most so many.
#[tactic(auto, using(crate::proofs::Passed::digit_low, crate::proofs::Passed::value_more))]
fn value_up_to(digits: &[u8], most: usize) -> usize
    requires { IsNumeral 10 digits.now }
    ensures { result ≡ min (digits_value 10 digits.now) most }
{
    let mut value = 0usize;
    for digit in digits {
        value = most.min(
            value
                .saturating_mul(10)
                .saturating_add(usize::from(*digit - b'0')),
        );
    }
    value
}

/// Whether a minus stands first, and what stands behind the sign.
fn unsigned(bytes: &[u8]) -> (bool, &[u8])
    ensures minus { result.0 ≡ starts_with_minus bytes.now }
    ensures rest { result.1.now ≡ without_leading_sign bytes.now }
{
    match bytes {
        [b'-', rest @ ..] => (true, rest),
        [b'+', rest @ ..] => (false, rest),
        rest => (false, rest),
    }
}

/// What stands behind the point.
fn behind(body: &[u8], point: usize) -> &[u8]
    requires { point ≤ length body.now }
    ensures { result.now ≡ drop (point + 1) body.now }
{
    if point < body.len() {
        return &body[point + 1..];
    }
    &body[point..]
}

/// The digits that the point is moved over.
fn digits_of<'a>(left: bool, whole: &'a [u8], fraction: &'a [u8]) -> &'a [u8]
    ensures { result.now ≡ digits_of left whole.now fraction.now }
{
    if left { whole } else { fraction }
}

/// The parts of a number with an exponent; `None` where it has none or is no number.
fn parts_of(number: &[u8]) -> Option<Scaled<'_>>
    ensures { MatchOption result (IsSameNumber number.now number.now) (λ n. IsScaled number.now n) }
{
    let Some(e) = e_in(number) else {
        return None;
    };
    let before = front(number, e);
    let after = rest(number, e + 1);
    let (negative, body) = unsigned(before);
    let (left, exponent) = unsigned(after);
    let point = point_in(body);
    let whole = front(body, point);
    let fraction = behind(body, point);
    if !is_numeral(exponent) {
        return None;
    }
    if !are_numeral(whole, fraction) {
        return None;
    }
    let digits = digits_of(left, whole, fraction);
    let by = value_up_to(exponent, digits.len() + MOST_ZEROS);
    Some(Scaled {
        negative,
        whole,
        fraction,
        left,
        by,
    })
}

/// Writes so many zeros.
#[tactic(auto, using(crate::proofs::Passed::passed_zeros))]
fn write_zeros<P: Put>(count: usize, out: &mut P) -> Result<(), NoRoom>
    ensures { IfOk result (λ _. P.written out.new ≡ P.written out.old ++ zeros count) }
{
    let mut left = count;
    'zeros: while left > 0 {
        out.put(b"0")?;
        left -= 1;
    }
    Ok(())
}

/// Writes the digits, with the point moved to the right.
fn write_right<P: Put>(number: Scaled<'_>, out: &mut P) -> Result<(), NoRoom>
    ensures { IfOk result (λ _. P.written out.new ≡ P.written out.old ++ moved_right number.entry.by number.entry.whole.now number.entry.fraction.now) }
{
    let kept = number.by.min(number.fraction.len());
    out.put(number.whole)?;
    out.put(&number.fraction[..kept])?;
    write_zeros(number.by - kept, out)?;
    out.put(b".")?;
    out.put(&number.fraction[kept..])
}

/// Writes the digits, with the point moved to the left.
fn write_left<P: Put>(number: Scaled<'_>, out: &mut P) -> Result<(), NoRoom>
    ensures { IfOk result (λ _. P.written out.new ≡ P.written out.old ++ moved_left number.entry.by number.entry.whole.now number.entry.fraction.now) }
{
    let kept = number.whole.len().saturating_sub(number.by);
    out.put(&number.whole[..kept])?;
    out.put(b".")?;
    write_zeros(number.by.saturating_sub(number.whole.len()), out)?;
    out.put(&number.whole[kept..])?;
    out.put(number.fraction)
}

/// Writes a number with its point moved.
fn write_scaled<P: Put>(number: Scaled<'_>, out: &mut P) -> Result<(), NoRoom>
    ensures { IfOk result (λ _. P.written out.new ≡ P.written out.old ++ (sign_text number.entry.negative ++ moved number.entry.left number.entry.by number.entry.whole.now number.entry.fraction.now)) }
{
    if number.negative {
        out.put(b"-")?;
    }
    if number.left {
        write_left(number, out)
    } else {
        write_right(number, out)
    }
}

/// A run without the plus that it may begin with.
fn without_plus(run: &[u8]) -> &[u8]
    ensures { result.now ≡ without_plus run.now }
{
    match run {
        [b'+', number @ ..] => number,
        number => number,
    }
}

/// Writes a number run without its exponent, or as it stands where it has none or is no number, so it is refused as it is.
/// It takes no longer than the run is, however great the exponent.
pub(crate) fn write_number<P: Put>(run: &[u8], out: &mut P) -> Result<(), NoRoom>
    requires run { IsRun run.now }
    requires begins { starts_number (get_or run.now 0 0) ≡ true }
    ensures { IfOk result (λ _. IsWrittenNumber run.now (P.written out.old) (P.written out.new)) }
{
    match parts_of(without_plus(run)) {
        Some(parts) => write_scaled(parts, out),
        None => out.put(run),
    }
}
