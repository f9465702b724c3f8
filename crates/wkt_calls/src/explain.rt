//! Where a text is refused, and why.
ghost use Rattle.std.specs.Prelude.{◌≡◌, ◌+◌, ◌≤◌, MatchResult, IsUtf8, length};
ghost use Rattle.wkt_explain.specs.Problems.{IsAccepted, IsProblem};
ghost use Rattle.wkt_calls.specs.Answer.{read_at, places_in, asks_whole};
ghost use Rattle.wkt_explain.specs.Problems.{IsPaddedFor};
ghost use Rattle.wkt_calls.specs.Explained.{IsUnexplained, expected_number, hint_number};

use crate::canonical::{SHORT, SHORTEST, before_zeros};
use crate::options::{asks_whole, places_of};
use crate::status::{ACCEPTED, NOT_TEXT};
use wkt_explain::{Expected, Hint, Problem, check_padded};
use wkt_num::Places;

/// The number of what could come next.
pub fn number_of_expected(expected: Expected) -> u32
    ensures { result ≡ expected_number expected }
{
    match expected {
        Expected::Kind => 0,
        Expected::Member => 1,
        Expected::Dimension => 2,
        Expected::Opening => 3,
        Expected::Point => 4,
        Expected::X => 5,
        Expected::Y => 6,
        Expected::Z => 7,
        Expected::M => 8,
        Expected::More => 9,
        Expected::Closing => 10,
    }
}

/// The number of a hint, or 0 where there is none.
pub fn number_of_hint(hint: Option<Hint>) -> u32
    ensures { result ≡ hint_number hint }
{
    let Some(hint) = hint else {
        return 0;
    };
    match hint {
        Hint::ByteOrderMark => 1,
        Hint::Hexadecimal => 2,
        Hint::Srid => 3,
        Hint::Curve => 4,
        Hint::Surface => 5,
        Hint::Exponent => 6,
        Hint::NoNumber => 7,
        Hint::Places(_) => 8,
        Hint::Large => 9,
        Hint::Dimension => 10,
        Hint::Empty => 11,
        Hint::Fewer => 12,
        Hint::Comma => 13,
        Hint::Missing => 14,
        Hint::Quotes => 15,
        Hint::NoBreakSpace => 16,
        Hint::Minus => 17,
        Hint::Box => 18,
        Hint::Braces => 19,
        Hint::NoKind => 20,
        Hint::Parenthesis => 21,
    }
}

/// Why the text isn't accepted; or the status of a text that is accepted, or that is no text.
pub fn problem(text: &[u8], options: u32) -> Result<Problem, u32>
    requires { places_in options ≤ 36 }
    ensures { MatchResult result
        (λ p. IsUtf8 text.now × IsProblem (read_at (places_in options)) (asks_whole options) text.now p)
        (IsUnexplained (read_at (places_in options)) (asks_whole options) text.now) }
{
    if text.len() <= SHORTEST {
        return problem_cleared::<64>(text, options);
    }
    if text.len() <= SHORT {
        return problem_cleared::<256>(text, options);
    }
    let Ok(text) = str::from_utf8(text) else {
        return Err(NOT_TEXT);
    };
    problem_in(text, text, options)
}

/// The same of a short text, with so many cleared bytes for it.
#[inline(never)]
fn problem_cleared<const PADDED: usize>(text: &[u8], options: u32) -> Result<Problem, u32>
    requires places { places_in options ≤ 36 }
    requires padded { length text.now + 32 ≤ PADDED }
    requires few { PADDED ≤ 256 }
    ensures { MatchResult result
        (λ p. IsUtf8 text.now × IsProblem (read_at (places_in options)) (asks_whole options) text.now p)
        (IsUnexplained (read_at (places_in options)) (asks_whole options) text.now) }
{
    let mut padded = [0u8; PADDED];
    let Some((text, padded_text)) = before_zeros(text, &mut padded) else {
        return Err(NOT_TEXT);
    };
    problem_in(text, padded_text, options)
}

/// The same of a text that is UTF-8. `padded_text` is the text, or the text, a NUL and more.
fn problem_in(text: &str, padded_text: &str, options: u32) -> Result<Problem, u32>
    requires places { places_in options ≤ 36 }
    requires utf8 { IsUtf8 text.now }
    requires padded_text { IsPaddedFor text.now padded_text.now }
    ensures { MatchResult result
        (λ p. IsUtf8 text.now × IsProblem (read_at (places_in options)) (asks_whole options) text.now p)
        (IsUnexplained (read_at (places_in options)) (asks_whole options) text.now) }
{
    match check_padded(
        Places::new(places_of(options)),
        text,
        padded_text,
        asks_whole(options),
    ) {
        Ok(_) => Err(ACCEPTED),
        Err(problem) => Ok(problem),
    }
}
