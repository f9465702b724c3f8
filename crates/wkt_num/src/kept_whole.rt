//! The text of a whole number inside the text that it is read from.
ghost use Rattle.std.specs.Prelude.{◌≡◌, ◌≤◌, ◌<◌, ◌==◌, ℕ, Some, IfSome, MatchBool, length};
ghost use Rattle.wkt_num.specs.DigitParts.{IsWholeText, IsPrinted};

use crate::kept::{after_minus, first_other, is_of_run, others_from};

/// Where a whole number of at most so many digits ends that the bytes begin with, as it is printed, if it ends in a window.
#[inline(always)]
pub(crate) fn end_in_window(most: usize, bytes: &[u8]) -> Option<usize>
    requires { 32 ≤ length bytes.now }
    ensures whole { IfSome result (λ end. IsWholeText most bytes.now end) }
    ensures within { IfSome result (λ end. end < 32) }
    ensures finds { (end : ℕ) → IsWholeText most bytes.now end → end < 32 → result ≡ Some end }
{
    let first = after_minus(bytes);
    let others = others_from(bytes, first);
    let Some(end) = first_other(bytes, first, others) else {
        return None;
    };
    if !is_printed(most, bytes, first, end) || is_of_run(bytes[end]) {
        return None;
    }
    Some(end)
}

/// Whether these digits are so few, and no zero stands before others or after a minus.
#[inline(always)]
fn is_printed(most: usize, bytes: &[u8], first: usize, end: usize) -> bool
    requires order { first ≤ end }
    requires within { end ≤ length bytes.now }
    ensures { MatchBool result (IsPrinted most bytes.now first end) (IsPrinted most bytes.now first end → ⊥) }
{
    let count = end - first;
    if count == 0 || count > most {
        return false;
    }
    bytes[first] != b'0' || count == 1 && first == 0
}
