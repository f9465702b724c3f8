//! Whether a text is accepted, and what follows its geometry.
ghost use Rattle.std.specs.Prelude.{MatchResult};
ghost use Rattle.wkt_explain.specs.Problems.{IsAccepted, IsProblem, IsPaddedFor};

use crate::explanation::Refusal;
use crate::walked::{past_white, walked};
use wkt_num::{Numbers, OfType, WktNum};

/// Why a text isn't accepted.
#[derive(Clone, Copy, PartialEq, Eq, Debug)]
pub enum Problem {
    /// It begins with no geometry.
    Refused(Refusal),
    /// More than white space follows its geometry, from this byte on.
    Rest(usize),
}

/// Where the geometry ends that the text begins with, in bytes. It takes no memory, and no stack for nesting.
///
/// ```text
/// check::<Decimal<6>>("POINT(1 2) and more", false) // Ok(10)
/// check::<Decimal<6>>("POINT(1 2) and more", true) // Err(Problem::Rest(11))
/// ```
///
/// # Errors
/// The text begins with no geometry: what `refusal` says. Or, where a whole text is asked for, more than white space follows
/// its geometry.
pub fn check<T: WktNum>(text: &str, whole: bool) -> Result<usize, Problem>
    ensures { MatchResult result (IsAccepted T.read whole text.now) (IsProblem T.read whole text.now) }
{
    check_padded(OfType::<T>::new(), text, text, whole)
}

/// The same, with numbers of any kind, where `padded_text` is the text, or the text, a NUL and more. With 31 bytes or more behind the NUL the numbers at the
/// text's end are read as fast as those before them.
///
/// # Errors
/// As there.
pub fn check_padded<N: Numbers>(
    numbers: N,
    text: &str,
    padded_text: &str,
    whole: bool,
) -> Result<usize, Problem>
    requires { IsPaddedFor text.now padded_text.now }
    ensures { MatchResult result (IsAccepted (N.read numbers) whole text.now) (IsProblem (N.read numbers) whole text.now) }
{
    let end = match walked(numbers, text, padded_text) {
        Ok(end) => end,
        Err(why) => return Err(Problem::Refused(why)),
    };
    if whole {
        let rest = past_white(text.as_bytes(), end);
        if rest < text.len() {
            return Err(Problem::Rest(rest));
        }
    }
    Ok(end)
}
