//! A service that answers a text with its one text, or with where it is refused and what could come next.
ghost use Rattle.std.specs.Prelude.{IfOk};
ghost use Rattle.wkt.specs.Explained.{IsRefusedAt};
ghost use Rattle.wkt.specs.Front.{HasNoFront};
ghost use Rattle.wkt_examples.specs.Served.{IsRefusalAnswer};

use std::alloc::{AllocError, Global};
use wkt::{Expected, Explanation, ReadError, WktNum, canonical_text, explain};

/// The answer to a text.
#[derive(Debug, Drop)]
pub enum Answer {
    /// The one text of the geometry at its front.
    Text(String),
    /// From which byte to which the text is refused, and what could come next.
    Refused(usize, usize, Expected),
}

/// Answers a text.
///
/// # Errors
/// Out of memory.
pub fn answer_to<T: WktNum>(alloc: Global, text: &str) -> Result<Answer, AllocError>
    ensures { IfOk result (IsRefusalAnswer T.read T.num text.now) }
{
    match canonical_text::<T>(alloc, text) {
        Ok(canonical) => Ok(Answer::Text(canonical)),
        Err(ReadError::Text(_)) => {
            let why = explained::<T>(text);
            Ok(Answer::Refused(why.start, why.end, why.expected))
        }
        Err(ReadError::Memory(error)) => Err(error),
    }
}

/// Why a text without a geometry at its front is refused. There is always a reason.
pub(crate) fn explained<'a, T: WktNum>(text: &'a str) -> Explanation<'a>
    requires { HasNoFront T.read text.now }
    ensures { IsRefusedAt T.read text.now result.start result.end result.expected }
{
    explain::<T>(text).unwrap()
}
