//! A text that is one geometry as a whole.
ghost use Rattle.std.specs.Prelude.{◌<◌, IfOk, length};
ghost use Rattle.std.specs.Str.{IsCharBoundary};
ghost use Rattle.wkt_types.specs.Tree.{tree};
ghost use Rattle.wkt_read.specs.Items.{bad_number};
ghost use Rattle.wkt_read.specs.Front.{Front, HasNoFront, NeedsNoMemory};
ghost use Rattle.wkt_read.specs.Answered.{HasBadNumber, OnText, OnMessage};
ghost use Rattle.wkt_read.specs.Refusal.{IsTextRefused, IfText};
ghost use Rattle.wkt.specs.FromText.{IsWhole, HasRest, OnUnread, OnRest};

use std::alloc::Global;
use thiserror::Error;
use wkt_num::WktNum;
use wkt_read::ReadError;
use wkt_read::words::is_blank;
use wkt_types::Wkt;
use wkt_values::read_text;

/// Why a text isn't one geometry as a whole.
#[derive(Debug, Drop, Error)]
pub enum WholeError {
    /// No geometry is read at the front of the text.
    #[error("{0}")]
    Read(#[from] ReadError),
    /// The geometry at the front ends at this byte, and more than white space follows it.
    #[error("more than white space after the geometry, which ends at byte {0}")]
    Rest(usize),
}

/// The geometry that the text is: it may have white space before and after it, and nothing else. A NUL ends a text
/// for `from_str`, and is a rest here.
///
/// ```text
/// let geometry = read_whole::<i32>(alloc, " POINT(1 2)\n")?;
/// // POINT(1 2); of "POINT(1 2) x" it is the error `Rest(10)`
/// ```
///
/// # Errors
/// `Read` with the error of `from_str`; `Rest` where more than white space follows the geometry, with the byte where
/// the geometry ends, at which the text may be cut.
pub fn read_whole<T: WktNum>(alloc: Global, text: &str) -> Result<Wkt<T>, WholeError>
    ensures whole { IfOk result (λ w. IsWhole T.read text.now (tree w)) }
    ensures rest { OnRest result (HasRest T.read text.now) }
    ensures within { OnRest result (λ at. at < length text.now) }
    ensures boundary { OnRest result (IsCharBoundary text.now) }
    ensures no_front { OnUnread result (λ r. OnText r (HasNoFront T.read text.now)) }
    ensures bad { OnUnread result (λ r. OnMessage r bad_number (HasBadNumber T.read text.now)) }
    ensures refusal { OnUnread result (λ r. IfText r (IsTextRefused T.read text.now)) }
    ensures free { (v end : _) → Front T.read text.now v end → NeedsNoMemory v → OnUnread result (λ r. ⊥) }
{
    match read_text::<T>(alloc, text) {
        Ok((geometry, end)) => {
            if is_blank(&text.as_bytes()[end..]) {
                Ok(geometry)
            } else {
                Err(WholeError::Rest(end))
            }
        }
        Err(error) => Err(WholeError::Read(error)),
    }
}
