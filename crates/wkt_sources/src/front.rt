//! Where the geometry at the front of a text ends.
ghost use Rattle.std.specs.Prelude.{◌≤◌, ◌<◌, MatchOption, IfSome, length};
ghost use Rattle.std.specs.Str.{IsCharBoundary};
ghost use Rattle.wkt_read.specs.Front.{HasNoFront};
ghost use Rattle.wkt_read.specs.Explained.{EndsFront};

use crate::bytes::ByteCursor;
use wkt_machine::NullBuilder;
use wkt_machine::drive::drive;
use wkt_num::{OfType, WktNum};

/// Where the geometry at the front of the text ends, in bytes; `None` where the text has none there. What follows it
/// doesn't change the answer. It takes no memory, and no stack for nesting.
pub fn front_end<T: WktNum>(text: &str) -> Option<usize>
    ensures front { MatchOption result (HasNoFront T.read text.now) (λ end. EndsFront T.read text.now end) }
    ensures some { IfSome result (λ end. 0 < end) }
    ensures within { IfSome result (λ end. end ≤ length text.now) }
    ensures boundary { IfSome result (λ end. IsCharBoundary text.now end) }
{
    let source = ByteCursor::<'_, false>::new(text.as_bytes(), 0);
    let nothing = NullBuilder {
        numbers: OfType::<T>::new(),
    };
    match drive::<T, ByteCursor<'_, false>, NullBuilder<OfType<T>>>(source, nothing) {
        Ok(over) => Some(over.source.at),
        Err(_) => None,
    }
}
