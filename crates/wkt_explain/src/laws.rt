//! Laws of the definitions: each function does nothing, and its contract is the law.
ghost use Rattle.wkt_read.specs.Explained.{OneRefusal, RefusedHasNoFront};
ghost use Rattle.wkt_explain.specs.Hints.{FewerIsRead};

use wkt_num::WktNum;

/// A text is refused at one place at most.
pub fn one_refusal<T: WktNum>()
    ensures { OneRefusal T.read }
{}

/// A text that is refused somewhere has no geometry at its front.
pub fn refused_has_no_front<T: WktNum>()
    ensures { RefusedHasNoFront T.read }
{}

/// A number whose hint is `Fewer` is read with 18 places.
#[tactic(auto, using(crate::proofs::Fewer::fewer_is_read))]
pub fn fewer_is_read()
    ensures { FewerIsRead }
{}
