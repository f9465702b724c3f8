//! The law on earlier forms of this library, whose grammar had no EMPTY among the members of a multipoint: each text
//! that was read then keeps its value. Nobody who begins today needs it.
ghost use Rattle.wkt_read.specs.OldForms.{OldForms};

use wkt_num::WktNum;

/// What earlier forms read is what is read now as a value without an empty member of a multipoint, and it has the
/// same value.
pub fn old_forms<T: WktNum>()
    ensures { OldForms T.read }
{}
