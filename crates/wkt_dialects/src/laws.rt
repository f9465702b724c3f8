//! Laws of the definitions: each function does nothing, and its contract is the law.
ghost use Rattle.wkt_dialects.specs.Exponents.{ExponentsKeep};
ghost use Rattle.wkt_dialects.specs.Laws.{DialectsKeep, OneSrid, OneValueAs};

/// What begins with a geometry without dialects is read as itself in each.
pub fn dialects_keep()
    ensures { DialectsKeep }
{}

/// All that a text is read as has the same value.
pub fn one_value_as()
    ensures { OneValueAs }
{}

/// A number that is read without exponents is read as the same with them.
#[tactic(auto, using(crate::proofs::Scaled::exponents_keep))]
pub fn exponents_keep()
    ensures { ExponentsKeep }
{}

/// A text has one SRID at most.
pub fn one_srid()
    ensures { OneSrid }
{}
