//! Laws of the definitions: each function does nothing, and its contract is the law.
ghost use Rattle.wkt_machine.specs.Laws.{Completes, MachineIsExact, MachineGoesOn, Refuses, Expects};

use wkt_num::WktNum;

/// The lexemes that stand for a value lead from the place of a geometry to behind it, whatever follows, and make its
/// events.
pub fn completes<T: WktNum>()
    ensures { Completes T.read }
{}

/// Lexemes over which the machine goes until it is over stand for a value, and make its events.
pub fn is_exact<T: WktNum>()
    ensures { MachineIsExact T.read }
{}

/// Lexemes over which the machine goes, and isn't over, are a beginning of a geometry, and none is at their front.
pub fn goes_on<T: WktNum>()
    ensures { MachineGoesOn T.read }
{}

/// The lexeme with which the machine doesn't move is the first with which the lexemes are dead.
#[tactic(auto, using(crate::proofs::WholeRuns::refuses))]
pub fn refuses<T: WktNum>()
    ensures { Refuses T.read }
{}

/// What is expected at the machine's place is exactly each lexeme with which the lexemes before it aren't dead.
#[tactic(auto, using(crate::proofs::ExpectedIsTaken::expected_after))]
pub fn expects<T: WktNum>()
    ensures { Expects T.read }
{}
