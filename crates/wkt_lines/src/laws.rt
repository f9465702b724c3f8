//! Laws of the output: each function does nothing, and its contract is the law.
ghost use Rattle.wkt_lines.specs.Laws.{OneOutput, OutputOfParts, PartsOfOutput};

use wkt_num::WktNum;

/// An input has at most one output.
#[tactic(auto, using(crate::proofs::Outcomes::same_answers))]
pub fn one_output<T: WktNum>()
    ensures { OneOutput T.read T.num }
{
    // No effect at run time. The proof reads that a text has at most one front.
    wkt_read::laws::one_front::<T>();
}

/// The output for an input that is cut after line feeds is the outputs for the parts, one after the other.
#[tactic(auto, using(crate::proofs::Outcomes::parts_make, crate::proofs::Outcomes::parts_of))]
pub fn output_of_parts<T: WktNum>()
    ensures joined { OutputOfParts T.read T.num }
    ensures cut { PartsOfOutput T.read T.num }
{}
