//! Where lexemes come from.
ghost use Rattle.std.specs.Prelude.{◌≡◌, ◌≢◌, [], IfOk, IfErr};
ghost use Rattle.wkt_machine.specs.Goes.{Stays, Skips, MakesBare, MakesOneNumber, IsUnread};
ghost use Rattle.wkt_machine.specs.Room.{HasRoom, HasNumberRoom, LeavesNumber};
ghost use Rattle.wkt_machine.specs.Steps.{MayStep, Steps};
ghost use Rattle.wkt_machine.specs.View.{sight, View};
ghost use Rattle.wkt_machine.specs.declared.machine.LexemeKind.TheVariants as seen;
ghost use Rattle.wkt_machine.specs.declared.machine.State.TheVariants as next;
ghost use Rattle.wkt_machine.specs.declared.part.Axis.TheVariants as axis;

use crate::builder::Builder;
use crate::machine::{LexemeKind, Machine};
use crate::part::Axis;
use wkt_num::WktNum;

/// A source, a machine behind what was taken from it, and what was made of that.
#[derive(Drop)]
pub struct Progress<S, B> {
    pub source: S,
    pub machine: Machine,
    pub builder: B,
}

/// After some lexemes; or where the next one is refused.
pub type StepResult<S, B> = Result<Progress<S, B>, Progress<S, B>>;

/// A place in a text.
pub trait Source<T: WktNum>: Sized + Drop {
    /// What is left.
    ghost view: { View T Self };

    /// The lexeme that comes next, which stays.
    fn look(self) -> (LexemeKind, Self)
        ensures seen { result.0 ≡ sight (view.remaining self) }
        ensures stays { Stays view self result.1 }
        ensures looked { view.looked result.1 };

    /// Past the lexeme that was looked at.
    fn skip(self) -> Self
        requires looked { view.looked self }
        requires some { sight (view.remaining self) ≢ seen.Other }
        requires word { sight (view.remaining self) ≢ seen.Number }
        ensures { Skips view self result };

    /// Past the number that was looked at, with what is made of it; or still before it, if its type doesn't read it.
    fn number<B: Builder<T>>(self, builder: B, axis: Axis) -> Result<(Self, B), (Self, B)>
        requires looked { view.looked self }
        requires seen { sight (view.remaining self) ≡ seen.Number }
        requires room { HasNumberRoom view B.maker self builder }
        ensures takes { IfOk result (λ r. MakesOneNumber (B.maker.reads builder) view B.maker self builder axis r.0 r.1) }
        ensures leaves { IfOk result (λ r. LeavesNumber view B.maker self builder r.0 r.1) }
        ensures stays { IfErr result (λ r. Stays view self r.0) }
        ensures unread { IfErr result (λ r. (k : view.Known) → view.keeps self k → IsUnread (B.maker.reads builder) (view.remaining self)) }
        ensures nothing { IfErr result (λ r. B.maker.makes builder [] r.1) };

    /// The same of the first number of a point without parentheses: the parenthesis is opened before it, if it is read.
    fn bare<B: Builder<T>>(self, builder: B) -> Result<(Self, B), (Self, B)>
        requires looked { view.looked self }
        requires seen { sight (view.remaining self) ≡ seen.Number }
        requires room { HasRoom view B.maker 0 self builder }
        ensures takes { IfOk result (λ r. MakesBare (B.maker.reads builder) view B.maker self builder r.0 r.1) }
        ensures room { IfOk result (λ r. HasRoom view B.maker 0 r.0 r.1) }
        ensures stays { IfErr result (λ r. Stays view self r.0) }
        ensures unread { IfErr result (λ r. (k : view.Known) → view.keeps self k → IsUnread (B.maker.reads builder) (view.remaining self)) }
        ensures nothing { IfErr result (λ r. B.maker.makes builder [] r.1) };

    /// Numbers that are given by value are read as their type reads them.
    ghost by_type: { view.by_value → view.number ≡ T.read };
}

/// A source that takes in one go what begins in it.
pub trait FastSource<T: WktNum>: Source<T> {
    /// After one lexeme or more: a geometry begins here.
    fn header<B: Builder<T>>(self, machine: Machine, builder: B) -> StepResult<Self, B>
        requires state { machine.state ≡ next.Kind }
        requires may { MayStep Self.view B.maker machine self builder }
        ensures { Steps Self.view B.maker machine self builder result };

    /// After one lexeme or more: a coordinate begins here.
    fn coordinates<B: Builder<T>>(self, machine: Machine, builder: B) -> StepResult<Self, B>
        requires state { machine.state ≡ next.Number axis.X }
        requires may { MayStep Self.view B.maker machine self builder }
        ensures { Steps Self.view B.maker machine self builder result };
}
