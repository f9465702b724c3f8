//! What is made of the parts of a geometry, as they come.
ghost use Rattle.std.specs.Prelude.{[], ◌∷◌, ◌≤◌, length, IfSome, IfNone};
ghost use Rattle.wkt_machine.specs.Events.{Event};
ghost use Rattle.wkt_machine.specs.Makers.{Maker, MakesBareNumber, MakesNumber};
ghost use Rattle.wkt_machine.specs.Room.{header_cost, Leaves, FitsBare, FitsNumber, LeavesBehind, LeavesBehindBare};
ghost use Rattle.wkt_events.specs.Remaining.{NoNumber};

use crate::part::{Axis, Part};
use wkt_access::Dimension;
use wkt_num::WktNum;

/// What is made. It is held by value: each call takes it and gives it back. A call that goes wrong is remembered by what
/// is made. There is room for what each call makes.
pub trait Builder<T: WktNum>: Sized + Drop {
    /// What is made of which events, and how much room there is.
    ghost maker: { Maker T Self };

    /// The header of a whole geometry.
    fn begin(self, whole: Part, dim: Dimension) -> Self
        requires room { maker.fits self (header_cost whole) }
        ensures makes { maker.makes self (Event.Header whole dim ∷ []) result }
        ensures leaves { Leaves maker self (header_cost whole) result };

    fn open(self, part: Part) -> Self
        requires room { maker.fits self 1 }
        ensures makes { maker.makes self (Event.Open part ∷ []) result }
        ensures leaves { Leaves maker self 1 result };

    fn comma(self, part: Part) -> Self
        requires room { maker.fits self 1 }
        ensures makes { maker.makes self (Event.Comma part ∷ []) result }
        ensures leaves { Leaves maker self 1 result };

    fn close(self, part: Part) -> Self
        requires room { maker.fits self 1 }
        ensures makes { maker.makes self (Event.Close part ∷ []) result }
        ensures leaves { Leaves maker self 1 result };

    fn empty(self, part: Part) -> Self
        requires room { maker.fits self 6 }
        ensures makes { maker.makes self (Event.Empty part ∷ []) result }
        ensures leaves { Leaves maker self 6 result };

    /// A number of a coordinate.
    fn number(self, number: T, axis: Axis) -> Self
        requires room { maker.fits self (maker.takes self number) }
        ensures makes { maker.makes self (Event.Number axis number ∷ []) result }
        ensures leaves { Leaves maker self (maker.takes self number) result };

    /// The number of a coordinate at a place of the bytes, and where its run ends; `None` where none is read.
    ///
    /// [`read_at`](crate::read_at) reads it. What keeps the number's text, or nothing, need not read it.
    fn number_in(self, text: &[u8], at: usize, axis: Axis) -> (Self, Option<usize>)
        requires inside { at ≤ length text.now }
        requires room { FitsNumber maker self text.now at }
        ensures some { IfSome result.1 (λ end. MakesNumber (maker.reads self) maker self text.now at axis result.0 end) }
        ensures none { IfNone result.1 (NoNumber (maker.reads self) text.now at) }
        ensures leaves { IfSome result.1 (LeavesBehind maker self text.now at result.0) }
        ensures nothing { IfNone result.1 (maker.makes self [] result.0) };

    /// The same of the first number of a point without parentheses: the parenthesis is opened before it, if it is read.
    fn bare_in(self, text: &[u8], at: usize) -> (Self, Option<usize>)
        requires inside { at ≤ length text.now }
        requires room { FitsBare maker self text.now at }
        ensures some { IfSome result.1 (λ end. MakesBareNumber (maker.reads self) maker self text.now at result.0 end) }
        ensures none { IfNone result.1 (NoNumber (maker.reads self) text.now at) }
        ensures leaves { IfSome result.1 (LeavesBehindBare maker self text.now at result.0) }
        ensures nothing { IfNone result.1 (maker.makes self [] result.0) };
}
