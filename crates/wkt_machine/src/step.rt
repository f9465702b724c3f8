//! The grammar: what each lexeme does at each place.
ghost use Rattle.std.specs.Prelude.{◌≡◌, ◌≢◌, ◌<◌, IfSome, Some};
ghost use Rattle.wkt_machine.specs.Machine.{joined_step};
ghost use Rattle.wkt_machine.specs.Machines.{state_of, is_member, IsSound};
ghost use Rattle.wkt_machine.specs.Seen.{seen_at, gone, stepped};
ghost use Rattle.wkt_machine.specs.declared.machine.LexemeKind.TheVariants as sees;
ghost use Rattle.wkt_machine.specs.declared.machine.State.TheVariants as states;
ghost use Rattle.wkt_machine.specs.declared.part.Axis.TheVariants as axes;
ghost use Rattle.wkt_machine.specs.declared.part.Part.TheVariants as parts;

use crate::machine::{LexemeKind, Machine, State, is_single, next_number, part_of};
use crate::part::{Axis, Part};
use wkt_access::Dimension;

/// What is made of a lexeme.
#[derive(Clone, Copy)]
pub enum Action {
    /// Nothing: behind a kind word alone a dimension may come.
    Nothing,
    Header(Part, Dimension),
    /// The header of a kind word alone, and the parenthesis.
    HeaderOpen(Part),
    /// The header of a kind word alone, and EMPTY.
    HeaderEmpty(Part),
    Open(Part),
    Comma(Part),
    Close(Part),
    Empty(Part),
    Number(Axis),
    /// The first number of a point without parentheses.
    FirstBare,
    /// The last number of a point without parentheses.
    LastBare(Axis),
}

impl Machine {
    /// The machine behind a lexeme, and what is made of that; `None` where no such lexeme may stand.
    #[inline(always)]
    pub fn step(self, seen: LexemeKind) -> Option<(Machine, Action)>
        requires sound { IsSound self }
        requires room { seen ≢ sees.Other → self.depth < usize.MAX }
        ensures exact { stepped result ≡ seen_at (state_of self).place self.depth seen }
        ensures sound { IfSome result (λ r. IsSound r.0) }
    {
        let part = self.part;
        let gone = match (self.state, seen) {
            (State::Kind, LexemeKind::Kind(kind, joined)) => self.behind_kind(
                part_of(kind),
                joined,
            ),
            (State::Dimension, LexemeKind::Dimension(dim)) => (
                self.headed(part, dim),
                Action::Header(part, dim),
            ),
            (State::Dimension, LexemeKind::Open) => (
                self.headed(part, Dimension::XY).inside(),
                Action::HeaderOpen(part),
            ),
            (State::Dimension, LexemeKind::Empty) => (
                self.headed(part, Dimension::XY).outside(),
                Action::HeaderEmpty(part),
            ),
            (State::Opening, LexemeKind::Open) => (self.inside(), Action::Open(part)),
            (State::Opening, LexemeKind::Empty) => (self.outside(), Action::Empty(part)),
            (State::Opening, LexemeKind::Number) if is_member(part) => (
                self.bare(),
                Action::FirstBare,
            ),
            (State::Number(axis), LexemeKind::Number) => self.behind_number(axis),
            (State::Item, LexemeKind::Comma) if !is_single(part) => (
                self.inside(),
                Action::Comma(part),
            ),
            (State::Item, LexemeKind::Close) => (self.outside(), Action::Close(part)),
            (State::Geometry, LexemeKind::Comma) if self.depth > 0 => (
                self.with_state(State::Kind),
                Action::Comma(Part::Collection),
            ),
            (State::Geometry, LexemeKind::Close) if self.depth > 0 => (
                self.leave_collection(),
                Action::Close(Part::Collection),
            ),
            _ => return None,
        };
        Some(gone)
    }

    /// Behind a kind word, and the dimension that is joined to it.
    #[inline(always)]
    fn behind_kind(self, part: Part, joined: Option<Dimension>) -> (Machine, Action)
        ensures exact { gone result ≡ joined_step part joined self.depth }
        ensures sound { IsSound result.0 }
    {
        match joined {
            Some(dim) => (self.headed(part, dim), Action::Header(part, dim)),
            None => (
                self.with_part(State::Dimension, part, Dimension::XY),
                Action::Nothing,
            ),
        }
    }

    /// Behind a header.
    #[inline(always)]
    fn headed(self, part: Part, dim: Dimension) -> Machine
        ensures { result ≡ record { state = states.Opening; part = part; dim = dim; depth = self.depth } }
    {
        self.with_part(State::Opening, part, dim)
    }

    /// Behind the first number of a point without parentheses.
    #[inline(always)]
    fn bare(self) -> Machine
        ensures { result ≡ record { state = states.Number axes.Y; part = parts.Bare; dim = self.dim; depth = self.depth } }
    {
        self.with_part(State::Number(Axis::Y), Part::Bare, self.dim)
    }

    /// Behind a number. A point without parentheses ends with its last.
    #[inline(always)]
    fn behind_number(self, axis: Axis) -> (Machine, Action)
        requires state { self.state ≡ states.Number axis }
        requires sound { IsSound self }
        ensures exact { Some (gone result) ≡ seen_at (state_of self).place self.depth sees.Number }
        ensures sound { IsSound result.0 }
    {
        match next_number(axis, self.dim) {
            Some(next) => (self.with_state(State::Number(next)), Action::Number(axis)),
            None => match self.part {
                Part::Bare => (self.outside(), Action::LastBare(axis)),
                _ => (self.with_state(State::Item), Action::Number(axis)),
            },
        }
    }
}

/// Whether a part is a point of a multipoint.
#[inline(always)]
fn is_member(part: Part) -> bool
    ensures { result ≡ is_member part }
{
    matches!(part, Part::Member)
}
