//! The grammar, as a state machine over lexemes.
ghost use Rattle.std.specs.Prelude.{◌≡◌, ◌<◌, ◌-◌};
ghost use Rattle.wkt_machine.specs.Machine.{at, part_of, inside, outside, start, is_over};
ghost use Rattle.wkt_machine.specs.Machines.{state_of, number_after, is_single, IsSound};
ghost use Rattle.wkt_machine.specs.Machine as place;
ghost use Rattle.wkt_machine.specs.declared.machine.State.TheVariants as states;
ghost use Rattle.wkt_machine.specs.declared.part.Part.TheVariants as parts;

use crate::part::{Axis, Part};
use wkt_access::Dimension;
use wkt_types::GeometryType;

/// A lexeme, as far as the machine looks at it.
#[derive(Clone, Copy)]
pub enum LexemeKind {
    Open,
    Close,
    Comma,
    /// A kind word, and the dimension that is joined to it.
    Kind(GeometryType, Option<Dimension>),
    Dimension(Dimension),
    Empty,
    Number,
    /// Any other word, or the text's end.
    Other,
}

/// What comes next.
#[derive(Clone, Copy)]
pub enum State {
    /// A geometry.
    Kind,
    /// A dimension, or what follows one.
    Dimension,
    /// The parenthesis of a part, or EMPTY; of a point of a multipoint a number too.
    Opening,
    /// A number of a coordinate.
    Number(Axis),
    /// What follows an item of a part.
    Item,
    /// What follows a geometry.
    Geometry,
}

/// A place in the text of a geometry: what comes next, of which part in which dimension, and in how many collections.
// `Number(Axis)` has two bytes, so the tags have four and the padding four. Where four variants of one byte were in its
// place, LLVM copied five bytes of padding through memory, and `from_str` took a sixth more.
#[derive(Clone, Copy)]
pub struct Machine {
    pub state: State,
    pub part: Part,
    pub dim: Dimension,
    pub depth: usize,
}

/// The part that stands behind the header of a kind.
#[inline(always)]
pub fn part_of(kind: GeometryType) -> Part
    ensures { result ≡ part_of kind }
{
    match kind {
        GeometryType::Point => Part::Point,
        GeometryType::LineString => Part::LineString,
        GeometryType::Polygon => Part::Polygon,
        GeometryType::MultiPoint => Part::MultiPoint,
        GeometryType::MultiLineString => Part::MultiLineString,
        GeometryType::MultiPolygon => Part::MultiPolygon,
        GeometryType::GeometryCollection => Part::Collection,
    }
}

/// Whether a part has one coordinate alone.
#[inline(always)]
pub fn is_single(part: Part) -> bool
    ensures { result ≡ is_single part }
{
    matches!(part, Part::Point | Part::Member)
}

/// The number of a coordinate that comes after this one, if one does.
#[inline(always)]
pub(crate) fn next_number(axis: Axis, dim: Dimension) -> Option<Axis>
    ensures { result ≡ number_after axis dim }
{
    match (axis, dim) {
        (Axis::X, _) => Some(Axis::Y),
        (Axis::Y, Dimension::XYZ | Dimension::XYZM) => Some(Axis::Z),
        (Axis::Y, Dimension::XYM) | (Axis::Z, Dimension::XYZM) => Some(Axis::M),
        _ => None,
    }
}

impl Machine {
    /// Before a geometry.
    #[inline(always)]
    pub fn start() -> Machine
        ensures state { state_of result ≡ start }
        ensures sound { IsSound result }
    {
        Machine {
            state: State::Kind,
            part: Part::Point,
            dim: Dimension::XY,
            depth: 0,
        }
    }

    /// Whether a geometry was read that is in no collection.
    #[inline(always)]
    pub fn is_over(self) -> bool
        ensures { result ≡ is_over (state_of self) }
    {
        self.depth == 0 && matches!(self.state, State::Geometry)
    }

    #[inline(always)]
    pub fn with_state(self, state: State) -> Machine
        ensures { result ≡ record { state = state; part = self.part; dim = self.dim; depth = self.depth } }
    {
        Machine {
            state,
            part: self.part,
            dim: self.dim,
            depth: self.depth,
        }
    }

    /// The machine at another state, in another part and a dimension.
    #[inline(always)]
    pub fn with_part(self, state: State, part: Part, dim: Dimension) -> Machine
        ensures { result ≡ record { state = state; part = part; dim = dim; depth = self.depth } }
    {
        Machine {
            state,
            part,
            dim,
            depth: self.depth,
        }
    }

    /// Where an item of the part begins.
    #[inline(always)]
    pub fn inside(self) -> Machine
        requires room { self.depth < usize.MAX }
        ensures state { state_of result ≡ inside self.part self.dim self.depth }
        ensures sound { IsSound result }
    {
        let (state, part) = match self.part {
            Part::Collection => (State::Kind, Part::Collection),
            Part::MultiPoint => (State::Opening, Part::Member),
            Part::Polygon => (State::Opening, Part::Ring),
            Part::MultiLineString => (State::Opening, Part::Line),
            Part::MultiPolygon => (State::Opening, Part::Area),
            Part::Area => (State::Opening, Part::AreaRing),
            part => (State::Number(Axis::X), part),
        };
        let depth = if let Part::Collection = self.part {
            self.depth + 1
        } else {
            self.depth
        };
        Machine {
            state,
            part,
            dim: self.dim,
            depth,
        }
    }

    /// Behind the part.
    #[inline(always)]
    pub fn outside(self) -> Machine
        ensures state { state_of result ≡ outside self.part self.dim self.depth }
        ensures sound { IsSound result }
    {
        let (state, part) = match self.part {
            Part::Member | Part::Bare => (State::Item, Part::MultiPoint),
            Part::Ring => (State::Item, Part::Polygon),
            Part::Line => (State::Item, Part::MultiLineString),
            Part::Area => (State::Item, Part::MultiPolygon),
            Part::AreaRing => (State::Item, Part::Area),
            part => (State::Geometry, part),
        };
        Machine {
            state,
            part,
            dim: self.dim,
            depth: self.depth,
        }
    }

    /// Behind a collection.
    #[inline(always)]
    pub fn leave_collection(self) -> Machine
        requires { 0 < self.depth }
        ensures exact { result ≡ record { state = states.Geometry; part = parts.Collection; dim = self.dim; depth = self.depth - 1 } }
        ensures state { state_of result ≡ at (self.depth - 1) place.Geometry }
        ensures sound { IsSound result }
    {
        Machine {
            state: State::Geometry,
            part: Part::Collection,
            dim: self.dim,
            depth: self.depth - 1,
        }
    }
}
