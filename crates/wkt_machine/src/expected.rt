//! What could stand at the machine's place.
ghost use Rattle.std.specs.Prelude.{◌≡◌};
ghost use Rattle.wkt_machine.specs.Machines.{state_of};
ghost use Rattle.wkt_machine.specs.Refusing.{outer_parens, expected_at, item_expected, last_number, opening_expected, open_parens, takes_number};

use crate::machine::{Machine, State};
use crate::part::{Axis, Part};
use wkt_access::Dimension;
use wkt_read::Expected;

fn last_number(dim: Dimension) -> Expected
    ensures { result ≡ last_number dim }
{
    match dim {
        Dimension::XY => Expected::Y,
        Dimension::XYZ => Expected::Z,
        Dimension::XYM | Dimension::XYZM => Expected::M,
    }
}

fn opening_expected(part: Part) -> Expected
    ensures { result ≡ opening_expected part }
{
    match part {
        Part::Member => Expected::Point,
        _ => Expected::Opening,
    }
}

fn item_expected(part: Part) -> Expected
    ensures { result ≡ item_expected part }
{
    match part {
        Part::Point | Part::Member => Expected::Closing,
        _ => Expected::More,
    }
}

/// How many parentheses are open around a part, but those of collections.
fn outer_parens(part: Part) -> usize
    ensures { result ≡ outer_parens part }
{
    match part {
        Part::Member | Part::Ring | Part::Line | Part::Area => 1,
        Part::AreaRing => 2,
        _ => 0,
    }
}

impl Machine {
    /// What could stand at the place.
    pub fn expected(self) -> Expected
        ensures { result ≡ expected_at (state_of self).place self.depth }
    {
        match self.state {
            State::Kind if self.depth == 0 => Expected::Kind,
            State::Kind => Expected::Member,
            State::Dimension => Expected::Dimension,
            State::Opening => opening_expected(self.part),
            State::Number(Axis::X) => Expected::X,
            State::Number(Axis::Y) => Expected::Y,
            State::Number(Axis::Z) => match self.dim {
                Dimension::XYZM => Expected::Z,
                dim => last_number(dim),
            },
            State::Number(Axis::M) => last_number(self.dim),
            State::Item => item_expected(self.part),
            State::Geometry => Expected::More,
        }
    }

    /// How many parentheses are open at the place, but those of collections.
    pub fn open_parens(self) -> usize
        ensures { result ≡ open_parens (state_of self).place }
    {
        match self.state {
            State::Kind | State::Dimension | State::Geometry => 0,
            State::Opening => outer_parens(self.part),
            State::Number(_) | State::Item => outer_parens(self.part) + 1,
        }
    }
}

/// Whether a number may stand at the machine's place.
#[inline(always)]
pub fn takes_number(machine: Machine) -> bool
    ensures { result ≡ takes_number (state_of machine).place }
{
    match machine.state {
        State::Number(_) => true,
        State::Opening => matches!(machine.part, Part::Member),
        _ => false,
    }
}
