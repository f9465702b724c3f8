//! What could stand at a place of a text.
ghost use Rattle.std.specs.Prelude.{◌≡◌, Some};
ghost use Rattle.wkt_read.specs.Words.{words};

use std::fmt;
use std::fmt::Formatter;

/// What could stand at a place of a text, by the grammar.
#[derive(Clone, Copy, PartialEq, Eq, Hash, Debug)]
pub enum Expected {
    /// A kind word, with which a geometry begins.
    Kind,
    /// A kind word, with which a member of a collection begins.
    Member,
    /// What stands after a kind word alone: `Z`, `M`, `ZM`, `(` or EMPTY.
    Dimension,
    /// `(` or EMPTY.
    Opening,
    /// A member of a multipoint: a number, `(` or EMPTY.
    Point,
    /// The number x.
    X,
    /// The number y.
    Y,
    /// The number z.
    Z,
    /// The number m.
    M,
    /// `,` or `)`.
    More,
    /// `)`.
    Closing,
}

impl Expected {
    /// What could come next, in words.
    fn words(self) -> &'static str
        ensures { result.now ≡ words self }
    {
        match self {
            Expected::Kind => "a kind of geometry, such as POINT,",
            Expected::Member => "a member of the collection",
            Expected::Dimension => "`(`, EMPTY, Z, M or ZM",
            Expected::Opening => "`(` or EMPTY",
            Expected::Point => "a first number, `(` or EMPTY",
            Expected::X => "a first number",
            Expected::Y => "a second number",
            Expected::Z => "a number z",
            Expected::M => "a number m",
            Expected::More => "`,` or `)`",
            Expected::Closing => "`)`",
        }
    }
}

impl fmt::Display for Expected {
    ghost output = { λ e. Some (words e) };

    fn fmt<W: fmt::Write>(&self, f: &mut Formatter<W>) -> fmt::Result {
        f.write_str(self.words())
    }
}
