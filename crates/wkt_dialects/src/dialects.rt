//! Which dialects are asked for.
ghost use Rattle.std.specs.Prelude.{◌≡◌};
ghost use Rattle.wkt_dialects.specs.Asked.{dialects_in};

/// What is read beyond the grammar.
#[derive(Clone, Copy)]
pub struct Dialects {
    /// `SRID=4326;` in front is split off.
    pub srid: bool,
    /// Three or four numbers in a geometry's first coordinate are its dimension, where its header says none.
    pub untagged: bool,
    /// Numbers may have exponents.
    pub exponents: bool,
    /// A point all of whose numbers are `nan` is EMPTY.
    pub nan: bool,
}

/// The dialects that a call asks for beside its places: 512, 1024, 2048 and 4096 are added for the four in their order.
pub fn dialects_in(asked: u32) -> Dialects
    ensures { result ≡ dialects_in asked }
{
    Dialects {
        srid: asked / 512 % 2 == 1,
        untagged: asked / 1024 % 2 == 1,
        exponents: asked / 2048 % 2 == 1,
        nan: asked / 4096 % 2 == 1,
    }
}
