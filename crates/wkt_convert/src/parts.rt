//! Parts of geometries, each converted; and what a loop over open collections holds.
ghost use Rattle.std.specs.Prelude.{◌≡◌, ◌++◌, IfOk, map};

use std::alloc::{AllocError, Global};

/// A part that has a form of the other family of types.
pub(crate) trait Turn<Y> {
    /// That form.
    ghost turned: { Self → Y };

    /// # Errors
    /// Out of memory.
    fn turn(&self, alloc: Global) -> Result<Y, AllocError>
        ensures { IfOk result (λ y. y ≡ turned self.now) };
}

/// The list with the form of each part added.
#[tactic(auto, using(wkt_flat::proofs::TreeLemmas::grown_after))]
pub(crate) fn turn_after<X: Turn<Y>, Y: Drop>(
    alloc: Global,
    parts: &[X],
    mut all: Vec<Y>,
) -> Result<Vec<Y>, AllocError>
    ensures { IfOk result (λ r. r.items ≡ all.items ++ map X.turned parts.now) }
{
    for part in parts {
        all.push(part.turn(alloc)?)?;
    }
    Ok(all)
}

/// The form of each part.
pub(crate) fn turn_all<X: Turn<Y>, Y: Drop>(
    alloc: Global,
    parts: &[X],
) -> Result<Vec<Y>, AllocError>
    ensures { IfOk result (λ r. r.items ≡ map X.turned parts.now) }
{
    let all = Vec::with_capacity(alloc, parts.len())?;
    turn_after(alloc, parts, all)
}

/// A geometry that is converted, or the members of a collection, which are still to be.
#[derive(Drop)]
pub(crate) enum Piece<'a, S, R> {
    Whole(R),
    Members(&'a [S]),
}

/// A collection that is open: its members that are left, and the converted ones before them.
#[derive(Drop)]
pub(crate) struct Open<'a, S, R> {
    pub(crate) rest: &'a [S],
    pub(crate) done: Vec<R>,
}
