//! Geometries dropped by a loop: nesting takes no stack, and nothing asks for memory.
//!
//! The flat geometries and those of `wkt_types` are dropped by this one loop.
ghost use Rattle.std.specs.Prelude.{◌≡◌, ◌+◌, ◌≤◌, ℕ, IfSome};
ghost use Rattle.wkt_flat.specs.Tree.{total};

use std::mem;

/// A geometry that may be a collection of others.
pub trait Nested: Sized {
    /// How many geometries are in it.
    ghost inside: { Self → ℕ };

    /// Makes a collection of these members.
    fn of_members(members: Vec<Self>) -> Self
        ensures { inside result ≡ total inside members.items };

    /// Returns the members of a collection. Drops any other geometry, and returns None.
    fn into_members(self) -> Option<Vec<Self>>
        ensures { IfSome result (λ members. inside self ≡ total inside members.items) };
}

/// Drops the geometries, with all that they hold.
///
/// It has no clause, for nothing of them is left to speak of. A `Nested` has no `Drop` here, so a body that leaves one
/// undropped is refused, and `destroy_empty` takes an empty list alone.
#[tactic(auto, using(crate::proofs::TreeLemmas::popped))]
pub fn drop_all<G: Nested>(geometries: Vec<G>) {
    let mut waiting = geometries;
    while let Some(geometry) = waiting.pop() {
        waiting = drop_one(geometry, waiting);
    }
    waiting.destroy_empty();
}

// Drops one geometry, and returns what then waits. Each collection is opened once, and so is
// each that is made here: where it is taken nothing else waits, so it isn't put away again.
#[tactic(auto, using(crate::proofs::TreeLemmas::exchanged, crate::proofs::TreeLemmas::first_within, std::proofs::lemmas::Bool::Decides::nat_tests))]
fn drop_one<G: Nested>(geometry: G, waiting: Vec<G>) -> Vec<G>
    ensures fewer { total G.inside result.items ≤ G.inside geometry + total G.inside waiting.items }
{
    let mut geometry = geometry;
    let mut waiting = waiting;
    loop {
        let Some(mut members) = geometry.into_members() else {
            return waiting;
        };
        if members.is_empty() {
            members.destroy_empty();
            return waiting;
        }
        if waiting.is_empty() {
            waiting.destroy_empty();
            return members;
        }
        // What waits takes the place of the first member, so that no list has to grow.
        let others = G::of_members(waiting);
        geometry = mem::replace(&mut members[0], others);
        waiting = members;
    }
}
