//! A flat tree that grows by the events of a walk.
ghost use Rattle.std.specs.Prelude.{◌≡◌};

use crate::tree::FlatTree;
use wkt_access::Dimension;
use wkt_machine::{Axis, Builder, Part, read_at};
use wkt_num::WktNum;

/// Makes a flat tree, which is lent to it.
#[derive(Drop)]
pub struct FlatBuilder<'a, T> {
    tree: &'a mut FlatTree<T>,
}

impl<'a, T: WktNum> FlatBuilder<'a, T> {
    ghost use Rattle.wkt_flat_read.specs.Trees.{tree_of};

    #[inline(always)]
    pub fn new(tree: &'a mut FlatTree<T>) -> Self
        ensures { tree_of result ≡ tree.entry }
    {
        FlatBuilder { tree }
    }

    /// The tree.
    #[inline(always)]
    pub fn into_tree(self) -> &'a mut FlatTree<T>
        ensures { result ≡ tree_of self.entry }
    {
        self.tree
    }
}

impl<T: WktNum> Builder<T> for FlatBuilder<'_, T> {
    ghost use Rattle.wkt_flat.specs.Equal.{coord_eq};
    ghost use Rattle.wkt_flat_read.specs.Trees.{tree_maker};

    ghost maker = { tree_maker (coord_eq T.eq) T.read };

    #[inline(always)]
    fn begin(self, _whole: Part, _dim: Dimension) -> Self {
        self
    }

    #[inline(always)]
    #[tactic(auto, using(crate::proofs::Holding::open_grew, crate::proofs::Holding::no_opening))]
    fn open(self, part: Part) -> Self {
        if let Part::Collection = part {
            self.tree.open_collection();
        }
        self
    }

    #[inline(always)]
    #[tactic(auto, using(crate::proofs::Holding::comma_grew))]
    fn comma(self, part: Part) -> Self {
        self.tree.end_item(part, false);
        self
    }

    #[inline(always)]
    #[tactic(auto, using(crate::proofs::Holding::close_grew))]
    fn close(self, part: Part) -> Self {
        self.tree.end_item(part, true);
        self.tree.end(part);
        self
    }

    #[inline(always)]
    #[tactic(auto, using(crate::proofs::Holding::empty_grew))]
    fn empty(self, part: Part) -> Self {
        self.tree.put_empty(part);
        self
    }

    #[inline(always)]
    #[tactic(auto, using(crate::proofs::Holding::number_grew))]
    fn number(self, number: T, axis: Axis) -> Self {
        self.tree.put_number(axis, number);
        self
    }

    #[inline(always)]
    fn number_in(self, text: &[u8], at: usize, axis: Axis) -> (Self, Option<usize>) {
        match read_at::<T>(text, at) {
            Some((number, end)) => {
                self.tree.put_number(axis, number);
                (self, Some(end))
            }
            None => (self, None),
        }
    }

    #[inline(always)]
    fn bare_in(self, text: &[u8], at: usize) -> (Self, Option<usize>) {
        match read_at::<T>(text, at) {
            Some((number, end)) => (self.open(Part::Member).number(number, Axis::X), Some(end)),
            None => (self, None),
        }
    }
}
