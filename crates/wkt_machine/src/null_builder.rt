//! Nothing is made.

use crate::builder::Builder;
use crate::numbers::end_at;
use crate::part::{Axis, Part};
use wkt_access::Dimension;
use wkt_num::Numbers;

/// Keeps nothing of what comes but how numbers are read.
#[derive(Drop)]
pub struct NullBuilder<N> {
    /// How numbers are read.
    pub numbers: N,
}

impl<N: Numbers> Builder<N::Number> for NullBuilder<N> {
    ghost use Rattle.wkt_machine.specs.Makers.{null_builder_maker};

    ghost maker = { null_builder_maker N.read };

    #[inline(always)]
    fn begin(self, _whole: Part, _dim: Dimension) -> Self {
        self
    }

    #[inline(always)]
    fn open(self, _part: Part) -> Self {
        self
    }

    #[inline(always)]
    fn comma(self, _part: Part) -> Self {
        self
    }

    #[inline(always)]
    fn close(self, _part: Part) -> Self {
        self
    }

    #[inline(always)]
    fn empty(self, _part: Part) -> Self {
        self
    }

    #[inline(always)]
    fn number(self, _number: N::Number, _axis: Axis) -> Self {
        self
    }

    #[inline(always)]
    fn number_in(self, text: &[u8], at: usize, _axis: Axis) -> (Self, Option<usize>) {
        let end = end_at(self.numbers, text, at);
        (self, end)
    }

    #[inline(always)]
    fn bare_in(self, text: &[u8], at: usize) -> (Self, Option<usize>) {
        let end = end_at(self.numbers, text, at);
        (self, end)
    }
}
