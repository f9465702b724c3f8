//! Multi line strings.
ghost use Rattle.std.specs.Prelude.{◌≡◌, [], IfOk, Some};
ghost use Rattle.std.specs.Iterator.{IsFinite};
ghost use Rattle.std.specs.Iterator.Runs.{WholeRun};

use crate::canonical::{UnderHeader, put_each_under};
use crate::linestring::LineString;
use std::alloc::{AllocError, Global};
use std::marker::Model;
use wkt_access::Dimension;
use wkt_flat::copies::{CopiedPart, copies};

/// A multi line string: line strings in order, and the dimension of the header.
#[derive(Debug, Drop)]
pub struct MultiLineString<T> {
    line_strings: Vec<LineString<T>>,
    dim: Dimension,
}

impl<T> Model for MultiLineString<T> {
    ghost use Rattle.wkt_types.specs.Held.{Held};
    ghost use Rattle.wkt_types.specs.declared.coord.Coord.{Coord};

    ghost Value = { Held (Held (Coord T)) };

    ghost view = { λ x. record { parts = x.line_strings.items; dim = x.dim } };
}

impl<T> MultiLineString<T> {
    ghost use Rattle.wkt_types.specs.Held.{IsMadeOf};

    /// A multi line string of those line strings. Their dimensions aren't compared with its own.
    pub fn new(line_strings: Vec<LineString<T>>, dim: Dimension) -> Self
        ensures line_strings { result.parts ≡ line_strings.items }
        ensures dim { result.dim ≡ dim }
    {
        MultiLineString { line_strings, dim }
    }

    /// A multi line string without line strings. It takes no memory.
    pub fn empty(alloc: Global, dim: Dimension) -> Self
        ensures line_strings { result.parts ≡ [] }
        ensures dim { result.dim ≡ dim }
    {
        MultiLineString {
            line_strings: Vec::new(alloc),
            dim,
        }
    }

    /// The multi line string of all line strings that the iterator gives, with the first one's
    /// dimension: None where it gives none.
    ///
    /// # Errors
    /// Out of memory.
    pub fn from_line_strings<I: Iterator<Item = LineString<T>> + Drop>(
        alloc: Global,
        line_strings: I,
    ) -> Result<Option<Self>, AllocError>
    where
        T: Drop,
        requires can { I.can_next line_strings }
        requires ends { IsFinite (I.remaining line_strings) }
        ensures { IfOk result (λ r. WholeRun I.next_gives line_strings (λ run. IsMadeOf (λ x. x.dim) run.items r)) }
    {
        let line_strings: Vec<LineString<T>> = line_strings.collect(alloc)?;
        match line_strings.first() {
            None => Ok(None),
            Some(first) => {
                let dim = first.dimension();
                Ok(Some(MultiLineString { line_strings, dim }))
            }
        }
    }

    /// The dimension of the header.
    pub fn dimension(&self) -> Dimension
        ensures { result ≡ self.now.dim }
    {
        self.dim
    }

    /// The line strings in order.
    pub fn line_strings(&self) -> &[LineString<T>]
        ensures { result.now ≡ self.now.parts }
    {
        self.line_strings.as_slice()
    }

    /// The line strings and the dimension.
    pub fn into_inner(self) -> (Vec<LineString<T>>, Dimension)
        ensures line_strings { result.0.items ≡ self.parts }
        ensures dim { result.1 ≡ self.dim }
    {
        let MultiLineString { line_strings, dim } = self;
        (line_strings, dim)
    }
}

impl<T: Copy + Drop> MultiLineString<T> {
    /// An equal multi line string.
    ///
    /// # Errors
    /// Out of memory.
    pub fn try_clone(&self, alloc: Global) -> Result<Self, AllocError>
        ensures { IfOk result (λ x. x ≡ self.now) }
    {
        Ok(MultiLineString {
            line_strings: copies(alloc, &self.line_strings)?,
            dim: self.dim,
        })
    }
}

impl<T: Copy + Drop> CopiedPart for MultiLineString<T> {
    fn copy(&self, alloc: Global) -> Result<Self, AllocError> {
        self.try_clone(alloc)
    }
}

impl<T: Copy + Drop> UnderHeader for MultiLineString<T> {
    ghost use Rattle.wkt_types.specs.Canonical.{parts_under, line_under};

    ghost under = { parts_under line_under };

    fn put_under(&mut self, dim: Dimension) {
        put_each_under(&mut self.line_strings, dim);
        self.dim = dim;
    }
}
