//! Geometries made canonical: as their texts are read.
ghost use Rattle.std.specs.Prelude.{◌≡◌, None, map};
ghost use Rattle.wkt_access.specs.Faults.{fault};
ghost use Rattle.wkt_access.specs.Shapes.{canon};
ghost use Rattle.wkt_access.specs.declared.dimensions.Dimension.{Dimension};
ghost use Rattle.wkt_types.specs.Canonical.{canonical, third_number, fourth_number};
ghost use Rattle.wkt_types.specs.Tree.{tree};
ghost use Rattle.wkt_types.specs.Values.{value_of, tree_shape, IsWktOf};

use crate::coord::Coord;
use crate::geometry::{GeometryCollection, Wkt};
use crate::point::Point;
use std::mem;
use wkt_access::Dimension;

/// A part of a geometry, put under the header of the whole.
pub(crate) trait UnderHeader {
    /// The part under a header of this dimension.
    ghost under: { Dimension → Self → Self };

    fn put_under(&mut self, dim: Dimension)
        ensures { self.new ≡ under dim self.old };
}

/// Puts each part under the header.
#[tactic(auto, using(crate::proofs::TreeLemmas::replaced_next, crate::proofs::TreeLemmas::length_same))]
pub(crate) fn put_each_under<X: UnderHeader>(parts: &mut [X], dim: Dimension)
    ensures { parts.new ≡ map (X.under dim) parts.old }
{
    for part in parts.iter_mut() {
        part.put_under(dim);
    }
}

/// A part put under the header.
fn under<X: UnderHeader>(dim: Dimension, part: X) -> X
    ensures { result ≡ X.under dim part }
{
    let mut part = part;
    part.put_under(dim);
    part
}

/// The number after x and y, by which z and m are held.
pub fn third_number<T: Copy>(coord: &Coord<T>) -> Option<T>
    ensures { result ≡ third_number coord.now }
{
    match coord.z {
        Some(z) => Some(z),
        None => coord.m,
    }
}

/// The number after that.
pub fn fourth_number<T: Copy>(coord: &Coord<T>) -> Option<T>
    ensures { result ≡ fourth_number coord.now }
{
    match coord.z {
        Some(_) => coord.m,
        None => None,
    }
}

#[cycle(canonical)]
fn canonical_geometry<T: Copy + Drop>(geometry: Wkt<T>) -> Wkt<T>
    ensures { tree result ≡ canonical (tree geometry) }
{
    match geometry {
        Wkt::Point(p) => Wkt::Point(under(p.dimension(), p)),
        Wkt::LineString(l) => Wkt::LineString(under(l.dimension(), l)),
        Wkt::Polygon(y) => Wkt::Polygon(under(y.dimension(), y)),
        Wkt::MultiPoint(m) => Wkt::MultiPoint(under(m.dimension(), m)),
        Wkt::MultiLineString(m) => Wkt::MultiLineString(under(m.dimension(), m)),
        Wkt::MultiPolygon(m) => Wkt::MultiPolygon(under(m.dimension(), m)),
        Wkt::GeometryCollection(collection) => {
            let (members, dim) = collection.into_inner();
            let members = canonical_members(members);
            Wkt::GeometryCollection(GeometryCollection::new(members, dim))
        }
    }
}

// Each member is taken off, and put back in its place, so that no list has to grow.
#[cycle(canonical)]
fn canonical_members<T: Copy + Drop>(members: Vec<Wkt<T>>) -> Vec<Wkt<T>>
    ensures { map tree result.items ≡ map canonical (map tree members.items) }
{
    let mut members = members;
    for i in 0..members.len() {
        let nothing = Wkt::Point(Point::empty(Dimension::XY));
        let member = mem::replace(&mut members[i], nothing);
        members[i] = canonical_geometry(member);
    }
    members
}

impl<T: Copy + Drop> Wkt<T> {
    /// The one geometry of all that have its text: as that text is read. Each part has the
    /// dimension of its header and no number beyond it, under the header's letters; a polygon whose
    /// exterior is empty has no ring.
    ///
    /// So `POLYGON(EMPTY)` and `POLYGON EMPTY`, which are unequal under `==` and have one text, are
    /// equal after it. It takes no memory, and stack for each level of nested collections.
    ///
    /// ```text
    /// let one = Wkt::<i32>::from_str(alloc, "POLYGON(EMPTY)")?;
    /// let other = Wkt::<i32>::from_str(alloc, "POLYGON EMPTY")?;
    /// // one != other, and one.into_canonical() == other.into_canonical()
    /// ```
    pub fn into_canonical(self) -> Self
        ensures tree { tree result ≡ canonical (tree self) }
        ensures value { value_of (tree result) ≡ canon (tree_shape (tree self)) }
        ensures as_read { fault (tree_shape (tree self)) ≡ None → IsWktOf (canon (tree_shape (tree self))) (tree result) }
    {
        canonical_geometry(self)
    }
}
