//! How each flat type is written, and the `Wkt` that it has.
ghost use Rattle.std.specs.Prelude.{◌≡◌, IfOk};
ghost use Rattle.wkt_types.specs.Tree.{tree};
ghost use Rattle.wkt_flat.specs.Shape.{flat_shape};
ghost use Rattle.wkt_flat.specs.Tree.{Flat, flat_tree, flat_trees};
ghost use Rattle.wkt_write.specs.Writes.{Writes};
ghost use Rattle.wkt_convert.specs.Back.{back};

use crate::back::{geometries, geometry, point, two};
use crate::parts::{Turn, turn_all};
use std::alloc::{AllocError, Global};
use wkt_access::Error;
use wkt_flat as flat;
use wkt_num::{TextSink, WktNum};
use wkt_types::{Dimension, GeometryCollection, MultiLineString, MultiPoint, MultiPolygon, Wkt};
use wkt_write::{
    write_geometry, write_geometry_collection, write_line, write_linestring,
    write_multi_linestring, write_multi_point, write_multi_polygon, write_point, write_polygon,
    write_rect, write_triangle,
};

/// A flat value of one kind or of any, as a tree. The eleven flat types are such.
pub(crate) trait FlatValue {
    type T: WktNum;

    /// What it holds.
    ghost value: { Self → Flat Self.T };

    /// Writes its text.
    fn write_flat<W: TextSink>(&self, f: &mut W) -> Result<(), Error>
        ensures { Writes W.sink Self.T.is_value Self.T.num f.old (flat_shape (value self.now)) f.new result };

    /// Makes the `Wkt` of it.
    ///
    /// # Errors
    /// Out of memory.
    fn make_wkt(&self, alloc: Global) -> Result<Wkt<Self::T>, AllocError>
        ensures { IfOk result (λ w. tree w ≡ back (value self.now)) };
}

/// Its `Wkt` is a point.
impl<T: WktNum> FlatValue for flat::Point<T> {
    type T = T;

    ghost value = { λ x. Flat.point x };

    fn write_flat<W: TextSink>(&self, f: &mut W) -> Result<(), Error> {
        write_point(f, self)
    }

    #[inline(always)]
    fn make_wkt(&self, _alloc: Global) -> Result<Wkt<T>, AllocError> {
        Ok(Wkt::Point(point(*self)))
    }
}

/// Its `Wkt` is the line string of its two ends.
impl<T: WktNum> FlatValue for flat::Line<T> {
    type T = T;

    ghost value = { λ x. Flat.line x };

    fn write_flat<W: TextSink>(&self, f: &mut W) -> Result<(), Error> {
        write_line(f, self)
    }

    #[inline(always)]
    fn make_wkt(&self, alloc: Global) -> Result<Wkt<T>, AllocError> {
        Ok(Wkt::LineString(two(alloc, self)?))
    }
}

/// Its `Wkt` is a line string.
impl<T: WktNum> FlatValue for flat::LineString<T> {
    type T = T;

    ghost value = { λ x. Flat.line_string x };

    fn write_flat<W: TextSink>(&self, f: &mut W) -> Result<(), Error> {
        write_linestring(f, self)
    }

    #[inline(always)]
    #[tactic(auto, using(crate::proofs::FlatKinds::tree_line_string))]
    fn make_wkt(&self, alloc: Global) -> Result<Wkt<T>, AllocError> {
        Ok(Wkt::LineString(self.turn(alloc)?))
    }
}

/// Its `Wkt` is a polygon. One whose exterior is empty has no rings there; its interiors are dropped.
impl<T: WktNum> FlatValue for flat::Polygon<T> {
    type T = T;

    ghost value = { λ x. Flat.polygon x };

    fn write_flat<W: TextSink>(&self, f: &mut W) -> Result<(), Error> {
        write_polygon(f, self)
    }

    #[inline(always)]
    fn make_wkt(&self, alloc: Global) -> Result<Wkt<T>, AllocError> {
        Ok(Wkt::Polygon(self.turn(alloc)?))
    }
}

/// Its `Wkt` is a multipoint.
impl<T: WktNum> FlatValue for flat::MultiPoint<T> {
    type T = T;

    ghost value = { λ x. Flat.multi_point x };

    fn write_flat<W: TextSink>(&self, f: &mut W) -> Result<(), Error> {
        write_multi_point(f, self)
    }

    #[inline(always)]
    fn make_wkt(&self, alloc: Global) -> Result<Wkt<T>, AllocError> {
        let all = turn_all(alloc, &self.0)?;
        Ok(Wkt::MultiPoint(MultiPoint::new(all, Dimension::XY)))
    }
}

/// Its `Wkt` is a multi line string.
impl<T: WktNum> FlatValue for flat::MultiLineString<T> {
    type T = T;

    ghost value = { λ x. Flat.multi_line_string x };

    fn write_flat<W: TextSink>(&self, f: &mut W) -> Result<(), Error> {
        write_multi_linestring(f, self)
    }

    #[inline(always)]
    fn make_wkt(&self, alloc: Global) -> Result<Wkt<T>, AllocError> {
        let all = turn_all(alloc, &self.0)?;
        Ok(Wkt::MultiLineString(MultiLineString::new(all, Dimension::XY)))
    }
}

/// Its `Wkt` is a multi polygon. A member whose exterior is empty has no rings there.
impl<T: WktNum> FlatValue for flat::MultiPolygon<T> {
    type T = T;

    ghost value = { λ x. Flat.multi_polygon x };

    fn write_flat<W: TextSink>(&self, f: &mut W) -> Result<(), Error> {
        write_multi_polygon(f, self)
    }

    #[inline(always)]
    fn make_wkt(&self, alloc: Global) -> Result<Wkt<T>, AllocError> {
        let all = turn_all(alloc, &self.0)?;
        Ok(Wkt::MultiPolygon(MultiPolygon::new(all, Dimension::XY)))
    }
}

/// Its `Wkt` is a collection.
impl<T: WktNum> FlatValue for flat::GeometryCollection<T> {
    type T = T;

    ghost value = { λ x. Flat.collection (flat_trees x) };

    #[tactic(auto, using(wkt_access::proofs::Collections::gathered_each))]
    fn write_flat<W: TextSink>(&self, f: &mut W) -> Result<(), Error> {
        write_geometry_collection(f, self)
    }

    fn make_wkt(&self, alloc: Global) -> Result<Wkt<T>, AllocError> {
        let all = geometries(alloc, self.geometries())?;
        Ok(Wkt::GeometryCollection(GeometryCollection::new(all, Dimension::XY)))
    }
}

/// Its `Wkt` is the polygon of `to_polygon`.
impl<T: WktNum> FlatValue for flat::Rect<T> {
    type T = T;

    ghost value = { λ x. Flat.rect x };

    fn write_flat<W: TextSink>(&self, f: &mut W) -> Result<(), Error> {
        write_rect(f, self)
    }

    #[inline(always)]
    fn make_wkt(&self, alloc: Global) -> Result<Wkt<T>, AllocError> {
        Ok(Wkt::Polygon(self.to_polygon(alloc)?.turn(alloc)?))
    }
}

/// Its `Wkt` is the polygon of `to_polygon`.
impl<T: WktNum> FlatValue for flat::Triangle<T> {
    type T = T;

    ghost value = { λ x. Flat.triangle x };

    fn write_flat<W: TextSink>(&self, f: &mut W) -> Result<(), Error> {
        write_triangle(f, self)
    }

    #[inline(always)]
    fn make_wkt(&self, alloc: Global) -> Result<Wkt<T>, AllocError> {
        Ok(Wkt::Polygon(self.to_polygon(alloc)?.turn(alloc)?))
    }
}

/// Its `Wkt` is that of its kind: a polygon for a rectangle or a triangle, a line string for a line.
impl<T: WktNum> FlatValue for flat::Geometry<T> {
    type T = T;

    ghost value = { λ x. flat_tree x };

    fn write_flat<W: TextSink>(&self, f: &mut W) -> Result<(), Error> {
        write_geometry(f, self)
    }

    fn make_wkt(&self, alloc: Global) -> Result<Wkt<T>, AllocError> {
        geometry(alloc, self)
    }
}
