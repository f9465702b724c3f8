//! Conversions that may take memory: the types of well-known text into flat ones.
ghost use Rattle.std.specs.Prelude.{Result};
ghost use Rattle.wkt_types.specs.Tree.{tree, collection_tree};
ghost use Rattle.wkt_types.specs.declared.convert.ConvertError.{ConvertError};
ghost use Rattle.wkt_types.specs.Outcome.{Answers, value};
ghost use Rattle.wkt_flat.specs.Tree.{Flat, flat_tree, flat_trees};
ghost use Rattle.wkt_flat.specs.Equal.{coord_eq};
ghost use Rattle.wkt_convert.specs.Flatten.{outcome_map, sequence, rings, points, flat, flat_all, trees_in};

use crate::flatten::{all_points, collection};
use crate::parts::{Turn, turn_all};
use std::alloc::Global;
use wkt_flat as flat;
use wkt_flat::Geometry;
use wkt_num::WktNum;
use wkt_types as types;
use wkt_types::{ConvertError, Wkt};

/// A conversion that may take memory.
///
/// From a type of well-known text to a flat one z, m and dimensions are dropped, the order is kept,
/// and the rings of polygons are closed.
pub trait ConvertFrom<S>: Sized {
    /// Which answers a source may have.
    ghost converts: { S → Result Self ConvertError → Type 0 };

    /// The value that the source is converted to. A source that is refused is dropped.
    ///
    /// # Errors
    /// `PointConversionError` for a multipoint with an empty member, `MismatchedGeometry` where the
    /// source is of another kind than this type, `Memory` when out of memory.
    fn convert_from(alloc: Global, source: S) -> Result<Self, ConvertError>
        ensures { converts source result };
}

/// The geometry of any kind. An empty point becomes an empty multipoint.
///
/// ```text
/// let wkt = Wkt::<i32>::from_str(alloc, "POINT Z(1 2 3)")?;
/// let flat = try_into_geometry(alloc, &wkt)?;
/// // POINT(1 2)
/// ```
///
/// # Errors
/// `PointConversionError` where it holds a multipoint with an empty member, for the first one;
/// `Memory`.
pub fn try_into_geometry<T: WktNum>(
    alloc: Global,
    geometry: &Wkt<T>,
) -> Result<Geometry<T>, ConvertError>
    ensures { Answers flat_tree (flat (coord_eq T.eq) (tree geometry.now)) result }
{
    crate::flatten::geometry(alloc, geometry)
}

/// The members of the collection as a `Geometry::GeometryCollection`.
///
/// # Errors
/// `PointConversionError` where a member holds a multipoint with an empty member, for the first one;
/// `Memory`.
pub fn try_into_geometry_collection<T: WktNum>(
    alloc: Global,
    geometry_collection: &types::GeometryCollection<T>,
) -> Result<Geometry<T>, ConvertError>
    ensures { Answers flat_tree
        (outcome_map Flat.collection (flat_all (coord_eq T.eq) (trees_in (collection_tree geometry_collection.now))))
        result }
{
    Ok(Geometry::GeometryCollection(collection(alloc, geometry_collection.geometries())?))
}

impl<T: WktNum> ConvertFrom<types::LineString<T>> for flat::LineString<T> {
    ghost converts = { λ l r. Answers (λ x. x) (value (sequence l)) r };

    fn convert_from(alloc: Global, source: types::LineString<T>) -> Result<Self, ConvertError> {
        Ok(source.turn(alloc)?)
    }
}

impl<T: WktNum> ConvertFrom<types::Polygon<T>> for flat::Polygon<T> {
    ghost converts = { λ y r. Answers (λ x. x) (value (rings (coord_eq T.eq) y)) r };

    fn convert_from(alloc: Global, source: types::Polygon<T>) -> Result<Self, ConvertError> {
        Ok(source.turn(alloc)?)
    }
}

impl<T: WktNum> ConvertFrom<types::MultiPoint<T>> for flat::MultiPoint<T> {
    ghost converts = { λ m r. Answers (λ x. x) (points m.parts) r };

    fn convert_from(alloc: Global, source: types::MultiPoint<T>) -> Result<Self, ConvertError> {
        Ok(all_points(alloc, source.points())?)
    }
}

impl<T: WktNum> ConvertFrom<types::MultiLineString<T>> for flat::MultiLineString<T> {
    ghost use Rattle.std.specs.Prelude.{map};

    ghost converts = { λ m r. Answers (λ x. x) (value (map sequence m.parts)) r };

    fn convert_from(
        alloc: Global,
        source: types::MultiLineString<T>,
    ) -> Result<Self, ConvertError> {
        Ok(flat::MultiLineString(turn_all(alloc, source.line_strings())?))
    }
}

impl<T: WktNum> ConvertFrom<types::MultiPolygon<T>> for flat::MultiPolygon<T> {
    ghost use Rattle.std.specs.Prelude.{map};

    ghost converts = { λ m r. Answers (λ x. x) (value (map (rings (coord_eq T.eq)) m.parts)) r };

    fn convert_from(alloc: Global, source: types::MultiPolygon<T>) -> Result<Self, ConvertError> {
        Ok(flat::MultiPolygon(turn_all(alloc, source.polygons())?))
    }
}

impl<T: WktNum> ConvertFrom<types::GeometryCollection<T>> for flat::GeometryCollection<T> {
    ghost converts = { λ c r. Answers flat_trees (flat_all (coord_eq T.eq) (trees_in (collection_tree c))) r };

    fn convert_from(
        alloc: Global,
        source: types::GeometryCollection<T>,
    ) -> Result<Self, ConvertError> {
        collection(alloc, source.geometries())
    }
}

impl<T: WktNum> ConvertFrom<&types::LineString<T>> for Geometry<T> {
    ghost converts = { λ l r. Answers flat_tree (value (Flat.line_string (sequence l.now))) r };

    fn convert_from(alloc: Global, source: &types::LineString<T>) -> Result<Self, ConvertError> {
        Ok(Geometry::LineString(source.turn(alloc)?))
    }
}

impl<T: WktNum> ConvertFrom<&types::Polygon<T>> for Geometry<T> {
    ghost converts = { λ y r. Answers flat_tree (value (Flat.polygon (rings (coord_eq T.eq) y.now))) r };

    fn convert_from(alloc: Global, source: &types::Polygon<T>) -> Result<Self, ConvertError> {
        Ok(Geometry::Polygon(source.turn(alloc)?))
    }
}

impl<T: WktNum> ConvertFrom<&types::MultiPoint<T>> for Geometry<T> {
    ghost converts = { λ m r. Answers flat_tree (outcome_map Flat.multi_point (points m.now.parts)) r };

    fn convert_from(alloc: Global, source: &types::MultiPoint<T>) -> Result<Self, ConvertError> {
        Ok(Geometry::MultiPoint(all_points(alloc, source.points())?))
    }
}

impl<T: WktNum> ConvertFrom<&types::MultiLineString<T>> for Geometry<T> {
    ghost use Rattle.std.specs.Prelude.{map};

    ghost converts = { λ m r. Answers flat_tree (value (Flat.multi_line_string (map sequence m.now.parts))) r };

    fn convert_from(
        alloc: Global,
        source: &types::MultiLineString<T>,
    ) -> Result<Self, ConvertError> {
        Ok(Geometry::MultiLineString(flat::MultiLineString(turn_all(
            alloc,
            source.line_strings(),
        )?)))
    }
}

impl<T: WktNum> ConvertFrom<&types::MultiPolygon<T>> for Geometry<T> {
    ghost use Rattle.std.specs.Prelude.{map};

    ghost converts = { λ m r. Answers flat_tree
        (value (Flat.multi_polygon (map (rings (coord_eq T.eq)) m.now.parts))) r };

    fn convert_from(alloc: Global, source: &types::MultiPolygon<T>) -> Result<Self, ConvertError> {
        Ok(Geometry::MultiPolygon(flat::MultiPolygon(turn_all(alloc, source.polygons())?)))
    }
}
