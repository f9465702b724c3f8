//! Conversions of a `Wkt` of any kind into flat values.
ghost use Rattle.wkt_types.specs.Tree.{Tree, tree};
ghost use Rattle.wkt_types.specs.Outcome.{Outcome, Answers, refused, mismatched};
ghost use Rattle.wkt_flat.specs.Tree.{Flat, Flats, flat_tree, flat_trees};
ghost use Rattle.wkt_flat.specs.Equal.{coord_eq};
ghost use Rattle.wkt_convert.specs.Flatten.{flat, flat_collection};
ghost use Rattle.wkt_convert.specs.Kinds.{AnswersAny, FlatKind, IsOfKind, only_flat, flat_name, point_kind, line_kind, line_string_kind, polygon_kind, multi_point_kind, multi_line_string_kind, multi_polygon_kind, rect_kind, triangle_kind};

use crate::convert::ConvertFrom;
use crate::flatten;
use crate::flattened::Flattened;
use std::alloc::Global;
use wkt_flat as flat;
use wkt_flat::Geometry;
use wkt_num::WktNum;
use wkt_types::{ConvertError, Wkt};

/// A type that a `Wkt` of any kind is converted to. The eleven flat types are such.
pub trait FromAny: Sized {
    type T: WktNum;

    /// What a value holds.
    ghost Content: { Type 0 };

    ghost content: { Self → Content };

    /// What a value holds of a tree, or the named error.
    ghost outcome: { Tree Self.T → Outcome Content };

    /// The value that the `Wkt` is converted to.
    ///
    /// # Errors
    /// Those of `ConvertFrom::convert_from`.
    fn from_any(alloc: Global, source: &Wkt<Self::T>) -> Result<Self, ConvertError>
        ensures { Answers content (outcome (tree source.now)) result };

    /// The value of a geometry that was read as a flat one.
    ///
    /// # Errors
    /// Those of `from_any`, but for memory.
    fn from_flattened(source: Flattened<Self::T>) -> Result<Self, ConvertError>
        ensures { AnswersAny (coord_eq Self.T.eq) source content outcome result };
}

/// The eleven flat types.
impl<T: WktNum, G: FromAny<T = T>> ConvertFrom<Wkt<T>> for G {
    ghost converts = { λ w r. Answers G.content (G.outcome (tree w)) r };

    fn convert_from(alloc: Global, source: Wkt<T>) -> Result<Self, ConvertError> {
        G::from_any(alloc, &source)
    }
}

impl<T: WktNum> FromAny for Geometry<T> {
    type T = T;

    ghost Content = { Flat T };

    ghost content = { flat_tree };

    ghost outcome = { flat (coord_eq T.eq) };

    fn from_any(alloc: Global, source: &Wkt<T>) -> Result<Self, ConvertError> {
        flatten::geometry(alloc, source)
    }

    fn from_flattened(source: Flattened<T>) -> Result<Self, ConvertError>
        ensures { AnswersAny (coord_eq T.eq) source flat_tree (flat (coord_eq T.eq)) result }
    {
        source.into_geometry()
    }
}

/// The members of a collection. A `Wkt` of another kind is refused at once, before it is converted.
impl<T: WktNum> FromAny for flat::GeometryCollection<T> {
    type T = T;

    ghost Content = { Flats T };

    ghost content = { flat_trees };

    ghost outcome = { flat_collection (coord_eq T.eq) };

    fn from_any(alloc: Global, source: &Wkt<T>) -> Result<Self, ConvertError> {
        let found = match source {
            Wkt::GeometryCollection(c) => return flatten::collection(alloc, c.geometries()),
            Wkt::Point(_) => "Point",
            Wkt::LineString(_) => "LineString",
            Wkt::Polygon(_) => "Polygon",
            Wkt::MultiPoint(_) => "MultiPoint",
            Wkt::MultiLineString(_) => "MultiLineString",
            Wkt::MultiPolygon(_) => "MultiPolygon",
        };
        Err(ConvertError::MismatchedGeometry {
            expected: "GeometryCollection",
            found,
        })
    }

    fn from_flattened(source: Flattened<T>) -> Result<Self, ConvertError>
        ensures { AnswersAny (coord_eq T.eq) source flat_trees (flat_collection (coord_eq T.eq)) result }
    {
        source.into_collection()
    }
}

/// A flat type of one kind. The whole `Wkt` is converted first, so a refused member is reported before a mismatch.
pub(crate) trait OneKind: Sized {
    type T: WktNum;

    ghost kind: { FlatKind Self.T Self };

    /// The value of the geometry, if it is of this kind.
    ///
    /// # Errors
    /// `MismatchedGeometry`.
    fn of_kind(geometry: Geometry<Self::T>) -> Result<Self, ConvertError>
        ensures { IsOfKind kind (flat_tree geometry) result };
}

impl<T: WktNum, G: OneKind<T = T>> FromAny for G {
    type T = T;

    ghost Content = { G };

    ghost content = { λ x. x };

    ghost outcome = { only_flat G.kind T.eq };

    fn from_any(alloc: Global, source: &Wkt<T>) -> Result<Self, ConvertError> {
        G::of_kind(flatten::geometry(alloc, source)?)
    }

    fn from_flattened(source: Flattened<T>) -> Result<Self, ConvertError>
        ensures { AnswersAny (coord_eq T.eq) source (λ x. x) (only_flat G.kind T.eq) result }
    {
        G::of_kind(source.into_geometry()?)
    }
}

/// The error of a geometry that isn't of the kind asked for.
///
/// # Errors
/// `MismatchedGeometry` always: `expected` as given, and the name of the type that was found.
pub fn mismatch<T, X>(expected: &'static str, found: &Geometry<T>) -> Result<X, ConvertError>
    ensures { Answers (λ x. x) (refused (mismatched expected.now (flat_name (flat_tree found.now)))) result }
{
    let found = match found {
        Geometry::Point(_) => "Point",
        Geometry::Line(_) => "Line",
        Geometry::LineString(_) => "LineString",
        Geometry::Polygon(_) => "Polygon",
        Geometry::MultiPoint(_) => "MultiPoint",
        Geometry::MultiLineString(_) => "MultiLineString",
        Geometry::MultiPolygon(_) => "MultiPolygon",
        Geometry::GeometryCollection(_) => "GeometryCollection",
        Geometry::Rect(_) => "Rect",
        Geometry::Triangle(_) => "Triangle",
    };
    Err(ConvertError::MismatchedGeometry { expected, found })
}

/// `mismatch` of a geometry that is then dropped: in one place, since dropping is long.
fn refuse<T: WktNum, X>(expected: &'static str, found: Geometry<T>) -> Result<X, ConvertError>
    ensures { Answers (λ x. x) (refused (mismatched expected.now (flat_name (flat_tree found)))) result }
{
    mismatch(expected, &found)
}

/// A point. An empty one is a `MultiPoint` as a geometry, and so is refused as `MismatchedGeometry`.
impl<T: WktNum> OneKind for flat::Point<T> {
    type T = T;

    ghost kind = { point_kind };

    #[tactic(auto, using(crate::proofs::FlatKinds::no_point))]
    fn of_kind(geometry: Geometry<T>) -> Result<Self, ConvertError>
        ensures { IsOfKind point_kind (flat_tree geometry) result }
    {
        match geometry {
            Geometry::Point(x) => Ok(x),
            other => refuse("Point", other),
        }
    }
}

/// No `Wkt` becomes a line: where the geometry can be converted, the answer is `MismatchedGeometry`.
impl<T: WktNum> OneKind for flat::Line<T> {
    type T = T;

    ghost kind = { line_kind };

    #[tactic(auto, using(crate::proofs::FlatKinds::no_line))]
    fn of_kind(geometry: Geometry<T>) -> Result<Self, ConvertError>
        ensures { IsOfKind line_kind (flat_tree geometry) result }
    {
        match geometry {
            Geometry::Line(x) => Ok(x),
            other => refuse("Line", other),
        }
    }
}

impl<T: WktNum> OneKind for flat::LineString<T> {
    type T = T;

    ghost kind = { line_string_kind };

    #[tactic(auto, using(crate::proofs::FlatKinds::no_line_string))]
    fn of_kind(geometry: Geometry<T>) -> Result<Self, ConvertError>
        ensures { IsOfKind line_string_kind (flat_tree geometry) result }
    {
        match geometry {
            Geometry::LineString(x) => Ok(x),
            other => refuse("LineString", other),
        }
    }
}

impl<T: WktNum> OneKind for flat::Polygon<T> {
    type T = T;

    ghost kind = { polygon_kind };

    #[tactic(auto, using(crate::proofs::FlatKinds::no_rings))]
    fn of_kind(geometry: Geometry<T>) -> Result<Self, ConvertError>
        ensures { IsOfKind polygon_kind (flat_tree geometry) result }
    {
        match geometry {
            Geometry::Polygon(x) => Ok(x),
            other => refuse("Polygon", other),
        }
    }
}

impl<T: WktNum> OneKind for flat::MultiPoint<T> {
    type T = T;

    ghost kind = { multi_point_kind };

    #[tactic(auto, using(crate::proofs::FlatKinds::no_points))]
    fn of_kind(geometry: Geometry<T>) -> Result<Self, ConvertError>
        ensures { IsOfKind multi_point_kind (flat_tree geometry) result }
    {
        match geometry {
            Geometry::MultiPoint(x) => Ok(x),
            other => refuse("MultiPoint", other),
        }
    }
}

impl<T: WktNum> OneKind for flat::MultiLineString<T> {
    type T = T;

    ghost kind = { multi_line_string_kind };

    #[tactic(auto, using(crate::proofs::FlatKinds::no_line_strings))]
    fn of_kind(geometry: Geometry<T>) -> Result<Self, ConvertError>
        ensures { IsOfKind multi_line_string_kind (flat_tree geometry) result }
    {
        match geometry {
            Geometry::MultiLineString(x) => Ok(x),
            other => refuse("MultiLineString", other),
        }
    }
}

impl<T: WktNum> OneKind for flat::MultiPolygon<T> {
    type T = T;

    ghost kind = { multi_polygon_kind };

    #[tactic(auto, using(crate::proofs::FlatKinds::no_polygons))]
    fn of_kind(geometry: Geometry<T>) -> Result<Self, ConvertError>
        ensures { IsOfKind multi_polygon_kind (flat_tree geometry) result }
    {
        match geometry {
            Geometry::MultiPolygon(x) => Ok(x),
            other => refuse("MultiPolygon", other),
        }
    }
}

/// No `Wkt` becomes a rectangle, as none becomes a line.
impl<T: WktNum> OneKind for flat::Rect<T> {
    type T = T;

    ghost kind = { rect_kind };

    #[tactic(auto, using(crate::proofs::FlatKinds::no_corners))]
    fn of_kind(geometry: Geometry<T>) -> Result<Self, ConvertError>
        ensures { IsOfKind rect_kind (flat_tree geometry) result }
    {
        match geometry {
            Geometry::Rect(x) => Ok(x),
            other => refuse("Rect", other),
        }
    }
}

/// No `Wkt` becomes a triangle, as none becomes a line.
impl<T: WktNum> OneKind for flat::Triangle<T> {
    type T = T;

    ghost kind = { triangle_kind };

    #[tactic(auto, using(crate::proofs::FlatKinds::no_triangle))]
    fn of_kind(geometry: Geometry<T>) -> Result<Self, ConvertError>
        ensures { IsOfKind triangle_kind (flat_tree geometry) result }
    {
        match geometry {
            Geometry::Triangle(x) => Ok(x),
            other => refuse("Triangle", other),
        }
    }
}
