//! What a geometry of any kind is as a flat value, before a kind is asked for.
ghost use Rattle.std.specs.Prelude.{◌≡◌, codes};
ghost use Rattle.wkt_types.specs.Outcome.{Answers, refused, mismatched};
ghost use Rattle.wkt_flat.specs.Equal.{coord_eq};
ghost use Rattle.wkt_flat.specs.Tree.{flat_tree, flat_trees};
ghost use Rattle.wkt_convert.specs.Flatten.{flat, flat_collection};
ghost use Rattle.wkt_convert.specs.Kinds.{AnswersAny, found_name};

use wkt_flat::{Geometry, GeometryCollection};
use wkt_num::WktNum;
use wkt_types::ConvertError;

/// A kind of well-known text that is no collection.
#[derive(Clone, Copy, Debug, Drop)]
pub enum Found {
    Point,
    LineString,
    Polygon,
    MultiPoint,
    MultiLineString,
    MultiPolygon,
}

impl Found {
    /// Its plain name.
    fn name(self) -> &'static str
        ensures { result.now ≡ found_name self }
    {
        match self {
            Found::Point => "Point",
            Found::LineString => "LineString",
            Found::Polygon => "Polygon",
            Found::MultiPoint => "MultiPoint",
            Found::MultiLineString => "MultiLineString",
            Found::MultiPolygon => "MultiPolygon",
        }
    }
}

/// What a geometry of any kind is as a flat value, or why it has none. Its kind matters to those that ask for one.
#[derive(Drop)]
pub enum Flattened<T> {
    /// A collection.
    Collection(GeometryCollection<T>),
    /// A collection in which an empty point stands in a multipoint.
    RefusedCollection,
    /// A geometry of another kind.
    Other(Geometry<T>, Found),
    /// A multipoint in which an empty point stands.
    RefusedMultiPoint,
}

/// The error of what is no collection where one is asked for.
fn no_collection<X>(found: Found) -> Result<X, ConvertError>
    ensures { Answers (λ x. x) (refused (mismatched (codes "GeometryCollection") (found_name found))) result }
{
    Err(ConvertError::MismatchedGeometry {
        expected: "GeometryCollection",
        found: found.name(),
    })
}

impl<T: WktNum> Flattened<T> {
    /// The geometry.
    ///
    /// # Errors
    /// `PointConversionError` where an empty point stands in a multipoint.
    pub(crate) fn into_geometry(self) -> Result<Geometry<T>, ConvertError>
        ensures { AnswersAny (coord_eq T.eq) self flat_tree (flat (coord_eq T.eq)) result }
    {
        match self {
            Flattened::Collection(collection) => Ok(Geometry::GeometryCollection(collection)),
            Flattened::Other(geometry, _) => Ok(geometry),
            Flattened::RefusedCollection | Flattened::RefusedMultiPoint => {
                Err(ConvertError::PointConversionError)
            }
        }
    }

    /// The collection, if it is one.
    ///
    /// # Errors
    /// `MismatchedGeometry` where it is of another kind; `PointConversionError` where an empty point stands in a
    /// multipoint of the collection.
    pub(crate) fn into_collection(self) -> Result<GeometryCollection<T>, ConvertError>
        ensures { AnswersAny (coord_eq T.eq) self flat_trees (flat_collection (coord_eq T.eq)) result }
    {
        match self {
            Flattened::Collection(collection) => Ok(collection),
            Flattened::RefusedCollection => Err(ConvertError::PointConversionError),
            Flattened::Other(_, found) => no_collection(found),
            Flattened::RefusedMultiPoint => no_collection(Found::MultiPoint),
        }
    }
}
