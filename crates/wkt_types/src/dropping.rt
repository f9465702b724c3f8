//! What the loop of `wkt_flat` that drops geometries asks of a `Wkt`.
use crate::geometry::{GeometryCollection, Wkt};
use wkt_access::Dimension;
use wkt_flat::dropping::Nested;

impl<T: Drop> Nested for Wkt<T> {
    ghost use Rattle.std.specs.Prelude.{◌≡◌};
    ghost use Rattle.wkt_flat.specs.Tree.{total};
    ghost use Rattle.wkt_types.specs.Tree.{inside};

    ghost inside = { inside };

    fn of_members(members: Vec<Self>) -> Self
        ensures { inside result ≡ total inside members.items }
    {
        Wkt::GeometryCollection(GeometryCollection::new(members, Dimension::XY))
    }

    fn into_members(self) -> Option<Vec<Self>> {
        match self {
            Wkt::GeometryCollection(collection) => Some(collection.into_inner().0),
            Wkt::Point(_) => None,
            Wkt::LineString(_) => None,
            Wkt::Polygon(_) => None,
            Wkt::MultiPoint(_) => None,
            Wkt::MultiLineString(_) => None,
            Wkt::MultiPolygon(_) => None,
        }
    }
}
