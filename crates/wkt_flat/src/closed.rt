//! That the rings of every polygon are closed, as a fact of whole geometries.
ghost use Rattle.std.specs.List.{AllByRecursion};
ghost use Rattle.wkt_flat.specs.Rings.{AreClosed};
ghost use Rattle.wkt_flat.specs.Tree.{flat_tree, flat_trees, HasClosedRings, HaveClosedRings};

use crate::geometry::{Geometry, GeometryCollection};
use crate::polygon::Polygon;

fn polygon_is_closed<T>(polygon: &Polygon<T>)
    ensures { AreClosed polygon.now.exterior polygon.now.interiors }
{
    polygon.exterior();
    polygon.interiors();
}

fn polygons_are_closed<T>(polygons: &[Polygon<T>])
    ensures { AllByRecursion (λ y. AreClosed y.exterior y.interiors) polygons.now }
{
    for polygon in polygons {
        polygon_is_closed(polygon);
    }
}

#[cycle(closed)]
fn geometry_is_closed<T>(geometry: &Geometry<T>)
    ensures { HasClosedRings (flat_tree geometry.now) }
{
    match geometry {
        Geometry::Polygon(y) => polygon_is_closed(y),
        Geometry::MultiPolygon(m) => polygons_are_closed(&m.0),
        Geometry::GeometryCollection(c) => collection_is_closed(c),
        Geometry::Point(_)
        | Geometry::Line(_)
        | Geometry::LineString(_)
        | Geometry::MultiPoint(_)
        | Geometry::MultiLineString(_)
        | Geometry::Rect(_)
        | Geometry::Triangle(_) => {}
    }
}

#[cycle(closed)]
fn collection_is_closed<T>(collection: &GeometryCollection<T>)
    ensures { HaveClosedRings (flat_trees collection.now) }
{
    members_are_closed(&collection.0);
}

#[cycle(closed)]
fn members_are_closed<T>(members: &[Geometry<T>])
    ensures { AllByRecursion (λ g. HasClosedRings (flat_tree g)) members.now }
{
    for member in members {
        geometry_is_closed(member);
    }
}

/// Each ring of each polygon of a geometry is empty or ends with its first coordinate, at any depth
/// of collections. It walks over the geometry, and changes nothing.
pub fn rings_are_closed<T>(geometry: &Geometry<T>)
    ensures { HasClosedRings (flat_tree geometry.now) }
{
    geometry_is_closed(geometry);
}
