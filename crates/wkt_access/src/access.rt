//! The traits by which a geometry is accessed, and the enum that names its kind.
#![tactic(auto)]

ghost use Rattle.std.specs.Prelude.{◌≡◌, ◌<◌, ◌≤◌, List, length, slice_get, Option, MatchOption};
ghost use Rattle.wkt_access.specs.declared.dimensions.Dimensions.{Dimensions};
ghost use Rattle.wkt_access.specs.Parts.{IfPoint, IfLineString, IfPolygon, IfMultiPoint, IfMultiLineString, IfMultiPolygon, IfRect, IfTriangle, IfLine, IfCollection, IsCollectionOf, dimension_of, members_of};
ghost use Rattle.wkt_access.specs.Shapes.{size_of, PolygonShape, Shape};

use crate::dimensions::Dimensions;
use wkt_num::WktNum;

/// A coordinate: x and y, and whatever numbers follow them.
///
/// The numbers stand in the order x, y, then z where there is one, then m where there is one. A
/// writer prints as many of them as the header above the coordinate says, and drops spare ones.
pub trait CoordTrait {
    /// The type of its numbers.
    type T: WktNum;

    /// Its numbers in their order.
    ghost numbers: { Self → List Self.T };

    /// Which numbers they are.
    ghost dimension: { Self → Dimensions };

    /// Which numbers it has: its size is their count, which is at least two.
    fn dim(&self) -> Dimensions
        ensures which { result ≡ dimension self.now }
        ensures count { length (numbers self.now) ≡ size_of result }
        ensures two { 2 ≤ length (numbers self.now) };

    /// The first number.
    fn x(&self) -> Self::T
        ensures { slice_get (numbers self.now) 0 ≡ Some result };

    /// The second number.
    fn y(&self) -> Self::T
        ensures { slice_get (numbers self.now) 1 ≡ Some result };

    /// The number at place `n`, which is below the size: at 0 stands x, and at 1 stands y.
    fn nth(&self, n: usize) -> Self::T
        requires { n < length (numbers self.now) }
        ensures { slice_get (numbers self.now) n ≡ Some result };
}

/// A point, which has one coordinate or is empty.
pub trait PointTrait {
    /// The type of its numbers.
    type T: WktNum;

    /// The type of its coordinate.
    type CoordType: CoordTrait<T = Self::T>;

    /// The dimension of its header.
    ghost dimension: { Self → Dimensions };

    /// The numbers of its coordinate, if it has one.
    ghost coordinate: { Self → Option (List Self.T) };

    /// The dimension that its header is printed with.
    fn dim(&self) -> Dimensions
        ensures { result ≡ dimension self.now };

    /// Its coordinate, or `None` where it is empty.
    fn coord(&self) -> Option<&Self::CoordType>
        ensures { MatchOption result (coordinate self.now ≡ None)
            (λ c. coordinate self.now ≡ Some (Self.CoordType.numbers c.now)) };
}

/// A line string: a sequence of coordinates, or a ring of a polygon.
pub trait LineStringTrait {
    /// The type of its numbers.
    type T: WktNum;

    /// The type of its coordinates.
    type CoordType: CoordTrait<T = Self::T>;

    /// The dimension of its header.
    ghost dimension: { Self → Dimensions };

    /// The numbers of each coordinate in order.
    ghost coordinates: { Self → List (List Self.T) };

    /// The dimension that its header is printed with.
    fn dim(&self) -> Dimensions
        ensures { result ≡ dimension self.now };

    /// How many coordinates it has.
    fn num_coords(&self) -> usize
        ensures { result ≡ length (coordinates self.now) };

    /// The coordinate at place `i`, which is below the count.
    fn coord(&self, i: usize) -> &Self::CoordType
        requires { i < length (coordinates self.now) }
        ensures { slice_get (coordinates self.now) i ≡ Some (Self.CoordType.numbers result.now) };
}

/// A polygon: an exterior ring, or none, and rings around the holes in it.
pub trait PolygonTrait {
    /// The type of its numbers.
    type T: WktNum;

    /// The type of its rings.
    type RingType: LineStringTrait<T = Self::T>;

    /// The dimension of its header.
    ghost dimension: { Self → Dimensions };

    /// Its exterior and its interiors.
    ghost polygon: { Self → PolygonShape Self.T };

    /// The dimension that its header is printed with.
    fn dim(&self) -> Dimensions
        ensures { result ≡ dimension self.now };

    /// The ring around it, or `None`.
    fn exterior(&self) -> Option<&Self::RingType>
        ensures { MatchOption result ((polygon self.now).exterior ≡ None)
            (λ r. (polygon self.now).exterior ≡ Some (Self.RingType.coordinates r.now)) };

    /// How many rings around holes it has.
    fn num_interiors(&self) -> usize
        ensures { result ≡ length (polygon self.now).interiors };

    /// The ring around a hole at place `i`, which is below the count.
    fn interior(&self, i: usize) -> &Self::RingType
        requires { i < length (polygon self.now).interiors }
        ensures { slice_get (polygon self.now).interiors i ≡ Some (Self.RingType.coordinates result.now) };
}

/// A list of points, each of which may be empty.
pub trait MultiPointTrait {
    /// The type of its numbers.
    type T: WktNum;

    /// The type of its points.
    type InnerPointType: PointTrait<T = Self::T>;

    /// The dimension of its header.
    ghost dimension: { Self → Dimensions };

    /// The numbers of each point's coordinate in order, if it has one.
    ghost points: { Self → List (Option (List Self.T)) };

    /// The dimension that its header is printed with. That of a member isn't looked at.
    fn dim(&self) -> Dimensions
        ensures { result ≡ dimension self.now };

    /// How many points it has.
    fn num_points(&self) -> usize
        ensures { result ≡ length (points self.now) };

    /// The point at place `i`, which is below the count.
    fn point(&self, i: usize) -> &Self::InnerPointType
        requires { i < length (points self.now) }
        ensures { slice_get (points self.now) i ≡ Some (Self.InnerPointType.coordinate result.now) };
}

/// A list of line strings.
pub trait MultiLineStringTrait {
    /// The type of its numbers.
    type T: WktNum;

    /// The type of its line strings.
    type InnerLineStringType: LineStringTrait<T = Self::T>;

    /// The dimension of its header.
    ghost dimension: { Self → Dimensions };

    /// The coordinates of each line string in order.
    ghost line_strings: { Self → List (List (List Self.T)) };

    /// The dimension that its header is printed with. That of a member isn't looked at.
    fn dim(&self) -> Dimensions
        ensures { result ≡ dimension self.now };

    /// How many line strings it has.
    fn num_line_strings(&self) -> usize
        ensures { result ≡ length (line_strings self.now) };

    /// The line string at place `i`, which is below the count.
    fn line_string(&self, i: usize) -> &Self::InnerLineStringType
        requires { i < length (line_strings self.now) }
        ensures { slice_get (line_strings self.now) i ≡ Some (Self.InnerLineStringType.coordinates result.now) };
}

/// A list of polygons.
pub trait MultiPolygonTrait {
    /// The type of its numbers.
    type T: WktNum;

    /// The type of its polygons.
    type InnerPolygonType: PolygonTrait<T = Self::T>;

    /// The dimension of its header.
    ghost dimension: { Self → Dimensions };

    /// The rings of each polygon in order.
    ghost polygons: { Self → List (PolygonShape Self.T) };

    /// The dimension that its header is printed with. That of a member isn't looked at.
    fn dim(&self) -> Dimensions
        ensures { result ≡ dimension self.now };

    /// How many polygons it has.
    fn num_polygons(&self) -> usize
        ensures { result ≡ length (polygons self.now) };

    /// The polygon at place `i`, which is below the count.
    fn polygon(&self, i: usize) -> &Self::InnerPolygonType
        requires { i < length (polygons self.now) }
        ensures { slice_get (polygons self.now) i ≡ Some (Self.InnerPolygonType.polygon result.now) };
}

/// A rectangle with sides along the axes. It is written as a polygon of five coordinates.
pub trait RectTrait {
    /// The type of its numbers.
    type T: WktNum;

    /// The type of its corners.
    type CoordType: CoordTrait<T = Self::T>;

    /// The dimension of its header.
    ghost dimension: { Self → Dimensions };

    /// The numbers of the corner with the least x and y.
    ghost min_corner: { Self → List Self.T };

    /// The numbers of the corner with the greatest x and y.
    ghost max_corner: { Self → List Self.T };

    /// The dimension of its header. One of x and y alone can be written.
    fn dim(&self) -> Dimensions
        ensures { result ≡ dimension self.now };

    /// The corner with the least x and y.
    fn min(&self) -> &Self::CoordType
        ensures { Self.CoordType.numbers result.now ≡ min_corner self.now };

    /// The corner with the greatest x and y.
    fn max(&self) -> &Self::CoordType
        ensures { Self.CoordType.numbers result.now ≡ max_corner self.now };
}

/// A line between two coordinates. It is written as a line string.
pub trait LineTrait {
    /// The type of its numbers.
    type T: WktNum;

    /// The type of its ends.
    type CoordType: CoordTrait<T = Self::T>;

    /// The dimension of its header.
    ghost dimension: { Self → Dimensions };

    /// The numbers of the end that it starts at.
    ghost from: { Self → List Self.T };

    /// The numbers of the other end.
    ghost to: { Self → List Self.T };

    /// The dimension that its header is printed with.
    fn dim(&self) -> Dimensions
        ensures { result ≡ dimension self.now };

    /// The end that it starts at.
    fn start(&self) -> &Self::CoordType
        ensures { Self.CoordType.numbers result.now ≡ from self.now };

    /// The other end.
    fn end(&self) -> &Self::CoordType
        ensures { Self.CoordType.numbers result.now ≡ to self.now };
}

/// A triangle. It is written as a polygon of its three corners and the first again.
pub trait TriangleTrait {
    /// The type of its numbers.
    type T: WktNum;

    /// The type of its corners.
    type CoordType: CoordTrait<T = Self::T>;

    /// The dimension of its header.
    ghost dimension: { Self → Dimensions };

    /// The numbers of the first corner.
    ghost first_corner: { Self → List Self.T };

    /// The numbers of the second corner.
    ghost second_corner: { Self → List Self.T };

    /// The numbers of the third corner.
    ghost third_corner: { Self → List Self.T };

    /// The dimension that its header is printed with.
    fn dim(&self) -> Dimensions
        ensures { result ≡ dimension self.now };

    /// The first corner.
    fn first(&self) -> &Self::CoordType
        ensures { Self.CoordType.numbers result.now ≡ first_corner self.now };

    /// The second corner.
    fn second(&self) -> &Self::CoordType
        ensures { Self.CoordType.numbers result.now ≡ second_corner self.now };

    /// The third corner.
    fn third(&self) -> &Self::CoordType
        ensures { Self.CoordType.numbers result.now ≡ third_corner self.now };
}

/// The kind of a geometry, and the geometry as one of that kind.
///
/// A collection has no part here: its members come from [`GeometryTrait::geometry`].
#[derive(Clone, Copy)]
pub enum GeometryType<'a, P, L, Y, MP, ML, MY, R, T, N> {
    /// A point.
    Point(&'a P),
    /// A line string.
    LineString(&'a L),
    /// A polygon.
    Polygon(&'a Y),
    /// A list of points.
    MultiPoint(&'a MP),
    /// A list of line strings.
    MultiLineString(&'a ML),
    /// A list of polygons.
    MultiPolygon(&'a MY),
    /// A collection of so many geometries.
    GeometryCollection(usize),
    /// A rectangle.
    Rect(&'a R),
    /// A triangle.
    Triangle(&'a T),
    /// A line between two coordinates.
    Line(&'a N),
}

/// A geometry of any kind.
///
/// The members of a collection are of the geometry's own type, so collections nest at one type. For
/// a representation that has members, this crate's `proofs/Collections` has the lemmas by which
/// `as_type` and `geometry` are proved.
pub trait GeometryTrait {
    /// The type of its numbers.
    type T: WktNum;

    /// What it is accessed as where it is a point.
    type PointType: PointTrait<T = Self::T>;

    /// What it is accessed as where it is a line string.
    type LineStringType: LineStringTrait<T = Self::T>;

    /// What it is accessed as where it is a polygon.
    type PolygonType: PolygonTrait<T = Self::T>;

    /// What it is accessed as where it is a list of points.
    type MultiPointType: MultiPointTrait<T = Self::T>;

    /// What it is accessed as where it is a list of line strings.
    type MultiLineStringType: MultiLineStringTrait<T = Self::T>;

    /// What it is accessed as where it is a list of polygons.
    type MultiPolygonType: MultiPolygonTrait<T = Self::T>;

    /// What it is accessed as where it is a rectangle.
    type RectType: RectTrait<T = Self::T>;

    /// What it is accessed as where it is a triangle.
    type TriangleType: TriangleTrait<T = Self::T>;

    /// What it is accessed as where it is a line between two coordinates.
    type LineType: LineTrait<T = Self::T>;

    /// Its kind, its dimension and its parts.
    ghost shape: { Self → Shape Self.T };

    /// The dimension of its header, which the part in [`as_type`](Self::as_type) has as well.
    fn dim(&self) -> Dimensions
        ensures { result ≡ dimension_of (shape self.now) };

    /// Its kind, with the part that is it; for a collection, the count of its members.
    fn as_type(
        &self,
    ) -> GeometryType<
        '_,
        Self::PointType,
        Self::LineStringType,
        Self::PolygonType,
        Self::MultiPointType,
        Self::MultiLineStringType,
        Self::MultiPolygonType,
        Self::RectType,
        Self::TriangleType,
        Self::LineType,
    >
        ensures point { IfPoint result
            (λ p. shape self.now ≡ Shape.point (Self.PointType.dimension p) (Self.PointType.coordinate p)) }
        ensures line_string { IfLineString result (λ p. shape self.now
            ≡ Shape.line_string (Self.LineStringType.dimension p) (Self.LineStringType.coordinates p)) }
        ensures polygon { IfPolygon result
            (λ p. shape self.now ≡ Shape.polygon (Self.PolygonType.dimension p) (Self.PolygonType.polygon p)) }
        ensures multi_point { IfMultiPoint result
            (λ p. shape self.now ≡ Shape.multi_point (Self.MultiPointType.dimension p) (Self.MultiPointType.points p)) }
        ensures multi_line_string { IfMultiLineString result (λ p. shape self.now
            ≡ Shape.multi_line_string (Self.MultiLineStringType.dimension p) (Self.MultiLineStringType.line_strings p)) }
        ensures multi_polygon { IfMultiPolygon result (λ p. shape self.now
            ≡ Shape.multi_polygon (Self.MultiPolygonType.dimension p) (Self.MultiPolygonType.polygons p)) }
        ensures rect { IfRect result (λ p. shape self.now
            ≡ Shape.rect (Self.RectType.dimension p) (Self.RectType.min_corner p) (Self.RectType.max_corner p)) }
        ensures triangle { IfTriangle result (λ p. shape self.now
            ≡ Shape.triangle (Self.TriangleType.dimension p) (Self.TriangleType.first_corner p)
            (Self.TriangleType.second_corner p) (Self.TriangleType.third_corner p)) }
        ensures line { IfLine result
            (λ p. shape self.now ≡ Shape.line (Self.LineType.dimension p) (Self.LineType.from p) (Self.LineType.to p)) }
        ensures collection { IfCollection result (λ count. IsCollectionOf count (shape self.now)) };

    /// The member of a collection at place `i`, which is below the count. Other kinds have no members.
    /// An implementation that is never a collection returns `self` and writes another clause,
    /// `ensures { result.now ≡ self.now }`: it would else inherit a `requires` that no call meets.
    fn geometry(&self, i: usize) -> &Self
        requires { i < length (members_of (shape self.now)) }
        ensures { slice_get (members_of (shape self.now)) i ≡ Some (shape result.now) };
}

/// A collection of geometries by itself.
pub trait GeometryCollectionTrait {
    /// The type of its numbers.
    type T: WktNum;

    /// The type of its members.
    type GeometryType: GeometryTrait<T = Self::T>;

    /// The dimension of its header.
    ghost dimension: { Self → Dimensions };

    /// The shapes of its members in order: `map G.shape` of a list of members of the type `G`.
    ghost geometries: { Self → List (Shape Self.T) };

    /// The dimension that its header is printed with. Each member has a header of its own.
    fn dim(&self) -> Dimensions
        ensures { result ≡ dimension self.now };

    /// How many members it has.
    fn num_geometries(&self) -> usize
        ensures { result ≡ length (geometries self.now) };

    /// The member at place `i`, which is below the count.
    /// An implementation that never has members writes an `ensures` of its own here, for the reason
    /// given at [`GeometryTrait::geometry`].
    fn geometry(&self, i: usize) -> &Self::GeometryType
        requires { i < length (geometries self.now) }
        ensures { slice_get (geometries self.now) i ≡ Some (Self.GeometryType.shape result.now) };
}
