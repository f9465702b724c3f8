//! The parts of a geometry that stand in parentheses, and the numbers of a coordinate.

/// What stands in parentheses, or is EMPTY.
#[derive(Clone, Copy, PartialEq, Eq)]
pub enum Part {
    // Whole geometries.
    Point,
    LineString,
    Polygon,
    MultiPoint,
    MultiLineString,
    MultiPolygon,
    Collection,
    /// A point of a multipoint.
    Member,
    /// A point of a multipoint without parentheses.
    Bare,
    /// A ring of a polygon.
    Ring,
    /// A line of a multilinestring.
    Line,
    /// A polygon of a multipolygon.
    Area,
    /// A ring of such a polygon.
    AreaRing,
}

/// A number of a coordinate.
#[derive(Clone, Copy, PartialEq, Eq)]
pub enum Axis {
    X,
    Y,
    Z,
    M,
}
