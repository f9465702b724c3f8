//! The kinds of geometries.

/// The kind of a geometry, as the word that a text begins with names it.
#[derive(Clone, Copy, PartialEq, Eq, Hash, Debug)]
pub enum GeometryType {
    /// `POINT`.
    Point,
    /// `LINESTRING`, and `LINEARRING`.
    LineString,
    /// `POLYGON`.
    Polygon,
    /// `MULTIPOINT`.
    MultiPoint,
    /// `MULTILINESTRING`.
    MultiLineString,
    /// `MULTIPOLYGON`.
    MultiPolygon,
    /// `GEOMETRYCOLLECTION`.
    GeometryCollection,
}
