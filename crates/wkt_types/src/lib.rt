//! The types of well-known text: a geometry and its parts, each with the dimension of its header.
//!
//! Below stand `wkt_write` and `wkt_flat`; above, the readers (`wkt_read`) and the conversions (`wkt_convert`).
#![tactic(auto)]

mod access;
mod canonical;
mod convert;
mod coord;
pub mod dimension;
mod display;
mod dropping;
mod equal;
mod geometry;
mod geometry_access;
mod geometry_type;
pub mod laws;
mod linestring;
mod multilinestring;
mod multipoint;
mod multipolygon;
mod point;
mod polygon;
mod show;

pub use canonical::{fourth_number, third_number};
pub use convert::ConvertError;
pub use coord::Coord;
pub use geometry::{GeometryCollection, Wkt};
pub use geometry_type::GeometryType;
pub use linestring::LineString;
pub use multilinestring::MultiLineString;
pub use multipoint::MultiPoint;
pub use multipolygon::MultiPolygon;
pub use point::Point;
pub use polygon::Polygon;
pub use wkt_access::Dimension;
