//! The writers of well-known text, over the access traits.
//!
//! Below stands `wkt_access`; above, `wkt_types`, whose values are written by these writers, and all that writes.
#![tactic(auto)]

mod check;
mod items;
mod kinds;
mod put_geometries;
mod put_parts;
mod write;

pub use write::{
    push_geometry, write_geometry, write_geometry_collection, write_line, write_linestring,
    write_multi_linestring, write_multi_point, write_multi_polygon, write_point, write_polygon,
    write_rect, write_triangle,
};
