//! Well-known text read and written, proved: every name of the crates below, in one place.
//!
//! Below stand all crates of the library but `wkt_fill` and `wkt_lines`; above, examples and tests.
//!
//! A call that takes memory has the allocator first, `alloc`, which `main` gets with `rt.alloc()`, and answers
//! an error where there is none. Numbers are of any type with [`WktNum`]: whole ones, or a [`Decimal`] of so
//! many places.
//!
//! # Read
//! A text is read as a [`Wkt`], which keeps z and m, or as one of the two-dimensional [`geo_types`]:
//!
//! ```text
//! let geometry = Wkt::<Decimal<6>>::from_str(alloc, "linestring z (1 2 3, 4 5.50 6)")?;
//! let geometry = Geometry::<Decimal<6>>::try_from_wkt_str(alloc, "POINT (10 20)")?;
//! ```
//!
//! Both read the geometry at the front of the text; a text that has to be one geometry and no more is read by
//! [`read_whole`].
//!
//! # Explain
//! Where and why a text has no geometry at its front says [`refusal`], and [`explain`] to be displayed:
//!
//! ```text
//! POINT(1)
//!        ^ a second number was expected
//! ```
//!
//! Which spelling of another tool it is, if one is known, says [`Explanation::hint`]. Where the geometry of a text
//! ends, and whether more follows it, says [`check`].
//!
//! # Compare
//! `==` compares what is held. Whether two geometries have one text says [`same_geometry`], and `==` too, after
//! `into_canonical`.
//!
//! # Infer
//! The kind and the dimension, without reading the rest of the text:
//!
//! ```text
//! let (kind, dimension) = infer_type(alloc, "POINT Z EMPTY")?;
//! ```
//!
//! # Write
//! A `Wkt` is displayed as its text, and a two-dimensional geometry gives it as a string or to a sink of bytes:
//!
//! ```text
//! let rect = Rect::<i32>::new(Coord { x: 4, y: 4 }, Coord { x: 8, y: 8 });
//! rect.write_wkt(alloc, &mut Counted::new(&mut bytes))?;
//! ```
//!
//! # Convert
//! A `Wkt` becomes a two-dimensional geometry, without z and m, and back:
//!
//! ```text
//! let flat = try_into_geometry(alloc, &wkt)?;
//! ```
//!
//! # Make
//! A geometry of numbers that stand in the source is made by [`literals`]:
//!
//! ```text
//! let line = literals::line_string(alloc, &[(0, 0), (4, -1)])?;
//! ```
//!
//! # Custom geometries
//! Any type with the traits of [`geo_traits`] is written as it stands, with no copy: see [`to_wkt`]. A function
//! over those traits takes a `Wkt`, a two-dimensional geometry and any other alike:
//!
//! ```text
//! pub fn count_members<C: GeometryCollectionTrait>(collection: &C) -> usize
//!     ensures { result ≡ length (C.geometries collection.now) }
//! ```
#![tactic(auto)]

mod any_error;
mod canonical;
mod flat_laws;
mod from_text;
mod json;
pub mod literals;
#[cfg(test)]
mod macro_tests;
mod macros;
mod same;
mod whole;

pub use any_error::AnyError;
pub use canonical::canonical_text;
pub use from_text::TryFromWkt;
pub use json::{
    ValueError, deserialize_geometry, deserialize_point, deserialize_wkt, wkt_from_value,
};
pub use same::same_geometry;
pub use whole::{WholeError, read_whole};
pub use wkt_canonical::{TextWritten, canonical_into};
pub use wkt_convert::{ToWkt, ToWktError};
pub use wkt_explain::{Expected, Explanation, Hint, Problem, Refusal, check, explain, refusal};
pub use wkt_num::{Decimal, Numbers, OfType, Places, WktNum};
pub use wkt_read::{InferError, Message, ReadError, infer_type};
pub use wkt_sources::front_end;
pub use wkt_values::FromWktStr;

/// A geometry as well-known text has it: with up to four numbers a coordinate, of any of the seven kinds.
// A name of this crate's own: of a recursive enum that is handed on by `pub use`, the checker asks each caller for the
// crate that has it.
pub type Wkt<T> = wkt_types::Wkt<T>;

/// The traits by which any representation of a geometry is accessed: a custom type that has them is
/// written by the writers of [`to_wkt`].
pub mod geo_traits {
    pub use wkt_access::{
        CoordTrait, Dimensions, GeometryCollectionTrait, GeometryTrait, GeometryType,
        LineStringTrait, LineTrait, MultiLineStringTrait, MultiPointTrait, MultiPolygonTrait,
        PointTrait, PolygonTrait, RectTrait, TriangleTrait,
    };
}

/// Two-dimensional types, under the names of the Rust crate `geo-types`.
///
/// ```text
/// let rect = Rect::<i32>::new(Coord { x: 4, y: 4 }, Coord { x: 8, y: 8 });
/// ```
pub mod geo_types {
    pub use wkt_flat::{
        Coord, GeometryCollection, Line, LineString, MultiLineString, MultiPoint, MultiPolygon,
        Point, Polygon, Rect, Triangle,
    };

    /// A two-dimensional geometry of any of the ten kinds.
    pub type Geometry<T> = wkt_flat::Geometry<T>;
}

/// The types of well-known text: what a [`Wkt`] holds, with up to four numbers a coordinate, in the order x, y,
/// z, m.
pub mod types {
    pub use wkt_types::{
        Coord, Dimension, GeometryCollection, GeometryType, LineString, MultiLineString,
        MultiPoint, MultiPolygon, Point, Polygon,
    };
}

/// Writing, and where text and bytes go.
///
/// ```text
/// let mut out = String::new(alloc);
/// push_geometry(&mut out, &rect)?;
/// ```
pub mod to_wkt {
    pub use wkt_bytes::{
        ByteSink, ByteSource, Counted, ReadAllError, WriterWrapper, put_all, read_all,
    };
    pub use wkt_convert::{ToWkt, ToWktError};
    pub use wkt_num::{CountedText, FormatterText, StringText, TextSink};
    pub use wkt_write::{
        push_geometry, write_geometry, write_geometry_collection, write_line, write_linestring,
        write_multi_linestring, write_multi_point, write_multi_polygon, write_point, write_polygon,
        write_rect, write_triangle,
    };
}

/// Conversions of the types of well-known text into two-dimensional ones.
///
/// ```text
/// let wkt = Wkt::<i32>::from_str(alloc, "POINT Z(1 2 3)")?;
/// let flat = try_into_geometry(alloc, &wkt)?;
/// ```
pub mod geo_types_from_wkt {
    pub use wkt_convert::{ConvertFrom, try_into_geometry, try_into_geometry_collection};
    pub use wkt_types::ConvertError as Error;
}

/// Why a geometry isn't written, and one error for whatever a function here returns.
pub mod error {
    pub use crate::any_error::AnyError;
    pub use wkt_access::Error;
}

/// The lexemes of a text, one after the other: what `Wkt::read_tokens` reads from.
pub mod tokenizer {
    pub use wkt_read::{PeekableTokens, Token, Tokens};
}

/// A geometry as events, in the order of its text: what a caller makes of a text that isn't read as a geometry. No memory
/// is taken but what a [`Builder`](events::Builder) takes, and no stack for nesting.
pub mod events {
    pub use wkt_canonical::{NoRoom, write_canonical};
    pub use wkt_machine::drive::drive;
    pub use wkt_machine::{Axis, Builder, Part, Progress, read_at};
    pub use wkt_sources::ByteCursor;
}

/// Geometries out of JSON, where each is a string of well-known text.
///
/// ```text
/// let value = Value::from_str(alloc, "\"POINT (42 3.14)\"")?;
/// let point = wkt_from_value::<Decimal<6>>(alloc, &value)?;
/// ```
pub mod deserialize {
    pub use crate::json::{ValueError, deserialize_wkt, wkt_from_value};

    /// Two-dimensional geometries out of JSON.
    pub mod geo_types {
        pub use crate::json::{deserialize_geometry, deserialize_point};
    }
}

/// The laws of the definitions that the contracts cite: public functions that change nothing, whose
/// contracts are the laws.
pub mod laws {
    pub use crate::flat_laws::{
        back_is_read, corners_are_in_order, geometry_comes_back, members_are_listed,
        plain_reads_back,
    };
    pub use wkt_bytes::laws::{
        counted_grows, formatter_writes, gathered_grows, revealing_grows, string_grows,
        wrapper_grows,
    };
    pub use wkt_canonical::laws::texts_are_short;
    pub use wkt_convert::laws::{flat_and_back, plain_comes_back};
    pub use wkt_explain::laws::{one_refusal, refused_has_no_front};
    pub use wkt_flat::laws::{flat_is_writable, rings_are_closed};
    pub use wkt_num::earlier::{finer_keeps, wider_keeps};
    pub use wkt_num::laws::reading_is_equation;
    pub use wkt_read::earlier::old_forms;
    pub use wkt_read::laws::{
        canon_once, dead_for_good, few_lexemes, front_is_writable, front_of_lexemes, header_names,
        headline, one_form, one_front, one_reading, one_split, one_text, one_value_text, one_wkt,
        read_values_are_writable, reads_back, stable_front, value_reads_back, whole_characters,
    };
    pub use wkt_types::laws::canonical_is_one;
    pub use wkt_values::laws::one_message;
}
