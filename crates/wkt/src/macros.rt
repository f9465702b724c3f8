//! Geometries written as in well-known text, for functions and tests of this crate.
//!
//! Numbers are whole and without a sign. A dimension, where it is written, is `Z`, `M` or `ZM`, and
//! a list has at least one member. Anything else matches no arm, but for a literal of another kind,
//! as `1.5` or `"a"`, which the types refuse where it is used. What a macro gives has the
//! dimension that is written, else XY, and so has each of its parts: it is what the `from_..` calls
//! give for the members. `$alloc` is evaluated once.
ghost use Rattle.std.specs.Prelude.{◌≡◌, ◌++◌, ◌∷◌, [], IfOk, Ok};

use std::alloc::AllocError;

/// The list with one more member, where both are there.
///
/// # Errors
/// That of the list, else that of the member; out of memory.
pub(crate) fn with<P: Drop>(
    list: Result<Vec<P>, AllocError>,
    member: Result<P, AllocError>,
) -> Result<Vec<P>, AllocError>
    ensures { IfOk result
        (λ v. (old : _) × (new : P) × (list ≡ Ok old) × (member ≡ Ok new) × (v.items ≡ old.items ++ new ∷ [])) }
{
    let mut list = list?;
    list.push(member?)?;
    Ok(list)
}

/// The values in order, or the first error among them.
macro_rules! list {
    ($alloc:ident; $($member:expr),+) => {{
        let list = Ok(std::vec::Vec::new($alloc));
        $(let list = $crate::macros::with(list, $member);)+
        list
    }};
}

/// A geometry of a kind: the word of the kind, and what stands after it in well-known text.
macro_rules! geometry {
    ($alloc:expr; POINT $($body:tt)+) => {{
        let _: std::alloc::Global = $alloc;
        let point: std::result::Result<_, std::alloc::AllocError> =
            Ok($crate::macros::point!($($body)+));
        point
    }};
    ($alloc:expr; LINESTRING $($body:tt)+) => {
        $crate::macros::line_string!($alloc; $($body)+)
    };
    ($alloc:expr; POLYGON $($body:tt)+) => {
        $crate::macros::polygon!($alloc; $($body)+)
    };
    ($alloc:expr; MULTIPOINT $($body:tt)+) => {
        $crate::macros::multi_point!($alloc; $($body)+)
    };
    ($alloc:expr; MULTILINESTRING $($body:tt)+) => {
        $crate::macros::multi_line_string!($alloc; $($body)+)
    };
    ($alloc:expr; MULTIPOLYGON $($body:tt)+) => {
        $crate::macros::multi_polygon!($alloc; $($body)+)
    };
    ($alloc:expr; GEOMETRYCOLLECTION $($body:tt)+) => {
        $crate::macros::geometry_collection!($alloc; $($body)+)
    };
}

/// A dimension by its letters.
macro_rules! dim {
    (Z) => {
        $crate::types::Dimension::XYZ
    };
    (M) => {
        $crate::types::Dimension::XYM
    };
    (ZM) => {
        $crate::types::Dimension::XYZM
    };
}

/// A coordinate: x and y, then z, then m, with the letters of the last two before them.
macro_rules! coord {
    // One number, which a sign or a word is not.
    (@number $number:literal) => {
        $number
    };
    (Z $x:tt $y:tt $z:tt) => {
        $crate::types::Coord {
            x: $crate::macros::coord!(@number $x),
            y: $crate::macros::coord!(@number $y),
            z: Some($crate::macros::coord!(@number $z)),
            m: None,
        }
    };
    (M $x:tt $y:tt $m:tt) => {
        $crate::types::Coord {
            x: $crate::macros::coord!(@number $x),
            y: $crate::macros::coord!(@number $y),
            z: None,
            m: Some($crate::macros::coord!(@number $m)),
        }
    };
    (ZM $x:tt $y:tt $z:tt $m:tt) => {
        $crate::types::Coord {
            x: $crate::macros::coord!(@number $x),
            y: $crate::macros::coord!(@number $y),
            z: Some($crate::macros::coord!(@number $z)),
            m: Some($crate::macros::coord!(@number $m)),
        }
    };
    ($x:tt $y:tt) => {
        $crate::types::Coord {
            x: $crate::macros::coord!(@number $x),
            y: $crate::macros::coord!(@number $y),
            z: None,
            m: None,
        }
    };
}

/// A point: its numbers in parentheses, or `EMPTY`.
macro_rules! point {
    (EMPTY) => {
        $crate::types::Point::empty($crate::types::Dimension::XY)
    };
    ($dim:ident EMPTY) => {
        $crate::types::Point::empty($crate::macros::dim!($dim))
    };
    (($($number:tt)+)) => {
        $crate::types::Point::from_coord($crate::macros::coord!($($number)+))
    };
    ($dim:ident ($($number:tt)+)) => {
        $crate::types::Point::from_coord($crate::macros::coord!($dim $($number)+))
    };
}

/// A line string: its coordinates in parentheses, or `EMPTY`.
macro_rules! line_string {
    (@coords $alloc:expr; $dim:expr; $($coord:expr),+) => {
        match std::vec::Vec::from_array($alloc, [$($coord),+]) {
            Ok(coords) => Ok($crate::types::LineString::new(coords, $dim)),
            Err(refused) => Err(std::alloc::AllocError::from(refused)),
        }
    };
    ($alloc:expr; EMPTY) => {{
        let line: std::result::Result<_, std::alloc::AllocError> =
            Ok($crate::types::LineString::empty($alloc, $crate::types::Dimension::XY));
        line
    }};
    ($alloc:expr; $dim:ident EMPTY) => {{
        let line: std::result::Result<_, std::alloc::AllocError> =
            Ok($crate::types::LineString::empty($alloc, $crate::macros::dim!($dim)));
        line
    }};
    ($alloc:expr; ($($x:tt $y:tt),+)) => {
        $crate::macros::line_string!(
            @coords $alloc; $crate::types::Dimension::XY;
            $($crate::macros::coord!($x $y)),+
        )
    };
    ($alloc:expr; ZM ($($x:tt $y:tt $z:tt $m:tt),+)) => {
        $crate::macros::line_string!(
            @coords $alloc; $crate::macros::dim!(ZM);
            $($crate::macros::coord!(ZM $x $y $z $m)),+
        )
    };
    ($alloc:expr; $dim:ident ($($x:tt $y:tt $last:tt),+)) => {
        $crate::macros::line_string!(
            @coords $alloc; $crate::macros::dim!($dim);
            $($crate::macros::coord!($dim $x $y $last)),+
        )
    };
}

/// A polygon: its rings in parentheses, the exterior first, or `EMPTY`.
macro_rules! polygon {
    (@rings $alloc:ident; $dim:expr; $($ring:expr),+) => {
        match $crate::macros::list!($alloc; $($ring),+) {
            Ok(rings) => Ok($crate::types::Polygon::new(rings, $dim)),
            Err(error) => Err(error),
        }
    };
    ($alloc:expr; EMPTY) => {{
        let polygon: std::result::Result<_, std::alloc::AllocError> =
            Ok($crate::types::Polygon::empty($alloc, $crate::types::Dimension::XY));
        polygon
    }};
    ($alloc:expr; $dim:ident EMPTY) => {{
        let polygon: std::result::Result<_, std::alloc::AllocError> =
            Ok($crate::types::Polygon::empty($alloc, $crate::macros::dim!($dim)));
        polygon
    }};
    ($alloc:expr; ($($ring:tt),+)) => {{
        let alloc = $alloc;
        $crate::macros::polygon!(
            @rings alloc; $crate::types::Dimension::XY;
            $($crate::macros::line_string!(alloc; $ring)),+
        )
    }};
    ($alloc:expr; $dim:ident ($($ring:tt),+)) => {{
        let alloc = $alloc;
        $crate::macros::polygon!(
            @rings alloc; $crate::macros::dim!($dim);
            $($crate::macros::line_string!(alloc; $dim $ring)),+
        )
    }};
}

/// The points of a multipoint: after `@points []`, each by its numbers or as `EMPTY`.
macro_rules! point_vec {
    // All members are points now.
    (@all $alloc:expr; $($point:expr),+) => {
        match std::vec::Vec::from_array($alloc, [$($point),+]) {
            Ok(points) => Ok(points),
            Err(refused) => Err(std::alloc::AllocError::from(refused)),
        }
    };
    ($alloc:expr; $($dim:ident)? @points [$($point:expr),*] EMPTY) => {
        $crate::macros::point_vec!(
            @all $alloc; $($point,)* $crate::macros::point!($($dim)? EMPTY)
        )
    };
    ($alloc:expr; $($dim:ident)? @points [$($point:expr),*] EMPTY, $($rest:tt)+) => {
        $crate::macros::point_vec!(
            $alloc; $($dim)? @points [$($point,)* $crate::macros::point!($($dim)? EMPTY)] $($rest)+
        )
    };
    ($alloc:expr; @points [$($point:expr),*] $x:tt $y:tt) => {
        $crate::macros::point_vec!(
            @all $alloc; $($point,)* $crate::macros::point!(($x $y))
        )
    };
    ($alloc:expr; @points [$($point:expr),*] $x:tt $y:tt, $($rest:tt)+) => {
        $crate::macros::point_vec!(
            $alloc; @points [$($point,)* $crate::macros::point!(($x $y))] $($rest)+
        )
    };
    ($alloc:expr; ZM @points [$($point:expr),*] $x:tt $y:tt $z:tt $m:tt) => {
        $crate::macros::point_vec!(
            @all $alloc; $($point,)* $crate::macros::point!(ZM ($x $y $z $m))
        )
    };
    ($alloc:expr; ZM @points [$($point:expr),*] $x:tt $y:tt $z:tt $m:tt, $($rest:tt)+) => {
        $crate::macros::point_vec!(
            $alloc; ZM @points [$($point,)* $crate::macros::point!(ZM ($x $y $z $m))] $($rest)+
        )
    };
    ($alloc:expr; $dim:ident @points [$($point:expr),*] $x:tt $y:tt $last:tt) => {
        $crate::macros::point_vec!(
            @all $alloc; $($point,)* $crate::macros::point!($dim ($x $y $last))
        )
    };
    ($alloc:expr; $dim:ident @points [$($point:expr),*] $x:tt $y:tt $last:tt, $($rest:tt)+) => {
        $crate::macros::point_vec!(
            $alloc; $dim @points [$($point,)* $crate::macros::point!($dim ($x $y $last))] $($rest)+
        )
    };
}

/// A multipoint: its members in parentheses, each by its numbers or as `EMPTY`, or `EMPTY`.
macro_rules! multi_point {
    (@points $points:expr; $dim:expr) => {
        match $points {
            Ok(points) => Ok($crate::types::MultiPoint::new(points, $dim)),
            Err(error) => Err(error),
        }
    };
    ($alloc:expr; EMPTY) => {{
        let points: std::result::Result<_, std::alloc::AllocError> =
            Ok($crate::types::MultiPoint::empty($alloc, $crate::types::Dimension::XY));
        points
    }};
    ($alloc:expr; $dim:ident EMPTY) => {{
        let points: std::result::Result<_, std::alloc::AllocError> =
            Ok($crate::types::MultiPoint::empty($alloc, $crate::macros::dim!($dim)));
        points
    }};
    ($alloc:expr; ($($member:tt)+)) => {
        $crate::macros::multi_point!(
            @points $crate::macros::point_vec!($alloc; @points [] $($member)+);
            $crate::types::Dimension::XY
        )
    };
    ($alloc:expr; $dim:ident ($($member:tt)+)) => {
        $crate::macros::multi_point!(
            @points $crate::macros::point_vec!($alloc; $dim @points [] $($member)+);
            $crate::macros::dim!($dim)
        )
    };
}

/// A multilinestring: its lines in parentheses, each as in `line_string!`, or `EMPTY`.
macro_rules! multi_line_string {
    (@lines $alloc:ident; $dim:expr; $($line:expr),+) => {
        match $crate::macros::list!($alloc; $($line),+) {
            Ok(lines) => Ok($crate::types::MultiLineString::new(lines, $dim)),
            Err(error) => Err(error),
        }
    };
    ($alloc:expr; EMPTY) => {{
        let lines: std::result::Result<_, std::alloc::AllocError> =
            Ok($crate::types::MultiLineString::empty($alloc, $crate::types::Dimension::XY));
        lines
    }};
    ($alloc:expr; $dim:ident EMPTY) => {{
        let lines: std::result::Result<_, std::alloc::AllocError> =
            Ok($crate::types::MultiLineString::empty($alloc, $crate::macros::dim!($dim)));
        lines
    }};
    ($alloc:expr; ($($line:tt),+)) => {{
        let alloc = $alloc;
        $crate::macros::multi_line_string!(
            @lines alloc; $crate::types::Dimension::XY;
            $($crate::macros::line_string!(alloc; $line)),+
        )
    }};
    ($alloc:expr; $dim:ident ($($line:tt),+)) => {{
        let alloc = $alloc;
        $crate::macros::multi_line_string!(
            @lines alloc; $crate::macros::dim!($dim);
            $($crate::macros::line_string!(alloc; $dim $line)),+
        )
    }};
}

/// A multipolygon: its polygons in parentheses, each as in `polygon!`, or `EMPTY`.
macro_rules! multi_polygon {
    (@polygons $alloc:ident; $dim:expr; $($polygon:expr),+) => {
        match $crate::macros::list!($alloc; $($polygon),+) {
            Ok(polygons) => Ok($crate::types::MultiPolygon::new(polygons, $dim)),
            Err(error) => Err(error),
        }
    };
    ($alloc:expr; EMPTY) => {{
        let polygons: std::result::Result<_, std::alloc::AllocError> =
            Ok($crate::types::MultiPolygon::empty($alloc, $crate::types::Dimension::XY));
        polygons
    }};
    ($alloc:expr; $dim:ident EMPTY) => {{
        let polygons: std::result::Result<_, std::alloc::AllocError> =
            Ok($crate::types::MultiPolygon::empty($alloc, $crate::macros::dim!($dim)));
        polygons
    }};
    ($alloc:expr; ($($polygon:tt),+)) => {{
        let alloc = $alloc;
        $crate::macros::multi_polygon!(
            @polygons alloc; $crate::types::Dimension::XY;
            $($crate::macros::polygon!(alloc; $polygon)),+
        )
    }};
    ($alloc:expr; $dim:ident ($($polygon:tt),+)) => {{
        let alloc = $alloc;
        $crate::macros::multi_polygon!(
            @polygons alloc; $crate::macros::dim!($dim);
            $($crate::macros::polygon!(alloc; $dim $polygon)),+
        )
    }};
}

/// A collection: its members in parentheses, each by the word of its kind and its text, or `EMPTY`.
/// Where the dimension is written, each member repeats it.
macro_rules! geometry_collection {
    (@member $geometry:expr) => {
        match $geometry {
            Ok(geometry) => Ok($crate::Wkt::from(geometry)),
            Err(error) => Err(error),
        }
    };
    (@geometries $alloc:ident; $dim:expr; $($geometry:expr),+) => {
        match $crate::macros::list!($alloc; $($crate::macros::geometry_collection!(@member $geometry)),+) {
            Ok(geometries) => Ok($crate::types::GeometryCollection::new(geometries, $dim)),
            Err(error) => Err(error),
        }
    };
    ($alloc:expr; EMPTY) => {{
        let geometries: std::result::Result<_, std::alloc::AllocError> =
            Ok($crate::types::GeometryCollection::empty($alloc, $crate::types::Dimension::XY));
        geometries
    }};
    ($alloc:expr; $dim:ident EMPTY) => {{
        let geometries: std::result::Result<_, std::alloc::AllocError> =
            Ok($crate::types::GeometryCollection::empty($alloc, $crate::macros::dim!($dim)));
        geometries
    }};
    ($alloc:expr; ($($kind:ident $body:tt),+)) => {{
        let alloc = $alloc;
        $crate::macros::geometry_collection!(
            @geometries alloc; $crate::types::Dimension::XY;
            $($crate::macros::wkt!(alloc; $kind $body)),+
        )
    }};
    ($alloc:expr; Z ($($kind:ident Z $body:tt),+)) => {{
        let alloc = $alloc;
        $crate::macros::geometry_collection!(
            @geometries alloc; $crate::macros::dim!(Z);
            $($crate::macros::wkt!(alloc; $kind Z $body)),+
        )
    }};
    ($alloc:expr; M ($($kind:ident M $body:tt),+)) => {{
        let alloc = $alloc;
        $crate::macros::geometry_collection!(
            @geometries alloc; $crate::macros::dim!(M);
            $($crate::macros::wkt!(alloc; $kind M $body)),+
        )
    }};
    ($alloc:expr; ZM ($($kind:ident ZM $body:tt),+)) => {{
        let alloc = $alloc;
        $crate::macros::geometry_collection!(
            @geometries alloc; $crate::macros::dim!(ZM);
            $($crate::macros::wkt!(alloc; $kind ZM $body)),+
        )
    }};
}

pub(crate) use coord;
pub(crate) use dim;
pub(crate) use geometry as wkt;
pub(crate) use geometry_collection;
pub(crate) use line_string;
pub(crate) use list;
pub(crate) use multi_line_string;
pub(crate) use multi_point;
pub(crate) use multi_polygon;
pub(crate) use point;
pub(crate) use point_vec;
pub(crate) use polygon;
