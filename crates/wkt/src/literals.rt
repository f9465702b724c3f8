//! Geometries made of numbers that stand in the source, as functions: a crate can't import the macros of another.
//!
//! ```text
//! let line = line_string(alloc, &[(0, 0), (4, -1)])?; // LINESTRING(0 0,4 -1)
//! let wkt = Wkt::from(line);
//! ```
ghost use Rattle.std.specs.Prelude.{◌≡◌, IfOk, Some, map};
ghost use Rattle.wkt_access.specs.declared.dimensions.Dimension.TheVariants.{XY};
ghost use Rattle.wkt.specs.Literals.{coord_at, line_string_through};

use std::alloc::{AllocError, Global};
use wkt_types::{Coord, Dimension, LineString, Point, Polygon};

fn coord_at<T>(x: T, y: T) -> Coord<T>
    ensures { result ≡ coord_at x y }
{
    Coord {
        x,
        y,
        z: None,
        m: None,
    }
}

/// The point at x and y, as `POINT(x y)` names it. It takes no memory.
///
/// ```text
/// let point = point(10, -20); // POINT(10 -20)
/// ```
pub fn point<T>(x: T, y: T) -> Point<T>
    ensures coord { result.coord ≡ Some (coord_at x y) }
    ensures dim { result.dim ≡ XY }
{
    Point::new(Some(coord_at(x, y)), Dimension::XY)
}

/// The line string through those places, each an x and a y; of none, `LINESTRING EMPTY`.
///
/// # Errors
/// Out of memory.
///
/// ```text
/// let line = line_string(alloc, &[(0, 0), (4, -1)])?; // LINESTRING(0 0,4 -1)
/// ```
pub fn line_string<T: Copy + Drop>(
    alloc: Global,
    places: &[(T, T)],
) -> Result<LineString<T>, AllocError>
    ensures { IfOk result (λ l. l ≡ line_string_through places.now) }
{
    let mut coords = Vec::with_capacity(alloc, places.len())?;
    for place in places {
        let (x, y) = *place;
        coords.push(coord_at(x, y))?;
    }
    Ok(LineString::new(coords, Dimension::XY))
}

/// The polygon of those rings, the exterior first, each as it stands: none is closed. Of no ring, `POLYGON EMPTY`.
///
/// # Errors
/// Out of memory.
///
/// ```text
/// let polygon = polygon(alloc, &[&[(0, 0), (4, -1), (2, 4), (0, 0)]])?; // POLYGON((0 0,4 -1,2 4,0 0))
/// ```
pub fn polygon<T: Copy + Drop>(alloc: Global, rings: &[&[(T, T)]]) -> Result<Polygon<T>, AllocError>
    ensures rings { IfOk result (λ y. y.parts ≡ map (λ r. line_string_through r.now) rings.now) }
    ensures dim { IfOk result (λ y. y.dim ≡ XY) }
{
    let mut all = Vec::with_capacity(alloc, rings.len())?;
    for ring in rings {
        all.push(line_string(alloc, ring)?)?;
    }
    Ok(Polygon::new(all, Dimension::XY))
}
