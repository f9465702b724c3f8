//! Geometries compared by what is written of them.
ghost use Rattle.std.specs.Prelude.{◌≡◌, ◌↔◌, IsTrue, Bool, slice_get};
ghost use Rattle.std.specs.Cmp.Lexicographic.{pointwise};
ghost use Rattle.wkt_access.specs.Shapes.{canon};
ghost use Rattle.wkt_access.specs.Texts.{shape_text};
ghost use Rattle.wkt_access.specs.declared.dimensions.Dimension.{Dimension};
ghost use Rattle.wkt_types.specs.Tree.{tree, members};
ghost use Rattle.wkt_types.specs.Values.{tree_shape};
ghost use Rattle.wkt.specs.Same.{IsWritable, written_rings, coord_alike, point_alike, line_alike, polygon_alike, tree_alike, trees_alike};

use wkt_access::Dimension;
use wkt_num::WktNum;
use wkt_read::laws::one_text;
use wkt_types::dimension::is_same;
use wkt_types::{Coord, LineString, Point, Polygon, Wkt, fourth_number, third_number};

/// A part of a geometry, compared by what is written of it under a header of some dimension.
trait Alike {
    /// Whether two parts are written alike.
    ghost alike: { Dimension → Self → Self → Bool };

    fn is_alike(&self, other: &Self, dim: Dimension) -> bool
        ensures { result ≡ alike dim self.now other.now };
}

/// Whether there are as many parts on both sides, each written like the other.
fn are_alike<X: Alike>(a: &[X], b: &[X], dim: Dimension) -> bool
    ensures { result ≡ pointwise (X.alike dim) a.now b.now }
{
    for (i, x) in a.iter().enumerate() {
        match b.get(i) {
            None => return false,
            Some(y) => {
                if !x.is_alike(y, dim) {
                    return false;
                }
            }
        }
    }
    a.len() == b.len()
}

impl<T: WktNum> Alike for Coord<T> {
    ghost alike = { coord_alike T.eq };

    fn is_alike(&self, other: &Self, dim: Dimension) -> bool {
        match dim {
            Dimension::XY => self.x == other.x && self.y == other.y,
            Dimension::XYZ | Dimension::XYM => {
                self.x == other.x && self.y == other.y && third_number(self) == third_number(other)
            }
            Dimension::XYZM => {
                self.x == other.x
                    && self.y == other.y
                    && third_number(self) == third_number(other)
                    && fourth_number(self) == fourth_number(other)
            }
        }
    }
}

impl<T: WktNum> Alike for Point<T> {
    ghost alike = { point_alike T.eq };

    fn is_alike(&self, other: &Self, dim: Dimension) -> bool {
        match (self.coord(), other.coord()) {
            (None, None) => true,
            (Some(a), Some(b)) => a.is_alike(b, dim),
            _ => false,
        }
    }
}

impl<T: WktNum> Alike for LineString<T> {
    ghost alike = { line_alike T.eq };

    fn is_alike(&self, other: &Self, dim: Dimension) -> bool {
        are_alike(self.coords(), other.coords(), dim)
    }
}

/// The rings that are written: none where the exterior is lacking or empty.
fn written_rings<T>(polygon: &Polygon<T>) -> &[LineString<T>]
    ensures { result.now ≡ written_rings polygon.now.parts }
{
    let rings = polygon.rings();
    match rings.first() {
        Some(exterior) if !exterior.coords().is_empty() => rings,
        _ => &rings[..0],
    }
}

impl<T: WktNum> Alike for Polygon<T> {
    ghost alike = { polygon_alike T.eq };

    fn is_alike(&self, other: &Self, dim: Dimension) -> bool {
        are_alike(written_rings(self), written_rings(other), dim)
    }
}

#[cycle(alike)]
fn is_written_alike<T: WktNum>(a: &Wkt<T>, b: &Wkt<T>) -> bool
    ensures { result ≡ tree_alike T.eq (tree a.now) (tree b.now) }
{
    let dim = a.dimension();
    if !is_same(dim, b.dimension()) {
        return false;
    }
    match (a, b) {
        (Wkt::Point(x), Wkt::Point(y)) => x.is_alike(y, dim),
        (Wkt::LineString(x), Wkt::LineString(y)) => x.is_alike(y, dim),
        (Wkt::Polygon(x), Wkt::Polygon(y)) => x.is_alike(y, dim),
        (Wkt::MultiPoint(x), Wkt::MultiPoint(y)) => are_alike(x.points(), y.points(), dim),
        (Wkt::MultiLineString(x), Wkt::MultiLineString(y)) => {
            are_alike(x.line_strings(), y.line_strings(), dim)
        }
        (Wkt::MultiPolygon(x), Wkt::MultiPolygon(y)) => {
            are_alike(x.polygons(), y.polygons(), dim)
        }
        (Wkt::GeometryCollection(x), Wkt::GeometryCollection(y)) => {
            are_written_alike(x.geometries(), y.geometries())
        }
        _ => false,
    }
}

#[cycle(alike)]
fn are_written_alike<T: WktNum>(a: &[Wkt<T>], b: &[Wkt<T>]) -> bool
    ensures { result ≡ trees_alike T.eq (members a.now) (members b.now) }
{
    for (i, x) in a.iter().enumerate() {
        match b.get(i) {
            None => return false,
            Some(y) => {
                if !is_written_alike(x, y) {
                    return false;
                }
            }
        }
    }
    a.len() == b.len()
}

/// Whether two geometries are one, in whatever way they are put together: they have one canonical value, and so one
/// text. `==` compares what they hold: `POLYGON(EMPTY)` and `POLYGON EMPTY` differ there, and have one text. It
/// takes no memory. Of geometries that are compared often, `into_canonical` makes what `==` then compares so.
///
/// ```text
/// let one = Wkt::<i32>::from_str(alloc, "POLYGON(EMPTY)")?;
/// let other = Wkt::<i32>::from_str(alloc, "POLYGON EMPTY")?;
/// // same_geometry(&one, &other), and one != other
/// ```
pub fn same_geometry<T: WktNum>(a: &Wkt<T>, b: &Wkt<T>) -> bool
    ensures same { IsTrue result ↔ (canon (tree_shape (tree a.now)) ≡ canon (tree_shape (tree b.now))) }
    ensures one_text { IsWritable T.is_value (tree_shape (tree a.now)) → IsWritable T.is_value (tree_shape (tree b.now))
        → IsTrue result ↔ (shape_text T.num (tree_shape (tree a.now)) ≡ shape_text T.num (tree_shape (tree b.now))) }
{
    // No effect at run time. The proof reads that one text is one value.
    one_text::<T>();
    is_written_alike(a, b)
}
