//! Flat arrays that are given, and whether they are those of a geometry.
ghost use Rattle.std.specs.Prelude.{◌≡◌, ◌↔◌, ◌+◌, ◌<◌, ◌≤◌, ℕ, ℤ, IsTrue, length};
ghost use Rattle.std.specs.Bool.{OnTrue, OnFalse};
ghost use Rattle.std.specs.List.{All, slice_index};
ghost use Rattle.wkt_num.specs.Whole.{IsSigned};
ghost use Rattle.wkt_access.specs.Values.{Value, size};
ghost use Rattle.wkt_fill.specs.Arrays.{IsGiven, AreOffsetsTo, AreWhole, AreRingsOfOne, HasParts, Ascend};

use wkt_types::{Dimension, GeometryType};

/// Flat arrays, as [`fill_arrays`](crate::fill_arrays) fills them.
#[derive(Clone, Copy)]
pub struct Given<'a> {
    pub kind: GeometryType,
    pub dimension: Dimension,
    /// All numbers in order.
    pub numbers: &'a [i64],
    /// Where each ring begins among the coordinates, and the end of the last.
    pub rings: &'a [usize],
    /// Where each polygon begins among the rings, and the end of the last.
    pub polygons: &'a [usize],
}

/// How many numbers a coordinate has.
#[inline(always)]
pub(crate) fn size_of(dimension: Dimension) -> usize
    ensures { result ≡ size dimension }
{
    match dimension {
        Dimension::XY => 2,
        Dimension::XYZ | Dimension::XYM => 3,
        Dimension::XYZM => 4,
    }
}

/// Whether offsets begin with 0, none is less than the one before it, and the last is `end`.
fn are_offsets(offsets: &[usize], end: usize) -> bool
    ensures { IsTrue result ↔ AreOffsetsTo offsets.now end }
{
    if offsets.is_empty() || offsets[0] != 0 {
        return false;
    }
    for i in 1..offsets.len() {
        if offsets[i] < offsets[i - 1] {
            return false;
        }
    }
    offsets[offsets.len() - 1] == end
}

/// Whether each ring has one coordinate at most.
fn are_points(rings: &[usize]) -> bool
    requires { Ascend rings.now }
    ensures { IsTrue result ↔ AreRingsOfOne rings.now }
{
    for i in 1..rings.len() {
        if rings[i] - rings[i - 1] > 1 {
            return false;
        }
    }
    true
}

/// Whether a geometry of the kind has so many polygons and such rings.
fn has_parts(given: Given<'_>) -> bool
    requires { AreWhole given }
    ensures { IsTrue result ↔ HasParts given.entry }
{
    let one = given.polygons.len() == 2;
    match given.kind {
        GeometryType::Point => one && given.rings.len() == 2 && are_points(given.rings),
        GeometryType::LineString => one && given.rings.len() == 2,
        GeometryType::Polygon | GeometryType::MultiLineString => one,
        GeometryType::MultiPoint => one && are_points(given.rings),
        GeometryType::MultiPolygon => true,
        GeometryType::GeometryCollection => false,
    }
}

/// Reads the numbers, so that the proof knows that each is of 64 bits. Nothing is left of it when the program is built.
#[inline(always)]
fn of_64_bits(numbers: &[i64])
    ensures { All (IsSigned 63) numbers.now }
{
    for i in 0..numbers.len() {
        let _number = numbers[i];
    }
}

/// Whether the arrays are those of a geometry.
pub fn are_arrays(given: Given<'_>) -> bool
    ensures some { OnTrue result ((places : ℕ) → places ≤ 36 → (v : Value ℤ) × IsGiven places given.entry v) }
    ensures none { OnFalse result ((places : ℕ) (v : Value ℤ) → IsGiven places given.entry v → ⊥) }
    ensures narrow { OnTrue result (All (IsSigned 63) given.entry.numbers.now) }
{
    let numbers = given.numbers;
    let size = size_of(given.dimension);
    let coordinates = numbers.len() / size;
    if coordinates * size != numbers.len() {
        return false;
    }
    if !are_offsets(given.rings, coordinates) {
        return false;
    }
    if !are_offsets(given.polygons, given.rings.len() - 1) {
        return false;
    }
    of_64_bits(numbers);
    has_parts(given)
}
