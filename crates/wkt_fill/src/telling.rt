//! The geometry of flat arrays, as the events of its text.
ghost use Rattle.std.specs.Prelude.{◌+◌, ◌-◌, ◌*◌, ◌<◌, ◌≤◌, ℕ, ℤ, pos, [], ◌∷◌, length};
ghost use Rattle.std.specs.List.{slice_index, slice_index_or};
ghost use Rattle.wkt_access.specs.Values.{Value, size};
ghost use Rattle.wkt_machine.specs.Events.{Event, numbers, listed, events};
ghost use Rattle.wkt_machine.specs.declared.part.Part.TheVariants as parts;
ghost use Rattle.wkt_fill.specs.Arrays.{IsGiven, AreGiven, events_cost, Tells, AreWhole, coordinate_at, ring_at, polygon_at, polygons_in, up_to};

use crate::given::{Given, size_of};
use wkt_machine::{Axis, Builder, Part};
use wkt_types::{Dimension, GeometryType};

/// The number of that index.
#[inline(always)]
fn number<B: Builder<i128>>(numbers: &[i64], index: usize, axis: Axis, builder: B) -> B
    requires within { index < length numbers.now }
    requires room { B.maker.fits builder (B.maker.takes builder (slice_index_or numbers.now index (pos 0))) }
    ensures { Tells B.maker builder (Event.Number axis (slice_index_or numbers.now index (pos 0)) ∷ []) result }
{
    builder.number(i128::from(numbers[index]), axis)
}

/// The coordinate of that index.
#[inline(always)]
fn coordinate<B: Builder<i128>>(given: Given<'_>, index: usize, builder: B) -> B
    requires whole { AreWhole given }
    requires within { index * size given.dimension + size given.dimension ≤ length given.numbers.now }
    requires room { B.maker.fits builder (events_cost (B.maker.takes builder) (numbers given.dimension (coordinate_at given index))) }
    ensures { Tells B.maker builder (numbers given.entry.dimension (coordinate_at given.entry index)) result }
{
    let numbers = given.numbers;
    let at = index * size_of(given.dimension);
    let made = number::<B>(numbers, at, Axis::X, builder);
    let made = number::<B>(numbers, at + 1, Axis::Y, made);
    match given.dimension {
        Dimension::XY => made,
        Dimension::XYZ => number::<B>(numbers, at + 2, Axis::Z, made),
        Dimension::XYM => number::<B>(numbers, at + 2, Axis::M, made),
        Dimension::XYZM => {
            let made = number::<B>(numbers, at + 2, Axis::Z, made);
            number::<B>(numbers, at + 3, Axis::M, made)
        }
    }
}

/// A part of the coordinates from one index to the other.
fn line<B: Builder<i128>>(given: Given<'_>, part: Part, from: usize, to: usize, builder: B) -> B
    requires whole { AreWhole given }
    requires order { from ≤ to }
    requires within { to * size given.dimension ≤ length given.numbers.now }
    requires room { B.maker.fits builder (events_cost (B.maker.takes builder) (listed part (numbers given.dimension) (up_to (coordinate_at given) from to))) }
    ensures { Tells B.maker builder (listed part (numbers given.entry.dimension) (up_to (coordinate_at given.entry) from to)) result }
{
    if from == to {
        return builder.empty(part);
    }
    let opened = builder.open(part);
    let mut made = coordinate::<B>(given, from, opened);
    for i in from + 1..to {
        let next = made.comma(part);
        made = coordinate::<B>(given, i, next);
    }
    made.close(part)
}

/// The ring of that index, as such a part.
#[inline(always)]
fn ring<B: Builder<i128>>(given: Given<'_>, part: Part, index: usize, builder: B) -> B
    requires whole { AreWhole given }
    requires within { index + 1 < length given.rings.now }
    requires room { B.maker.fits builder (events_cost (B.maker.takes builder) (listed part (numbers given.dimension) (ring_at given index))) }
    ensures { Tells B.maker builder (listed part (numbers given.entry.dimension) (ring_at given.entry index)) result }
{
    line::<B>(
        given,
        part,
        given.rings[index],
        given.rings[index + 1],
        builder,
    )
}

/// A part of the rings of the polygon of that index.
fn lines<B: Builder<i128>>(given: Given<'_>, part: Part, inner: Part, index: usize, builder: B) -> B
    requires whole { AreWhole given }
    requires within { index + 1 < length given.polygons.now }
    requires room { B.maker.fits builder (events_cost (B.maker.takes builder) (listed part (listed inner (numbers given.dimension)) (polygon_at given index))) }
    ensures { Tells B.maker builder (listed part (listed inner (numbers given.entry.dimension)) (polygon_at given.entry index)) result }
{
    let (from, to) = (given.polygons[index], given.polygons[index + 1]);
    if from == to {
        return builder.empty(part);
    }
    let opened = builder.open(part);
    let mut made = ring::<B>(given, inner, from, opened);
    for i in from + 1..to {
        let next = made.comma(part);
        made = ring::<B>(given, inner, i, next);
    }
    made.close(part)
}

/// All polygons.
fn areas<B: Builder<i128>>(given: Given<'_>, builder: B) -> B
    requires whole { AreWhole given }
    requires room { B.maker.fits builder (events_cost (B.maker.takes builder) (listed parts.MultiPolygon (listed parts.Area (listed parts.AreaRing (numbers given.dimension))) (polygons_in given))) }
    ensures { Tells B.maker builder (listed parts.MultiPolygon (listed parts.Area (listed parts.AreaRing (numbers given.entry.dimension))) (polygons_in given.entry)) result }
{
    let count = given.polygons.len() - 1;
    if count == 0 {
        return builder.empty(Part::MultiPolygon);
    }
    let opened = builder.open(Part::MultiPolygon);
    let mut made = lines::<B>(given, Part::Area, Part::AreaRing, 0, opened);
    for i in 1..count {
        let next = made.comma(Part::MultiPolygon);
        made = lines::<B>(given, Part::Area, Part::AreaRing, i, next);
    }
    made.close(Part::MultiPolygon)
}

/// Tells a builder the events of the geometry of the arrays.
pub fn tell<B: Builder<i128>>(given: Given<'_>, builder: B) -> B
    requires arrays { (places : ℕ) × AreGiven places given }
    requires room { (places : ℕ) (v : Value ℤ) → IsGiven places given v → B.maker.fits builder (events_cost (B.maker.takes builder) (events v)) }
    ensures { (places : ℕ) (v : Value ℤ) → IsGiven places given.entry v → Tells B.maker builder (events v) result }
{
    let dim = given.dimension;
    match given.kind {
        GeometryType::Point => {
            let begun = builder.begin(Part::Point, dim);
            ring::<B>(given, Part::Point, 0, begun)
        }
        GeometryType::LineString => {
            let begun = builder.begin(Part::LineString, dim);
            ring::<B>(given, Part::LineString, 0, begun)
        }
        GeometryType::Polygon => {
            let begun = builder.begin(Part::Polygon, dim);
            lines::<B>(given, Part::Polygon, Part::Ring, 0, begun)
        }
        GeometryType::MultiPoint => {
            let begun = builder.begin(Part::MultiPoint, dim);
            lines::<B>(given, Part::MultiPoint, Part::Member, 0, begun)
        }
        GeometryType::MultiLineString => {
            let begun = builder.begin(Part::MultiLineString, dim);
            lines::<B>(given, Part::MultiLineString, Part::Line, 0, begun)
        }
        GeometryType::MultiPolygon => {
            let begun = builder.begin(Part::MultiPolygon, dim);
            areas::<B>(given, begun)
        }
        // A collection has no arrays.
        GeometryType::GeometryCollection => builder,
    }
}
