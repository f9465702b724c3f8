//! Flat arrays, filled as the parts of a geometry come.
ghost use Rattle.std.specs.Prelude.{◌≡◌, ◌≢◌, ◌⊎◌, ◌≤◌, [], ◌∷◌, length, take};
ghost use Rattle.wkt_fill.specs.Filled.{is_collection, kind_of_part, end_ring, end_polygon, end_part, ended, put, headed, on, view, ArrayBuilderBecomes, ArrayBuilderBegins, FillsNumber, RefusesCollection, with_flat};

use crate::status::{FILLER_NOT_FLAT, FILLER_TOO_LARGE, FULL};
use wkt_events::number_there;
use wkt_machine::{Axis, Builder, Part, read_by};
use wkt_num::{Places, fast_units};
use wkt_types::{Dimension, GeometryType};

/// The places that arrays are written in.
#[derive(Drop)]
pub struct Room<'a> {
    pub numbers: &'a mut [i64],
    pub rings: &'a mut [usize],
    pub polygons: &'a mut [usize],
}

/// Arrays as far as they are filled. Where `status` isn't 0 it says why they are not.
#[derive(Drop)]
pub struct ArrayBuilder<'a> {
    numbers: &'a mut [i64],
    rings: &'a mut [usize],
    polygons: &'a mut [usize],
    number_count: usize,
    coordinates: usize,
    ring_count: usize,
    polygon_count: usize,
    // How numbers are read.
    places: Places,
    // Before the kind, so that what isn't looked at for a number is of a width that stays where it is.
    pub dimension: Dimension,
    pub kind: GeometryType,
    pub status: u32,
}

#[inline(always)]
fn holds_nothing(kind: GeometryType) -> bool
    ensures { result ≡ is_collection kind }
{
    match kind {
        GeometryType::GeometryCollection => true,
        GeometryType::Point
        | GeometryType::LineString
        | GeometryType::Polygon
        | GeometryType::MultiPoint
        | GeometryType::MultiLineString
        | GeometryType::MultiPolygon => false,
    }
}

/// The kind of a whole geometry.
#[inline(always)]
pub(crate) fn kind_of(whole: Part) -> GeometryType
    ensures { result ≡ kind_of_part whole }
{
    match whole {
        Part::LineString => GeometryType::LineString,
        Part::Polygon => GeometryType::Polygon,
        Part::MultiPoint => GeometryType::MultiPoint,
        Part::MultiLineString => GeometryType::MultiLineString,
        Part::MultiPolygon => GeometryType::MultiPolygon,
        Part::Collection => GeometryType::GeometryCollection,
        _ => GeometryType::Point,
    }
}

/// Begins offsets with 0. Where there is no room, the status that is returned says so.
#[inline(always)]
fn begin(offsets: &mut [usize], status: u32) -> u32
    requires { (status ≡ 0) ⊎ (status ≡ 22) }
    ensures begun { result ≡ 0 → (status ≡ 0) × (take 1 offsets.new ≡ 0 ∷ []) }
    ensures full { result ≢ 0 → (result ≡ 22) × ((status ≢ 0) ⊎ (length offsets.old ≡ 0)) }
    ensures whole { length offsets.new ≡ length offsets.old }
{
    if offsets.is_empty() {
        return FULL;
    }
    offsets[0] = 0;
    status
}

/// The first `count` of the items, or all of them.
#[inline(always)]
fn front<T>(items: &[T], count: usize) -> &[T]
    ensures { result.now ≡ take count items.now }
{
    if count < items.len() {
        &items[..count]
    } else {
        items
    }
}

impl<'a> ArrayBuilder<'a> {
    /// Arrays of nothing.
    #[inline(always)]
    pub fn new(places: Places, room: Room<'a>) -> ArrayBuilder<'a>
        ensures { ArrayBuilderBegins places room.entry result }
    {
        let Room {
            numbers,
            rings,
            polygons,
        } = room;
        let ring_status = begin(rings, 0);
        let status = begin(polygons, ring_status);
        ArrayBuilder {
            numbers,
            rings,
            polygons,
            number_count: 0,
            coordinates: 0,
            ring_count: 0,
            polygon_count: 0,
            places,
            kind: GeometryType::Point,
            dimension: Dimension::XY,
            status,
        }
    }

    /// All numbers in order.
    #[inline(always)]
    pub fn numbers(&self) -> &[i64]
        ensures { result.now ≡ (view self.now).flat.numbers }
    {
        front(self.numbers, self.number_count)
    }

    /// Where each ring begins among the coordinates, and the end of the last.
    #[inline(always)]
    pub fn rings(&self) -> &[usize]
        ensures { result.now ≡ (view self.now).flat.rings }
    {
        front(self.rings, self.ring_count.saturating_add(1))
    }

    /// Where each polygon begins among the rings, and the end of the last.
    #[inline(always)]
    pub fn polygons(&self) -> &[usize]
        ensures { result.now ≡ (view self.now).flat.polygons }
    {
        front(self.polygons, self.polygon_count.saturating_add(1))
    }

    #[inline(always)]
    fn end_ring(&mut self)
        requires { self.old.status ≡ 0 }
        ensures { ArrayBuilderBecomes self.old (with_flat self.old end_ring) self.new }
    {
        let Some(place) = self.ring_count.checked_add(1) else {
            self.status = FULL;
            return;
        };
        if place >= self.rings.len() {
            self.status = FULL;
            return;
        }
        self.rings[place] = self.coordinates;
        self.ring_count = place;
    }

    #[inline(always)]
    fn end_polygon(&mut self)
        requires { self.old.status ≡ 0 }
        ensures { ArrayBuilderBecomes self.old (with_flat self.old end_polygon) self.new }
    {
        let Some(place) = self.polygon_count.checked_add(1) else {
            self.status = FULL;
            return;
        };
        if place >= self.polygons.len() {
            self.status = FULL;
            return;
        }
        self.polygons[place] = self.ring_count;
        self.polygon_count = place;
    }

    /// Ends what the end of a part ends.
    #[inline(always)]
    fn end_in(&mut self, part: Part)
        requires { self.old.status ≡ 0 }
        ensures { ArrayBuilderBecomes self.old (with_flat self.old (end_part part)) self.new }
    {
        match part {
            Part::Point | Part::LineString => {
                self.end_ring();
                if self.status == 0 {
                    self.end_polygon();
                }
            }
            Part::Polygon | Part::MultiPoint | Part::MultiLineString | Part::Area =>
                self.end_polygon(),
            Part::MultiPolygon | Part::Collection => {}
            Part::Member | Part::Bare | Part::Ring | Part::Line | Part::AreaRing => self.end_ring(),
        }
    }

    #[inline(always)]
    fn end(&mut self, part: Part)
        ensures { ArrayBuilderBecomes self.old (on (λ k. ended k part) (view self.old)) self.new }
    {
        if self.status != 0 || holds_nothing(self.kind) {
            return;
        }
        self.end_in(part);
    }

    /// Adds a number of a coordinate.
    #[inline(always)]
    fn put(&mut self, number: i64, axis: Axis)
        ensures { ArrayBuilderBecomes self.old (on (λ k. put k axis number) (view self.old)) self.new }
    {
        if self.status != 0 || holds_nothing(self.kind) {
            return;
        }
        if self.number_count >= self.numbers.len() {
            self.status = FULL;
            return;
        }
        self.numbers[self.number_count] = number;
        self.number_count += 1;
        if let Axis::X = axis {
            if self.coordinates == usize::MAX {
                self.status = FULL;
                return;
            }
            self.coordinates += 1;
        }
    }

    /// Adds a number of units of any size.
    fn push(&mut self, units: i128, axis: Axis)
        ensures { ArrayBuilderBecomes self.old (on (λ k. put k axis units) (view self.old)) self.new }
    {
        if self.status != 0 || holds_nothing(self.kind) {
            return;
        }
        match i64::try_from(units) {
            Ok(number) => self.put(number, axis),
            Err(_) => self.status = FILLER_TOO_LARGE,
        }
    }

    /// The slow path: the number at `at`, in any form. Outlined: only this path zeroes the result slot, and the fast one
    /// returns in registers.
    #[inline(always)]
    fn slow_number(self, text: &[u8], at: usize, axis: Axis) -> (Self, Option<usize>)
        requires { at ≤ length text.now }
        ensures { FillsNumber self.entry text.now at axis result.0 result.1 }
    {
        self.slow_number_outlined(text, at, axis)
    }

    #[cold]
    #[inline(never)]
    fn slow_number_outlined(self, text: &[u8], at: usize, axis: Axis) -> (Self, Option<usize>)
        requires { at ≤ length text.now }
        ensures { FillsNumber self.entry text.now at axis result.0 result.1 }
    {
        let mut made = self;
        match number_there(made.places, text, at) {
            Some((number, end)) => {
                made.push(number, axis);
                (made, Some(end))
            }
            None => (made, None),
        }
    }

    /// A collection has no arrays.
    pub(crate) fn refuse_collection(&mut self)
        ensures { RefusesCollection self.old self.new }
    {
        if self.status == 0 && holds_nothing(self.kind) {
            self.status = FILLER_NOT_FLAT;
        }
    }

    #[inline(always)]
    fn head(&mut self, kind: GeometryType, dimension: Dimension)
        ensures { ArrayBuilderBecomes self.old (headed kind dimension (view self.old)) self.new }
    {
        if self.status != 0 || holds_nothing(self.kind) {
            return;
        }
        self.kind = kind;
        self.dimension = dimension;
    }
}

impl Builder<i128> for ArrayBuilder<'_> {
    ghost use Rattle.wkt_fill.specs.Filled.{array_builder_maker};

    ghost maker = { array_builder_maker };

    #[inline(always)]
    fn begin(self, whole: Part, dim: Dimension) -> Self {
        let mut made = self;
        made.head(kind_of(whole), dim);
        made
    }

    #[inline(always)]
    fn open(self, _part: Part) -> Self {
        self
    }

    #[inline(always)]
    fn comma(self, _part: Part) -> Self {
        self
    }

    #[inline(always)]
    fn close(self, part: Part) -> Self {
        let mut made = self;
        made.end(part);
        made
    }

    #[inline(always)]
    fn empty(self, part: Part) -> Self {
        let mut made = self;
        made.end(part);
        made
    }

    #[inline(always)]
    fn number(self, number: i128, axis: Axis) -> Self {
        let mut made = self;
        made.push(number, axis);
        made
    }

    #[inline(always)]
    fn number_in(self, text: &[u8], at: usize, axis: Axis) -> (Self, Option<usize>) {
        match fast_units(self.places.places(), &text[at..]) {
            Some((units, end)) => {
                let mut made = self;
                made.put(units, axis);
                (made, Some(at + end))
            }
            None => self.slow_number(text, at, axis),
        }
    }

    #[inline(always)]
    fn bare_in(self, text: &[u8], at: usize) -> (Self, Option<usize>) {
        match read_by(self.places, text, at) {
            Some((number, end)) => {
                let opened = self.open(Part::Member);
                (opened.number(number, Axis::X), Some(end))
            }
            None => (self, None),
        }
    }
}
