//! A geometry of any kind as events, written as its parts come.
ghost use Rattle.std.specs.Prelude.{◌≡◌, ◌<◌, length, slice_set};
ghost use Rattle.wkt_fill.specs.Filled.{counted};
ghost use Rattle.wkt_fill.specs.EventLists.{begins, ends, add, push, is_area, is_inner, is_line, end_list, end_line, begin_part, end_part, Becomes};

use crate::array_builder::kind_of;
use crate::units::{WktUnits, halves};
use wkt_machine::{Axis, Builder, Part, read_by};
use wkt_num::Places;
use wkt_types::{Dimension, GeometryType};

/// The event with which a geometry begins; its kind and its dimension are added.
const BEGIN: usize = 1 << 63;
/// The event with which a geometry ends.
const END: usize = usize::MAX;

/// The places that events and numbers are written in.
#[derive(Drop)]
pub struct EventRoom<'a> {
    pub events: &'a mut [usize],
    pub numbers: &'a mut [WktUnits],
}

/// Events and numbers as far as they came. What has no room is counted, and isn't written.
#[derive(Drop)]
pub(crate) struct EventWriter<'a> {
    pub(crate) events: &'a mut [usize],
    pub(crate) numbers: &'a mut [WktUnits],
    pub(crate) event_count: usize,
    pub(crate) number_count: usize,
    // How many coordinates came since the last list of them ended.
    pub(crate) coordinates: usize,
    // Of the last header.
    pub(crate) dimension: Dimension,
    pub(crate) places: Places,
}

/// The event with which a geometry begins.
#[inline(always)]
fn begins(kind: GeometryType, dimension: Dimension) -> usize
    ensures { result ≡ begins kind dimension }
{
    let of_kind = match kind {
        GeometryType::Point => BEGIN,
        GeometryType::LineString => BEGIN + 4,
        GeometryType::Polygon => BEGIN + 8,
        GeometryType::MultiPoint => BEGIN + 12,
        GeometryType::MultiLineString => BEGIN + 16,
        GeometryType::MultiPolygon => BEGIN + 20,
        GeometryType::GeometryCollection => BEGIN + 24,
    };
    match dimension {
        Dimension::XY => of_kind,
        Dimension::XYZ => of_kind + 1,
        Dimension::XYM => of_kind + 2,
        Dimension::XYZM => of_kind + 3,
    }
}

/// Writes an item at that place, if there is one.
#[inline(always)]
fn put_at<T: Copy>(items: &mut [T], at: usize, item: T)
    ensures written { at < length items.old → items.new ≡ slice_set items.old at item }
    ensures whole { length items.new ≡ length items.old }
{
    if at < items.len() {
        items[at] = item;
    }
}

/// How many coordinates came, with one that begins with that number.
#[inline(always)]
fn with_first(axis: Axis, coordinates: usize) -> usize
    ensures { coordinates < usize.MAX → result ≡ counted axis coordinates }
{
    match axis {
        Axis::X => coordinates.saturating_add(1),
        Axis::Y => coordinates,
        Axis::Z => coordinates,
        Axis::M => coordinates,
    }
}

/// Whether a part is a polygon of a multipolygon.
#[inline(always)]
fn is_area(part: Part) -> bool
    ensures { result ≡ is_area part }
{
    matches!(part, Part::Area)
}

/// Whether a geometry ends with its one list of coordinates.
#[inline(always)]
fn is_line(part: Part) -> bool
    ensures { result ≡ is_line part }
{
    matches!(part, Part::Point | Part::LineString)
}

/// Whether a part is a list of coordinates in a geometry.
#[inline(always)]
fn is_inner(part: Part) -> bool
    ensures { result ≡ is_inner part }
{
    matches!(
        part,
        Part::Member | Part::Bare | Part::Ring | Part::Line | Part::AreaRing
    )
}

impl EventWriter<'_> {
    /// Adds an event.
    #[inline(always)]
    fn put(&mut self, event: usize)
        ensures { Becomes (add event) self.old self.new }
    {
        put_at(self.events, self.event_count, event);
        self.event_count = self.event_count.saturating_add(1);
    }

    /// Adds a number of a coordinate. The first of them begins it.
    #[inline(always)]
    fn push(&mut self, units: i128, axis: Axis)
        ensures { Becomes (push axis units) self.old self.new }
    {
        put_at(self.numbers, self.number_count, halves(units));
        self.number_count = self.number_count.saturating_add(1);
        self.coordinates = with_first(axis, self.coordinates);
    }

    /// A list of coordinates ends.
    #[inline(always)]
    fn end_list(&mut self)
        ensures { Becomes end_list self.old self.new }
    {
        self.put(self.coordinates);
        self.coordinates = 0;
    }

    /// A point or a line string ends with its coordinates.
    #[inline(always)]
    fn end_line(&mut self)
        ensures { Becomes end_line self.old self.new }
    {
        self.end_list();
        self.put(END);
    }

    /// A part begins. A polygon of a multipolygon begins as a geometry does.
    #[inline(always)]
    fn begin_part(&mut self, part: Part)
        ensures { Becomes (begin_part part) self.old self.new }
    {
        if !is_area(part) {
            return;
        }
        self.put(begins(GeometryType::Polygon, self.dimension));
    }

    /// A part ends.
    #[inline(always)]
    fn end_part(&mut self, part: Part)
        ensures { Becomes (end_part part) self.old self.new }
    {
        if is_line(part) {
            return self.end_line();
        }
        if is_inner(part) {
            return self.end_list();
        }
        self.put(END);
    }
}

impl Builder<i128> for EventWriter<'_> {
    ghost use Rattle.wkt_fill.specs.EventLists.{writer_maker};

    ghost maker = { writer_maker };

    #[inline(always)]
    fn begin(self, whole: Part, dim: Dimension) -> Self {
        let mut made = self;
        made.dimension = dim;
        made.put(begins(kind_of(whole), dim));
        made
    }

    #[inline(always)]
    fn open(self, part: Part) -> Self {
        let mut made = self;
        made.begin_part(part);
        made
    }

    #[inline(always)]
    fn comma(self, _part: Part) -> Self {
        self
    }

    #[inline(always)]
    fn close(self, part: Part) -> Self {
        let mut made = self;
        made.end_part(part);
        made
    }

    #[inline(always)]
    fn empty(self, part: Part) -> Self {
        let mut made = self;
        made.begin_part(part);
        made.end_part(part);
        made
    }

    #[inline(always)]
    fn number(self, number: i128, axis: Axis) -> Self {
        let mut made = self;
        made.push(number, axis);
        made
    }

    #[inline(always)]
    fn number_in(self, text: &[u8], at: usize, axis: Axis) -> (Self, Option<usize>) {
        match read_by(self.places, text, at) {
            Some((number, end)) => (self.number(number, axis), Some(end)),
            None => (self, None),
        }
    }

    #[inline(always)]
    fn bare_in(self, text: &[u8], at: usize) -> (Self, Option<usize>) {
        match read_by(self.places, text, at) {
            Some((number, end)) => {
                let opened = self.open(Part::Member);
                (opened.number(number, Axis::X), Some(end))
            }
            None => (self, None),
        }
    }
}
