//! Values, made as the parts of a geometry come.
ghost use Rattle.std.specs.Prelude.{◌≡◌, ◌++◌, ◌∷◌, [], if◌then◌else◌, true, false, None, IfSome};
ghost use Rattle.wkt_access.specs.declared.dimensions.Dimension.TheVariants.{XY};
ghost use Rattle.wkt_values.specs.Growing.{HasMember, HasNumbers, HasPoint, MayEnd, MayJoin, MayOpen, MayBeEmpty, ended, headed, joined, lists_end, lists_items, opened, rest, with_coord, with_item, with_line, with_number, with_point, without_items};
ghost use Rattle.wkt_values.specs.Trees.{Becomes, TreeGives, GivesLast, Holds, IsPair, Joins, coord_of};
ghost use Rattle.wkt_machine.specs.declared.part.Part.TheVariants as kind;

use crate::adding::{add, add_flat, add_one, taken};
use std::alloc::Global;
use wkt_access::Dimension;
use wkt_machine::{Axis, Builder, Part, read_at};
use wkt_num::WktNum;
use wkt_types::{
    Coord, GeometryCollection, LineString, MultiLineString, MultiPoint, MultiPolygon, Point,
    Polygon, Wkt,
};

/// A collection that is open, and its members so far.
#[derive(Drop)]
struct OpenCollection<T> {
    members: Vec<Wkt<T>>,
    dim: Dimension,
}

/// A geometry that ended, by where its parts are kept.
#[derive(Clone, Copy)]
pub enum Ended {
    Point,
    LineString,
    Polygon,
    MultiPoint,
    MultiLineString,
    MultiPolygon,
    /// The collection that was opened last.
    Collection,
    /// A collection that wasn't opened, since it has no members.
    NoMembers,
}

/// What was made of the parts so far. Those of a geometry stay here until it is known where it goes: a member that
/// another follows is put into its collection as one of several, the last one with room for itself alone.
#[derive(Drop)]
pub struct Tree<T> {
    alloc: Global,
    dim: Dimension,
    // The geometry that ended last.
    last: Ended,
    // Whether something was lost, for want of memory.
    is_lost: bool,
    // The numbers that came last.
    x: Option<T>,
    y: Option<T>,
    z: Option<T>,
    m: Option<T>,
    coords: Vec<Coord<T>>,
    points: Vec<Point<T>>,
    lines: Vec<LineString<T>>,
    areas: Vec<Polygon<T>>,
    outer: Vec<OpenCollection<T>>,
}

impl<T: WktNum> Tree<T> {
    // `drive` is inlined into `front_of` only while what is `inline(always)` in it is small, which is worth a tenth of `read_whole` on
    // lines of points. So what seldom ends isn't.

    /// Nothing has come yet.
    #[inline(always)]
    pub fn new(alloc: Global) -> Tree<T>
        ensures { Holds result (rest [] None) }
    {
        Tree {
            alloc,
            dim: Dimension::XY,
            last: Ended::Point,
            is_lost: false,
            x: None,
            y: None,
            z: None,
            m: None,
            coords: Vec::new(alloc),
            points: Vec::new(alloc),
            lines: Vec::new(alloc),
            areas: Vec::new(alloc),
            outer: Vec::new(alloc),
        }
    }

    /// Whether something was lost, for want of memory.
    #[inline(always)]
    pub fn is_lost(&self) -> bool
        ensures { result ≡ self.now.is_lost }
    {
        self.is_lost
    }

    /// The coordinate of the numbers that came.
    #[inline(always)]
    fn coord(&self) -> Option<Coord<T>>
        ensures { result ≡ coord_of self.now }
    {
        match self.x {
            None => None,
            Some(x) => match self.y {
                None => None,
                Some(y) => Some(Coord {
                    x,
                    y,
                    z: self.z,
                    m: self.m,
                }),
            },
        }
    }

    /// The header of a geometry.
    #[inline(always)]
    fn begin(&mut self, dim: Dimension)
        ensures { Becomes false (λ w. w ≡ headed XY w.outer) (λ w. record w { dim = dim }) self.old self.new }
    {
        self.dim = dim;
    }

    /// A number of a coordinate.
    #[inline(always)]
    fn put_number(&mut self, axis: Axis, number: T)
        ensures { Becomes false (λ w. w.grown ≡ None) (λ w. record w { hand = with_number axis number w.hand }) self.old self.new }
    {
        match axis {
            Axis::X => self.x = Some(number),
            Axis::Y => self.y = Some(number),
            Axis::Z => self.z = Some(number),
            Axis::M => self.m = Some(number),
        }
    }

    /// A coordinate is whole.
    #[inline(always)]
    fn end_coord(&mut self)
        ensures { Becomes true HasNumbers with_coord self.old self.new }
    {
        if self.z.is_some() || self.m.is_some() {
            return self.end_high_coord();
        }
        if let Some(x) = self.x {
            if let Some(y) = self.y {
                if !add_flat(&mut self.coords, x, y) {
                    self.is_lost = true;
                }
            }
        }
    }

    /// Ends a coordinate of any dimension.
    #[inline(never)]
    fn end_high_coord(&mut self)
        ensures { Becomes true HasNumbers with_coord self.old self.new }
    {
        if let Some(coord) = self.coord() {
            if !add(&mut self.coords, coord) {
                self.is_lost = true;
            }
        }
    }

    /// A point of a multipoint ends.
    #[inline(never)]
    fn end_point(&mut self)
        ensures { Becomes true HasPoint with_point self.old self.new }
    {
        let point = Point::new(self.coord(), self.dim);
        if !add(&mut self.points, point) {
            self.is_lost = true;
        }
    }

    /// A line, or a ring, ends.
    #[inline]
    fn end_line(&mut self)
        ensures { Becomes true (λ w. w.grown ≡ None) with_line self.old self.new }
    {
        let line = LineString::new(taken(&mut self.coords, self.alloc), self.dim);
        if !add(&mut self.lines, line) {
            self.is_lost = true;
        }
    }

    /// A polygon of a multipolygon ends.
    #[inline(never)]
    fn end_area(&mut self)
        ensures { Becomes true (λ w. w.grown ≡ None) (ended kind.Area) self.old self.new }
    {
        let area = Polygon::new(taken(&mut self.lines, self.alloc), self.dim);
        if !add(&mut self.areas, area) {
            self.is_lost = true;
        }
    }

    /// A collection opens.
    #[inline(always)]
    fn open_collection(&mut self)
        ensures { Becomes true (MayOpen kind.Collection) (opened kind.Collection) self.old self.new }
    {
        let collection = OpenCollection {
            members: Vec::new(self.alloc),
            dim: self.dim,
        };
        self.dim = Dimension::XY;
        if !add(&mut self.outer, collection) {
            self.is_lost = true;
        }
    }

    /// The collection that was opened last.
    #[inline(always)]
    fn collection(&mut self) -> Wkt<T>
        ensures { GivesLast self.old result self.new }
    {
        match self.outer.pop() {
            Some(OpenCollection { members, dim }) => Wkt::from(GeometryCollection::new(
                members, dim,
            )),
            None => Wkt::from(GeometryCollection::new(Vec::new(self.alloc), self.dim)),
        }
    }

    /// The geometry that ended last.
    #[inline(always)]
    pub(crate) fn geometry(&mut self) -> Wkt<T>
        ensures { TreeGives self.old result self.new }
    {
        let (alloc, dim) = (self.alloc, self.dim);
        match self.last {
            Ended::Point => Wkt::from(Point::new(self.coord(), dim)),
            Ended::LineString => Wkt::from(LineString::new(taken(&mut self.coords, alloc), dim)),
            Ended::Polygon => Wkt::from(Polygon::new(taken(&mut self.lines, alloc), dim)),
            Ended::MultiPoint => Wkt::from(MultiPoint::new(taken(&mut self.points, alloc), dim)),
            Ended::MultiLineString => {
                Wkt::from(MultiLineString::new(taken(&mut self.lines, alloc), dim))
            }
            Ended::MultiPolygon => {
                Wkt::from(MultiPolygon::new(taken(&mut self.areas, alloc), dim))
            }
            Ended::Collection => self.collection(),
            Ended::NoMembers => Wkt::from(GeometryCollection::new(Vec::new(alloc), dim)),
        }
    }

    /// The dimension of the header that came last.
    #[inline(always)]
    pub(crate) fn dim(&self) -> Dimension
        ensures { result ≡ self.now.dim }
    {
        self.dim
    }

    /// The numbers of the point that ended last, if it has two and nothing was lost.
    #[inline(always)]
    pub(crate) fn pair(&self) -> Option<(T, T)>
        ensures { IfSome result (λ p. IsPair self.now p.0 p.1) }
    {
        let is_pair = matches!(self.last, Ended::Point)
            && !self.is_lost
            && self.z.is_none()
            && self.m.is_none();
        if !is_pair {
            return None;
        }
        match (self.x, self.y) {
            (Some(x), Some(y)) => Some((x, y)),
            _ => None,
        }
    }

    /// Puts a geometry into the collection that was opened last. Then the next one may begin.
    #[inline(always)]
    fn put_member(&mut self, geometry: Wkt<T>, is_last: bool)
        ensures { Joins self.old geometry self.new }
    {
        self.dim = Dimension::XY;
        self.x = None;
        self.y = None;
        self.z = None;
        self.m = None;
        if let Some(open) = self.outer.last_mut() {
            if !add_one(&mut open.members, geometry, is_last) {
                self.is_lost = true;
            }
        }
    }

    /// A member of a collection is whole.
    #[inline(never)]
    fn end_member(&mut self, is_last: bool)
        ensures { Becomes true HasMember (λ w. joined w.outer w.grown) self.old self.new }
    {
        let geometry = self.geometry();
        self.put_member(geometry, is_last);
    }

    /// An item of a part is whole; whether it is the last matters to collections alone.
    #[inline(always)]
    fn end_item(&mut self, part: Part, is_last: bool)
        ensures { Becomes (lists_items part) (MayJoin part) (with_item part) self.old self.new }
    {
        match part {
            Part::LineString | Part::Ring | Part::Line | Part::AreaRing => self.end_coord(),
            Part::Collection => self.end_member(is_last),
            _ => {}
        }
    }

    /// A whole geometry ends.
    #[inline(always)]
    fn end_whole(&mut self, last: Ended)
        ensures { self.new ≡ record self.old { last = last } }
    {
        self.last = last;
    }

    /// A part ends whose items are whole.
    #[inline(always)]
    #[tactic(auto, using(crate::proofs::TreeHolds::part_ends))]
    fn end(&mut self, part: Part)
        ensures { Becomes (lists_end part) (MayEnd part) (ended part) self.old self.new }
    {
        match part {
            Part::Point => self.end_whole(Ended::Point),
            Part::LineString => self.end_whole(Ended::LineString),
            Part::Polygon => self.end_whole(Ended::Polygon),
            Part::MultiPoint => self.end_whole(Ended::MultiPoint),
            Part::MultiLineString => self.end_whole(Ended::MultiLineString),
            Part::MultiPolygon => self.end_whole(Ended::MultiPolygon),
            Part::Collection => self.end_whole(Ended::Collection),
            Part::Member | Part::Bare => self.end_point(),
            Part::Ring | Part::Line | Part::AreaRing => self.end_line(),
            Part::Area => self.end_area(),
        }
    }

    /// A part without items.
    #[inline(never)]
    fn put_empty(&mut self, part: Part)
        ensures { Becomes (lists_end part) (MayBeEmpty part) (λ w. ended part (without_items part w)) self.old self.new }
    {
        self.x = None;
        match part {
            Part::Collection => self.end_whole(Ended::NoMembers),
            _ => self.end(part),
        }
    }
}

/// Makes a tree, which is lent to it.
#[derive(Drop)]
pub struct WktBuilder<'a, T> {
    tree: &'a mut Tree<T>,
}

impl<'a, T: WktNum> WktBuilder<'a, T> {
    ghost use Rattle.wkt_values.specs.Trees.{tree_of};

    pub fn new(tree: &'a mut Tree<T>) -> Self
        ensures { tree_of result ≡ tree.entry }
    {
        WktBuilder { tree }
    }

    /// The tree.
    pub fn into_tree(self) -> &'a mut Tree<T>
        ensures { result ≡ tree_of self.entry }
    {
        self.tree
    }
}

impl<T: WktNum> Builder<T> for WktBuilder<'_, T> {
    ghost use Rattle.wkt_values.specs.Trees.{tree_maker};

    ghost maker = { tree_maker T.read };

    #[inline(always)]
    #[tactic(auto, using(crate::proofs::TreeHolds::header_grew))]
    fn begin(self, _whole: Part, dim: Dimension) -> Self {
        self.tree.begin(dim);
        self
    }

    #[inline(always)]
    #[tactic(auto, using(crate::proofs::TreeHolds::open_grew, crate::proofs::TreeHolds::no_opening))]
    fn open(self, part: Part) -> Self {
        if let Part::Collection = part {
            self.tree.open_collection();
        }
        self
    }

    #[inline(always)]
    #[tactic(auto, using(crate::proofs::TreeHolds::comma_grew))]
    fn comma(self, part: Part) -> Self {
        self.tree.end_item(part, false);
        self
    }

    #[inline(always)]
    #[tactic(auto, using(crate::proofs::TreeHolds::close_grew))]
    fn close(self, part: Part) -> Self {
        self.tree.end_item(part, true);
        self.tree.end(part);
        self
    }

    #[inline(always)]
    #[tactic(auto, using(crate::proofs::TreeHolds::empty_grew))]
    fn empty(self, part: Part) -> Self {
        self.tree.put_empty(part);
        self
    }

    #[inline(always)]
    #[tactic(auto, using(crate::proofs::TreeHolds::number_grew))]
    fn number(self, number: T, axis: Axis) -> Self {
        self.tree.put_number(axis, number);
        self
    }

    #[inline(always)]
    fn number_in(self, text: &[u8], at: usize, axis: Axis) -> (Self, Option<usize>) {
        match read_at::<T>(text, at) {
            Some((number, end)) => {
                self.tree.put_number(axis, number);
                (self, Some(end))
            }
            None => (self, None),
        }
    }

    #[inline(always)]
    fn bare_in(self, text: &[u8], at: usize) -> (Self, Option<usize>) {
        match read_at::<T>(text, at) {
            Some((number, end)) => (self.open(Part::Member).number(number, Axis::X), Some(end)),
            None => (self, None),
        }
    }
}
