//! Flat values, made as the parts of a geometry come.
ghost use Rattle.std.specs.Prelude.{◌≡◌, [], IfOk, IfSome, None};
ghost use Rattle.wkt_flat.specs.Equal.{coord_eq};
ghost use Rattle.wkt_flat.specs.Tree.{Flat, flat_tree};
ghost use Rattle.wkt_convert.specs.Flatten.{first_outside};
ghost use Rattle.wkt_values.specs.Growing.{HasMember, HasNumbers, HasPoint, MayEnd, MayJoin, MayOpen, MayBeEmpty, ended, joined, opened, rest, with_coord, with_item, with_line, with_number, with_point, without_items};
ghost use Rattle.wkt_machine.specs.declared.part.Part.TheVariants as kind;
ghost use Rattle.wkt_flat_read.specs.Trees.{FlatBecomes, FlatGives, GivesCollection, GivesFlat, FlatGivesLast, GivesMembers, GivesOther, FlatHolds, FlatJoins, IsLone, coord_of, found_of, point_or_none};

use std::alloc::{AllocError, Global};
use wkt_convert::{Flattened, Found};
use wkt_flat::{
    Coord, Geometry, GeometryCollection, LineString, MultiLineString, MultiPoint, MultiPolygon,
    Point, Polygon,
};
use wkt_machine::{Axis, Part};
use wkt_num::WktNum;
use wkt_values::Ended;
use wkt_values::adding::{add, add_one, taken};

/// What was made of the parts so far. Those of a geometry stay here until it is known where it goes: a member that
/// another follows is put into its collection as one of several, the last one with room for itself alone.
#[derive(Drop)]
pub struct FlatTree<T> {
    alloc: Global,
    // The geometry that ended last.
    last: Ended,
    // Whether something was lost, for want of memory.
    is_lost: bool,
    // Whether an empty point came as a member of a multipoint. It isn't kept, since it isn't flat.
    is_refused: bool,
    // The numbers that came last.
    x: Option<T>,
    y: Option<T>,
    coords: Vec<Coord<T>>,
    points: Vec<Point<T>>,
    lines: Vec<LineString<T>>,
    areas: Vec<Polygon<T>>,
    // The members of the collections that are open.
    outer: Vec<Vec<Geometry<T>>>,
}

/// The polygon of the rings, each of them closed. The first is the exterior.
fn polygon<T: WktNum>(alloc: Global, rings: Vec<LineString<T>>) -> Result<Polygon<T>, AllocError>
    ensures { IfOk result (λ y. y ≡ first_outside (coord_eq T.eq) rings.items) }
{
    let mut interiors = rings;
    if interiors.is_empty() {
        return Polygon::new(alloc, LineString::new(Vec::new(alloc)), interiors);
    }
    let exterior = interiors.remove(0);
    Polygon::new(alloc, exterior, interiors)
}

impl<T: WktNum> FlatTree<T> {
    // `drive` is inlined into `front_of` only while what is `inline(always)` in it is small, which is worth a tenth of
    // `try_from_wkt_str` on lines of points. So what seldom ends isn't.

    /// Nothing has come yet.
    #[inline(always)]
    pub fn new(alloc: Global) -> FlatTree<T>
        ensures { FlatHolds (coord_eq T.eq) result (rest [] None) }
    {
        FlatTree {
            alloc,
            last: Ended::Point,
            is_lost: false,
            is_refused: false,
            x: None,
            y: None,
            coords: Vec::new(alloc),
            points: Vec::new(alloc),
            lines: Vec::new(alloc),
            areas: Vec::new(alloc),
            outer: Vec::new(alloc),
        }
    }

    /// Whether something was lost, for want of memory.
    #[inline(always)]
    pub fn is_lost(&self) -> bool
        ensures { result ≡ self.now.is_lost }
    {
        self.is_lost
    }

    /// The coordinate of the numbers that came.
    #[inline(always)]
    fn coord(&self) -> Option<Coord<T>>
        ensures { result ≡ coord_of self.now }
    {
        match self.x {
            None => None,
            Some(x) => match self.y {
                None => None,
                Some(y) => Some(Coord { x, y }),
            },
        }
    }

    /// A number of a coordinate. The third and fourth are dropped.
    #[inline(always)]
    pub(crate) fn put_number(&mut self, axis: Axis, number: T)
        ensures { FlatBecomes (coord_eq T.eq) (λ w. w.grown ≡ None) (λ w. record w { hand = with_number axis number w.hand }) self.old self.new }
    {
        match axis {
            Axis::X => self.x = Some(number),
            Axis::Y => self.y = Some(number),
            Axis::Z | Axis::M => {}
        }
    }

    /// A coordinate is whole.
    #[inline(always)]
    #[tactic(auto, using(crate::proofs::Holding::coord_ends))]
    fn end_coord(&mut self)
        ensures { FlatBecomes (coord_eq T.eq) HasNumbers with_coord self.old self.new }
    {
        if let Some(coord) = self.coord() {
            if !add(&mut self.coords, coord) {
                self.is_lost = true;
            }
        }
    }

    /// A point of a multipoint ends.
    #[inline(never)]
    #[tactic(auto, using(crate::proofs::Holding::point_ends, crate::proofs::Holding::empty_point_ends))]
    fn end_point(&mut self)
        ensures { FlatBecomes (coord_eq T.eq) HasPoint with_point self.old self.new }
    {
        match self.coord() {
            Some(coord) => {
                if !add(&mut self.points, Point(coord)) {
                    self.is_lost = true;
                }
            }
            None => self.is_refused = true,
        }
    }

    /// A line, or a ring, ends.
    #[inline(always)]
    fn end_line(&mut self)
        ensures { FlatBecomes (coord_eq T.eq) (λ w. w.grown ≡ None) with_line self.old self.new }
    {
        let line = LineString::new(taken(&mut self.coords, self.alloc));
        if !add(&mut self.lines, line) {
            self.is_lost = true;
        }
    }

    /// A polygon of a multipolygon ends.
    #[inline(never)]
    fn end_area(&mut self)
        ensures { FlatBecomes (coord_eq T.eq) (λ w. w.grown ≡ None) (ended kind.Area) self.old self.new }
    {
        match polygon(self.alloc, taken(&mut self.lines, self.alloc)) {
            Ok(area) => {
                if !add(&mut self.areas, area) {
                    self.is_lost = true;
                }
            }
            Err(_) => self.is_lost = true,
        }
    }

    /// A collection opens.
    #[inline(never)]
    pub(crate) fn open_collection(&mut self)
        ensures { FlatBecomes (coord_eq T.eq) (MayOpen kind.Collection) (opened kind.Collection) self.old self.new }
    {
        if !add(&mut self.outer, Vec::new(self.alloc)) {
            self.is_lost = true;
        }
    }

    /// The members of the collection that was opened last.
    #[inline(always)]
    fn last_members(&mut self) -> Vec<Geometry<T>>
        ensures { FlatGivesLast (coord_eq T.eq) self.old result self.new }
    {
        match self.outer.pop() {
            Some(members) => members,
            None => Vec::new(self.alloc),
        }
    }

    /// The members of the collection that ended.
    #[inline(always)]
    fn members(&mut self) -> Vec<Geometry<T>>
        ensures { GivesMembers (coord_eq T.eq) self.old result self.new }
    {
        match self.last {
            Ended::Collection => self.last_members(),
            _ => Vec::new(self.alloc),
        }
    }

    /// The polygon that ended last; nothing where memory ran out.
    #[inline(always)]
    fn whole_polygon(&mut self) -> Option<Geometry<T>>
        ensures geometry { IfSome result (λ g. flat_tree g ≡ Flat.polygon (first_outside (coord_eq T.eq) self.old.lines.items)) }
        ensures after { self.new ≡ record self.old { lines = self.new.lines } }
        ensures none { self.new.lines.items ≡ [] }
    {
        match polygon(self.alloc, taken(&mut self.lines, self.alloc)) {
            Ok(area) => Some(Geometry::Polygon(area)),
            Err(_) => None,
        }
    }

    /// The point that ended last; an empty multipoint where it is empty.
    #[inline(always)]
    fn whole_point(&self) -> Geometry<T>
        ensures { flat_tree result ≡ point_or_none (coord_of self.now) }
    {
        match self.coord() {
            Some(coord) => Geometry::Point(Point(coord)),
            None => Geometry::MultiPoint(MultiPoint::new(Vec::new(self.alloc))),
        }
    }

    /// The geometry that ended last; nothing where memory ran out.
    #[inline(always)]
    fn geometry(&mut self) -> Option<Geometry<T>>
        ensures { FlatGives (coord_eq T.eq) self.old result self.new }
    {
        let alloc = self.alloc;
        match self.last {
            Ended::Point => Some(self.whole_point()),
            Ended::LineString => {
                Some(Geometry::LineString(LineString::new(taken(&mut self.coords, alloc))))
            }
            Ended::Polygon => self.whole_polygon(),
            Ended::MultiPoint => {
                Some(Geometry::MultiPoint(MultiPoint::new(taken(&mut self.points, alloc))))
            }
            Ended::MultiLineString => {
                Some(Geometry::MultiLineString(MultiLineString::new(taken(&mut self.lines, alloc))))
            }
            Ended::MultiPolygon => {
                Some(Geometry::MultiPolygon(MultiPolygon::new(taken(&mut self.areas, alloc))))
            }
            Ended::Collection | Ended::NoMembers => {
                Some(Geometry::GeometryCollection(GeometryCollection::new_from(self.members())))
            }
        }
    }

    /// The kind of the geometry that ended last, if it is no collection.
    #[inline(always)]
    fn found(&self) -> Option<Found>
        ensures { result ≡ found_of self.now.last }
    {
        match self.last {
            Ended::Point => Some(Found::Point),
            Ended::LineString => Some(Found::LineString),
            Ended::Polygon => Some(Found::Polygon),
            Ended::MultiPoint => Some(Found::MultiPoint),
            Ended::MultiLineString => Some(Found::MultiLineString),
            Ended::MultiPolygon => Some(Found::MultiPolygon),
            Ended::Collection | Ended::NoMembers => None,
        }
    }

    /// The collection that is whole.
    #[inline(always)]
    fn whole_collection(&mut self) -> Flattened<T>
        ensures { GivesCollection (coord_eq T.eq) self.old result }
    {
        if self.is_refused {
            return Flattened::RefusedCollection;
        }
        Flattened::Collection(GeometryCollection::new_from(self.members()))
    }

    /// The geometry of another kind that is whole; nothing where memory ran out.
    #[inline(always)]
    fn whole_other(&mut self, found: Found) -> Option<Flattened<T>>
        ensures { GivesOther (coord_eq T.eq) self.old found result }
    {
        if self.is_refused {
            return Some(Flattened::RefusedMultiPoint);
        }
        match self.geometry() {
            Some(geometry) => Some(Flattened::Other(geometry, found)),
            None => None,
        }
    }

    /// The whole geometry; nothing where memory ran out.
    #[inline(always)]
    pub(crate) fn whole(&mut self) -> Option<Flattened<T>>
        ensures { GivesFlat (coord_eq T.eq) self.old result }
    {
        match self.found() {
            None => Some(self.whole_collection()),
            Some(found) => self.whole_other(found),
        }
    }

    /// The coordinate of the whole point, if it has one and nothing was lost.
    #[inline(always)]
    pub(crate) fn lone(&self) -> Option<Coord<T>>
        ensures { IfSome result (IsLone self.now) }
    {
        let is_point = matches!(self.last, Ended::Point) && !self.is_lost && !self.is_refused;
        if is_point { self.coord() } else { None }
    }

    /// Puts a geometry into the collection that was opened last. Then the next one may begin.
    #[inline(always)]
    fn put_member(&mut self, geometry: Geometry<T>, is_last: bool)
        ensures { FlatJoins (coord_eq T.eq) self.old geometry self.new }
    {
        self.x = None;
        self.y = None;
        if let Some(members) = self.outer.last_mut() {
            if !add_one(members, geometry, is_last) {
                self.is_lost = true;
            }
        }
    }

    /// A member of a collection is whole.
    #[inline(never)]
    #[tactic(auto, using(crate::proofs::Holding::member_ends))]
    fn end_member(&mut self, is_last: bool)
        ensures { FlatBecomes (coord_eq T.eq) HasMember (λ w. joined w.outer w.grown) self.old self.new }
    {
        match self.geometry() {
            Some(geometry) => self.put_member(geometry, is_last),
            None => self.is_lost = true,
        }
    }

    /// An item of a part is whole; whether it is the last matters to collections alone.
    #[inline(always)]
    pub(crate) fn end_item(&mut self, part: Part, is_last: bool)
        ensures { FlatBecomes (coord_eq T.eq) (MayJoin part) (with_item part) self.old self.new }
    {
        match part {
            Part::LineString | Part::Ring | Part::Line | Part::AreaRing => self.end_coord(),
            Part::Collection => self.end_member(is_last),
            _ => {}
        }
    }

    /// A whole geometry ends.
    #[inline(always)]
    fn end_whole(&mut self, last: Ended)
        ensures { self.new ≡ record self.old { last = last } }
    {
        self.last = last;
    }

    /// A part ends whose items are whole.
    #[inline(always)]
    pub(crate) fn end(&mut self, part: Part)
        ensures { FlatBecomes (coord_eq T.eq) (MayEnd part) (ended part) self.old self.new }
    {
        match part {
            Part::Point => self.end_whole(Ended::Point),
            Part::LineString => self.end_whole(Ended::LineString),
            Part::Polygon => self.end_whole(Ended::Polygon),
            Part::MultiPoint => self.end_whole(Ended::MultiPoint),
            Part::MultiLineString => self.end_whole(Ended::MultiLineString),
            Part::MultiPolygon => self.end_whole(Ended::MultiPolygon),
            Part::Collection => self.end_whole(Ended::Collection),
            Part::Member | Part::Bare => self.end_point(),
            Part::Ring | Part::Line | Part::AreaRing => self.end_line(),
            Part::Area => self.end_area(),
        }
    }

    /// A part without items.
    #[inline(always)]
    pub(crate) fn put_empty(&mut self, part: Part)
        ensures { FlatBecomes (coord_eq T.eq) (MayBeEmpty part) (λ w. ended part (without_items part w)) self.old self.new }
    {
        self.x = None;
        match part {
            Part::Collection => self.end_whole(Ended::NoMembers),
            _ => self.end(part),
        }
    }
}
