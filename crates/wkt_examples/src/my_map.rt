//! A custom representation over whole numbers, by the access traits: coordinates, points, line strings, polygons and lists of
//! them, lines, rectangles and triangles, a geometry of any kind that may hold geometries, and a collection.
ghost use Rattle.std.specs.Prelude.{◌≤◌, map, vec_len};
ghost use Rattle.wkt.specs.Dimensions.TheVariants.{Unknown};

use wkt::geo_traits::{
    CoordTrait, Dimensions, GeometryCollectionTrait, GeometryTrait, GeometryType, LineStringTrait,
    LineTrait, MultiLineStringTrait, MultiPointTrait, MultiPolygonTrait, PointTrait, PolygonTrait,
    RectTrait, TriangleTrait,
};

/// A coordinate of as many numbers as one likes, but two at least.
#[derive(Drop)]
pub struct Spot {
    /// x, y, and whatever follows.
    pub numbers: Vec<i32>,
    pub ghost two: { 2 ≤ vec_len numbers },
}

/// A point, or an empty one.
#[derive(Drop)]
pub struct Dot {
    pub header: Dimensions,
    pub spot: Option<Spot>,
}

/// A list of points.
#[derive(Drop)]
pub struct Dots {
    pub header: Dimensions,
    pub members: Vec<Dot>,
}

/// A line string, or a ring.
#[derive(Drop)]
pub struct Track {
    pub header: Dimensions,
    pub spots: Vec<Spot>,
}

/// A list of line strings.
#[derive(Drop)]
pub struct Tracks {
    pub header: Dimensions,
    pub members: Vec<Track>,
}

/// A line between two coordinates.
#[derive(Drop)]
pub struct Segment {
    pub header: Dimensions,
    pub from: Spot,
    pub to: Spot,
}

/// A polygon.
#[derive(Drop)]
pub struct Area {
    pub header: Dimensions,
    pub exterior: Option<Track>,
    pub interiors: Vec<Track>,
}

/// A list of polygons.
#[derive(Drop)]
pub struct Areas {
    pub header: Dimensions,
    pub members: Vec<Area>,
}

/// A rectangle by the first two corners, and a triangle by all three.
#[derive(Drop)]
pub struct Corners {
    pub header: Dimensions,
    pub one: Spot,
    pub two: Spot,
    pub three: Spot,
}

/// A geometry of any kind. A group holds figures.
#[derive(Drop)]
pub enum Figure {
    Point(Dot),
    Line(Track),
    Polygon(Area),
    Points(Dots),
    Lines(Tracks),
    Polygons(Areas),
    Rect(Corners),
    Triangle(Corners),
    Segment(Segment),
    Group(Dimensions, Vec<Figure>),
}

/// A collection by itself.
#[derive(Drop)]
pub struct Map {
    pub header: Dimensions,
    pub figures: Vec<Figure>,
}

impl CoordTrait for Spot {
    type T = i32;

    ghost numbers = { λ s. s.numbers.items };

    ghost dimension = { λ s. Unknown (vec_len s.numbers) };

    fn dim(&self) -> Dimensions {
        Dimensions::Unknown(self.numbers.len())
    }

    fn x(&self) -> i32 {
        self.numbers[0]
    }

    fn y(&self) -> i32 {
        self.numbers[1]
    }

    fn nth(&self, n: usize) -> i32 {
        self.numbers[n]
    }
}

impl PointTrait for Dot {
    ghost use Rattle.wkt_examples.specs.Mine.{point_of};

    type T = i32;

    type CoordType = Spot;

    ghost dimension = { λ p. p.header };

    ghost coordinate = { point_of };

    fn dim(&self) -> Dimensions {
        self.header
    }

    fn coord(&self) -> Option<&Spot> {
        self.spot.as_ref()
    }
}

impl MultiPointTrait for Dots {
    ghost use Rattle.wkt_examples.specs.Mine.{point_of};

    type T = i32;

    type InnerPointType = Dot;

    ghost dimension = { λ m. m.header };

    ghost points = { λ m. map point_of m.members.items };

    fn dim(&self) -> Dimensions {
        self.header
    }

    fn num_points(&self) -> usize {
        self.members.len()
    }

    fn point(&self, i: usize) -> &Dot {
        &self.members[i]
    }
}

impl LineStringTrait for Track {
    ghost use Rattle.wkt_examples.specs.Mine.{line_of};

    type T = i32;

    type CoordType = Spot;

    ghost dimension = { λ l. l.header };

    ghost coordinates = { line_of };

    fn dim(&self) -> Dimensions {
        self.header
    }

    fn num_coords(&self) -> usize {
        self.spots.len()
    }

    fn coord(&self, i: usize) -> &Spot {
        &self.spots[i]
    }
}

impl MultiLineStringTrait for Tracks {
    ghost use Rattle.wkt_examples.specs.Mine.{line_of};

    type T = i32;

    type InnerLineStringType = Track;

    ghost dimension = { λ m. m.header };

    ghost line_strings = { λ m. map line_of m.members.items };

    fn dim(&self) -> Dimensions {
        self.header
    }

    fn num_line_strings(&self) -> usize {
        self.members.len()
    }

    fn line_string(&self, i: usize) -> &Track {
        &self.members[i]
    }
}

impl LineTrait for Segment {
    type T = i32;

    type CoordType = Spot;

    ghost dimension = { λ b. b.header };

    ghost from = { λ b. b.from.numbers.items };

    ghost to = { λ b. b.to.numbers.items };

    fn dim(&self) -> Dimensions {
        self.header
    }

    fn start(&self) -> &Spot {
        &self.from
    }

    fn end(&self) -> &Spot {
        &self.to
    }
}

impl PolygonTrait for Area {
    ghost use Rattle.wkt_examples.specs.Mine.{polygon_of};

    type T = i32;

    type RingType = Track;

    ghost dimension = { λ p. p.header };

    ghost polygon = { polygon_of };

    fn dim(&self) -> Dimensions {
        self.header
    }

    fn exterior(&self) -> Option<&Track> {
        self.exterior.as_ref()
    }

    fn num_interiors(&self) -> usize {
        self.interiors.len()
    }

    fn interior(&self, i: usize) -> &Track {
        &self.interiors[i]
    }
}

impl MultiPolygonTrait for Areas {
    ghost use Rattle.wkt_examples.specs.Mine.{polygon_of};

    type T = i32;

    type InnerPolygonType = Area;

    ghost dimension = { λ m. m.header };

    ghost polygons = { λ m. map polygon_of m.members.items };

    fn dim(&self) -> Dimensions {
        self.header
    }

    fn num_polygons(&self) -> usize {
        self.members.len()
    }

    fn polygon(&self, i: usize) -> &Area {
        &self.members[i]
    }
}

impl RectTrait for Corners {
    type T = i32;

    type CoordType = Spot;

    ghost dimension = { λ r. r.header };

    ghost min_corner = { λ r. r.one.numbers.items };

    ghost max_corner = { λ r. r.two.numbers.items };

    fn dim(&self) -> Dimensions {
        self.header
    }

    fn min(&self) -> &Spot {
        &self.one
    }

    fn max(&self) -> &Spot {
        &self.two
    }
}

impl TriangleTrait for Corners {
    type T = i32;

    type CoordType = Spot;

    ghost dimension = { λ t. t.header };

    ghost first_corner = { λ t. t.one.numbers.items };

    ghost second_corner = { λ t. t.two.numbers.items };

    ghost third_corner = { λ t. t.three.numbers.items };

    fn dim(&self) -> Dimensions {
        self.header
    }

    fn first(&self) -> &Spot {
        &self.one
    }

    fn second(&self) -> &Spot {
        &self.two
    }

    fn third(&self) -> &Spot {
        &self.three
    }
}

impl GeometryTrait for Figure {
    ghost use Rattle.wkt_examples.specs.Mine.{figure_shape};

    type T = i32;

    type PointType = Dot;

    type LineStringType = Track;

    type PolygonType = Area;

    type MultiPointType = Dots;

    type MultiLineStringType = Tracks;

    type MultiPolygonType = Areas;

    type RectType = Corners;

    type TriangleType = Corners;

    type LineType = Segment;

    ghost shape = { figure_shape };

    fn dim(&self) -> Dimensions {
        match self {
            Figure::Point(p) => p.header,
            Figure::Line(l) => l.header,
            Figure::Polygon(p) => p.header,
            Figure::Points(m) => m.header,
            Figure::Lines(m) => m.header,
            Figure::Polygons(m) => m.header,
            Figure::Rect(r) => r.header,
            Figure::Triangle(t) => t.header,
            Figure::Segment(b) => b.header,
            Figure::Group(header, _) => *header,
        }
    }

    fn as_type(
        &self,
    ) -> GeometryType<'_, Dot, Track, Area, Dots, Tracks, Areas, Corners, Corners, Segment> {
        match self {
            Figure::Point(p) => GeometryType::Point(p),
            Figure::Line(l) => GeometryType::LineString(l),
            Figure::Polygon(p) => GeometryType::Polygon(p),
            Figure::Points(m) => GeometryType::MultiPoint(m),
            Figure::Lines(m) => GeometryType::MultiLineString(m),
            Figure::Polygons(m) => GeometryType::MultiPolygon(m),
            Figure::Rect(r) => GeometryType::Rect(r),
            Figure::Triangle(t) => GeometryType::Triangle(t),
            Figure::Segment(b) => GeometryType::Line(b),
            Figure::Group(_, members) => GeometryType::GeometryCollection(members.len()),
        }
    }

    fn geometry(&self, i: usize) -> &Figure {
        match self {
            Figure::Group(_, members) => &members[i],
            _ => self,
        }
    }
}

impl GeometryCollectionTrait for Map {
    ghost use Rattle.wkt_examples.specs.Mine.{figure_shape};

    type T = i32;

    type GeometryType = Figure;

    ghost dimension = { λ m. m.header };

    ghost geometries = { λ m. map figure_shape m.figures.items };

    fn dim(&self) -> Dimensions {
        self.header
    }

    fn num_geometries(&self) -> usize {
        self.figures.len()
    }

    fn geometry(&self, i: usize) -> &Figure {
        &self.figures[i]
    }
}
