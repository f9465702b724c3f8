//! Laws of flat values and their `Wkt`: each function changes nothing, and its contract is the law.
ghost use Rattle.wkt_convert.specs.Laws.{FlatAndBack, PlainComesBack};

use wkt_num::WktNum;

/// A flat value and its `Wkt` have one value, so one text, and both can be written.
pub fn flat_and_back<T: WktNum>()
    ensures { FlatAndBack T }
{}

/// What a flat value holds comes back from its `Wkt`, if its rings are closed, it nowhere holds a line,
/// a rectangle or a triangle, and its polygons with an empty exterior have no interiors.
pub fn plain_comes_back<T: WktNum>()
    ensures { PlainComesBack T.eq }
{}
