//! Laws of flat values and their texts: each function changes nothing, and its contract is the law.
ghost use Rattle.wkt_convert.specs.Laws.{ComesBack};
ghost use Rattle.wkt.specs.Laws.{BackIsRead, CornersAreInOrder, FlatReadsBack, MembersAreListed, PlainReadsBack};
ghost use Rattle.wkt_flat.specs.Tree.{flat_tree};

use wkt_convert::laws::plain_comes_back;
use wkt_flat::Geometry;
use wkt_flat::laws::rings_are_closed;
use wkt_num::WktNum;

/// The text of a flat value is read as the `Wkt` that the value is turned into (`to_wkt`), if its numbers are values of
/// the number type: by way of the text or without it, it is the same `Wkt`.
pub fn back_is_read<T: WktNum>()
    ensures { BackIsRead T.is_value T.num T.read }
{}

/// The text of what a flat value holds is answered with that, and with nothing else, if it is as
/// `plain_comes_back` asks and its numbers are values of the number type.
pub fn plain_reads_back<T: WktNum>()
    ensures { PlainReadsBack T.is_value T.num T.read T.eq }
{}

/// `plain_comes_back` and `plain_reads_back` for a geometry, whose rings are always closed: if it nowhere holds a line, a
/// rectangle or a triangle, and its polygons with an empty exterior have no interiors, it comes back
/// from its `Wkt`, and its own text is answered with it and with nothing else.
///
/// It walks over the geometry, and changes nothing.
pub fn geometry_comes_back<T: WktNum>(geometry: &Geometry<T>)
    ensures comes_back { ComesBack T.eq (flat_tree geometry.now) }
    ensures reads_back { FlatReadsBack T.is_value T.num T.read T.eq (flat_tree geometry.now) }
{
    rings_are_closed(geometry);
    plain_comes_back::<T>();
    plain_reads_back::<T>();
}

/// The corners of a rectangle over numbers that are totally ordered, as whole numbers and decimals are: the numbers of
/// its least corner are at most those of its greatest, whichever corners it was made of. So what `Rect::new` ensures
/// is two corners in order.
pub fn corners_are_in_order<T: WktNum + Ord>()
    ensures { CornersAreInOrder T.cmp T.partial_cmp }
{}

/// A collection has one list of members: where two lists are the members of one collection, as the list that it was
/// made of and that of `geometries()` are, they hold the same, place by place. It says so of `types` and of
/// `geo_types`.
pub fn members_are_listed<T>()
    ensures { MembersAreListed T }
{}
