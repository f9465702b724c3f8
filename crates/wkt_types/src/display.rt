//! Each type displayed as its text.
ghost use Rattle.wkt_types.specs.Shown.{shown, Shows};
ghost use Rattle.wkt_types.specs.Tree.{tree, collection_tree, point, line_string, polygon, multi_point, multi_line_string, multi_polygon};
ghost use Rattle.wkt_types.specs.Values.{tree_shape};

use crate::geometry::{GeometryCollection, Wkt};
use crate::linestring::LineString;
use crate::multilinestring::MultiLineString;
use crate::multipoint::MultiPoint;
use crate::multipolygon::MultiPolygon;
use crate::point::Point;
use crate::polygon::Polygon;
use crate::show::{show_collection, show_geometry};
use std::fmt;
use std::fmt::Formatter;
use wkt_num::WktNum;

impl<T: WktNum> fmt::Display for Wkt<T> {
    ghost output = { λ x. shown T.num (tree_shape (tree x)) };

    ghost styled_output = { λ x _. shown T.num (tree_shape (tree x)) };

    /// The text, under any width, fill or precision. Where it can't be written: `fmt::Error`, and
    /// nothing is written.
    fn fmt<W: fmt::Write>(&self, f: &mut Formatter<W>) -> fmt::Result
        ensures { Shows W.write_str_gives T.num (tree_shape (tree self.now)) f.old result f.new }
    {
        show_geometry(self, f)
    }
}

impl<T: WktNum> fmt::Display for Point<T> {
    ghost output = { λ x. shown T.num (tree_shape (point x)) };

    ghost styled_output = { λ x _. shown T.num (tree_shape (point x)) };

    /// The text, under any width, fill or precision. Where it can't be written: `fmt::Error`, and
    /// nothing is written.
    fn fmt<W: fmt::Write>(&self, f: &mut Formatter<W>) -> fmt::Result
        ensures { Shows W.write_str_gives T.num (tree_shape (point self.now)) f.old result f.new }
    {
        show_geometry(self, f)
    }
}

impl<T: WktNum> fmt::Display for LineString<T> {
    ghost output = { λ x. shown T.num (tree_shape (line_string x)) };

    ghost styled_output = { λ x _. shown T.num (tree_shape (line_string x)) };

    /// The text, under any width, fill or precision. Where it can't be written: `fmt::Error`, and
    /// nothing is written.
    fn fmt<W: fmt::Write>(&self, f: &mut Formatter<W>) -> fmt::Result
        ensures { Shows W.write_str_gives T.num (tree_shape (line_string self.now)) f.old result f.new }
    {
        show_geometry(self, f)
    }
}

impl<T: WktNum> fmt::Display for Polygon<T> {
    ghost output = { λ x. shown T.num (tree_shape (polygon x)) };

    ghost styled_output = { λ x _. shown T.num (tree_shape (polygon x)) };

    /// The text, under any width, fill or precision. Where it can't be written: `fmt::Error`, and
    /// nothing is written.
    fn fmt<W: fmt::Write>(&self, f: &mut Formatter<W>) -> fmt::Result
        ensures { Shows W.write_str_gives T.num (tree_shape (polygon self.now)) f.old result f.new }
    {
        show_geometry(self, f)
    }
}

impl<T: WktNum> fmt::Display for MultiPoint<T> {
    ghost output = { λ x. shown T.num (tree_shape (multi_point x)) };

    ghost styled_output = { λ x _. shown T.num (tree_shape (multi_point x)) };

    /// The text, under any width, fill or precision. Where it can't be written: `fmt::Error`, and
    /// nothing is written.
    fn fmt<W: fmt::Write>(&self, f: &mut Formatter<W>) -> fmt::Result
        ensures { Shows W.write_str_gives T.num (tree_shape (multi_point self.now)) f.old result f.new }
    {
        show_geometry(self, f)
    }
}

impl<T: WktNum> fmt::Display for MultiLineString<T> {
    ghost output = { λ x. shown T.num (tree_shape (multi_line_string x)) };

    ghost styled_output = { λ x _. shown T.num (tree_shape (multi_line_string x)) };

    /// The text, under any width, fill or precision. Where it can't be written: `fmt::Error`, and
    /// nothing is written.
    fn fmt<W: fmt::Write>(&self, f: &mut Formatter<W>) -> fmt::Result
        ensures { Shows W.write_str_gives T.num (tree_shape (multi_line_string self.now)) f.old result f.new }
    {
        show_geometry(self, f)
    }
}

impl<T: WktNum> fmt::Display for MultiPolygon<T> {
    ghost output = { λ x. shown T.num (tree_shape (multi_polygon x)) };

    ghost styled_output = { λ x _. shown T.num (tree_shape (multi_polygon x)) };

    /// The text, under any width, fill or precision. Where it can't be written: `fmt::Error`, and
    /// nothing is written.
    fn fmt<W: fmt::Write>(&self, f: &mut Formatter<W>) -> fmt::Result
        ensures { Shows W.write_str_gives T.num (tree_shape (multi_polygon self.now)) f.old result f.new }
    {
        show_geometry(self, f)
    }
}

impl<T: WktNum> fmt::Display for GeometryCollection<T> {
    ghost output = { λ x. shown T.num (tree_shape (collection_tree x)) };

    ghost styled_output = { λ x _. shown T.num (tree_shape (collection_tree x)) };

    /// The text, under any width, fill or precision. Where it can't be written: `fmt::Error`, and
    /// nothing is written.
    fn fmt<W: fmt::Write>(&self, f: &mut Formatter<W>) -> fmt::Result
        ensures { Shows W.write_str_gives T.num (tree_shape (collection_tree self.now)) f.old result f.new }
    {
        show_collection(self, f)
    }
}
