//! The text builder: what the machine tells is written as it comes.
ghost use Rattle.std.specs.Prelude.{◌≡◌, ◌+◌, ◌≤◌, ◌∷◌, [], length, take, true};
ghost use Rattle.wkt_access.specs.Texts.{suffix};
ghost use Rattle.wkt_canonical.specs.TextBuilderMaker.{HasBytes, Extends, TextBuilderBecomes, IsFresh, IsTextBuilderStuck, IsWithin, written_of};
ghost use Rattle.wkt_canonical.specs.Written.{kind_text, empty_text, separator, is_polygon, is_hollow, opened, closed};

use std::simd::prelude::*;
use wkt_access::Dimension;
use wkt_machine::{Axis, Builder, Part};
use wkt_num::Numbers;

/// Bytes with room, of which the first `len` are written. A polygon may be taken back.
///
/// A text builder that had no room for the text of a number is stuck: it has a byte less, writes on from the first, and its bytes
/// count for nothing.
#[derive(Drop)]
pub struct TextBuilder<'a, N> {
    pub(crate) out: &'a mut [u8],
    pub(crate) len: usize,
    // Where the parenthesis of the last polygon stands.
    pub(crate) polygon: usize,
    pub(crate) numbers: N,
}

impl<'a, N: Numbers> TextBuilder<'a, N> {
    /// A text builder that has written nothing yet, and has those bytes.
    #[inline(always)]
    pub fn new(numbers: N, out: &'a mut [u8]) -> TextBuilder<'a, N>
        ensures { IsFresh numbers out.old result }
    {
        TextBuilder {
            out,
            len: 0,
            polygon: 0,
            numbers,
        }
    }

    /// What is written.
    #[inline(always)]
    pub fn written(&self) -> &[u8]
        requires { IsWithin self.now }
        ensures { result.now ≡ (written_of self.now).bytes }
    {
        &self.out[..self.len]
    }

    /// A text builder that is stuck.
    pub(crate) fn stuck(numbers: N, out: &'a mut [u8]) -> TextBuilder<'a, N>
        requires { 1 ≤ length out.old }
        ensures { IsTextBuilderStuck numbers (length out.old) result }
    {
        let n = out.len() - 1;
        TextBuilder {
            out: &mut out[..n],
            len: 0,
            polygon: 0,
            numbers,
        }
    }

    // Not `always`: LLVM inlines it by itself, and so it doesn't count in the size above which `always` is dropped.
    #[inline]
    pub(crate) fn put(mut self, byte: u8) -> Self
        requires { HasBytes self 1 }
        ensures { Extends self.entry (byte ∷ []) result }
    {
        self.out[self.len] = byte;
        self.len += 1;
        self
    }

    /// Writes the first `n` bytes of a window.
    #[inline(always)]
    pub(crate) fn put_front(self, window: &[u8], n: usize) -> Self
        requires window { 32 ≤ length window.now }
        requires n { n ≤ 32 }
        requires room { HasBytes self 32 }
        ensures { Extends self.entry (take n window.now) result }
    {
        let (out, len) = (self.out, self.len);
        u8x32::from_slice(window).copy_to_slice(&mut out[len..]);
        TextBuilder {
            out,
            len: len + n,
            ..self
        }
    }

    #[inline(always)]
    fn put_all(mut self, text: &[u8]) -> Self
        requires { HasBytes self (length text.now) }
        ensures { Extends self.entry text.now result }
    {
        let at = self.len;
        let end = at + text.len();
        self.out[at..end].copy_from_slice(text);
        self.len = end;
        self
    }

    /// The word of a whole geometry.
    #[inline(always)]
    fn put_kind(self, whole: Part) -> Self
        requires { HasBytes self 32 }
        ensures { Extends self.entry (kind_text whole) result }
    {
        let (window, n) = kind_window(whole);
        self.put_front(window, n)
    }

    /// What follows the word for a dimension.
    #[inline(always)]
    fn put_suffix(self, dimension: Dimension) -> Self
        requires { HasBytes self 3 }
        ensures { Extends self.entry (suffix dimension) result }
    {
        match dimension {
            Dimension::XY => self,
            _ => self.put_all(suffix_bytes(dimension)),
        }
    }

    /// A part that is EMPTY.
    // Not `always`: LLVM inlines it by itself, and so it doesn't count in the size above which `always` is dropped.
    #[inline]
    fn put_empty(self, part: Part) -> Self
        requires { HasBytes self 6 }
        ensures { Extends self.entry (empty_text part) result }
    {
        match part {
            Part::Member | Part::Bare | Part::Ring | Part::Line | Part::Area | Part::AreaRing => {
                self.put_all(b"EMPTY")
            }
            _ => self.put_all(b" EMPTY"),
        }
    }

    /// What was written as far as there.
    #[inline(always)]
    fn back_to(self, len: usize) -> Self
        ensures { result ≡ record self.entry { len = len } }
    {
        TextBuilder { len, ..self }
    }

    /// What stands before a number of a coordinate.
    #[inline(always)]
    pub(crate) fn put_separator(self, axis: Axis) -> Self
        requires { HasBytes self 1 }
        ensures { Extends self.entry (separator axis) result }
    {
        match axis {
            Axis::X => self,
            _ => self.put(b' '),
        }
    }

    /// The parenthesis that a polygon opens.
    #[inline(always)]
    fn open_polygon(self) -> Self
        requires { HasBytes self 1 }
        ensures becomes { TextBuilderBecomes self.entry (opened true (written_of self.entry)) result }
        ensures len { result.len ≡ self.entry.len + 1 }
    {
        let builder = TextBuilder {
            polygon: self.len,
            ..self
        };
        builder.put(b'(')
    }

    /// Whether the first ring of the last polygon is EMPTY.
    #[inline(always)]
    fn is_hollow(&self) -> bool
        requires { self.now.len ≤ length self.now.out.now }
        ensures { result ≡ is_hollow (written_of self.now) }
    {
        if self.len < 6 || self.len - 6 < self.polygon {
            return false;
        }
        self.out[self.polygon + 1] == b'E'
    }

    /// The parenthesis that closes a polygon; or EMPTY, where its first ring is, in place of all that was written of it.
    #[inline(always)]
    fn close_polygon(self, part: Part) -> Self
        requires { HasBytes self 64 }
        ensures becomes { TextBuilderBecomes self.entry (closed true part (written_of self.entry)) result }
        ensures len { result.len ≤ self.entry.len + 1 }
    {
        if !self.is_hollow() {
            return self.put(b')');
        }
        let builder = TextBuilder {
            len: self.polygon,
            ..self
        };
        builder.put_empty(part)
    }
}

/// The word of a whole geometry, in a window, and how long it is.
#[inline(always)]
fn kind_window(whole: Part) -> (&'static [u8; 32], usize)
    ensures text { take result.1 result.0.now ≡ kind_text whole }
    ensures n { result.1 ≤ 32 }
{
    match whole {
        Part::Point => (b"POINT                           ", 5),
        Part::LineString => (b"LINESTRING                      ", 10),
        Part::Polygon => (b"POLYGON                         ", 7),
        Part::MultiPoint => (b"MULTIPOINT                      ", 10),
        Part::MultiLineString => (b"MULTILINESTRING                 ", 15),
        Part::MultiPolygon => (b"MULTIPOLYGON                    ", 12),
        Part::Collection => (b"GEOMETRYCOLLECTION              ", 18),
        _ => (b"                                ", 0),
    }
}

/// What follows the word for a dimension.
#[inline(always)]
fn suffix_bytes(dimension: Dimension) -> &'static [u8]
    ensures text { result.now ≡ suffix dimension }
    ensures len { length result.now ≤ 3 }
{
    match dimension {
        Dimension::XY => b"",
        Dimension::XYZ => b" Z",
        Dimension::XYM => b" M",
        Dimension::XYZM => b" ZM",
    }
}

/// Whether a part is a polygon.
#[inline(always)]
fn is_polygon(part: Part) -> bool
    ensures { result ≡ is_polygon part }
{
    matches!(part, Part::Polygon | Part::Area)
}

impl<N: Numbers> Builder<N::Number> for TextBuilder<'_, N> {
    ghost use Rattle.wkt_canonical.specs.TextBuilderMaker.{text_builder_maker};

    ghost maker = { text_builder_maker N.read N.num };

    #[inline(always)]
    fn begin(self, whole: Part, dim: Dimension) -> Self {
        self.put_kind(whole).put_suffix(dim)
    }

    #[inline(always)]
    fn open(self, part: Part) -> Self {
        if is_polygon(part) {
            return self.open_polygon();
        }
        self.put(b'(')
    }

    #[inline(always)]
    fn comma(self, _part: Part) -> Self {
        self.put(b',')
    }

    #[inline(always)]
    fn close(self, part: Part) -> Self {
        if is_polygon(part) {
            return self.close_polygon(part);
        }
        self.put(b')')
    }

    #[inline(always)]
    fn empty(self, part: Part) -> Self {
        self.put_empty(part)
    }

    #[inline(always)]
    fn number(self, number: N::Number, axis: Axis) -> Self {
        self.put_separator(axis).put_value(number)
    }

    #[inline(always)]
    fn number_in(self, text: &[u8], at: usize, axis: Axis) -> (Self, Option<usize>) {
        let len = self.len;
        let (made, end) = self.put_separator(axis).put_number(text, at);
        match end {
            Some(end) => (made, Some(end)),
            None => (made.back_to(len), None),
        }
    }

    #[inline(always)]
    fn bare_in(self, text: &[u8], at: usize) -> (Self, Option<usize>) {
        let len = self.len;
        let (made, end) = self.put(b'(').put_number(text, at);
        match end {
            Some(end) => (made, Some(end)),
            None => (made.back_to(len), None),
        }
    }
}
