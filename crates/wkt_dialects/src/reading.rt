//! The text that a text in a dialect is read as.
ghost use Rattle.std.specs.Prelude.{◌≡◌, [], IfOk, IsUtf8, drop, slice_range};
ghost use Rattle.wkt_dialects.specs.Dialects.{kind_name, letters};
ghost use Rattle.wkt_dialects.specs.Reading.{IsRestAs};
ghost use Rattle.wkt_read.specs.Lexemes.{SpellsLexeme};
ghost use Rattle.wkt_dialects.specs.declared.pieces.Piece.TheVariants.{Same};
ghost use Rattle.wkt_dialects.specs.Pieces.{HasBytes, IsWritten};
ghost use Rattle.wkt_num.specs.Bytes.{Lexeme};

use crate::dialects::Dialects;
use crate::exponents::write_number;
use crate::pieces::{Piece, Step, piece_at};
use crate::put::{NoRoom, Put};
use crate::slices::rest;
use crate::spot::Spot;
use wkt_access::Dimension;
use wkt_events::{begins_number, skip_white};
use wkt_types::GeometryType;

/// The word of a kind.
fn name_of(kind: GeometryType) -> &'static [u8]
    ensures { result.now ≡ kind_name kind }
{
    match kind {
        GeometryType::Point => b"POINT",
        GeometryType::LineString => b"LINESTRING",
        GeometryType::Polygon => b"POLYGON",
        GeometryType::MultiPoint => b"MULTIPOINT",
        GeometryType::MultiLineString => b"MULTILINESTRING",
        GeometryType::MultiPolygon => b"MULTIPOLYGON",
        GeometryType::GeometryCollection => b"GEOMETRYCOLLECTION",
    }
}

/// The letters of a dimension.
fn letters_of(dim: Dimension) -> &'static [u8]
    ensures { result.now ≡ letters dim }
{
    match dim {
        Dimension::XY => b"",
        Dimension::XYZ => b"Z",
        Dimension::XYM => b"M",
        Dimension::XYZM => b"ZM",
    }
}

/// Writes what a piece is read as, with no exponent.
fn write_lexeme<P: Put>(
    dialects: Dialects,
    text: &[u8],
    there: Step,
    out: &mut P,
) -> Result<(), NoRoom>
    requires { there.piece ≡ Same → HasBytes text.now there.start there.end × (l : Lexeme) × SpellsLexeme (slice_range text.now there.start there.end) (drop there.end text.now) l }
    ensures { IfOk result (λ _. IsWritten dialects text.now there (P.written out.old) (P.written out.new)) }
{
    match there.piece {
        Piece::Joined(kind, dim) => {
            out.put(name_of(kind))?;
            out.put(letters_of(dim))
        }
        Piece::Empty => out.put(b"EMPTY"),
        Piece::Same => {
            let bytes = &text[there.start..there.end];
            if !dialects.exponents {
                return out.put(bytes);
            }
            if begins_number(bytes[0]) {
                return write_number(bytes, out);
            }
            out.put(bytes)
        }
    }
}

/// Writes the text that a text without an SRID is read as: each lexeme, and a space. What stands behind a NUL is written
/// as it stands.
///
/// # Errors
/// [`NoRoom`]: what was written means nothing then.
pub fn write_as_read<P: Put>(dialects: Dialects, text: &[u8], out: &mut P) -> Result<(), NoRoom>
    requires { P.written out.old ≡ [] }
    ensures { IfOk result (λ _. IsRestAs dialects text.now (P.written out.new) × (IsUtf8 text.now → IsUtf8 (P.written out.new))) }
{
    let mut at = 0;
    let mut spot = Spot::Elsewhere;
    'pieces: while let Some(there) = piece_at(dialects, spot, text, at) {
        write_lexeme(dialects, text, there, out)?;
        out.put(b" ")?;
        at = there.end;
        spot = there.spot;
    }
    let end = skip_white::<false>(text, at);
    out.put(rest(text, end))
}
