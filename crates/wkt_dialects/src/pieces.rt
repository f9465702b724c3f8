//! One lexeme as the dialects read it.
ghost use Rattle.std.specs.Prelude.{◌≡◌, ◌≤◌, ◌<◌, MatchOption, length, false};
ghost use Rattle.wkt_num.specs.Bytes.{Word};
ghost use Rattle.wkt_events.specs.Remaining.{remaining_spanned};
ghost use Rattle.wkt_dialects.specs.Dialects.{empty_there, spot_behind, tagged};
ghost use Rattle.wkt_dialects.specs.Pieces.{lexeme_as, lexeme_in, HasBytes, IsPastSome, TakesAny};

use crate::dialects::Dialects;
use crate::first::{dimension_of, first_numbers};
use crate::lexeme::{Found, Kind, lexeme_at};
use crate::nan::nan_point;
use crate::spot::Spot;
use wkt_access::Dimension;
use wkt_read::words::{dimension_in, kind_in};
use wkt_types::GeometryType;

/// What is read there.
#[derive(Clone, Copy)]
pub enum Piece {
    /// The lexeme as it stands.
    Same,
    /// A kind word, with this dimension joined to it.
    Joined(GeometryType, Dimension),
    /// EMPTY, of a point whose numbers are nan.
    Empty,
}

/// A piece, from where to where its bytes stand, and where the lexeme behind it stands.
#[derive(Clone, Copy)]
pub struct Step {
    pub piece: Piece,
    pub start: usize,
    pub end: usize,
    pub spot: Spot,
}

/// What a lexeme is read as where no empty point stands.
fn piece_of(dialects: Dialects, text: &[u8], found: Found) -> Piece
    requires { HasBytes text.now found.start found.end }
    ensures { lexeme_as result (lexeme_in text.now found) ≡ tagged dialects (lexeme_in text.now found) (remaining_spanned false text.now found.end) }
{
    if let (Kind::Word, true) = (found.kind, dialects.untagged) {
        if let Some((kind, None)) = kind_in(&text[found.start..found.end]) {
            if let Some(dim) = dimension_of(first_numbers(dialects, text, found.end)) {
                return Piece::Joined(kind, dim);
            }
        }
    }
    Piece::Same
}

/// Where the lexeme behind a word stands.
fn word_behind(spot: Spot, word: &[u8]) -> Spot
    ensures { result ≡ spot_behind spot (Word word.now) }
{
    match kind_in(word) {
        Some((kind, Some(dim))) => Spot::Headed(kind, dim),
        Some((kind, None)) => Spot::Headed(kind, Dimension::XY),
        None => spot.dimensioned(dimension_in(word)),
    }
}

/// Where the lexeme behind one stands that is read as it stands.
fn behind(spot: Spot, text: &[u8], found: Found) -> Spot
    requires { HasBytes text.now found.start found.end }
    ensures { result ≡ spot_behind spot (lexeme_in text.now found) }
{
    match found.kind {
        Kind::Open => spot.opened(),
        Kind::Comma => spot.parted(),
        Kind::Word => word_behind(spot, &text[found.start..found.end]),
        _ => spot.goes_on(),
    }
}

/// Where the empty point ends that begins there, if one does.
fn empty_point(dialects: Dialects, spot: Spot, text: &[u8], from: usize) -> Option<usize>
    requires { from ≤ length text.now }
    ensures { MatchOption result (empty_there dialects spot (remaining_spanned false text.now from) ≡ 0) (λ end. (1 < empty_there dialects spot (remaining_spanned false text.now from)) × IsPastSome text.now from (empty_there dialects spot (remaining_spanned false text.now from)) end) }
{
    if dialects.nan {
        return nan_point(spot, text, from);
    }
    None
}

/// The piece that comes next; `None` where the text ends.
pub(crate) fn piece_at(dialects: Dialects, spot: Spot, text: &[u8], from: usize) -> Option<Step>
    requires { from ≤ length text.now }
    ensures { TakesAny dialects spot text.now from result }
{
    let found = lexeme_at(text, from)?;
    if let Some(end) = empty_point(dialects, spot, text, from) {
        return Some(Step {
            piece: Piece::Empty,
            start: found.start,
            end,
            spot: spot.goes_on(),
        });
    }
    let piece = piece_of(dialects, text, found);
    let spot = match piece {
        Piece::Same => behind(spot, text, found),
        Piece::Joined(kind, dim) => Spot::Headed(kind, dim),
        Piece::Empty => spot.goes_on(),
    };
    Some(Step {
        piece,
        start: found.start,
        end: found.end,
        spot,
    })
}
