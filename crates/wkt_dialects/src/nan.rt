//! Empty points that are written as nan.
ghost use Rattle.std.specs.Prelude.{◌≡◌, ◌≤◌, ◌<◌, ◌+◌, length, MatchOption, true, false};
ghost use Rattle.wkt_access.specs.Values.{size};
ghost use Rattle.wkt_events.specs.Remaining.{remaining_spanned};
ghost use Rattle.wkt_dialects.specs.Dialects.{nans, nans_within, nan_point};
ghost use Rattle.wkt_dialects.specs.Pieces.{IsPastSome};

use crate::first::is_nan;
use crate::lexeme::{Kind, lexeme_at};
use crate::spot::Spot;
use wkt_access::Dimension;
use wkt_types::GeometryType;

/// How many numbers a coordinate has.
fn size(dim: Dimension) -> usize
    ensures { result ≡ size dim }
{
    match dim {
        Dimension::XY => 2,
        Dimension::XYZ | Dimension::XYM => 3,
        Dimension::XYZM => 4,
    }
}

/// Where so many words nan end that come next, one behind the other.
fn nans(count: usize, text: &[u8], from: usize) -> Option<usize>
    requires { from ≤ length text.now }
    ensures { MatchOption result (nans count (remaining_spanned false text.now from) ≡ false) (λ end. (nans count (remaining_spanned false text.now from) ≡ true) × IsPastSome text.now from count end) }
{
    let mut at = from;
    let mut left = count;
    'nans: while left > 0 {
        let Some(found) = lexeme_at(text, at) else {
            return None;
        };
        if !is_nan(text, found) {
            return None;
        }
        at = found.end;
        left -= 1;
    }
    Some(at)
}

/// Where the parenthesis behind so many of them closes, if they stand in one.
#[tactic(auto, using(crate::proofs::Looks::within_is, crate::proofs::Looks::within_past))]
fn nans_within(count: usize, text: &[u8], from: usize) -> Option<usize>
    requires inside { from ≤ length text.now }
    requires few { count ≤ 4 }
    ensures { MatchOption result (nans_within count (remaining_spanned false text.now from) ≡ false) (λ end. (nans_within count (remaining_spanned false text.now from) ≡ true) × IsPastSome text.now from (count + 2) end) }
{
    let opens = lexeme_at(text, from)?;
    let Kind::Open = opens.kind else {
        return None;
    };
    let behind = nans(count, text, opens.end)?;
    let closes = lexeme_at(text, behind)?;
    match closes.kind {
        Kind::Close => Some(closes.end),
        _ => None,
    }
}

/// Where the empty point ends that begins there, if one does.
#[inline(always)]
pub(crate) fn nan_point(spot: Spot, text: &[u8], from: usize) -> Option<usize>
    requires { from ≤ length text.now }
    ensures { MatchOption result (nan_point spot (remaining_spanned false text.now from) ≡ 0) (λ end. (1 < nan_point spot (remaining_spanned false text.now from)) × IsPastSome text.now from (nan_point spot (remaining_spanned false text.now from)) end) }
{
    match spot {
        Spot::Headed(GeometryType::Point, dim) => nans_within(size(dim), text, from),
        Spot::Begins(dim) => match nans(size(dim), text, from) {
            Some(end) => Some(end),
            None => nans_within(size(dim), text, from),
        },
        _ => None,
    }
}
