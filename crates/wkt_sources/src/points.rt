//! A point at the front of a text, in its commonest form.
ghost use Rattle.std.specs.Prelude.{◌≡◌, ℕ, List, ◌≤◌, length, IfSome, Some, false};
ghost use Rattle.wkt_num.specs.Bytes.{Num};
ghost use Rattle.wkt_num.specs.Decimal.{read_decimal};
ghost use Rattle.wkt_num.specs.Whole.{IsSigned};
ghost use Rattle.wkt_events.specs.Remaining.{TakesOne};
ghost use Rattle.wkt_sources.specs.Taken.{IsPointFront};

use crate::header::{AfterHeader, is_point, plain};
use wkt_events::{byte_at, skip_white};
use wkt_machine::Part;
use wkt_num::fast_units;

/// A point of two decimals, as the units of each (`Decimal::units`), and where it ends in its text.
#[derive(Clone, Copy)]
pub struct FastPoint {
    pub x: i64,
    pub y: i64,
    pub end: usize,
}

/// The point that the bytes begin with, if their first are `POINT(` or `POINT (`, and `fast_units` reads its two
/// numbers.
/// `None`: the caller falls back.
#[inline(always)]
pub fn fast_point(places: u32, text: &[u8]) -> Option<FastPoint>
    ensures { IfSome result (λ p. IsPointFront places text.now p.x p.y p.end) }
{
    if !is_point(text) {
        return None;
    }
    let head = plain::<5, false>(Part::Point, b"POINT", text, 0)?;
    let AfterHeader::Inside = head.then else {
        return None;
    };
    let (x, between) = fast_number(places, text, head.end)?;
    let (y, behind) = fast_number(places, text, between)?;
    let close = skip_white::<false>(text, behind);
    if byte_at(text, close) != b')' {
        return None;
    }
    Some(FastPoint {
        x,
        y,
        end: close + 1,
    })
}

/// The number that comes next, and where it ends. `None`: the caller falls back.
#[inline(always)]
#[tactic(auto, using(crate::proofs::ByteSteps::number_fast))]
fn fast_number(places: u32, text: &[u8], at: usize) -> Option<(i64, usize)>
    requires { at ≤ length text.now }
    ensures { IfSome result (λ r. (run : List ℕ) × TakesOne false text.now at (Num run) r.1
        × (read_decimal 127 36 places run ≡ Some r.0) × IsSigned 63 r.0) }
{
    let start = skip_white::<false>(text, at);
    match fast_units(places, &text[start..]) {
        Some((units, count)) => Some((units, start + count)),
        None => None,
    }
}
