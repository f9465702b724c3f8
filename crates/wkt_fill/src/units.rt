//! A number of 128 bits in two halves.
ghost use Rattle.std.specs.Prelude.{◌≡◌};
ghost use Rattle.wkt_fill.specs.EventLists.{halves};

/// How many units a number has: `low`, and 2 to the 64 times `high`.
#[repr(C)]
#[derive(Clone, Copy)]
pub struct WktUnits {
    pub low: u64,
    pub high: i64,
}

/// The units that one of the upper half stands for.
const UPPER: i128 = 1 << 64;

/// A number of units in its halves.
#[inline(always)]
pub(crate) fn halves(units: i128) -> WktUnits
    ensures { result ≡ halves units }
{
    let high = units >> 64;
    WktUnits {
        low: (units - high * UPPER) as u64,
        high: high as i64,
    }
}
