//! Decimal fractions, exact and of fixed places.
ghost use Rattle.std.specs.Prelude.{◌≡◌, ℤ, pos, ◌^◌, ◌+ℤ◌, ◌*ℤ◌, ◌<◌, ◌≤◌, Some, IfSome, length, refl};
ghost use Rattle.std.specs.Ordering.{int_cmp, int_eq, as_partial_cmp};
ghost use Rattle.std.specs.Cmp.{int_eq_equiv, int_cmp_total, signed_po, partial_equiv_from_equiv};
ghost use Rattle.wkt_num.specs.Decimal.{read_decimal, decimal_text, IsUnits, IsShortDecimal};
ghost use Rattle.wkt_num.specs.Number.{KeepsText, FindsShort};
ghost use Rattle.wkt_num.specs.DigitParts.{upper_half, lower_half, upper_back, lower_back};
ghost use Rattle.wkt_num.specs.DecimalLaws.{decimal_reads_back, decimal_reads_values, decimal_number_text, decimal_same};

use crate::formatted::FormatterText;
use crate::in_window::units_in_window;
use crate::kept::canonical_prefix;
use crate::number::WktNum;
use crate::numbers::{Numbers, Places};
use crate::printing::write_units;
use crate::sink::TextSink;
use std::cmp::Ordering;
use std::fmt;
use std::marker::Model;

/// The most digits after the point that a [`Decimal`] may have.
pub const MOST_PLACES: u32 = 36;

/// An exact decimal fraction: a whole number of units of ten to the minus `D`, in 128 bits.
///
/// `D` is at most [`MOST_PLACES`]; with more, [`from_units`](Decimal::from_units) can't be called and
/// no text is read. Nothing is ever rounded: a text is read if its value is a whole number of units
/// that fits, and is refused otherwise. A text is a sign or none, and digits with at most one point.
/// It is printed with no trailing zeros after the point, and with no point where nothing follows it.
///
/// ```
/// let d = Decimal::<6>::read_number("+5.40")?; // 5400000 units, printed as `5.4`
/// let d = Decimal::<6>::from_units(-1); // printed as `-0.000001`
/// ```
#[derive(Clone, Copy)]
pub struct Decimal<const D: u32> {
    // The units in two halves. As one number they would be aligned to sixteen bytes, and a coordinate takes a sixth less so.
    high: i64,
    low: u64,
}

/// The units that one of the upper half stands for.
const UPPER: i128 = 1 << 64;

impl<const D: u32> Model for Decimal<D> {
    ghost Value = { ℤ };

    ghost view = { λ d. d.high *ℤ pos (2 ^ 64) +ℤ pos d.low };

    ghost invariant = { λ d. (D ≤ 36) × (d.low < 2 ^ 64) };

    ghost inverse = { λ u. record { high = upper_half u; low = lower_half u } };

    ghost inverse_ok = { λ d h i. record {
      high = upper_back d.high d.low h.1 i;
      low = lower_back d.high d.low h.1 i;
    } };
}

impl<const D: u32> Decimal<D> {
    /// The number of so many units of ten to the minus `D`.
    pub fn from_units(units: i128) -> Decimal<D>
        requires { D ≤ 36 }
        ensures { result ≡ units }
    {
        let high = units >> 64;
        Decimal {
            high: high as i64,
            low: (units - high * UPPER) as u64,
        }
    }

    /// How many units of ten to the minus `D` it is.
    pub fn units(&self) -> i128
        ensures { result ≡ self.now }
    {
        i128::from(self.high) * UPPER + i128::from(self.low)
    }
}

impl<const D: u32> PartialEq for Decimal<D> {
    ghost eq = { int_eq };

    ghost laws = { partial_equiv_from_equiv int_eq_equiv };

    fn eq(&self, other: &Decimal<D>) -> bool {
        self.units() == other.units()
    }
}

impl<const D: u32> Eq for Decimal<D> {
    ghost laws = { int_eq_equiv };
}

impl<const D: u32> PartialOrd for Decimal<D> {
    ghost partial_cmp = { as_partial_cmp int_cmp };

    ghost laws = { signed_po };

    fn partial_cmp(&self, other: &Decimal<D>) -> Option<Ordering> {
        Some(self.cmp(other))
    }
}

impl<const D: u32> Ord for Decimal<D> {
    ghost cmp = { int_cmp };

    ghost total = { int_cmp_total };

    ghost matches_partial_cmp = { λ x y. refl };

    ghost matches_eq = { λ x y. refl };

    fn cmp(&self, other: &Decimal<D>) -> Ordering {
        self.units().cmp(&other.units())
    }
}

impl<const D: u32> fmt::Debug for Decimal<D> {
    fn fmt<W: fmt::Write>(&self, f: &mut fmt::Formatter<W>) -> fmt::Result {
        f.debug_struct("Decimal")
            .field("units", &self.units())
            .finish()
    }
}

impl<const D: u32> WktNum for Decimal<D> {
    ghost is_value = { IsUnits D };

    ghost num = { decimal_text D };

    ghost read = { read_decimal 127 36 D };

    ghost reads_back = { decimal_reads_back D };

    ghost reads_values = { decimal_reads_values D };

    ghost number_text = { decimal_number_text D };

    ghost same = { decimal_same };

    #[inline(always)]
    #[tactic(auto, using(crate::proofs::ReadNumbers::read_far))]
    fn read_number(text: &str) -> Option<Decimal<D>> {
        if D > MOST_PLACES {
            return None;
        }
        let units = Places::new(D).read_number(text)?;
        Some(Decimal::from_units(units))
    }

    fn write_number<W: TextSink>(&self, f: &mut W) -> fmt::Result {
        // No effect at run time. The proof reads from it that the places are few enough.
        let _ = &self.high;
        let units = self.units();
        write_units(D, units < 0, units.unsigned_abs(), f)
    }

    #[inline(always)]
    fn canonical_prefix(bytes: &[u8]) -> Option<(usize, usize)>
        requires { 32 ≤ length bytes.now }
        ensures keeps { IfSome result (λ r. KeepsText (read_decimal 127 36 D) (decimal_text D) bytes.now r.0 r.1) }
        ensures within { IfSome result (λ r. r.0 < 32) }
        ensures finds { FindsShort (decimal_text D) (IsShortDecimal D) bytes.now result }
    {
        if D > MOST_PLACES {
            return None;
        }
        canonical_prefix(Places::new(D), bytes)
    }

    #[inline(always)]
    fn read_in_window(bytes: &[u8]) -> Option<(Decimal<D>, usize)> {
        match units_in_window(D, bytes) {
            Some((units, end)) => Some((Decimal::from_units(units), end)),
            None => None,
        }
    }

    #[inline(always)]
    #[tactic(auto, using(crate::proofs::ReadNumbers::decimal_utf8))]
    fn reads_texts() -> bool {
        true
    }

    fn known(&self) {
        let _ = &self.high;
        let _units = self.units();
    }
}

impl<const D: u32> fmt::Display for Decimal<D> {
    ghost output = { λ u. Some (decimal_text D u) };

    ghost styled_output = { λ u _. Some (decimal_text D u) };

    fn fmt<W: fmt::Write>(&self, f: &mut fmt::Formatter<W>) -> fmt::Result {
        let mut sink = FormatterText::new(f);
        let result = self.write_number(&mut sink);
        // No effect at run time. The proof reads what `f` holds from the reference that comes back.
        sink.into_formatter();
        result
    }
}
