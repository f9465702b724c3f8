//! How numbers are read and written: by their type, or by a count of places that is said at run time.
ghost use Rattle.std.specs.Prelude.{◌≡◌, ◌≤◌, ◌<◌, ℕ, true, List, Option, Some, IfSome, length};
ghost use Rattle.std.proofs.Common.{sym};
ghost use Rattle.wkt_num.specs.DigitParts.{most_plain, most_whole, IsDecimalText};
ghost use Rattle.wkt_num.specs.Decimal.{read_decimal, decimal_text, IsUnits};
ghost use Rattle.wkt_num.specs.DecimalLaws.{decimal_reads_back, decimal_reads_values, decimal_number_text};
ghost use Rattle.wkt_num.specs.Sink.{Puts};
ghost use Rattle.wkt_num.specs.Number.{IsNumberText, ReadsTexts, KeepsText, BeginsNumber};

use crate::in_window::units_in_window;
use crate::kept::canonical_prefix;
use crate::number::WktNum;
use crate::powers::SHORT_PLACES;
use crate::printing::write_units;
use crate::reading::{read_signed, split_sign};
use crate::sink::TextSink;
use std::fmt;
use std::marker::{Model, PhantomData};

/// How the numbers of a text are read and written. It goes along with what is made of the text.
pub trait Numbers: Copy {
    /// What a number is.
    type Number: WktNum;

    /// Holds of the numbers that are read and written.
    ghost is_value: { Self → Self.Number → Type 0 };

    /// The text of a number.
    ghost num: { Self → Self.Number → List ℕ };

    /// What a text is read as.
    ghost read: { Self → List ℕ → Option Self.Number };

    /// The number that the text stands for, or `None` if it stands for none.
    fn read_number(self, text: &str) -> Option<Self::Number>
        ensures { result ≡ read self text.now };

    /// Adds the number's text to the sink. An error is the sink's.
    fn write_number<W: TextSink>(self, number: Self::Number, f: &mut W) -> fmt::Result
        ensures { Puts W.sink f.old (num self number) f.new result };

    /// As `WktNum::canonical_prefix`.
    fn canonical_prefix(self, bytes: &[u8]) -> Option<(usize, usize)>
        requires { 32 ≤ length bytes.now }
        ensures keeps { IfSome result (λ r. KeepsText (read self) (num self) bytes.now r.0 r.1) }
        ensures within { IfSome result (λ r. r.0 < 32) };

    /// As `WktNum::read_in_window`.
    fn read_in_window(self, bytes: &[u8]) -> Option<(Self::Number, usize)>
        requires { 32 ≤ length bytes.now }
        ensures reads { IfSome result (λ r. BeginsNumber (read self) bytes.now r.0 r.1) }
        ensures within { IfSome result (λ r. r.1 < 32) };

    /// As `WktNum::reads_texts`.
    fn reads_texts(self) -> bool
        ensures { result ≡ true → ReadsTexts (read self) };

    /// The text of a number reads back as the number.
    ghost reads_back: { (s : Self) (x : Self.Number) → is_value s x → read s (num s x) ≡ Some x };

    /// What is read is one of its numbers.
    ghost reads_values: { (s : Self) (bs : List ℕ) → IfSome (read s bs) (is_value s) };

    /// The text of a number is one number run.
    ghost number_text: { (s : Self) (x : Self.Number) → is_value s x → IsNumberText (num s x) };
}

/// The numbers of a type. It takes no byte.
#[derive(Clone, Copy)]
pub struct OfType<T> {
    of: PhantomData<T>,
}

impl<T> OfType<T> {
    /// The numbers of the type `T`.
    #[inline(always)]
    pub fn new() -> OfType<T> {
        OfType { of: PhantomData }
    }
}

impl<T: WktNum> Numbers for OfType<T> {
    type Number = T;

    ghost is_value = { λ _. T.is_value };

    ghost num = { λ _. T.num };

    ghost read = { λ _. T.read };

    ghost reads_back = { λ _. T.reads_back };

    ghost reads_values = { λ _. T.reads_values };

    ghost number_text = { λ _. T.number_text };

    #[inline(always)]
    fn read_number(self, text: &str) -> Option<T> {
        T::read_number(text)
    }

    #[inline(always)]
    fn write_number<W: TextSink>(self, number: T, f: &mut W) -> fmt::Result {
        number.write_number(f)
    }

    #[inline(always)]
    fn canonical_prefix(self, bytes: &[u8]) -> Option<(usize, usize)> {
        T::canonical_prefix(bytes)
    }

    #[inline(always)]
    fn read_in_window(self, bytes: &[u8]) -> Option<(T, usize)> {
        T::read_in_window(bytes)
    }

    #[inline(always)]
    fn reads_texts(self) -> bool {
        T::reads_texts()
    }
}

/// Decimals of so many places, at most 36. A number is its units of ten to the minus `places`.
#[derive(Clone, Copy)]
pub struct Places {
    places: u32,
    // What `most_plain` and `most_whole` return, at hand for each number that is kept.
    plain: u16,
    whole: u16,
}

impl Model for Places {
    ghost Value = { ℕ };

    ghost view = { λ p. p.places };

    ghost invariant = { λ p. (p.places ≤ 36) × (p.plain ≡ most_plain p.places) × (p.whole ≡ most_whole p.places) };

    ghost inverse = { λ places. record { places = places; plain = most_plain places; whole = most_whole places } };

    ghost inverse_ok = { λ p h i. record { places = p.places; plain = sym h.1 i; whole = sym h.2 i } };
}

impl Places {
    /// Decimals of so many places.
    #[inline(always)]
    pub fn new(places: u32) -> Places
        requires { places ≤ 36 }
        ensures { result ≡ places }
    {
        // Up to 18 places the units of 20 digits before the point fit, beyond these of 38 digits in all.
        let (plain, whole) = if places > SHORT_PLACES {
            (40 - places, 38 - places)
        } else {
            (places + 2, 20)
        };
        Places {
            places,
            plain: plain as u16,
            whole: whole as u16,
        }
    }

    /// How many places.
    #[inline(always)]
    pub fn places(self) -> u32
        ensures is { result ≡ self }
        ensures few { result ≤ 36 }
    {
        self.places
    }

    /// How many bytes a number with a point may have whose units surely fit, where neither the first nor the last digit is
    /// a zero.
    #[inline(always)]
    pub(crate) fn most_plain(self) -> usize
        ensures most { result ≡ most_plain self }
        ensures few { self ≤ 36 }
    {
        self.plain as usize
    }

    /// How many digits may stand before the point, so that the units surely fit.
    #[inline(always)]
    pub(crate) fn most_whole(self) -> usize
        ensures most { result ≡ most_whole self }
        ensures few { self ≤ 36 }
    {
        self.whole as usize
    }
}

impl Numbers for Places {
    type Number = i128;

    ghost is_value = { IsUnits };

    ghost num = { decimal_text };

    ghost read = { read_decimal 127 36 };

    ghost reads_back = { decimal_reads_back };

    ghost reads_values = { decimal_reads_values };

    ghost number_text = { decimal_number_text };

    #[inline(always)]
    #[tactic(auto, using(crate::proofs::ReadNumbers::read_far, std::proofs::lemmas::Int::ints))]
    fn read_number(self, text: &str) -> Option<i128> {
        let (negative, body) = split_sign(text.as_bytes());
        read_signed(self.places, negative, body)
    }

    #[inline(never)]
    fn write_number<W: TextSink>(self, number: i128, f: &mut W) -> fmt::Result {
        let (negative, units) = (number < 0, number.unsigned_abs());
        // In each arm the power of ten is a constant, and a division by it a multiplication.
        match self.places {
            0 => write_units(0, negative, units, f),
            1 => write_units(1, negative, units, f),
            2 => write_units(2, negative, units, f),
            3 => write_units(3, negative, units, f),
            4 => write_units(4, negative, units, f),
            5 => write_units(5, negative, units, f),
            6 => write_units(6, negative, units, f),
            7 => write_units(7, negative, units, f),
            8 => write_units(8, negative, units, f),
            9 => write_units(9, negative, units, f),
            10 => write_units(10, negative, units, f),
            11 => write_units(11, negative, units, f),
            12 => write_units(12, negative, units, f),
            13 => write_units(13, negative, units, f),
            14 => write_units(14, negative, units, f),
            15 => write_units(15, negative, units, f),
            16 => write_units(16, negative, units, f),
            17 => write_units(17, negative, units, f),
            18 => write_units(18, negative, units, f),
            places => write_units(places, negative, units, f),
        }
    }

    #[inline(always)]
    fn canonical_prefix(self, bytes: &[u8]) -> Option<(usize, usize)>
        requires { 32 ≤ length bytes.now }
        ensures keeps { IfSome result (λ r. KeepsText (read_decimal 127 36 self) (decimal_text self) bytes.now r.0 r.1) }
        ensures within { IfSome result (λ r. r.0 < 32) }
        ensures finds { (end : ℕ) → IsDecimalText self bytes.now end → end < 32 → result ≡ Some (end, end) }
    {
        canonical_prefix(self, bytes)
    }

    #[inline(always)]
    fn read_in_window(self, bytes: &[u8]) -> Option<(i128, usize)> {
        units_in_window(self.places, bytes)
    }

    #[inline(always)]
    #[tactic(auto, using(crate::proofs::ReadNumbers::decimal_utf8))]
    fn reads_texts(self) -> bool {
        true
    }
}
