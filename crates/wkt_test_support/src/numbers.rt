//! A number type of two values, and two of a single value.
use std::fmt;
use wkt_num::{TextSink, WktNum};

/// A number type with two values, whose texts `.a` and `.b` have no digit.
#[derive(Clone, Copy, PartialEq, PartialOrd, Debug)]
pub enum Letter {
    A,
    B,
}

impl WktNum for Letter {
    ghost use denote.Enum.Bare.{same_true, true_same};
    ghost use Rattle.wkt_test_support.specs.contracts.numbers.Letter.{the_type};
    ghost use Rattle.wkt_test_support.specs.Numbers.{AnyLetter, letter_text, read_letter};
    ghost use Rattle.wkt_test_support.specs.Numbers.{letter_reads_back, any_letter, letter_number_text};
    ghost use Rattle.wkt_test_support.specs.WrongNumbers.{plus_text, read_plus, plus_reads_back, comma_text, read_comma, comma_reads_back};

    ghost is_value = { AnyLetter };

    ghost num = { letter_text };

    ghost read = { read_letter };

    ghost reads_back = { letter_reads_back };

    ghost reads_values = { λ bs. any_letter (read_letter bs) };

    ghost number_text = { letter_number_text };

    ghost same = { λ x y. (same_true the_type tt x y, true_same the_type x y) };

    fn read_number(text: &str) -> Option<Letter> {
        match text.as_bytes() {
            [b'.', b'a'] => Some(Letter::A),
            [b'.', b'b'] => Some(Letter::B),
            _ => None,
        }
    }

    fn write_number<W: TextSink>(&self, f: &mut W) -> fmt::Result {
        match self {
            Letter::A => f.write_str(".a"),
            Letter::B => f.write_str(".b"),
        }
    }

    fn known(&self) {}
}

/// A number type with a single value. It prints `-`, and reads `-` and the empty text.
#[derive(Clone, Copy, PartialEq, PartialOrd, Debug)]
pub enum Dash {
    Dash,
}

impl WktNum for Dash {
    ghost use Rattle.std.proofs.Common.{refl};
    ghost use Rattle.wkt_test_support.specs.Numbers.{AnyDash, dash_text, read_dash};
    ghost use Rattle.wkt_test_support.specs.Numbers.{dash_reads_back, any_dash, dash_number_text, one_dash};

    ghost is_value = { AnyDash };

    ghost num = { dash_text };

    ghost read = { read_dash };

    ghost reads_back = { dash_reads_back };

    ghost reads_values = { λ bs. any_dash (read_dash bs) };

    ghost number_text = { dash_number_text };

    ghost same = { λ x y. (λ _. one_dash x y, λ _. refl) };

    fn read_number(text: &str) -> Option<Dash> {
        match text.as_bytes() {
            [] | [b'-'] => Some(Dash::Dash),
            _ => None,
        }
    }

    fn write_number<W: TextSink>(&self, f: &mut W) -> fmt::Result {
        f.write_str("-")
    }

    fn known(&self) {}
}

/// A number type with a single value, whose text is ten times as long as `.l`, which is read too. By its laws it reads some
/// bytes besides that are no text, which no text has.
#[derive(Clone, Copy, PartialEq, PartialOrd, Debug)]
pub enum Long {
    Long,
}

/// The one text.
const LONG: &str = ".llllllllllllllllllll";

impl WktNum for Long {
    ghost use Rattle.std.proofs.Common.{refl};
    ghost use Rattle.wkt_test_support.specs.Numbers.{AnyLong, long_text, read_long};
    ghost use Rattle.wkt_test_support.specs.Numbers.{long_reads_back, any_long, long_number_text, one_long};

    ghost is_value = { AnyLong };

    ghost num = { long_text };

    ghost read = { read_long };

    ghost reads_back = { long_reads_back };

    ghost reads_values = { λ bs. any_long (read_long bs) };

    ghost number_text = { long_number_text };

    ghost same = { λ x y. (λ _. one_long x y, λ _. refl) };

    fn read_number(text: &str) -> Option<Long> {
        if text == ".l" || text == LONG {
            return Some(Long::Long);
        }
        None
    }

    fn write_number<W: TextSink>(&self, f: &mut W) -> fmt::Result {
        f.write_str(LONG)
    }

    fn known(&self) {}
}
