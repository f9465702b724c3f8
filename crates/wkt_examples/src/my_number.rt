//! A custom number type: halves of at most one, with the four laws of `WktNum`.
use std::fmt;
use wkt::WktNum;
use wkt::to_wkt::TextSink;

/// Zero, a half, or one.
#[derive(Clone, Copy, PartialEq, PartialOrd, Debug)]
pub enum Half {
    Zero,
    Half,
    One,
}

impl WktNum for Half {
    ghost use denote.Enum.Bare.{same_true, true_same};
    ghost use Rattle.wkt_examples.specs.contracts.my_number.Half.{the_type};
    ghost use Rattle.wkt_examples.specs.Halves.{AnyHalf, half_text, read_half, half_reads_back, any_half, half_number_text};

    ghost is_value = { AnyHalf };

    ghost num = { half_text };

    ghost read = { read_half };

    ghost reads_back = { half_reads_back };

    ghost reads_values = { λ bs. any_half (read_half bs) };

    ghost number_text = { half_number_text };

    ghost same = { λ x y. (same_true the_type tt x y, true_same the_type x y) };

    fn read_number(text: &str) -> Option<Half> {
        match text.as_bytes() {
            [b'0'] => Some(Half::Zero),
            [b'.', b'5'] => Some(Half::Half),
            [b'1'] => Some(Half::One),
            _ => None,
        }
    }

    fn write_number<W: TextSink>(&self, f: &mut W) -> fmt::Result {
        match self {
            Half::Zero => f.write_str("0"),
            Half::Half => f.write_str(".5"),
            Half::One => f.write_str("1"),
        }
    }

    fn known(&self) {}
}
