//! Texts of each length, the display of decimals, sinks that fail, and numbers that a window shows: what those are was
//! computed by Python's `decimal`.
ghost use Rattle.std.specs.Prelude.{IfOk, ◌≡◌};
ghost use Rattle.std.specs.String.{string_bytes};
ghost use Rattle.wkt_num.specs.Decimal.{decimal_text};

use crate::asserts::{equal, holds};
use std::alloc::{AllocError, Global};
use std::fmt;
use std::process::Abort;
use wkt_num::{CountedText, Decimal, TextSink, WktNum};

// The exact text of `to_string`.
fn displayed(alloc: Global, d: Decimal<6>) -> Result<String, AllocError>
    ensures { IfOk result (λ s. string_bytes s ≡ decimal_text 6 d) }
{
    d.to_string(alloc)
}

/// The number that the text is read as is printed so; `refused` stands for none.
fn prints<T: WktNum>(rt: &impl Abort, alloc: Global, text: &str, want: &str) {
    let mut out = String::new(alloc);
    match T::read_number(text) {
        Some(number) => print(&number, &mut out),
        None => out.push_str("refused").expect(rt, "memory"),
    }
    equal(rt, out.as_str(), want);
}

fn print<T: WktNum>(number: &T, out: &mut String) {
    let _ = number.write_number(&mut CountedText::new(out));
}

const MIXED: [char; 9] = ['7', '3', '9', '1', '8', '4', '6', '2', '5'];

/// Digits around a point, with another character at one place.
fn spelled(
    rt: &impl Abort,
    alloc: Global,
    digits: [char; 9],
    whole: u8,
    after: u8,
    place: usize,
    other: char,
) -> String {
    let point = usize::from(whole);
    let mut text = String::new(alloc);
    for at in 0..point + 1 + usize::from(after) {
        let next = if at == place {
            other
        } else if at == point {
            '.'
        } else {
            digits[at % 9]
        };
        text.push(next).expect(rt, "memory");
    }
    text
}

/// Decimals of each length of those digits are printed as they are read.
fn prints_each_length(rt: &impl Abort, alloc: Global, digits: [char; 9]) {
    for whole in 1..=20u8 {
        for after in 1..=18u8 {
            let text = spelled(rt, alloc, digits, whole, after, 99, ' ');
            prints::<Decimal<18>>(rt, alloc, &text, &text);
        }
    }
}

#[test]
fn decimals_of_each_length(rt: HostRuntime) {
    prints_each_length(&rt, rt.alloc(), MIXED);
    prints_each_length(&rt, rt.alloc(), ['9'; 9]);
}

// What stands next to the digits and the point in ASCII, and a second point.
const OTHERS: &[char] = &['/', ':', ',', '.', 'e', '\u{0}', '\u{7f}'];

/// Each other character at that place is refused, but the point at its own.
fn refuses_others(rt: &impl Abort, alloc: Global, whole: u8, after: u8, place: usize) {
    for &other in OTHERS {
        if place != usize::from(whole) || other != '.' {
            let text = spelled(rt, alloc, MIXED, whole, after, place, other);
            prints::<Decimal<18>>(rt, alloc, &text, "refused");
        }
    }
}

#[test]
fn decimals_with_another_character(rt: HostRuntime) {
    for whole in 1..=4u8 {
        for after in 1..=18u8 {
            for place in 0..usize::from(whole) + 1 + usize::from(after) {
                refuses_others(&rt, rt.alloc(), whole, after, place);
            }
        }
    }
}

#[test]
fn long_texts(rt: HostRuntime) {
    let alloc = rt.alloc();
    let zeros = "0".repeat(alloc, 100_000).expect(&rt, "memory");
    let text = [zeros.as_str(), "1"].concat(alloc).expect(&rt, "memory");
    prints::<Decimal<6>>(&rt, alloc, &text, "1");
    prints::<u8>(&rt, alloc, &text, "1");
    let text = ["0.5", zeros.as_str()].concat(alloc).expect(&rt, "memory");
    prints::<Decimal<6>>(&rt, alloc, &text, "0.5");
}

#[test]
fn compared(rt: HostRuntime) {
    let d = Decimal::<6>::read_number("-12.5").expect(&rt, "refused");
    equal(&rt, d.units(), -12500000);
    holds(&rt, d == Decimal::from_units(-12500000));
    holds(&rt, d < Decimal::from_units(-12499999));
}

#[test]
fn display(rt: HostRuntime) {
    let alloc = rt.alloc();
    let d = Decimal::<6>::from_units(-12500000);
    equal(
        &rt,
        displayed(alloc, d).expect(&rt, "memory").as_str(),
        "-12.5",
    );
    let text = format!(in alloc; "{d:?}").expect(&rt, "memory");
    equal(&rt, text.as_str(), "Decimal { units: -12500000 }");
    let text = format!(in alloc; "{d:*>+20.3}").expect(&rt, "memory");
    equal(&rt, text.as_str(), "-12.5");
}

// Takes some pieces, and fails then.
#[derive(Drop)]
struct Failing {
    text: String,
    left: u32,
}

impl fmt::Write for Failing {
    fn write_str(&mut self, piece: &str) -> fmt::Result {
        if self.left == 0 {
            return Err(fmt::Error);
        }
        self.left -= 1;
        match self.text.push_str(piece) {
            Ok(()) => Ok(()),
            Err(_) => Err(fmt::Error),
        }
    }
}

// Writes three numbers.
fn write_three<W: TextSink>(sink: &mut W) -> fmt::Result {
    Decimal::<6>::from_units(-12500000).write_number(sink)?;
    1u128.write_number(sink)?;
    Decimal::<36>::from_units(i128::MIN).write_number(sink)
}

// How many pieces the sink takes, and what it has then.
const TAKEN: &[(u32, &str)] = &[
    (0, ""),
    (1, "-12.5"),
    (2, "-12.51"),
    (3, "-12.51-170.141183460469231731687303715884105728"),
];

/// A sink that takes so many pieces has that text.
fn takes(rt: &impl Abort, alloc: Global, left: u32, want: &str) {
    let mut out = Failing {
        text: String::new(alloc),
        left,
    };
    let result = write_three(&mut CountedText::new(&mut out));
    equal(rt, result.is_ok(), left == 3);
    equal(rt, out.text.as_str(), want);
}

#[test]
fn failing_sink(rt: HostRuntime) {
    for &(left, want) in TAKEN {
        takes(&rt, rt.alloc(), left, want);
    }
}

/// The text, and what fills a window behind it.
fn window(rt: &impl Abort, alloc: Global, text: &str) -> String {
    [text, "1.5,-2.25)1.5,-2.25)1.5,-2.25)x"]
        .concat(alloc)
        .expect(rt, "memory")
}

/// The number that a window shows, and where it ends.
fn shown<T: WktNum>(rt: &impl Abort, alloc: Global, text: &str) -> Option<(T, usize)> {
    let bytes = window(rt, alloc, text);
    if bytes.len() < 32 {
        return None;
    }
    T::read_in_window(bytes.as_bytes())
}

/// The units of a decimal that a window shows.
fn units<const D: u32>(rt: &impl Abort, alloc: Global, text: &str) -> Option<(i128, usize)> {
    match shown::<Decimal<D>>(rt, alloc, text) {
        Some((number, end)) => Some((number.units(), end)),
        None => None,
    }
}

/// Each is shown.
fn all_shown<const D: u32>(rt: &impl Abort, alloc: Global, rows: &[(&str, i128, usize)]) {
    for &(text, want, end) in rows {
        equal(rt, units::<D>(rt, alloc, text), Some((want, end)));
    }
}

// A text, its units, and where it ends.
const EIGHTEEN: &[(&str, i128, usize)] = &[
    ("0,", 0, 1),
    ("-0)", 0, 2),
    ("7 ", 7000000000000000000, 1),
    ("-7(", -7000000000000000000, 2),
    ("12345678\t", 12345678000000000000000000, 8),
    ("-12345678\n", -12345678000000000000000000, 9),
    ("0012\r", 12000000000000000000, 4),
    ("00000000\0", 0, 8),
    ("-00.50,", -500000000000000000, 6),
    ("0.1)", 100000000000000000, 3),
    ("-0.1 ", -100000000000000000, 4),
    ("1.25(", 1250000000000000000, 4),
    ("83.874412\t", 83874412000000000000, 9),
    ("-56.384838\n", -56384838000000000000, 10),
    ("112.924170\r", 112924170000000000000, 10),
    ("99999999.999999\0", 99999999999999000000000000, 15),
    ("12345678.123456,", 12345678123456000000000000, 15),
    ("0.0000000)", 0, 9),
    ("9.0000000 ", 9000000000000000000, 9),
    ("1.1234567(", 1123456700000000000, 9),
    ("-1.12345678\t", -1123456780000000000, 11),
    ("1.123456789\n", 1123456789000000000, 11),
    ("12345678.123456789012345\r", 12345678123456789012345000, 24),
    ("1.1234567890123456\0", 1123456789012345600, 18),
    (
        "-99999999.9999999999999999,",
        -99999999999999999999999900,
        26,
    ),
    ("0.0000000000000001)", 100, 18),
    ("-0.0000000000000000 ", 0, 19),
    ("5.0000000000000000(", 5000000000000000000, 18),
];

const SIX: &[(&str, i128, usize)] = &[
    ("3,", 3000000, 1),
    ("-3.5)", -3500000, 4),
    ("83.874412 ", 83874412, 9),
    ("-153.135912(", -153135912, 11),
    ("12345678.000001\t", 12345678000001, 15),
    ("0.5\n", 500000, 3),
];

#[test]
fn decimals(rt: HostRuntime) {
    all_shown::<18>(&rt, rt.alloc(), EIGHTEEN);
    all_shown::<6>(&rt, rt.alloc(), SIX);
}

// Runs that are none or are read elsewhere: nine digits before the point, seventeen behind it, none at all, other bytes.
const NOT_SHOWN: &[&str] = &[
    "123456789,",
    "123456789.5,",
    "1.12345678901234567,",
    "00000000000000000000000000000000,",
    "1.0000000000000000000000000000000,",
    "1.,",
    ".5,",
    "-.5,",
    "-,",
    ",",
    "+1,",
    "--1,",
    "1.5.2,",
    "1x,",
    "1.5x,",
    "1.5\u{e9},",
    "1:,",
    "1/,",
    "1.5:,",
    "1.5/,",
    "1e3,",
    "\u{0}",
];

/// A window shows the number before the text's last byte, printed so; `elsewhere` stands for none.
fn shows<T: WktNum>(rt: &impl Abort, alloc: Global, text: &str, want: &str) {
    let mut out = String::new(alloc);
    match shown::<T>(rt, alloc, text) {
        Some((number, end)) => {
            print(&number, &mut out);
            equal(rt, end, text.len().wrapping_sub(1));
        }
        None => out.push_str("elsewhere").expect(rt, "memory"),
    }
    equal(rt, out.as_str(), want);
}

#[test]
fn what_is_read_elsewhere(rt: HostRuntime) {
    let alloc = rt.alloc();
    for &text in NOT_SHOWN {
        shows::<Decimal<18>>(&rt, alloc, text, "elsewhere");
    }
    shows::<Decimal<6>>(&rt, alloc, "0.1234567,", "elsewhere");
    shows::<Decimal<0>>(&rt, alloc, "0.5,", "elsewhere");
    shows::<Decimal<19>>(&rt, alloc, "1,", "elsewhere");
}

#[test]
fn whole_numbers(rt: HostRuntime) {
    let alloc = rt.alloc();
    shows::<i8>(&rt, alloc, "-99,", "-99");
    shows::<i16>(&rt, alloc, "-9999)", "-9999");
    shows::<i32>(&rt, alloc, "999999999 ", "999999999");
    shows::<i64>(&rt, alloc, "-1234567890123456,", "-1234567890123456");
    shows::<i128>(&rt, alloc, "-0012,", "-12");
    shows::<u8>(&rt, alloc, "7,", "7");
    shows::<u16>(&rt, alloc, "1234,", "1234");
    shows::<u32>(&rt, alloc, "123456789,", "123456789");
    shows::<u64>(&rt, alloc, "9876543210987654)", "9876543210987654");
    shows::<u128>(&rt, alloc, "12345678,", "12345678");
}

#[test]
fn whole_numbers_that_are_read_elsewhere(rt: HostRuntime) {
    let alloc = rt.alloc();
    shows::<i8>(&rt, alloc, "100,", "elsewhere");
    shows::<i64>(&rt, alloc, "12345678901234567,", "elsewhere");
    shows::<u64>(&rt, alloc, "-1,", "elsewhere");
    shows::<i64>(&rt, alloc, "-,", "elsewhere");
    shows::<i64>(&rt, alloc, "1.0,", "elsewhere");
    shows::<i64>(&rt, alloc, "1x,", "elsewhere");
    shows::<u32>(&rt, alloc, "+1,", "elsewhere");
}

// A text, what Rust's `FromStr` reads it as, and which of `i32`, `i64`, `u32` and `u64` read it; the others refuse it.
const WHOLE: &str = "\
0 = 0 by i32 i64 u32 u64
7 = 7 by i32 i64 u32 u64
-0 = 0 by i32 i64
007 = 7 by i32 i64 u32 u64
-155 = -155 by i32 i64
+5 = 5 by i32 i64 u32 u64
 = refused by none
- = refused by none
+ = refused by none
-+1 = refused by none
1- = refused by none
1.0 = refused by none
1a = refused by none
a1 = refused by none
: = refused by none
/5 = refused by none
99999999 = 99999999 by i32 i64 u32 u64
999999999 = 999999999 by i32 i64 u32 u64
1000000000 = 1000000000 by i32 i64 u32 u64
-99999999 = -99999999 by i32 i64
-999999999 = -999999999 by i32 i64
2147483647 = 2147483647 by i32 i64 u32 u64
2147483648 = 2147483648 by i64 u32 u64
-2147483648 = -2147483648 by i32 i64
-2147483649 = -2147483649 by i64
00000000007 = 7 by i32 i64 u32 u64
4294967295 = 4294967295 by i64 u32 u64
4294967296 = 4294967296 by i64 u64
99999999999999999 = 99999999999999999 by i64 u64
999999999999999999 = 999999999999999999 by i64 u64
-99999999999999999 = -99999999999999999 by i64
-999999999999999999 = -999999999999999999 by i64
1000000000000000000 = 1000000000000000000 by i64 u64
000000000000000000 = 0 by i32 i64 u32 u64
0000000000000000001 = 1 by i32 i64 u32 u64
9223372036854775807 = 9223372036854775807 by i64 u64
9223372036854775808 = 9223372036854775808 by u64
-9223372036854775808 = -9223372036854775808 by i64
-9223372036854775809 = refused by none
18446744073709551615 = 18446744073709551615 by u64
18446744073709551616 = refused by none
";

fn or_refused(read: bool, value: &str) -> &str {
    if read { value } else { "refused" }
}

/// The four types read the text of the row or refuse it.
fn is_whole(rt: &impl Abort, alloc: Global, row: &str) {
    let (text, rest) = row.split_once(" = ").expect(rt, row);
    let (value, by) = rest.split_once(" by ").expect(rt, row);
    prints::<i32>(rt, alloc, text, or_refused(by.contains("i32"), value));
    prints::<i64>(rt, alloc, text, or_refused(by.contains("i64"), value));
    prints::<u32>(rt, alloc, text, or_refused(by.contains("u32"), value));
    prints::<u64>(rt, alloc, text, or_refused(by.contains("u64"), value));
}

#[test]
fn whole_texts(rt: HostRuntime) {
    for row in WHOLE.lines() {
        is_whole(&rt, rt.alloc(), row);
    }
}
