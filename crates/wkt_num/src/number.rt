//! The numbers that coordinates are made of.
ghost use Rattle.std.specs.Prelude.{◌≡◌, ◌≤◌, ◌<◌, ℕ, true, List, Option, Some, IfSome, length, ◌↔◌};
ghost use Rattle.wkt_num.specs.Sink.{Puts};
ghost use Rattle.wkt_num.specs.Number.{IsNumberText, ReadsTexts, KeepsText, BeginsNumber};

use crate::sink::TextSink;
use std::fmt;
use std::fmt::Debug;

/// A number type that coordinates may have.
///
/// Each value has one text, a run that begins with a digit, a point or a minus, and that reads back as
/// the value. More texts than those that are printed may be read. No call takes memory.
pub trait WktNum: Copy + PartialEq + PartialOrd + Debug {
    /// Holds of the values of the type.
    ghost is_value: { Self → Type 0 };

    /// The text of a value.
    ghost num: { Self → List ℕ };

    /// What a text is read as.
    ghost read: { List ℕ → Option Self };

    /// The value that the text stands for, or `None` if it stands for none.
    fn read_number(text: &str) -> Option<Self>
        ensures { result ≡ read text.now };

    /// Adds the number's text to the sink. An error is the sink's.
    fn write_number<W: TextSink>(&self, f: &mut W) -> fmt::Result
        ensures { Puts W.sink f.old (num self.now) f.new result };

    /// Where the number run that 32 bytes or more begin with ends, and where its number's text does, which is a beginning of
    /// it, if the run ends within the first 32. `None` implies nothing about the bytes, unless the type says which texts it
    /// finds. Whole numbers and decimals do, in their own clauses.
    fn canonical_prefix(bytes: &[u8]) -> Option<(usize, usize)>
        requires { 32 ≤ length bytes.now }
        ensures keeps { IfSome result (λ r. KeepsText read num bytes.now r.0 r.1) }
        ensures within { IfSome result (λ r. r.0 < 32) }
    {
        None
    }

    /// The number that 32 bytes or more begin with, and where its run ends, which it does within the first 32. `None` implies
    /// nothing about the bytes.
    fn read_in_window(bytes: &[u8]) -> Option<(Self, usize)>
        requires { 32 ≤ length bytes.now }
        ensures reads { IfSome result (λ r. BeginsNumber read bytes.now r.0 r.1) }
        ensures within { IfSome result (λ r. r.1 < 32) }
    {
        None
    }

    /// Whether only bytes that are UTF-8 are read as numbers. `false` implies nothing.
    fn reads_texts() -> bool
        ensures { result ≡ true → ReadsTexts read }
    {
        false
    }

    /// Does nothing. Its contract says that the number is a value of the type.
    fn known(&self)
        ensures { is_value self.now };

    /// The text of a value reads back as the value.
    ghost reads_back: { (x : Self) → is_value x → read (num x) ≡ Some x };

    /// What is read is a value.
    ghost reads_values: { (bs : List ℕ) → IfSome (read bs) is_value };

    /// The text of a value is one number run.
    ghost number_text: { (x : Self) → is_value x → IsNumberText (num x) };

    /// `==` holds exactly for equal values.
    ghost same: { (x y : Self) → (Self.eq x y ≡ true) ↔ (x ≡ y) };
}
