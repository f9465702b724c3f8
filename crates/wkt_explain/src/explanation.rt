//! A refusal, and how it is shown.
ghost use Rattle.std.specs.Prelude.{◌≡◌};
ghost use Rattle.wkt_explain.specs.Hints.{hint_at};

use crate::hint::{Hint, hint_at};
use std::fmt;
use std::fmt::Formatter;
use wkt_read::{Expected, Message};

/// Where a text is refused, with which message, and what could come next.
#[derive(Clone, Copy, PartialEq, Eq, Debug)]
pub struct Refusal {
    /// The message with which the readers refuse it.
    pub message: Message,
    /// Where the lexeme that is too much begins, in bytes.
    pub start: usize,
    /// Where it ends. Where the text ends too early, this is `start`.
    pub end: usize,
    /// What could come next in its place.
    pub expected: Expected,
}

/// Where and why a text is refused, with the text.
#[derive(Clone, Copy, PartialEq, Eq, Debug)]
pub struct Explanation<'a> {
    /// The text.
    pub text: &'a str,
    /// The message with which `from_str` refuses it.
    pub message: &'static str,
    /// Where the lexeme that is too much begins, in bytes.
    pub start: usize,
    /// Where it ends. Where the text ends too early, this is `start`.
    pub end: usize,
    /// What could come next in its place.
    pub expected: Expected,
}

impl Refusal {
    /// What the lexeme may come from that is refused, of the text that is passed, where numbers have so many places; none
    /// where nothing is known.
    pub fn hint(&self, text: &[u8], places: u32) -> Option<Hint>
        ensures { result ≡ hint_at text.now self.now.start self.now.end self.now.expected places }
    {
        hint_at(text, self.start, self.end, self.expected, places)
    }
}

impl<'a> Explanation<'a> {
    /// What the lexeme may come from that is refused, where numbers have so many places; none where nothing is known.
    pub fn hint(&self, places: u32) -> Option<Hint>
        ensures { result ≡ hint_at self.now.text.now self.now.start self.now.end self.now.expected places }
    {
        hint_at(
            self.text.as_bytes(),
            self.start,
            self.end,
            self.expected,
            places,
        )
    }
}

/// The line in which the place is, and below it a mark under the place and what could come next.
///
/// ```text
/// POINT(1)
///        ^ a second number was expected
/// ```
impl<'a> fmt::Display for Explanation<'a> {
    fn fmt<W: fmt::Write>(&self, f: &mut Formatter<W>) -> fmt::Result {
        // A place of a caller's own, which may be within a character, is shown at the text's end.
        let before = self.text.get(..self.start).unwrap_or(self.text);
        let after = self.text.get(self.start..).unwrap_or("");
        let line = match before.rsplit_once('\n') {
            Some((_, line)) => line,
            None => before,
        };
        let rest = match after.split_once('\n') {
            Some((rest, _)) => rest,
            None => after,
        };
        write!(f, "{line}{rest}\n")?;
        for c in line.chars() {
            f.write_char(if c == '\t' { c } else { ' ' })?;
        }
        write!(f, "^ {} was expected", self.expected)
    }
}
