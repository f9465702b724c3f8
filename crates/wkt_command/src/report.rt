//! A refusal, as it is printed.
ghost use Rattle.std.specs.Prelude.{◌≡◌, ◌++◌, ◌+◌, ◌-◌, ◌^◌, min, take, OnOk, string_bytes};
ghost use Rattle.wkt_command.specs.Place.{line_after, place_text, utf8_text};

use crate::place::{Excerpt, byte_after, place_after};
use crate::progress::Tally;
use crate::verdict::{Refused, written};
use std::alloc::{AllocError, Global};
use std::fmt;
use std::fmt::Formatter;
use wkt_options::Ends;
use wkt_read::words::is_white;

/// Where a text stands: its file's name, and the number of its first line.
#[derive(Clone, Copy)]
pub struct Origin<'a> {
    pub name: &'a str,
    pub line: u64,
}

impl<'a> Origin<'a> {
    /// The number of a line of the text, whose lines count from 1.
    fn line(self, line: usize) -> u64
        ensures { result ≡ min (self.entry.line + (line - 1)) (2 ^ 64 - 1) }
    {
        self.line.saturating_add(line.saturating_sub(1) as u64)
    }

    /// The number of the line behind these bytes of the text.
    pub fn line_after(self, before: &[u8]) -> u64
        ensures { result ≡ line_after self.entry.line before.now }
    {
        self.line(place_after(before).line)
    }
}

/// Why a text is refused.
#[derive(Clone, Copy)]
pub enum TextRefusal<'a> {
    /// It has no geometry at its front.
    Text(Refused<'a>),
    /// More than white space follows its geometry, which ends at this byte.
    Rest(&'a str, usize),
    /// It isn't UTF-8 behind these bytes.
    NotUtf8(&'a [u8]),
}

/// The first place from here on where no white space stands.
pub fn past_white(text: &str, from: usize) -> usize {
    let rest = text.as_bytes().get(from..).unwrap_or(&[]);
    let blanks = rest.iter().position(|byte| !is_white(*byte)).unwrap_or(0);
    from.saturating_add(blanks)
}

/// Adds the place behind these bytes of a text: its file, line and column.
///
/// # Errors
/// Out of memory.
fn push_place(out: &mut String, origin: Origin<'_>, before: &[u8]) -> Result<(), AllocError>
    ensures { OnOk result (string_bytes out.new ≡ string_bytes out.old ++ place_text origin.entry.name.now origin.entry.line before.now) }
{
    let place = place_after(before);
    let name = origin.name;
    let line = origin.line(place.line);
    let column = place.column;
    write!(out, "{name}:{line}:{column}: ")
}

/// Adds what is printed of a refusal: file, line, column, what was expected, and the line with a mark under the place.
///
/// # Errors
/// Out of memory.
pub fn push_refusal(
    out: &mut String,
    origin: Origin<'_>,
    refusal: TextRefusal<'_>,
    places: u32,
) -> Result<(), AllocError> {
    let (text, start, end) = match refusal {
        TextRefusal::Text(refused) => (refused.text, refused.start, refused.end),
        TextRefusal::Rest(text, end) => {
            let rest = past_white(text, end);
            (text, rest, rest)
        }
        TextRefusal::NotUtf8(before) => return push_not_utf8(out, origin, before),
    };
    push_place(out, origin, written(text.as_bytes(), start))?;
    push_message(out, refusal)?;
    if let TextRefusal::Text(refused) = refusal {
        if let Some(hint) = refused.why.hint(places) {
            write!(out, " ({hint})")?;
        }
    }
    let excerpt = Excerpt::around(text, start, end);
    write!(out, "\n{excerpt}")
}

/// Adds why a text is refused, without the hint.
///
/// # Errors
/// Out of memory.
pub fn push_message(out: &mut String, refusal: TextRefusal<'_>) -> Result<(), AllocError> {
    match refusal {
        TextRefusal::Text(refused) => {
            let expected = refused.why.expected;
            write!(out, "{expected} was expected")
        }
        TextRefusal::Rest(_, _) => out.push_str("more follows the geometry"),
        TextRefusal::NotUtf8(before) => {
            let byte = byte_after(before);
            write!(out, "not UTF-8 at byte {byte} of the line")
        }
    }
}

/// Adds that a text isn't UTF-8 behind these bytes of it.
///
/// # Errors
/// Out of memory.
fn push_not_utf8(out: &mut String, origin: Origin<'_>, before: &[u8]) -> Result<(), AllocError>
    ensures { OnOk result (string_bytes out.new ≡ string_bytes out.old ++ utf8_text origin.entry.name.now origin.entry.line before.now) }
{
    let name = origin.name;
    let line = origin.line_after(before);
    let byte = byte_after(before);
    write!(out, "{name}:{line}: not UTF-8 at byte {byte} of the line\n")
}

/// How many texts were refused, in a line; of the first ones, where the run ended before the others.
///
/// # Errors
/// Out of memory.
pub fn count_line(
    alloc: Global,
    tally: Tally,
    ends: Ends,
    is_over: bool,
) -> Result<String, AllocError> {
    let refused = Thousands(tally.refused);
    let texts = Thousands(tally.texts);
    let what = match ends {
        Ends::Line => "line",
        _ => "text",
    };
    let first = if is_over { "the first " } else { "" };
    let plural = if tally.texts == 1 { "" } else { "s" };
    format!(in alloc; "{refused} of {first}{texts} {what}{plural} refused\n")
}

/// A number with commas between its thousands.
#[derive(Clone, Copy)]
pub struct Thousands(pub u64);

impl fmt::Display for Thousands {
    fn fmt<W: fmt::Write>(&self, f: &mut Formatter<W>) -> fmt::Result {
        let mut groups = [0u64; 7];
        let mut rest = self.0;
        for group in groups.iter_mut() {
            *group = rest % 1000;
            rest /= 1000;
        }
        let mut is_begun = false;
        for group in groups.iter().rev() {
            if is_begun {
                write!(f, ",{group:03}")?;
            } else if *group > 0 {
                write!(f, "{group}")?;
                is_begun = true;
            }
        }
        if is_begun { Ok(()) } else { f.write_char('0') }
    }
}
