//! Lines and columns, and the part of a line around a place.
ghost use Rattle.std.specs.Prelude.{◌≡◌, ◌+◌};
ghost use Rattle.wkt_command.specs.Place.{feeds, column_after, byte_after};

use crate::shown::{width, write_shown};
use std::fmt;
use std::fmt::Formatter;

/// A place of a text: its line and its column, both from 1. A column is a character.
#[derive(Clone, Copy, PartialEq, Eq, Debug)]
pub struct Place {
    pub line: usize,
    pub column: usize,
}

/// The place behind these bytes of a text, from its first byte on.
pub fn place_after(before: &[u8]) -> Place
    ensures line { result.line ≡ feeds before.now + 1 }
    ensures column { result.column ≡ column_after 1 before.now }
{
    let mut place = Place { line: 1, column: 1 };
    let mut rest = before;
    'bytes: while let Some((byte, others)) = rest.split_first() {
        match *byte {
            b'\n' => {
                place.line += 1;
                place.column = 1;
            }
            128..=191 => {}
            _ => place.column += 1,
        }
        rest = others;
    }
    place
}

/// The byte of its line behind these bytes of a text, from 1.
pub fn byte_after(before: &[u8]) -> usize
    ensures { result ≡ byte_after 1 before.now }
{
    let mut place = 1;
    let mut rest = before;
    'bytes: while let Some((byte, others)) = rest.split_first() {
        place = if *byte == b'\n' { 1 } else { place + 1 };
        rest = others;
    }
    place
}

// How many characters of a line are shown, and how many of them before the place where more follow.
const WIDTH: usize = 60;

const BEFORE: usize = 30;

/// The part of a line around a place, and below it a mark under the place.
#[derive(Clone, Copy)]
pub struct Excerpt<'a> {
    before: &'a str,
    marked: &'a str,
    after: &'a str,
    begins_line: bool,
    ends_line: bool,
}

fn continues(byte: u8) -> bool {
    (128..=191).contains(&byte)
}

/// Goes back so many characters, or to the line's begin: where that is, and how many they are.
fn back(text: &[u8], from: usize, most: usize) -> (usize, usize) {
    let front = text.get(..from).unwrap_or(text);
    let mut at = front.len();
    let mut count = 0;
    for byte in front.iter().rev() {
        if count >= most || *byte == b'\n' {
            break;
        }
        at = at.saturating_sub(1);
        if !continues(*byte) {
            count += 1;
        }
    }
    (at, count)
}

/// Goes on so many characters, or to the line's end: where that is, and how many they are.
fn forth(text: &[u8], from: usize, most: usize) -> (usize, usize) {
    let mut at = from;
    let mut count = 0;
    for byte in text.get(from..).unwrap_or(&[]) {
        if *byte == b'\n' {
            break;
        }
        if !continues(*byte) {
            if count >= most {
                break;
            }
            count += 1;
        }
        at = at.saturating_add(1);
    }
    (at, count)
}

impl<'a> Excerpt<'a> {
    /// The line around the bytes from `start` to `end`: up to 60 characters.
    pub fn around(text: &'a str, start: usize, end: usize) -> Excerpt<'a> {
        let bytes = text.as_bytes();
        let (_, before) = back(bytes, start, BEFORE);
        let (to, after) = forth(bytes, start, WIDTH.saturating_sub(before));
        let (from, _) = back(bytes, start, WIDTH.saturating_sub(after));
        let end = end.min(to).max(start);
        let ends_line = matches!(bytes.get(to), None | Some(b'\n'));
        let after = text.get(end..to).unwrap_or("");
        Excerpt {
            before: text.get(from..start).unwrap_or(""),
            marked: text.get(start..end).unwrap_or(""),
            after: if ends_line {
                after.strip_suffix('\r').unwrap_or(after)
            } else {
                after
            },
            begins_line: matches!(
                bytes.get(..from).and_then(|front| front.last()),
                None | Some(b'\n')
            ),
            ends_line,
        }
    }
}

fn write_times<W: fmt::Write>(c: char, times: usize, f: &mut Formatter<W>) -> fmt::Result {
    for _ in 0..times {
        f.write_char(c)?;
    }
    Ok(())
}

impl<'a> fmt::Display for Excerpt<'a> {
    fn fmt<W: fmt::Write>(&self, f: &mut Formatter<W>) -> fmt::Result {
        let dots = if self.begins_line { "" } else { "..." };
        f.write_str("    ")?;
        f.write_str(dots)?;
        write_shown(self.before, f)?;
        write_shown(self.marked, f)?;
        write_shown(self.after, f)?;
        f.write_str(if self.ends_line {
            "\n    "
        } else {
            "...\n    "
        })?;
        f.write_str(if self.begins_line { "" } else { "   " })?;
        for c in self.before.chars() {
            if c == '\t' {
                f.write_char(c)?;
            } else {
                write_times(' ', width(c), f)?;
            }
        }
        if self.marked.is_empty() {
            f.write_char('^')?;
        }
        for c in self.marked.chars() {
            write_times('^', width(c), f)?;
        }
        f.write_char('\n')
    }
}
