//! A refusal as data: an object of JSON, or fields with tabs between them.
use crate::place::byte_after;
use crate::report::{Origin, TextRefusal, past_white, push_message, push_refusal};
use crate::shown::{is_plain, write_shown_char};
use crate::verdict::{Refused, written};
use crate::words::{END, expected_cause, hint_cause};
use std::alloc::{AllocError, Global};
use std::fmt;
use std::fmt::Formatter;
use wkt_lines::line_end;
use wkt_options::{Form, Options};

/// Adds a refusal in the form that was asked for.
///
/// # Errors
/// Out of memory.
pub fn push_in_form(
    out: &mut String,
    alloc: Global,
    options: &Options,
    origin: Origin<'_>,
    refusal: TextRefusal<'_>,
) -> Result<(), AllocError> {
    let places = options.places;
    match options.form {
        Form::Text => push_refusal(out, origin, refusal, places),
        Form::Json => Row::new(alloc, origin, refusal, places)?.push_object(out),
        Form::Tsv => Row::new(alloc, origin, refusal, places)?.push_fields(out),
    }
}

/// A refusal as data, whose words are those of `docs/names.tsv`.
#[derive(Drop)]
struct Row<'a> {
    file: &'a str,
    line: u64,
    // From which byte of the line to before which; none where the text isn't UTF-8.
    place: Option<(usize, usize)>,
    // Where nothing is known, it is empty.
    expected: String,
    cause: &'static str,
    // Where nothing is known, it is empty.
    hint: String,
    message: String,
}

impl<'a> Row<'a> {
    fn new(
        alloc: Global,
        origin: Origin<'a>,
        refusal: TextRefusal<'_>,
        places: u32,
    ) -> Result<Row<'a>, AllocError> {
        let (before, len) = place(refusal);
        let start = byte_after(before).saturating_sub(1);
        let mut row = Row {
            file: origin.name,
            line: origin.line_after(before),
            place: Some((start, start.saturating_add(len))),
            expected: String::new(alloc),
            cause: "not_whole",
            hint: String::new(alloc),
            message: String::new(alloc),
        };
        push_message(&mut row.message, refusal)?;
        match refusal {
            TextRefusal::Text(Refused { why, .. }) => {
                let expected = why.expected;
                row.cause = expected_cause(expected);
                write!(row.expected, "{expected}")?;
                if let Some(hint) = why.hint(places) {
                    row.cause = hint_cause(hint);
                    write!(row.hint, "{hint}")?;
                }
            }
            TextRefusal::Rest(_, _) => row.expected.push_str(END)?,
            TextRefusal::NotUtf8(_) => {
                row.place = None;
                row.cause = "not_utf8";
            }
        }
        Ok(row)
    }

    fn push_object(&self, out: &mut String) -> Result<(), AllocError> {
        let (file, line) = (Quoted(self.file), self.line);
        write!(out, "{{\"file\":{file},\"line\":{line},")?;
        match self.place {
            Some((start, end)) => write!(out, "\"start\":{start},\"end\":{end},")?,
            None => out.push_str("\"start\":null,\"end\":null,")?,
        }
        let (expected, cause) = (Quoted(self.expected.as_str()), Quoted(self.cause));
        let (hint, message) = (Quoted(self.hint.as_str()), Quoted(self.message.as_str()));
        write!(
            out,
            "\"expected\":{expected},\"cause\":{cause},\"hint\":{hint},\"message\":{message}}}\n"
        )
    }

    fn push_fields(&self, out: &mut String) -> Result<(), AllocError> {
        let (file, line) = (Bare(self.file), self.line);
        write!(out, "{file}\t{line}\t")?;
        match self.place {
            Some((start, end)) => write!(out, "{start}\t{end}\t")?,
            None => out.push_str("\t\t")?,
        }
        let (expected, cause) = (self.expected.as_str(), self.cause);
        let (hint, message) = (self.hint.as_str(), self.message.as_str());
        write!(out, "{expected}\t{cause}\t{hint}\t{message}\n")
    }
}

/// What stands before the place of a refusal in its text, and how many bytes the place has.
fn place<'a>(refusal: TextRefusal<'a>) -> (&'a [u8], usize) {
    match refusal {
        TextRefusal::Text(refused) => (
            written(refused.text.as_bytes(), refused.start),
            refused.end.saturating_sub(refused.start),
        ),
        TextRefusal::Rest(text, end) => {
            let start = past_white(text, end);
            let rest = text.as_bytes().get(start..).unwrap_or(&[]);
            (written(text.as_bytes(), start), line_end(rest))
        }
        TextRefusal::NotUtf8(before) => (before, 0),
    }
}

/// A text as a JSON string, in which what isn't printable is escaped too; null where it is empty.
#[derive(Clone, Copy)]
struct Quoted<'a>(&'a str);

impl<'a> fmt::Display for Quoted<'a> {
    fn fmt<W: fmt::Write>(&self, f: &mut Formatter<W>) -> fmt::Result {
        if self.0.is_empty() {
            return f.write_str("null");
        }
        f.write_char('"')?;
        for c in self.0.chars() {
            match c {
                '"' | '\\' => write!(f, "\\{c}")?,
                '\t' => f.write_str("\\t")?,
                _ if is_plain(c) => f.write_char(c)?,
                _ => write_units(c, f)?,
            }
        }
        f.write_char('"')
    }
}

/// Writes the escapes of a character for JSON: its units of UTF-16.
fn write_units<W: fmt::Write>(c: char, f: &mut Formatter<W>) -> fmt::Result {
    let code = c as u32;
    if code < 0x10000 {
        return write!(f, "\\u{code:04x}");
    }
    let (high, low) = (0xd7c0 + code / 0x400, 0xdc00 + code % 0x400);
    write!(f, "\\u{high:04x}\\u{low:04x}")
}

/// A text as a field between tabs: as it is shown, and without a tab.
#[derive(Clone, Copy)]
struct Bare<'a>(&'a str);

impl<'a> fmt::Display for Bare<'a> {
    fn fmt<W: fmt::Write>(&self, f: &mut Formatter<W>) -> fmt::Result {
        for c in self.0.chars() {
            if c == '\t' {
                f.write_str("\\x09")?;
            } else {
                write_shown_char(c, f)?;
            }
        }
        Ok(())
    }
}
