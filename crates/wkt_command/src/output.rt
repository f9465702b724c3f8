//! Standard output, and what `wkt canon` and `wkt kind` write there.
ghost use Rattle.std.specs.Prelude.{◌≡◌, OnOk, [], ◌∷◌, ◌++◌, codes};
ghost use Rattle.std.specs.Io.KnownBytes.{Appends, Keeps};
ghost use Rattle.wkt_command.specs.Canon.{out_bytes, refused_line};
ghost use Rattle.std.specs.Str.{bytes_eq};

use std::alloc::Global;
use std::io::{self, BufWriter, IsTerminal, Write};
use wkt_lines::{after_line, line_end};

// How much is gathered before it is written, where that goes to no terminal.
const BUFFERED: usize = 65536;

/// Standard output or standard error, which gathers what is written; on a terminal, up to a text's end alone.
#[derive(Drop)]
pub struct Output<W: Write + Drop> {
    writer: BufWriter<W>,
    is_terminal: bool,
}

impl<W: Write + IsTerminal + Drop> Output<W> {
    /// # Errors
    /// Out of memory.
    pub fn new(alloc: Global, writer: W) -> io::Result<Output<W>> {
        let is_terminal = writer.is_terminal();
        Ok(Output {
            writer: BufWriter::with_capacity(alloc, BUFFERED, writer)?,
            is_terminal,
        })
    }
}

impl<W: Write + Drop> Output<W> {
    ghost use Rattle.wkt_command.specs.Canon.{out_bytes};

    /// Writes all bytes.
    ///
    /// # Errors
    /// The writer's error.
    pub fn put(&mut self, bytes: &[u8]) -> io::Result<()>
        ensures { OnOk result (Appends (out_bytes W.contents self.old) (out_bytes W.contents self.new) bytes.now) }
    {
        self.writer.write_all(bytes)
    }

    /// Writes out what was gathered of a text, where people look on.
    ///
    /// # Errors
    /// The writer's error.
    pub fn end_text(&mut self) -> io::Result<()>
        ensures { OnOk result (Keeps (out_bytes W.contents self.old) (out_bytes W.contents self.new)) }
    {
        if self.is_terminal {
            self.writer.flush()
        } else {
            Ok(())
        }
    }

    /// Writes out all that was gathered.
    ///
    /// # Errors
    /// The writer's error.
    pub fn finish(&mut self) -> io::Result<()> {
        self.writer.flush()
    }
}

/// Writes a text's canonical text, and a line feed.
///
/// # Errors
/// Standard output's error.
pub fn put_canonical<W: Write + Drop>(out: &mut Output<W>, canonical: &[u8]) -> io::Result<()>
    ensures { OnOk result
        (Appends (out_bytes W.contents out.old) (out_bytes W.contents out.new) (canonical.now ++ 10 ∷ [])) }
{
    match out.put(canonical) {
        Ok(()) => out.put(b"\n"),
        Err(error) => Err(error),
    }
}

/// Writes the line for a refused text: the word that was asked for, if one was, and if that isn't `skip`.
///
/// # Errors
/// Standard output's error.
pub fn put_refused<W: Write + Drop>(out: &mut Output<W>, asked: &Option<String>) -> io::Result<()>
    ensures { OnOk result
        (Appends (out_bytes W.contents out.old) (out_bytes W.contents out.new) (refused_line asked.now)) }
{
    match asked {
        Some(word) if !is_skip(word.as_bytes()) => put_canonical(out, word.as_bytes()),
        _ => Ok(()),
    }
}

/// Whether refused texts are left out by this word.
fn is_skip(word: &[u8]) -> bool
    ensures { result ≡ bytes_eq (codes "skip") word.now }
{
    b"skip".as_slice() == word
}

/// Writes the kinds and the dimensions of canonical texts, which have a line feed between them.
///
/// # Errors
/// Standard output's error.
pub fn put_kinds<W: Write + Drop>(out: &mut Output<W>, canonical: &[u8]) -> io::Result<()> {
    let mut rest = canonical;
    'lines: while !rest.is_empty() {
        let end = line_end(rest);
        out.put(kind_line(&rest[..end]).as_bytes())?;
        rest = after_line(rest, end);
    }
    Ok(())
}

/// The line for a canonical text, by its first word: no kind's word begins with another.
fn kind_line(canonical: &[u8]) -> &'static str {
    if let Some(rest) = canonical.strip_prefix(b"POINT") {
        by_dimension(
            rest,
            ["Point XY\n", "Point XYZ\n", "Point XYM\n", "Point XYZM\n"],
        )
    } else if let Some(rest) = canonical.strip_prefix(b"LINESTRING") {
        by_dimension(
            rest,
            [
                "LineString XY\n",
                "LineString XYZ\n",
                "LineString XYM\n",
                "LineString XYZM\n",
            ],
        )
    } else if let Some(rest) = canonical.strip_prefix(b"POLYGON") {
        by_dimension(
            rest,
            [
                "Polygon XY\n",
                "Polygon XYZ\n",
                "Polygon XYM\n",
                "Polygon XYZM\n",
            ],
        )
    } else if let Some(rest) = canonical.strip_prefix(b"MULTIPOINT") {
        by_dimension(
            rest,
            [
                "MultiPoint XY\n",
                "MultiPoint XYZ\n",
                "MultiPoint XYM\n",
                "MultiPoint XYZM\n",
            ],
        )
    } else if let Some(rest) = canonical.strip_prefix(b"MULTILINESTRING") {
        by_dimension(
            rest,
            [
                "MultiLineString XY\n",
                "MultiLineString XYZ\n",
                "MultiLineString XYM\n",
                "MultiLineString XYZM\n",
            ],
        )
    } else if let Some(rest) = canonical.strip_prefix(b"MULTIPOLYGON") {
        by_dimension(
            rest,
            [
                "MultiPolygon XY\n",
                "MultiPolygon XYZ\n",
                "MultiPolygon XYM\n",
                "MultiPolygon XYZM\n",
            ],
        )
    } else if let Some(rest) = canonical.strip_prefix(b"GEOMETRYCOLLECTION") {
        by_dimension(
            rest,
            [
                "GeometryCollection XY\n",
                "GeometryCollection XYZ\n",
                "GeometryCollection XYM\n",
                "GeometryCollection XYZM\n",
            ],
        )
    } else {
        ""
    }
}

/// The line for the dimension that stands behind the word of a kind.
fn by_dimension(rest: &[u8], lines: [&'static str; 4]) -> &'static str {
    let [xy, xyz, xym, xyzm] = lines;
    if rest.starts_with(b" ZM") {
        xyzm
    } else if rest.starts_with(b" Z") {
        xyz
    } else if rest.starts_with(b" M") {
        xym
    } else {
        xy
    }
}
