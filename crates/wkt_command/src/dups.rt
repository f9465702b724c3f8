//! `wkt dups`: the texts that name a geometry which an earlier text names.
ghost use Rattle.std.specs.Prelude.{◌≡◌, ℕ, List, Some, IfOk, OnOk, OnErr, IsUtf8, if◌then◌else◌, unwrap_or};
ghost use Rattle.std.specs.Str.{bytes_eq};
ghost use Rattle.wkt_command.specs.Canon.{first_of};

use crate::error::CommandError;
use crate::input::shown_name;
use crate::key::Key;
use crate::output::Output;
use crate::report::Origin;
use crate::shown::Shown;
use std::alloc::{AllocError, Global};
use std::collections::HashMap;
use std::collections::hash_map::Entry;
use std::hash::RandomState;
use std::io::{self, Write};
use wkt_lines::{after_line, line_end};

/// Where a text stands: the number of its file in the run, and its first line.
#[derive(Clone, Copy)]
pub struct Spot {
    pub file: usize,
    pub line: u64,
}

/// The geometries that were seen, by their canonical texts, with where each was seen first.
#[derive(Drop)]
pub struct Seen {
    alloc: Global,
    first: HashMap<Key, Spot, RandomState>,
}

impl Seen {
    /// # Errors
    /// The system gives no random numbers, by which the keys are spread.
    pub fn new(rt: &HostRuntime) -> io::Result<Seen> {
        Ok(Seen {
            alloc: rt.alloc(),
            first: HashMap::with_hasher(rt.alloc(), RandomState::new(rt)?),
        })
    }

    /// Where the geometry was seen first; none where it is new, and is kept now.
    ///
    /// # Errors
    /// Out of memory. No geometry is kept then.
    pub fn earlier(&mut self, canonical: &str, spot: Spot) -> Result<Option<Spot>, AllocError>
        ensures first { IfOk result (λ first. first ≡ first_of self.old canonical.now) }
        ensures kept { OnOk result ((key : List ℕ) → first_of self.new key
            ≡ if bytes_eq canonical.now key then Some (unwrap_or (first_of self.old key) spot) else first_of self.old key) }
        ensures unchanged { OnErr result ((key : List ℕ) → first_of self.new key ≡ first_of self.old key) }
    {
        let key = Key::new(self.alloc, canonical)?;
        match self.first.entry(key)? {
            Entry::Occupied(earlier) => Ok(Some(*earlier.get())),
            Entry::Vacant(new) => {
                new.insert(spot);
                Ok(None)
            }
        }
    }
}

/// Writes which of the texts name the geometry of an earlier one. Their canonical texts have a line feed between them, the
/// first is there already, and files have the names of these operands.
///
/// # Errors
/// Standard output's error, or out of memory.
pub fn put_again<W: Write + Drop>(
    out: &mut Output<W>,
    seen: &mut Seen,
    operands: &[String],
    first: Origin<'_>,
    file: usize,
    canonical: &[u8],
) -> Result<(), CommandError>
    requires utf8 { IsUtf8 canonical.now }
{
    let mut line = first.line;
    let mut rest = canonical;
    'lines: while !rest.is_empty() {
        let end = line_end(rest);
        let text = unsafe { str::from_utf8_unchecked(&rest[..end]) };
        if let Some(earlier) = seen.earlier(text, Spot { file, line })? {
            let now = Origin {
                name: first.name,
                line,
            };
            let said = report_again(seen.alloc, operands, now, earlier)?;
            out.put(said.as_bytes()).map_err(CommandError::output)?;
        }
        line = line.saturating_add(1);
        rest = after_line(rest, end);
    }
    Ok(())
}

/// That a text names the geometry of an earlier one.
fn report_again(
    alloc: Global,
    operands: &[String],
    now: Origin<'_>,
    earlier: Spot,
) -> Result<String, AllocError> {
    let name = now.name;
    let line = now.line;
    let first_name = Shown(shown_name(operands.get(earlier.file)));
    let first_line = earlier.line;
    format!(in alloc; "{name}:{line}: the geometry of {first_name}:{first_line}\n")
}
