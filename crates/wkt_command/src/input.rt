//! Where texts come from.
ghost use Rattle.std.specs.Prelude.{◌≡◌, None, map};
ghost use Rattle.wkt_command.specs.Place.{other_end};

use crate::part::{bounds, feeds_before};
use std::fs::File;
use std::io::{self, Read, Seek, SeekFrom, Stdin};
use wkt_bytes::ByteSource;
use wkt_options::Part;

// What standard input is called.
const STANDARD_INPUT: &str = "standard input";

/// The name under which a file is reported; without one, that of standard input.
pub fn shown_name(name: Option<&String>) -> &str {
    match name {
        Some(name) if name.as_str() != "-" => name.as_str(),
        _ => STANDARD_INPUT,
    }
}

/// Standard input, or a file.
#[derive(Drop)]
pub enum Input {
    Standard(Stdin),
    /// A file, and how many bytes more are read of it.
    File(File, u64),
}

impl Input {
    /// The file of this name, or standard input for `-`.
    ///
    /// # Errors
    /// The file can't be opened.
    pub fn open(rt: &HostRuntime, name: &str) -> io::Result<Input> {
        if name == "-" {
            Ok(Input::Standard(rt.stdin()))
        } else {
            Ok(Input::File(File::open(rt, name)?, u64::MAX))
        }
    }

    /// Goes to a part of the file, and returns how many lines stand before it, or 0 where nobody asks.
    ///
    /// # Errors
    /// The file can't be read, or has no places to go to.
    pub fn go_to(&mut self, part: Part, asks: bool) -> io::Result<u64> {
        let Input::File(file, left) = self else {
            return Ok(0);
        };
        let (begin, end) = bounds(part, file)?;
        let before = if asks { feeds_before(file, begin)? } else { 0 };
        file.seek(SeekFrom::Start(begin))?;
        *left = end.saturating_sub(begin);
        Ok(before)
    }

    /// How many bytes the file has, or 0 where that isn't known.
    pub fn size(&self) -> u64 {
        match self {
            Input::Standard(_) => 0,
            Input::File(file, left) => match file.metadata() {
                Ok(found) if found.is_file() => found.len().min(*left),
                _ => 0,
            },
        }
    }
}

impl Read for Input {
    fn read(&mut self, buf: &mut [u8]) -> io::Result<usize> {
        match self {
            Input::Standard(stdin) => stdin.read(buf),
            Input::File(file, left) => {
                let most = usize::try_from(*left).unwrap_or(buf.len()).min(buf.len());
                let n = file.read(&mut buf[..most])?;
                *left = left.saturating_sub(n as u64);
                Ok(n)
            }
        }
    }
}

/// A line feed for a NUL, a NUL for a line feed, and any other byte for itself.
fn other_end(byte: u8) -> u8
    ensures { result ≡ other_end byte }
{
    match byte {
        0 => b'\n',
        b'\n' => 0,
        other => other,
    }
}

/// Puts a line feed for each NUL, and a NUL for each line feed.
pub fn swap_ends(bytes: &mut [u8])
    ensures { bytes.new ≡ map other_end bytes.old }
{
    for byte in bytes.iter_mut() {
        *byte = other_end(*byte);
    }
}

/// A source in which NULs and line feeds change places, so that what ends at a NUL comes as a line.
#[derive(Drop)]
pub struct NulLines<R> {
    source: R,
}

impl<R> NulLines<R> {
    pub fn new(source: R) -> NulLines<R> {
        NulLines { source }
    }
}

impl<R: ByteSource> ByteSource for NulLines<R> {
    ghost left = { λ _. None };

    ghost failures = { λ s. R.failures s.source };

    fn take(&mut self, buf: &mut [u8]) -> io::Result<usize> {
        let n = self.source.take(&mut *buf)?;
        swap_ends(buf);
        Ok(n)
    }
}
