//! Answers each line of a whole input.
ghost use Rattle.std.specs.Prelude.{◌≡◌, ◌≤◌, ◌+◌, length, drop};
ghost use Rattle.wkt_lines.specs.Output.{read_line, print_line, IsAnswer};
ghost use Rattle.wkt_lines.specs.Buffers.{AnswersAll};
ghost use Rattle.wkt_lines.specs.Streaming.{Runs};

use crate::buffered::answer_block;
use crate::input_buffer::{InputBuffer, whole_lines};
use crate::output_buffer::OutputBuffer;
use std::alloc::{AllocError, Global};
use std::io;
use thiserror::Error;
use wkt_bytes::{ByteSink, ByteSource, ReadAllError};
use wkt_num::{Decimal, WktNum};

/// Why a run ended before its input.
#[derive(Debug, Drop, Error)]
pub enum RunError {
    /// The source failed; nothing was written.
    #[error("{0}")]
    Read(io::Error),
    /// The sink failed, or took nothing (`WriteZero`); a beginning of the output is out.
    #[error("{0}")]
    Write(io::Error),
    /// Out of memory; the answers to the lines before the one that there was no memory for are out, and nothing else.
    #[error("out of memory")]
    Memory(AllocError),
}

/// Writes the answers to all lines of the source, with numbers that are decimals of eighteen places.
///
/// The whole input is read first. Lines are the pieces between line feeds; a last empty piece is
/// dropped. Each line is answered with the text of the geometry that it begins with, or with
/// `refused` where it has none or isn't UTF-8, and a line feed.
///
/// # Errors
/// [`RunError`] says when each comes, and what is out then: after `Memory` the answers to the lines before the one that
/// there was no memory for, or nothing, where memory ran out as the input was read. Nothing is tried again.
pub fn run<R: ByteSource, W: ByteSink>(
    alloc: Global,
    reader: &mut R,
    writer: &mut W,
) -> Result<(), RunError>
    ensures { Runs (IsAnswer read_line print_line) R.left R.failures W.sink
        reader.old writer.old result reader.new writer.new }
{
    run_over::<Decimal<18>, R, W>(alloc, reader, writer)
}

/// Writes the answers to all lines of the source, as [`run`] does, with numbers of any type.
///
/// ```text
/// run_over::<i64, _, _>(alloc, &mut reader, &mut writer)?;
/// ```
///
/// # Errors
/// Those of [`run`].
pub fn run_over<T: WktNum, R: ByteSource, W: ByteSink>(
    alloc: Global,
    reader: &mut R,
    writer: &mut W,
) -> Result<(), RunError>
    ensures { Runs (IsAnswer T.read T.num) R.left R.failures W.sink
        reader.old writer.old result reader.new writer.new }
{
    let mut buffer = InputBuffer::new(alloc);
    match buffer.fill_all(reader) {
        Ok(()) => answer_input::<T, W>(alloc, buffer.front(), writer),
        Err(ReadAllError::Read(e)) => Err(RunError::Read(e)),
        Err(ReadAllError::Memory(e)) => Err(RunError::Memory(e)),
    }
}

/// Writes the answers to all lines of the input, each by itself.
fn answer_input<T: WktNum, W: ByteSink>(
    alloc: Global,
    input: &[u8],
    writer: &mut W,
) -> Result<(), RunError>
    ensures { AnswersAll W.sink (IsAnswer T.read T.num) writer.old input.now result writer.new }
{
    let mut output = OutputBuffer::of_lines(alloc);
    let mut rest = input;
    'parts: loop {
        let whole = whole_lines(rest);
        if whole == 0 {
            return answer_block::<T, W>(rest, &mut output, writer);
        }
        match answer_block::<T, W>(&rest[..whole], &mut output, writer) {
            Ok(()) => rest = &rest[whole..],
            Err(e) => return Err(e),
        }
    }
}

/// What follows a first line that ends there, and its line feed.
///
/// ```text
/// after_line(b"POINT(1 2)\nPOINT(3 4)", 10) // `POINT(3 4)`
/// ```
pub fn after_line(rest: &[u8], end: usize) -> &[u8]
    requires { end ≤ length rest.now }
    ensures { result.now ≡ drop (end + 1) rest.now }
{
    if end == rest.len() {
        return &rest[end..];
    }
    &rest[end + 1..]
}
