//! Answers each line of an input that is read block by block.
ghost use Rattle.wkt_lines.specs.Output.{read_line, print_line, IsAnswer};
ghost use Rattle.wkt_lines.specs.Streaming.{Streams};

use crate::buffered::answer_block;
use crate::input_buffer::InputBuffer;
use crate::lines::RunError;
use crate::output_buffer::OutputBuffer;
use std::alloc::{AllocError, Global};
use wkt_bytes::{ByteSink, ByteSource};
use wkt_num::{Decimal, WktNum};

/// Writes the answers to all lines of the source, as [`run`](crate::run) does, in the memory of the longest line.
///
/// The source is asked for a block of 128 KiB at a time. Answers are gathered, and put out when there are 64 KiB of
/// them; those to all whole lines that were read are out before the source is asked again.
///
/// # Errors
/// [`RunError`], of which `Read` comes later than `run`'s: the answers to the whole lines that were read are out then,
/// and nothing else. After `Memory` the answers to the lines before the one that there was no memory for are out, or,
/// where there was none to read on, those to the whole lines that were read. Nothing is tried again. A source that
/// never ends is answered as `Memory` after 2^64 - 1 calls.
pub fn stream<R: ByteSource, W: ByteSink>(
    alloc: Global,
    reader: &mut R,
    writer: &mut W,
) -> Result<(), RunError>
    ensures { Streams (IsAnswer read_line print_line) R.left R.failures W.sink
        reader.old writer.old result reader.new writer.new }
{
    stream_over::<Decimal<18>, R, W>(alloc, reader, writer)
}

/// Writes the answers to all lines of the source, as [`stream`] does, with numbers of any type.
///
/// # Errors
/// Those of [`stream`].
pub fn stream_over<T: WktNum, R: ByteSource, W: ByteSink>(
    alloc: Global,
    reader: &mut R,
    writer: &mut W,
) -> Result<(), RunError>
    ensures { Streams (IsAnswer T.read T.num) R.left R.failures W.sink
        reader.old writer.old result reader.new writer.new }
{
    let mut buffer = InputBuffer::new(alloc);
    let mut output = OutputBuffer::of_blocks(alloc);
    'turns: for _ in 0..u64::MAX {
        if let Err(e) = buffer.make_room() {
            return Err(RunError::Memory(e));
        }
        let seen = buffer.len();
        match buffer.fill(reader) {
            Err(fault) => return Err(RunError::Read(fault)),
            Ok(0) => return answer_block::<T, W>(buffer.front(), &mut output, writer),
            Ok(_) => {
                let whole = buffer.whole(seen);
                match answer_block::<T, W>(&buffer.front()[..whole], &mut output, writer) {
                    Ok(()) => buffer.consume(whole),
                    Err(e) => return Err(e),
                }
            }
        }
    }
    // The source never ends.
    Err(RunError::Memory(AllocError))
}
