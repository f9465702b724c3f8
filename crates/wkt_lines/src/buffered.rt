//! The answers to the lines of a block.
ghost use Rattle.std.specs.Prelude.{◌≡◌, ◌<◌, [], OnOk};
ghost use Rattle.wkt_lines.specs.Output.{IsAnswer, OnRunMemory};
ghost use Rattle.wkt_lines.specs.Buffers.{output_text, HasRoomFor, PutsOut, AnswersAll};

use crate::lines::RunError;
use crate::output_buffer::OutputBuffer;
use std::alloc::AllocError;
use wkt_bytes::{ByteSink, put_all};
use wkt_num::WktNum;

/// Puts out the answers to all lines of the block, by an output buffer that is empty before and after.
pub(crate) fn answer_block<T: WktNum, W: ByteSink>(
    input: &[u8],
    output: &mut OutputBuffer,
    writer: &mut W,
) -> Result<(), RunError>
    requires { output_text output.old ≡ [] }
    ensures answers { AnswersAll W.sink (IsAnswer T.read T.num) writer.old input.now result writer.new }
    ensures empty { OnOk result (output_text output.new ≡ []) }
    ensures keeps { W.sink.keeps writer.old writer.new }
{
    let mut at = 0;
    'lines: while at < input.len() {
        let rest = &input[at..];
        // No result is made of an output buffer that is ready, since it would be carried along.
        if !output.is_ready(rest.len()) {
            match make_ready(rest.len(), output, writer) {
                Ok(()) => {}
                Err(e) => return Err(e),
            }
        }
        match output.add_answer::<T>(rest) {
            Ok(taken) => at += taken,
            Err(e) => return give_up(e, output, writer),
        }
    }
    put_out(output, writer)
}

/// Puts out what is written, and returns that memory ran out then.
#[cold]
#[inline(never)]
fn give_up<W: ByteSink>(
    error: AllocError,
    output: &mut OutputBuffer,
    writer: &mut W,
) -> Result<(), RunError>
    ensures puts { PutsOut W.sink result (output_text output.old) [] writer.old writer.new }
    ensures never { OnOk result ⊥ }
    ensures keeps { W.sink.keeps writer.old writer.new }
{
    match put_out(output, writer) {
        Ok(()) => Err(RunError::Memory(error)),
        Err(e) => Err(e),
    }
}

/// Makes the output buffer ready for the answer to a text of so many bytes, and puts it out where it has to be.
#[inline(never)]
fn make_ready<W: ByteSink>(
    n: usize,
    output: &mut OutputBuffer,
    writer: &mut W,
) -> Result<(), RunError>
    ensures puts { PutsOut W.sink result (output_text output.old) (output_text output.new) writer.old writer.new }
    ensures room { OnOk result (HasRoomFor output.new n) }
    ensures keeps { W.sink.keeps writer.old writer.new }
{
    match put_all(writer, output.written()) {
        Ok(()) => {}
        Err(e) => {
            output.cut(0);
            return Err(RunError::Write(e));
        }
    }
    output.cut(0);
    match output.make_room(n) {
        Ok(()) => Ok(()),
        Err(e) => Err(RunError::Memory(e)),
    }
}

/// Puts out what is written, and empties the output buffer.
#[inline(never)]
fn put_out<W: ByteSink>(output: &mut OutputBuffer, writer: &mut W) -> Result<(), RunError>
    ensures puts { PutsOut W.sink result (output_text output.old) [] writer.old writer.new }
    ensures empty { output_text output.new ≡ [] }
    ensures memory { OnRunMemory result ⊥ }
    ensures keeps { W.sink.keeps writer.old writer.new }
{
    let put = put_all(writer, output.written());
    output.cut(0);
    match put {
        Ok(()) => Ok(()),
        Err(e) => Err(RunError::Write(e)),
    }
}
