//! How a wrapper gathers text: the calls that it makes on a sink that counts them.
ghost use Rattle.std.specs.Prelude.{◌≡◌};

use crate::asserts::equal;
use std::alloc::Global;
use std::io::ErrorKind;
use std::process::Abort;
use std::{fmt, io};
use wkt_bytes::{ByteSink, WriterWrapper};
use wkt_num::TextSink;

/// Takes all that it is given, and notes how many bytes each call had.
#[derive(Drop)]
struct Calls {
    lengths: Vec<usize>,
    failures: u64,
}

impl ByteSink for Calls {
    ghost use Rattle.std.specs.Prelude.{None};
    ghost use Rattle.wkt_bytes.specs.Sinks.{owned};

    ghost sink = { owned (λ _. None) (λ c. c.failures) };

    fn put(&mut self, buf: &[u8]) -> io::Result<usize> {
        if self.lengths.push(buf.len()).is_err() {
            self.failures = self.failures.wrapping_add(1);
            return Err(io::Error::from(ErrorKind::OutOfMemory));
        }
        if buf.is_empty() {
            return Ok(0);
        }
        Ok(buf.len())
    }
}

/// A piece of 128 bytes.
const HALF: &str =
    "0123456789abcdef0123456789abcdef0123456789abcdef0123456789abcdef0123456789abcdef0123456789abcdef0123456789abcdef0123456789abcdef";

fn write_all<W: TextSink>(sink: &mut W, pieces: &[&str]) -> fmt::Result {
    for piece in pieces {
        sink.write_str(piece)?;
    }
    Ok(())
}

/// A wrapper that is given the pieces, and is finished or isn't, makes calls of those lengths.
fn makes(rt: &impl Abort, alloc: Global, pieces: &[&str], finishes: bool, want: &[usize]) {
    let mut wrapper = WriterWrapper::new(Calls {
        lengths: Vec::new(alloc),
        failures: 0,
    });
    let is_written = write_all(&mut wrapper, pieces).is_ok();
    let is_finished = !finishes || wrapper.finish().is_ok();
    equal(rt, (is_written, is_finished), (true, true));
    equal(rt, wrapper.into_writer().lengths.as_slice(), want);
}

// The pieces, and the lengths of the calls before the wrapper is finished and with it.
const BYTE_ROWS: &[(&[&str], &[usize], &[usize])] = &[
    (&[], &[], &[]),
    (&[HALF], &[], &[128]),
    (&[HALF, HALF], &[256], &[256]),
    (&[HALF, HALF, HALF], &[256], &[256, 128]),
    (&[HALF, HALF, HALF, HALF], &[256, 256], &[256, 256]),
];

#[test]
fn gathers_pieces(rt: HostRuntime) {
    for &(pieces, before, after) in BYTE_ROWS {
        makes(&rt, rt.alloc(), pieces, false, before);
        makes(&rt, rt.alloc(), pieces, true, after);
    }
}

#[test]
fn hands_a_long_piece_on_in_arrays(rt: HostRuntime) {
    let piece = HALF.repeat(rt.alloc(), 5).expect(&rt, "memory");
    makes(&rt, rt.alloc(), &["(", &piece], true, &[256, 256, 129]);
}
