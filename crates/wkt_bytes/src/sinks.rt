//! Sinks and sources of bytes.
ghost use Rattle.std.specs.Prelude.{◌≡◌, ℕ, ◌≤◌, List, [], ◌∷◌, ◌++◌, IfOk, OnOk, OnErr, Option, length};
ghost use Rattle.std.specs.Io.KnownBytes.{WriteAppends, ReadConsumes};
ghost use Rattle.wkt_num.specs.Sink.{next_count};
ghost use Rattle.wkt_bytes.specs.Sinks.{SinkOfBytes, borrowed_sink, owned, count_after_put, count_after_take};

use std::io;
use std::io::{Read, Write};

/// Where bytes go: one call of `put` is one call of a writer.
///
/// [`Counted`] is one over any `io::Write`. A custom sink returns from `put` how many bytes were taken:
///
/// ```text
/// impl ByteSink for Page {
///     fn put(&mut self, buf: &[u8]) -> io::Result<usize> {
/// ```
pub trait ByteSink {
    /// What it holds, where that is known, how many calls have failed, and that a reference stays the
    /// same reference.
    ghost sink: { SinkOfBytes Self };

    /// Takes some of the bytes from the front, and returns how many.
    ///
    /// # Errors
    /// The sink's error.
    fn put(&mut self, buf: &[u8]) -> io::Result<usize>
        ensures bound { IfOk result (λ n. n ≤ length buf.now) }
        ensures took { WriteAppends (sink.bytes self.old) (sink.bytes self.new) result buf.now }
        ensures count { sink.failures self.new ≡ count_after_put (sink.failures self.old) result buf.now }
        ensures keeps { sink.keeps self.old self.new };
}

/// Where bytes come from: one call of `take` is one call of a reader.
pub trait ByteSource {
    /// What is left, where that is known. Zero bytes come to a buffer with room only where none is left.
    ghost left: { Self → Option (List ℕ) };

    /// How many calls have failed, modulo 2 ^ 64.
    ghost failures: { Self → ℕ };

    /// Writes the next bytes to the front of `buf`, and returns how many.
    ///
    /// # Errors
    /// The source's error.
    fn take(&mut self, buf: &mut [u8]) -> io::Result<usize>
        ensures bound { IfOk result (λ n. n ≤ length buf.new) }
        ensures gave { ReadConsumes (left self.old) (left self.new) result buf.new }
        ensures count { failures self.new ≡ count_after_take (failures self.old) result };
}

impl<W: ByteSink> ByteSink for &mut W {
    ghost sink = { borrowed_sink W.sink };

    fn put(&mut self, buf: &[u8]) -> io::Result<usize> {
        (**self).put(buf)
    }
}

/// A writer or a reader of `std::io` with a count of its failures: a [`ByteSink`] over any
/// `io::Write`, a [`ByteSource`] over any `io::Read`.
#[derive(Drop)]
pub struct Counted<D> {
    inner: D,
    count: u64,
}

impl<D> Counted<D> {
    ghost use Rattle.wkt_bytes.specs.Sinks.{inner_of, counted};

    /// This writer or reader, of which no failure has been counted.
    pub fn new(inner: D) -> Self
        ensures inner { inner_of result ≡ inner }
        ensures count { counted result ≡ 0 }
    {
        Counted { inner, count: 0 }
    }

    /// Returns the writer or reader.
    pub fn into_inner(self) -> D
        ensures { result ≡ inner_of self }
    {
        let Counted { inner, count: _ } = self;
        inner
    }
}

impl<W: Write> ByteSink for Counted<W> {
    ghost sink = { owned (λ c. W.contents c.inner) (λ c. c.count) };

    fn put(&mut self, buf: &[u8]) -> io::Result<usize> {
        match self.inner.write(buf) {
            Ok(0) => {
                if !buf.is_empty() {
                    self.count = self.count.wrapping_add(1);
                }
                Ok(0)
            }
            Ok(n) => Ok(n),
            Err(e) => {
                self.count = self.count.wrapping_add(1);
                Err(e)
            }
        }
    }
}

impl<R: Read> ByteSource for Counted<R> {
    ghost left = { λ c. R.remaining c.inner };

    ghost failures = { λ c. c.count };

    fn take(&mut self, buf: &mut [u8]) -> io::Result<usize> {
        match self.inner.read(buf) {
            Ok(n) => Ok(n),
            Err(e) => {
                self.count = self.count.wrapping_add(1);
                Err(e)
            }
        }
    }
}
