//! What the crates of tests share: number types of one value and of two, sinks and sources that are slow or fail. And the
//! tests of what stands below all reading: numbers, sinks of bytes, and the types with their texts.
//!
//! Below stand the crates of numbers, bytes, traits and types; above, the other tests, `wkt_tables` and the fuzz. It waits
//! for no crate that reads, so it is proved beside them.
#![tactic(auto)]

ghost use Rattle.std.specs.Prelude.{◌≡◌, ◌≤◌, ◌<◌};

#[cfg(test)]
mod asserts;
#[cfg(test)]
mod bytes;
#[cfg(test)]
mod flat_texts;
#[cfg(test)]
mod flat_values;
#[cfg(test)]
mod num;
mod numbers;
#[cfg(test)]
mod types;

pub use numbers::{Dash, Letter, Long};
use std::io;
use std::io::ErrorKind;
use wkt_bytes::{ByteSink, ByteSource};

/// A sink that takes `step` bytes a call. After the first `calls` it takes none: each call fails, or
/// where `full` says so returns zero.
#[derive(Drop)]
pub struct Slow {
    held: [u8; 512],
    pub len: usize,
    step: usize,
    pub calls: usize,
    full: bool,
    pub failures: u64,
    ghost fits: { len ≤ 512 },
}

impl Slow {
    pub fn new(step: usize, calls: usize) -> Slow {
        Slow {
            held: [0; 512],
            len: 0,
            step,
            calls,
            full: false,
            failures: 0,
        }
    }

    /// A sink that takes `step` bytes a call, and is full after its calls.
    pub fn full(step: usize, calls: usize) -> Slow {
        let mut sink = Slow::new(step, calls);
        sink.full = true;
        sink
    }

    pub fn taken(&self) -> &[u8] {
        &self.held[..self.len]
    }
}

impl ByteSink for Slow {
    ghost use Rattle.std.specs.Prelude.{Some, take};
    ghost use Rattle.wkt_bytes.specs.Sinks.{owned};

    ghost sink = { owned (λ s. Some (take s.len s.held)) (λ s. s.failures) };

    fn put(&mut self, buf: &[u8]) -> io::Result<usize> {
        if self.calls == 0 && !self.full {
            self.failures = self.failures.wrapping_add(1);
            return Err(io::Error::from(ErrorKind::BrokenPipe));
        }
        if self.calls == 0 {
            if !buf.is_empty() {
                self.failures = self.failures.wrapping_add(1);
            }
            return Ok(0);
        }
        self.calls -= 1;
        let count = buf.len().min(self.step).min(512 - self.len);
        self.held[self.len..self.len + count].copy_from_slice(&buf[..count]);
        self.len += count;
        if count == 0 && !buf.is_empty() {
            self.failures = self.failures.wrapping_add(1);
        }
        Ok(count)
    }
}

/// A source that gives `step` bytes a call, and fails at each call after the first `calls`.
#[derive(Drop)]
pub struct Pieces<'a> {
    pub rest: &'a [u8],
    step: usize,
    calls: usize,
    pub failures: u64,
    ghost moves: { 0 < step },
}

impl ByteSource for Pieces<'_> {
    ghost use Rattle.std.specs.Prelude.{Some};

    ghost left = { λ s. Some s.rest.now };

    ghost failures = { λ s. s.failures };

    fn take(&mut self, buf: &mut [u8]) -> io::Result<usize> {
        if self.calls == 0 {
            self.failures = self.failures.wrapping_add(1);
            return Err(io::Error::from(ErrorKind::Interrupted));
        }
        self.calls -= 1;
        let count = buf.len().min(self.step).min(self.rest.len());
        buf[..count].copy_from_slice(&self.rest[..count]);
        self.rest = &self.rest[count..];
        Ok(count)
    }
}

/// A source of these bytes, at most so many a call.
pub fn source(rest: &[u8], step: usize, calls: usize) -> Pieces<'_>
    requires { 0 < step }
{
    Pieces {
        rest,
        step,
        calls,
        failures: 0,
    }
}
