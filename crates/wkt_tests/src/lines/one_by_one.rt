//! Lines read one by one.
use crate::asserts::{equal, holds};
use std::alloc::Global;
use std::io;
use std::io::ErrorKind;
use std::process::Abort;
use wkt_bytes::{ByteSource, ReadAllError};
use wkt_lines::{Lines, line_end};
use wkt_test_support::{Pieces, source};

/// A source whose every second call fails, the first among them.
#[derive(Drop)]
struct Halting<'a> {
    rest: &'a [u8],
    halts: bool,
    failures: u64,
}

impl ByteSource for Halting<'_> {
    ghost use Rattle.std.specs.Prelude.{Some};

    ghost left = { λ s. Some s.rest.now };

    ghost failures = { λ s. s.failures };

    fn take(&mut self, buf: &mut [u8]) -> io::Result<usize> {
        self.halts = !self.halts;
        if !self.halts {
            self.failures = self.failures.wrapping_add(1);
            return Err(io::Error::from(ErrorKind::Interrupted));
        }
        let count = buf.len().min(3).min(self.rest.len());
        buf[..count].copy_from_slice(&self.rest[..count]);
        self.rest = &self.rest[count..];
        Ok(count)
    }
}

// An input, and its lines.
const INPUTS: &[(&[u8], &[&[u8]])] = &[
    (b"", &[]),
    (b"\n", &[b""]),
    (b"POINT(1 2)", &[b"POINT(1 2)"]),
    (b"a\nbc\n", &[b"a", b"bc"]),
    (b"\n\nx\xff\r\n\n", &[b"", b"", b"x\xff\r", b""]),
    (
        b"a line that is longer than thirty-two bytes\nand another one, of more than thirty-two\nz",
        &[
            b"a line that is longer than thirty-two bytes",
            b"and another one, of more than thirty-two",
            b"z",
        ],
    ),
];

/// The next line is that one.
fn gives(rt: &impl Abort, lines: &mut Lines<Pieces<'_>>, want: &[u8]) {
    equal(rt, lines.advance().ok(), Some(true));
    equal(rt, lines.line(), want);
}

/// No line is left.
fn ends(rt: &impl Abort, lines: &mut Lines<Pieces<'_>>) {
    equal(rt, lines.advance().ok(), Some(false));
    equal(rt, lines.line().len(), 0);
}

/// Those lines are given, and no more.
fn gives_all(rt: &impl Abort, lines: &mut Lines<Pieces<'_>>, want: &[&[u8]]) {
    for line in want {
        gives(rt, lines, line);
    }
    ends(rt, lines);
    ends(rt, lines);
}

/// The input has those lines, where it comes by so many bytes a call.
fn has_lines(rt: &impl Abort, alloc: Global, input: &[u8], step: usize, want: &[&[u8]]) {
    let mut lines = Lines::new(alloc, source(input, step.max(1), 1000));
    gives_all(rt, &mut lines, want);
    equal(rt, lines.into_source().rest.len(), 0);
}

#[test]
fn gives_lines(rt: HostRuntime) {
    for &(input, want) in INPUTS {
        has_lines(&rt, rt.alloc(), input, 1, want);
        has_lines(&rt, rt.alloc(), input, 7, want);
        has_lines(&rt, rt.alloc(), input, 1000, want);
    }
}

/// Whether the call found its source interrupted.
fn is_interrupted(error: ReadAllError) -> bool {
    match error {
        ReadAllError::Read(error) => error.kind() == ErrorKind::Interrupted,
        ReadAllError::Memory(_) => false,
    }
}

/// Whether another line is there, once calls no longer fail: the failed ones leave none.
fn finds_line(rt: &impl Abort, lines: &mut Lines<Halting<'_>>) -> bool {
    for _ in 0..200 {
        match lines.advance() {
            Ok(found) => return found,
            Err(error) => {
                holds(rt, is_interrupted(error));
                equal(rt, lines.line().len(), 0);
            }
        }
    }
    panic!(rt; "it fails for good");
}

/// The input has those lines, where every second call on it fails.
fn goes_on(rt: &impl Abort, alloc: Global, rest: &[u8], want: &[&[u8]]) {
    let source = Halting {
        rest,
        halts: true,
        failures: 0,
    };
    let mut lines = Lines::new(alloc, source);
    for line in want {
        holds(rt, finds_line(rt, &mut lines));
        equal(rt, lines.line(), *line);
    }
    holds(rt, !finds_line(rt, &mut lines));
}

#[test]
fn goes_on_after_a_fault(rt: HostRuntime) {
    for &(input, want) in INPUTS {
        goes_on(&rt, rt.alloc(), input, want);
    }
}

/// A line of that size, an empty one and a short one are given, so many bytes a call.
fn gives_line_of(rt: &impl Abort, alloc: Global, input: &[u8], size: usize, step: usize) {
    let mut lines = Lines::new(alloc, source(input, step.max(1), 1000));
    equal(rt, lines.advance().ok(), Some(true));
    equal(rt, lines.line().len(), size);
    holds(rt, input.starts_with(lines.line()));
    gives(rt, &mut lines, b"");
    gives(rt, &mut lines, b"b");
    ends(rt, &mut lines);
}

// A reader that gives up above a size fails here.
#[test]
fn gives_lines_of_ample_size(rt: HostRuntime) {
    for &size in &[131_071usize, 131_072, 131_073, 400_000] {
        let mut input = vec![in rt.alloc(); b'a'; size].expect(&rt, "memory");
        input.extend_from_slice(b"\n\nb").expect(&rt, "memory");
        gives_line_of(&rt, rt.alloc(), &input, size, 1000);
        gives_line_of(&rt, rt.alloc(), &input, size, 100_000);
    }
}

#[test]
fn lines_end(rt: HostRuntime) {
    equal(&rt, line_end(b""), 0);
    equal(&rt, line_end(b"\n"), 0);
    equal(&rt, line_end(b"POINT(1 2)\nPOINT(3 4)"), 10);
    equal(&rt, line_end(&[b'a'; 100]), 100);
}
