//! Inputs that are answered line by line, over sources and sinks that are slow or fail, and in pieces. Lines one after
//! the other are those of `one_by_one`.

mod one_by_one;

use crate::asserts::{BROKEN_PIPE, End, INTERRUPTED, LISTS, WELL, ended, equal};
use std::alloc::Global;
use std::io;
use std::io::ErrorKind;
use std::process::Abort;
use wkt_bytes::{ByteSource, Counted};
use wkt_lines::{run, run_over, stream, stream_over};
use wkt_test_support::{Pieces, Slow, source};

const INPUT: &[u8] = b"point ( 10 -20.50 )\nPOINT ZM EMPTY\nPOINTZ(-117 33 10)\nPOINT (10)\n\n";

const OUTPUT: &[u8] = b"POINT(10 -20.5)\nPOINT ZM EMPTY\nPOINT Z(-117 33 10)\nrefused\nrefused\n";

const SINK_LINES: &[(&[u8], &[u8])] = &[
    (b"", b""),
    (b"\n", b"refused\n"),
    (INPUT, OUTPUT),
    (b"POINT(1 2)", b"POINT(1 2)\n"),
    (b"LINEARRING(1 2)\n", b"LINESTRING(1 2)\n"),
    (
        b"POINT(1 2)\nLINESTRING(1 2,3 4)\n",
        b"POINT(1 2)\nLINESTRING(1 2,3 4)\n",
    ),
    (
        b"GeometryCollection M ( GeometryCollection ( GeometryCollection ( Point ( 1 2 ) ) ) )\n",
        b"GEOMETRYCOLLECTION M(GEOMETRYCOLLECTION(GEOMETRYCOLLECTION(POINT(1 2))))\n",
    ),
];

/// The run of `wktline` over those ends so, and that is out.
fn runs(
    rt: &impl Abort,
    alloc: Global,
    reader: &mut Pieces<'_>,
    writer: &mut Slow,
    end: End,
    want: &[u8],
) {
    ended(rt, run(alloc, reader, writer), end);
    equal(rt, writer.taken(), want);
}

/// The input is read to its end, and answered so.
fn runs_well(rt: &impl Abort, alloc: Global, input: &[u8], want: &[u8]) {
    let mut reader = source(input, 1000, 1000);
    let mut writer = Slow::new(1000, 1000);
    runs(rt, alloc, &mut reader, &mut writer, WELL, want);
    equal(rt, reader.rest.len(), 0);
}

// A program that gives up on every input fails here.
#[test]
fn answers_lines(rt: HostRuntime) {
    for &(input, want) in SINK_LINES {
        runs_well(&rt, rt.alloc(), input, want);
    }
}

/// A line with a list of a member, before which the same stands so often.
fn list_line(
    rt: &impl Abort,
    alloc: Global,
    (word, member): (&str, &str),
    before: usize,
) -> String {
    let one = [member, ","].concat(alloc).expect(rt, "memory");
    let others = one.repeat(alloc, before).expect(rt, "memory");
    let parts = [word, "(", others.as_str(), member, ")\n"];
    parts.concat(alloc).expect(rt, "memory")
}

/// Lists in canonical form are answered with themselves.
fn give_themselves(rt: &impl Abort, alloc: Global, lines: &str) {
    let mut reader = source(lines.as_bytes(), 100_000, 1000);
    let mut writer = Counted::new(Vec::<u8>::new(alloc));
    ended(rt, run(alloc, &mut reader, &mut writer), WELL);
    equal(rt, writer.into_inner().as_slice(), lines.as_bytes());
}

/// Lists of one member to three hundred, each in a line.
fn give_all_sizes(rt: &impl Abort, alloc: Global, list: (&str, &str)) {
    let mut lines = String::new(alloc);
    for before in 0..300 {
        let line = list_line(rt, alloc, list, before);
        lines.push_str(line.as_str()).expect(rt, "memory");
    }
    give_themselves(rt, alloc, &lines);
}

// A call that gives up on lists of some size fails here.
#[test]
fn lists_of_each_size(rt: HostRuntime) {
    for list in LISTS {
        give_all_sizes(&rt, rt.alloc(), list);
        let line = list_line(&rt, rt.alloc(), list, 99_999);
        give_themselves(&rt, rt.alloc(), &line);
    }
}

#[test]
fn one_byte_a_call(rt: HostRuntime) {
    let mut reader = source(INPUT, 1, 1000);
    let mut writer = Slow::new(1, 1000);
    runs(&rt, rt.alloc(), &mut reader, &mut writer, WELL, OUTPUT);
    equal(&rt, writer.calls, 1000 - 67);
}

/// The writer, which takes a byte a call, fails once, after so many.
fn fails_at(rt: &impl Abort, alloc: Global, mut writer: Slow, end: End, want: &[u8]) {
    let mut reader = source(INPUT, 1000, 1000);
    runs(rt, alloc, &mut reader, &mut writer, end, want);
    equal(rt, writer.failures, 1);
}

#[test]
fn faults_of_the_writer(rt: HostRuntime) {
    for calls in 0..67 {
        fails_at(
            &rt,
            rt.alloc(),
            Slow::new(1, calls),
            BROKEN_PIPE,
            &OUTPUT[..calls],
        );
    }
}

#[test]
fn a_full_writer(rt: HostRuntime) {
    let full = ("write", Some(ErrorKind::WriteZero));
    fails_at(&rt, rt.alloc(), Slow::full(1, 0), full, b"");
    fails_at(&rt, rt.alloc(), Slow::full(1, 19), full, &OUTPUT[..19]);
}

#[test]
fn faults_of_the_reader(rt: HostRuntime) {
    for calls in 0..67 {
        let mut reader = source(INPUT, 1, calls);
        let mut writer = Slow::new(1000, 1000);
        runs(&rt, rt.alloc(), &mut reader, &mut writer, INTERRUPTED, b"");
        equal(&rt, writer.calls, 1000);
        equal(&rt, reader.failures, 1);
    }
}

/// `wktstream` answers the input so, over whole numbers.
fn streams_whole_numbers(rt: &impl Abort, alloc: Global, mut reader: Pieces<'_>, want: &[u8]) {
    let mut writer = Slow::new(1000, 1000);
    ended(
        rt,
        stream_over::<i64, _, _>(alloc, &mut reader, &mut writer),
        WELL,
    );
    equal(rt, writer.taken(), want);
}

#[test]
fn over_whole_numbers(rt: HostRuntime) {
    let input =
        b"point(+1 2)\nPOINT(1.5 2)\nPOINT(1 9223372036854775808)\nPOINT(1 -9223372036854775808)";
    let want = b"POINT(1 2)\nrefused\nrefused\nPOINT(1 -9223372036854775808)\n";
    let mut reader = source(input, 1000, 1000);
    let mut writer = Slow::new(1000, 1000);
    ended(
        &rt,
        run_over::<i64, _, _>(rt.alloc(), &mut reader, &mut writer),
        WELL,
    );
    equal(&rt, writer.taken(), want.as_slice());
    streams_whole_numbers(&rt, rt.alloc(), source(input, 7, 1000), want);
}

/// Three lines of that many bytes each, each a point and white space.
fn wide_lines(rt: &impl Abort, alloc: Global, size: usize) -> Vec<u8> {
    let spaces = vec![in alloc; b' '; size].expect(rt, "memory");
    let parts: [&[u8]; 3] = [b"point(1 2)", &spaces, b"\n"];
    let line = parts.concat(alloc).expect(rt, "memory");
    line.repeat(alloc, 3).expect(rt, "memory")
}

/// Both programs answer the three points.
fn answers_points(rt: &impl Abort, alloc: Global, input: &[u8]) {
    let want = b"POINT(1 2)\nPOINT(1 2)\nPOINT(1 2)\n";
    let mut reader = source(input, 100_000, 1000);
    let mut writer = Slow::new(1000, 1000);
    runs(rt, alloc, &mut reader, &mut writer, WELL, want);
    equal(rt, writer.calls, 1000 - 3);
    streams_whole_numbers(rt, alloc, source(input, 100_000, 1000), want);
}

// Inputs of more than a part that is answered at once, which a body fails that gives up on them.
#[test]
fn answers_wide_lines(rt: HostRuntime) {
    for &size in &[10usize, 65_525, 400_000, 500_000, 1_100_000] {
        answers_points(&rt, rt.alloc(), &wide_lines(&rt, rt.alloc(), size));
    }
}

/// Gives one piece a call; an empty one is an error.
#[derive(Drop)]
struct Chunks<'a> {
    pieces: &'a [&'a [u8]],
    failures: u64,
}

impl ByteSource for Chunks<'_> {
    ghost use Rattle.std.specs.Prelude.{None};

    ghost left = { λ _. None };

    ghost failures = { λ s. s.failures };

    fn take(&mut self, buf: &mut [u8]) -> io::Result<usize> {
        let [piece, rest @ ..] = self.pieces else {
            return Ok(0);
        };
        if piece.is_empty() || piece.len() > buf.len() {
            self.failures = self.failures.wrapping_add(1);
            return Err(io::Error::from(ErrorKind::Other));
        }
        self.pieces = rest;
        buf[..piece.len()].copy_from_slice(piece);
        Ok(piece.len())
    }
}

const READ_FAILED: End = ("read", Some(ErrorKind::Other));

// The pieces, how the run over them ends, and what is out then.
const PIECE_ROWS: &[(&[&[u8]], End, &[u8])] = &[
    (&[], WELL, b""),
    (&[b"\n"], WELL, b"refused\n"),
    (
        &[b"point(1", b" 2)\nPOINT (", b"3 4)\n\n", b"x"],
        WELL,
        b"POINT(1 2)\nPOINT(3 4)\nrefused\nrefused\n",
    ),
    (
        &[b"point(1 2", b")", b"\n", b"point z empty"],
        WELL,
        b"POINT(1 2)\nPOINT Z EMPTY\n",
    ),
    (
        &[b"point(1 2)\npoint(3 4)", b""],
        READ_FAILED,
        b"POINT(1 2)\n",
    ),
    (
        &[b"point(1 2)\npoint(3 4", b")\n", b""],
        READ_FAILED,
        b"POINT(1 2)\nPOINT(3 4)\n",
    ),
];

/// The run over the pieces ends so, and that is out.
fn answers(rt: &impl Abort, alloc: Global, pieces: &[&[u8]], end: End, want: &[u8]) {
    let mut source = Chunks {
        pieces,
        failures: 0,
    };
    let mut sink = Counted::new(Vec::<u8>::new(alloc));
    ended(rt, stream(alloc, &mut source, &mut sink), end);
    equal(rt, sink.into_inner().as_slice(), want);
}

#[test]
fn answers_pieces(rt: HostRuntime) {
    for &(pieces, end, want) in PIECE_ROWS {
        answers(&rt, rt.alloc(), pieces, end, want);
    }
}
