//! The error that a sink or a source gave is the one that comes: its kind, its code and its words.
use crate::asserts::equal;
use std::alloc::Global;
use std::io;
use std::io::ErrorKind;
use std::process::Abort;
use wkt::geo_types::{Geometry, LineString, Point, Polygon};
use wkt::geo_types_from_wkt::Error as FlatError;
use wkt::to_wkt::{
    ByteSink, ByteSource, Counted, ReadAllError, TextSink, WriterWrapper, put_all, read_all,
};
use wkt::{ToWkt, ToWktError, TryFromWkt};
use wkt_lines::{RunError, run, stream};
use wkt_test_support::source;

/// Which error a sink or a source gives.
#[derive(Clone, Copy, Drop)]
enum CallGiven {
    Kind(ErrorKind),
    Code(i32),
}

const GIVEN: &[CallGiven] = &[
    CallGiven::Kind(ErrorKind::Other),
    CallGiven::Kind(ErrorKind::BrokenPipe),
    CallGiven::Kind(ErrorKind::PermissionDenied),
    CallGiven::Code(5),
    CallGiven::Code(13),
    CallGiven::Code(32),
];

fn error(given: CallGiven) -> io::Error {
    match given {
        CallGiven::Kind(kind) => io::Error::from(kind),
        CallGiven::Code(code) => io::Error::from_raw_os_error(code),
    }
}

/// A sink and a source of which each call fails, with one error.
#[derive(Drop)]
struct Failing {
    given: CallGiven,
    failures: u64,
}

impl ByteSink for Failing {
    ghost use Rattle.std.specs.Prelude.{None};
    ghost use Rattle.wkt_bytes.specs.Sinks.{owned};

    ghost sink = { owned (λ _. None) (λ s. s.failures) };

    fn put(&mut self, _buf: &[u8]) -> io::Result<usize> {
        self.failures = self.failures.wrapping_add(1);
        Err(error(self.given))
    }
}

impl ByteSource for Failing {
    ghost use Rattle.std.specs.Prelude.{None};

    ghost left = { λ _. None };

    ghost failures = { λ s. s.failures };

    fn take(&mut self, _buf: &mut [u8]) -> io::Result<usize> {
        self.failures = self.failures.wrapping_add(1);
        Err(error(self.given))
    }
}

/// The error of a writer of a `Wkt` or of a flat value, if it is that of the sink.
fn of_writing(answer: Result<(), ToWktError>) -> Option<io::Error> {
    match answer {
        Err(ToWktError::Io(e)) => Some(e),
        _ => None,
    }
}

fn of_run(answer: Result<(), RunError>) -> Option<io::Error> {
    match answer {
        Err(RunError::Read(e) | RunError::Write(e)) => Some(e),
        _ => None,
    }
}

fn of_reading<G: Drop>(answer: Result<G, FlatError>) -> Option<io::Error> {
    match answer {
        Err(FlatError::Reader(e)) => Some(e),
        _ => None,
    }
}

/// The error that a wrapper returns which had text for the sink.
fn of_wrapper(failing: &mut Failing) -> Option<io::Error> {
    let mut wrapper = WriterWrapper::new(failing);
    let _ = wrapper.write_str("POINT");
    let _ = wrapper.finish();
    wrapper.take_fault()
}

/// What comes of each of six calls that take a sink, or text that is gathered for one.
fn of_sink(alloc: Global, call: usize, failing: &mut Failing) -> Option<io::Error> {
    let point = Point::new(1i32, 2);
    let mut line = source(b"POINT(1 2)\n", 7, 100);
    match call {
        0 => of_writing(point.write_wkt(alloc, failing)),
        1 => of_writing(Geometry::from(point).write_wkt(alloc, failing)),
        2 => put_all(failing, b"POINT").err(),
        3 => of_run(run(alloc, &mut line, failing)),
        4 => of_run(stream(alloc, &mut line, failing)),
        _ => of_wrapper(failing),
    }
}

fn of_read_all(answer: Result<Vec<u8>, ReadAllError>) -> Option<io::Error> {
    match answer {
        Err(ReadAllError::Read(e)) => Some(e),
        _ => None,
    }
}

/// What comes of the readers of flat values.
fn of_reader(alloc: Global, call: usize, failing: &mut Failing) -> Option<io::Error> {
    match call {
        1 => of_reading(Point::<i32>::try_from_wkt_reader(alloc, failing)),
        2 => of_reading(LineString::<i32>::try_from_wkt_reader(alloc, failing)),
        3 => of_reading(Polygon::<i32>::try_from_wkt_reader(alloc, failing)),
        _ => of_reading(Geometry::<i32>::try_from_wkt_reader(alloc, failing)),
    }
}

/// What comes of each of seven calls that take a source.
fn of_source(alloc: Global, call: usize, failing: &mut Failing) -> Option<io::Error> {
    let mut sink = Counted::new(Vec::<u8>::new(alloc));
    match call {
        0 => of_read_all(read_all(alloc, failing)),
        1..=4 => of_reader(alloc, call, failing),
        5 => of_run(run(alloc, failing, &mut sink)),
        _ => of_run(stream(alloc, failing, &mut sink)),
    }
}

/// The words of an error.
fn words(rt: &impl Abort, alloc: Global, error: &io::Error) -> String {
    error.to_string(alloc).expect(rt, "memory")
}

/// The error that came has the kind, the code and the words of the one that was given.
fn is_unchanged(rt: &impl Abort, alloc: Global, came: &io::Error, want: &io::Error) {
    equal(rt, came.kind(), want.kind());
    equal(rt, came.raw_os_error(), want.raw_os_error());
    equal(rt, words(rt, alloc, came), words(rt, alloc, want));
}

/// What comes of each of those thirteen calls.
fn of_call(alloc: Global, call: usize, failing: &mut Failing) -> Option<io::Error> {
    if call < 6 {
        of_sink(alloc, call, failing)
    } else {
        of_source(alloc, call - 6, failing)
    }
}

/// The error comes of the call, which makes one call on the sink or the source.
fn comes_unchanged(rt: &impl Abort, alloc: Global, call: usize, given: CallGiven) {
    let mut failing = Failing { given, failures: 0 };
    let came = of_call(alloc, call, &mut failing).expect(rt, "no error of the sink or the source");
    is_unchanged(rt, alloc, &came, &error(given));
    equal(rt, failing.failures, 1);
}

#[test]
fn errors_come_unchanged(rt: HostRuntime) {
    for &given in GIVEN {
        for call in 0..13 {
            comes_unchanged(&rt, rt.alloc(), call, given);
        }
    }
}
