//! What the tests assert, as functions: each is proved once, where a macro is at each place that it stands at. And the
//! kinds that are lists.
use std::fmt::Debug;
use std::io::ErrorKind;
use std::process::Abort;
use wkt_lines::RunError;

/// The two are equal.
pub(crate) fn equal<T: PartialEq + Debug + Drop>(rt: &impl Abort, given: T, want: T) {
    assert_eq!(rt; given, want);
}

/// It is true.
pub(crate) fn holds(rt: &impl Abort, fact: bool) {
    assert!(rt; fact);
}

/// How a run ends: well, by its source, by its sink or without memory, and the kind of the error that it was given.
pub(crate) type End = (&'static str, Option<ErrorKind>);

pub(crate) const WELL: End = ("well", None);

pub(crate) const BROKEN_PIPE: End = ("write", Some(ErrorKind::BrokenPipe));

pub(crate) const INTERRUPTED: End = ("read", Some(ErrorKind::Interrupted));

fn end_of(answer: Result<(), RunError>) -> End {
    match answer {
        Ok(()) => WELL,
        Err(RunError::Read(error)) => ("read", Some(error.kind())),
        Err(RunError::Write(error)) => ("write", Some(error.kind())),
        Err(RunError::Memory(_)) => ("memory", None),
    }
}

/// The run ended so.
pub(crate) fn ended(rt: &impl Abort, answer: Result<(), RunError>, want: End) {
    equal(rt, end_of(answer), want);
}

/// The word of each, and a member.
pub(crate) const LISTS: [(&str, &str); 6] = [
    ("LINESTRING", "1 2"),
    ("POLYGON", "(1 2)"),
    ("MULTIPOINT", "(1 2)"),
    ("MULTILINESTRING", "(1 2)"),
    ("MULTIPOLYGON", "((1 2))"),
    ("GEOMETRYCOLLECTION", "POINT(1 2)"),
];
