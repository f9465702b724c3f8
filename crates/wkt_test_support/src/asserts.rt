//! What the tests assert, as functions: each is proved once, where a macro is at each place that it stands at.
use std::alloc::Global;
use std::fmt::{Debug, Display};
use std::process::Abort;

/// The two are equal.
pub(crate) fn equal<T: PartialEq + Debug + Drop>(rt: &impl Abort, given: T, want: T) {
    assert_eq!(rt; given, want);
}

/// It is true.
pub(crate) fn holds(rt: &impl Abort, fact: bool) {
    assert!(rt; fact);
}

/// The error has that text.
pub(crate) fn says<E: Display + Drop>(rt: &impl Abort, alloc: Global, error: E, want: &str) {
    equal(
        rt,
        error.to_string(alloc).expect(rt, "memory").as_str(),
        want,
    );
}
