//! A string as a sink.
ghost use Rattle.std.specs.Prelude.{◌≡◌};

use crate::sink::TextSink;
use std::fmt;

/// A string as a [`TextSink`]. A piece that there is no memory for is no part of its text, so after an
/// error the string holds what it held, and a beginning of what it was to be given.
#[derive(Drop)]
pub struct StringText<'a> {
    string: &'a mut String,
    failures: u64,
}

impl<'a> StringText<'a> {
    ghost use Rattle.wkt_num.specs.Borrowed.{string_of, string_failures};

    /// A sink that has been given nothing yet.
    pub fn new(string: &'a mut String) -> StringText<'a>
        ensures string { string_of result ≡ string.entry }
        ensures failures { string_failures result ≡ 0 }
    {
        StringText {
            string,
            failures: 0,
        }
    }

    /// Gives the string back.
    pub fn into_string(self) -> &'a mut String
        ensures { result ≡ string_of self.entry }
    {
        self.string
    }
}

impl<'a> TextSink for StringText<'a> {
    ghost use Rattle.wkt_num.specs.Borrowed.{string_sink};

    ghost sink = { string_sink };

    fn write_str(&mut self, piece: &str) -> fmt::Result {
        match self.string.push_str(piece) {
            Ok(()) => Ok(()),
            Err(_) => {
                self.failures = self.failures.wrapping_add(1);
                Err(fmt::Error)
            }
        }
    }
}
