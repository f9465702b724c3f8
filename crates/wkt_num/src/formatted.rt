//! A formatter as a sink.
ghost use Rattle.std.specs.Prelude.{◌≡◌};

use crate::sink::TextSink;
use std::fmt;
use std::fmt::Formatter;

/// A formatter as a [`TextSink`]: text goes out as it is, whatever width, fill or precision the
/// formatter has. `Display` goes through it.
#[derive(Drop)]
pub struct FormatterText<'a, W: fmt::Write> {
    formatter: &'a mut Formatter<W>,
    failures: u64,
}

impl<'a, W: fmt::Write> FormatterText<'a, W> {
    ghost use Rattle.wkt_num.specs.Borrowed.{formatter_of, formatted_failures};

    /// A sink that has been given nothing yet.
    pub fn new(formatter: &'a mut Formatter<W>) -> FormatterText<'a, W>
        ensures formatter { formatter_of result ≡ formatter.entry }
        ensures failures { formatted_failures result ≡ 0 }
    {
        FormatterText {
            formatter,
            failures: 0,
        }
    }

    /// Gives the formatter back.
    pub fn into_formatter(self) -> &'a mut Formatter<W>
        ensures { result ≡ formatter_of self.entry }
    {
        self.formatter
    }
}

impl<'a, W: fmt::Write> TextSink for FormatterText<'a, W> {
    ghost use Rattle.wkt_num.specs.Borrowed.{formatted_sink};

    ghost sink = { formatted_sink W.write_str_gives };

    fn write_str(&mut self, piece: &str) -> fmt::Result {
        match self.formatter.write_str(piece) {
            Ok(()) => Ok(()),
            Err(e) => {
                self.failures = self.failures.wrapping_add(1);
                Err(e)
            }
        }
    }
}
