//! Where text goes to.
ghost use Rattle.wkt_num.specs.Sink.{Sink, Puts};

use std::fmt;

/// A sink of text, which knows what it was given and how often it has failed.
///
/// [`CountedText`](crate::CountedText) makes one of any `fmt::Write`.
pub trait TextSink {
    /// What calls give it, what a call that fails leaves, and how many have failed: `revealing` for a
    /// sink that reveals its text.
    ghost sink: { Sink Self };

    /// Adds a piece of text. After an error a beginning of the piece, or nothing of it, was added.
    fn write_str(&mut self, piece: &str) -> fmt::Result
        ensures { Puts sink self.old piece.now self.new result };
}
