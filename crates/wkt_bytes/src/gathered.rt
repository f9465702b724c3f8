//! Text to a sink of text, gathered in an array.
ghost use Rattle.std.specs.Prelude.{◌≡◌, ◌≤◌, ◌<◌, ◌+◌, [], ◌++◌, OnOk, IsUtf8, length, take};
ghost use Rattle.wkt_num.specs.Sink.{Puts};

use crate::wrapper::copy_piece;
use std::fmt;
use wkt_num::TextSink;

/// A [`TextSink`] that gathers what it is given in an array of 256 bytes, and adds the array to another sink where a piece
/// finds no room, and in [`finish`](GatheredText::finish).
///
/// A string that text goes to grows once for each array, and not for each number. For a short text it is allocated once.
#[derive(Drop)]
pub struct GatheredText<S> {
    sink: S,
    held: [u8; 256],
    len: usize,
    ghost fits: { len ≤ 256 },
    ghost utf8: { ∥ IsUtf8 (take len held) ∥₁ },
}

impl<S: TextSink> GatheredText<S> {
    ghost use Rattle.wkt_bytes.specs.Gathered.{gathered_sink, gathered_text, holding};

    /// A sink that holds nothing yet.
    pub fn new(sink: S) -> GatheredText<S>
        ensures sink { gathered_sink result ≡ sink }
        ensures held { gathered_text result ≡ [] }
    {
        GatheredText {
            sink,
            held: [0; 256],
            len: 0,
        }
    }

    /// Returns the sink. What is held still is lost.
    pub fn into_sink(self) -> S
        ensures { result ≡ gathered_sink self }
    {
        let GatheredText {
            sink,
            held: _,
            len: _,
        } = self;
        sink
    }

    // Takes a piece into the array.
    #[inline(always)]
    fn keep(&mut self, piece: &str)
        requires { self.old.len + length piece.now ≤ 256 }
        ensures held { gathered_text self.new ≡ gathered_text self.old ++ piece.now }
        ensures sink { self.new.sink ≡ self.old.sink }
    {
        let end = self.len + piece.len();
        copy_piece(piece.as_bytes(), &mut self.held[self.len..end]);
        self.len = end;
    }

    /// Adds what is held to the sink.
    ///
    /// # Errors
    /// `fmt::Error` where the sink fails: a beginning of what is held was added.
    pub fn finish(&mut self) -> fmt::Result
        ensures puts { Puts S.sink (gathered_sink self.old) (gathered_text self.old) (gathered_sink self.new) result }
        ensures held { OnOk result (gathered_text self.new ≡ []) }
    {
        let held = unsafe { str::from_utf8_unchecked(&self.held[..self.len]) };
        match self.sink.write_str(held) {
            Ok(()) => {
                self.len = 0;
                Ok(())
            }
            Err(e) => Err(e),
        }
    }

    // Makes room first. A piece that is longer than the array goes to the sink at once: nothing is held then.
    #[inline(never)]
    #[tactic(auto, using(crate::proofs::SinkSteps::puts_behind))]
    fn slow_write(&mut self, piece: &str) -> fmt::Result
        ensures { Puts (holding S.sink) self.old piece.now self.new result }
    {
        match self.finish() {
            Ok(()) => {}
            Err(e) => return Err(e),
        }
        if piece.len() > 256 - self.len {
            return self.sink.write_str(piece);
        }
        self.keep(piece);
        Ok(())
    }
}

impl<S: TextSink> TextSink for GatheredText<S> {
    ghost use Rattle.wkt_bytes.specs.Gathered.{holding};

    ghost sink = { holding S.sink };

    #[inline(always)]
    fn write_str(&mut self, piece: &str) -> fmt::Result {
        if piece.len() > 256 - self.len {
            return self.slow_write(piece);
        }
        self.keep(piece);
        Ok(())
    }
}
