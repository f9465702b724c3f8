//! The bytes of a text, taken one at a time.
ghost use Rattle.std.specs.Prelude.{◌≡◌, ◌+◌, ◌-◌, ◌≤◌, ◌<◌, length, slice_index, slice_range, MatchOption};
ghost use Rattle.std.specs.Str.{IsCharBoundary, IsUtf8};

/// The bytes of a text, of which some were taken.
///
/// It is moved and never copied, its fields are private to this file, and `next_byte` alone reads: so a stream of lexemes
/// looks at no byte that it doesn't count as taken.
#[derive(Drop)]
pub(crate) struct Cursor<'a> {
    text: &'a str,
    // How many bytes were taken.
    taken: usize,
    ghost in_range: { taken ≤ length text.now },
}

impl<'a> Cursor<'a> {
    ghost use Rattle.wkt_read.specs.Streams.{taken_in};

    pub(crate) fn new(text: &'a str) -> Self
        ensures text { result.text.now ≡ text.now }
        ensures taken { taken_in result ≡ 0 }
        ensures boundary { IsCharBoundary result.text.now (taken_in result) }
    {
        Cursor { text, taken: 0 }
    }

    /// How many bytes were taken.
    #[inline(always)]
    pub(crate) fn taken(&self) -> usize
        ensures { result ≡ taken_in self.now }
    {
        self.taken
    }

    /// More than the bytes that are left, by two.
    pub(crate) fn most_left(&self) -> usize
        ensures { result ≡ length self.now.text.now - taken_in self.now + 2 }
    {
        self.text.len() - self.taken + 2
    }

    /// The next byte.
    #[inline(always)]
    pub(crate) fn next_byte(&mut self) -> Option<u8>
        ensures text { self.new.text ≡ self.old.text }
        ensures utf8 { IsUtf8 self.old.text.now }
        ensures cases { MatchOption result
            ((taken_in self.new ≡ taken_in self.old) × (taken_in self.old ≡ length self.old.text.now))
            (λ b. (taken_in self.new ≡ taken_in self.old + 1) × (taken_in self.old < length self.old.text.now)
            × (b ≡ slice_index self.old.text.now (taken_in self.old))) }
    {
        // As the bytes of a text they are UTF-8, on which the readers of runs rest.
        let bytes = self.text.as_bytes();
        if self.taken == bytes.len() {
            return None;
        }
        let byte = bytes[self.taken];
        self.taken += 1;
        Some(byte)
    }

    /// The part of the taken text between two places where characters begin.
    pub(crate) fn part(&self, from: usize, to: usize) -> &'a str
        requires order { from ≤ to }
        requires is_taken { to ≤ taken_in self.now }
        requires start { IsCharBoundary self.now.text.now from }
        requires end { IsCharBoundary self.now.text.now to }
        ensures { result.now ≡ slice_range self.now.text.now from to }
    {
        &self.text[from..to]
    }
}
