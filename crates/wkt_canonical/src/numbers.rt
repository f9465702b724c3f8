//! Numbers, as their texts.
ghost use Rattle.std.specs.Bool.{OnTrue};
ghost use Rattle.std.specs.Prelude.{◌≡◌, ◌+◌, ◌-◌, ◌*◌, ◌<◌, ◌≤◌, length, slice_range};
ghost use Rattle.wkt_read.specs.Lexemes.{without_plus};
ghost use Rattle.wkt_machine.specs.Room.{shortest};
ghost use Rattle.wkt_canonical.specs.TextBuilderMaker.{HasBytes, WritesNumber, PutsNumber, HasSpace};

use crate::space::Space;
use crate::text_builder::TextBuilder;
use wkt_events::{byte_at, is_of_run, number_there};
use wkt_machine::pad;
use wkt_num::Numbers;

/// How many bytes a window has.
const WINDOW: usize = 32;

/// From where on the shortest run stands that is the same number's: past a plus, unless nothing or another stands behind it.
#[inline(always)]
fn past_plus(text: &[u8], at: usize, end: usize) -> usize
    requires some { at < end }
    requires inside { end ≤ length text.now }
    ensures order { at ≤ result }
    ensures some { result < end }
    ensures shortest { slice_range text.now result end ≡ shortest (without_plus (slice_range text.now at end)) }
{
    if text[at] == b'+' && at + 1 < end && text[at + 1] != b'+' {
        return at + 1;
    }
    at
}

impl<'a, N: Numbers> TextBuilder<'a, N> {
    /// The number's text.
    pub(crate) fn put_value(self, number: N::Number) -> Self
        requires { HasBytes self (length (N.num self.numbers number)) }
        ensures { WritesNumber (N.num self.entry.numbers) self.entry number result }
    {
        let mut space = Space {
            out: self.out,
            len: self.len,
            failures: 0,
        };
        // There is room for it.
        let _ = self.numbers.write_number(number, &mut space);
        TextBuilder {
            out: space.out,
            len: space.len,
            ..self
        }
    }

    /// The number at `at`, in any form.
    #[inline(never)]
    fn other_number(self, text: &[u8], at: usize) -> (Self, Option<usize>)
        requires at { at ≤ length text.now }
        requires room { HasSpace self text.now at }
        ensures { PutsNumber (N.read self.entry.numbers) (N.num self.entry.numbers) text.now at self.entry result.0 result.1 }
    {
        let Some((number, end)) = number_there(self.numbers, text, at) else {
            return (self, None);
        };
        let run = past_plus(text, at, end);
        let mut space = Space {
            out: self.out,
            len: self.len,
            failures: 0,
        };
        match self.numbers.write_number(number, &mut space) {
            Ok(()) => {
                let (out, len) = (space.out, space.len);
                // Each byte of the run was given room for two. A longer text has to leave room for what follows.
                if len - self.len < 2 * (end - run) || leaves_room(out, len, text, end) {
                    return (TextBuilder { out, len, ..self }, Some(end));
                }
                (TextBuilder::stuck(self.numbers, out), Some(end))
            }
            Err(_) => (TextBuilder::stuck(self.numbers, space.out), Some(end)),
        }
    }

    /// The number at `at`, as its text.
    #[inline(always)]
    pub(crate) fn put_number(self, text: &[u8], at: usize) -> (Self, Option<usize>)
        requires at { at ≤ length text.now }
        requires room { HasSpace self text.now at }
        ensures { PutsNumber (N.read self.entry.numbers) (N.num self.entry.numbers) text.now at self.entry result.0 result.1 }
    {
        // Of these types it isn't known that a text that is kept is UTF-8.
        if !self.numbers.reads_texts() {
            return self.other_number(text, at);
        }
        let rest = &text[at..];
        if rest.len() >= WINDOW {
            if let Some((end, kept)) = self.numbers.canonical_prefix(rest) {
                return (self.put_front(rest, kept), Some(at + end));
            }
        }
        self.slow_number(text, at)
    }

    /// Outlined: only this path zeroes the result slot. `polygon` stays as it is, so it isn't passed.
    #[inline(always)]
    fn slow_number(self, text: &[u8], at: usize) -> (Self, Option<usize>)
        requires at { at ≤ length text.now }
        requires room { HasSpace self text.now at }
        ensures { PutsNumber (N.read self.entry.numbers) (N.num self.entry.numbers) text.now at self.entry result.0 result.1 }
    {
        let polygon = self.polygon;
        let numbers = self.numbers;
        let (builder, end) = self.slow_number_outlined(text, at);
        let builder = TextBuilder {
            polygon,
            numbers,
            ..builder
        };
        (builder, end)
    }

    /// Puts a number that no window shows whole, or that isn't written as it stands.
    #[cold]
    #[inline(never)]
    fn slow_number_outlined(self, text: &[u8], at: usize) -> (Self, Option<usize>)
        requires at { at ≤ length text.now }
        requires room { HasSpace self text.now at }
        ensures { PutsNumber (N.read self.entry.numbers) (N.num self.entry.numbers) text.now at self.entry result.0 result.1 }
    {
        // No number stands where a parenthesis closes, or the text ends.
        if !is_of_run(byte_at(text, at)) {
            return (self, None);
        }
        let rest = &text[at..];
        if self.numbers.reads_texts() && rest.len() < WINDOW {
            let mut window = [0; WINDOW];
            pad(&mut window, rest);
            if let Some((end, kept)) = self.numbers.canonical_prefix(&window) {
                return (self.put_front(&window, kept), Some(at + end));
            }
        }
        self.other_number(text, at)
    }
}

/// Whether there is room behind the first `len` bytes for what the text from `end` on gives.
#[inline(always)]
fn leaves_room(out: &[u8], len: usize, text: &[u8], end: usize) -> bool
    requires { end ≤ length text.now }
    ensures { OnTrue result (len + (2 * (length text.now - end) + 66) ≤ length out.now) }
{
    len <= out.len() && (out.len() - len) / 2 >= text.len() - end + 33
}
