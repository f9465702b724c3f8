//! Bytes as a source.
ghost use Rattle.std.specs.Prelude.{◌≡◌, ◌≢◌, ◌≤◌, length, get_or};
ghost use Rattle.wkt_read.specs.Grammar.{kind_word};
ghost use Rattle.wkt_machine.specs.View.{IsDark, IsUnmarked, seen_word};
ghost use Rattle.wkt_sources.specs.Views.{Sees};

use crate::coordinates::{coordinates, has_coordinates};
use crate::header::take_header;
use wkt_events::{begins_number, byte_at, run_end, skip_white};
use wkt_machine::{Axis, Builder, FastSource, LexemeKind, Machine, Source, StepResult, take_rare};
use wkt_num::WktNum;
use wkt_read::words::{dimension_in, is_empty_in, kind_in};

/// A place in the bytes of a text. The text ends at its first NUL or with its last byte; where `LF_ENDS`, at LF too,
/// which else is white space.
#[derive(Clone, Copy)]
pub struct ByteCursor<'a, const LF_ENDS: bool> {
    pub text: &'a [u8],
    pub at: usize,
    // Where the lexeme ends that was looked at, unless it is a number.
    end: usize,
}

impl<'a, const LF_ENDS: bool> ByteCursor<'a, LF_ENDS> {
    #[inline(always)]
    pub fn new(text: &'a [u8], at: usize) -> Self
        ensures text { result.text ≡ text.entry }
        ensures at { result.at ≡ at }
    {
        ByteCursor { text, at, end: at }
    }
}

/// The lexeme at `at`, and where it ends, unless it is a number.
#[inline(always)]
fn lexeme_at<const LF_ENDS: bool>(text: &[u8], at: usize) -> (LexemeKind, usize)
    requires inside { at ≤ length text.now }
    requires dark { IsDark LF_ENDS text.now at }
    ensures { Sees LF_ENDS text.now at result.0 result.1 }
{
    let byte = byte_at(text, at);
    if byte == b'(' {
        return (LexemeKind::Open, at + 1);
    }
    if byte == b')' {
        return (LexemeKind::Close, at + 1);
    }
    if byte == b',' {
        return (LexemeKind::Comma, at + 1);
    }
    run_at::<LF_ENDS>(text, at)
}

/// The lexeme at `at`, where no mark is, and where it ends, unless it is a number.
#[inline(always)]
fn run_at<const LF_ENDS: bool>(text: &[u8], at: usize) -> (LexemeKind, usize)
    requires inside { at ≤ length text.now }
    requires dark { IsDark LF_ENDS text.now at }
    requires unmarked { IsUnmarked LF_ENDS text.now at }
    ensures { Sees LF_ENDS text.now at result.0 result.1 }
{
    if begins_number(byte_at(text, at)) {
        return (LexemeKind::Number, at);
    }
    let end = run_end(text, at);
    if end == at {
        return (LexemeKind::Other, at);
    }
    (seen_word(&text[at..end]), end)
}

/// A word.
#[inline(never)]
pub(crate) fn seen_word(word: &[u8]) -> LexemeKind
    ensures { result ≡ seen_word (kind_word word.now) word.now }
{
    match kind_in(word) {
        Some((kind, dim)) => LexemeKind::Kind(kind, dim),
        None => match dimension_in(word) {
            Some(dim) => LexemeKind::Dimension(dim),
            None if is_empty_in(word) => LexemeKind::Empty,
            None => LexemeKind::Other,
        },
    }
}

impl<'a, T: WktNum, const LF_ENDS: bool> Source<T> for ByteCursor<'a, LF_ENDS> {
    ghost use Rattle.wkt_sources.specs.Views.{bytes_view};

    ghost view = { bytes_view LF_ENDS };

    ghost by_type = { λ never. absurd never };

    #[inline(always)]
    fn look(self) -> (LexemeKind, Self) {
        let text = self.text;
        if self.at >= text.len() {
            return (LexemeKind::Other, self);
        }
        let at = skip_white::<LF_ENDS>(text, self.at);
        let (seen, end) = lexeme_at::<LF_ENDS>(text, at);
        (seen, ByteCursor { text, at, end })
    }

    #[inline(always)]
    fn skip(self) -> Self {
        ByteCursor::new(self.text, self.end)
    }

    #[inline(always)]
    fn number<B: Builder<T>>(self, builder: B, axis: Axis) -> Result<(Self, B), (Self, B)> {
        let (made, end) = builder.number_in(self.text, self.at, axis);
        match end {
            Some(end) => Ok((ByteCursor::new(self.text, end), made)),
            None => Err((self, made)),
        }
    }

    #[inline(always)]
    fn bare<B: Builder<T>>(self, builder: B) -> Result<(Self, B), (Self, B)> {
        let (made, end) = builder.bare_in(self.text, self.at);
        match end {
            Some(end) => Ok((ByteCursor::new(self.text, end), made)),
            None => Err((self, made)),
        }
    }
}

impl<'a, T: WktNum, const LF_ENDS: bool> FastSource<T> for ByteCursor<'a, LF_ENDS> {
    #[inline(always)]
    fn header<B: Builder<T>>(self, machine: Machine, builder: B) -> StepResult<Self, B> {
        if self.at > self.text.len() {
            return take_rare::<T, Self, B>(machine, self, builder);
        }
        take_header::<T, B, LF_ENDS>(machine, self, builder)
    }

    #[inline(always)]
    #[tactic(auto, using(wkt_machine::proofs::StepsJoin::rest_room))]
    fn coordinates<B: Builder<T>>(self, machine: Machine, builder: B) -> StepResult<Self, B> {
        // A point without parentheses ends with its coordinate.
        if self.at > self.text.len() || !has_coordinates(machine.part) {
            return take_rare::<T, Self, B>(machine, self, builder);
        }
        coordinates::<T, B, LF_ENDS>(machine, self, builder)
    }
}
