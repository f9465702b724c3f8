//! Tokens as a source.
ghost use Rattle.std.specs.Prelude.{◌≡◌, refl};
ghost use Rattle.wkt_read.specs.Peeks.{found};
ghost use Rattle.wkt_sources.specs.Views.{seen_found, tokens_of};

use crate::bytes::seen_word;
use wkt_machine::{Axis, Builder, FastSource, LexemeKind, Machine, Part, Source, StepResult, take};
use wkt_num::WktNum;
use wkt_read::PeekableTokens;
use wkt_read::words::Lexeme;

/// The tokens of a text, one after another, which are lent.
#[derive(Drop)]
pub struct TokenSource<'t, 'a, T> {
    pub(crate) tokens: &'t mut PeekableTokens<'a, T>,
}

impl<'t, 'a, T: WktNum> TokenSource<'t, 'a, T> {
    #[inline(always)]
    pub fn new(tokens: &'t mut PeekableTokens<'a, T>) -> Self
        ensures { tokens_of result ≡ tokens.entry }
    {
        TokenSource { tokens }
    }

    /// The tokens, of which some are left.
    #[inline(always)]
    pub fn into_tokens(self) -> &'t mut PeekableTokens<'a, T>
        ensures { result ≡ tokens_of self.entry }
    {
        self.tokens
    }
}

/// A lexeme, or the end of the text.
#[inline(always)]
fn seen(lexeme: Lexeme<'_>) -> LexemeKind
    ensures { result ≡ seen_found (found lexeme.entry) }
{
    match lexeme {
        Lexeme::End => LexemeKind::Other,
        Lexeme::Comma => LexemeKind::Comma,
        Lexeme::Close => LexemeKind::Close,
        Lexeme::Open => LexemeKind::Open,
        Lexeme::Word(word) => seen_word(word.as_bytes()),
        Lexeme::Number(_) => LexemeKind::Number,
    }
}

impl<'t, 'a, T: WktNum> Source<T> for TokenSource<'t, 'a, T> {
    ghost use Rattle.wkt_sources.specs.Views.{tokens_view};

    ghost view = { tokens_view T.read };

    ghost by_type = { λ by. refl };

    #[inline(always)]
    fn look(self) -> (LexemeKind, Self) {
        let seen = seen(self.tokens.look());
        (seen, self)
    }

    #[inline(always)]
    fn skip(self) -> Self {
        let _ = self.tokens.take();
        self
    }

    #[inline(always)]
    fn number<B: Builder<T>>(self, builder: B, axis: Axis) -> Result<(Self, B), (Self, B)> {
        match self.tokens.take_number() {
            Some(number) => Ok((self, builder.number(number, axis))),
            None => Err((self, builder)),
        }
    }

    #[inline(always)]
    fn bare<B: Builder<T>>(self, builder: B) -> Result<(Self, B), (Self, B)> {
        match self.tokens.take_number() {
            Some(number) => {
                let opened = builder.open(Part::Member);
                Ok((self, opened.number(number, Axis::X)))
            }
            None => Err((self, builder)),
        }
    }
}

/// What begins in tokens is taken lexeme by lexeme: so none is looked at before those in front of it are taken.
impl<'t, 'a, T: WktNum> FastSource<T> for TokenSource<'t, 'a, T> {
    #[inline(always)]
    fn header<B: Builder<T>>(self, machine: Machine, builder: B) -> StepResult<Self, B> {
        take::<T, Self, B>(machine, self, builder)
    }

    #[inline(always)]
    fn coordinates<B: Builder<T>>(self, machine: Machine, builder: B) -> StepResult<Self, B> {
        take::<T, Self, B>(machine, self, builder)
    }
}
