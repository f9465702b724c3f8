//! The lexemes of a text, of which one may be looked at ahead.
ghost use Rattle.std.specs.Prelude.{◌≡◌, ◌≤◌, length, [], OnSome, IfNone, MatchOption};
ghost use Rattle.wkt_read.specs.Peeks.{found};

use crate::tokenizer::tokens::{Lexeme, Token, Tokens, item_of};
use std::marker::Model;
use wkt_num::WktNum;

/// The lexemes of a text, one after the other, of which one may be looked at ahead.
#[derive(Drop)]
pub struct PeekableTokens<'a, T> {
    tokens: Tokens<'a, T>,
    ahead: Option<Lexeme<'a>>,
    end: usize,
}

impl<'a, T> Model for PeekableTokens<'a, T> {
    ghost use Rattle.wkt_read.specs.Spanned.{Standing};

    ghost Value = { Standing };

    ghost use Rattle.wkt_read.specs.Peeks.{stands_ahead, IsAhead};

    ghost view = { stands_ahead };

    ghost invariant = { IsAhead };
}

#[tactic(auto, unfolding(crate::specs::Stream::rest))]
impl<'a, T: WktNum> PeekableTokens<'a, T> {
    ghost use Rattle.wkt_read.specs.Stream.{coming, bytes_taken, end_of_last};
    ghost use Rattle.wkt_read.specs.Items.{IsItem};
    ghost use Rattle.wkt_read.specs.Stream.{remaining, taken_of, end_of, rest, first_of, Moves};
    ghost use Rattle.wkt_read.specs.Stream.{TakesNext, IsFirst, StreamGoesOn};
    ghost use Rattle.wkt_read.specs.Stream.{IsNear};
    ghost use Rattle.wkt_read.specs.Stream.{StaysUnread, TakesNumber};

    /// The lexemes that the stream has still to give; none is looked at yet.
    pub fn new(tokens: Tokens<'a, T>) -> Self
        ensures left { remaining result ≡ coming tokens.entry }
        ensures taken { taken_of result ≡ bytes_taken tokens.entry }
        ensures end { end_of result ≡ end_of_last tokens.entry }
    {
        let end = tokens.end();
        PeekableTokens {
            tokens,
            ahead: None,
            end,
        }
    }

    /// How many bytes of the text were taken, for what was looked at too.
    pub fn taken(&self) -> usize
        ensures { result ≡ taken_of self.now }
    {
        self.tokens.taken()
    }

    /// Where the last lexeme that `next` gave ends, in bytes; before the first, where that of the stream below ended.
    pub fn end(&self) -> usize
        ensures { result ≡ end_of self.now }
    {
        self.end
    }

    /// No more lexemes are left than this. It reads none of them.
    pub fn most_left(&self) -> usize
        ensures { length (remaining self.now) ≤ result }
    {
        self.tokens.most_left()
    }

    /// The next lexeme, which stays.
    #[inline(always)]
    pub fn look(&mut self) -> Lexeme<'a>
        ensures left { remaining self.new ≡ remaining self.old }
        ensures end { end_of self.new ≡ end_of self.old }
        ensures goes_on { StreamGoesOn self.old self.new }
        ensures same { rest self.new ≡ rest self.old }
        ensures first { first_of (remaining self.old) ≡ found result }
        ensures sees { IsFirst (found result) (rest self.old) }
    {
        match self.ahead {
            Some(lexeme) => lexeme,
            None => {
                let lexeme = self.tokens.next_lexeme();
                self.ahead = Some(lexeme);
                lexeme
            }
        }
    }

    /// The next lexeme, which is taken.
    #[inline(always)]
    #[tactic(auto, using(crate::proofs::Placings::goes_moves))]
    pub fn take(&mut self) -> Lexeme<'a>
        ensures goes_on { StreamGoesOn self.old self.new }
        ensures near { OnSome (found result) (IsNear self.new) }
        ensures moves { Moves self.old (found result) self.new }
        ensures takes { TakesNext (found result) (rest self.old) (rest self.new) }
    {
        self.step()
    }

    #[inline(always)]
    fn step(&mut self) -> Lexeme<'a>
        ensures { Moves self.old (found result) self.new }
    {
        match self.ahead {
            Some(Lexeme::End) => Lexeme::End,
            Some(lexeme) => {
                self.ahead = None;
                self.end = self.tokens.end();
                lexeme
            }
            None => {
                let lexeme = self.tokens.next_lexeme();
                self.end = self.tokens.end();
                lexeme
            }
        }
    }

    /// Takes the next lexeme if it is a number that is read.
    #[inline(always)]
    pub fn take_number(&mut self) -> Option<T>
        ensures { MatchOption result (StaysUnread T.read self.old self.new) (λ n. TakesNumber T.read self.old n self.new) }
    {
        match self.look() {
            Lexeme::Number(digits) => match T::read_number(digits) {
                Some(number) => {
                    let _ = self.step();
                    Some(number)
                }
                None => None,
            },
            _ => None,
        }
    }

    /// The item that `next` gives next. It is returned by value, and a number is read anew by each call.
    pub fn peek(&mut self) -> Option<Result<Token<'a, T>, &'static str>>
        ensures gives { IsItem T.read (first_of (remaining self.old)) result }
        ensures none { IfNone result (rest self.old ≡ []) }
        ensures left { remaining self.new ≡ remaining self.old }
        ensures rest { rest self.new ≡ rest self.old }
        ensures end { end_of self.new ≡ end_of self.old }
        ensures grows { taken_of self.old ≤ taken_of self.new }
    {
        item_of(self.look())
    }
}

impl<'a, T: WktNum> Iterator for PeekableTokens<'a, T> {
    ghost use Rattle.wkt_read.specs.Stream.{GivesAhead, count_ahead};

    type Item = Result<Token<'a, T>, &'static str>;

    ghost next_gives = { GivesAhead T.read };

    ghost remaining = { count_ahead };

    fn next(&mut self) -> Option<Result<Token<'a, T>, &'static str>> {
        item_of(self.step())
    }
}
