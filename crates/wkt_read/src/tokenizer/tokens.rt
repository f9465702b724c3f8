//! Lexemes, and the lexemes of a text one after the other.
ghost use Rattle.std.specs.Prelude.{◌≡◌, ◌≤◌, ◌<◌, length, Some};
ghost use Rattle.std.specs.Str.{IsCharBoundary};
ghost use Rattle.wkt_read.specs.Lexemes.{lexeme_of};
ghost use Rattle.wkt_read.specs.Items.{IsItem};
ghost use Rattle.wkt_read.specs.Peeks.{found, IsNumberIn};

use crate::messages::Message;
use crate::tokenizer::cursor::Cursor;
use crate::tokenizer::scan::{ByteClass, end_of_run, first_class, starts_number};
use std::marker::{Model, PhantomData};
use wkt_num::WktNum;

/// A lexeme of well-known text, its number read as `T`.
#[derive(Clone, Copy, PartialEq, Eq, Debug)]
pub enum Token<'a, T> {
    /// `,`.
    Comma,
    /// A number, as its type reads it.
    Number(T),
    /// `)`.
    ParenClose,
    /// `(`.
    ParenOpen,
    /// Letters, in the case in which they stand.
    Word(&'a str),
}

/// A lexeme whose number is not read yet, or the end of the text.
#[derive(Clone, Copy)]
pub enum Lexeme<'a> {
    End,
    Comma,
    Close,
    Open,
    Word(&'a str),
    /// A number's text, without the one plus sign that the run may begin with.
    Number(&'a str),
}

/// What a run is.
pub(crate) fn lexeme_of<'a>(run: &'a str) -> Lexeme<'a>
    ensures { found result ≡ Some (lexeme_of run.now) }
{
    match number_in(run) {
        Some(digits) => Lexeme::Number(digits),
        None => Lexeme::Word(run),
    }
}

/// The text of the number in a run, if the run is one.
fn number_in<'a>(run: &'a str) -> Option<&'a str>
    ensures { IsNumberIn result run.now }
{
    match run.as_bytes().first() {
        Some(first) if starts_number(*first) => Some(if *first == b'+' { &run[1..] } else { run }),
        _ => None,
    }
}

/// The item that stands for a lexeme.
pub(crate) fn item_of<'a, T: WktNum>(
    lexeme: Lexeme<'a>,
) -> Option<Result<Token<'a, T>, &'static str>>
    ensures { IsItem T.read (found lexeme.entry) result }
{
    Some(Ok(match lexeme {
        Lexeme::End => return None,
        Lexeme::Comma => Token::Comma,
        Lexeme::Close => Token::ParenClose,
        Lexeme::Open => Token::ParenOpen,
        Lexeme::Word(word) => Token::Word(word),
        Lexeme::Number(digits) => match T::read_number(digits) {
            Some(number) => Token::Number(number),
            None => return Some(Err(Message::BadNumber.text())),
        },
    }))
}

/// The lexemes of a text, one after the other.
///
/// White space is space, LF, CR and TAB, the marks are `(`, `)` and `,`, and a run is a longest stretch of other
/// characters. The text ends at its first NUL.
#[derive(Drop)]
pub struct Tokens<'a, T> {
    bytes: Cursor<'a>,
    // The byte that was taken after a run, if it is a mark or NUL.
    ahead: ByteClass,
    end: usize,
    of: PhantomData<T>,
}

impl<'a, T> Model for Tokens<'a, T> {
    ghost use Rattle.wkt_read.specs.Spanned.{Standing};

    ghost Value = { Standing };

    ghost use Rattle.wkt_read.specs.Streams.{stands, IsBetweenRuns};

    ghost view = { stands };

    ghost invariant = { IsBetweenRuns };
}

impl<'a, T: WktNum> Tokens<'a, T> {
    ghost use Rattle.wkt_read.specs.Lexemes.{IsSplit};
    ghost use Rattle.wkt_read.specs.Spanned.{lexemes_of, AreEnds};
    ghost use Rattle.wkt_read.specs.Stream.{coming, bytes_taken, end_of_last, Steps};

    /// The lexemes of the text, before the first is taken.
    pub fn from_str(text: &'a str) -> Self
        ensures split { IsSplit text.now (lexemes_of (coming result)) }
        ensures ends { AreEnds text.now (coming result) }
        ensures few { length (coming result) ≤ length text.now }
        ensures untaken { bytes_taken result ≡ 0 }
        ensures start { end_of_last result ≡ 0 }
    {
        Tokens {
            bytes: Cursor::new(text),
            ahead: ByteClass::White,
            end: 0,
            of: PhantomData,
        }
    }

    /// How many bytes of the text were taken.
    pub fn taken(&self) -> usize
        ensures { result ≡ bytes_taken self.now }
    {
        self.bytes.taken()
    }

    /// Where the last lexeme that `next` gave ends, in bytes; 0 before the first.
    pub fn end(&self) -> usize
        ensures { result ≡ end_of_last self.now }
    {
        self.end
    }

    // More lexemes than are left.
    pub(crate) fn most_left(&self) -> usize
        ensures { length (coming self.now) < result }
    {
        self.bytes.most_left()
    }

    /// The next lexeme, its number not read.
    #[inline(always)]
    pub fn next_lexeme(&mut self) -> Lexeme<'a>
        ensures { Steps self.old (found result) self.new }
    {
        let class = first_class(&mut self.bytes, self.ahead);
        let mark = match class {
            ByteClass::Open => Lexeme::Open,
            ByteClass::Close => Lexeme::Close,
            ByteClass::Comma => Lexeme::Comma,
            ByteClass::Run => {
                let from = self.bytes.taken() - 1;
                let (end, ahead) = end_of_run(&mut self.bytes, from);
                self.end = end;
                self.ahead = ahead;
                return lexeme_of(self.bytes.part(from, end));
            }
            ByteClass::Nul | ByteClass::White => {
                self.ahead = ByteClass::Nul;
                return Lexeme::End;
            }
        };
        self.ahead = ByteClass::White;
        self.end = self.bytes.taken();
        mark
    }
}

impl<'a, T: WktNum> Iterator for Tokens<'a, T> {
    ghost use Rattle.wkt_read.specs.Stream.{Gives, count};

    type Item = Result<Token<'a, T>, &'static str>;

    ghost next_gives = { Gives T.read };

    ghost remaining = { count };

    #[inline(always)]
    fn next(&mut self) -> Option<Result<Token<'a, T>, &'static str>> {
        item_of(self.next_lexeme())
    }
}
