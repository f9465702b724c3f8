//! Why the bytes of a text are refused.
ghost use Rattle.std.specs.Prelude.{◌≡◌, ◌≢◌, ◌≤◌, ℕ, List, ◌∷◌, length, slice_range, false, IsUtf8};
ghost use Rattle.wkt_num.specs.Bytes.{Lexeme};
ghost use Rattle.wkt_events.specs.Remaining.{remaining, remaining_spanned};
ghost use Rattle.wkt_machine.specs.Refusing.{expected_at, blamed, refused};
ghost use Rattle.wkt_machine.specs.Goes.{IsStuck};
ghost use Rattle.wkt_machine.specs.View.{IsDark, IsUnmarked};
ghost use Rattle.wkt_sources.specs.LexemesAhead.{ShowsLexeme, GivesNext};
ghost use Rattle.wkt_machine.specs.Machines.{state_of};
ghost use Rattle.wkt_read.specs.Table.{at_place, closing, closings, stays};

use wkt_events::{begins_number, byte_at, run_end, skip_white};
use wkt_machine::expected::takes_number;
use wkt_machine::{Machine, read_by};
use wkt_num::Numbers;
use wkt_read::table::{at_bad, at_end, at_other, at_word};
use wkt_read::{Expected, Message};

/// A lexeme, as far as its message asks for it.
#[derive(Clone, Copy)]
pub enum NextLexeme<'a> {
    Open,
    Close,
    Comma,
    Word(&'a [u8]),
    /// A number that its type reads.
    Number,
    /// A number that its type doesn't read.
    Unread,
}

/// The bytes from one place to another.
#[inline(always)]
fn between<'a>(text: &'a [u8], from: usize, to: usize) -> &'a [u8]
    requires order { from ≤ to }
    requires inside { to ≤ length text.now }
    ensures { result.now ≡ slice_range text.now from to }
{
    &text[from..to]
}

/// The lexeme at that place, and where it ends, if it is no mark.
#[inline(always)]
fn run_given<'a, N: Numbers>(
    numbers: N,
    text: &'a [u8],
    at: usize,
) -> Option<(NextLexeme<'a>, usize)>
    requires inside { at ≤ length text.now }
    requires utf8 { IsUtf8 text.now }
    requires dark { IsDark false text.now at }
    requires unmarked { IsUnmarked false text.now at }
    ensures { GivesNext (N.read numbers) text.now at result }
{
    if begins_number(byte_at(text, at)) {
        return match read_by(numbers, text, at) {
            Some((_, end)) => Some((NextLexeme::Number, end)),
            None => Some((NextLexeme::Unread, run_end(text, at))),
        };
    }
    let end = run_end(text, at);
    if end == at {
        return None;
    }
    Some((NextLexeme::Word(between(text, at, end)), end))
}

/// The lexeme that comes next, and where it ends; `None` at the text's end.
#[inline(always)]
fn next_given<'a, N: Numbers>(
    numbers: N,
    text: &'a [u8],
    from: usize,
) -> Option<(NextLexeme<'a>, usize)>
    requires inside { from ≤ length text.now }
    requires utf8 { IsUtf8 text.now }
    ensures { GivesNext (N.read numbers) text.now from result }
{
    // Most texts that end too early end right here.
    if byte_at(text, from) == 0 {
        return None;
    }
    let at = skip_white::<false>(text, from);
    let byte = byte_at(text, at);
    if byte == b')' {
        return Some((NextLexeme::Close, at + 1));
    }
    if byte == b'(' {
        return Some((NextLexeme::Open, at + 1));
    }
    if byte == b',' {
        return Some((NextLexeme::Comma, at + 1));
    }
    run_given(numbers, text, at)
}

/// The message of the place alone.
fn at_place<N: Numbers>(numbers: N, expected: Expected, given: NextLexeme<'_>) -> Message
    ensures { (l : Lexeme) (r : List Lexeme) → ShowsLexeme (N.read numbers) given.entry l → result ≡ at_place (N.read numbers) expected (l ∷ r) }
{
    match given {
        NextLexeme::Word(word) => at_word(expected, word),
        NextLexeme::Unread => at_bad(expected),
        _ => at_other(expected),
    }
}

/// Whether the lexeme isn't taken where it is refused.
#[inline(always)]
fn stays<N: Numbers>(numbers: N, expected: Expected, given: NextLexeme<'_>) -> bool
    ensures { (l : Lexeme) → ShowsLexeme (N.read numbers) given.entry l → result ≡ stays (N.read numbers) expected l }
{
    match expected {
        Expected::More | Expected::Closing => true,
        Expected::Dimension => matches!(given, NextLexeme::Word(_) | NextLexeme::Unread),
        _ => false,
    }
}

/// The message behind the lexeme that stands where a parenthesis has to close.
#[inline(always)]
fn closing<N: Numbers>(numbers: N, message: Message, given: NextLexeme<'_>) -> Message
    ensures { (l : Lexeme) (r : List Lexeme) → ShowsLexeme (N.read numbers) given.entry l → closing (N.read numbers) message (l ∷ r) ≡ (result, r) }
{
    match given {
        NextLexeme::Close => message,
        NextLexeme::Unread => Message::BadNumber,
        _ => Message::Close,
    }
}

/// The message of the place alone, and where the lexemes are left behind it.
#[inline(always)]
fn message_here<N: Numbers>(
    numbers: N,
    machine: Machine,
    text: &[u8],
    at: usize,
) -> (Message, usize)
    requires inside { at ≤ length text.now }
    requires utf8 { IsUtf8 text.now }
    requires stuck { IsStuck (N.read numbers) machine (remaining_spanned false text.now at) }
    ensures message { (result.0, remaining false text.now result.1) ≡ blamed (N.read numbers) (expected_at (state_of machine).place machine.depth) (remaining false text.now at) }
    ensures inside { result.1 ≤ length text.now }
{
    if takes_number(machine) {
        let start = skip_white::<false>(text, at);
        // One that its type reads the machine would have taken.
        if begins_number(byte_at(text, start)) {
            return (Message::BadNumber, run_end(text, start));
        }
    }
    let expected = machine.expected();
    match next_given(numbers, text, at) {
        None => (at_end(expected), at),
        Some((given, end)) => {
            let message = at_place(numbers, expected, given);
            if stays(numbers, expected, given) {
                return (message, at);
            }
            (message, end)
        }
    }
}

/// The message after so many parentheses had to close, and where the lexemes are left behind them.
#[inline(always)]
fn close<N: Numbers>(
    numbers: N,
    message: Message,
    parens: usize,
    text: &[u8],
    at: usize,
) -> (Message, usize)
    requires inside { at ≤ length text.now }
    requires utf8 { IsUtf8 text.now }
    ensures message { (result.0, remaining false text.now result.1) ≡ closings (N.read numbers) parens message (remaining false text.now at) }
    ensures inside { result.1 ≤ length text.now }
{
    let mut reported = message;
    let mut open = parens;
    let mut from = at;
    'parens: while open > 0 {
        match next_given(numbers, text, from) {
            None => return (Message::Close, from),
            Some((given, end)) => {
                reported = closing(numbers, reported, given);
                from = end;
            }
        }
        open -= 1;
    }
    (reported, from)
}

/// The message of a text that is refused, by the table of `docs/GRAMMAR.md`: the machine stops at this place, with the
/// lexeme that comes next.
#[inline(never)]
pub fn message_at<N: Numbers>(numbers: N, machine: Machine, text: &str, at: usize) -> Message
    requires inside { at ≤ length text.now }
    requires stuck { IsStuck (N.read numbers) machine (remaining_spanned false text.now at) }
    ensures { result ≡ (refused (N.read numbers) (state_of machine) (remaining false text.now at)).0 }
{
    let bytes = text.as_bytes();
    let (blamed, behind) = message_here(numbers, machine, bytes, at);
    let (message, from) = close(numbers, blamed, machine.open_parens(), bytes, behind);
    close(numbers, message, machine.depth, bytes, from).0
}
