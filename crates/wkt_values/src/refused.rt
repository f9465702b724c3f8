//! Why tokens are refused.
ghost use Rattle.std.specs.Prelude.{◌≡◌, List};
ghost use Rattle.wkt_num.specs.Bytes as lex;
ghost use Rattle.wkt_read.specs.Table.{at_number, at_place, closing, closings, is_unread, unclosed};
ghost use Rattle.wkt_machine.specs.Refusing.{expected_at, blamed, is_number, refused, stays_first};
ghost use Rattle.wkt_machine.specs.Machines.{state_of};
ghost use Rattle.wkt_machine.specs.Goes.{IsStuck};
ghost use Rattle.wkt_read.specs.Stream.{Advances, remaining, rest, IsFirst};
ghost use Rattle.wkt_read.specs.Peeks.{found};

use wkt_machine::Machine;
use wkt_machine::expected::takes_number;
use wkt_num::WktNum;
use wkt_read::table::{at_bad, at_end, at_other, at_word};
use wkt_read::words::Lexeme;
use wkt_read::{Expected, Message, PeekableTokens};

/// The message where a number stands.
#[inline(never)]
fn at_number<T: WktNum>(expected: Expected, digits: &str) -> Message
    ensures { result ≡ at_number T.read (T.read digits.now) expected }
{
    match T::read_number(digits) {
        Some(_) => at_other(expected),
        None => at_bad(expected),
    }
}

/// The message of the place alone, by its token.
fn at_place<T: WktNum>(expected: Expected, lexeme: Lexeme<'_>) -> Message
    ensures { (ls : List lex.Lexeme) → IsFirst (found lexeme.entry) ls → result ≡ at_place T.read expected ls }
{
    match lexeme {
        Lexeme::End => at_end(expected),
        Lexeme::Word(word) => at_word(expected, word.as_bytes()),
        Lexeme::Number(digits) => at_number::<T>(expected, digits),
        Lexeme::Comma | Lexeme::Open | Lexeme::Close => at_other(expected),
    }
}

/// Whether the type doesn't read the number.
#[inline(never)]
fn is_unread<T: WktNum>(digits: &str) -> bool
    ensures { result ≡ is_unread T.read (T.read digits.now) }
{
    match T::read_number(digits) {
        Some(_) => false,
        None => true,
    }
}

/// Whether the token isn't taken where it is refused.
fn stays<T: WktNum>(expected: Expected, lexeme: Lexeme<'_>) -> bool
    ensures { (ls : List lex.Lexeme) → IsFirst (found lexeme.entry) ls → result ≡ stays_first T.read expected ls }
{
    match (expected, lexeme) {
        (_, Lexeme::End) => true,
        (Expected::More | Expected::Closing, _) => true,
        (Expected::Dimension, Lexeme::Word(_)) => true,
        (Expected::Dimension, Lexeme::Number(digits)) => is_unread::<T>(digits),
        _ => false,
    }
}

/// The message behind a number that stands where a parenthesis has to close.
#[inline(never)]
fn unclosed<T: WktNum>(digits: &str) -> Message
    ensures { result ≡ unclosed T.read (T.read digits.now) }
{
    match T::read_number(digits) {
        Some(_) => Message::Close,
        None => Message::BadNumber,
    }
}

/// The message behind the token that stands where a parenthesis has to close.
fn closing<T: WktNum>(message: Message, lexeme: Lexeme<'_>) -> Message
    ensures { (ls : List lex.Lexeme) → IsFirst (found lexeme.entry) ls → result ≡ (closing T.read message ls).0 }
{
    match lexeme {
        Lexeme::Close => message,
        Lexeme::Number(digits) => unclosed::<T>(digits),
        Lexeme::End | Lexeme::Comma | Lexeme::Open | Lexeme::Word(_) => Message::Close,
    }
}

/// Whether a number is next.
#[inline(always)]
fn is_number(lexeme: Lexeme<'_>) -> bool
    ensures { result ≡ is_number (found lexeme.entry) }
{
    match lexeme {
        Lexeme::Number(_) => true,
        _ => false,
    }
}

/// The message of the place alone. The token that is refused is taken, unless it stands where a parenthesis has to close.
#[inline(always)]
fn message_here<T: WktNum>(machine: Machine, tokens: &mut PeekableTokens<'_, T>) -> Message
    requires stuck { IsStuck T.read machine (remaining tokens.now) }
    ensures message { (result, rest tokens.new) ≡ blamed T.read (expected_at (state_of machine).place machine.depth) (rest tokens.old) }
    ensures advances { Advances tokens.old tokens.new }
{
    let lexeme = tokens.look();
    if takes_number(machine) {
        // One that its type reads the machine would have taken.
        if is_number(lexeme) {
            let _ = tokens.take();
            return Message::BadNumber;
        }
    }
    let expected = machine.expected();
    if !stays::<T>(expected, lexeme) {
        let _ = tokens.take();
    }
    at_place::<T>(expected, lexeme)
}

/// The message after so many parentheses had to close. Each takes a token.
#[inline(never)]
fn close<T: WktNum>(message: Message, parens: usize, tokens: &mut PeekableTokens<'_, T>) -> Message
    ensures message { (result, rest tokens.new) ≡ closings T.read parens message (rest tokens.old) }
    ensures advances { Advances tokens.old tokens.new }
{
    let mut reported = message;
    let mut remaining = parens;
    'parens: while remaining > 0 {
        reported = closing::<T>(reported, tokens.take());
        remaining -= 1;
    }
    reported
}

/// The message of tokens that are refused at the place, by the table of `docs/GRAMMAR.md`. As many of them are taken as
/// it takes to say so.
#[inline(never)]
pub(crate) fn refused<T: WktNum>(machine: Machine, tokens: &mut PeekableTokens<'_, T>) -> Message
    requires stuck { IsStuck T.read machine (remaining tokens.now) }
    ensures message { (result, rest tokens.new) ≡ refused T.read (state_of machine) (rest tokens.old) }
    ensures advances { Advances tokens.old tokens.new }
{
    let message = message_here(machine, tokens);
    let message = close(message, machine.open_parens(), tokens);
    close(message, machine.depth, tokens)
}
