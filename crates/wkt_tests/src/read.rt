//! What is read, and what of the text was taken; and headers of each length.
use crate::asserts::{equal, holds};
use std::alloc::Global;
use std::process::Abort;
use wkt_read::{PeekableTokens, ReadError, Token, Tokens, infer_type};
use wkt_types::Wkt;
use wkt_values::FromWktStr;

const BAD_NUMBER: &str = "Unable to parse input number as the desired output type";

const NO_CLOSING: &str = "Missing closing parenthesis for type";

// The number that `peek` returns, if it is one.
fn peeked(tokens: &mut PeekableTokens<'_, i32>) -> Option<i32> {
    match tokens.peek() {
        Some(Ok(Token::Number(number))) => Some(number),
        _ => None,
    }
}

#[test]
fn peeks(rt: HostRuntime) {
    let mut tokens = PeekableTokens::new(Tokens::<i32>::from_str("4.2p 7(¾"));
    equal(&rt, &tokens.next(), &Some(Err(BAD_NUMBER)));
    equal(&rt, peeked(&mut tokens), Some(7));
    equal(&rt, (tokens.end(), tokens.taken()), (4, 7));
    equal(&rt, &tokens.next(), &Some(Ok(Token::Number(7))));
    equal(&rt, peeked(&mut tokens), None);
    equal(&rt, &tokens.next(), &Some(Ok(Token::ParenOpen)));
    equal(&rt, &tokens.next(), &Some(Ok(Token::Word("¾"))));
    equal(&rt, peeked(&mut tokens), None);
    equal(&rt, &tokens.next(), &None);
}

// Adds the text of a geometry to others.
fn add_text(alloc: Global, out: &mut String, geometry: &Wkt<i32>) -> Result<(), ReadError> {
    out.push_str(geometry.to_string(alloc)?.as_str())?;
    out.push(';')?;
    Ok(())
}

// Adds the texts of all geometries of a text, each read where the one before it ends.
fn rewrite(alloc: Global, out: &mut String, text: &str) -> Result<(), ReadError> {
    let mut rest = text;
    'fronts: while !rest.is_empty() {
        let (geometry, end) = Wkt::<i32>::read_front(alloc, rest)?;
        rest = &rest[end..];
        add_text(alloc, out, &geometry)?;
    }
    Ok(())
}

#[test]
fn reads_one_front_after_the_other(rt: HostRuntime) {
    let alloc = rt.alloc();
    let text = "point ( +1 2 ) Linestring z empty MULTIPOINT((1 2),3 4)";
    let want = "POINT(1 2);LINESTRING Z EMPTY;MULTIPOINT((1 2),(3 4));";
    let mut out = String::new(alloc);
    holds(&rt, rewrite(alloc, &mut out, text).is_ok());
    equal(&rt, out.as_str(), want);
    holds(&rt, rewrite(alloc, &mut out, "POINT(1 2) x").is_err());
}

/// The next geometry is refused with that message.
fn refuses(rt: &impl Abort, alloc: Global, tokens: &mut PeekableTokens<'_, i32>, want: &str) {
    match Wkt::<i32>::read_tokens(alloc, tokens) {
        Err(ReadError::Text(message)) => equal(rt, message, want),
        _ => panic!(rt; "it isn't refused: {want}"),
    }
}

/// The next geometry is read, and ends there.
fn ends_at(rt: &impl Abort, alloc: Global, tokens: &mut PeekableTokens<'_, i32>, want: usize) {
    holds(rt, Wkt::<i32>::read_tokens(alloc, tokens).is_ok());
    equal(rt, tokens.end(), want);
}

#[test]
fn goes_on_after_a_geometry(rt: HostRuntime) {
    let alloc = rt.alloc();
    let mut tokens = PeekableTokens::new(Tokens::from_str("POINT(1 2)LINESTRING EMPTY x"));
    ends_at(&rt, alloc, &mut tokens, 10);
    ends_at(&rt, alloc, &mut tokens, 26);
    refuses(&rt, alloc, &mut tokens, "Invalid type encountered");
    refuses(&rt, alloc, &mut tokens, "Invalid WKT format");
}

// After an error the lexemes go on behind the one that was too much.
#[test]
fn goes_on_after_a_fault(rt: HostRuntime) {
    let mut tokens = PeekableTokens::new(Tokens::<i32>::from_str("POLYGON((1 2,x),3 4"));
    refuses(&rt, rt.alloc(), &mut tokens, NO_CLOSING);
    equal(&rt, tokens.next(), Some(Ok(Token::Number(3))));
}

/// The prefix is refused, and the error shows it whole, in capitals.
fn shows_prefix(rt: &impl Abort, alloc: Global, text: &str, want: &str) {
    match infer_type(alloc, text) {
        Ok(_) => panic!(rt; "{text} has a kind"),
        Err(error) => equal(
            rt,
            error.to_string(alloc).expect(rt, "memory").as_str(),
            want,
        ),
    }
}

/// A prefix of so many letters is shown whole.
fn shows_letters(rt: &impl Abort, alloc: Global, length: usize) {
    let letters = "a".repeat(alloc, length).expect(rt, "memory");
    let text = [letters.as_str(), "("].concat(alloc).expect(rt, "memory");
    let shown = "A".repeat(alloc, length).expect(rt, "memory");
    let want = ["Unsupported WKT prefix ", &shown]
        .concat(alloc)
        .expect(rt, "memory");
    shows_prefix(rt, alloc, &text, &want);
}

// An `infer_type` that gives up on unknown prefixes, or above a size, fails here.
#[test]
fn long_prefixes(rt: HostRuntime) {
    for length in 1..=300 {
        shows_letters(&rt, rt.alloc(), length);
    }
    shows_letters(&rt, rt.alloc(), 100_000);
}
