//! The readers against the plain program of the definitions, on all short texts of some words.

mod reference;

use crate::asserts::equal;
use reference::{ReferenceLexeme, front, lexemes, whole};
use std::alloc::{AllocError, Global};
use std::process::Abort;
use std::test::Fail;
use wkt::tokenizer::{Token, Tokens};
use wkt::{FromWktStr, ReadError, Wkt, infer_type};

// Whether the lexeme is the one that is given.
fn is_token(
    lexeme: ReferenceLexeme<'_>,
    token: Option<Result<Token<'_, i32>, &'static str>>,
) -> bool {
    match (lexeme, token) {
        (ReferenceLexeme::Open, Some(Ok(Token::ParenOpen))) => true,
        (ReferenceLexeme::Close, Some(Ok(Token::ParenClose))) => true,
        (ReferenceLexeme::Comma, Some(Ok(Token::Comma))) => true,
        (ReferenceLexeme::Word(run), Some(Ok(Token::Word(word)))) => run == word.as_bytes(),
        (ReferenceLexeme::Number(run), Some(Ok(Token::Number(number)))) => whole(run)
            == Some(number),
        (ReferenceLexeme::Number(run), Some(Err(_))) => whole(run).is_none(),
        _ => false,
    }
}

fn same_lexemes(alloc: Global, text: &str) -> Result<bool, AllocError> {
    let mut tokens = Tokens::<i32>::from_str(text);
    let found = lexemes(alloc, text.as_bytes())?;
    for lexeme in &found {
        if !is_token(*lexeme, tokens.next()) {
            return Ok(false);
        }
    }
    Ok(tokens.next().is_none())
}

fn same_front(alloc: Global, text: &str) -> Result<bool, AllocError> {
    let wanted = front(alloc, text)?;
    match (wanted, Wkt::<i32>::from_str(alloc, text)) {
        (Some(wanted), Ok(geometry)) => {
            let written = format!(in alloc; "{geometry}")?;
            Ok(written.as_str() == wanted.as_str())
        }
        (None, Err(ReadError::Text(_))) => Ok(true),
        (_, Err(ReadError::Memory(e))) => Err(e),
        _ => Ok(false),
    }
}

const HEADERS: [(&str, &str); 8] = [
    ("POINT", "Point"),
    ("LINESTRING", "LineString"),
    ("LINEARRING", "LineString"),
    ("POLYGON", "Polygon"),
    ("MULTIPOINT", "MultiPoint"),
    ("MULTILINESTRING", "MultiLineString"),
    ("MULTIPOLYGON", "MultiPolygon"),
    ("GEOMETRYCOLLECTION", "GeometryCollection"),
];

// What a text in capitals has before its first `(` or EMPTY, and whether EMPTY came first.
fn header(text: &str) -> Option<(&str, bool)> {
    match (text.split_once("("), text.split_once("EMPTY")) {
        (None, None) => None,
        (Some((header, _)), None) => Some((header, false)),
        (None, Some((header, _))) => Some((header, true)),
        (Some((a, _)), Some((b, _))) => {
            if a.len() < b.len() {
                Some((a, false))
            } else {
                Some((b, true))
            }
        }
    }
}

fn dimension(rest: &str) -> &'static str {
    if rest.contains("ZM") {
        "XYZM"
    } else if rest.contains("Z") {
        "XYZ"
    } else if rest.contains("M") {
        "XYM"
    } else {
        "XY"
    }
}

fn has_space(header: &str) -> bool {
    header.contains(" ") || header.contains("\n") || header.contains("\r") || header.contains("\t")
}

// What the header of a text says, by the four rules.
fn header_answer(alloc: Global, text: &str) -> Result<String, AllocError> {
    let capitals = text.to_ascii_uppercase(alloc)?;
    let Some((header, by_empty)) = header(capitals.trim_start()) else {
        return String::from_str(alloc, "Invalid WKT; no '(' character and not EMPTY");
    };
    if by_empty && !has_space(header) {
        return String::from_str(
            alloc,
            "Invalid WKT; no whitespace between geometry type and EMPTY.",
        );
    }
    for (word, name) in HEADERS {
        if let Some(rest) = header.strip_prefix(word) {
            let dimension = dimension(rest);
            return format!(in alloc; "{name} {dimension}");
        }
    }
    format!(in alloc; "Unsupported WKT prefix {header}")
}

fn same_header(alloc: Global, text: &str) -> Result<bool, AllocError> {
    let wanted = header_answer(alloc, text)?;
    let given = match infer_type(alloc, text) {
        Ok((kind, dimension)) => format!(in alloc; "{kind:?} {dimension:?}")?,
        Err(error) => format!(in alloc; "{error}")?,
    };
    Ok(given.as_str() == wanted.as_str())
}

// The nth of the texts that go on from a first word with at most so many of the words.
fn nth(
    alloc: Global,
    first: &str,
    words: &[&str],
    between: &str,
    longest: usize,
    n: usize,
) -> Result<String, AllocError> {
    let mut text = String::from_str(alloc, first)?;
    let mut left = n;
    for _ in 0..longest {
        if left == 0 {
            return Ok(text);
        }
        left -= 1;
        if let Some(i) = left.checked_rem(words.len())
            && let Some(word) = words.get(i)
        {
            text.push_str(between)?;
            text.push_str(word)?;
        }
        left = left.checked_div(words.len()).unwrap_or(0);
    }
    Ok(text)
}

// How many lists of at most so many words there are.
fn lists(words: usize, longest: usize) -> usize {
    let mut all = 1usize;
    for _ in 0..longest {
        all = all.wrapping_mul(words).wrapping_add(1);
    }
    all
}

// Notes what of a text differs.
fn note(wrong: &mut String, what: &str, text: &str) -> Result<(), AllocError> {
    for piece in [what, " of ", text, "\n"] {
        wrong.push_str(piece)?;
    }
    Ok(())
}

// The readers and the plain program agree on the texts that go on from a first word with at most so many of the words.
fn agree(
    rt: &impl Abort,
    alloc: Global,
    first: &str,
    words: &[&str],
    between: &str,
    longest: usize,
) -> Result<(), AllocError> {
    let mut wrong = String::new(alloc);
    for n in 0..lists(words.len(), longest) {
        let text = nth(alloc, first, words, between, longest, n)?;
        if !same_lexemes(alloc, &text)? {
            note(&mut wrong, "lexemes", &text)?;
        }
        if !same_front(alloc, &text)? {
            note(&mut wrong, "front", &text)?;
        }
        if !same_header(alloc, &text)? {
            note(&mut wrong, "header", &text)?;
        }
    }
    equal(rt, wrong.as_str(), "");
    Ok(())
}

const PROGRAM_ROWS: [(&str, &str); 7] = [
    ("POINT ( 1 +-2 )", "POINT(1 -2)"),
    ("LineString m empty 1x", "LINESTRING M EMPTY"),
    (
        "MULTIPOINT(1 2,(3 4),EMPTY)",
        "MULTIPOINT((1 2),(3 4),EMPTY)",
    ),
    ("POLYGON(EMPTY,(1 2))", "POLYGON EMPTY"),
    (
        "GEOMETRYCOLLECTION Z (POINT (1 2), POINTM(1 2 3))",
        "GEOMETRYCOLLECTION Z(POINT(1 2),POINT M(1 2 3))",
    ),
    ("LINEARRINGZ(1 2 3)", "none"),
    ("MULTIPOINT((EMPTY))", "none"),
];

#[test]
fn plain_program(rt: HostRuntime) -> Result<(), Fail> {
    let alloc = rt.alloc();
    for (text, wanted) in PROGRAM_ROWS {
        let given = match front(alloc, text)? {
            Some(given) => given,
            None => String::from_str(alloc, "none")?,
        };
        equal(&rt, (text, given.as_str()), (text, wanted));
    }
    Ok(())
}

const LISTS_OF_NUMBERS: [&str; 7] = [
    "LINESTRINGM",
    "LINEARRING",
    "POLYGON",
    "MULTIPOINT",
    "MULTILINESTRING",
    "MULTIPOLYGON",
    "GeometryCollection",
];

#[test]
fn short_lists(rt: HostRuntime) -> Result<(), Fail> {
    let alloc = rt.alloc();
    equal(&rt, lists(9, 5), 66430);
    for kind in LISTS_OF_NUMBERS {
        let words = [kind, "point", "m", "empty", "(", ")", ",", "1", "1x"];
        agree(&rt, alloc, "", &words, " ", 5)?;
    }
    Ok(())
}

const BEGINNINGS: [&str; 6] = [
    "LINESTRING (",
    "POLYGON(",
    "MULTIPOINT (",
    "MULTILINESTRING(",
    "MULTIPOLYGON ((",
    "GEOMETRYCOLLECTION(POINT",
];

#[test]
fn longer_lists(rt: HostRuntime) -> Result<(), Fail> {
    let alloc = rt.alloc();
    for first in BEGINNINGS {
        agree(
            &rt,
            alloc,
            first,
            &["(", ")", ",", "1 +-2", "empty"],
            " ",
            6,
        )?;
    }
    Ok(())
}

#[test]
fn short_texts(rt: HostRuntime) -> Result<(), Fail> {
    let alloc = rt.alloc();
    let characters = ["1", "+", "-", ".", "a", "(", " ", "\0", "¾"];
    agree(&rt, alloc, "", &characters, "", 5)?;
    let pieces = ["Z", "m", "EMPTY", "(", " ", "\t", "empt", "\0", "\n"];
    for first in ["", " point", "LINEARRING", "MultiPolygonZ"] {
        agree(&rt, alloc, first, &pieces, "", 4)?;
    }
    Ok(())
}
