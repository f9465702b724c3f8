//! The kind and the dimension that the header of a text names.
ghost use Rattle.std.specs.Prelude.{◌≡◌, IfErr};
ghost use Rattle.std.specs.Str.{str_to_ascii_uppercase, trim_start};
ghost use Rattle.std.specs.List.{AllByRecursion};
ghost use Rattle.wkt_read.specs.Stream.{IsCapital};
ghost use Rattle.wkt_read.specs.Header.{holds, has_space, dim_said, header_cut, header_rule, EndsHeader, header_answer, Infers, SaysOf, LendsPrefix, LendsPrefixOf};

use crate::keywords::{begins, kind};
use std::alloc::{AllocError, Global};
use wkt_types::{Dimension, GeometryType};

/// Why the header of a text names no kind.
#[derive(Debug, Drop, thiserror::Error)]
pub enum InferError {
    /// The text begins with none of the kind words. This is what it has before its first `(` or
    /// EMPTY, its ASCII letters in capitals.
    #[error("Unsupported WKT prefix {0}")]
    UnsupportedPrefix(String),
    /// EMPTY comes first, with no space, LF, CR or TAB before it.
    #[error("Invalid WKT; no whitespace between geometry type and EMPTY.")]
    NoSpaceBeforeEmpty,
    /// The text has neither `(` nor EMPTY.
    #[error("Invalid WKT; no '(' character and not EMPTY")]
    NoOpenParen,
    /// Memory ran out for an unsupported prefix. No other answer takes any.
    #[error("out of memory")]
    Memory(AllocError),
}

/// Why the header of a text names no kind, with what the text begins with, in its own case.
#[derive(Clone, Copy, PartialEq, Eq, Debug)]
pub enum HeaderError<'a> {
    /// The text begins with none of the kind words. This is what it has before its first `(` or
    /// EMPTY.
    UnsupportedPrefix(&'a str),
    /// EMPTY comes first, with no space, LF, CR or TAB before it.
    NoSpaceBeforeEmpty,
    /// The text has neither `(` nor EMPTY.
    NoOpenParen,
}

/// So that `?` passes on what allocates, beside what infers.
impl From<AllocError> for InferError {
    ghost use Rattle.wkt_read.specs.declared.infer.InferError.TheVariants.{Memory};

    ghost from_gives = { λ error result. result ≡ Memory error };

    fn from(error: AllocError) -> Self {
        InferError::Memory(error)
    }
}

// Whether the word, which is in capitals, stands in the text.
#[tactic(auto, using(crate::proofs::HeaderPlaces::holds_next))]
fn holds(word: &[u8], text: &[u8]) -> bool
    requires capitals { AllByRecursion IsCapital word.now }
    ensures { result ≡ holds word.now (str_to_ascii_uppercase text.now) }
{
    let mut i = 0;
    'place: while i < text.len() {
        if begins(word, &text[i..]) {
            return true;
        }
        i += 1;
    }
    begins(word, &text[i..])
}

// The length of the header, and whether EMPTY is after it.
fn header_length(text: &[u8]) -> Option<(usize, bool)>
    ensures { EndsHeader result text.now }
{
    let mut i = 0;
    'place: while i < text.len() {
        if text[i] == b'(' {
            return Some((i, false));
        }
        if begins(b"EMPTY", &text[i..]) {
            return Some((i, true));
        }
        i += 1;
    }
    None
}

fn has_space(text: &[u8]) -> bool
    ensures { result ≡ has_space text.now }
{
    for &byte in text {
        if byte == b' ' || byte == b'\n' || byte == b'\r' || byte == b'\t' {
            return true;
        }
    }
    false
}

fn dimension(rest: &[u8]) -> Dimension
    ensures { result ≡ dim_said (str_to_ascii_uppercase rest.now) }
{
    if holds(b"ZM", rest) {
        Dimension::XYZM
    } else if holds(b"Z", rest) {
        Dimension::XYZ
    } else if holds(b"M", rest) {
        Dimension::XYM
    } else {
        Dimension::XY
    }
}

// What a header names, after which EMPTY stands or not.
fn named<'a>(header: &'a str, by_empty: bool) -> Result<(GeometryType, Dimension), HeaderError<'a>>
    ensures exact { SaysOf result (header_answer header.now by_empty) }
    ensures prefix { IfErr result (λ e. LendsPrefix e header.now) }
{
    if by_empty && !has_space(header.as_bytes()) {
        return Err(HeaderError::NoSpaceBeforeEmpty);
    }
    match kind(header.as_bytes()) {
        Some((kind, rest)) => Ok((kind, dimension(rest))),
        None => Err(HeaderError::UnsupportedPrefix(header)),
    }
}

/// The kind and the dimension that the header of a text names.
///
/// White space of Unicode at the start is dropped. The header ends before the first `(` or the first
/// EMPTY, whichever comes first; EMPTY is looked for as a part of the text, and letters of ASCII
/// count in either case. What the header has after its kind word says the dimension: ZM, else Z,
/// else M, else XY. LINEARRING counts as a LineString.
///
/// A text that can be read as a geometry is answered with that geometry's kind and dimension,
/// whatever memory is there. Much else is answered too, since the text is not read.
///
/// The upstream crate has this call with a `String` for its errors; where the header ends is this
/// project's own choice. ` POINT (10 20.1)` is a Point of XY, `LINEARRING Z(1 2 3)` a LineString
/// of XYZ.
///
/// ```text
/// let (kind, dimension) = infer_type(alloc, "POINT Z EMPTY")?;
/// // a Point of XYZ
/// ```
///
/// # Errors
/// - `NoOpenParen`: there is neither `(` nor EMPTY.
/// - `NoSpaceBeforeEmpty`: EMPTY comes first and no space, LF, CR or TAB stands before it.
/// - `UnsupportedPrefix`: the header begins with no kind word.
/// - `Memory`: the unsupported prefix could not be kept.
pub fn infer_type(alloc: Global, text: &str) -> Result<(GeometryType, Dimension), InferError>
    ensures exact { Infers result (header_rule text.now) }
{
    match infer_header(text) {
        Ok(named) => Ok(named),
        Err(HeaderError::UnsupportedPrefix(prefix)) => match prefix.to_ascii_uppercase(alloc) {
            Ok(prefix) => Err(InferError::UnsupportedPrefix(prefix)),
            Err(error) => Err(InferError::Memory(error)),
        },
        Err(HeaderError::NoSpaceBeforeEmpty) => Err(InferError::NoSpaceBeforeEmpty),
        Err(HeaderError::NoOpenParen) => Err(InferError::NoOpenParen),
    }
}

/// What [`infer_type`] returns, in no memory: the prefix that it refuses is lent from the text, in its own case.
///
/// # Errors
/// As of `infer_type`, but for `Memory`.
pub fn infer_header(text: &str) -> Result<(GeometryType, Dimension), HeaderError<'_>>
    ensures exact { SaysOf result (header_rule text.now) }
    ensures prefix { IfErr result (λ e. LendsPrefixOf e (header_cut (trim_start text.now))) }
{
    let text = text.trim_start();
    match header_length(text.as_bytes()) {
        Some((end, by_empty)) => named(&text[..end], by_empty),
        None => Err(HeaderError::NoOpenParen),
    }
}
