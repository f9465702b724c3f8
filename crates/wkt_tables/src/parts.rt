//! What is read of a text, part by part, and where and why a text is refused.
use crate::calls::{Number, agreed, flat_shown};
use std::alloc::{AllocError, Global};
use wkt::geo_types::Geometry;
use wkt::geo_types_from_wkt::ConvertFrom;
use wkt::tokenizer::Tokens;
use wkt::{AnyError, FromWktStr, Wkt, explain, read_whole};
use wkt_values::read_text;

/// The geometry of a text over whole numbers, with each number where it is held, as Debug shows it, if it is read so by
/// its tokens and by its bytes.
pub(crate) fn held(alloc: Global, text: &str) -> Result<String, AnyError> {
    agreed(alloc, by_tokens(alloc, text), by_bytes(alloc, text))
}

fn by_tokens(alloc: Global, text: &str) -> Result<String, AnyError> {
    let geometry = Wkt::<i32>::from_str(alloc, text)?;
    Ok(format!(in alloc; "{geometry:?}")?)
}

fn by_bytes(alloc: Global, text: &str) -> Result<String, AnyError> {
    let (geometry, _) = read_text::<i32>(alloc, text)?;
    Ok(format!(in alloc; "{geometry:?}")?)
}

/// The two-dimensional geometry that a text is as a whole.
pub(crate) fn flat_of_whole(alloc: Global, text: &str) -> Result<String, AnyError> {
    let whole = read_whole::<Number>(alloc, text)?;
    flat_shown(alloc, Geometry::<Number>::convert_from(alloc, whole))
}

/// The lexemes of a text, each with where it ends and how many bytes were taken then.
pub(crate) fn lexemes(alloc: Global, text: &str) -> Result<String, AllocError> {
    let mut out = String::new(alloc);
    let mut tokens = Tokens::<Number>::from_str(text);
    for _ in 0..1000 {
        if !add_lexeme(alloc, &mut out, &mut tokens)? {
            return Ok(out);
        }
    }
    String::from_str(alloc, "too many lexemes")
}

/// Adds the next lexeme, if there is one.
fn add_lexeme(
    alloc: Global,
    out: &mut String,
    tokens: &mut Tokens<'_, Number>,
) -> Result<bool, AllocError> {
    let Some(lexeme) = tokens.next() else {
        return Ok(false);
    };
    let (end, taken) = (tokens.end(), tokens.taken());
    let line = format!(in alloc; "{lexeme:?} {end} {taken};")?;
    out.push_str(&line)?;
    Ok(true)
}

/// The bytes of the lexeme that is too much and what was expected there, or none.
pub(crate) fn place(alloc: Global, text: &str) -> Result<String, AnyError> {
    match explain::<Number>(text) {
        Some(why) => {
            let (start, end, expected) = (why.start, why.end, why.expected);
            Ok(format!(in alloc; "{start}..{end} {expected:?}")?)
        }
        None => Ok(String::from_str(alloc, "none")?),
    }
}

/// The message and the lexeme over whole numbers, or none.
pub(crate) fn message(alloc: Global, text: &str) -> Result<String, AnyError> {
    match explain::<i32>(text) {
        Some(why) => {
            let lexeme = why.text.get(why.start..why.end).unwrap_or("");
            Ok(format!(in alloc; "{}: {lexeme}", why.message)?)
        }
        None => Ok(String::from_str(alloc, "none")?),
    }
}
