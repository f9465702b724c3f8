//! The calls of the rows, by their names, and what they give, in words.
use crate::dialects::in_dialects;
use crate::flat_calls::{becomes, converted, flat_of};
use crate::json_calls::json_given;
use crate::made::{built, canonical, lines, pushed};
use crate::numbers::{answer_of, number_of};
use crate::parts::{flat_of_whole, held, lexemes, message, place};
use crate::table::said;
use std::alloc::{AllocError, Global};
use std::fmt::Display;
use wkt::{
    AnyError, Decimal, FromWktStr, ReadError, ToWkt, Wkt, canonical_into, canonical_text, explain,
    front_end, infer_type, read_whole, same_geometry,
};
use wkt_values::read_text;

/// The number type of the rows that name none.
pub(crate) type Number = Decimal<6>;

/// What the call of that name gives of a text, in words; `of` is the type or the other text that it is asked for.
///
/// # Errors
/// That of the call.
pub(crate) fn given(alloc: Global, call: &str, of: &str, text: &str) -> Result<String, AnyError> {
    match call {
        "answer" => answer_of(alloc, of, text),
        "read_number" => number_of(alloc, of, text),
        "same_geometry" => same(alloc, of, text),
        "try_from_wkt_str" => flat_of(alloc, of, text),
        "push" => pushed(alloc, of, text),
        "in_dialects" => in_dialects(alloc, of, text),
        "wkt_from_value" | "deserialize_geometry" | "deserialize_wkt" | "deserialize_point" => {
            json_given(alloc, call, of, text)
        }
        _ => of_text(alloc, call, text),
    }
}

/// What a call returns that is asked for nothing but a text.
fn of_text(alloc: Global, call: &str, text: &str) -> Result<String, AnyError> {
    match call {
        "read_front" => front(alloc, text),
        "read_whole" => shown(alloc, read_whole::<Number>(alloc, text)),
        "flat_of_whole" => flat_of_whole(alloc, text),
        "canonical_text" => canonical_by_each(alloc, text),
        "front_end" => end_by_each(alloc, text),
        "held" => held(alloc, text),
        "lexemes" => Ok(lexemes(alloc, text)?),
        "infer_type" => header(alloc, text),
        "convert_from" => converted(alloc, text),
        "kinds" => becomes(alloc, text),
        "into_canonical" => canonical(alloc, text),
        "literals" => built(alloc, text),
        "lines" => lines(alloc, text),
        "explain" => place(alloc, text),
        "explained" => shown_if_any(alloc, explain::<Number>(text)),
        "explain_message" => message(alloc, text),
        _ => Ok(String::from_str(alloc, "no such call")?),
    }
}

/// The geometry at the front of a text, and where it ends.
fn front(alloc: Global, text: &str) -> Result<String, AnyError> {
    let (geometry, end) = Wkt::<Number>::read_front(alloc, text)?;
    Ok(format!(in alloc; "{geometry} {end}")?)
}

/// The canonical text of the front of a text, or the message, if a buffer gets the same, or nothing.
fn canonical_by_each(alloc: Global, text: &str) -> Result<String, AnyError> {
    let made = canonical_text::<Number>(alloc, text);
    let mut buffer = [0u8; 400];
    let written = canonical_into::<Number>(text, &mut buffer);
    let agree = match (&made, &written) {
        (Ok(made), Ok(Some(written))) => {
            front_end::<Number>(text) == Some(written.end)
                && buffer.get(..written.len) == Some(made.as_bytes())
        }
        (Err(ReadError::Text(_)), Ok(None)) | (Err(ReadError::Memory(_)), _) => true,
        _ => false,
    };
    if agree {
        shown(alloc, made)
    } else {
        differ(alloc)
    }
}

/// Where the front of a text ends, or none, if it does by its bytes and by its value.
fn end_by_each(alloc: Global, text: &str) -> Result<String, AnyError> {
    let by_value = match read_text::<Number>(alloc, text) {
        Ok((_, end)) => Some(end),
        Err(ReadError::Text(_)) => None,
        Err(ReadError::Memory(error)) => return Err(AnyError::Memory(error)),
    };
    let end = front_end::<Number>(text);
    if by_value == end {
        shown_if_any(alloc, end)
    } else {
        differ(alloc)
    }
}

/// What two calls gave, if they gave the same.
pub(crate) fn agreed(
    alloc: Global,
    one: Result<String, AnyError>,
    other: Result<String, AnyError>,
) -> Result<String, AnyError> {
    let one = said(alloc, one)?;
    let other = said(alloc, other)?;
    if one == other { Ok(one) } else { differ(alloc) }
}

/// What is given where calls that must agree don't: no row wants it.
fn differ(alloc: Global) -> Result<String, AnyError> {
    Ok(String::from_str(alloc, "the calls differ")?)
}

/// The kind and the dimension that the header of a text names.
fn header(alloc: Global, text: &str) -> Result<String, AnyError> {
    let (kind, dimension) = infer_type(alloc, text)?;
    Ok(format!(in alloc; "{kind:?} {dimension:?}")?)
}

/// Whether two texts name one geometry, if both ways round it is said so, and by their texts too.
fn same(alloc: Global, one: &str, other: &str) -> Result<String, AnyError> {
    let one = Wkt::<Number>::from_str(alloc, one)?;
    same_as(alloc, &one, other)
}

fn same_as(alloc: Global, one: &Wkt<Number>, other: &str) -> Result<String, AnyError> {
    let other = Wkt::<Number>::from_str(alloc, other)?;
    Ok(same_by_texts(alloc, one, &other)?)
}

fn same_by_texts(
    alloc: Global,
    one: &Wkt<Number>,
    other: &Wkt<Number>,
) -> Result<String, AllocError> {
    let text = one.to_string(alloc)?;
    let texts = shows(alloc, other, &text)?;
    let same = same_geometry(one, other);
    if same_geometry(other, one) != same || texts != same {
        return String::from_str(alloc, "the calls differ");
    }
    format!(in alloc; "{same}")
}

/// What was made, as it is displayed.
pub(crate) fn shown<G: Display + Drop, E: Drop>(
    alloc: Global,
    made: Result<G, E>,
) -> Result<String, AnyError>
where
    AnyError: From<E>,
{
    Ok(made?.to_string(alloc)?)
}

/// What there is, as it is displayed, or `none`.
pub(crate) fn shown_if_any<G: Display + Drop>(
    alloc: Global,
    made: Option<G>,
) -> Result<String, AnyError> {
    match made {
        Some(made) => Ok(made.to_string(alloc)?),
        None => Ok(String::from_str(alloc, "none")?),
    }
}

/// The text of the two-dimensional geometry that was made.
pub(crate) fn flat_shown<G: ToWkt<Number> + Drop, E: Drop>(
    alloc: Global,
    made: Result<G, E>,
) -> Result<String, AnyError>
where
    AnyError: From<E>,
{
    Ok(made?.wkt_string(alloc)?)
}

/// The text of the two-dimensional geometry that was made, or the words of the error.
pub(crate) fn flat_or_words<G: ToWkt<Number> + Drop, E: Display + Drop>(
    alloc: Global,
    made: Result<G, E>,
) -> Result<String, AnyError> {
    match made {
        Ok(flat) => Ok(flat.wkt_string(alloc)?),
        Err(error) => Ok(error.to_string(alloc)?),
    }
}

/// Whether that is what a value displays.
pub(crate) fn shows<G: Display>(alloc: Global, value: &G, want: &str) -> Result<bool, AllocError> {
    let text = value.to_string(alloc)?;
    Ok(text.as_str() == want)
}
