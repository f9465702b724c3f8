//! Texts in dialects.
use std::alloc::{AllocError, Global};
use wkt::{AnyError, Decimal, ReadError};
use wkt_dialects::{Dialects, NoRoom, rest_of, write_as_read};
use wkt_values::read_text;

/// What a text is read as in the dialects of these first letters: behind its SRID as it stands, or else as the dialects
/// read it; `refused` where it is neither.
pub(crate) fn in_dialects(alloc: Global, letters: &str, text: &str) -> Result<String, AnyError> {
    let dialects = Dialects {
        srid: letters.contains('s'),
        untagged: letters.contains('u'),
        exponents: letters.contains('e'),
        nan: letters.contains('n'),
    };
    let text = text.as_bytes();
    let rest = &text[rest_of(dialects, text)..];
    match as_it_stands(alloc, rest)? {
        Some(read) => Ok(read),
        None => rewritten(alloc, dialects, rest),
    }
}

fn rewritten(alloc: Global, dialects: Dialects, rest: &[u8]) -> Result<String, AnyError> {
    let mut other = Vec::new(alloc);
    match write_as_read(dialects, rest, &mut other) {
        Ok(()) => match as_it_stands(alloc, &other)? {
            Some(read) => Ok(read),
            None => Ok(String::from_str(alloc, "refused")?),
        },
        Err(NoRoom) => Err(AnyError::Memory(AllocError)),
    }
}

/// The geometry at the front, if there is one.
fn as_it_stands(alloc: Global, text: &[u8]) -> Result<Option<String>, AnyError> {
    let Ok(text) = str::from_utf8(text) else {
        return Ok(Some(String::from_str(alloc, "no UTF-8")?));
    };
    match read_text::<Decimal<18>>(alloc, text) {
        Ok((geometry, _)) => Ok(Some(geometry.to_string(alloc)?)),
        Err(ReadError::Text(_)) => Ok(None),
        Err(ReadError::Memory(error)) => Err(AnyError::Memory(error)),
    }
}
