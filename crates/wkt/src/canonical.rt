//! The canonical text of a text, as a string.
ghost use Rattle.std.specs.Prelude.{◌≡◌, IfOk, IsUtf8, string_bytes};
ghost use Rattle.wkt_read.specs.Answered.{HasBadNumber, OnText, OnMessage};
ghost use Rattle.wkt_read.specs.Front.{HasNoFront};
ghost use Rattle.wkt_read.specs.Items.{bad_number};
ghost use Rattle.wkt_read.specs.Refusal.{IsRefusedWith, IsTextRefused, IfText};
ghost use Rattle.wkt_canonical.specs.Canonical.{IsCanonical};

use std::alloc::{AllocError, Global};
use wkt_canonical::{NoRoom, TextWritten, canonical_or_message_outlined, write_growing};
use wkt_explain::message;
use wkt_num::{OfType, WktNum};
use wkt_read::{Message, ReadError};

// Shorter texts are written to an array first: room for twice the text would be allocated, cut and freed.
const SHORT_TEXT: usize = 64;

const SHORT_ROOM: usize = 2 * SHORT_TEXT + 65;

/// These bytes as a string, in one allocation of their length.
fn string_of(alloc: Global, bytes: &[u8]) -> Result<String, AllocError>
    requires { IsUtf8 bytes.now }
    ensures { IfOk result (λ s. string_bytes s ≡ bytes.now) }
{
    let mut copied = Vec::with_capacity(alloc, bytes.len())?;
    copied.extend_from_slice(bytes)?;
    Ok(unsafe { String::from_utf8_unchecked(copied) })
}

/// The message of a text that has no geometry at its front: such a text is always refused.
#[cold]
#[inline(never)]
fn message_of<T: WktNum>(text: &str) -> Message
    requires { HasNoFront T.read text.now }
    ensures { IsRefusedWith T.read text.now result }
{
    message(OfType::<T>::new(), text)
}

/// The canonical text of the geometry at the front of the text. Texts of one geometry have the same, and texts of two
/// geometries have different ones: so it serves as a key.
///
/// No geometry is built on the way: it takes the string's memory alone, and no stack for nesting.
///
/// ```text
/// canonical_text::<Decimal<6>>(alloc, "point z (1.50 2 -0) and more")? // POINT Z(1.5 2 0)
/// ```
///
/// # Errors
/// `Text` only where no beginning of the text is a geometry, with the message of `from_str`; `Memory` where memory ran out.
/// The text is written as it is read, so a refused text of more than 64 bytes can be `Memory` too.
pub fn canonical_text<T: WktNum>(alloc: Global, text: &str) -> Result<String, ReadError>
    ensures text { IfOk result (λ s. IsCanonical T.read T.num text.now (string_bytes s)) }
    ensures no_front { OnText result (HasNoFront T.read text.now) }
    ensures bad { OnMessage result bad_number (HasBadNumber T.read text.now) }
    ensures refusal { IfText result (λ said. IsTextRefused T.read text.now said) }
{
    // A text of no bytes, as of a blank cell, is refused before anything is walked.
    if text.is_empty() {
        return Err(ReadError::Text(Message::Format.text()));
    }
    if text.len() <= SHORT_TEXT {
        let mut near = [0u8; SHORT_ROOM];
        match canonical_or_message_outlined(OfType::<T>::new(), text, &mut near) {
            Ok(Ok(TextWritten { end: _, len })) => return Ok(string_of(alloc, &near[..len])?),
            Ok(Err(message)) => return Err(ReadError::Text(message.text())),
            Err(NoRoom) => {}
        }
    }
    let mut bytes = Vec::new(alloc);
    match write_growing(OfType::<T>::new(), text, &mut bytes)? {
        Some(TextWritten { end: _, len }) => {
            bytes.truncate(len);
            bytes.shrink_to_fit();
            Ok(unsafe { String::from_utf8_unchecked(bytes) })
        }
        None => Err(ReadError::Text(message_of::<T>(text).text())),
    }
}
