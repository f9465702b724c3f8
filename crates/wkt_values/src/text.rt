//! The geometry at the front of a text, as a value.
ghost use Rattle.wkt_values.specs.Values.{AnswersText};

use crate::tree::{Tree, WktBuilder};
use crate::value::answer;
use std::alloc::Global;
use wkt_machine::drive::drive;
use wkt_num::{OfType, WktNum};
use wkt_read::{Message, ReadError};
use wkt_sources::{ByteCursor, message_at};
use wkt_types::Wkt;

/// The geometry at the front of the text, and where its last lexeme ends, in bytes: what `Wkt::read_front` returns. It
/// looks at bytes behind the front, and is faster.
///
/// # Errors
/// `Text` where no beginning of the text is a geometry, with what was found amiss; `Memory` where memory ran out.
#[inline(always)]
pub fn read_text<T: WktNum>(alloc: Global, text: &str) -> Result<(Wkt<T>, usize), ReadError>
    ensures { AnswersText T.read text.now result }
{
    // A text of no bytes, as of a blank cell, is refused where the call stands.
    if text.is_empty() {
        return Err(ReadError::Text(Message::Format.text()));
    }
    // Each way hands out its answer by itself, so that a refused text doesn't carry the parts of a geometry.
    match front_of(alloc, text) {
        Ok(found) => return Ok(found),
        Err(error) => return Err(error),
    }
}

/// The geometry at the front of any text, and where its last lexeme ends, by the machine. What it is made of is cleared
/// here.
#[inline(never)]
fn front_of<T: WktNum>(alloc: Global, text: &str) -> Result<(Wkt<T>, usize), ReadError>
    ensures { AnswersText T.read text.now result }
{
    let source = ByteCursor::<'_, false>::new(text.as_bytes(), 0);
    let mut tree = Tree::new(alloc);
    match drive::<T, ByteCursor<'_, false>, WktBuilder<'_, T>>(source, WktBuilder::new(&mut tree)) {
        Ok(over) => {
            let end = over.source.at;
            match answer(over.builder.into_tree()) {
                Ok(geometry) => Ok((geometry, end)),
                Err(error) => Err(ReadError::Memory(error)),
            }
        }
        Err(stop) => {
            let said = message_at(OfType::<T>::new(), stop.machine, text, stop.source.at);
            Err(ReadError::Text(said.text()))
        }
    }
}
