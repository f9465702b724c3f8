//! The geometry at the front of a text, as a flat value.
ghost use Rattle.wkt_flat.specs.Equal.{coord_eq};
ghost use Rattle.wkt_flat_read.specs.Trees.{AnswersFlat, AnswersFlatText};

use crate::flat_builder::FlatBuilder;
use crate::tree::FlatTree;
use std::alloc::{AllocError, Global};
use wkt_convert::{Flattened, Found};
use wkt_flat::{Geometry, Point};
use wkt_machine::drive::drive;
use wkt_num::{OfType, WktNum};
use wkt_read::{Message, ReadError};
use wkt_sources::{ByteCursor, message_at};

/// What has grown.
///
/// Outlined: only this path zeroes the result slot.
#[inline(always)]
fn answer<T: WktNum>(grown: &mut FlatTree<T>) -> Result<Flattened<T>, ReadError>
    ensures { AnswersFlat (coord_eq T.eq) grown.old result }
{
    answer_outlined(grown)
}

#[inline(never)]
fn answer_outlined<T: WktNum>(grown: &mut FlatTree<T>) -> Result<Flattened<T>, ReadError>
    ensures { AnswersFlat (coord_eq T.eq) grown.old result }
{
    if grown.is_lost() {
        return Err(ReadError::Memory(AllocError));
    }
    match grown.whole() {
        Some(flattened) => Ok(flattened),
        None => Err(ReadError::Memory(AllocError)),
    }
}

/// The geometry at the front of the text, as a flat value, or why it has none. The text is read to the geometry's end
/// before it is.
///
/// # Errors
/// `Text` where no beginning of the text is a geometry, with what was found amiss; `Memory` where memory ran out.
#[inline(always)]
pub fn read_text<T: WktNum>(alloc: Global, text: &str) -> Result<Flattened<T>, ReadError>
    ensures { AnswersFlatText T.read (coord_eq T.eq) text.now result }
{
    // A text of no bytes, as of a blank cell, is refused where the call stands.
    if text.is_empty() {
        return Err(ReadError::Text(Message::Format.text()));
    }
    // Each way hands out its answer by itself, so that a refused text doesn't carry the parts of a geometry.
    match front_of(alloc, text) {
        Ok(flattened) => return Ok(flattened),
        Err(error) => return Err(error),
    }
}

/// The geometry at the front of any text, as a flat value, by the machine. Outlined: only this path zeroes the tree.
#[inline(never)]
fn front_of<T: WktNum>(alloc: Global, text: &str) -> Result<Flattened<T>, ReadError>
    ensures { AnswersFlatText T.read (coord_eq T.eq) text.now result }
{
    let source = ByteCursor::<'_, false>::new(text.as_bytes(), 0);
    let mut tree = FlatTree::new(alloc);
    match drive::<T, ByteCursor<'_, false>, FlatBuilder<'_, T>>(
        source,
        FlatBuilder::new(&mut tree),
    ) {
        Ok(over) => {
            let grown = over.builder.into_tree();
            // Most geometries are points: their parts are written where they stay.
            if let Some(coord) = grown.lone() {
                return Ok(Flattened::Other(Geometry::Point(Point(coord)), Found::Point));
            }
            answer(grown)
        }
        Err(stop) => {
            let said = message_at(OfType::<T>::new(), stop.machine, text, stop.source.at);
            Err(ReadError::Text(said.text()))
        }
    }
}
