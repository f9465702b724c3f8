//! The geometry that comes next, as a value.
ghost use Rattle.std.specs.Prelude.{◌≤◌, length, IfOk};
ghost use Rattle.wkt_types.specs.Tree.{tree};
ghost use Rattle.wkt_values.specs.Trees.{tree_of};
ghost use Rattle.wkt_values.specs.Values.{AnswersTree, IsRead, OnRefused, OnMemory, WantsMemory};
ghost use Rattle.wkt_sources.specs.Taken.{MachineRefuses};

use crate::tree::{Tree, WktBuilder};
use std::alloc::{AllocError, Global};
use wkt_machine::drive::drive;
use wkt_machine::{FastSource, Machine, Progress};
use wkt_num::WktNum;
use wkt_types::{Coord, Point, Wkt};

/// Why there is no value.
#[derive(Drop)]
pub enum Unread {
    /// No geometry comes next. The machine stands before the lexeme with which it doesn't move.
    Refused(Machine),
    /// Memory ran out.
    Memory(AllocError),
}

/// What has grown.
#[inline(always)]
pub(crate) fn answer<T: WktNum>(tree: &mut Tree<T>) -> Result<Wkt<T>, AllocError>
    ensures { AnswersTree tree.old result }
{
    // Most geometries are points of two numbers: their parts are written where they stay.
    if let Some((x, y)) = tree.pair() {
        let coord = Coord {
            x,
            y,
            z: None,
            m: None,
        };
        return Ok(Wkt::Point(Point::new(Some(coord), tree.dim())));
    }
    answer_outlined(tree)
}

/// Outlined: only this path zeroes the result slot.
#[inline(never)]
fn answer_outlined<T: WktNum>(tree: &mut Tree<T>) -> Result<Wkt<T>, AllocError>
    ensures { AnswersTree tree.old result }
{
    if tree.is_lost() {
        return Err(AllocError);
    }
    Ok(tree.geometry())
}

/// The geometry that comes next, and the source behind it; or before the lexeme at which it is refused.
///
/// # Errors
/// `Refused` where no geometry comes next; `Memory` where memory ran out, which a point and what is EMPTY don't need.
#[inline(always)]
pub fn read<T: WktNum, S: FastSource<T>>(alloc: Global, source: S) -> (Result<Wkt<T>, Unread>, S)
    requires room { length (S.view.remaining source) ≤ usize.MAX }
    ensures found { IfOk result.0 (λ w. IsRead T.read S.view source (tree w) result.1) }
    ensures refused { OnRefused result.0 (λ m. MachineRefuses T.read S.view source m result.1) }
    ensures memory { OnMemory result.0 (WantsMemory T.read S.view source result.1) }
{
    let mut tree = Tree::new(alloc);
    match drive::<T, S, WktBuilder<'_, T>>(source, WktBuilder::new(&mut tree)) {
        Ok(over) => {
            let Progress {
                source,
                builder,
                ..
            } = over;
            match answer(builder.into_tree()) {
                Ok(geometry) => (Ok(geometry), source),
                Err(error) => (Err(Unread::Memory(error)), source),
            }
        }
        Err(at) => {
            let Progress {
                source,
                machine,
                ..
            } = at;
            (Err(Unread::Refused(machine)), source)
        }
    }
}
