//! Lists of parts, which grow.
ghost use Rattle.std.specs.Prelude.{◌≡◌, ◌++◌, ◌∷◌, [], if◌then◌else◌, None};

use std::alloc::Global;
use std::mem;
use wkt_num::WktNum;
use wkt_types::Coord;

/// The list, in whose place a new one stands.
#[inline(always)]
pub fn taken<V>(list: &mut Vec<V>, alloc: Global) -> Vec<V>
    ensures value { result ≡ list.old }
    ensures after { list.new.items ≡ [] }
{
    mem::replace(list, Vec::new(alloc))
}

/// Adds an item; or there was no memory for it.
#[inline(always)]
pub fn add<V: Drop>(list: &mut Vec<V>, item: V) -> bool
    ensures { list.new.items ≡ (if result then list.old.items ++ item ∷ [] else list.old.items) }
{
    match list.push(item) {
        Ok(()) => true,
        Err(_) => false,
    }
}

/// Adds a coordinate of two numbers; or there was no memory for it.
#[inline(never)]
pub(crate) fn add_flat<T: WktNum>(list: &mut Vec<Coord<T>>, x: T, y: T) -> bool
    ensures { list.new.items ≡ (if result then list.old.items ++ record { x = x; y = y; z = None; m = None } ∷ [] else list.old.items) }
{
    match list.push(Coord {
        x,
        y,
        z: None,
        m: None,
    }) {
        Ok(()) => true,
        Err(_) => false,
    }
}

/// Adds an item, with room for it alone; or there was no memory for it.
#[inline(always)]
fn add_last<V: Drop>(list: &mut Vec<V>, item: V) -> bool
    ensures { list.new.items ≡ (if result then list.old.items ++ item ∷ [] else list.old.items) }
{
    match list.reserve_exact(1) {
        Ok(()) => add(list, item),
        Err(_) => false,
    }
}

/// Adds an item to those before it, the last one with room for itself alone.
#[inline(always)]
pub fn add_one<V: Drop>(list: &mut Vec<V>, item: V, is_last: bool) -> bool
    ensures { list.new.items ≡ (if result then list.old.items ++ item ∷ [] else list.old.items) }
{
    if is_last {
        add_last(list, item)
    } else {
        add(list, item)
    }
}
