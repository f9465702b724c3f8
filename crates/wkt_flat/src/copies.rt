//! Copies of lists, which can run out of memory.
ghost use Rattle.std.specs.Prelude.{◌≡◌, IfOk, OnOk};
ghost use Rattle.std.specs.Result.{IsOk};
ghost use Rattle.wkt_flat.specs.Tree.{IsOneMore};

use std::alloc::{AllocError, Global};

/// A part whose copy may take memory.
pub trait CopiedPart: Sized {
    /// A copy that is equal.
    ///
    /// # Errors
    /// Out of memory.
    fn copy(&self, alloc: Global) -> Result<Self, AllocError>
        ensures { IfOk result (λ c. c ≡ self.now) };
}

/// The copies of all parts.
///
/// # Errors
/// Out of memory.
pub fn copies<X: CopiedPart + Drop>(alloc: Global, parts: &[X]) -> Result<Vec<X>, AllocError>
    ensures { IfOk result (λ v. v.items ≡ parts.now) }
{
    let mut all = Vec::with_capacity(alloc, parts.len())?;
    for part in parts {
        all.push(part.copy(alloc)?)?;
    }
    Ok(all)
}

/// Adds a copy of a part to a list, as what the part is converted into.
///
/// # Errors
/// Out of memory.
#[inline(never)]
pub fn push_copy_of<X: CopiedPart, G: From<X> + Drop>(
    part: &X,
    alloc: Global,
    copies: &mut Vec<G>,
) -> Result<(), AllocError>
    ensures { OnOk result (IsOneMore (G.from_gives part.now) copies.old.items copies.new.items) }
{
    copies.push(G::from(part.copy(alloc)?))?;
    Ok(())
}

/// Adds a part to a list, as what the part is converted into, if the part was filled: else drops it.
///
/// # Errors
/// Out of memory, here or where the part was filled.
#[inline(never)]
pub fn push_filled<X: Drop, G: From<X> + Drop>(
    filled: Result<(), AllocError>,
    part: X,
    copies: &mut Vec<G>,
) -> Result<(), AllocError>
    ensures filled { OnOk result (IsOk filled) }
    ensures pushed { OnOk result (IsOneMore (G.from_gives part) copies.old.items copies.new.items) }
{
    filled?;
    copies.push(G::from(part))?;
    Ok(())
}
