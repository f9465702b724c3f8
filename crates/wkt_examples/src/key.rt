//! A key for a table: the one text of a geometry, which reads back as the geometry.
ghost use Rattle.std.specs.Prelude.{◌≡◌, IfOk, None, OnOk, Some, length, string_bytes};
ghost use Rattle.wkt.specs.Shapes.{canon};
ghost use Rattle.wkt.specs.Faults.{fault};
ghost use Rattle.wkt.specs.Texts.{shape_text};
ghost use Rattle.wkt.specs.Writes.{IfFault, OnFmtError};
ghost use Rattle.wkt.specs.Front.{Front};

use std::alloc::Global;
use wkt::error::Error;
use wkt::geo_traits::GeometryTrait;
use wkt::laws::reads_back;
use wkt::to_wkt::push_geometry;

/// The key of a geometry in any representation: its text. Two geometries over one number type have
/// one key exactly if their canonical values are equal (`wkt::laws::one_text`).
///
/// # Errors
/// The first error of the geometry, in the order of its text; `FmtError` when out of memory.
pub fn key<G: GeometryTrait>(alloc: Global, geometry: &G) -> Result<String, Error>
    ensures text { IfOk result (λ s. string_bytes s ≡ shape_text G.T.num (G.shape geometry.now)) }
    ensures reads_back { IfOk result
        (λ s. Front G.T.read (string_bytes s) (canon (G.shape geometry.now)) (length (string_bytes s))) }
    ensures sound { OnOk result (fault (G.shape geometry.now) ≡ None) }
    ensures fault { IfFault result (λ e. fault (G.shape geometry.now) ≡ Some e) }
    ensures memory { OnFmtError result (fault (G.shape geometry.now) ≡ None) }
{
    let mut text = String::new(alloc);
    push_geometry(&mut text, geometry)?;
    // No effect at run time. The proof reads that a text reads back.
    reads_back::<G::T>();
    Ok(text)
}
