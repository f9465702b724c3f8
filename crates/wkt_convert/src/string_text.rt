//! Text into a string.
ghost use Rattle.std.specs.Prelude.{◌≡◌, IfOk, IfErr, OnOk, None, string_bytes};
ghost use Rattle.wkt_access.specs.Texts.{shape_text};
ghost use Rattle.wkt_access.specs.Faults.{fault};
ghost use Rattle.wkt_access.specs.WellFormed.{IsLawful};
ghost use Rattle.wkt_write.specs.Writes.{Writes, Pushes};
ghost use Rattle.wkt_convert.specs.Sent.{IsRefusal};

use crate::send::Written;
use std::alloc::{AllocError, Global};
use wkt_access::Error;
use wkt_bytes::GatheredText;
use wkt_num::{StringText, TextSink, WktNum};

// Writes the text of a geometry gathered: a string that it goes to grows once for many numbers.
fn write_gathered<S: TextSink, G: Written>(sink: S, g: &G) -> (S, Result<(), Error>)
    ensures { Writes S.sink G.T.is_value G.T.num sink (G.shape g.now) result.0 result.1 }
{
    let mut gathered = GatheredText::new(sink);
    match g.write_text(&mut gathered) {
        Ok(()) => match gathered.finish() {
            Ok(()) => (gathered.into_sink(), Ok(())),
            Err(e) => (gathered.into_sink(), Err(Error::FmtError(e))),
        },
        Err(e) => (gathered.into_sink(), Err(e)),
    }
}

/// Adds the text of a geometry to a string. A piece that there is no memory for is no part of it.
#[tactic(auto, using(wkt_write::proofs::Writable::pushed))]
fn push_text<G: Written>(out: &mut String, g: &G) -> Result<(), Error>
    ensures { Pushes G.T.is_value G.T.num (string_bytes out.old) (G.shape g.now) (string_bytes out.new) result }
{
    let into = StringText::new(out);
    let (sink, result) = write_gathered(into, g);
    sink.into_string();
    result
}

/// The text of a geometry. A refused allocation of the string is `Memory`.
pub(crate) fn string_of<G: Written>(alloc: Global, g: &G) -> Result<String, Error>
    ensures text { IfOk result (λ s. string_bytes s ≡ shape_text G.T.num (G.shape g.now)) }
    ensures sound { OnOk result (fault (G.shape g.now) ≡ None) }
    ensures lawful { OnOk result (IsLawful G.T.is_value (G.shape g.now)) }
    ensures refused { IfErr result (IsRefusal (G.shape g.now)) }
{
    let mut text = String::new(alloc);
    match push_text(&mut text, g) {
        Ok(()) => Ok(text),
        Err(Error::FmtError(_)) => Err(Error::Memory(AllocError)),
        Err(e) => Err(e),
    }
}
