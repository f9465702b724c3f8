//! Display of geometries: as text, whatever width, fill or precision is asked for.
ghost use Rattle.wkt_access.specs.Parts.{collection_of};
ghost use Rattle.wkt_types.specs.Shown.{Shows, SendsShape};

use std::fmt;
use std::fmt::Formatter;
use wkt_access::{GeometryCollectionTrait, GeometryTrait};
use wkt_bytes::GatheredText;
use wkt_num::{FormatterText, TextSink, WktNum};
use wkt_write::{write_geometry, write_geometry_collection};

// Gives a sink the text of a geometry, gathered: a string that it goes to grows once for many numbers.
fn send_geometry<S: TextSink, G: GeometryTrait>(sink: S, g: &G) -> (S, fmt::Result)
    ensures { SendsShape S.sink G.T.num (G.shape g.now) sink result.1 result.0 }
{
    let mut gathered = GatheredText::new(sink);
    match write_geometry(&mut gathered, g) {
        Ok(()) => {
            let sent = gathered.finish();
            (gathered.into_sink(), sent)
        }
        Err(_) => (gathered.into_sink(), Err(fmt::Error)),
    }
}

// Gives a sink the text of a collection, gathered.
fn send_collection<S: TextSink, C: GeometryCollectionTrait>(sink: S, c: &C) -> (S, fmt::Result)
    ensures { SendsShape S.sink C.T.num (collection_of (C.dimension c.now) (C.geometries c.now)) sink result.1 result.0 }
{
    let mut gathered = GatheredText::new(sink);
    match write_geometry_collection(&mut gathered, c) {
        Ok(()) => {
            let sent = gathered.finish();
            (gathered.into_sink(), sent)
        }
        Err(_) => (gathered.into_sink(), Err(fmt::Error)),
    }
}

/// Displays a geometry as the text that `write_geometry` writes.
pub(crate) fn show_geometry<W: fmt::Write, G: GeometryTrait>(
    g: &G,
    f: &mut Formatter<W>,
) -> fmt::Result
    ensures { Shows W.write_str_gives G.T.num (G.shape g.now) f.old result f.new }
{
    let (sink, result) = send_geometry(FormatterText::new(f), g);
    // No effect at run time. The proof reads what `f` holds from the reference that comes back.
    sink.into_formatter();
    result
}

/// Displays a collection as the text that `write_geometry_collection` writes.
pub(crate) fn show_collection<W: fmt::Write, C: GeometryCollectionTrait>(
    c: &C,
    f: &mut Formatter<W>,
) -> fmt::Result
    ensures { Shows W.write_str_gives C.T.num (collection_of (C.dimension c.now) (C.geometries c.now))
        f.old result f.new }
{
    let (sink, result) = send_collection(FormatterText::new(f), c);
    // No effect at run time. The proof reads what `f` holds from the reference that comes back.
    sink.into_formatter();
    result
}
