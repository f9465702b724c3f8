//! A flat polygon read from a source of bytes, and written to a sink of bytes.
ghost use Rattle.std.specs.Prelude.{◌≡◌, OnOk, IfSome, Err};
ghost use Rattle.wkt.specs.Sink.{next_count};
ghost use Rattle.wkt.specs.FromText.{BytesAnswerKind};
ghost use Rattle.wkt.specs.FlatKinds.{polygon_kind};
ghost use Rattle.wkt_examples.specs.Copied.{IfRead, OnWrite, IsCopied, IsPartCopied};

use std::alloc::Global;
use thiserror::Error;
use wkt::geo_types::Polygon;
use wkt::geo_types_from_wkt::Error as ConvertError;
use wkt::to_wkt::{ByteSink, ByteSource};
use wkt::{ToWkt, ToWktError, TryFromWkt, WktNum};

/// Why a polygon wasn't copied.
#[derive(Debug, Drop, Error)]
pub enum CopyError {
    /// It wasn't read.
    #[error("{0}")]
    Read(ConvertError),
    /// It wasn't written whole.
    #[error("{0}")]
    Write(ToWktError),
}

/// Writes the polygon at the front of the text that the source holds: without z and m, its rings
/// closed.
///
/// # Errors
/// `Read` where the source failed, its bytes are no text, or the text doesn't begin with a polygon: then nothing
/// is out. `Write` where the sink failed: then a beginning of the polygon's text is out.
pub fn copy_polygon<T: WktNum, R: ByteSource, W: ByteSink>(
    alloc: Global,
    reader: &mut R,
    writer: &mut W,
) -> Result<(), CopyError>
    ensures copied { OnOk result (IfSome (R.left reader.old)
        (IsCopied T.read T.num T.eq (W.sink.bytes writer.old) (W.sink.bytes writer.new))) }
    ensures refused { IfSome (R.left reader.old) (λ bs. IfRead result
        (λ e. BytesAnswerKind T.read T.eq polygon_kind bs (Err e))) }
    ensures read { IfRead result (λ _. writer.new ≡ writer.old) }
    ensures written { OnWrite result (IfSome (R.left reader.old)
        (IsPartCopied T.read T.num T.eq (W.sink.bytes writer.old) (W.sink.bytes writer.new))) }
    ensures write_count { OnWrite result (W.sink.failures writer.new ≡ next_count (W.sink.failures writer.old)) }
{
    let polygon = match Polygon::<T>::try_from_wkt_reader(alloc, reader) {
        Ok(polygon) => polygon,
        Err(error) => return Err(CopyError::Read(error)),
    };
    match polygon.write_wkt(alloc, writer) {
        Ok(()) => Ok(()),
        Err(error) => Err(CopyError::Write(error)),
    }
}
