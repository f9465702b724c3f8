//! Text out to byte sinks.
ghost use Rattle.std.specs.Prelude.{◌≡◌, [], Some, true};
ghost use Rattle.wkt_bytes.specs.Wrapper.{is_well, held_bytes, wrapped_writer};
ghost use Rattle.wkt_access.specs.Shapes.{Shape};
ghost use Rattle.wkt_access.specs.Faults.{fault};
ghost use Rattle.wkt_write.specs.Writes.{Writes};
ghost use Rattle.wkt_convert.specs.Sent.{Sends, IfShape};

use std::io;
use thiserror::Error;
use wkt_access::Error as WriteError;
use wkt_bytes::{ByteSink, WriterWrapper, error_of};
use wkt_num::{TextSink, WktNum};

/// Why a text didn't go out whole.
#[derive(Debug, Drop, Error)]
pub enum ToWktError {
    /// The geometry has no text, or it is out of memory. Nothing went out.
    #[error("{0}")]
    Shape(WriteError),
    /// The writer failed, or took nothing (`WriteZero`). A beginning of the text went out.
    #[error("{0}")]
    Io(io::Error),
}

/// A geometry that one of the writers writes.
pub(crate) trait Written {
    type T: WktNum;

    /// Its shape.
    ghost shape: { Self → Shape Self.T };

    /// Writes its text.
    fn write_text<W: TextSink>(&self, f: &mut W) -> Result<(), WriteError>
        ensures { Writes W.sink Self.T.is_value Self.T.num f.old (shape self.now) f.new result };
}

/// Writes a geometry through a wrapper that holds nothing.
fn send_through<G: Written, W: ByteSink>(
    g: &G,
    wrapper: &mut WriterWrapper<W>,
) -> Result<(), ToWktError>
    requires well { is_well wrapper.old ≡ true }
    requires held { held_bytes wrapper.old ≡ [] }
    ensures sends { Sends W.sink G.T.is_value G.T.num (wrapped_writer wrapper.old) (G.shape g.now) (wrapped_writer wrapper.new)
        result }
    ensures cause { IfShape result (λ e. fault (G.shape g.now) ≡ Some e) }
    ensures keeps { W.sink.keeps (wrapped_writer wrapper.old) (wrapped_writer wrapper.new) }
{
    match g.write_text(wrapper) {
        Ok(()) => match wrapper.finish() {
            Ok(()) => Ok(()),
            Err(_) => Err(ToWktError::Io(error_of(wrapper))),
        },
        Err(WriteError::FmtError(_)) => Err(ToWktError::Io(error_of(wrapper))),
        Err(e) => Err(ToWktError::Shape(e)),
    }
}

/// Puts the text of a geometry out. It takes no memory.
pub(crate) fn send<G: Written, W: ByteSink>(g: &G, writer: &mut W) -> Result<(), ToWktError>
    ensures sends { Sends W.sink G.T.is_value G.T.num writer.old (G.shape g.now) writer.new result }
    ensures cause { IfShape result (λ e. fault (G.shape g.now) ≡ Some e) }
{
    let mut wrapper = WriterWrapper::new(writer);
    let answer = send_through(g, &mut wrapper);
    wrapper.into_writer();
    answer
}
