//! A text builder's bytes as a sink of text.

use std::fmt;
use wkt_num::TextSink;

/// A text builder's bytes as a sink, which fails where a piece has no room.
#[derive(Drop)]
pub(crate) struct Space<'a> {
    pub(crate) out: &'a mut [u8],
    pub(crate) len: usize,
    pub(crate) failures: u64,
}

impl TextSink for Space<'_> {
    ghost use Rattle.wkt_canonical.specs.Spaces.{space_sink};

    ghost sink = { space_sink };

    fn write_str(&mut self, piece: &str) -> fmt::Result {
        let whole = self.out.len();
        if self.len > whole || piece.len() > whole - self.len {
            self.failures = self.failures.wrapping_add(1);
            return Err(fmt::Error);
        }
        let end = self.len + piece.len();
        let out = &mut *self.out;
        out[self.len..end].copy_from_slice(piece.as_bytes());
        self.len = end;
        Ok(())
    }
}
