//! A source read to its end.
ghost use Rattle.std.specs.Prelude.{◌≡◌, ℕ, List, [], ◌∷◌, ◌++◌, IfOk, OnOk, OnErr, Option};
ghost use Rattle.std.specs.Io.KnownBytes.{Consumes, IsAtEnd};
ghost use Rattle.wkt_num.specs.Sink.{next_count};
ghost use Rattle.wkt_bytes.specs.Sinks.{OnRead, UnlessRead};

use crate::sinks::ByteSource;
use std::alloc::{AllocError, Global};
use std::io;
use thiserror::Error;

/// Why a source wasn't read to its end.
#[derive(Debug, Drop, Error)]
pub enum ReadAllError {
    /// The source failed. Nothing is tried again, `Interrupted` neither.
    #[error("{0}")]
    Read(io::Error),
    /// Memory ran out.
    #[error("out of memory")]
    Memory(AllocError),
}

/// All bytes that are left in the source, read in pieces of at most 64 KiB.
///
/// # Errors
/// The source's first error, or out of memory. What was read till then is dropped.
pub fn read_all<R: ByteSource>(alloc: Global, reader: &mut R) -> Result<Vec<u8>, ReadAllError>
    ensures bytes { IfOk result (λ v. Consumes (R.left reader.old) (R.left reader.new) v.items) }
    ensures end { OnOk result (IsAtEnd (R.left reader.new)) }
    ensures read { OnRead result (R.failures reader.new ≡ next_count (R.failures reader.old)) }
    ensures count { UnlessRead result (R.failures reader.new ≡ R.failures reader.old) }
{
    let mut all = Vec::new(alloc);
    let mut buf = [0u8; 65536];
    'turns: loop {
        match reader.take(&mut buf) {
            Err(e) => return Err(ReadAllError::Read(e)),
            Ok(0) => return Ok(all),
            Ok(n) => {
                if let Err(e) = all.extend_from_slice(&buf[..n]) {
                    return Err(ReadAllError::Memory(e));
                }
            }
        }
    }
}
