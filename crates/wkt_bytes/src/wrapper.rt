//! Text to a byte sink, gathered in an array.
ghost use Rattle.std.specs.Prelude.{◌≡◌, ◌≤◌, ◌<◌, ◌+◌, ◌*◌, [], ◌++◌, OnOk, OnErr, length, true, Some};
ghost use Rattle.wkt_num.specs.Sink.{Puts};
ghost use Rattle.wkt_bytes.specs.Sinks.{PutsAll};
ghost use Rattle.wkt_bytes.specs.Wrapper.{is_untaken, TakesFault};

use crate::sinks::ByteSink;
use std::io::ErrorKind;
use std::marker::Model;
use std::simd::prelude::*;
use std::{fmt, io};
use wkt_num::TextSink;

/// Whether an error came.
#[derive(Drop)]
enum WrapperState {
    Well,
    Faulty(io::Error),
    Taken,
}

/// Text to a byte sink: a [`TextSink`] that gathers what it is given in an array of 256 bytes, and
/// puts the array out as soon as it is full and in [`finish`](WriterWrapper::finish).
///
/// It calls `put` until all bytes are out. A count of zero is the error `WriteZero`. Nothing is tried
/// again, `Interrupted` neither. After an error every later write and `finish` return `fmt::Error`
/// and write nothing; [`take_fault`](WriterWrapper::take_fault) returns the error.
#[derive(Drop)]
pub struct WriterWrapper<W> {
    writer: W,
    held: [u8; 256],
    len: usize,
    state: WrapperState,
    failures: u64,
}

impl<W> Model for WriterWrapper<W> {
    ghost use Rattle.std.specs.Prelude.{◌≤◌};
    ghost use Rattle.wkt_bytes.specs.Wrapper.{Wrapped};

    ghost Value = { Wrapped W };

    ghost use Rattle.wkt_bytes.specs.Views.{seen};

    ghost view = { seen };

    ghost invariant = { λ w. w.len ≤ 256 };
}

/// Puts all the bytes out: the sink is called until it took them all. It stops at the first error, of which none
/// is tried again, `Interrupted` neither.
///
/// # Errors
/// The sink's, or `WriteZero` where it took nothing; a beginning of the bytes is out then.
pub fn put_all<W: ByteSink>(writer: &mut W, bytes: &[u8]) -> Result<(), io::Error>
    ensures { PutsAll W.sink bytes.now writer.old writer.new result }
{
    let mut at = 0;
    while at < bytes.len() {
        match writer.put(&bytes[at..]) {
            Ok(0) => return Err(io::Error::from(ErrorKind::WriteZero)),
            Ok(n) => at += n,
            Err(e) => return Err(e),
        }
    }
    Ok(())
}

/// Copies a piece to a place of its length. Most pieces are of some ten bytes, and a copy by `copy_from_slice` is a call.
#[inline(always)]
pub fn copy_piece(from: &[u8], to: &mut [u8])
    requires { length to.old ≡ length from.now }
    ensures { to.new ≡ from.now }
{
    let n = from.len();
    if n > 32 {
        to.copy_from_slice(from);
    } else if n >= 16 {
        copy_ends::<16>(from, to);
    } else if n >= 8 {
        copy_ends::<8>(from, to);
    } else if n >= 4 {
        copy_ends::<4>(from, to);
    } else if n >= 2 {
        copy_ends::<2>(from, to);
    } else if n == 1 {
        to[0] = from[0];
    }
}

/// Copies a piece of at most two vectors, its first bytes and its last ones, which overlap.
#[inline(always)]
#[tactic(auto, using(crate::proofs::SinkSteps::both_ends))]
fn copy_ends<const N: usize>(from: &[u8], to: &mut [u8])
    requires long { N ≤ length from.now }
    requires short { length from.now ≤ 2 * N }
    requires room { length to.old ≡ length from.now }
    ensures { to.new ≡ from.now }
{
    let last = from.len() - N;
    Simd::<u8, N>::from_slice(from).copy_to_slice(to);
    Simd::<u8, N>::from_slice(&from[last..]).copy_to_slice(&mut to[last..]);
}

impl<W: ByteSink> WriterWrapper<W> {
    ghost use Rattle.wkt_bytes.specs.Wrapper.{held_bytes, failed_calls, is_well, wrapped_writer, Keeps, Gathers, BreaksOff, TakesFault};

    /// A wrapper of this writer, which holds nothing yet.
    pub fn new(writer: W) -> WriterWrapper<W>
        ensures writer { wrapped_writer result ≡ writer }
        ensures held { held_bytes result ≡ [] }
        ensures well { is_well result ≡ true }
        ensures count { failed_calls result ≡ 0 }
    {
        WriterWrapper {
            writer,
            held: [0; 256],
            len: 0,
            state: WrapperState::Well,
            failures: 0,
        }
    }

    /// Returns the writer. What is held still is lost.
    pub fn into_writer(self) -> W
        ensures { result ≡ wrapped_writer self }
    {
        let WriterWrapper {
            writer,
            held: _,
            len: _,
            state: _,
            failures: _,
        } = self;
        writer
    }

    // How many bytes more the array can hold.
    #[inline(always)]
    fn room(&self) -> usize
        ensures { result + length (held_bytes self.now) ≡ 256 }
    {
        256 - self.held[..self.len].len()
    }

    // Takes the bytes into the array.
    fn keep(&mut self, bytes: &[u8])
        requires { length (held_bytes self.old) + length bytes.now ≤ 256 }
        ensures { Keeps self.old bytes.now self.new }
    {
        let end = self.len + bytes.len();
        copy_piece(bytes, &mut self.held[self.len..end]);
        self.len = end;
    }

    // Takes one byte into the array.
    fn keep_one(&mut self, bytes: &[u8])
        requires one { length bytes.now ≡ 1 }
        requires room { length (held_bytes self.old) < 256 }
        ensures { Keeps self.old bytes.now self.new }
    {
        if let [byte] = bytes {
            self.held[self.len] = *byte;
            self.len += 1;
        }
    }

    // Puts out what the array holds.
    fn empty(&mut self) -> fmt::Result
        requires { is_well self.old ≡ true }
        ensures ok { OnOk result (Gathers W.sink self.old [] self.new) }
        ensures well { OnOk result (is_well self.new ≡ true) }
        ensures held { OnOk result (held_bytes self.new ≡ []) }
        ensures err { OnErr result (BreaksOff W.sink self.old [] self.new) }
        ensures kept { OnErr result (held_bytes self.new ≡ held_bytes self.old) }
        ensures failures { failed_calls self.new ≡ failed_calls self.old }
    {
        match put_all(&mut self.writer, &self.held[..self.len]) {
            Ok(()) => {
                self.len = 0;
                Ok(())
            }
            Err(e) => {
                self.state = WrapperState::Faulty(e);
                Err(fmt::Error)
            }
        }
    }

    // Takes the bytes, and puts out the array each time that it is full. Most pieces just fit.
    #[tactic(auto, using(crate::proofs::SinkSteps::leaves_as_is, crate::proofs::SinkSteps::not_well))]
    fn accept(&mut self, bytes: &[u8]) -> fmt::Result
        ensures ok { OnOk result (Gathers W.sink self.old bytes.now self.new) }
        ensures well { OnOk result (is_well self.old ≡ true) }
        ensures err { OnErr result (BreaksOff W.sink self.old bytes.now self.new) }
        ensures gathered { length (held_bytes self.old) + length bytes.now < 256 → wrapped_writer self.new ≡ wrapped_writer self.old }
        ensures failures { failed_calls self.new ≡ failed_calls self.old }
    {
        let WrapperState::Well = self.state else {
            return Err(fmt::Error);
        };
        // Most pieces just fit. Half of them are one byte.
        if bytes.len() < self.room() {
            if bytes.len() == 1 {
                self.keep_one(bytes);
            } else {
                self.keep(bytes);
            }
            return Ok(());
        }
        self.accept_long(bytes)
    }

    // Takes a piece that fills the array, and puts the array out each time that it is full.
    #[inline(never)]
    fn accept_long(&mut self, bytes: &[u8]) -> fmt::Result
        requires { is_well self.old ≡ true }
        ensures ok { OnOk result (Gathers W.sink self.old bytes.now self.new) }
        ensures err { OnErr result (BreaksOff W.sink self.old bytes.now self.new) }
        ensures failures { failed_calls self.new ≡ failed_calls self.old }
    {
        let mut at = 0;
        while at < bytes.len() {
            let next = at + self.room().min(bytes.len() - at);
            self.keep(&bytes[at..next]);
            at = next;
            if self.room() == 0 {
                self.empty()?;
            }
        }
        Ok(())
    }

    /// Puts out what is held still, and nothing where an error has come before.
    ///
    /// # Errors
    /// `fmt::Error` where the writer failed, in this call or before it.
    #[tactic(auto, using(crate::proofs::SinkSteps::leaves_as_is, crate::proofs::SinkSteps::not_well))]
    pub fn finish(&mut self) -> fmt::Result
        ensures ok { OnOk result (Gathers W.sink self.old [] self.new) }
        ensures well { OnOk result (is_well self.old ≡ true) }
        ensures empty { OnOk result (held_bytes self.new ≡ []) }
        ensures err { OnErr result (BreaksOff W.sink self.old [] self.new) }
        ensures kept { OnErr result (held_bytes self.new ≡ held_bytes self.old) }
        ensures count { failed_calls self.new ≡ failed_calls self.old }
    {
        let WrapperState::Well = self.state else {
            return Err(fmt::Error);
        };
        self.empty()
    }

    /// Takes the error that came. Returns None where none came, and at each later call.
    pub fn take_fault(&mut self) -> Option<io::Error>
        ensures { TakesFault self.old result self.new }
    {
        match self.state {
            WrapperState::Well | WrapperState::Taken => None,
            WrapperState::Faulty(_) => match std::mem::replace(
                &mut self.state,
                WrapperState::Taken,
            ) {
                WrapperState::Faulty(e) => Some(e),
                _ => None,
            },
        }
    }

    /// Does what [`take_fault`](WriterWrapper::take_fault) does; its former name.
    pub fn take_error(&mut self) -> Option<io::Error>
        ensures { TakesFault self.old result self.new }
    {
        self.take_fault()
    }
}

impl<W: ByteSink> TextSink for WriterWrapper<W> {
    ghost use Rattle.wkt_bytes.specs.Wrapper.{wrapped_sink, held_bytes, is_well, wrapped_writer};

    ghost sink = { wrapped_sink W.sink };

    fn write_str(&mut self, piece: &str) -> fmt::Result
        ensures puts { Puts (wrapped_sink W.sink) self.old piece.now self.new result }
        ensures well { OnOk result (is_well self.old ≡ true) }
        ensures gathered { length (held_bytes self.old) + length piece.now < 256
            → wrapped_writer self.new ≡ wrapped_writer self.old }
    {
        match self.accept(piece.as_bytes()) {
            Ok(()) => Ok(()),
            Err(e) => {
                self.failures = self.failures.wrapping_add(1);
                Err(e)
            }
        }
    }
}

/// Takes the error that came to a wrapper and was not taken yet.
pub fn error_of<W: ByteSink>(wrapper: &mut WriterWrapper<W>) -> io::Error
    requires { is_untaken wrapper.old ≡ true }
    ensures { TakesFault wrapper.old (Some result) wrapper.new }
{
    wrapper.take_fault().unwrap()
}
