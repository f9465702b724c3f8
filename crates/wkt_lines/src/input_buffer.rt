//! Bytes that were read and not answered yet.
ghost use Rattle.std.specs.Prelude.{◌≡◌, ◌≢◌, ℕ, List, ◌≤◌, ◌<◌, [], ◌++◌, OnOk, OnErr, IfOk, length, take, drop, get_or, vec_len};
ghost use Rattle.std.specs.Io.KnownBytes.{Consumes, Keeps, IsAtEnd};
ghost use Rattle.wkt_num.specs.Sink.{next_count};
ghost use Rattle.wkt_bytes.specs.Sinks.{OnRead, UnlessRead};
ghost use Rattle.wkt_lines.specs.Laws.{IsWholeLines};
ghost use Rattle.wkt_lines.specs.Lines.{HasNoFeed};

use crate::ends::line_end;
use std::alloc::{AllocError, Global};
use std::io;
use wkt_bytes::{ByteSource, ReadAllError};
use wkt_canonical::lengthen;

// How many bytes of room are made at once.
const BLOCK: usize = 131072;

// How much of an input is answered at once, where all of it is at hand.
const ANSWERED_AT_ONCE: usize = 1_048_576;

/// How many bytes some whole lines take at the front of an input, with their line feeds: those that end within its first
/// MiB, or the first. Zero where no line feed is left.
#[tactic(auto, using(crate::proofs::Lining::first_whole))]
pub(crate) fn whole_lines(rest: &[u8]) -> usize
    ensures within { result ≤ length rest.now }
    ensures whole { IsWholeLines (take result rest.now) }
{
    let first = line_end(rest);
    if first == rest.len() {
        return 0;
    }
    let mut at = rest.len().min(ANSWERED_AT_ONCE);
    while at > first {
        if rest[at - 1] == b'\n' {
            return at;
        }
        at -= 1;
    }
    first + 1
}

/// Before bytes at the end in which no line feed stands, of 32 each.
#[tactic(auto, using(crate::proofs::Lining::none_window))]
fn before_no_feeds(bytes: &[u8], seen: usize) -> usize
    requires { seen ≤ length bytes.now }
    ensures seen { seen ≤ result }
    ensures within { result ≤ length bytes.now }
    ensures none { (k : ℕ) → result ≤ k → k < length bytes.now → get_or bytes.now k 0 ≢ 10 }
{
    let mut at = bytes.len();
    while at - seen >= 32 {
        let from = at - 32;
        let end = line_end(&bytes[from..at]);
        if end < 32 {
            return at;
        }
        at = from;
    }
    at
}

/// Adds a block of room.
#[cold]
#[inline(never)]
fn add_block(bytes: &mut Vec<u8>) -> Result<(), AllocError>
    ensures kept { take (vec_len bytes.old) bytes.new.items ≡ bytes.old.items }
    ensures len { vec_len bytes.old ≤ vec_len bytes.new }
    ensures grows { OnOk result (vec_len bytes.old < vec_len bytes.new) }
{
    match bytes.len().checked_add(BLOCK) {
        Some(needed) => lengthen(bytes, needed),
        None => Err(AllocError),
    }
}

/// A buffer at whose front stands what was read and not answered yet.
#[derive(Drop)]
pub struct InputBuffer {
    bytes: Vec<u8>,
    len: usize,
    ghost fits: { len ≤ vec_len bytes },
}

impl InputBuffer {
    ghost use Rattle.wkt_lines.specs.Buffers.{unanswered, has_room};

    /// An input buffer that holds nothing and has no room yet.
    pub fn new(alloc: Global) -> InputBuffer
        ensures { unanswered result ≡ [] }
    {
        InputBuffer {
            bytes: Vec::new(alloc),
            len: 0,
        }
    }

    /// What it holds.
    pub fn front(&self) -> &[u8]
        ensures { result.now ≡ unanswered self.now }
    {
        &self.bytes[..self.len]
    }

    /// How much it holds.
    pub fn len(&self) -> usize
        ensures { result ≡ length (unanswered self.now) }
    {
        self.len
    }

    /// Makes room for 128 KiB more where there is none, as at the begin, and where a line is longer than the buffer.
    ///
    /// # Errors
    /// Out of memory.
    pub fn make_room(&mut self) -> Result<(), AllocError>
        ensures front { unanswered self.new ≡ unanswered self.old }
        ensures room { OnOk result (has_room self.new) }
    {
        if self.len < self.bytes.len() {
            return Ok(());
        }
        add_block(&mut self.bytes)
    }

    /// Takes what the source gives in one call, and returns how much.
    ///
    /// # Errors
    /// The source's error.
    pub fn fill<R: ByteSource>(&mut self, reader: &mut R) -> io::Result<usize>
        requires room { has_room self.old }
        ensures ok { IfOk result (λ n. (fresh : List ℕ) × (unanswered self.new ≡ unanswered self.old ++ fresh)
            × (length fresh ≡ n) × Consumes (R.left reader.old) (R.left reader.new) fresh) }
        ensures end { IfOk result (λ n. n ≡ 0 → IsAtEnd (R.left reader.new)) }
        ensures count { OnOk result (R.failures reader.new ≡ R.failures reader.old) }
        ensures kept { OnErr result (unanswered self.new ≡ unanswered self.old) }
        ensures left { OnErr result (Keeps (R.left reader.old) (R.left reader.new)) }
        ensures failed { OnErr result (R.failures reader.new ≡ next_count (R.failures reader.old)) }
    {
        match reader.take(&mut self.bytes.as_mut_slice()[self.len..]) {
            Ok(n) => {
                self.len += n;
                Ok(n)
            }
            Err(e) => Err(e),
        }
    }

    /// Takes all that is left in the source.
    ///
    /// # Errors
    /// The source's first error, or out of memory.
    pub fn fill_all<R: ByteSource>(&mut self, reader: &mut R) -> Result<(), ReadAllError>
        requires { unanswered self.old ≡ [] }
        ensures bytes { OnOk result (Consumes (R.left reader.old) (R.left reader.new) (unanswered self.new)) }
        ensures end { OnOk result (IsAtEnd (R.left reader.new)) }
        ensures read { OnRead result (R.failures reader.new ≡ next_count (R.failures reader.old)) }
        ensures count { UnlessRead result (R.failures reader.new ≡ R.failures reader.old) }
    {
        'turns: loop {
            if let Err(e) = self.make_room() {
                return Err(ReadAllError::Memory(e));
            }
            match self.fill(reader) {
                Ok(0) => return Ok(()),
                Ok(_) => {}
                Err(e) => return Err(ReadAllError::Read(e)),
            }
        }
    }

    /// How many bytes the whole lines take that it holds, with their line feeds; none ends within the first `seen`.
    pub fn whole(&self, seen: usize) -> usize
        requires seen { seen ≤ length (unanswered self.now) }
        requires none { HasNoFeed (take seen (unanswered self.now)) }
        ensures within { result ≤ length (unanswered self.now) }
        ensures whole { IsWholeLines (take result (unanswered self.now)) }
        ensures rest { HasNoFeed (drop result (unanswered self.now)) }
    {
        let front = self.front();
        let mut at = before_no_feeds(front, seen);
        while at > seen {
            if front[at - 1] == b'\n' {
                return at;
            }
            at -= 1;
        }
        0
    }

    /// Drops the first bytes, which were answered.
    pub fn consume(&mut self, n: usize)
        requires { n ≤ length (unanswered self.old) }
        ensures { unanswered self.new ≡ drop n (unanswered self.old) }
    {
        if n > 0 {
            let len = self.len;
            self.bytes.copy_within(n..len, 0);
            self.len = len - n;
        }
    }
}
