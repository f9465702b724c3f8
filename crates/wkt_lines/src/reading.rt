//! A source read line by line.
ghost use Rattle.std.specs.Prelude.{◌≡◌, ◌≢◌, ℕ, ◌+◌, ◌≤◌, [], IfOk, OnOk, OnErr, true, false, length, take, drop};
ghost use Rattle.std.specs.Io.KnownBytes.{Consumes, Keeps, IsAtEnd};
ghost use Rattle.wkt_num.specs.Sink.{next_count};
ghost use Rattle.wkt_bytes.specs.Sinks.{OnRead, UnlessRead};
ghost use Rattle.wkt_lines.specs.First.{EndsLine};
ghost use Rattle.wkt_lines.specs.Buffers.{unanswered};

use crate::ends::line_end;
use crate::input_buffer::InputBuffer;
use std::alloc::{AllocError, Global};
use wkt_bytes::{ByteSource, ReadAllError};

/// The lines of a source, in their order, each as its bytes, in the memory of a block and the longest line.
///
/// Lines are the pieces between line feeds; a last empty piece is dropped. Each is lent from the buffer until the next
/// is asked for:
///
/// ```text
/// let mut lines = Lines::new(alloc, Counted::new(rt.stdin()));
/// while lines.advance()? {
///     count += lines.line().len();
/// }
/// ```
#[derive(Drop)]
pub struct Lines<R> {
    source: R,
    buffer: InputBuffer,
    start: usize,
    end: usize,
    next: usize,
    ghost ordered: { start ≤ end },
    ghost within: { end ≤ length (unanswered buffer) },
    ghost rest: { next ≤ length (unanswered buffer) },
}

impl<R: ByteSource> Lines<R> {
    ghost use Rattle.wkt_lines.specs.Reading.{source_of, line_of, unread, to_come, GivesLine, MoreCame};

    /// The lines of what is left in the source. Nothing is read yet.
    pub fn new(alloc: Global, source: R) -> Self
        ensures line { line_of result ≡ [] }
        ensures source { source_of result ≡ source }
        ensures unread { unread result ≡ [] }
    {
        Lines {
            source,
            buffer: InputBuffer::new(alloc),
            start: 0,
            end: 0,
            next: 0,
        }
    }

    /// Goes to the next line, and returns whether there is one.
    ///
    /// # Errors
    /// `Read` where the source failed, and `Memory` where there is none for a block or for a line that is longer.
    /// Nothing is lost then: the line that was to come is the next, and a later call goes on. Nothing is tried again.
    /// A source that never ends a line is answered as `Memory` after 2^64 - 1 calls.
    #[tactic(auto, using(crate::proofs::Lining::gives))]
    pub fn advance(&mut self) -> Result<bool, ReadAllError>
        ensures line { IfOk result
            (λ some. some ≡ true → GivesLine (to_come R.left self.old) (to_come R.left self.new) (line_of self.new)) }
        ensures end { IfOk result (λ some. some ≡ false → IsAtEnd (to_come R.left self.old)) }
        ensures end_kept { IfOk result
            (λ some. some ≡ false → Keeps (to_come R.left self.old) (to_come R.left self.new)) }
        ensures kept { OnErr result (Keeps (to_come R.left self.old) (to_come R.left self.new)) }
        ensures end_line { IfOk result (λ some. some ≡ false → line_of self.new ≡ []) }
        ensures no_line { OnErr result (line_of self.new ≡ []) }
        ensures count { UnlessRead result (R.failures (source_of self.new) ≡ R.failures (source_of self.old)) }
        ensures read_count { OnRead result
            (R.failures (source_of self.new) ≡ next_count (R.failures (source_of self.old))) }
    {
        self.start = 0;
        self.end = 0;
        match self.find_end() {
            Ok(end) => Ok(self.step(end)),
            Err(e) => Err(e),
        }
    }

    /// The line that the last call of [`advance`](Self::advance) went to; no bytes before the first, after an error,
    /// and at the end.
    pub fn line(&self) -> &[u8]
        ensures { result.now ≡ line_of self.now }
    {
        &self.buffer.front()[self.start..self.end]
    }

    /// Gives the source back. Bytes that were taken from it and not given as a line are lost.
    pub fn into_source(self) -> R
        ensures { result ≡ source_of self }
    {
        let Lines {
            source,
            buffer: _,
            start: _,
            end: _,
            next: _,
        } = self;
        source
    }

    /// What was read and not given yet: lines, of which the last may go on in the source.
    pub fn rest(&self) -> &[u8]
        ensures { result.now ≡ unread self.now }
    {
        &self.buffer.front()[self.next..]
    }

    /// Goes past the first bytes of [`rest`](Self::rest), as whole lines of it that were looked at there. The next line is
    /// the one behind them.
    pub fn pass(&mut self, n: usize)
        requires { n ≤ length (unread self.old) }
        ensures past { Consumes (to_come R.left self.old) (to_come R.left self.new) (take n (unread self.old)) }
        ensures unread { unread self.new ≡ drop n (unread self.old) }
        ensures source { source_of self.new ≡ source_of self.old }
        ensures line { line_of self.new ≡ [] }
    {
        self.start = 0;
        self.end = 0;
        self.next += n;
    }

    /// Reads on until a whole line is at hand or the source has ended, and returns where the line ends.
    fn find_end(&mut self) -> Result<usize, ReadAllError>
        requires none { line_of self.old ≡ [] }
        ensures line { line_of self.new ≡ [] }
        ensures ends { IfOk result (EndsLine (unread self.new)) }
        ensures last { IfOk result (λ n. n ≡ length (unread self.new) → IsAtEnd (R.left (source_of self.new))) }
        ensures kept { Keeps (to_come R.left self.old) (to_come R.left self.new) }
        ensures count { UnlessRead result (R.failures (source_of self.new) ≡ R.failures (source_of self.old)) }
        ensures read_count { OnRead result
            (R.failures (source_of self.new) ≡ next_count (R.failures (source_of self.old))) }
    {
        let mut seen = 0;
        'turns: for _ in 0..u64::MAX {
            let rest = self.rest();
            let end = seen + line_end(&rest[seen..]);
            if end < rest.len() {
                return Ok(end);
            }
            seen = end;
            match self.more() {
                Ok(0) => return Ok(end),
                Ok(_) => {}
                Err(e) => return Err(e),
            }
        }
        // The source never ends.
        Err(ReadAllError::Memory(AllocError))
    }

    /// Takes what the source gives in one call, and returns how much.
    fn more(&mut self) -> Result<usize, ReadAllError>
        ensures line { line_of self.new ≡ [] }
        ensures ok { IfOk result (λ n. MoreCame (unread self.old) (unread self.new)
            (R.left (source_of self.old)) (R.left (source_of self.new)) n) }
        ensures count { UnlessRead result (R.failures (source_of self.new) ≡ R.failures (source_of self.old)) }
        ensures kept { OnErr result (unread self.new ≡ unread self.old) }
        ensures left { OnErr result (Keeps (R.left (source_of self.old)) (R.left (source_of self.new))) }
        ensures read_count { OnRead result
            (R.failures (source_of self.new) ≡ next_count (R.failures (source_of self.old))) }
    {
        self.forget_given();
        if let Err(e) = self.buffer.make_room() {
            return Err(ReadAllError::Memory(e));
        }
        match self.buffer.fill(&mut self.source) {
            Ok(n) => Ok(n),
            Err(e) => Err(ReadAllError::Read(e)),
        }
    }

    /// Drops what was given.
    fn forget_given(&mut self)
        ensures start { self.new.start ≡ 0 }
        ensures end { self.new.end ≡ 0 }
        ensures unread { unread self.new ≡ unread self.old }
        ensures source { source_of self.new ≡ source_of self.old }
    {
        let given = self.next;
        self.start = 0;
        self.end = 0;
        self.next = 0;
        self.buffer.consume(given);
    }

    /// Goes past a line that ends there.
    fn step(&mut self, end: usize) -> bool
        requires { end ≤ length (unread self.old) }
        ensures some { result ≡ true → unread self.old ≢ [] }
        ensures none { result ≡ false → unread self.old ≡ [] }
        ensures line { line_of self.new ≡ take end (unread self.old) }
        ensures unread { unread self.new ≡ drop (end + 1) (unread self.old) }
        ensures source { source_of self.new ≡ source_of self.old }
    {
        let len = self.buffer.len();
        let start = self.next;
        let end = start + end;
        self.start = 0;
        self.end = end;
        self.start = start;
        self.next = if end < len { end + 1 } else { len };
        start < len
    }
}
