//! Room for answers.
ghost use Rattle.std.specs.Prelude.{◌≡◌, ◌+◌, ◌*◌, ◌<◌, ◌≤◌, ◌++◌, [], IfOk, OnOk, OnErr, length, take, vec_len, true, if◌then◌else◌};
ghost use Rattle.std.specs.Bool.{OnTrue};

use crate::in_room::answer_line;
use std::alloc::{AllocError, Global};
use wkt_canonical::{NoRoom, SPARE, make_room, widen};
use wkt_num::{OfType, WktNum};

// How much is gathered, before it is put out, where answers are gathered.
const HELD: usize = 65536;

/// Bytes, of which the first are answers that were written.
#[derive(Drop)]
pub struct OutputBuffer {
    bytes: Vec<u8>,
    len: usize,
    // An output buffer that holds so much is put out.
    held: usize,
    ghost fits: { len ≤ vec_len bytes },
}

impl OutputBuffer {
    ghost use Rattle.wkt_lines.specs.Buffers.{output_text, HasRoomFor, AnswersNext};

    /// An output buffer with no room yet, which is put out when it holds 64 KiB.
    pub fn of_blocks(alloc: Global) -> OutputBuffer
        ensures { output_text result ≡ [] }
    {
        OutputBuffer {
            bytes: Vec::new(alloc),
            len: 0,
            held: HELD,
        }
    }

    /// An output buffer with no room yet, which is put out after each answer.
    pub fn of_lines(alloc: Global) -> OutputBuffer
        ensures { output_text result ≡ [] }
    {
        OutputBuffer {
            bytes: Vec::new(alloc),
            len: 0,
            held: 1,
        }
    }

    /// What was written.
    pub fn written(&self) -> &[u8]
        ensures { result.now ≡ output_text self.now }
    {
        &self.bytes[..self.len]
    }

    /// How much that is.
    pub fn len(&self) -> usize
        ensures { result ≡ length (output_text self.now) }
    {
        self.len
    }

    /// Drops what was written behind the first bytes.
    pub fn cut(&mut self, len: usize)
        requires { len ≤ length (output_text self.old) }
        ensures { output_text self.new ≡ take len (output_text self.old) }
    {
        self.len = len;
    }

    /// Whether there is room for the answer to a text of so many bytes, and the output buffer isn't full.
    #[inline(always)]
    pub fn is_ready(&self, n: usize) -> bool
        ensures { result ≡ true → HasRoomFor self.now n }
    {
        let room = self.bytes.len() - self.len;
        // What `has_room` tests, in place: by a call a line takes three instructions more.
        self.len < self.held && room >= SPARE && (room - SPARE) / 2 >= n
    }

    /// Makes room for the answer to a text of so many bytes.
    ///
    /// # Errors
    /// Out of memory.
    #[inline(always)]
    pub fn make_room(&mut self, n: usize) -> Result<(), AllocError>
        ensures text { output_text self.new ≡ output_text self.old }
        ensures room { OnOk result (HasRoomFor self.new n) }
    {
        if self.is_ready(n) {
            return Ok(());
        }
        self.widen_for(n)
    }

    /// Makes room for the answer to a text of so many bytes, and for what is gathered.
    #[cold]
    #[inline(never)]
    fn widen_for(&mut self, n: usize) -> Result<(), AllocError>
        ensures text { output_text self.new ≡ output_text self.old }
        ensures room { OnOk result (HasRoomFor self.new n) }
    {
        match n.checked_add(self.held / 2) {
            Some(most) => make_room(&mut self.bytes, self.len, most),
            None => Err(AllocError),
        }
    }

    /// Adds the answer to the first line and a line feed, and returns how much the line takes with its own. The room
    /// grows as it has to.
    ///
    /// # Errors
    /// Out of memory; nothing was added then.
    #[inline(always)]
    pub fn add_answer<T: WktNum>(&mut self, rest: &[u8]) -> Result<usize, AllocError>
        requires { HasRoomFor self.old (length rest.now) }
        ensures { AnswersNext T.read T.num rest.now (output_text self.old) (output_text self.new) result }
    {
        // One call, since only so the machine is built into the loop over lines.
        'room: loop {
            match answer_line(
                OfType::<T>::new(),
                rest,
                self.bytes.as_mut_slice(),
                self.len,
            ) {
                Ok(answer) => {
                    self.len = answer.len;
                    return Ok(answer.taken);
                }
                Err(NoRoom) => {}
            }
            match widen(&mut self.bytes) {
                Ok(()) => {}
                Err(e) => return Err(e),
            }
        }
    }
}
