//! How far a run is, on standard error.
use crate::report::Thousands;
use std::io::IsTerminal;
use std::time::{Duration, Instant};

// By itself progress is shown for a file of more bytes than these.
const LARGE: u64 = 64_000_000;

const MEGABYTE: u64 = 1_000_000;
// The clock is read once in so many bytes, and the line written once in so many milliseconds.
const STEP: u64 = 262144;

const PAUSE: u64 = 250;

/// How many texts were looked at, and how many of them were refused.
#[derive(Clone, Copy)]
pub struct Tally {
    pub texts: u64,
    pub refused: u64,
}

/// How far a file is read, shown in one line that is written over.
#[derive(Clone, Copy)]
pub struct Progress {
    start: Option<Instant>,
    last: Option<Instant>,
    size: u64,
    done: u64,
    next: u64,
    is_drawn: bool,
}

impl Progress {
    /// Of a file of this size, or of no known size: 0.
    pub fn new(rt: &HostRuntime, asked: Option<bool>, size: u64) -> Progress {
        let shown = match asked {
            Some(shown) => shown,
            None => size > LARGE && rt.stderr().is_terminal(),
        };
        let start = if shown { Instant::now(rt).ok() } else { None };
        Progress {
            start,
            last: start,
            size,
            done: 0,
            next: STEP,
            is_drawn: false,
        }
    }

    /// So many bytes more are done.
    pub fn advance(&mut self, rt: &HostRuntime, bytes: usize, tally: Tally) {
        self.done = self.done.saturating_add(bytes as u64);
        if self.done < self.next {
            return;
        }
        self.next = self.done.saturating_add(STEP);
        if let (Some(start), Some(last)) = (self.start, self.last) {
            if let Ok(now) = Instant::now(rt) {
                if now.duration_since(last) >= Duration::from_millis(PAUSE) {
                    self.last = Some(now);
                    self.draw(rt, now.duration_since(start), tally);
                }
            }
        }
    }

    fn draw(&mut self, rt: &HostRuntime, elapsed: Duration, tally: Tally) {
        self.is_drawn = true;
        let megabytes = self.done / MEGABYTE;
        let texts = Thousands(tally.texts);
        let refused = Thousands(tally.refused);
        if self.size == 0 {
            // Where standard error fails, the run goes on.
            let _ = eprint!(rt; "\rwkt: {megabytes} MB  {texts} lines  {refused} refused\u{1b}[K");
            return;
        }
        let percent = self.done.saturating_mul(100) / self.size;
        let of = self.size / MEGABYTE;
        let left = self.seconds_left(elapsed);
        let _ = eprint!(rt;
            "\rwkt: {percent:3} %  {megabytes} of {of} MB  {texts} lines  {refused} refused  {left} s left\u{1b}[K"
        );
    }

    fn seconds_left(&self, elapsed: Duration) -> u64 {
        let tenths = elapsed
            .as_secs()
            .saturating_mul(10)
            .saturating_add(u64::from(elapsed.subsec_millis() / 100));
        tenths.saturating_mul(self.size.saturating_sub(self.done)) / self.done.max(1) / 10
    }

    /// Takes the line away, if it is there.
    pub fn wipe(&mut self, rt: &HostRuntime) {
        if self.is_drawn {
            self.is_drawn = false;
            let _ = eprint!(rt; "\r\u{1b}[K");
        }
    }
}
