//! Answers each line of standard input on standard output as `wktline` does, in the memory of the longest line.
//!
//! Below stands `wkt_lines`, with the call that this program makes.
#![tactic(auto)]

use std::process::ExitCode;
use wkt_bytes::Counted;
use wkt_lines::{RunError, stream};

fn main(rt: HostRuntime) -> ExitCode {
    let mut reader = Counted::new(rt.stdin());
    let mut writer = Counted::new(rt.stdout());
    // If standard error fails too, the status still reports it.
    let _ = match stream(rt.alloc(), &mut reader, &mut writer) {
        Ok(()) => return ExitCode::SUCCESS,
        Err(RunError::Read(error)) => eprintln!(rt; "wkt: standard input: {error}"),
        Err(RunError::Write(error)) => eprintln!(rt; "wkt: standard output: {error}"),
        Err(RunError::Memory(_)) => eprintln!(rt; "wkt: out of memory"),
    };
    ExitCode::from(1)
}
