//! A run from its arguments to its status.
use crate::error::CommandError;
use crate::input::shown_name;
use crate::run::Run;
use crate::same;
use crate::shown::Shown;
use std::env;
use std::io::{ErrorKind, Stdout};
use wkt_options::{Command, HELP, Options, Request, USAGE, UsageError, VERSION, parse};

// What a run's status says besides 0: a text was refused, or two texts name two geometries; and what stops a run.
const REFUSED: u8 = 1;

const FAILED: u8 = 2;

/// Does what the program's arguments ask for, and returns its status.
pub fn status(rt: &HostRuntime) -> u8 {
    match words(rt) {
        Ok(words) => match parse(rt.alloc(), words.as_slice()) {
            Ok(Request::Help) => print(rt, HELP),
            Ok(Request::Version) => print(rt, VERSION),
            Ok(Request::Run(options)) => match do_run(rt, &options) {
                Ok(status) => status,
                Err(error) => failed(rt, &error),
            },
            Err(UsageError::Memory(error)) => failed(rt, &CommandError::Memory(error)),
            Err(error) => misused(rt, &error),
        },
        Err(error) => failed(rt, &error),
    }
}

/// The program's arguments after its name.
fn words(rt: &HostRuntime) -> Result<Vec<String>, CommandError> {
    match env::args(rt) {
        Ok(words) => Ok(words.skip(1).collect(rt.alloc())?),
        Err(error) => match error.kind() {
            ErrorKind::InvalidData => Err(CommandError::Argument),
            _ => Err(CommandError::input(error)),
        },
    }
}

fn print(rt: &HostRuntime, text: &str) -> u8 {
    match print!(rt; "{text}") {
        Ok(()) => 0,
        Err(error) => failed(rt, &CommandError::output(error)),
    }
}

fn misused(rt: &HostRuntime, error: &UsageError) -> u8 {
    // An argument may be the name of a stranger's file.
    let words = format!(in rt.alloc(); "{error}");
    let _ = match &words {
        Ok(words) => {
            let shown = Shown(words.as_str());
            eprint!(rt; "wkt: {shown}\n{USAGE}")
        }
        Err(_) => eprint!(rt; "wkt: {USAGE}"),
    };
    FAILED
}

/// Reports why the run ended, unless its output is a closed pipe: nobody reads on then.
fn failed(rt: &HostRuntime, error: &CommandError) -> u8 {
    let is_closed = match error {
        CommandError::Output(error) => error.kind() == ErrorKind::BrokenPipe,
        _ => false,
    };
    if !is_closed {
        let _ = eprintln!(rt; "wkt: {error}");
    }
    FAILED
}

fn do_run(rt: &HostRuntime, options: &Options) -> Result<u8, CommandError> {
    if options.command == Command::Same {
        return same::status(rt, options);
    }
    let mut run = Run::new(rt, options)?;
    match read_all(rt, &mut run, options) {
        Ok(status) => {
            run.finish()?;
            Ok(if run.tally().refused > 0 {
                status.max(REFUSED)
            } else {
                status
            })
        }
        Err(CommandError::Output(error)) => Err(CommandError::Output(error)),
        Err(error) => {
            // The answers to the texts before are whole.
            let _ = run.put_out();
            Err(error)
        }
    }
}

/// Reads the files one after the other, or standard input where there is none.
fn read_all(
    rt: &HostRuntime,
    run: &mut Run<'_, Stdout>,
    options: &Options,
) -> Result<u8, CommandError> {
    let mut status = 0;
    for file in 0..options.operands.len().max(1) {
        if !run.is_over() {
            status = read_one(rt, run, file, options.operands.get(file))?.max(status);
        }
    }
    Ok(status)
}

/// Reads a file. One that can't be read is reported, and the run goes on.
fn read_one(
    rt: &HostRuntime,
    run: &mut Run<'_, Stdout>,
    file: usize,
    name: Option<&String>,
) -> Result<u8, CommandError> {
    let given = match name {
        Some(name) => name.as_str(),
        None => "-",
    };
    match run.read_file(rt, file, given) {
        Ok(()) => Ok(0),
        Err(CommandError::Input(error)) => {
            let shown = Shown(shown_name(name));
            let _ = match error.kind() {
                ErrorKind::NotFound => eprintln!(rt; "wkt: {shown}: no such file or directory"),
                _ => eprintln!(rt; "wkt: {shown}: {error}"),
            };
            Ok(FAILED)
        }
        Err(error) => Err(error),
    }
}
