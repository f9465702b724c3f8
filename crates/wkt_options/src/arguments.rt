//! The arguments of a run.
use crate::options::{Command, Ends, Form, Options, Part, dialects_named};
use crate::usage::UsageError;
use std::alloc::{AllocError, Global};
use wkt_dialects::Dialects;

/// What the arguments ask for.
#[derive(Drop)]
pub enum Request {
    Help,
    Version,
    Run(Options),
}

#[derive(Clone, Copy, PartialEq, Eq)]
enum Flag {
    Places,
    Dialect,
    Whole,
    Null,
    Front,
    Refused,
    SkipBlank,
    Part,
    Format,
    Max,
    Quiet,
    Progress,
    NoProgress,
    Help,
    Version,
}

// An option: its letter, if it has one, its word, and whether it takes a value.
#[derive(Clone, Copy)]
struct Row {
    flag: Flag,
    letter: char,
    word: &'static str,
    takes_value: bool,
}

const fn option(flag: Flag, letter: char, word: &'static str, takes_value: bool) -> Row {
    Row {
        flag,
        letter,
        word,
        takes_value,
    }
}

// An option with no letter has a blank.
fn rows() -> [Row; 15] {
    [
        option(Flag::Places, 'p', "places", true),
        option(Flag::Dialect, ' ', "dialect", true),
        option(Flag::Whole, 'w', "whole", false),
        option(Flag::Null, '0', "null", false),
        option(Flag::Front, 'f', "front", false),
        option(Flag::Refused, ' ', "refused", true),
        option(Flag::SkipBlank, ' ', "skip-blank", false),
        option(Flag::Part, ' ', "part", true),
        option(Flag::Format, ' ', "format", true),
        option(Flag::Max, 'n', "max", true),
        option(Flag::Quiet, 'q', "quiet", false),
        option(Flag::Progress, ' ', "progress", false),
        option(Flag::NoProgress, ' ', "no-progress", false),
        option(Flag::Help, 'h', "help", false),
        option(Flag::Version, 'V', "version", false),
    ]
}

impl Flag {
    /// Whether the command takes the option.
    fn goes_with(self, command: Command) -> bool {
        match self {
            Flag::Places | Flag::Dialect | Flag::Quiet | Flag::Help | Flag::Version => true,
            Flag::Refused => matches!(command, Command::Canon | Command::Kind),
            Flag::Format | Flag::Max => matches!(command, Command::Check),
            // Another part may name the same geometry.
            Flag::Part => matches!(command, Command::Check | Command::Canon | Command::Kind),
            Flag::Whole
            | Flag::Null
            | Flag::Front
            | Flag::SkipBlank
            | Flag::Progress
            | Flag::NoProgress => !matches!(command, Command::Same),
        }
    }
}

/// The arguments that are left.
#[derive(Clone, Copy)]
struct Words<'a> {
    rest: &'a [String],
}

impl<'a> Words<'a> {
    fn next(&mut self) -> Option<&'a str> {
        let (word, rest) = self.rest.split_first()?;
        self.rest = rest;
        Some(word.as_str())
    }
}

fn copy(alloc: Global, word: &str) -> Result<String, AllocError> {
    String::from_str(alloc, word)
}

/// What the arguments after the program's name ask for.
///
/// # Errors
/// What isn't understood, or out of memory.
pub fn parse(alloc: Global, words: &[String]) -> Result<Request, UsageError> {
    let mut words = Words { rest: words };
    let Some(word) = words.next() else {
        return Err(UsageError::NoCommand);
    };
    match word {
        "help" | "-h" | "--help" => return Ok(Request::Help),
        "-V" | "--version" => return Ok(Request::Version),
        _ => {}
    }
    let Some(command) = Command::named(word) else {
        return Err(UsageError::UnknownCommand(copy(alloc, word)?));
    };
    let mut options = Options::new(alloc, command);
    if let Some(request) = read_words(alloc, words, &mut options)? {
        return Ok(request);
    }
    if command == Command::Same && options.operands.len() != 2 {
        return Err(UsageError::TwoTexts);
    }
    if options.part.is_some() && !has_files_of_lines(&options) {
        return Err(UsageError::PartOfNone);
    }
    Ok(Request::Run(options))
}

/// Whether files are read, and no standard input, line by line.
fn has_files_of_lines(options: &Options) -> bool {
    let operands = options.operands.as_slice();
    options.ends == Ends::Line
        && !operands.is_empty()
        && !operands.iter().any(|name| name.as_str() == "-")
}

/// Reads the words after the command into the options; returns what is asked for besides a run.
fn read_words(
    alloc: Global,
    words: Words<'_>,
    options: &mut Options,
) -> Result<Option<Request>, UsageError> {
    let mut words = words;
    let mut operands_alone = false;
    for _ in 0..u64::MAX {
        let Some(word) = words.next() else {
            break;
        };
        if operands_alone || word == "-" || !word.starts_with('-') {
            options.operands.push(copy(alloc, word)?)?;
            continue;
        }
        if word == "--" {
            operands_alone = true;
            continue;
        }
        let asked = match word.strip_prefix("--") {
            Some(long) => read_long(alloc, word, long, &mut words, options)?,
            None => read_letters(alloc, word, &mut words, options)?,
        };
        match asked {
            Some(request) => return Ok(Some(request)),
            None => {}
        }
    }
    Ok(None)
}

/// Reads an option that is written as a word, with its value behind `=` or in the next argument.
fn read_long(
    alloc: Global,
    word: &str,
    long: &str,
    words: &mut Words<'_>,
    options: &mut Options,
) -> Result<Option<Request>, UsageError> {
    let (name, joined) = match long.split_once('=') {
        Some((name, value)) => (name, Some(value)),
        None => (long, None),
    };
    let Some(row) = rows().into_iter().find(|row| row.word == name) else {
        return Err(UsageError::UnknownOption(copy(alloc, word)?));
    };
    if !row.takes_value {
        if joined.is_some() {
            return Err(UsageError::Value(copy(alloc, word)?));
        }
        return set(alloc, word, row.flag, "", options);
    }
    let value = match joined {
        Some(value) => value,
        None => match words.next() {
            Some(value) => value,
            None => return Err(UsageError::NoValue(copy(alloc, word)?)),
        },
    };
    set(alloc, word, row.flag, value, options)
}

/// Reads options that are written as letters behind one `-`; a value is what is left of the word, or the next argument.
fn read_letters(
    alloc: Global,
    word: &str,
    words: &mut Words<'_>,
    options: &mut Options,
) -> Result<Option<Request>, UsageError> {
    let letters = word.get(1..).unwrap_or("");
    for (at, letter) in letters.char_indices() {
        let Some(row) = rows()
            .into_iter()
            .find(|row| row.letter == letter && letter != ' ')
        else {
            return Err(UsageError::UnknownOption(copy(alloc, word)?));
        };
        if row.takes_value {
            let rest = at.saturating_add(letter.len_utf8());
            let value = match letters.get(rest..) {
                None | Some("") => words.next(),
                Some(joined) => Some(joined.strip_prefix('=').unwrap_or(joined)),
            };
            return match value {
                Some(value) => set(alloc, word, row.flag, value, options),
                None => Err(UsageError::NoValue(copy(alloc, word)?)),
            };
        }
        match set(alloc, word, row.flag, "", options)? {
            Some(request) => return Ok(Some(request)),
            None => {}
        }
    }
    Ok(None)
}

/// Keeps what an option says; returns what it asks for besides a run.
fn set(
    alloc: Global,
    word: &str,
    flag: Flag,
    value: &str,
    options: &mut Options,
) -> Result<Option<Request>, UsageError> {
    if !flag.goes_with(options.command) {
        return Err(UsageError::OtherCommand(copy(alloc, word)?));
    }
    match flag {
        Flag::Help => return Ok(Some(Request::Help)),
        Flag::Version => return Ok(Some(Request::Version)),
        Flag::Places => options.places = places(alloc, value)?,
        Flag::Dialect => options.dialects = Some(dialects(alloc, value)?),
        Flag::Format => options.form = form(alloc, value)?,
        Flag::Max => options.max = max(alloc, value)?,
        Flag::Whole => options.ends = ends(options.ends, Ends::File)?,
        Flag::Null => options.ends = ends(options.ends, Ends::Nul)?,
        Flag::Refused => options.refused = Some(refused(alloc, value)?),
        Flag::Front => options.front = true,
        Flag::SkipBlank => options.skip_blank = true,
        Flag::Part => options.part = Some(part(alloc, value)?),
        Flag::Quiet => options.quiet = true,
        Flag::Progress => options.progress = Some(true),
        Flag::NoProgress => options.progress = Some(false),
    }
    Ok(None)
}

fn ends(before: Ends, now: Ends) -> Result<Ends, UsageError> {
    if before == Ends::Line || before == now {
        Ok(now)
    } else {
        Err(UsageError::TwoEnds)
    }
}

fn places(alloc: Global, value: &str) -> Result<u32, UsageError> {
    match value.parse::<u32>() {
        Ok(n) if n <= 36 => Ok(n),
        _ => Err(UsageError::Places(copy(alloc, value)?)),
    }
}

fn dialects(alloc: Global, value: &str) -> Result<Dialects, UsageError> {
    match dialects_named(value) {
        Some(dialects) => Ok(dialects),
        None => Err(UsageError::Dialect(copy(alloc, value)?)),
    }
}

/// A word that stands on a line of its own.
fn refused(alloc: Global, value: &str) -> Result<String, UsageError> {
    let word = copy(alloc, value)?;
    if value.contains('\n') {
        Err(UsageError::Refused(word))
    } else {
        Ok(word)
    }
}

fn max(alloc: Global, value: &str) -> Result<u64, UsageError> {
    match value.parse::<u64>() {
        Ok(n) => Ok(n),
        Err(_) => Err(UsageError::Max(copy(alloc, value)?)),
    }
}

fn form(alloc: Global, value: &str) -> Result<Form, UsageError> {
    match Form::named(value) {
        Some(form) => Ok(form),
        None => Err(UsageError::Format(copy(alloc, value)?)),
    }
}

fn part(alloc: Global, value: &str) -> Result<Part, UsageError> {
    match Part::named(value) {
        Some(part) => Ok(part),
        None => Err(UsageError::Part(copy(alloc, value)?)),
    }
}
