//! What a run was asked to do.
use std::alloc::Global;
use wkt_dialects::Dialects;

/// The commands.
#[derive(Clone, Copy, PartialEq, Eq, Debug)]
pub enum Command {
    Check,
    Canon,
    Kind,
    Dups,
    Same,
}

impl Command {
    /// The command of this name.
    pub fn named(word: &str) -> Option<Command> {
        match word {
            "check" => Some(Command::Check),
            "canon" => Some(Command::Canon),
            "kind" => Some(Command::Kind),
            "dups" => Some(Command::Dups),
            "same" => Some(Command::Same),
            _ => None,
        }
    }
}

/// Where a text of a file ends.
#[derive(Clone, Copy, PartialEq, Eq, Debug)]
pub enum Ends {
    /// At each line feed.
    Line,
    /// At each NUL.
    Nul,
    /// At the end of the file.
    File,
}

/// How `check` writes a refusal.
#[derive(Clone, Copy, PartialEq, Eq, Debug)]
pub enum Form {
    /// For people: the place, what was expected there, and the line with a mark.
    Text,
    /// An object of JSON in a line.
    Json,
    /// Fields with tabs between them, in a line.
    Tsv,
}

impl Form {
    /// The form of this name.
    pub fn named(word: &str) -> Option<Form> {
        match word {
            "text" => Some(Form::Text),
            "json" => Some(Form::Json),
            "tsv" => Some(Form::Tsv),
            _ => None,
        }
    }
}

/// One of so many parts of a file, counted from 1.
#[derive(Clone, Copy)]
pub struct Part {
    pub index: u64,
    pub count: u64,
}

impl Part {
    /// The part that is written as `2/4`.
    pub fn named(word: &str) -> Option<Part> {
        let (index, count) = word.split_once('/')?;
        let index = index.parse::<u64>().ok()?;
        let count = count.parse::<u64>().ok()?;
        if 1 <= index && index <= count {
            Some(Part { index, count })
        } else {
            None
        }
    }
}

/// The dialects of these names, which have commas between them.
pub fn dialects_named(names: &str) -> Option<Dialects> {
    let mut asked = Dialects {
        srid: false,
        untagged: false,
        exponents: false,
        nan: false,
    };
    for name in names.split(',') {
        match name {
            "srid" => asked.srid = true,
            "untagged" => asked.untagged = true,
            "exponents" => asked.exponents = true,
            "nan" => asked.nan = true,
            "ewkt" => {
                asked.srid = true;
                asked.untagged = true;
            }
            _ => return None,
        }
    }
    Some(asked)
}

/// What a run was asked to do.
#[derive(Drop)]
pub struct Options {
    pub command: Command,
    pub form: Form,
    /// How many digits a number may have after its point, 0 to 36.
    pub places: u32,
    /// In which dialects texts are read, if in any.
    pub dialects: Option<Dialects>,
    pub ends: Ends,
    /// Which part of each file is read, if not all of it.
    pub part: Option<Part>,
    /// What follows a geometry in its text isn't looked at.
    pub front: bool,
    /// What is written in place of the answer to a refused text; `skip`, or none: nothing.
    pub refused: Option<String>,
    /// After how many refusals `check` ends; 0: after none.
    pub max: u64,
    /// Texts of white space alone are passed over.
    pub skip_blank: bool,
    pub quiet: bool,
    /// Whether progress is shown, where the caller said so.
    pub progress: Option<bool>,
    /// The files, or the two texts of `same`.
    pub operands: Vec<String>,
}

impl Options {
    pub fn new(alloc: Global, command: Command) -> Options {
        Options {
            command,
            form: Form::Text,
            places: 18,
            dialects: None,
            ends: Ends::Line,
            part: None,
            front: false,
            refused: None,
            max: 100,
            skip_blank: false,
            quiet: false,
            progress: None,
            operands: Vec::new(alloc),
        }
    }
}
