//! What `--help` and `--version` print, and why a run's arguments aren't understood.
use std::alloc::{AllocError, AllocFailed};
use thiserror::Error;

/// What `--version` prints.
pub const VERSION: &str = "wkt 1.0.0\n";

/// How the program is called, in a line.
pub const USAGE: &str =
    "usage: wkt check|canon|kind|dups [OPTIONS] [FILE..], wkt same [OPTIONS] A B, wkt help\n";

/// What `--help` prints.
pub const HELP: &str = "\
usage: wkt check [OPTIONS] [FILE..]   where texts are refused, and what was expected there
       wkt canon [OPTIONS] [FILE..]   the canonical text of each text
       wkt kind [OPTIONS] [FILE..]    the kind and the dimension of each text
       wkt dups [OPTIONS] [FILE..]    the texts that name a geometry which an earlier text names
       wkt same [OPTIONS] A B         whether two texts name one geometry
       wkt help | --help | --version

Each line of a FILE is a text of well-known text. With no FILE, or where FILE is -, standard input is read.

  -p, --places N    numbers have at most N digits after the point, 0 to 36 (18); nothing is rounded
  --dialect NAMES   texts are read as other tools write them too, by names with commas between them: srid, untagged,
                    exponents, nan; ewkt is srid,untagged. Of SRID=4326;POINT(1 2) the SRID is dropped: texts with
                    two SRIDs can name one geometry
  -w, --whole       a FILE is one text, on any number of lines
  -0, --null        texts end at a NUL, not at a line feed
  -f, --front       what follows a geometry in its text isn't looked at
  --refused WORD    canon, kind: write WORD in place of the answer to a refused text; skip: leave its line out, as
                    without the option
  --skip-blank      pass over texts of white space alone, which are refused without it
  --part I/N        check, canon, kind: read the I-th of N parts of each FILE, whole lines, so that N runs read it
                    at once. Together the parts are the FILE
  --format FORM     check: write each refusal as text, json (an object in a line) or tsv (fields between tabs)
  -n, --max N       check: end after N refusals (100); 0: no limit
  -q, --quiet       print no refusals: canon, kind and dups write their answers alone, check and same nothing
  --progress, --no-progress
                    show on standard error how far the run is, or don't. By itself it is shown for a FILE of more
                    than 64 MB, where standard error is a terminal
  -h, --help        print this
  -V, --version     print the version

check writes FILE:LINE:COLUMN, what was expected there, the line and a mark below the place. The other commands write
that on standard error. LINE and COLUMN count from 1, COLUMN in characters.

With --format json or tsv the fields are file, line, start, end, expected, cause, hint and message. START and END are
bytes of the line, from 0; CAUSE is one stable word, to group by. How many were refused comes on standard error.

Status 0: every text was read; for same, the texts name one geometry. 1: a text was refused; for same, they name two
geometries. 2: wrong usage, a file that can't be read, output that can't be written, out of memory; for same, a text
that was refused.
";

/// Why a run's arguments aren't understood.
#[derive(Debug, Drop, Error)]
pub enum UsageError {
    #[error("a command is missing")]
    NoCommand,
    #[error("unknown command {0}")]
    UnknownCommand(String),
    #[error("unknown option {0}")]
    UnknownOption(String),
    #[error("option {0} goes with other commands")]
    OtherCommand(String),
    #[error("option {0} needs a value")]
    NoValue(String),
    #[error("option {0} takes no value")]
    Value(String),
    #[error("--places takes a number from 0 to 36, not {0}")]
    Places(String),
    #[error("--dialect takes srid, untagged, exponents, nan or ewkt, with commas between them, not {0}")]
    Dialect(String),
    #[error("--max takes a number, not {0}")]
    Max(String),
    #[error("--format takes text, json or tsv, not {0}")]
    Format(String),
    #[error("--refused takes a word without a line feed, not {0}")]
    Refused(String),
    #[error("--part takes a part of so many, as 2/4, not {0}")]
    Part(String),
    #[error("--part goes with lines of FILEs")]
    PartOfNone,
    #[error("--whole and --null exclude each other")]
    TwoEnds,
    #[error("same takes two texts")]
    TwoTexts,
    #[error("out of memory")]
    Memory(#[from] AllocError),
}

impl<T: Drop> From<AllocFailed<T>> for UsageError {
    fn from(_error: AllocFailed<T>) -> UsageError {
        UsageError::Memory(AllocError)
    }
}
