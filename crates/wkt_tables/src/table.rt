//! The table of texts on standard input, and the files of rows that the arguments name. A row is a call, what it is
//! asked, and what it has to give.
ghost use Rattle.std.specs.Prelude.{◌≡◌, ◌↔◌, IfOk, IsTrue};
ghost use Rattle.std.specs.String.{string_bytes};

use crate::calls::given;
use crate::operations::count_all;
use serde_json::Value;
use serde_json::error::Category;
use std::alloc::{AllocError, Global};
use std::io::{self, ErrorKind, Read};
use std::{env, fs};
use thiserror::Error;
use wkt::to_wkt::{Counted, ReadAllError, read_all};
use wkt::{AnyError, Decimal};
use wkt_all_calls::{answer, text_or_message};

/// Why a table isn't checked to its end.
#[derive(Debug, Drop, Error)]
pub enum TableError {
    #[error("the table can't be read")]
    Read(io::Error),
    #[error("the table isn't UTF-8")]
    NotText,
    #[error("after `count`, name decimal or i64, and operations")]
    Usage,
    #[error("standard output fails")]
    Print(io::Error),
    #[error("out of memory")]
    Memory(AllocError),
}

/// Checks the table on standard input, and each file that an argument names, and returns how many rows are wrong. If the
/// first argument is `count`, it does operations to the lines instead, which the others name.
pub fn check_all(rt: &HostRuntime) -> Result<u64, TableError> {
    let alloc = rt.alloc();
    let bytes = bytes_of(alloc, rt.stdin())?;
    let names = names_of(rt, alloc).map_err(unread)?;
    match names.as_slice() {
        [word, words @ ..] if word.as_str() == "count" => {
            count_all(rt, alloc, words, text_of(&bytes)?)?;
            Ok(0)
        }
        names => check_each(rt, alloc, text_of(&bytes)?, names),
    }
}

/// The arguments.
fn names_of(rt: &HostRuntime, alloc: Global) -> io::Result<Vec<String>> {
    Ok(env::args(rt)?.skip(1).collect::<Vec<String>>(alloc)?)
}

/// Checks the table and the files.
fn check_each(
    rt: &HostRuntime,
    alloc: Global,
    table: &str,
    names: &[String],
) -> Result<u64, TableError> {
    let mut wrong = check_table(rt, alloc, table)?;
    for name in names {
        wrong = wrong.wrapping_add(check_file(rt, alloc, name)?);
    }
    Ok(wrong)
}

/// Why the arguments or a file aren't there; out of memory is an error by itself.
fn unread(error: io::Error) -> TableError {
    match error.kind() {
        ErrorKind::OutOfMemory => TableError::Memory(AllocError),
        _ => TableError::Read(error),
    }
}

/// All bytes of an input.
fn bytes_of<R: Read + Drop>(alloc: Global, input: R) -> Result<Vec<u8>, TableError> {
    match read_all(alloc, &mut Counted::new(input)) {
        Ok(bytes) => Ok(bytes),
        Err(ReadAllError::Read(e)) => Err(TableError::Read(e)),
        Err(ReadAllError::Memory(e)) => Err(TableError::Memory(e)),
    }
}

fn text_of(bytes: &[u8]) -> Result<&str, TableError> {
    match str::from_utf8(bytes) {
        Ok(text) => Ok(text),
        Err(_) => Err(TableError::NotText),
    }
}

/// Checks each row of a table of texts, and prints which are wrong, and how many.
fn check_table(rt: &impl Print, alloc: Global, table: &str) -> Result<u64, TableError> {
    let mut rows = 0u64;
    let mut wrong = 0u64;
    for row in table.lines() {
        rows = rows.wrapping_add(1);
        if !check_text(rt, alloc, row)? {
            wrong = wrong.wrapping_add(1);
        }
    }
    printed(println!(rt; "{rows} rows, {wrong} wrong"))?;
    Ok(wrong)
}

/// Whether the row of a text is right. Prints one that isn't.
fn check_text(rt: &impl Print, alloc: Global, row: &str) -> Result<bool, TableError> {
    let (text, want) = row.split_once('\t').unwrap_or((row, ""));
    match text_or_message(alloc, answer::<Decimal<18>>(alloc, text)) {
        Ok(given) => is_right(rt, text, &given, want),
        Err(e) => Err(TableError::Memory(e)),
    }
}

/// Checks each row of a file, and prints which are wrong, and how many.
fn check_file(rt: &HostRuntime, alloc: Global, name: &str) -> Result<u64, TableError> {
    let bytes = bytes_of(alloc, fs::open(rt, name).map_err(unread)?)?;
    check_rows(rt, alloc, name, text_of(&bytes)?)
}

/// Checks each row of a file's text, but for its head.
fn check_rows(rt: &impl Print, alloc: Global, name: &str, text: &str) -> Result<u64, TableError> {
    let mut rows = 0u64;
    let mut wrong = 0u64;
    for line in text.lines() {
        if line.starts_with('#') {
            continue;
        }
        rows = rows.wrapping_add(1);
        if !check_line(rt, alloc, line)? {
            wrong = wrong.wrapping_add(1);
        }
    }
    printed(println!(rt; "{name}: {rows} rows, {wrong} wrong"))?;
    Ok(wrong)
}

/// Whether the row of a line is right. Prints one that isn't.
fn check_line(rt: &impl Print, alloc: Global, line: &str) -> Result<bool, TableError> {
    match row_of(alloc, line) {
        Ok(row) => is_right(rt, line, &row.given, &row.want),
        Err(e) => Err(TableError::Memory(e)),
    }
}

/// Whether the answer is the wanted one. Prints both if it isn't.
fn is_right(rt: &impl Print, row: &str, given: &str, want: &str) -> Result<bool, TableError>
    ensures { IfOk result (λ right. IsTrue right ↔ (given.now ≡ want.now)) }
{
    if given == want {
        return Ok(true);
    }
    printed(println!(rt; "{row}: {given}, but wanted {want}"))?;
    Ok(false)
}

fn printed(print: io::Result<()>) -> Result<(), TableError> {
    print.map_err(TableError::Print)
}

/// What a call gave, and what it has to give.
#[derive(Drop)]
pub(crate) struct Row {
    pub(crate) given: String,
    pub(crate) want: String,
}

/// The value of a JSON text; None of any other.
///
/// # Errors
/// Out of memory.
pub(crate) fn value_of(alloc: Global, json: &str) -> Result<Option<Value>, AllocError> {
    match Value::from_str(alloc, json) {
        Ok(value) => Ok(Some(value)),
        Err(error) => match error.classify() {
            Category::Memory => Err(AllocError),
            _ => Ok(None),
        },
    }
}

/// The row of a line, a JSON array of strings: the call, the type or the other text that it is asked for where it
/// needs one, the text, and what it has to give.
///
/// # Errors
/// Out of memory.
pub(crate) fn row_of(alloc: Global, line: &str) -> Result<Row, AllocError> {
    match value_of(alloc, line)? {
        Some(value) => row_of_value(alloc, &value),
        None => no_row(alloc),
    }
}

fn row_of_value(alloc: Global, value: &Value) -> Result<Row, AllocError> {
    match columns(value) {
        Some((call, of, text, want)) => made(alloc, given(alloc, call, of, text), want),
        None => no_row(alloc),
    }
}

/// The call, what it is asked for, the text, and what it has to give.
fn columns(value: &Value) -> Option<(&str, &str, &str, &str)> {
    match value.as_array()?.as_slice() {
        [call, text, want] => Some((call.as_str()?, "", text.as_str()?, want.as_str()?)),
        [call, of, text, want] => {
            Some((call.as_str()?, of.as_str()?, text.as_str()?, want.as_str()?))
        }
        _ => None,
    }
}

/// A row that is wrong, since its line has no columns.
fn no_row(alloc: Global) -> Result<Row, AllocError> {
    made(
        alloc,
        Ok(String::from_str(alloc, "no row")?),
        "three or four strings",
    )
}

/// The row of what a call answered: its text, or that of its error.
fn made(alloc: Global, answer: Result<String, AnyError>, want: &str) -> Result<Row, AllocError>
    ensures given { IfOk answer (λ text. IfOk result (λ row. row.given ≡ text)) }
    ensures want { IfOk result (λ row. string_bytes row.want ≡ want.now) }
{
    let given = said(alloc, answer)?;
    let want = String::from_str(alloc, want)?;
    Ok(Row { given, want })
}

/// What a call answered: its text, or that of its error.
///
/// # Errors
/// Out of memory, here or in the call.
pub(crate) fn said(alloc: Global, answer: Result<String, AnyError>) -> Result<String, AllocError>
    ensures { IfOk answer (λ text. IfOk result (λ said. said ≡ text)) }
{
    let said = match answer {
        Ok(given) => given,
        Err(error) => error.to_string(alloc)?,
    };
    // No text of a geometry, and no other error, is this.
    if said.as_str() == "out of memory" {
        return Err(AllocError);
    }
    Ok(said)
}
