//! One operation of the library done to each line, so that what it costs can be counted: `bench/operations.sh` does that,
//! and the same program over the Rust crate stands in `bench/rust`.
use crate::table::TableError;
use std::alloc::{AllocError, Global};
use wkt::error::Error as WriteError;
use wkt::geo_types::Geometry;
use wkt::geo_types_from_wkt::{Error as ConvertError, try_into_geometry};
use wkt::to_wkt::{Counted, push_geometry};
use wkt::tokenizer::{Token, Tokens};
use wkt::types::Dimension;
use wkt::{
    AnyError, Decimal, FromWktStr, InferError, ReadError, ToWkt, ToWktError, TryFromWkt,
    WholeError, Wkt, WktNum, canonical_text, infer_type, read_whole,
};

/// Does the operation of each word to each line, over numbers of this name, `decimal` or `i64`. Prints of each how many
/// lines were answered, of how many, and the size of all answers.
pub(crate) fn count_all(
    rt: &impl Print,
    alloc: Global,
    words: &[String],
    text: &str,
) -> Result<(), TableError> {
    let Some((number, operations)) = words.split_first() else {
        return Err(TableError::Usage);
    };
    for word in operations {
        let counted = match number.as_str() {
            "decimal" => count::<Decimal<18>>(alloc, operation_of(word)?, text),
            "i64" => count::<i64>(alloc, operation_of(word)?, text),
            _ => return Err(TableError::Usage),
        };
        let (lines, answered, size) = counted.map_err(TableError::Memory)?;
        println!(rt; "{word}: {answered} of {lines} lines answered, {size} in all").map_err(
            TableError::Print,
        )?;
    }
    Ok(())
}

/// What is done to a line: nothing, or the call of its name.
#[derive(Clone, Copy)]
enum Operation {
    Lines,
    Tokens,
    Infer,
    Canonical,
    Parse(OfWkt),
    Whole,
    Flat(OfFlat),
}

/// What is done to a geometry of well-known text that was read.
#[derive(Clone, Copy)]
enum OfWkt {
    Nothing,
    ToString,
    Display,
    Push,
    ToFlat,
}

/// What is done to a two-dimensional geometry that was read.
#[derive(Clone, Copy)]
enum OfFlat {
    Nothing,
    ToWkt,
    WktString,
    WriteWkt,
}

fn operation_of(word: &str) -> Result<Operation, TableError> {
    Ok(match word {
        "lines" => Operation::Lines,
        "tokens" => Operation::Tokens,
        "infer" => Operation::Infer,
        "canonical" => Operation::Canonical,
        "whole" => Operation::Whole,
        "parse" => Operation::Parse(OfWkt::Nothing),
        "to_string" => Operation::Parse(OfWkt::ToString),
        "display" => Operation::Parse(OfWkt::Display),
        "push" => Operation::Parse(OfWkt::Push),
        "to_flat" => Operation::Parse(OfWkt::ToFlat),
        "flat" => Operation::Flat(OfFlat::Nothing),
        "to_wkt" => Operation::Flat(OfFlat::ToWkt),
        "wkt_string" => Operation::Flat(OfFlat::WktString),
        "write_wkt" => Operation::Flat(OfFlat::WriteWkt),
        _ => return Err(TableError::Usage),
    })
}

/// How many lines there are, how many of them were answered, and the size of all answers.
fn count<T: WktNum>(
    alloc: Global,
    operation: Operation,
    text: &str,
) -> Result<(u64, u64, usize), AllocError> {
    let (mut lines, mut answered, mut size) = (0u64, 0u64, 0usize);
    let mut buffer = Vec::new(alloc);
    for line in text.lines() {
        lines = lines.wrapping_add(1);
        buffer.clear();
        match answer::<T>(alloc, operation, line, &mut buffer) {
            Ok(one) => {
                answered = answered.wrapping_add(1);
                size = size.wrapping_add(one);
            }
            Err(error) if is_out_of_memory(&error) => return Err(AllocError),
            Err(_) => {}
        }
    }
    Ok((lines, answered, size))
}

/// Does the operation to a line, and returns the size of its answer: the bytes of a text, the count of lexemes, 1 for what
/// was read and, so that it is looked at, a small number for what was converted. The buffer is empty.
fn answer<T: WktNum>(
    alloc: Global,
    operation: Operation,
    line: &str,
    buffer: &mut Vec<u8>,
) -> Result<usize, AnyError> {
    match operation {
        Operation::Lines => Ok(line.len()),
        Operation::Tokens => Ok(count_tokens::<T>(line)),
        Operation::Infer => Ok(size_of(infer_type(alloc, line)?.1)),
        Operation::Canonical => Ok(canonical_text::<T>(alloc, line)?.len()),
        Operation::Parse(next) => from_wkt(alloc, next, &Wkt::<T>::from_str(alloc, line)?),
        Operation::Whole => from_wkt(alloc, OfWkt::Nothing, &read_whole::<T>(alloc, line)?),
        Operation::Flat(next) => {
            let flat = Geometry::<T>::try_from_wkt_str(alloc, line)?;
            from_flat(alloc, next, &flat, buffer)
        }
    }
}

fn from_wkt<T: WktNum>(alloc: Global, next: OfWkt, geometry: &Wkt<T>) -> Result<usize, AnyError> {
    match next {
        OfWkt::Nothing => Ok(1),
        OfWkt::ToString => Ok(geometry.to_string(alloc)?.len()),
        OfWkt::Display => Ok(format!(in alloc; "{geometry}")?.len()),
        OfWkt::Push => {
            let mut text = String::new(alloc);
            push_geometry(&mut text, geometry)?;
            Ok(text.len())
        }
        OfWkt::ToFlat => Ok(size_of_flat(&try_into_geometry(alloc, geometry)?)),
    }
}

fn from_flat<T: WktNum>(
    alloc: Global,
    next: OfFlat,
    flat: &Geometry<T>,
    buffer: &mut Vec<u8>,
) -> Result<usize, AnyError> {
    match next {
        OfFlat::Nothing => Ok(1),
        OfFlat::ToWkt => Ok(size_of(flat.to_wkt(alloc)?.dimension())),
        OfFlat::WktString => Ok(flat.wkt_string(alloc)?.len()),
        OfFlat::WriteWkt => {
            flat.write_wkt(alloc, &mut Counted::new(&mut *buffer))?;
            Ok(buffer.len())
        }
    }
}

/// How many numbers a coordinate has. It isn't inlined, so that no part of a geometry is left out.
#[inline(never)]
fn size_of(dimension: Dimension) -> usize {
    match dimension {
        Dimension::XY => 2,
        Dimension::XYZ | Dimension::XYM => 3,
        Dimension::XYZM => 4,
    }
}

/// 1 for a point, 0 for any other. It isn't inlined either.
#[inline(never)]
fn size_of_flat<T: WktNum>(geometry: &Geometry<T>) -> usize {
    match geometry {
        Geometry::Point(_) => 1,
        _ => 0,
    }
}

/// How many lexemes there are before the first that isn't read, and how many numbers are like the one before them: so each
/// number is looked at, and none is left out.
fn count_tokens<T: WktNum>(line: &str) -> usize {
    let mut count = 0usize;
    let mut before = None;
    for token in Tokens::<T>::from_str(line) {
        let Ok(token) = token else {
            break;
        };
        if let Token::Number(number) = token {
            if before == Some(number) {
                count = count.saturating_add(1);
            }
            before = Some(number);
        }
        count = count.saturating_add(1);
    }
    count
}

/// Whether an operation gave no answer since memory ran out. Otherwise the line was refused.
fn is_out_of_memory(error: &AnyError) -> bool {
    match error {
        AnyError::Memory(_)
        | AnyError::Read(ReadError::Memory(_))
        | AnyError::Whole(WholeError::Read(ReadError::Memory(_)))
        | AnyError::Infer(InferError::Memory(_))
        | AnyError::Convert(ConvertError::Memory(_))
        | AnyError::Write(WriteError::Memory(_) | WriteError::FmtError(_))
        | AnyError::Send(ToWktError::Shape(WriteError::Memory(_)) | ToWktError::Io(_)) => true,
        _ => false,
    }
}
