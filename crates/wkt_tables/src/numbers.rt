//! Calls over the number types, by their names.
use crate::calls::Number;
use std::alloc::Global;
use wkt::to_wkt::CountedText;
use wkt::{AnyError, Decimal, WktNum};
use wkt_all_calls::{answer, text_or_message};
use wkt_test_support::{Dash, Letter, Long};

/// What reading a text gives over that number type, if all calls agree.
pub(crate) fn answer_of(alloc: Global, number: &str, text: &str) -> Result<String, AnyError> {
    match number {
        "u8" => answered::<u8>(alloc, text),
        "Letter" => answered::<Letter>(alloc, text),
        "Dash" => answered::<Dash>(alloc, text),
        "Long" => answered::<Long>(alloc, text),
        "Decimal<6>" => answered::<Number>(alloc, text),
        "Decimal<36>" => answered::<Decimal<36>>(alloc, text),
        _ => Ok(String::from_str(alloc, "no such number type")?),
    }
}

fn answered<T: WktNum>(alloc: Global, text: &str) -> Result<String, AnyError> {
    Ok(text_or_message(alloc, answer::<T>(alloc, text))?)
}

/// What is printed of the number of that type that the text is read as.
pub(crate) fn number_of(alloc: Global, number: &str, text: &str) -> Result<String, AnyError> {
    match number {
        "u8" => printed::<u8>(alloc, text),
        "u16" => printed::<u16>(alloc, text),
        "u32" => printed::<u32>(alloc, text),
        "u64" => printed::<u64>(alloc, text),
        "u128" => printed::<u128>(alloc, text),
        "i8" => printed::<i8>(alloc, text),
        "i16" => printed::<i16>(alloc, text),
        "i32" => printed::<i32>(alloc, text),
        "i64" => printed::<i64>(alloc, text),
        "i128" => printed::<i128>(alloc, text),
        "Letter" => printed::<Letter>(alloc, text),
        "Dash" => printed::<Dash>(alloc, text),
        "Long" => printed::<Long>(alloc, text),
        _ => decimal_of(alloc, number, text),
    }
}

fn decimal_of(alloc: Global, number: &str, text: &str) -> Result<String, AnyError> {
    match number {
        "Decimal<0>" => printed::<Decimal<0>>(alloc, text),
        "Decimal<6>" => printed::<Number>(alloc, text),
        "Decimal<18>" => printed::<Decimal<18>>(alloc, text),
        "Decimal<36>" => printed::<Decimal<36>>(alloc, text),
        "Decimal<37>" => printed::<Decimal<37>>(alloc, text),
        _ => Ok(String::from_str(alloc, "no such number type")?),
    }
}

fn printed<T: WktNum>(alloc: Global, text: &str) -> Result<String, AnyError> {
    let Some(number) = T::read_number(text) else {
        return Ok(String::from_str(alloc, "refused")?);
    };
    let mut out = String::new(alloc);
    match number.write_number(&mut CountedText::new(&mut out)) {
        Ok(()) => Ok(out),
        Err(_) => Ok(String::from_str(alloc, "out of memory")?),
    }
}
