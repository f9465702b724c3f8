//! Texts that are deep or long.
use crate::asserts::{LISTS, equal, holds};
use std::alloc::{AllocError, Global};
use std::process::Abort;
use std::test::Fail;
use wkt::geo_types::Geometry;
use wkt::tokenizer::Tokens;
use wkt::{Decimal, FromWktStr, ToWkt, TryFromWkt, Wkt, infer_type, same_geometry};
use wkt_all_calls::{answer, text_or_message};

const NO_KIND_TEXT: &str = "Invalid type encountered";

const NO_CLOSING: &str = "Missing closing parenthesis for type";

// What a text over decimals of six places gives.
fn gives(alloc: Global, text: &str) -> Result<String, AllocError> {
    text_or_message(alloc, answer::<Decimal<6>>(alloc, text))
}

// A point in so many collections, with so many closing parentheses after it.
fn nested(alloc: Global, opened: usize, closed: usize) -> Result<String, AllocError> {
    let mut text = String::new(alloc);
    for _ in 0..opened {
        text.push_str("GEOMETRYCOLLECTION(")?;
    }
    text.push_str("POINT(1 2)")?;
    for _ in 0..closed {
        text.push(')')?;
    }
    Ok(text)
}

#[test]
fn depth(rt: HostRuntime) -> Result<(), Fail> {
    let alloc = rt.alloc();
    let text = nested(alloc, 300, 300)?;
    equal(&rt, text.len(), 6010);
    holds(&rt, gives(alloc, &text)?.as_str() == text.as_str());
    let open = nested(alloc, 300, 299)?;
    equal(&rt, gives(alloc, &open)?.as_str(), NO_CLOSING);
    for text in [text.as_str(), open.as_str()] {
        let (kind, dimension) = infer_type(alloc, text)?;
        equal(
            &rt,
            format!(in alloc; "{kind:?} {dimension:?}")?.as_str(),
            "GeometryCollection XY",
        );
    }
    Ok(())
}

// The text of a copy of the geometry made canonical, if the copy is equal by both calls that compare.
fn copied(alloc: Global, text: &str) -> Result<String, Fail> {
    let geometry = Wkt::<Decimal<6>>::from_str(alloc, text)?;
    copy_text(alloc, &geometry)
}

fn copy_text(alloc: Global, geometry: &Wkt<Decimal<6>>) -> Result<String, Fail> {
    let copy = geometry.try_clone(alloc)?;
    if copy == *geometry && same_geometry(&copy, geometry) {
        Ok(copy.into_canonical().to_string(alloc)?)
    } else {
        Err(Fail::from("a copy that is equal"))
    }
}

// The text of the two-dimensional geometry of the text, if its `Wkt` has the same.
fn converted(alloc: Global, text: &str) -> Result<String, Fail> {
    let geometry = Geometry::<Decimal<6>>::try_from_wkt_str(alloc, text)?;
    flat_text(alloc, &geometry)
}

fn flat_text(alloc: Global, geometry: &Geometry<Decimal<6>>) -> Result<String, Fail> {
    let text = geometry.wkt_string(alloc)?;
    if back_text(alloc, geometry)?.as_str() == text.as_str() {
        Ok(text)
    } else {
        Err(Fail::from("a text that is the same"))
    }
}

fn back_text(alloc: Global, geometry: &Geometry<Decimal<6>>) -> Result<String, AllocError> {
    geometry.to_wkt(alloc)?.to_string(alloc)
}

// As many levels as README says that a stack of 8 MB carries.
#[test]
fn great_depth(rt: HostRuntime) -> Result<(), Fail> {
    let alloc = rt.alloc();
    let text = nested(alloc, 10000, 10000)?;
    holds(&rt, copied(alloc, &text)?.as_str() == text.as_str());
    holds(&rt, converted(alloc, &text)?.as_str() == text.as_str());
    let open = nested(alloc, 10000, 9999)?;
    holds(&rt, Wkt::<Decimal<6>>::from_str(alloc, &open).is_err());
    Ok(())
}

// How many collections of one member hold each other here, counted to `most`.
fn levels<T>(wkt: &Wkt<T>, most: usize) -> usize {
    let mut here = wkt;
    for level in 0..most {
        match here {
            Wkt::GeometryCollection(c) => match c.geometries() {
                [inner] => here = inner,
                _ => return level,
            },
            _ => return level,
        }
    }
    most
}

// Deeper than any recursion would carry.
#[test]
fn conversions_at_any_depth(rt: HostRuntime) -> Result<(), Fail> {
    let alloc = rt.alloc();
    let text = nested(alloc, 200_000, 200_000)?;
    let flat = Geometry::<i32>::try_from_wkt_str(alloc, &text)?;
    let back = flat.to_wkt(alloc)?;
    equal(&rt, levels(&back, 200_001), 200_000);
    Ok(())
}

// The canonical text of a kind word and so many members.
fn members(alloc: Global, word: &str, member: &str, n: usize) -> Result<String, AllocError> {
    let mut text = String::from_str(alloc, word)?;
    text.push('(')?;
    for i in 0..n {
        if i > 0 {
            text.push(',')?;
        }
        text.push_str(member)?;
    }
    text.push(')')?;
    Ok(text)
}

// A canonical text of so many parts gives itself, as a two-dimensional geometry too.
fn gives_itself(
    rt: &impl Abort,
    alloc: Global,
    text: &str,
    n: usize,
    of: &str,
) -> Result<(), Fail> {
    let is_given = gives(alloc, text)?.as_str() == text;
    let is_converted = converted(alloc, text)?.as_str() == text;
    equal(rt, (n, of, is_given, is_converted), (n, of, true, true));
    Ok(())
}

// Lists of so many members give themselves.
fn lists_of(rt: &impl Abort, alloc: Global, n: usize) -> Result<(), Fail> {
    for (word, member) in LISTS {
        let text = members(alloc, word, member, n)?;
        gives_itself(rt, alloc, &text, n, word)?;
    }
    Ok(())
}

// A reader, a copy or a constructor that gives up above a size fails here.
#[test]
fn ample_memory(rt: HostRuntime) -> Result<(), Fail> {
    for n in 1..=300 {
        lists_of(&rt, rt.alloc(), n)?;
    }
    lists_of(&rt, rt.alloc(), 100000)
}

#[test]
fn multi_polygons_of_many_rings(rt: HostRuntime) -> Result<(), Fail> {
    let alloc = rt.alloc();
    for n in 1..=300 {
        rings_of(&rt, alloc, n)?;
    }
    rings_of(&rt, alloc, 100_000)
}

// A polygon of so many rings gives itself.
fn rings_of(rt: &impl Abort, alloc: Global, n: usize) -> Result<(), Fail> {
    let mut text = members(alloc, "MULTIPOLYGON(", "(1 2)", n)?;
    text.push(')')?;
    gives_itself(rt, alloc, &text, n, "the rings")
}

#[test]
fn long_numbers(rt: HostRuntime) -> Result<(), Fail> {
    let alloc = rt.alloc();
    let zeros = "0".repeat(alloc, 100000)?;
    let text = format!(in alloc; "POINT({zeros}1 0.5{zeros})")?;
    equal(&rt, gives(alloc, &text)?.as_str(), "POINT(1 0.5)");
    let word = "A".repeat(alloc, 100000)?;
    equal(&rt, gives(alloc, &word)?.as_str(), NO_KIND_TEXT);
    Ok(())
}

// Whether a text has just so many lexemes.
fn has_lexemes(text: &str, count: usize) -> bool {
    let mut tokens = Tokens::<Decimal<6>>::from_str(text);
    for _ in 0..count {
        if tokens.next().is_none() {
            return false;
        }
    }
    tokens.next().is_none() && tokens.next().is_none()
}

// Whether a text is one number that has no reading.
fn is_one_bad_number(text: &str) -> bool {
    let mut tokens = Tokens::<Decimal<6>>::from_str(text);
    match tokens.next() {
        Some(Err(_)) => tokens.next().is_none(),
        _ => false,
    }
}

// So many of that character.
fn long_run(alloc: Global, of: char) -> Result<String, AllocError> {
    let mut text = String::new(alloc);
    for _ in 0..100000 {
        text.push(of)?;
    }
    Ok(text)
}

// A long run of each of those characters has so many lexemes.
fn runs_have(
    rt: &impl Abort,
    alloc: Global,
    characters: &str,
    lexemes: usize,
) -> Result<(), AllocError> {
    for of in characters.chars() {
        let text = long_run(alloc, of)?;
        equal(rt, (of, has_lexemes(&text, lexemes)), (of, true));
    }
    Ok(())
}

#[test]
fn long_runs_of_each_class(rt: HostRuntime) -> Result<(), Fail> {
    let alloc = rt.alloc();
    runs_have(&rt, alloc, " \n\r\t\0", 0)?;
    runs_have(&rt, alloc, "019+-.Az¾", 1)?;
    runs_have(&rt, alloc, "(),", 100000)?;
    // Of these, a long run is a number that no type reads.
    for of in "+-.19".chars() {
        let text = long_run(alloc, of)?;
        equal(&rt, (of, is_one_bad_number(&text)), (of, true));
    }
    Ok(())
}
