//! A plain, slow program of the definitions of reading. It shares nothing with the readers, and doesn't read as they do:
//! lexemes are a geometry if any cut of them makes one, and the front is the shortest beginning that is one. It has no
//! messages. The plain reader of the fuzz (`tests/fuzz/reader.rs`) has them, and looks one lexeme ahead.
use std::alloc::{AllocError, Global};

/// A lexeme; a number stands without the one `+` that its run may begin with.
#[derive(Clone, Copy)]
pub enum ReferenceLexeme<'a> {
    Open,
    Close,
    Comma,
    Word(&'a [u8]),
    Number(&'a [u8]),
}

// What stands in a list.
#[derive(Clone, Copy)]
enum ReferencePart {
    Coord,
    Ring,
    Poly,
    Member,
    Geometry,
}

fn is_white(byte: u8) -> bool {
    byte == b' ' || byte == b'\n' || byte == b'\r' || byte == b'\t'
}

fn is_run(byte: u8) -> bool {
    !is_white(byte) && byte != b'(' && byte != b')' && byte != b',' && byte != 0
}

// The lexeme of a run.
fn of_run(run: &[u8]) -> ReferenceLexeme<'_> {
    match run {
        [b'+', number @ ..] => ReferenceLexeme::Number(number),
        [b'.' | b'-' | b'0'..=b'9', ..] => ReferenceLexeme::Number(run),
        _ => ReferenceLexeme::Word(run),
    }
}

// The longest run at the front, and what follows it.
fn cut_run(text: &[u8]) -> (&[u8], &[u8]) {
    for n in 0..text.len() {
        if !is_run(text[n]) {
            return (&text[..n], &text[n..]);
        }
    }
    (text, &text[text.len()..])
}

// The lexeme that begins at the first byte, and what follows it.
fn first_lexeme(text: &[u8]) -> Option<(ReferenceLexeme<'_>, &[u8])> {
    match text {
        [] | [0, ..] => None,
        [b'(', rest @ ..] => Some((ReferenceLexeme::Open, rest)),
        [b')', rest @ ..] => Some((ReferenceLexeme::Close, rest)),
        [b',', rest @ ..] => Some((ReferenceLexeme::Comma, rest)),
        _ => {
            let (run, rest) = cut_run(text);
            Some((of_run(run), rest))
        }
    }
}

// The lexeme after white space, and what follows it.
fn next_lexeme(text: &[u8]) -> Option<(ReferenceLexeme<'_>, &[u8])> {
    for n in 0..text.len() {
        if !is_white(text[n]) {
            return first_lexeme(&text[n..]);
        }
    }
    None
}

/// The lexemes of a text.
pub fn lexemes<'a>(alloc: Global, text: &'a [u8]) -> Result<Vec<ReferenceLexeme<'a>>, AllocError> {
    let mut found = Vec::new(alloc);
    let mut rest = text;
    for _ in 0..text.len() {
        match next_lexeme(rest) {
            Some((lexeme, more)) => {
                found.push(lexeme)?;
                rest = more;
            }
            None => return Ok(found),
        }
    }
    Ok(found)
}

/// A whole number of few digits: an optional sign and at least one digit.
pub fn whole(run: &[u8]) -> Option<i32> {
    str::from_utf8(run).ok()?.parse().ok()
}

const REFERENCE_KINDS: [(&str, &str); 8] = [
    ("POINT", "POINT"),
    ("LINESTRING", "LINESTRING"),
    ("LINEARRING", "LINESTRING"),
    ("POLYGON", "POLYGON"),
    ("MULTIPOINT", "MULTIPOINT"),
    ("MULTILINESTRING", "MULTILINESTRING"),
    ("MULTIPOLYGON", "MULTIPOLYGON"),
    ("GEOMETRYCOLLECTION", "GEOMETRYCOLLECTION"),
];

// The kind that a kind word with no dimension joined names.
fn kind(run: &[u8]) -> Option<&'static str> {
    for (word, name) in REFERENCE_KINDS {
        if run == word.as_bytes() {
            return Some(name);
        }
    }
    None
}

fn dimension(run: &[u8]) -> Option<&'static str> {
    match run {
        [b'Z'] => Some(" Z"),
        [b'M'] => Some(" M"),
        [b'Z', b'M'] => Some(" ZM"),
        _ => None,
    }
}

// A kind word and the dimension joined to it.
fn joined(run: &[u8]) -> Option<(&'static str, &'static str)> {
    for n in 0..run.len() {
        if &run[..n] == b"LINEARRING".as_slice() {
            return None;
        }
        if let (Some(name), Some(dimension)) = (kind(&run[..n]), dimension(&run[n..])) {
            return Some((name, dimension));
        }
    }
    None
}

// The kind and the dimension of a whole header.
fn header(lexemes: &[ReferenceLexeme<'_>]) -> Option<(&'static str, &'static str)> {
    match lexemes {
        [ReferenceLexeme::Word(run)] => match kind(run) {
            Some(name) => Some((name, "")),
            None => joined(run),
        },
        [ReferenceLexeme::Word(run), ReferenceLexeme::Word(word)] => match (
            kind(run),
            dimension(word),
        ) {
            (Some(name), Some(dimension)) => Some((name, dimension)),
            _ => None,
        },
        _ => None,
    }
}

fn is_empty_word(lexemes: &[ReferenceLexeme<'_>]) -> bool {
    match lexemes {
        [ReferenceLexeme::Word(run)] => *run == b"EMPTY".as_slice(),
        _ => false,
    }
}

// What stands in the parentheses, if the lexemes are in parentheses.
fn within<'b, 'a>(lexemes: &'b [ReferenceLexeme<'a>]) -> Option<&'b [ReferenceLexeme<'a>]> {
    match lexemes {
        [ReferenceLexeme::Open, body @ .., ReferenceLexeme::Close] => Some(body),
        _ => None,
    }
}

// The text of a coordinate of so many numbers.
fn coord(
    alloc: Global,
    size: usize,
    lexemes: &[ReferenceLexeme<'_>],
) -> Result<Option<String>, AllocError> {
    if lexemes.len() != size {
        return Ok(None);
    }
    let mut text = String::new(alloc);
    for lexeme in lexemes {
        let ReferenceLexeme::Number(run) = lexeme else {
            return Ok(None);
        };
        let Some(number) = whole(run) else {
            return Ok(None);
        };
        if !text.is_empty() {
            text.push(' ')?;
        }
        text.push_str(&format!(in alloc; "{number}")?)?;
    }
    Ok(Some(text))
}

// The text in parentheses.
fn bracketed(alloc: Global, text: Option<String>) -> Result<Option<String>, AllocError> {
    match text {
        Some(text) => Ok(Some(format!(in alloc; "({text})")?)),
        None => Ok(None),
    }
}

// EMPTY, or a coordinate in parentheses.
fn perhaps(
    alloc: Global,
    size: usize,
    lexemes: &[ReferenceLexeme<'_>],
) -> Result<Option<String>, AllocError> {
    if is_empty_word(lexemes) {
        return Ok(Some(String::from_str(alloc, "EMPTY")?));
    }
    match within(lexemes) {
        Some(body) => bracketed(alloc, coord(alloc, size, body)?),
        None => Ok(None),
    }
}

// A member of a multipoint: a coordinate, in parentheses or not, or EMPTY.
fn member(
    alloc: Global,
    size: usize,
    lexemes: &[ReferenceLexeme<'_>],
) -> Result<Option<String>, AllocError> {
    match coord(alloc, size, lexemes)? {
        Some(text) => bracketed(alloc, Some(text)),
        None => perhaps(alloc, size, lexemes),
    }
}

// A polygon whose exterior is empty is written as an empty one.
fn polygon(alloc: Global, rings: Option<String>) -> Result<Option<String>, AllocError> {
    match rings {
        Some(text) if text.starts_with("(EMPTY") => { Ok(Some(String::from_str(alloc, "EMPTY")?)) }
        other => Ok(other),
    }
}

// The text of an item. The depth bounds the calls; few lexemes never reach it.
#[cycle(grammar)]
fn one(
    alloc: Global,
    depth: usize,
    part: ReferencePart,
    size: usize,
    lexemes: &[ReferenceLexeme<'_>],
) -> Result<Option<String>, AllocError> {
    if depth == 0 {
        return Ok(None);
    }
    match part {
        ReferencePart::Coord => coord(alloc, size, lexemes),
        ReferencePart::Member => member(alloc, size, lexemes),
        ReferencePart::Ring => listed(alloc, depth - 1, ReferencePart::Coord, size, lexemes),
        ReferencePart::Poly => polygon(
            alloc,
            listed(alloc, depth - 1, ReferencePart::Ring, size, lexemes)?,
        ),
        ReferencePart::Geometry => geometry(alloc, depth - 1, lexemes),
    }
}

// EMPTY, or items in parentheses.
#[cycle(grammar)]
fn listed(
    alloc: Global,
    depth: usize,
    item: ReferencePart,
    size: usize,
    lexemes: &[ReferenceLexeme<'_>],
) -> Result<Option<String>, AllocError> {
    if depth == 0 {
        return Ok(None);
    }
    if is_empty_word(lexemes) {
        return Ok(Some(String::from_str(alloc, "EMPTY")?));
    }
    match within(lexemes) {
        Some(body) => bracketed(alloc, many(alloc, depth - 1, item, size, body)?),
        None => Ok(None),
    }
}

// One item or more, with commas between them, by every cut.
#[cycle(grammar)]
fn many(
    alloc: Global,
    depth: usize,
    item: ReferencePart,
    size: usize,
    lexemes: &[ReferenceLexeme<'_>],
) -> Result<Option<String>, AllocError> {
    if depth == 0 {
        return Ok(None);
    }
    for n in 0..lexemes.len() {
        if let [ReferenceLexeme::Comma, rest @ ..] = &lexemes[n..]
            && let Some(first) = one(alloc, depth - 1, item, size, &lexemes[..n])?
            && let Some(more) = many(alloc, depth - 1, item, size, rest)?
        {
            return Ok(Some(format!(in alloc; "{first},{more}")?));
        }
    }
    one(alloc, depth - 1, item, size, lexemes)
}

// What a geometry holds, after its header.
#[cycle(grammar)]
fn body(
    alloc: Global,
    depth: usize,
    name: &str,
    size: usize,
    lexemes: &[ReferenceLexeme<'_>],
) -> Result<Option<String>, AllocError> {
    if depth == 0 {
        return Ok(None);
    }
    match name {
        "POINT" => perhaps(alloc, size, lexemes),
        "LINESTRING" => one(alloc, depth - 1, ReferencePart::Ring, size, lexemes),
        "POLYGON" => one(alloc, depth - 1, ReferencePart::Poly, size, lexemes),
        "MULTIPOINT" => listed(alloc, depth - 1, ReferencePart::Member, size, lexemes),
        "MULTILINESTRING" => listed(alloc, depth - 1, ReferencePart::Ring, size, lexemes),
        "MULTIPOLYGON" => listed(alloc, depth - 1, ReferencePart::Poly, size, lexemes),
        _ => listed(alloc, depth - 1, ReferencePart::Geometry, size, lexemes),
    }
}

// A header and a body, by every cut.
#[cycle(grammar)]
fn geometry(
    alloc: Global,
    depth: usize,
    lexemes: &[ReferenceLexeme<'_>],
) -> Result<Option<String>, AllocError> {
    if depth == 0 {
        return Ok(None);
    }
    for n in 0..lexemes.len() {
        if let Some((name, dimension)) = header(&lexemes[..n])
            && let Some(text) = body(alloc, depth - 1, name, size(dimension), &lexemes[n..])?
        {
            let space = if text.as_str() == "EMPTY" { " " } else { "" };
            return Ok(Some(format!(in alloc; "{name}{dimension}{space}{text}")?));
        }
    }
    Ok(None)
}

fn size(dimension: &str) -> usize {
    match dimension {
        "" => 2,
        " ZM" => 4,
        _ => 3,
    }
}

/// The canonical text of the geometry that the shortest beginning of a text's lexemes stands for.
pub fn front(alloc: Global, text: &str) -> Result<Option<String>, AllocError> {
    let capitals = text.to_ascii_uppercase(alloc)?;
    let lexemes = lexemes(alloc, capitals.as_bytes())?;
    for n in 0..lexemes.len() {
        if let Some(text) = geometry(alloc, 60, &lexemes[..n])? {
            return Ok(Some(text));
        }
    }
    geometry(alloc, 60, &lexemes)
}
