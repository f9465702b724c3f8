//! What a lexeme that is refused may come from: spellings of other tools.
ghost use Rattle.std.specs.Prelude.{◌≡◌, ◌-◌, ◌∷◌, [], take, drop, length, false};
ghost use Rattle.std.specs.List.{list_all};
ghost use Rattle.std.specs.Char.{is_ascii_hexdigit};
ghost use Rattle.std.specs.Str.{str_to_ascii_uppercase};
ghost use Rattle.std.specs.Str.Parse.{without_leading_sign};
ghost use Rattle.wkt_num.specs.Decimal.{before_point};
ghost use Rattle.wkt_read.specs.Header.{begins, holds};
ghost use Rattle.wkt_explain.specs.Hints.{begins_word, is_hexadecimal, is_curve, is_surface, is_box, is_missing, kind_hint, begins_number, begins_signed, begins_dash, has_exponent, kept_after, places_in, places_hint, number_hint, is_empty_pair, place_hint, word_hint, hint_at};

use std::fmt;
use std::fmt::Formatter;
use wkt_read::Expected;

/// What a lexeme that is refused may come from. Displayed, it says what to write instead.
#[derive(Clone, Copy, PartialEq, Eq, Debug)]
pub enum Hint {
    /// A byte order mark, in place of a kind word.
    ByteOrderMark,
    /// Well-known binary in hexadecimal digits.
    Hexadecimal,
    /// The `SRID=..;` of EWKT.
    Srid,
    /// A kind with curves.
    Curve,
    /// A kind of surface that isn't read.
    Surface,
    /// A number with an exponent.
    Exponent,
    /// NaN or infinity.
    NoNumber,
    /// A number with more than so many places.
    Places(u32),
    /// A number that is too large.
    Large,
    /// A number after the last of a coordinate.
    Dimension,
    /// Parentheses with nothing between them.
    Empty,
    /// A number that is too large for so many places, and that 18 places hold.
    Fewer,
    /// A comma within a coordinate: a decimal comma, or one between its numbers.
    Comma,
    /// NULL, None or nan, for a missing value.
    Missing,
    /// Quotes around a text or a number.
    Quotes,
    /// A no-break space.
    NoBreakSpace,
    /// A minus sign of typography, or a dash.
    Minus,
    /// A box.
    Box,
    /// GeoJSON, or another text in braces.
    Braces,
    /// A number or a parenthesis, in place of a kind word.
    NoKind,
    /// A number in place of a parenthesis.
    Parenthesis,
}

impl fmt::Display for Hint {
    fn fmt<W: fmt::Write>(&self, f: &mut Formatter<W>) -> fmt::Result {
        f.write_str(match self {
            Hint::ByteOrderMark => "the text begins with a byte order mark",
            Hint::Hexadecimal => "WKB in hexadecimal is not read; ST_AsText gives its text",
            Hint::Srid => "SRID=..; of EWKT is not read; ST_AsText leaves it out",
            Hint::Curve => "curves are not read; ST_CurveToLine gives lines",
            Hint::Surface => "triangles and surfaces are not read; polygons are",
            Hint::Exponent => "exponents are not read; write 0.0000001 for 1e-7",
            Hint::NoNumber => "NaN and infinity are no decimals; EMPTY says that there is no point",
            Hint::Places(places) => return write!(f, "numbers have at most {places} places here"),
            Hint::Large => "the number is too large",
            Hint::Dimension => "a third number needs Z or M, as in POINT Z(1 2 3), and a fourth ZM",
            Hint::Empty => "what holds nothing is written EMPTY, without parentheses",
            Hint::Fewer => "with 18 places the number is read",
            Hint::Comma =>
                "commas separate coordinates, and spaces their numbers; decimals have a point",
            Hint::Missing =>
                "NULL, None and nan are not read; leave the row out, or write POINT EMPTY",
            Hint::Quotes => "quotes are not read; leave them out",
            Hint::NoBreakSpace => "a no-break space is not read as a space; write a plain one",
            Hint::Minus => "a dash or a typographic minus is not read; write the plain -",
            Hint::Box => "boxes are not read; polygons are",
            Hint::Braces =>
                "braces are not read; ST_AsText(ST_GeomFromGeoJSON(..)) gives the text of GeoJSON",
            Hint::NoKind => "a geometry begins with its kind, as in POINT(1 2)",
            Hint::Parenthesis =>
                "numbers stand in parentheses, as in POINT(1 2) and POLYGON((0 0,1 0,0 1,0 0))",
        })
    }
}

/// Whether the text begins with these bytes.
fn begins(front: &[u8], text: &[u8]) -> bool
    ensures { result ≡ begins front.now text.now }
{
    let mut remaining = front;
    let mut rest = text;
    'byte: while let Some((wanted, more)) = remaining.split_first() {
        match rest.split_first() {
            Some((byte, others)) if *byte == *wanted => rest = others,
            _ => return false,
        }
        remaining = more;
    }
    true
}

/// Whether the text begins with these bytes, where its letters count as capitals.
fn begins_word(front: &[u8], text: &[u8]) -> bool
    ensures { result ≡ begins_word front.now text.now }
{
    let mut remaining = front;
    let mut rest = text;
    'byte: while let Some((wanted, more)) = remaining.split_first() {
        match rest.split_first() {
            Some((byte, others)) if byte.to_ascii_uppercase() == *wanted => rest = others,
            _ => return false,
        }
        remaining = more;
    }
    true
}

fn all_hexadecimal(word: &[u8]) -> bool
    ensures { result ≡ list_all is_ascii_hexdigit word.now }
{
    let mut rest = word;
    'byte: while let Some((byte, others)) = rest.split_first() {
        if !byte.is_ascii_hexdigit() {
            return false;
        }
        rest = others;
    }
    true
}

fn is_hexadecimal(word: &[u8]) -> bool
    ensures { result ≡ is_hexadecimal word.now }
{
    word.len() >= 10 && (begins(b"00", word) || begins(b"01", word)) && all_hexadecimal(word)
}

fn is_curve(word: &[u8]) -> bool
    ensures { result ≡ is_curve word.now }
{
    begins_word(b"CIRCULARSTRING", word)
        || begins_word(b"COMPOUNDCURVE", word)
        || begins_word(b"CURVEPOLYGON", word)
        || begins_word(b"MULTICURVE", word)
        || begins_word(b"MULTISURFACE", word)
}

fn is_surface(word: &[u8]) -> bool
    ensures { result ≡ is_surface word.now }
{
    begins_word(b"POLYHEDRALSURFACE", word)
        || begins_word(b"TIN", word)
        || begins_word(b"TRIANGLE", word)
}

fn is_box(word: &[u8]) -> bool
    ensures { result ≡ is_box word.now }
{
    begins_word(b"BOX", word) || begins_word(b"ENVELOPE", word)
}

fn is_missing(word: &[u8]) -> bool
    ensures { result ≡ is_missing word.now }
{
    (word.len() == 4 && (begins_word(b"NULL", word) || begins_word(b"NONE", word)))
        || (word.len() == 3 && begins_word(b"NAN", word))
}

/// What may stand in place of a kind word.
fn of_kind(word: &[u8]) -> Option<Hint>
    ensures { result ≡ kind_hint word.now }
{
    if begins(b"\xef\xbb\xbf", word) {
        Some(Hint::ByteOrderMark)
    } else if is_hexadecimal(word) {
        Some(Hint::Hexadecimal)
    } else if begins_word(b"SRID=", word) {
        Some(Hint::Srid)
    } else if is_curve(word) {
        Some(Hint::Curve)
    } else if is_surface(word) {
        Some(Hint::Surface)
    } else if is_box(word) {
        Some(Hint::Box)
    } else if is_missing(word) {
        Some(Hint::Missing)
    } else if begins(b"{", word) {
        Some(Hint::Braces)
    } else if begins(b"(", word) || begins_signed(word) {
        Some(Hint::NoKind)
    } else {
        None
    }
}

/// The word after its sign.
fn unsigned(word: &[u8]) -> &[u8]
    ensures { result.now ≡ without_leading_sign word.now }
{
    match word {
        [b'-', digits @ ..] => digits,
        [b'+', digits @ ..] => digits,
        _ => word,
    }
}

fn begins_number(digits: &[u8]) -> bool
    ensures { result ≡ begins_number digits.now }
{
    match digits.split_first() {
        Some((byte, _)) => byte.is_ascii_digit() || *byte == b'.',
        None => false,
    }
}

fn begins_signed(word: &[u8]) -> bool
    ensures { result ≡ begins_signed word.now }
{
    begins_number(unsigned(word))
}

fn begins_dash(word: &[u8]) -> bool
    ensures { result ≡ begins_dash word.now }
{
    begins(b"\xe2\x88\x92", word) || begins(b"\xe2\x80\x93", word)
}

fn has_exponent(digits: &[u8]) -> bool
    ensures { result ≡ has_exponent digits.now }
{
    let mut rest = digits;
    'byte: while let Some((byte, others)) = rest.split_first() {
        if *byte == b'e' || *byte == b'E' {
            return true;
        }
        rest = others;
    }
    false
}

/// How many digits follow the point as far as the last that isn't 0, if there are digits with at most one point.
fn places_in(digits: &[u8]) -> Option<usize>
    ensures { result ≡ places_in false digits.now }
{
    let mut rest = digits;
    let mut any = false;
    'byte: while let Some((byte, others)) = rest.split_first() {
        if *byte == b'.' {
            return if any || others.len() > 0 {
                kept_places(others)
            } else {
                None
            };
        }
        if !byte.is_ascii_digit() {
            return None;
        }
        any = true;
        rest = others;
    }
    if any { Some(0) } else { None }
}

/// How many of the digits stand as far as the last that isn't 0, if there are digits alone.
fn kept_places(digits: &[u8]) -> Option<usize>
    ensures { result ≡ kept_after 0 0 digits.now }
{
    let mut rest = digits;
    let mut count = 0;
    let mut kept = 0;
    'byte: while let Some((byte, others)) = rest.split_first() {
        if !byte.is_ascii_digit() {
            return None;
        }
        count += 1;
        if *byte != b'0' {
            kept = count;
        }
        rest = others;
    }
    Some(kept)
}

/// How many digits stand before the point.
fn whole_digits(digits: &[u8]) -> usize
    ensures { result ≡ length (before_point digits.now) }
{
    let mut rest = digits;
    let mut count = 0;
    'byte: while let Some((byte, others)) = rest.split_first() {
        if *byte == b'.' {
            return count;
        }
        count += 1;
        rest = others;
    }
    count
}

/// What a number lacks that is refused where numbers have so many places.
fn of_places(digits: &[u8], places: u32) -> Option<Hint>
    ensures { result ≡ places_hint places digits.now (places_in false digits.now) }
{
    match places_in(digits) {
        None => None,
        Some(n) if n > places as usize => Some(Hint::Places(places)),
        Some(n) if places > 18 && n <= 18 && whole_digits(digits) <= 20 => Some(Hint::Fewer),
        Some(_) => Some(Hint::Large),
    }
}

/// What may stand in place of a number, after its sign.
fn of_number(digits: &[u8], places: u32) -> Option<Hint>
    ensures { result ≡ number_hint places digits.now }
{
    if begins_word(b"NAN", digits) || begins_word(b"INF", digits) || begins(b"1.#", digits) {
        Some(Hint::NoNumber)
    } else if is_missing(digits) {
        Some(Hint::Missing)
    } else if begins_dash(digits) {
        Some(Hint::Minus)
    } else if !begins_number(digits) {
        None
    } else if has_exponent(digits) {
        Some(Hint::Exponent)
    } else {
        of_places(digits, places)
    }
}

/// What the word at the place of a refusal may come from, where this was expected there.
fn of_place(expected: Expected, word: &[u8], places: u32) -> Option<Hint>
    ensures { result ≡ place_hint expected word.now places }
{
    match expected {
        Expected::Kind | Expected::Member => of_kind(word),
        Expected::Y if begins(b",", word) => Some(Hint::Comma),
        Expected::Y => of_number(unsigned(word), places),
        Expected::Point | Expected::X | Expected::Z | Expected::M => {
            of_number(unsigned(word), places)
        }
        Expected::Closing if begins(b",", word) => Some(Hint::Comma),
        Expected::Dimension | Expected::Opening if begins_signed(word) => Some(Hint::Parenthesis),
        Expected::More | Expected::Closing if begins_signed(word) => Some(Hint::Dimension),
        _ => None,
    }
}

fn has_no_break_space(word: &[u8]) -> bool
    ensures { result ≡ holds (194 ∷ 160 ∷ []) word.now }
{
    let mut rest = word;
    'byte: while let Some((_, others)) = rest.split_first() {
        if begins(b"\xc2\xa0", rest) {
            return true;
        }
        rest = others;
    }
    false
}

/// The same, but first what is no part of a word anywhere.
fn of_word(expected: Expected, word: &[u8], places: u32) -> Option<Hint>
    ensures { result ≡ word_hint expected word.now places }
{
    if has_no_break_space(word) {
        Some(Hint::NoBreakSpace)
    } else if begins(b"'", word) || begins(b"\"", word) {
        Some(Hint::Quotes)
    } else {
        of_place(expected, word, places)
    }
}

/// Whether `)` stands at the place, right behind `(`.
fn is_empty_pair(text: &[u8], start: usize) -> bool
    ensures { result ≡ is_empty_pair start text.now }
{
    start > 0 && begins(b"()", from_place(text, start - 1))
}

/// The text from a place on.
fn from_place(text: &[u8], start: usize) -> &[u8]
    ensures { result.now ≡ drop start text.now }
{
    if start < text.len() {
        &text[start..]
    } else {
        &[]
    }
}

/// The text from one place to another.
fn between(text: &[u8], start: usize, end: usize) -> &[u8]
    ensures { result.now ≡ take (end - start) (drop start text.now) }
{
    let rest = from_place(text, start);
    let len = end.saturating_sub(start);
    if len < rest.len() { &rest[..len] } else { rest }
}

/// What may stand from one place of a text to another, where this was expected.
pub(crate) fn hint_at(
    text: &[u8],
    start: usize,
    end: usize,
    expected: Expected,
    places: u32,
) -> Option<Hint>
    ensures { result ≡ hint_at text.now start end expected places }
{
    if is_empty_pair(text, start) {
        return Some(Hint::Empty);
    }
    of_word(expected, between(text, start, end), places)
}
