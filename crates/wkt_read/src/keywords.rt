//! Words that have a meaning, whatever the case of their ASCII letters.
ghost use Rattle.std.specs.Prelude.{◌≡◌, ◌<◌, ◌≤◌, ◌++◌, ℕ, Some, None, codes, length, take, IfSome, IfNone};
ghost use Rattle.std.specs.Str.{str_to_ascii_uppercase};
ghost use Rattle.wkt_read.specs.Grammar.{kind_words, kind_word, dim_word, is_empty_word};
ghost use Rattle.std.specs.List.{AllByRecursion};
ghost use Rattle.wkt_read.specs.Header.{begins, named_in, Strips, BeginsKind};
ghost use Rattle.wkt_read.specs.Stream.{Names, IsCapital, BeginsWith};

use wkt_access::Dimension;
use wkt_types::GeometryType;

// Whether the text begins with the word, which is in capitals, whatever the text's case.
#[inline(always)]
#[tactic(auto, using(crate::proofs::HeaderPlaces::upper_short))]
pub(crate) fn begins(word: &[u8], text: &[u8]) -> bool
    requires capitals { AllByRecursion IsCapital word.now }
    ensures { result ≡ begins word.now (str_to_ascii_uppercase text.now) }
{
    if text.len() < word.len() {
        return false;
    }
    let mut i = 0;
    'byte: while i < word.len() {
        // Where the word is a constant, the compiler makes one comparison of the two.
        if text[i] != word[i] && text[i] != word[i].to_ascii_lowercase() {
            return false;
        }
        i += 1;
    }
    true
}

// What follows the word, which is in capitals, at the start of the text, whatever the text's case.
#[inline(always)]
#[tactic(auto, using(crate::proofs::HeaderPlaces::upper_long, crate::proofs::HeaderPlaces::upper_rest))]
fn strip<'a>(word: &[u8], text: &'a [u8]) -> Option<&'a [u8]>
    requires capitals { AllByRecursion IsCapital word.now }
    ensures { Strips result word.now (str_to_ascii_uppercase text.now) }
{
    if begins(word, text) {
        Some(&text[word.len()..])
    } else {
        None
    }
}

// The kind of a header by what follows its first letter, P.
#[inline(always)]
#[tactic(auto, unfolding(crate::specs::Grammar::kind_words))]
fn kind_after_p(rest: &[u8]) -> Option<(GeometryType, &[u8])>
    ensures named { BeginsKind result (codes "P" ++ str_to_ascii_uppercase rest.now) }
{
    if let Some(rest) = strip(b"OINT", rest) {
        Some((GeometryType::Point, rest))
    } else if let Some(rest) = strip(b"OLYGON", rest) {
        Some((GeometryType::Polygon, rest))
    } else {
        None
    }
}

// The kind whose word goes on so after an L, and what follows the word.
#[inline(always)]
#[tactic(auto, unfolding(crate::specs::Grammar::kind_words))]
fn kind_after_l(rest: &[u8]) -> Option<(GeometryType, &[u8])>
    ensures named { BeginsKind result (codes "L" ++ str_to_ascii_uppercase rest.now) }
{
    if let Some(rest) = strip(b"INESTRING", rest) {
        Some((GeometryType::LineString, rest))
    } else if let Some(rest) = strip(b"INEARRING", rest) {
        Some((GeometryType::LineString, rest))
    } else {
        None
    }
}

// The kind whose word goes on so after an M, and what follows the word.
#[inline(always)]
#[tactic(auto, unfolding(crate::specs::Grammar::kind_words))]
fn kind_after_m(rest: &[u8]) -> Option<(GeometryType, &[u8])>
    ensures named { BeginsKind result (codes "M" ++ str_to_ascii_uppercase rest.now) }
{
    let rest = strip(b"ULTI", rest)?;
    if let Some(rest) = strip(b"POINT", rest) {
        Some((GeometryType::MultiPoint, rest))
    } else if let Some(rest) = strip(b"LINESTRING", rest) {
        Some((GeometryType::MultiLineString, rest))
    } else if let Some(rest) = strip(b"POLYGON", rest) {
        Some((GeometryType::MultiPolygon, rest))
    } else {
        None
    }
}

// The kind that the header begins with, and what follows its word. The first letter says which words it can be. It is
// a part of its callers, since each header is read by it.
#[inline(always)]
#[tactic(auto, unfolding(crate::specs::Grammar::kind_words))]
pub(crate) fn kind(header: &[u8]) -> Option<(GeometryType, &[u8])>
    ensures named { BeginsKind result (str_to_ascii_uppercase header.now) }
{
    match header {
        [b'P' | b'p', rest @ ..] => kind_after_p(rest),
        [b'L' | b'l', rest @ ..] => kind_after_l(rest),
        [b'M' | b'm', rest @ ..] => kind_after_m(rest),
        [b'G' | b'g', rest @ ..] => {
            let rest = strip(b"EOMETRYCOLLECTION", rest)?;
            Some((GeometryType::GeometryCollection, rest))
        }
        _ => None,
    }
}

/// The kind that the word names, and the dimension if it is joined to the word.
#[inline(always)]
pub fn kind_of(word: &str) -> Option<(GeometryType, Option<Dimension>)>
    ensures { Names result (kind_word word.now) }
{
    kind_in(word.as_bytes())
}

/// The kind that the word with these bytes names, and the dimension if it is joined to the word.
#[inline(always)]
pub fn kind_in(word: &[u8]) -> Option<(GeometryType, Option<Dimension>)>
    ensures { Names result (kind_word word.now) }
{
    let (kind, rest) = kind(word)?;
    if rest.is_empty() {
        return Some((kind, None));
    }
    // The one kind word that no dimension is joined to.
    if begins(b"LINEARRING", word) {
        return None;
    }
    let dimension = dimension_in(rest)?;
    Some((kind, Some(dimension)))
}

/// The longest word of a kind that the bytes begin with: the kind, the dimension if one is joined to the word, and how many
/// letters that is. More letters may follow.
#[inline(always)]
pub fn kind_front(bytes: &[u8]) -> Option<(GeometryType, Option<Dimension>, usize)>
    ensures word { IfSome result (λ r. BeginsWith bytes.now r.0 r.1 r.2) }
    ensures longest { IfSome result (λ r. (j : ℕ) → r.2 < j → j ≤ length bytes.now → kind_word (take j bytes.now) ≡ None) }
    ensures none { IfNone result (named_in kind_words (str_to_ascii_uppercase bytes.now) ≡ None) }
{
    let (kind, rest) = kind(bytes)?;
    let n = bytes.len() - rest.len();
    // Most words end here.
    if !rest.is_empty() && rest[0] < b'A' {
        return Some((kind, None, n));
    }
    match dimension_front(rest) {
        // The one kind word that no dimension is joined to.
        Some((dimension, more)) if !begins(b"LINEARRING", bytes) => {
            Some((kind, Some(dimension), n + more))
        }
        _ => Some((kind, None, n)),
    }
}

/// The longest word of a dimension that the letters begin with, whatever their case: the dimension, and how many letters
/// that is.
#[inline(always)]
#[tactic(auto, unfolding(crate::specs::Grammar::dim_word))]
pub fn dimension_front(letters: &[u8]) -> Option<(Dimension, usize)>
    ensures names { IfSome result (λ r. dim_word (take r.1 letters.now) ≡ Some r.0) }
    ensures inside { IfSome result (λ r. r.1 ≤ length letters.now) }
    ensures longest { IfSome result (λ r. (j : ℕ) → r.1 < j → j ≤ length letters.now → dim_word (take j letters.now) ≡ None) }
    ensures none { IfNone result ((j : ℕ) → dim_word (take j letters.now) ≡ None) }
{
    match letters {
        [b'Z' | b'z', b'M' | b'm', ..] => Some((Dimension::XYZM, 2)),
        [b'Z' | b'z', ..] => Some((Dimension::XYZ, 1)),
        [b'M' | b'm', ..] => Some((Dimension::XYM, 1)),
        _ => None,
    }
}

/// The dimension that the word names after a kind word alone.
pub fn dimension_of(word: &str) -> Option<Dimension>
    ensures { result ≡ dim_word word.now }
{
    dimension_in(word.as_bytes())
}

/// The dimension that the letters name, whatever their case.
#[inline(always)]
#[tactic(auto, unfolding(crate::specs::Grammar::dim_word))]
pub fn dimension_in(letters: &[u8]) -> Option<Dimension>
    ensures { result ≡ dim_word letters.now }
{
    match letters {
        [b'Z' | b'z'] => Some(Dimension::XYZ),
        [b'M' | b'm'] => Some(Dimension::XYM),
        [b'Z' | b'z', b'M' | b'm'] => Some(Dimension::XYZM),
        _ => None,
    }
}

/// Whether the word is EMPTY.
pub fn is_empty(word: &str) -> bool
    ensures { result ≡ is_empty_word word.now }
{
    is_empty_in(word.as_bytes())
}

/// Whether these bytes are the word EMPTY.
#[inline(always)]
#[tactic(auto, using(crate::proofs::HeaderPlaces::empty_word))]
pub fn is_empty_in(word: &[u8]) -> bool
    ensures { result ≡ is_empty_word word.now }
{
    word.len() == 5 && begins(b"EMPTY", word)
}
