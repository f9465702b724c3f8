//! How many numbers the first coordinate of a geometry has.
ghost use Rattle.std.specs.Prelude.{◌≡◌, ◌≤◌, ◌<◌, Some, true, false, length};
ghost use Rattle.wkt_num.specs.Bytes.{Word};
ghost use Rattle.wkt_events.specs.Remaining.{remaining_spanned};
ghost use Rattle.wkt_dialects.specs.Dialects.{counts, dimension_of, first_numbers, is_nan, numbers_there, open_behind};
ghost use Rattle.wkt_dialects.specs.Pieces.{lexeme_in, HasBytes};

use crate::dialects::Dialects;
use crate::lexeme::{Found, Kind, lexeme_at};
use wkt_access::Dimension;
use wkt_read::words::is_empty_in;

/// Whether a word is nan, in letters of either case.
fn is_nan_word(word: &[u8]) -> bool
    ensures { result ≡ is_nan (Word word.now) }
{
    matches!(word, [b'n' | b'N', b'a' | b'A', b'n' | b'N'])
}

/// Whether it is the word nan.
pub(crate) fn is_nan(text: &[u8], found: Found) -> bool
    requires { HasBytes text.now found.start found.end }
    ensures { result ≡ is_nan (lexeme_in text.now found) }
{
    match found.kind {
        Kind::Word => is_nan_word(&text[found.start..found.end]),
        _ => false,
    }
}

/// Whether it is a number of a coordinate, or nan where that is asked for.
fn counts(dialects: Dialects, text: &[u8], found: Found) -> bool
    requires { HasBytes text.now found.start found.end }
    ensures { result ≡ counts dialects (lexeme_in text.now found) }
{
    match found.kind {
        Kind::Number => true,
        _ => dialects.nan && is_nan(text, found),
    }
}

/// How many numbers follow each other from there on.
fn numbers_there(dialects: Dialects, text: &[u8], from: usize) -> usize
    requires { from ≤ length text.now }
    ensures { result ≡ numbers_there dialects (remaining_spanned false text.now from) }
{
    let mut count = 0;
    let mut at = from;
    'numbers: while let Some(found) = lexeme_at(text, at) {
        if !counts(dialects, text, found) {
            return count;
        }
        count += 1;
        at = found.end;
    }
    count
}

/// How many parentheses are open behind a lexeme; none where the geometry is over, or can't begin.
fn open_behind(depth: usize, text: &[u8], found: Found) -> Option<usize>
    requires bytes { HasBytes text.now found.start found.end }
    requires few { depth ≤ length text.now }
    ensures { result ≡ open_behind depth (lexeme_in text.now found) }
{
    match (found.kind, depth) {
        (Kind::Open, _) => Some(depth + 1),
        (_, 0) => None,
        (Kind::Close, 1) => None,
        (Kind::Close, _) => Some(depth - 1),
        (Kind::Comma, _) => Some(depth),
        (Kind::Number, _) => None,
        (Kind::Word, _) => {
            if is_empty_in(&text[found.start..found.end]) {
                Some(depth)
            } else {
                None
            }
        }
    }
}

/// Whether the first coordinate begins, inside a parenthesis or more.
fn begins(dialects: Dialects, depth: usize, text: &[u8], found: Found) -> bool
    requires { HasBytes text.now found.start found.end }
    ensures yes { result ≡ true → (0 < depth) × (counts dialects (lexeme_in text.now found) ≡ true) }
    ensures no { result ≡ false → 0 < depth → counts dialects (lexeme_in text.now found) ≡ false }
{
    if depth == 0 {
        return false;
    }
    counts(dialects, text, found)
}

/// How many numbers the first coordinate has of the geometry whose parenthesis comes next; none where none comes. It looks
/// no further than the first word behind it other than EMPTY, so no lexeme is looked at for two geometries.
pub(crate) fn first_numbers(dialects: Dialects, text: &[u8], from: usize) -> usize
    requires { from ≤ length text.now }
    ensures { result ≡ first_numbers dialects (Some 0) (remaining_spanned false text.now from) }
{
    let mut depth = 0;
    let mut at = from;
    'lexemes: while let Some(found) = lexeme_at(text, at) {
        if begins(dialects, depth, text, found) {
            return numbers_there(dialects, text, at);
        }
        match open_behind(depth, text, found) {
            Some(behind) => depth = behind,
            None => return 0,
        }
        at = found.end;
    }
    0
}

/// The dimension that so many numbers say.
pub(crate) fn dimension_of(count: usize) -> Option<Dimension>
    ensures { result ≡ dimension_of count }
{
    match count {
        3 => Some(Dimension::XYZ),
        4 => Some(Dimension::XYZM),
        _ => None,
    }
}
