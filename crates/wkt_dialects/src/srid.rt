//! The SRID in front of a text.
ghost use Rattle.std.specs.Prelude.{◌≡◌, ◌≤◌, ℕ, List, MatchOption, IsUtf8, length, drop, codes, bytes_eq};
ghost use Rattle.std.specs.Str.{str_to_ascii_uppercase};
ghost use Rattle.wkt_dialects.specs.Dialects.{HasSrid, IsRest};
ghost use Rattle.wkt_dialects.specs.Srids.{IsFrontNumber};

use crate::dialects::Dialects;
use crate::slices::{front, rest};
use wkt_events::{byte_at, skip_white};

/// How many digits an SRID has at most.
const MOST_DIGITS: usize = 9;

/// Whether it is `ID=`, in letters of either case.
fn names_id(word: &[u8]) -> bool
    ensures { result ≡ bytes_eq (str_to_ascii_uppercase word.now) (codes "ID=") }
{
    matches!(word, [b'I' | b'i', b'D' | b'd', b'='])
}

/// Whether it is `SRID=`.
fn names_srid(word: &[u8]) -> bool
    ensures { result ≡ bytes_eq (str_to_ascii_uppercase word.now) (codes "SRID=") }
{
    match word {
        [b'S' | b's', b'R' | b'r', id @ ..] => names_id(id),
        _ => false,
    }
}

/// The number of the digits that the bytes begin with, nine at most, and how many they are.
fn number_in(bytes: &[u8]) -> (u32, usize)
    ensures { IsFrontNumber bytes.now result.0 result.1 }
{
    let mut number = 0;
    let mut count = 0;
    'digits: while count < MOST_DIGITS {
        let byte = byte_at(bytes, count);
        if !byte.is_ascii_digit() {
            return (number, count);
        }
        number = number * 10 + u32::from(byte - b'0');
        count += 1;
    }
    (number, count)
}

/// The SRID in front of a text, and where the text behind it begins.
pub fn split_srid(text: &[u8]) -> Option<(u32, usize)>
    ensures { MatchOption result ((srid : ℕ) (rest : List ℕ) → HasSrid text.now srid rest → ⊥) (λ r. (r.1 ≤ length text.now) × HasSrid text.now r.0 (drop r.1 text.now)) }
{
    let start = skip_white::<false>(text, 0);
    let near = rest(text, start);
    if near.len() < 5 {
        return None;
    }
    let word = front(near, 5);
    if !names_srid(word) {
        return None;
    }
    let behind = rest(text, start + 5);
    let (srid, count) = number_in(behind);
    if count == 0 {
        return None;
    }
    let end = start + 5 + count;
    if byte_at(text, end) != b';' {
        return None;
    }
    Some((srid, end + 1))
}

/// Where what is read of a text begins: behind its SRID, where one is split off.
#[tactic(auto, using(crate::proofs::FrontSrid::rest_text))]
pub fn rest_of(dialects: Dialects, text: &[u8]) -> usize
    ensures inside { result ≤ length text.now }
    ensures rest { IsRest dialects text.now (drop result text.now) }
    ensures utf8 { IsUtf8 text.now → IsUtf8 (drop result text.now) }
{
    if !dialects.srid {
        return 0;
    }
    match split_srid(text) {
        Some((_, at)) => at,
        None => 0,
    }
}
