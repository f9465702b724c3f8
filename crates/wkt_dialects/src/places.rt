//! Places in a text as it was given.
ghost use Rattle.std.specs.Prelude.{◌≡◌, ◌≤◌, length};
ghost use Rattle.wkt_read.specs.Spanned.{spanned};
ghost use Rattle.wkt_dialects.specs.Reading.{ended_before, lexemes_as, IsPlace, IsRestAs};

use crate::dialects::Dialects;
use crate::lexeme::lexeme_at;
use crate::pieces::piece_at;
use crate::spot::Spot;
use wkt_events::skip_white;

/// Behind so many lexemes of a text without its SRID, as it is read: where the last of them ends, and from where to where
/// the bytes of the next one stand; where the text ends, if there is none.
fn places_behind(dialects: Dialects, text: &[u8], count: usize) -> (usize, usize, usize)
    requires { count ≤ length (lexemes_as dialects text.now) }
    ensures { IsPlace dialects text.now count result.0 result.1 result.2 }
{
    let mut at = 0;
    let mut spot = Spot::Elsewhere;
    let mut left = count;
    'pieces: while left > 0 {
        let Some(there) = piece_at(dialects, spot, text, at) else {
            unreachable!();
        };
        at = there.end;
        spot = there.spot;
        left -= 1;
    }
    match piece_at(dialects, spot, text, at) {
        Some(next) => (at, next.start, next.end),
        None => {
            let end = skip_white::<false>(text, at);
            (at, end, end)
        }
    }
}

/// How many lexemes of a text end at this byte or before it.
fn lexemes_before(text: &[u8], upto: usize) -> usize
    ensures { result ≡ ended_before upto (spanned text.now) }
{
    let mut count = 0;
    let mut at = 0;
    'lexemes: while let Some(found) = lexeme_at(text, at) {
        if found.end > upto {
            return count;
        }
        count += 1;
        at = found.end;
    }
    count
}

/// The place in a text without its SRID of a place in `other`, the text that it is read as: where the lexeme ends that is
/// the last one before it, and from where to where the bytes of the next one stand, or where the text ends.
#[tactic(auto, using(crate::proofs::Writing::few_enough))]
pub fn place_in(dialects: Dialects, text: &[u8], other: &[u8], at: usize) -> (usize, usize, usize)
    requires { IsRestAs dialects text.now other.now }
    ensures { IsPlace dialects text.now (ended_before at (spanned other.now)) result.0 result.1 result.2 }
{
    places_behind(dialects, text, lexemes_before(other, at))
}
