//! The lexemes of a text, one at a time.
ghost use Rattle.std.specs.Prelude.{◌≡◌, ◌≤◌, MatchOption, [], length, false};
ghost use Rattle.wkt_events.specs.Remaining.{remaining_spanned};
ghost use Rattle.wkt_dialects.specs.Pieces.{IsFound};

use wkt_events::{begins_number, byte_at, run_end, skip_white};

/// What a lexeme is.
#[derive(Clone, Copy)]
pub enum Kind {
    Open,
    Close,
    Comma,
    Number,
    Word,
}

/// A lexeme, and from where to where its bytes stand.
#[derive(Clone, Copy)]
pub struct Found {
    pub kind: Kind,
    pub start: usize,
    pub end: usize,
}

/// The lexeme that comes next; `None` where the text ends.
#[inline(always)]
pub(crate) fn lexeme_at(text: &[u8], from: usize) -> Option<Found>
    requires { from ≤ length text.now }
    ensures { MatchOption result (remaining_spanned false text.now from ≡ []) (λ f. IsFound text.now from f) }
{
    let start = skip_white::<false>(text, from);
    let byte = byte_at(text, start);
    if byte == b'(' {
        return Some(Found {
            kind: Kind::Open,
            start,
            end: start + 1,
        });
    }
    if byte == b')' {
        return Some(Found {
            kind: Kind::Close,
            start,
            end: start + 1,
        });
    }
    if byte == b',' {
        return Some(Found {
            kind: Kind::Comma,
            start,
            end: start + 1,
        });
    }
    let end = run_end(text, start);
    if end == start {
        return None;
    }
    if begins_number(text[start]) {
        return Some(Found {
            kind: Kind::Number,
            start,
            end,
        });
    }
    Some(Found {
        kind: Kind::Word,
        start,
        end,
    })
}
