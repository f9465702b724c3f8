//! What a call asks for beside a text: how many places, and whether the text is to be one geometry as a whole.
ghost use Rattle.std.specs.Prelude.{◌≡◌, ◌<◌, ◌≤◌, length, drop, true, false};
ghost use Rattle.wkt_num.specs.Bytes.{AllWhite};
ghost use Rattle.wkt_calls.specs.Answer.{places_in, asks_whole, EndsAsAsked};

use wkt_read::words::is_blank;

/// What is added to the number of places where whole texts are asked for.
const WHOLE: u32 = 256;
/// There are numbers of up to so many places.
pub const MOST_ASKED: u32 = 36;

/// How many places are asked for.
pub fn places_of(options: u32) -> u32
    ensures { result ≡ places_in options }
{
    if options < WHOLE {
        options
    } else {
        options - WHOLE
    }
}

/// Whether there are numbers of as many places as are asked for.
pub fn has_places(options: u32) -> bool
    ensures yes { result ≡ true → places_in options ≤ 36 }
    ensures no { result ≡ false → 36 < places_in options }
{
    options <= MOST_ASKED || (options >= WHOLE && options <= WHOLE + MOST_ASKED)
}

/// Whether whole texts are asked for.
pub(crate) fn asks_whole(options: u32) -> bool
    ensures { result ≡ asks_whole options }
{
    options >= WHOLE
}

/// Whether a geometry that ends there is as asked for.
pub fn ends_as_asked(text: &[u8], end: usize, options: u32) -> bool
    requires { end ≤ length text.now }
    ensures yes { result ≡ true → EndsAsAsked (asks_whole options) text.now end }
    ensures no { result ≡ false → (asks_whole options ≡ true) × (AllWhite (drop end text.now) → ⊥) }
{
    if !asks_whole(options) {
        return true;
    }
    is_blank(&text[end..])
}
