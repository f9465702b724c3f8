//! A text in dialects, and the text that it is read as.
ghost use Rattle.std.specs.Prelude.{◌≡◌, ◌≤◌, ◌<◌, ◌%◌, ◌⊎◌, MatchResult, IsUtf8, [], length, true, false};
ghost use Rattle.wkt_calls.specs.Dialects.{AsksDialects, HoldsRest, IsReadable, IsAsRead, IsPlaced, IsProblemIn, IsHintIn, IsUnexplainedIn};

use crate::explain::{number_of_hint, problem};
use crate::options::{has_places, places_of};
use crate::status::{ACCEPTED, MEMORY, NOT_TEXT};
use wkt_dialects::{Dialects, NoRoom, Put, dialects_in, place_in, rest_of, write_as_read};
use wkt_explain::{Problem, Refusal};

/// What is added to the number of places, and to 256 where whole texts are asked for, to ask for a dialect: the first of
/// four, each twice the one before.
const FIRST: u32 = 512;
/// What comes behind the last.
const BEYOND: u32 = 8192;

/// Whether dialects are asked for that there are, and numbers of as many places.
pub fn has_dialects(options: u32) -> bool
    ensures yes { result ≡ true → AsksDialects options }
    ensures no { result ≡ false → AsksDialects options → ⊥ }
{
    if options < FIRST {
        return false;
    }
    if options >= BEYOND {
        return false;
    }
    has_places(without_dialects(options))
}

/// What is asked for beside the dialects.
pub fn without_dialects(options: u32) -> u32
    ensures { result ≡ options % 512 }
{
    options % FIRST
}

/// The text that a text is read as.
#[derive(Clone, Copy)]
pub struct AsRead<'a> {
    dialects: Dialects,
    /// Where the text begins behind its SRID.
    from: usize,
    /// The text behind its SRID.
    rest: &'a [u8],
    /// Whether the text that is read is another.
    written: bool,
    /// The text that is read.
    pub text: &'a [u8],
}

/// A text behind its SRID, as it stands.
pub fn behind_srid(text: &[u8], options: u32) -> AsRead<'_>
    ensures rest { HoldsRest options text.now result }
    ensures same { result.written ≡ false }
    ensures text { result.text.now ≡ result.rest.now }
    ensures utf8 { IsUtf8 text.now → IsUtf8 result.text.now }
{
    let dialects = dialects_in(options);
    let from = rest_of(dialects, text);
    let rest = &text[from..];
    AsRead {
        dialects,
        from,
        rest,
        written: false,
        text: rest,
    }
}

/// The text that a text is read as in the dialects: where it begins with no geometry as it stands, another, which is written.
pub fn read_as<'a, P: Put>(
    text: &'a [u8],
    options: u32,
    other: &'a mut P,
) -> Result<AsRead<'a>, u32>
    requires asks { AsksDialects options }
    requires nothing { P.written other.old ≡ [] }
    ensures { MatchResult result (λ r. IsAsRead options text.now r)
        (λ s. (s ≡ MEMORY) ⊎ ((s ≡ NOT_TEXT) × (IsUtf8 text.now → ⊥))) }
{
    let plain = behind_srid(text, options);
    match problem(plain.text, places_of(without_dialects(options))) {
        Ok(_) => {}
        Err(status) => {
            if status == ACCEPTED {
                return Ok(plain);
            }
            return Err(NOT_TEXT);
        }
    }
    match write_as_read(plain.dialects, plain.rest, other) {
        Ok(()) => {}
        Err(NoRoom) => return Err(MEMORY),
    }
    Ok(AsRead {
        dialects: plain.dialects,
        from: plain.from,
        rest: plain.rest,
        written: true,
        text: other.bytes(),
    })
}

impl AsRead<'_> {
    /// A place of the text that is read, in the text as it was given: where the lexeme ends that is the last one before it,
    /// and from where to where the bytes of the next one stand.
    pub fn place(&self, at: usize) -> (usize, usize, usize)
        requires readable { IsReadable self.now }
        requires inside { at ≤ length self.now.text.now }
        ensures { IsPlaced self.now at result.0 result.1 result.2 }
    {
        let from = self.from;
        if !self.written {
            return (from + at, from + at, from + at);
        }
        let (behind, start, end) = place_in(self.dialects, self.rest, self.text, at);
        (from + behind, from + start, from + end)
    }
}

/// Why a text isn't accepted in the dialects, by places of the text as it was given; or the status of a text that is
/// accepted, or that is no text, or for which there is no room.
pub fn problem_in<P: Put>(text: &[u8], options: u32, other: &mut P) -> Result<Problem, u32>
    requires asks { AsksDialects options }
    requires nothing { P.written other.old ≡ [] }
    ensures { MatchResult result (λ p. IsProblemIn options text.now p) (IsUnexplainedIn options text.now) }
{
    let read = match read_as(text, options, other) {
        Ok(read) => read,
        Err(status) => return Err(status),
    };
    match problem(read.text, without_dialects(options)) {
        Ok(Problem::Refused(why)) => {
            let (_, start, end) = read.place(why.start);
            Ok(Problem::Refused(Refusal {
                message: why.message,
                start,
                end,
                expected: why.expected,
            }))
        }
        Ok(Problem::Rest(at)) => {
            let (_, start, _) = read.place(at);
            Ok(Problem::Rest(start))
        }
        Err(status) => Err(status),
    }
}

/// The number of the hint for the lexeme with which a text is refused in the dialects, of the text that it is read as; none
/// where more than white space follows its geometry, and a whole text is asked for. Or a status, as there.
pub fn hint_in<P: Put>(text: &[u8], options: u32, other: &mut P) -> Result<Option<u32>, u32>
    requires asks { AsksDialects options }
    requires nothing { P.written other.old ≡ [] }
    ensures { MatchResult result (IsHintIn options text.now) (IsUnexplainedIn options text.now) }
{
    let read = match read_as(text, options, other) {
        Ok(read) => read,
        Err(status) => return Err(status),
    };
    let plain = without_dialects(options);
    match problem(read.text, plain) {
        Ok(Problem::Refused(why)) => Ok(Some(number_of_hint(why.hint(
            read.text,
            places_of(plain),
        )))),
        Ok(Problem::Rest(_)) => Ok(None),
        Err(status) => Err(status),
    }
}
