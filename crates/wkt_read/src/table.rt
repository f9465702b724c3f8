//! The message of a place, by what is expected there and what was found: a row of the table of `docs/GRAMMAR.md`.
ghost use Rattle.std.specs.Prelude.{◌≡◌};
ghost use Rattle.wkt_read.specs.Table.{at_end, at_other, at_word, at_bad};

use crate::expected::Expected;
use crate::messages::Message;

/// The message where nothing stands.
pub fn at_end(expected: Expected) -> Message
    ensures { result ≡ at_end expected }
{
    match expected {
        Expected::Kind => Message::Format,
        Expected::Member => Message::Member,
        Expected::Dimension => Message::End,
        Expected::Opening => Message::Open,
        Expected::Point | Expected::X => Message::X,
        Expected::Y => Message::Y,
        Expected::Z => Message::Z,
        Expected::M => Message::M,
        Expected::More | Expected::Closing => Message::Close,
    }
}

/// The message where a mark stands, or a number of the type.
pub fn at_other(expected: Expected) -> Message
    ensures { result ≡ at_other expected }
{
    match expected {
        Expected::Dimension => Message::Open,
        _ => at_end(expected),
    }
}

#[tactic(auto, using(crate::proofs::Answering::all_ascii, crate::proofs::Answering::not_ascii))]
fn at_first_word(word: &[u8]) -> Message
    ensures { result ≡ at_word Expected.Kind word.now }
{
    if word.is_ascii() {
        Message::Kind
    } else {
        Message::NonAscii
    }
}

/// The message where a word stands.
pub fn at_word(expected: Expected, word: &[u8]) -> Message
    ensures { result ≡ at_word expected word.now }
{
    match expected {
        Expected::Kind => at_first_word(word),
        Expected::Member => Message::Kind,
        Expected::Dimension => Message::Word,
        _ => at_end(expected),
    }
}

/// The message where a number stands that its type refuses.
pub fn at_bad(expected: Expected) -> Message
    ensures { result ≡ at_bad expected }
{
    match expected {
        Expected::Dimension => Message::End,
        _ => Message::BadNumber,
    }
}
