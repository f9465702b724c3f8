//! What a byte does in a text, and the runs and marks in its bytes.
ghost use Rattle.std.specs.Prelude.{◌≡◌, ◌≢◌, ◌↔◌, ◌≤◌, IsTrue, MatchOption};
ghost use Rattle.std.specs.Str.{IsCharBoundary};
ghost use Rattle.wkt_num.specs.Bytes.{class_of, White, AllWhite};
ghost use Rattle.wkt_read.specs.Lexemes.{starts_number};
ghost use Rattle.wkt_read.specs.Streams.{taken_in, meant, coming_at, FoundClass, IsRunSoFar, EndsRun, RunGoesOn, RunEnds};

use crate::tokenizer::cursor::Cursor;

/// What a byte does in a text.
#[derive(Clone, Copy)]
pub(crate) enum ByteClass {
    /// The text ends here.
    Nul,
    White,
    Open,
    Close,
    Comma,
    /// A part of a run.
    Run,
}

#[tactic(auto, unfolding(wkt_num::specs::Bytes::class_of))]
pub(crate) fn class_of(byte: u8) -> ByteClass
    ensures { meant result ≡ class_of byte }
{
    // Most bytes: over mixed lines `Tokens` takes 6 instructions a byte less by this and by a cursor that counts.
    if byte > b',' {
        return ByteClass::Run;
    }
    match byte {
        0 => ByteClass::Nul,
        b' ' | b'\n' | b'\r' | b'\t' => ByteClass::White,
        b'(' => ByteClass::Open,
        b')' => ByteClass::Close,
        b',' => ByteClass::Comma,
        _ => ByteClass::Run,
    }
}

/// Whether the byte is white space, which may stand between lexemes.
pub fn is_white(byte: u8) -> bool
    ensures { IsTrue result ↔ (class_of byte ≡ White) }
{
    matches!(class_of(byte), ByteClass::White)
}

/// Whether there is nothing but white space.
#[tactic(auto, using(crate::proofs::Placings::white_on, crate::proofs::Placings::white_here, crate::proofs::Placings::none_left))]
pub fn is_blank(bytes: &[u8]) -> bool
    ensures { IsTrue result ↔ AllWhite bytes.now }
{
    for byte in bytes {
        if !is_white(*byte) {
            return false;
        }
    }
    true
}

/// Whether a run that begins with this byte is a number.
pub(crate) fn starts_number(byte: u8) -> bool
    ensures { result ≡ starts_number byte }
{
    byte.is_ascii_digit() || byte == b'.' || byte == b'-' || byte == b'+'
}

/// The class of the first byte that is no white space, which is taken.
#[inline(always)]
pub(crate) fn first_class(bytes: &mut Cursor<'_>, ahead: ByteClass) -> ByteClass
    requires boundary { IsCharBoundary bytes.now.text.now (taken_in bytes.now) }
    requires start { ahead ≢ ByteClass.Run }
    ensures text { bytes.new.text ≡ bytes.old.text }
    ensures grows { taken_in bytes.old ≤ taken_in bytes.new }
    ensures found { FoundClass (coming_at bytes.old.text.now (meant ahead) (taken_in bytes.old)) bytes.new.text.now result
        (taken_in bytes.new) }
    ensures stops { result ≢ ByteClass.White }
{
    if !matches!(ahead, ByteClass::White) {
        return ahead;
    }
    'white: loop {
        match bytes.next_byte() {
            Some(byte) => match class_of(byte) {
                ByteClass::White => {}
                class => return class,
            },
            None => return ByteClass::Nul,
        }
    }
}

/// Takes the next byte: the end of a run that came so far, and the class of the byte, if it is no part of the run.
#[inline(always)]
fn run_ends(bytes: &mut Cursor<'_>) -> Option<(usize, ByteClass)>
    ensures text { bytes.new.text ≡ bytes.old.text }
    ensures cases { MatchOption result
        (RunGoesOn bytes.new.text.now (taken_in bytes.old) (taken_in bytes.new))
        (λ r. RunEnds bytes.new.text.now (taken_in bytes.old) r.0 (taken_in bytes.new) r.1) }
{
    let end = bytes.taken();
    match bytes.next_byte() {
        Some(byte) => match class_of(byte) {
            ByteClass::Run => None,
            class => Some((end, class)),
        },
        None => Some((end, ByteClass::Nul)),
    }
}

/// The end of the run that begins at `from`, and the class of the byte after it, which is taken.
#[inline(always)]
#[tactic(auto, using(crate::proofs::Placings::taken_within))]
pub(crate) fn end_of_run(bytes: &mut Cursor<'_>, from: usize) -> (usize, ByteClass)
    requires { IsRunSoFar bytes.now.text.now from (taken_in bytes.now) }
    ensures text { bytes.new.text ≡ bytes.old.text }
    ensures grows { taken_in bytes.old ≤ taken_in bytes.new }
    ensures on { taken_in bytes.old ≤ result.0 }
    ensures ends { EndsRun bytes.new.text.now from result.0 (taken_in bytes.new) result.1 }
    ensures other { result.1 ≢ ByteClass.Run }
{
    'bytes: loop {
        if let Some(found) = run_ends(bytes) {
            return found;
        }
    }
}
