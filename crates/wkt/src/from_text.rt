//! Types that are read from well-known text through a conversion.
ghost use Rattle.std.specs.Prelude.{◌≡◌, ℕ, List, MatchResult, Result, IfSome};
ghost use Rattle.std.specs.Io.KnownBytes.{IsAtEnd};
ghost use Rattle.std.specs.String.{string_bytes};
ghost use Rattle.wkt_num.specs.Sink.{next_count};
ghost use Rattle.wkt_flat.specs.Equal.{coord_eq};
ghost use Rattle.wkt_flat_read.specs.Trees.{IsFlatFront};
ghost use Rattle.wkt.specs.FromText.{AreNoText, BytesAnswer, Cause, IsTextUnread, OnAllRead, OnSource, TextAnswers, UnlessFailed, cause_of};

use std::alloc::Global;
use wkt_bytes::{ByteSource, ReadAllError, read_all};
use wkt_convert::{Flattened, FromAny};
use wkt_flat_read::read_text;
use wkt_num::WktNum;
use wkt_read::ReadError;
use wkt_types::ConvertError;

/// A type that is read from well-known text through a conversion.
///
/// ```text
/// let geometry = Geometry::<Decimal<6>>::try_from_wkt_str(alloc, "POINT (10 20)")?;
/// let read = Geometry::<i32>::try_from_wkt_reader(alloc, &mut Counted::new(text.as_bytes()))?;
/// ```
pub trait TryFromWkt<T>: Sized {
    /// Why a text is refused.
    type Error;

    /// What a text may be answered with.
    ghost answers: { List ℕ → Result Self Self.Error → Type 0 };

    /// What an error comes from: the source, memory, bytes that are no text, or the text.
    ghost cause: { Self.Error → Cause };

    /// The value of the geometry at the front of the text. What follows the front doesn't change the answer.
    ///
    /// # Errors
    /// `InvalidWKT` with the reader's message where the text doesn't begin with a geometry; then the
    /// error of the conversion; `Memory` when out of memory, which a text of no geometry can return too.
    fn try_from_wkt_str(alloc: Global, text: &str) -> Result<Self, Self::Error>
        ensures { answers text.now result };

    /// The value of the geometry at the front of the text that the source holds. The source is read to
    /// its end first.
    ///
    /// # Errors
    /// `Reader` where the source failed, by an error of whatever kind; then `Utf8`; then the errors of
    /// `try_from_wkt_str`. A source without end comes to `Memory`.
    fn try_from_wkt_reader<R: ByteSource>(
        alloc: Global,
        reader: &mut R,
    ) -> Result<Self, Self::Error>
        ensures answer { IfSome (R.left reader.old) (λ bs. BytesAnswer cause answers bs result) }
        ensures end { OnAllRead cause result (IsAtEnd (R.left reader.new)) }
        ensures failed { OnSource cause result (R.failures reader.new ≡ next_count (R.failures reader.old)) }
        ensures count { UnlessFailed cause result (R.failures reader.new ≡ R.failures reader.old) };
}

/// The geometry at the front of the text, as a flat value.
fn read_flat<T: WktNum>(alloc: Global, text: &str) -> Result<Flattened<T>, ConvertError>
    ensures { MatchResult result (IsFlatFront T.read (coord_eq T.eq) text.now) (IsTextUnread T.read text.now) }
{
    match read_text::<T>(alloc, text) {
        Ok(flattened) => Ok(flattened),
        Err(ReadError::Text(message)) => Err(ConvertError::InvalidWKT(message)),
        Err(ReadError::Memory(error)) => Err(ConvertError::Memory(error)),
    }
}

/// The text that the source holds.
fn text_from<R: ByteSource>(alloc: Global, reader: &mut R) -> Result<String, ConvertError>
    ensures text { IfSome (R.left reader.old) (λ bs. MatchResult result (λ s. string_bytes s ≡ bs) (AreNoText bs)) }
    ensures end { OnAllRead cause_of result (IsAtEnd (R.left reader.new)) }
    ensures failed { OnSource cause_of result (R.failures reader.new ≡ next_count (R.failures reader.old)) }
    ensures count { UnlessFailed cause_of result (R.failures reader.new ≡ R.failures reader.old) }
{
    match read_all(alloc, reader) {
        Ok(bytes) => match String::from_utf8(bytes) {
            Ok(text) => Ok(text),
            Err(_) => Err(ConvertError::Utf8),
        },
        Err(ReadAllError::Read(error)) => Err(ConvertError::Reader(error)),
        Err(ReadAllError::Memory(error)) => Err(ConvertError::Memory(error)),
    }
}

/// The eleven flat types.
impl<T: WktNum, G: FromAny<T = T>> TryFromWkt<T> for G {
    type Error = ConvertError;

    ghost answers = { TextAnswers T.read G.content G.outcome };

    ghost cause = { cause_of };

    fn try_from_wkt_str(alloc: Global, text: &str) -> Result<Self, ConvertError> {
        match read_flat(alloc, text) {
            Ok(flattened) => G::from_flattened(flattened),
            Err(e) => Err(e),
        }
    }

    fn try_from_wkt_reader<R: ByteSource>(
        alloc: Global,
        reader: &mut R,
    ) -> Result<Self, ConvertError> {
        match text_from(alloc, reader) {
            Ok(text) => Self::try_from_wkt_str(alloc, &text),
            Err(e) => Err(e),
        }
    }
}
