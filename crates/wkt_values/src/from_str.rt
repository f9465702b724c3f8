//! Types that are read from well-known text.
ghost use Rattle.std.specs.Prelude.{◌≤◌, ◌<◌, length, OnOk, IfOk};
ghost use Rattle.std.specs.Result.{IsOk};
ghost use Rattle.std.specs.Str.{IsCharBoundary};
ghost use Rattle.wkt_types.specs.Tree.{Tree, tree};
ghost use Rattle.wkt_read.specs.Items.{bad_number, HasBad};
ghost use Rattle.wkt_read.specs.Front.{Front, HasNoFront, NeedsNoMemory};
ghost use Rattle.wkt_read.specs.Begun.{NoneBegins, StopsEarly};
ghost use Rattle.wkt_read.specs.Stream.{rest, Advances, IsNear};
ghost use Rattle.wkt_read.specs.Refusal.{IsRefused, IsTextRefused, IfText};
ghost use Rattle.wkt_read.specs.Answered.{IsFront, IsFrontTo, Begins, IsReadOff, HasBadNumber, OnText, OnMessage};

use crate::refused::refused;
use crate::value::{Unread, read};
use std::alloc::Global;
use std::mem;
use wkt_num::WktNum;
use wkt_read::{PeekableTokens, ReadError, Tokens};
use wkt_sources::TokenSource;
use wkt_types::Wkt;

/// The geometry at the front of the tokens, which come back.
#[inline(always)]
fn read_off<'t, 'a, T: WktNum>(
    alloc: Global,
    tokens: &'t mut PeekableTokens<'a, T>,
) -> (Result<Wkt<T>, ReadError>, &'t mut PeekableTokens<'a, T>)
    ensures found { IfOk result.0 (λ w. IsReadOff T.read (rest tokens.entry.now) (tree w) (rest result.1.now)) }
    ensures no_geometry { OnText result.0 (NoneBegins T.read (rest tokens.entry.now)) }
    ensures early { OnText result.0 (StopsEarly T.read (rest tokens.entry.now) (rest result.1.now)) }
    ensures bad { OnMessage result.0 bad_number (HasBad T.read (rest tokens.entry.now)) }
    ensures refusal { IfText result.0 (λ said. IsRefused T.read (rest tokens.entry.now) said (rest result.1.now)) }
    ensures free { (v after : _) → Begins T.read (rest tokens.entry.now) v after → NeedsNoMemory v → IsOk result.0 }
    ensures taken { OnOk result.0 (length (rest result.1.now) < length (rest tokens.entry.now)) }
    ensures advances { Advances tokens.entry.now result.1.now }
    ensures near { OnOk result.0 (IsNear result.1.now) }
{
    // The machine counts open collections, of which there are no more than tokens.
    let _ = tokens.most_left();
    let source = TokenSource::new(tokens);
    let (answer, behind) = read::<T, TokenSource<'_, '_, T>>(alloc, source);
    let remaining = behind.into_tokens();
    match answer {
        Ok(geometry) => (Ok(geometry), remaining),
        Err(unread) => match unread {
            Unread::Memory(error) => (Err(ReadError::Memory(error)), remaining),
            Unread::Refused(machine) => {
                let said = refused(machine, remaining).text();
                (Err(ReadError::Text(said)), remaining)
            }
        },
    }
}

/// A type that is read from well-known text.
///
/// ```text
/// let geometry = Wkt::<Decimal<6>>::from_str(alloc, "linestring z (1 2 3, 4 5.50 6)")?;
/// // LINESTRING Z(1 2 3,4 5.5 6)
/// ```
pub trait FromWktStr {
    /// The type of its numbers.
    type Num: WktNum;

    /// What it holds.
    ghost tree: { Self → Tree Self.Num };

    /// The geometry at the front of the text; what follows it is not looked at.
    ///
    /// # Errors
    /// `Text` where no beginning of the text is a geometry, with what was found amiss; `Memory` where
    /// memory ran out.
    fn from_str(alloc: Global, text: &str) -> Result<Self, ReadError>
        ensures found { IfOk result (λ w. IsFront Self.Num.read text.now (tree w)) }
        ensures no_front { OnText result (HasNoFront Self.Num.read text.now) }
        ensures bad { OnMessage result bad_number (HasBadNumber Self.Num.read text.now) }
        ensures refusal { IfText result (λ said. IsTextRefused Self.Num.read text.now said) }
        ensures free { (v end : _) → Front Self.Num.read text.now v end → NeedsNoMemory v → IsOk result };

    /// The geometry at the front of the text, and where its last lexeme ends, in bytes. The end is past
    /// the text's start, and a character boundary of the text: so a text of several geometries is read
    /// one after the other, each time from `&text[end..]`.
    ///
    /// ```text
    /// let (first, end) = Wkt::<i32>::read_front(alloc, "POINT(1 2) POINT(3 4)")?;
    /// // POINT(1 2), and 10
    /// ```
    ///
    /// # Errors
    /// Those of `from_str`.
    fn read_front(alloc: Global, text: &str) -> Result<(Self, usize), ReadError>
        ensures found { IfOk result (λ r. IsFrontTo Self.Num.read text.now (tree r.0) r.1) }
        ensures some { IfOk result (λ r. 0 < r.1) }
        ensures within { IfOk result (λ r. r.1 ≤ length text.now) }
        ensures boundary { IfOk result (λ r. IsCharBoundary text.now r.1) }
        ensures no_front { OnText result (HasNoFront Self.Num.read text.now) }
        ensures bad { OnMessage result bad_number (HasBadNumber Self.Num.read text.now) }
        ensures refusal { IfText result (λ said. IsTextRefused Self.Num.read text.now said) }
        ensures free { (v end : _) → Front Self.Num.read text.now v end → NeedsNoMemory v → IsOk result };

    /// The geometry at the front of the lexemes, which are taken; those after it are left.
    ///
    /// # Errors
    /// `Text` where no beginning of the lexemes is a geometry; then no more of them are taken than it
    /// takes to see that. `Memory` where memory ran out. Both leave the stream after some of its
    /// lexemes, or where it was.
    fn read_tokens(
        alloc: Global,
        tokens: &mut PeekableTokens<'_, Self::Num>,
    ) -> Result<Self, ReadError>
        ensures found { IfOk result (λ w. IsReadOff Self.Num.read (rest tokens.old) (tree w) (rest tokens.new)) }
        ensures no_geometry { OnText result (NoneBegins Self.Num.read (rest tokens.old)) }
        ensures early { OnText result (StopsEarly Self.Num.read (rest tokens.old) (rest tokens.new)) }
        ensures bad { OnMessage result bad_number (HasBad Self.Num.read (rest tokens.old)) }
        ensures refusal { IfText result (λ said. IsRefused Self.Num.read (rest tokens.old) said (rest tokens.new)) }
        ensures free { (v after : _) → Begins Self.Num.read (rest tokens.old) v after → NeedsNoMemory v → IsOk result }
        ensures taken { OnOk result (length (rest tokens.new) < length (rest tokens.old)) }
        ensures advances { Advances tokens.old tokens.new }
        ensures near { OnOk result (IsNear tokens.new) };
}

impl<T: WktNum> FromWktStr for Wkt<T> {
    type Num = T;

    ghost tree = { tree };

    fn from_str(alloc: Global, text: &str) -> Result<Self, ReadError> {
        match Self::read_front(alloc, text) {
            Ok((geometry, _)) => Ok(geometry),
            Err(error) => Err(error),
        }
    }

    fn read_front(alloc: Global, text: &str) -> Result<(Self, usize), ReadError> {
        let mut tokens = PeekableTokens::new(Tokens::from_str(text));
        let (answer, remaining) = read_off(alloc, &mut tokens);
        match answer {
            Ok(geometry) => Ok((geometry, remaining.end())),
            Err(error) => Err(error),
        }
    }

    // Taken out and put back, so that what is left is known.
    fn read_tokens(alloc: Global, tokens: &mut PeekableTokens<'_, T>) -> Result<Self, ReadError> {
        let mut lent = mem::replace(tokens, PeekableTokens::new(Tokens::from_str("")));
        let (answer, remaining) = read_off(alloc, &mut lent);
        *tokens = mem::replace(remaining, PeekableTokens::new(Tokens::from_str("")));
        answer
    }
}
