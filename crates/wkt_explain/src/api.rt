//! Where a text is refused.
ghost use Rattle.std.specs.Prelude.{◌≡◌, IfNone, IfSome, OnSome};
ghost use Rattle.wkt_read.specs.Answered.{HasBadNumber};
ghost use Rattle.wkt_read.specs.Front.{HasNoFront};
ghost use Rattle.wkt_read.specs.Items.{bad_number};
ghost use Rattle.wkt_read.specs.Refusal.{IsRefusedWith, IsTextRefused};
ghost use Rattle.wkt_read.specs.Explained.{HasFront, IsRefusedAt, IsPart};
ghost use Rattle.wkt_read.specs.Table.{IsReportedAt};

use crate::explanation::{Explanation, Refusal};
use crate::walked::{driven, walked};
use wkt_num::{Numbers, OfType, WktNum};
use wkt_read::Message;
use wkt_sources::message_at;

/// With which message a text is refused that has no geometry at its front. It takes no memory, and no stack for
/// nesting, and less time than `refusal`.
pub fn message<N: Numbers>(numbers: N, text: &str) -> Message
    requires { HasNoFront (N.read numbers) text.now }
    ensures { IsRefusedWith (N.read numbers) text.now result }
{
    match driven(numbers, text) {
        Ok(_) => unreachable!(),
        Err((machine, at)) => message_at(numbers, machine, text, at),
    }
}

/// Where a text is refused, with which message, and what could come next; `None` where it has a geometry at its
/// front. It takes no memory, and no stack for nesting.
///
/// The place is the lexeme that is too much: those before it are a beginning of a geometry, and with it no geometry
/// can come any more, whatever lexemes follow (over a number type that has a value: `wkt::laws::dead_for_good`). Where
/// the text ends too early, at its end or its first NUL, the place is empty. What is expected there is exactly what
/// could come next, and the place is cut between characters. The message is that of `from_str`, and the one that the
/// table of `docs/GRAMMAR.md` has for the place.
///
/// ```text
/// let why = refusal::<Decimal<6>>("POINT(1)");
/// // at bytes 7 to 8, with the message `Close`, and a second number was expected
/// ```
pub fn refusal<T: WktNum>(text: &str) -> Option<Refusal>
    ensures front { IfNone result (HasFront T.read text.now) }
    ensures no_front { OnSome result (HasNoFront T.read text.now) }
    ensures place { IfSome result (λ r. IsRefusedAt T.read text.now r.start r.end r.expected) }
    ensures part { IfSome result (λ r. IsPart text.now r.start r.end) }
    ensures message { IfSome result (λ r. IsRefusedWith T.read text.now r.message) }
    ensures table { IfSome result (λ r. IsReportedAt T.read text.now r.start r.end r.expected r.message) }
{
    match walked(OfType::<T>::new(), text, text) {
        Ok(_) => None,
        Err(why) => Some(why),
    }
}

/// Where and why a text is refused, with the text, to be displayed; `None` where it has a geometry at its front. What
/// it says of the place is what `refusal` says.
///
/// ```text
/// if let Some(why) = explain::<Decimal<6>>("POINT(1)") {
///     println!(rt; "{why}")?;
/// }
/// // POINT(1)
/// //        ^ a second number was expected
/// ```
pub fn explain<'a, T: WktNum>(text: &'a str) -> Option<Explanation<'a>>
    ensures front { IfNone result (HasFront T.read text.now) }
    ensures no_front { OnSome result (HasNoFront T.read text.now) }
    ensures place { IfSome result (λ e. IsRefusedAt T.read text.now e.start e.end e.expected) }
    ensures part { IfSome result (λ e. IsPart text.now e.start e.end) }
    ensures text { IfSome result (λ e. e.text.now ≡ text.now) }
    ensures message { IfSome result (λ e. IsTextRefused T.read text.now e.message.now) }
    ensures bad { IfSome result (λ e. e.message.now ≡ bad_number → HasBadNumber T.read text.now) }
{
    explain_by(OfType::<T>::new(), text)
}

/// The same, with numbers of any kind.
pub fn explain_by<'a, N: Numbers>(numbers: N, text: &'a str) -> Option<Explanation<'a>>
    ensures front { IfNone result (HasFront (N.read numbers) text.now) }
    ensures no_front { OnSome result (HasNoFront (N.read numbers) text.now) }
    ensures place { IfSome result (λ e. IsRefusedAt (N.read numbers) text.now e.start e.end e.expected) }
    ensures part { IfSome result (λ e. IsPart text.now e.start e.end) }
    ensures text { IfSome result (λ e. e.text.now ≡ text.now) }
    ensures message { IfSome result (λ e. IsTextRefused (N.read numbers) text.now e.message.now) }
    ensures bad { IfSome result (λ e. e.message.now ≡ bad_number → HasBadNumber (N.read numbers) text.now) }
{
    let Err(found) = walked(numbers, text, text) else {
        return None;
    };
    Some(Explanation {
        text,
        message: found.message.text(),
        start: found.start,
        end: found.end,
        expected: found.expected,
    })
}
