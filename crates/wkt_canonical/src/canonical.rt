//! The canonical text of what a text begins with.
ghost use Rattle.std.specs.Prelude.{◌≡◌, ◌+◌, ◌*◌, ◌≤◌, length, take};
ghost use Rattle.wkt_canonical.specs.Canonical.{WritesCanonical, WritesFront, WritesInto, LeavesRoom};
ghost use Rattle.wkt_canonical.specs.Through.{IfEnds, IfNothing, IfWritten, StopsIn, WritesNext, WritesOrSays};

use crate::room::has_room;
use crate::space::Space;
use crate::text_builder::TextBuilder;
use wkt_machine::Machine;
use wkt_machine::drive::drive;
use wkt_num::{Numbers, OfType, WktNum};
use wkt_read::Message;
use wkt_sources::{ByteCursor, message_at};

/// A number's text is at least twice as long as what it was read from, and there was no room for it: more may do. Decimals
/// and whole numbers have no such texts.
#[derive(Debug, Clone, Copy)]
pub struct NoRoom;

/// Where a geometry ends in its text, and how long its canonical text is, in bytes.
#[derive(Debug, Clone, Copy)]
pub struct TextWritten {
    pub end: usize,
    pub len: usize,
}

/// Writes the canonical text of the geometry at the front of the text to the front of the buffer; `None` where the text
/// has none there. It takes no memory, and no stack for nesting. What the buffer holds behind the canonical text, or where
/// nothing was written, means nothing.
///
/// ```text
/// canonical_into::<Decimal<6>>("point (1.50 2) and more", &mut buffer) // `POINT(1.5 2)`: ends at 14, and has 12 bytes
/// ```
///
/// # Errors
/// [`NoRoom`]: the buffer is shorter than twice the text and 65 bytes more; or a number's text is at least twice as long
/// as what it was read from.
pub fn canonical_into<T: WktNum>(
    text: &str,
    buffer: &mut [u8],
) -> Result<Option<TextWritten>, NoRoom>
    ensures writes { WritesInto T.read T.num text.now buffer.old buffer.new result }
    ensures whole { length buffer.new ≡ length buffer.old }
{
    match canonical_or_message_outlined(OfType::<T>::new(), text, buffer) {
        Ok(Ok(written)) => Ok(Some(written)),
        Ok(Err(_)) => Ok(None),
        Err(NoRoom) => Err(NoRoom),
    }
}

/// The same, with numbers of any kind, into a buffer that surely is long enough, which isn't looked at.
///
/// # Errors
/// [`NoRoom`]: a number's text is at least twice as long as what it was read from.
#[inline(always)]
pub fn canonical_in_room<N: Numbers>(
    numbers: N,
    text: &str,
    buffer: &mut [u8],
) -> Result<Result<TextWritten, Message>, NoRoom>
    requires { 2 * length text.now + 65 ≤ length buffer.old }
    ensures writes { WritesOrSays (N.read numbers) (N.num numbers) text.now buffer.old buffer.new result }
    ensures room { IfWritten result (λ w. w.len + 64 ≤ length buffer.new) }
    ensures whole { length buffer.new ≡ length buffer.old }
{
    let mut space = Space {
        out: &mut *buffer,
        len: 0,
        failures: 0,
    };
    match write_next::<N, false>(numbers, text.as_bytes(), &mut space) {
        Next::Ends(end) => Ok(Ok(TextWritten {
            end,
            len: space.len,
        })),
        Next::Nothing(machine, at) => Ok(Err(message_at(numbers, machine, text, at))),
        Next::NoRoom => Err(NoRoom),
    }
}

/// As [`canonical_into`], and with its message where the text has no geometry at its front: no byte is read twice for it.
///
/// It isn't inlined: in the one place that most calls share the machine is built in, however large it is.
///
/// # Errors
/// [`NoRoom`], as there.
#[inline(never)]
pub fn canonical_or_message_outlined<N: Numbers>(
    numbers: N,
    text: &str,
    buffer: &mut [u8],
) -> Result<Result<TextWritten, Message>, NoRoom>
    ensures writes { WritesOrSays (N.read numbers) (N.num numbers) text.now buffer.old buffer.new result }
    ensures room { IfWritten result (λ w. w.len + 64 ≤ length buffer.new) }
    ensures whole { length buffer.new ≡ length buffer.old }
{
    if !has_room(buffer.len(), text.len()) {
        return Err(NoRoom);
    }
    canonical_in_room(numbers, text, buffer)
}

/// Writes the canonical text of the geometry that the text begins with behind the first `len` bytes, and returns where
/// it ends in the text and how much is written then; `None` where the text begins with none. There is room for twice
/// the text, and 65 bytes more.
///
/// # Errors
/// [`NoRoom`]; what stands behind the first `len` bytes means nothing then.
pub fn write_canonical<T: WktNum>(
    text: &str,
    out: &mut [u8],
    len: usize,
) -> Result<Option<(usize, usize)>, NoRoom>
    requires { len + 2 * length text.now + 65 ≤ length out.old }
    ensures writes { WritesCanonical T.read T.num text.now len out.old out.new result }
    ensures kept { take len out.new ≡ take len out.old }
    ensures room { LeavesRoom out.old result }
    ensures whole { length out.new ≡ length out.old }
{
    write_front::<OfType<T>, false>(OfType::<T>::new(), text.as_bytes(), out, len)
}

/// Writes the canonical text of what bytes begin with, which where `LF_ENDS` end at the first LF. Where they are no
/// UTF-8 the result may be `None`.
///
/// # Errors
/// Those of [`write_canonical`].
#[inline(always)]
pub fn write_front<N: Numbers, const LF_ENDS: bool>(
    numbers: N,
    text: &[u8],
    out: &mut [u8],
    len: usize,
) -> Result<Option<(usize, usize)>, NoRoom>
    requires { len + 2 * length text.now + 65 ≤ length out.old }
    ensures writes { WritesFront (N.read numbers) (N.num numbers) LF_ENDS text.now len out.old out.new result }
    ensures kept { take len out.new ≡ take len out.old }
    ensures room { LeavesRoom out.old result }
    ensures whole { length out.new ≡ length out.old }
{
    match write_alone::<N, LF_ENDS>(numbers, text, &mut out[len..]) {
        Ok(Some((end, n))) => Ok(Some((end, len + n))),
        Ok(None) => Ok(None),
        Err(NoRoom) => Err(NoRoom),
    }
}

/// Writes the canonical text of what bytes begin with from the first byte of `out` on.
#[inline(always)]
fn write_alone<N: Numbers, const LF_ENDS: bool>(
    numbers: N,
    text: &[u8],
    out: &mut [u8],
) -> Result<Option<(usize, usize)>, NoRoom>
    requires { 2 * length text.now + 65 ≤ length out.old }
    ensures writes { WritesFront (N.read numbers) (N.num numbers) LF_ENDS text.now 0 out.old out.new result }
    ensures room { LeavesRoom out.old result }
    ensures whole { length out.new ≡ length out.old }
{
    let mut space = Space {
        out: &mut *out,
        len: 0,
        failures: 0,
    };
    match write_next::<N, LF_ENDS>(numbers, text, &mut space) {
        Next::Ends(end) => Ok(Some((end, space.len))),
        Next::Nothing(_, _) => Ok(None),
        Next::NoRoom => Err(NoRoom),
    }
}

/// What came of the geometry that the text begins with.
pub(crate) enum Next {
    /// It was written, and ends there.
    Ends(usize),
    /// There is none: the machine stops at this place.
    Nothing(Machine, usize),
    /// A number had no room for its text.
    NoRoom,
}

/// Writes the geometry that the text begins with. Where it isn't written, what the bytes hold is lost.
///
/// The machine holds a text builder by value, and its bytes are put back here, so that whoever lends them knows them afterwards.
#[inline(always)]
pub(crate) fn write_next<N: Numbers, const LF_ENDS: bool>(
    numbers: N,
    text: &[u8],
    space: &mut Space<'_>,
) -> Next
    requires room { space.old.len + 2 * length text.now + 65 ≤ length space.old.out.now }
    ensures same_reference { IfEnds result (λ r. space.new.out.ghost_name ≡ space.old.out.ghost_name) }
    ensures room { IfEnds result (λ r. space.new.len + 64 ≤ length space.new.out.now) }
    ensures writes { WritesNext (N.read numbers) (N.num numbers) numbers LF_ENDS text.now space.old space.new result }
    ensures stops { IfNothing result (StopsIn (N.read numbers) LF_ENDS text.now) }
{
    let whole = space.out.len();
    let out = std::mem::take(&mut space.out);
    let builder = TextBuilder {
        out,
        len: space.len,
        polygon: 0,
        numbers,
    };
    match drive::<N::Number, ByteCursor<'_, LF_ENDS>, TextBuilder<'_, N>>(
        ByteCursor::new(text, 0),
        builder,
    ) {
        Ok(over) => {
            let end = over.source.at;
            let builder = over.builder;
            let (out, len) = (builder.out, builder.len);
            if out.len() < whole {
                return Next::NoRoom;
            }
            space.out = out;
            space.len = len;
            Next::Ends(end)
        }
        Err(stop) => Next::Nothing(stop.machine, stop.source.at),
    }
}
