//! A list handed to the caller's buffer.
ghost use Rattle.std.specs.Prelude.{◌≡◌, ◌≤◌, ◌<◌, ◌⊎◌, ◌∷◌, [], length};
ghost use Rattle.wkt_calls.specs.Answer.{with_front, IsHandedOut, HasNoRoom};

use crate::status::{DONE, SMALL};

/// How many items are copied at once.
const COPIED_AT_ONCE: usize = 256;

/// Puts the list to the front of the buffer, which has room for it.
#[inline(always)]
pub fn copy_to_front<T: Copy>(list: &[T], out: &mut [T])
    requires { length list.now ≤ length out.old }
    ensures { out.new ≡ with_front list.now out.old }
{
    let size = list.len();
    let mut at = 0;
    // In pieces, which the C library copies by vectors and not byte by byte.
    'pieces: while size - at > COPIED_AT_ONCE {
        let end = at + COPIED_AT_ONCE;
        out[at..end].copy_from_slice(&list[at..end]);
        at = end;
    }
    out[at..size].copy_from_slice(&list[at..]);
}

/// Puts two items to the front of the buffer, which has room for them.
#[inline(always)]
pub(crate) fn put_two<T: Copy>(first: T, second: T, out: &mut [T])
    requires { 2 ≤ length out.old }
    ensures { out.new ≡ with_front (first ∷ second ∷ []) out.old }
{
    out[0] = first;
    out[1] = second;
}

/// Puts the list in the place of the buffer, which is as long.
pub fn copy_whole<T: Copy>(list: &[T], out: &mut [T])
    requires { length list.now ≡ length out.old }
    ensures { out.new ≡ list.now }
{
    copy_to_front(list, out);
}

/// Copies out an answer, if there is room for it.
pub fn copy_out(answer: &[u8], out: &mut [u8], needed: &mut usize) -> u32
    ensures stands { result ≡ DONE → IsHandedOut answer.now needed.new out.old out.new }
    ensures lacks { result ≡ SMALL → HasNoRoom answer.now needed.new out.old }
    ensures kept { 1 ≤ result → out.new ≡ out.old }
    ensures two { (result ≡ DONE) ⊎ (result ≡ SMALL) }
{
    let size = answer.len();
    *needed = size;
    if size > out.len() {
        return SMALL;
    }
    copy_to_front(answer, out);
    DONE
}

/// Does what `copy_out` does with a short answer: that is copied at once, not in pieces.
#[inline(always)]
pub(crate) fn copy_out_at_once(answer: &[u8], out: &mut [u8], needed: &mut usize) -> u32
    ensures stands { result ≡ DONE → IsHandedOut answer.now needed.new out.old out.new }
    ensures lacks { result ≡ SMALL → HasNoRoom answer.now needed.new out.old }
    ensures kept { 1 ≤ result → out.new ≡ out.old }
    ensures two { (result ≡ DONE) ⊎ (result ≡ SMALL) }
{
    *needed = answer.len();
    if answer.len() > out.len() {
        return SMALL;
    }
    out[..answer.len()].copy_from_slice(answer);
    DONE
}
