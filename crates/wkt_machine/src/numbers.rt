//! Numbers in bytes.
ghost use Rattle.std.specs.Prelude.{◌≡◌, ◌<◌, ◌≤◌, ℕ, length, slice_index_or, take};
ghost use Rattle.wkt_events.specs.Remaining.{FindsNumber, ReadsNumber};

use wkt_events::{byte_at, is_of_run, number_there};
use wkt_num::{Numbers, OfType, WktNum};

/// How many bytes a window has.
const NUMBER_WINDOW: usize = 32;

/// The number at `at`, and where it ends.
#[inline(always)]
pub fn read_at<T: WktNum>(text: &[u8], at: usize) -> Option<(T, usize)>
    requires { at ≤ length text.now }
    ensures { ReadsNumber T.read text.now at result }
{
    read_by(OfType::<T>::new(), text, at)
}

/// The same, with numbers of any kind.
#[inline(always)]
pub fn read_by<N: Numbers>(numbers: N, text: &[u8], at: usize) -> Option<(N::Number, usize)>
    requires { at ≤ length text.now }
    ensures { ReadsNumber (N.read numbers) text.now at result }
{
    let rest = &text[at..];
    if rest.len() >= NUMBER_WINDOW {
        if let Some((number, count)) = numbers.read_in_window(rest) {
            return Some((number, at + count));
        }
    }
    slow_read(numbers, text, at)
}

/// The slow path, for a number that no window shows whole. Outlined: only this path zeroes the result slot.
#[inline(always)]
fn slow_read<N: Numbers>(numbers: N, text: &[u8], at: usize) -> Option<(N::Number, usize)>
    requires { at ≤ length text.now }
    ensures { ReadsNumber (N.read numbers) text.now at result }
{
    slow_read_outlined(numbers, text, at)
}

#[inline(never)]
fn slow_read_outlined<N: Numbers>(numbers: N, text: &[u8], at: usize) -> Option<(N::Number, usize)>
    requires { at ≤ length text.now }
    ensures { ReadsNumber (N.read numbers) text.now at result }
{
    // No number stands where a parenthesis closes, or the text ends.
    if !is_of_run(byte_at(text, at)) {
        return None;
    }
    let rest = &text[at..];
    if rest.len() < NUMBER_WINDOW {
        let mut window = [0; NUMBER_WINDOW];
        pad(&mut window, rest);
        if let Some((number, count)) = numbers.read_in_window(&window) {
            return Some((number, at + count));
        }
    }
    number_there(numbers, text, at)
}

/// Where the number at `at` ends. Its value isn't asked for.
#[inline(always)]
pub(crate) fn end_at<N: Numbers>(numbers: N, text: &[u8], at: usize) -> Option<usize>
    requires { at ≤ length text.now }
    ensures { FindsNumber (N.read numbers) text.now at result }
{
    let rest = &text[at..];
    if rest.len() >= NUMBER_WINDOW {
        if let Some((end, _)) = numbers.canonical_prefix(rest) {
            return Some(at + end);
        }
    }
    slow_end(numbers, text, at)
}

/// The slow path, for a number that no window shows as it is printed.
#[inline(never)]
fn slow_end<N: Numbers>(numbers: N, text: &[u8], at: usize) -> Option<usize>
    requires { at ≤ length text.now }
    ensures { FindsNumber (N.read numbers) text.now at result }
{
    // No number stands where a parenthesis closes, or the text ends.
    if !is_of_run(byte_at(text, at)) {
        return None;
    }
    let rest = &text[at..];
    if rest.len() < NUMBER_WINDOW {
        let mut window = [0; NUMBER_WINDOW];
        pad(&mut window, rest);
        if let Some((end, _)) = numbers.canonical_prefix(&window) {
            return Some(at + end);
        }
    }
    match number_there(numbers, text, at) {
        Some((_, end)) => Some(end),
        None => None,
    }
}

/// Puts fewer bytes than a window has to the front of one. The NULs behind them end a run as the text's end does.
#[inline(always)]
#[tactic(auto, using(crate::proofs::Windows::nul_behind))]
pub fn pad(window: &mut [u8; NUMBER_WINDOW], bytes: &[u8])
    requires short { length bytes.now < 32 }
    requires zeros { (i : ℕ) → slice_index_or window.old i 0 ≡ 0 }
    ensures front { take (length bytes.now) window.new ≡ bytes.now }
    ensures nul { slice_index_or window.new (length bytes.now) 0 ≡ 0 }
{
    window[..bytes.len()].copy_from_slice(bytes);
}
