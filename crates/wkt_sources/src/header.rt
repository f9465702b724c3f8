//! Headers: the word of a kind, a dimension, and the parenthesis or EMPTY, in letters of either case.
ghost use Rattle.std.specs.Bool.{OnTrue};
ghost use Rattle.std.specs.Int.{w64, to_le_bytes};
ghost use Rattle.std.specs.Prelude.{◌≡◌, ◌≢◌, ◌≤◌, ◌<◌, ◌+◌, ℕ, List, Some, true, length, take, drop, codes, IfSome};
ghost use Rattle.wkt_num.specs.Bytes.{Run, Word, class_of};
ghost use Rattle.wkt_read.specs.Grammar.{dim_word, is_empty_word};
ghost use Rattle.wkt_events.specs.Remaining.{Legible, TakesOne};
ghost use Rattle.wkt_sources.specs.Views.{bytes_view};
ghost use Rattle.wkt_machine.specs.View.{IsBetween};
ghost use Rattle.wkt_machine.specs.Goes.{Goes};
ghost use Rattle.wkt_sources.specs.LexemesAhead.{IsKindName, StandsHead, StandsHeader, EndsKind, EndsDimension};
ghost use Rattle.wkt_machine.specs.Room.{RoomAt};
ghost use Rattle.wkt_machine.specs.Steps.{MayStep, Steps};
ghost use Rattle.wkt_sources.specs.declared.header.AfterHeader.TheVariants as then;
ghost use Rattle.wkt_machine.specs.declared.machine.State.TheVariants as next;

use crate::bytes::ByteCursor;
use crate::coordinates::{coordinates, has_coordinates};
use wkt_access::Dimension;
use wkt_events::{byte_at, is_of_run, skip_white};
use wkt_machine::machine::part_of;
use wkt_machine::{Axis, Builder, Machine, Part, Progress, State, StepResult, on, take_rare};
use wkt_num::WktNum;
use wkt_read::words::{dimension_front, is_empty_in, kind_front};

// The first bytes of words, each as one number: the compiler doesn't make one comparison of a loop over them.
const POIN: u32 = 0x4e49_4f50;

const LINESTRI: u64 = 0x49525453454e494c;

const MULTIPOI: u64 = 0x494f_5049_544c_554d;

const GEOMETRY: u64 = 0x5952_5445_4d4f_4547;

const COLLECTI: u64 = 0x4954_4345_4c4c_4f43;

/// What stands behind the words of a header.
#[derive(Clone, Copy)]
pub(crate) enum AfterHeader {
    /// Behind the word of a kind alone: neither a dimension nor one of the two.
    Dimension,
    /// Behind a dimension: neither of the two.
    Opening,
    /// The parenthesis.
    Inside,
    /// EMPTY.
    Outside,
}

/// A header in a text: its part and dimension, what stands behind its words, and where that ends.
#[derive(Clone, Copy)]
pub(crate) struct Header {
    part: Part,
    dim: Dimension,
    pub(crate) then: AfterHeader,
    pub(crate) end: usize,
}

/// Behind the header that comes next; of a point behind its coordinate.
#[inline(always)]
pub(crate) fn take_header<'a, T: WktNum, B: Builder<T>, const LF_ENDS: bool>(
    machine: Machine,
    source: ByteCursor<'a, LF_ENDS>,
    builder: B,
) -> StepResult<ByteCursor<'a, LF_ENDS>, B>
    requires state { machine.state ≡ next.Kind }
    requires inside { source.at ≤ length source.text.now }
    requires may { MayStep (bytes_view LF_ENDS) B.maker machine source builder }
    ensures { Steps (bytes_view LF_ENDS) B.maker machine source.entry builder result }
{
    let text = source.text;
    let at = skip_white::<LF_ENDS>(text, source.at);
    let rest = &text[at..];
    // Points are for points-6 of bench/, collections for nested-6, and the others for their rows of capi/bench/calls.sh:
    // LINESTRING saves some 100 instructions of that of a collection.
    let plain_head = if is_point(rest) {
        match plain::<5, LF_ENDS>(Part::Point, b"POINT", text, at) {
            Some(head) => {
                let Progress {
                    source: behind,
                    machine: begun,
                    builder: made,
                } = enter::<T, B, LF_ENDS>(head, at, machine, source, builder);
                return match begun.state {
                    State::Number(Axis::X) if has_coordinates(begun.part) => {
                        coordinates::<T, B, LF_ENDS>(begun, behind, made)
                    }
                    _ => on(behind, begun, made),
                };
            }
            None => None,
        }
    } else if is_multipoint(rest) {
        plain::<10, LF_ENDS>(Part::MultiPoint, b"MULTIPOINT", text, at)
    } else if is_linestring(rest) {
        plain::<10, LF_ENDS>(Part::LineString, b"LINESTRING", text, at)
    } else if is_collection(rest) {
        plain::<18, LF_ENDS>(Part::Collection, b"GEOMETRYCOLLECTION", text, at)
    } else {
        None
    };
    let head = match plain_head {
        Some(head) => Some(head),
        None => any_form::<LF_ENDS>(text, at),
    };
    match head {
        Some(head) => Ok(enter::<T, B, LF_ENDS>(head, at, machine, source, builder)),
        // Made anew, so that of the machine its depth alone is kept until here.
        None => take_rare::<T, ByteCursor<'a, LF_ENDS>, B>(
            machine.with_part(State::Kind, Part::Collection, Dimension::XY),
            source,
            builder,
        ),
    }
}

/// The word of a kind at `at`, and its parenthesis or EMPTY, with a space between them at most. `None`: the caller falls
/// back.
#[inline(always)]
pub(crate) fn plain<const N: usize, const LF_ENDS: bool>(
    part: Part,
    word: &[u8; N],
    text: &[u8],
    at: usize,
) -> Option<Header>
    requires name { IsKindName part word.now }
    requires some { 0 < N }
    requires few { N ≤ 18 }
    requires inside { at ≤ length text.now }
    requires stands { take N (drop at text.now) ≡ word.now }
    ensures word { IfSome result (λ h. h.then ≡ then.Inside → StandsHead LF_ENDS text.now at part h.end) }
    ensures header { IfSome result (λ h. StandsHeader LF_ENDS text.now at h.part h.dim h.then h.end) }
    ensures inside { IfSome result (λ h. h.end ≤ length text.now) }
{
    let _ = word;
    if text.len() - at < N + 2 {
        return None;
    }
    let behind = at + N;
    let (then, end) = if text[behind] == b'(' {
        (AfterHeader::Inside, behind + 1)
    } else if text[behind] != b' ' {
        return None;
    } else if text[behind + 1] == b'(' {
        (AfterHeader::Inside, behind + 2)
    } else {
        // For POINT EMPTY of capi/bench/calls.sh, of which it saves a third.
        (AfterHeader::Outside, empty_at::<LF_ENDS>(text, behind + 1)?)
    };
    Some(Header {
        part,
        dim: Dimension::XY,
        then,
        end,
    })
}

/// Whether the bytes begin with `POINT` in capitals, by two comparisons.
#[inline(always)]
pub(crate) fn is_point(bytes: &[u8]) -> bool
    ensures { OnTrue result (take 5 bytes.now ≡ codes "POINT") }
{
    if bytes.len() < 5 {
        return false;
    }
    if u32::from_le_bytes([bytes[0], bytes[1], bytes[2], bytes[3]]) != POIN {
        return false;
    }
    if bytes[4] != b'T' {
        return false;
    }
    true
}

/// Whether the bytes begin with `LINESTRING` in capitals, by three comparisons.
#[inline(always)]
fn is_linestring(bytes: &[u8]) -> bool
    ensures { OnTrue result (take 10 bytes.now ≡ codes "LINESTRING") }
{
    if bytes.len() < 10 {
        return false;
    }
    if eight_bytes(bytes) != LINESTRI {
        return false;
    }
    if bytes[8] != b'N' {
        return false;
    }
    if bytes[9] != b'G' {
        return false;
    }
    true
}

/// Whether the bytes begin with `MULTIPOINT` in capitals, by three comparisons.
#[inline(always)]
fn is_multipoint(bytes: &[u8]) -> bool
    ensures { OnTrue result (take 10 bytes.now ≡ codes "MULTIPOINT") }
{
    if bytes.len() < 10 {
        return false;
    }
    if eight_bytes(bytes) != MULTIPOI {
        return false;
    }
    if bytes[8] != b'N' {
        return false;
    }
    if bytes[9] != b'T' {
        return false;
    }
    true
}

/// Whether the bytes begin with `GEOMETRYCOLLECTION` in capitals, by four comparisons.
#[inline(always)]
fn is_collection(bytes: &[u8]) -> bool
    ensures { OnTrue result (take 18 bytes.now ≡ codes "GEOMETRYCOLLECTION") }
{
    if bytes.len() < 18 {
        return false;
    }
    if eight_bytes(bytes) != GEOMETRY {
        return false;
    }
    if eight_bytes(&bytes[8..]) != COLLECTI {
        return false;
    }
    if bytes[16] != b'O' {
        return false;
    }
    if bytes[17] != b'N' {
        return false;
    }
    true
}

/// The first eight bytes as one number, the lowest first.
#[inline(always)]
fn eight_bytes(bytes: &[u8]) -> u64
    requires { 8 ≤ length bytes.now }
    ensures { to_le_bytes w64 result ≡ take 8 bytes.now }
{
    u64::from_le_bytes([
        bytes[0], bytes[1], bytes[2], bytes[3], bytes[4], bytes[5], bytes[6], bytes[7],
    ])
}

/// Behind that header.
#[inline(always)]
pub(crate) fn enter<'a, T: WktNum, B: Builder<T>, const LF_ENDS: bool>(
    head: Header,
    at: usize,
    machine: Machine,
    source: ByteCursor<'a, LF_ENDS>,
    builder: B,
) -> Progress<ByteCursor<'a, LF_ENDS>, B>
    requires state { machine.state ≡ next.Kind }
    requires may { MayStep (bytes_view LF_ENDS) B.maker machine source builder }
    requires between { IsBetween LF_ENDS source.text.now source.at at }
    requires line { Legible LF_ENDS source.text.now source.at → Legible LF_ENDS source.text.now at }
    requires head { StandsHeader LF_ENDS source.text.now at head.part head.dim head.then head.end }
    ensures on { Goes (B.maker.reads builder) (bytes_view LF_ENDS) B.maker machine source.entry builder result }
    ensures stands { RoomAt (bytes_view LF_ENDS) B.maker result }
    ensures text { result.source.text ≡ source.entry.text }
    ensures at { result.source.at ≡ head.end }
{
    let _ = at;
    let Header {
        part,
        dim,
        then,
        end,
    } = head;
    let source = ByteCursor::new(source.text, end);
    let begun = machine.with_part(State::Opening, part, dim);
    match then {
        AfterHeader::Dimension => Progress {
            source,
            machine: machine.with_part(State::Dimension, part, dim),
            builder,
        },
        AfterHeader::Opening => Progress {
            source,
            machine: begun,
            builder: builder.begin(part, dim),
        },
        AfterHeader::Inside => Progress {
            source,
            machine: begun.inside(),
            builder: builder.begin(part, dim).open(part),
        },
        AfterHeader::Outside => Progress {
            source,
            machine: begun.outside(),
            builder: builder.begin(part, dim).empty(part),
        },
    }
}

/// The header at `at`, in any form. `None`: the caller falls back.
#[inline(always)]
fn any_form<const LF_ENDS: bool>(text: &[u8], at: usize) -> Option<Header>
    requires { at ≤ length text.now }
    ensures { IfSome result (λ h. StandsHeader LF_ENDS text.now at h.part h.dim h.then h.end) }
{
    let (kind, joined, n) = kind_front(&text[at..])?;
    let behind = at + n;
    if !ends_word(byte_at(text, behind)) {
        return None;
    }
    let part = part_of(kind);
    match joined {
        Some(dim) => {
            let (then, end) = behind_dimension::<LF_ENDS>(text, behind);
            Some(Header {
                part,
                dim,
                then,
                end,
            })
        }
        None => {
            let (dim, then, end) = behind_kind::<LF_ENDS>(text, behind);
            Some(Header {
                part,
                dim,
                then,
                end,
            })
        }
    }
}

/// What stands behind the word of a kind alone, which ends at `from`: the dimension, what stands behind that, and where
/// that ends.
#[inline(always)]
#[tactic(auto, using(crate::proofs::ByteSteps::behind_white))]
fn behind_kind<const LF_ENDS: bool>(text: &[u8], from: usize) -> (Dimension, AfterHeader, usize)
    requires { from ≤ length text.now }
    ensures { EndsKind LF_ENDS text.now from result.0 result.1 result.2 }
{
    let at = skip_white::<LF_ENDS>(text, from);
    if byte_at(text, at) == b'(' {
        return (Dimension::XY, AfterHeader::Inside, at + 1);
    }
    if let Some((dim, behind)) = dimension_at::<LF_ENDS>(text, at) {
        let (then, end) = behind_dimension::<LF_ENDS>(text, behind);
        return (dim, then, end);
    }
    match empty_at::<LF_ENDS>(text, at) {
        Some(end) => (Dimension::XY, AfterHeader::Outside, end),
        None => (Dimension::XY, AfterHeader::Dimension, from),
    }
}

/// What stands behind a dimension, which ends at `from`, and where that ends.
#[inline(always)]
#[tactic(auto, using(crate::proofs::ByteSteps::behind_white))]
fn behind_dimension<const LF_ENDS: bool>(text: &[u8], from: usize) -> (AfterHeader, usize)
    requires { from ≤ length text.now }
    ensures { EndsDimension LF_ENDS text.now from result.0 result.1 }
{
    let at = skip_white::<LF_ENDS>(text, from);
    if byte_at(text, at) == b'(' {
        return (AfterHeader::Inside, at + 1);
    }
    match empty_at::<LF_ENDS>(text, at) {
        Some(end) => (AfterHeader::Outside, end),
        None => (AfterHeader::Opening, from),
    }
}

/// The dimension at `at`, and where it ends.
#[inline(always)]
fn dimension_at<const LF_ENDS: bool>(text: &[u8], at: usize) -> Option<(Dimension, usize)>
    requires { at ≤ length text.now }
    ensures names { IfSome result (λ r. (w : List ℕ) × TakesOne LF_ENDS text.now at (Word w) r.1 × (dim_word w ≡ Some r.0)) }
    ensures inside { IfSome result (λ r. r.1 ≤ length text.now) }
{
    let (dim, n) = dimension_front(&text[at..])?;
    if !ends_word(byte_at(text, at + n)) {
        return None;
    }
    Some((dim, at + n))
}

/// Where EMPTY at `at` ends. `None`: the caller falls back.
#[inline(always)]
fn empty_at<const LF_ENDS: bool>(text: &[u8], at: usize) -> Option<usize>
    requires { at ≤ length text.now }
    ensures { IfSome result (λ end. (w : List ℕ) × TakesOne LF_ENDS text.now at (Word w) end × (is_empty_word w ≡ true)) }
{
    if text.len() - at < 5 || !is_empty_in(&text[at..at + 5]) {
        return None;
    }
    if !ends_word(byte_at(text, at + 5)) {
        return None;
    }
    Some(at + 5)
}

/// Whether a word ends before the byte.
#[inline(always)]
#[tactic(auto, using(crate::proofs::ByteSteps::ends_open_word))]
fn ends_word(byte: u8) -> bool
    ensures { OnTrue result (class_of byte ≢ Run) }
{
    if byte == b'(' {
        return true;
    }
    !is_of_run(byte)
}
