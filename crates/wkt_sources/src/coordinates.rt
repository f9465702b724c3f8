//! Coordinates in bytes, as far as the parenthesis behind them.
ghost use Rattle.std.specs.Prelude.{◌≡◌, ◌≢◌, ◌≤◌, ◌+◌, get_or, length, true, false};
ghost use Rattle.std.specs.Bool.{OnTrue, OnFalse};
ghost use Rattle.wkt_sources.specs.Views.{bytes_view, has_coordinates, MayRead, MayBegin};
ghost use Rattle.wkt_machine.specs.Goes.{Goes, Refuses, reached, standing};
ghost use Rattle.wkt_machine.specs.Machines.{next_after, HasNext};
ghost use Rattle.wkt_machine.specs.Room.{HasRoom};
ghost use Rattle.wkt_machine.specs.Steps.{Steps};
ghost use Rattle.wkt_machine.specs.declared.machine.State.TheVariants as next;
ghost use Rattle.wkt_machine.specs.declared.part.Axis.TheVariants as axis;
ghost use Rattle.wkt_machine.specs.declared.part.Part.TheVariants as part_of;
ghost use Rattle.wkt_access.specs.declared.dimensions.Dimension.TheVariants as dim_of;

use crate::bytes::ByteCursor;
use wkt_access::Dimension;
use wkt_events::{byte_at, skip_white};
use wkt_machine::machine::is_single;
use wkt_machine::{Axis, Builder, Machine, Part, Progress, State, StepResult, on, refused};
use wkt_num::WktNum;

/// Whether coordinates stand in the parentheses of a part.
#[inline(always)]
pub(crate) fn has_coordinates(part: Part) -> bool
    ensures { result ≡ has_coordinates part }
{
    matches!(
        part,
        Part::Point | Part::LineString | Part::Member | Part::Ring | Part::Line | Part::AreaRing
    )
}

/// Coordinates with commas between them, and the parenthesis behind them; or as far as no comma stands right there.
#[inline(always)]
pub(crate) fn coordinates<'a, T: WktNum, B: Builder<T>, const LF_ENDS: bool>(
    machine: Machine,
    source: ByteCursor<'a, LF_ENDS>,
    builder: B,
) -> StepResult<ByteCursor<'a, LF_ENDS>, B>
    requires state { machine.state ≡ next.Number axis.X }
    requires may { MayRead LF_ENDS B.maker machine source builder }
    ensures { Steps (bytes_view LF_ENDS) B.maker machine source.entry builder result }
{
    match machine.dim {
        Dimension::XY => coordinates_of::<T, B, LF_ENDS, true>(machine, source, builder),
        _ => deep_coordinates::<T, B, LF_ENDS>(machine, source, builder),
    }
}

/// The same where it is known whether they have two numbers each.
#[inline(always)]
fn coordinates_of<'a, T: WktNum, B: Builder<T>, const LF_ENDS: bool, const IS_FLAT: bool>(
    machine: Machine,
    source: ByteCursor<'a, LF_ENDS>,
    builder: B,
) -> StepResult<ByteCursor<'a, LF_ENDS>, B>
    requires { MayBegin IS_FLAT LF_ENDS B.maker machine source builder }
    ensures { Steps (bytes_view LF_ENDS) B.maker machine source.entry builder result }
{
    let single = is_single(machine.part);
    let (mut source, mut builder) = (source, builder);
    'coordinates: loop {
        let (is_whole, state, behind, made) = coordinate::<T, B, LF_ENDS, IS_FLAT>(
            machine, source, builder,
        );
        if !is_whole {
            return refused(behind, machine.with_state(state), made);
        }
        let text = behind.text;
        let byte = byte_at(text, behind.at);
        if byte == b')' {
            let end = behind.at + 1;
            let closed = made.close(machine.part);
            if !is_next_member(machine.part, text, end) {
                return on(ByteCursor::new(text, end), machine.outside(), closed);
            }
            source = ByteCursor::new(text, end + 2);
            builder = closed.comma(Part::MultiPoint).open(Part::Member);
        } else {
            if byte != b',' || single {
                return on(behind, machine.with_state(State::Item), made);
            }
            source = ByteCursor::new(text, behind.at + 1);
            builder = made.comma(machine.part);
        }
    }
}

/// Whether a comma and a parenthesis stand right behind a point of a multipoint. For MULTIPOINT((1 2),(3 4)) of
/// capi/bench/calls.sh, of which it saves a sixth.
#[inline(always)]
fn is_next_member(part: Part, text: &[u8], at: usize) -> bool
    ensures { OnTrue result ((part ≡ part_of.Member) × (get_or text.now at 0 ≡ 44) × (get_or text.now (at + 1) 0 ≡ 40)) }
{
    matches!(part, Part::Member) && byte_at(text, at) == b',' && byte_at(text, at + 1) == b'('
}

/// The same of more numbers each. They stand apart, since few texts have them.
///
/// Outlined: only this path zeroes the result slot.
#[inline(always)]
fn deep_coordinates<'a, T: WktNum, B: Builder<T>, const LF_ENDS: bool>(
    machine: Machine,
    source: ByteCursor<'a, LF_ENDS>,
    builder: B,
) -> StepResult<ByteCursor<'a, LF_ENDS>, B>
    requires { MayBegin false LF_ENDS B.maker machine source builder }
    ensures { Steps (bytes_view LF_ENDS) B.maker machine source.entry builder result }
{
    deep_coordinates_outlined::<T, B, LF_ENDS>(machine, source, builder)
}

#[inline(never)]
fn deep_coordinates_outlined<'a, T: WktNum, B: Builder<T>, const LF_ENDS: bool>(
    machine: Machine,
    source: ByteCursor<'a, LF_ENDS>,
    builder: B,
) -> StepResult<ByteCursor<'a, LF_ENDS>, B>
    requires { MayBegin false LF_ENDS B.maker machine source builder }
    ensures { Steps (bytes_view LF_ENDS) B.maker machine source.entry builder result }
{
    coordinates_of::<T, B, LF_ENDS, false>(machine, source, builder)
}

/// The coordinate that comes next, and whether it is whole. If it isn't: in which state the number that isn't read stands.
///
/// The loop carries the parts of the machine that change, and not the machine, since structs copy their padding.
#[inline(always)]
fn coordinate<'a, T: WktNum, B: Builder<T>, const LF_ENDS: bool, const IS_FLAT: bool>(
    machine: Machine,
    source: ByteCursor<'a, LF_ENDS>,
    builder: B,
) -> (bool, State, ByteCursor<'a, LF_ENDS>, B)
    requires { MayBegin IS_FLAT LF_ENDS B.maker machine source builder }
    ensures on { OnTrue result.0 (Goes (B.maker.reads builder) (bytes_view LF_ENDS) B.maker machine source.entry builder (reached machine next.Item result.2 result.3)) }
    ensures inside { OnTrue result.0 (result.2.at ≤ length result.2.text.now) }
    ensures room { OnTrue result.0 (HasRoom (bytes_view LF_ENDS) B.maker 0 result.2 result.3) }
    ensures refused { OnFalse result.0 (Refuses (B.maker.reads builder) (bytes_view LF_ENDS) B.maker machine source.entry builder (reached machine result.1 result.2 result.3)) }
{
    let (has_x, source, made) = number::<T, B, LF_ENDS>(Axis::X, machine, source, builder);
    if !has_x {
        return (false, State::Number(Axis::X), source, made);
    }
    let (has_y, source, made) = number::<T, B, LF_ENDS>(Axis::Y, machine, source, made);
    if !has_y {
        return (false, State::Number(Axis::Y), source, made);
    }
    if IS_FLAT {
        return (true, State::Item, source, made);
    }
    z_and_m::<T, B, LF_ENDS>(machine, source, made)
}

/// The numbers behind X and Y, of which there are some.
#[inline]
fn z_and_m<'a, T: WktNum, B: Builder<T>, const LF_ENDS: bool>(
    machine: Machine,
    source: ByteCursor<'a, LF_ENDS>,
    builder: B,
) -> (bool, State, ByteCursor<'a, LF_ENDS>, B)
    requires more { machine.dim ≢ dim_of.XY }
    requires may { MayRead LF_ENDS B.maker machine source builder }
    ensures on { OnTrue result.0 (Goes (B.maker.reads builder) (bytes_view LF_ENDS) B.maker (standing machine (next_after axis.Y machine.dim)) source.entry builder (reached machine next.Item result.2 result.3)) }
    ensures inside { OnTrue result.0 (result.2.at ≤ length result.2.text.now) }
    ensures room { OnTrue result.0 (HasRoom (bytes_view LF_ENDS) B.maker 0 result.2 result.3) }
    ensures refused { OnFalse result.0 (Refuses (B.maker.reads builder) (bytes_view LF_ENDS) B.maker (standing machine (next_after axis.Y machine.dim)) source.entry builder (reached machine result.1 result.2 result.3)) }
{
    match machine.dim {
        // Unreachable.
        Dimension::XY => (true, State::Item, source, builder),
        Dimension::XYZ => {
            let (has_z, source, made) = number::<T, B, LF_ENDS>(Axis::Z, machine, source, builder);
            (has_z, State::Number(Axis::Z), source, made)
        }
        Dimension::XYM => {
            let (has_m, source, made) = number::<T, B, LF_ENDS>(Axis::M, machine, source, builder);
            (has_m, State::Number(Axis::M), source, made)
        }
        Dimension::XYZM => {
            let (has_z, source, made) = number::<T, B, LF_ENDS>(Axis::Z, machine, source, builder);
            if !has_z {
                return (false, State::Number(Axis::Z), source, made);
            }
            let (has_m, source, made) = number::<T, B, LF_ENDS>(Axis::M, machine, source, made);
            (has_m, State::Number(Axis::M), source, made)
        }
    }
}

/// The number that comes next, and whether one is read.
#[inline(always)]
fn number<'a, T: WktNum, B: Builder<T>, const LF_ENDS: bool>(
    axis: Axis,
    machine: Machine,
    source: ByteCursor<'a, LF_ENDS>,
    builder: B,
) -> (bool, ByteCursor<'a, LF_ENDS>, B)
    requires sound { HasNext (next.Number axis) machine.dim }
    requires may { MayRead LF_ENDS B.maker machine source builder }
    ensures on { OnTrue result.0 (Goes (B.maker.reads builder) (bytes_view LF_ENDS) B.maker (standing machine (next.Number axis)) source.entry builder (reached machine (next_after axis machine.dim) result.1 result.2)) }
    ensures inside { OnTrue result.0 (result.1.at ≤ length result.1.text.now) }
    ensures room { OnTrue result.0 (HasRoom (bytes_view LF_ENDS) B.maker 0 result.1 result.2) }
    ensures refused { OnFalse result.0 (Refuses (B.maker.reads builder) (bytes_view LF_ENDS) B.maker (standing machine (next.Number axis)) source.entry builder (reached machine (next.Number axis) result.1 result.2)) }
{
    // Used by the contract only.
    let _ = machine;
    let text = source.text;
    let at = skip_white::<LF_ENDS>(text, source.at);
    let (made, end) = builder.number_in(text, at, axis);
    match end {
        Some(end) => (true, ByteCursor::new(text, end), made),
        None => (false, ByteCursor::new(text, at), made),
    }
}
