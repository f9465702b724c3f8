//! A lexeme is taken off a source, and what it makes is made.
ghost use Rattle.std.specs.Prelude.{◌≡◌, [], IfOk, IfErr, Ok, Err};
ghost use Rattle.wkt_machine.specs.Goes.{Stays, IsUnread};
ghost use Rattle.wkt_machine.specs.Steps.{MayStep, MayApply, Applies, Steps};
ghost use Rattle.wkt_machine.specs.View.{sight};
ghost use Rattle.wkt_machine.specs.declared.machine.LexemeKind.TheVariants as sees;

use crate::builder::Builder;
use crate::machine::Machine;
use crate::part::Part;
use crate::source::{Progress, Source, StepResult};
use crate::step::Action;
use wkt_access::Dimension;
use wkt_num::WktNum;

/// Behind the lexeme that comes next.
#[inline(always)]
pub fn take<T: WktNum, S: Source<T>, B: Builder<T>>(
    machine: Machine,
    source: S,
    builder: B,
) -> StepResult<S, B>
    requires { MayStep S.view B.maker machine source builder }
    ensures { Steps S.view B.maker machine source builder result }
{
    let (seen, looked) = source.look();
    match machine.step(seen) {
        Some((next, action)) => match apply::<T, S, B>(action, looked, builder) {
            Ok((behind, made)) => on(behind, next, made),
            Err((before, made)) => refused(before, machine, made),
        },
        None => refused(looked, machine, builder),
    }
}

/// The same, outlined: only this path zeroes the result slot.
#[inline(always)]
pub fn take_rare<T: WktNum, S: Source<T>, B: Builder<T>>(
    machine: Machine,
    source: S,
    builder: B,
) -> StepResult<S, B>
    requires { MayStep S.view B.maker machine source builder }
    ensures { Steps S.view B.maker machine source builder result }
{
    take_outlined::<T, S, B>(machine, source, builder)
}

#[inline(never)]
fn take_outlined<T: WktNum, S: Source<T>, B: Builder<T>>(
    machine: Machine,
    source: S,
    builder: B,
) -> StepResult<S, B>
    requires { MayStep S.view B.maker machine source builder }
    ensures { Steps S.view B.maker machine source builder result }
{
    take::<T, S, B>(machine, source, builder)
}

/// Past the lexeme that was looked at, with what is made of it; or before it, if it is a number that isn't read.
#[inline(always)]
fn apply<T: WktNum, S: Source<T>, B: Builder<T>>(
    action: Action,
    source: S,
    builder: B,
) -> Result<(S, B), (S, B)>
    requires { MayApply S.view B.maker action source builder }
    ensures applies { IfOk result (λ r. Applies (B.maker.reads builder) S.view B.maker action source builder r.0 r.1) }
    ensures stays { IfErr result (λ r. Stays S.view source r.0) }
    ensures number { IfErr result (λ r. sight (S.view.remaining source) ≡ sees.Number) }
    ensures unread { IfErr result (λ r. (k : S.view.Known) → S.view.keeps source k → IsUnread (B.maker.reads builder) (S.view.remaining source)) }
    ensures nothing { IfErr result (λ r. B.maker.makes builder [] r.1) }
{
    match action {
        Action::Nothing => Ok((source.skip(), builder)),
        Action::Header(part, dim) => Ok((source.skip(), builder.begin(part, dim))),
        Action::HeaderOpen(part) => Ok((
            source.skip(),
            builder.begin(part, Dimension::XY).open(part),
        )),
        Action::HeaderEmpty(part) => Ok((
            source.skip(),
            builder.begin(part, Dimension::XY).empty(part),
        )),
        Action::Open(part) => Ok((source.skip(), builder.open(part))),
        Action::Comma(part) => Ok((source.skip(), builder.comma(part))),
        Action::Close(part) => Ok((source.skip(), builder.close(part))),
        Action::Empty(part) => Ok((source.skip(), builder.empty(part))),
        Action::Number(axis) => source.number(builder, axis),
        Action::FirstBare => source.bare(builder),
        Action::LastBare(axis) => {
            let (behind, made) = source.number(builder, axis)?;
            Ok((behind, made.close(Part::Member)))
        }
    }
}

/// On at the place, with what was made.
#[inline(always)]
pub fn on<S, B>(source: S, machine: Machine, builder: B) -> StepResult<S, B>
    ensures { result ≡ Ok (record { source = source; machine = machine; builder = builder }) }
{
    Ok(Progress {
        source,
        machine,
        builder,
    })
}

/// Refused at the place.
#[inline(always)]
pub fn refused<S, B>(source: S, machine: Machine, builder: B) -> StepResult<S, B>
    ensures { result ≡ Err (record { source = source; machine = machine; builder = builder }) }
{
    Err(Progress {
        source,
        machine,
        builder,
    })
}
