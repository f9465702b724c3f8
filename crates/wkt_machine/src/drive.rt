//! The one loop over lexemes.
ghost use Rattle.std.specs.Prelude.{◌≡◌, ◌≤◌, length, IfOk, IfErr, true};
ghost use Rattle.wkt_machine.specs.Machine.{is_over};
ghost use Rattle.wkt_machine.specs.Goes.{GoesFrom, RefusesFrom};
ghost use Rattle.wkt_machine.specs.Machines.{state_of};
ghost use Rattle.wkt_machine.specs.Room.{HasRoom, RoomAt};
ghost use Rattle.wkt_machine.specs.Steps.{MayStep, Steps};

use crate::builder::Builder;
use crate::lexeme::take;
use crate::machine::{Machine, State};
use crate::part::Axis;
use crate::source::{FastSource, Progress, StepResult};
use wkt_num::WktNum;

/// After one lexeme or more.
#[inline(always)]
fn step_many<T: WktNum, S: FastSource<T>, B: Builder<T>>(
    machine: Machine,
    source: S,
    builder: B,
) -> StepResult<S, B>
    requires { MayStep S.view B.maker machine source builder }
    ensures { Steps S.view B.maker machine source builder result }
{
    match machine.state {
        State::Kind => source.header(machine, builder),
        State::Number(Axis::X) => source.coordinates(machine, builder),
        _ => take::<T, S, B>(machine, source, builder),
    }
}

/// Behind the geometry that comes next; or where it is refused.
#[inline(always)]
pub fn drive<T: WktNum, S: FastSource<T>, B: Builder<T>>(source: S, builder: B) -> StepResult<S, B>
    requires depth { length (S.view.remaining source) ≤ usize.MAX }
    requires room { HasRoom S.view B.maker 0 source builder }
    ensures on { IfOk result (GoesFrom (B.maker.reads builder) S.view B.maker source builder) }
    ensures over { IfOk result (λ to. is_over (state_of to.machine) ≡ true) }
    ensures room { IfOk result (RoomAt S.view B.maker) }
    ensures refused { IfErr result (RefusesFrom (B.maker.reads builder) S.view B.maker source builder) }
{
    // By itself, so that it is inlined once more: points take a seventh less.
    let Progress {
        source: begun,
        machine: first,
        builder: made,
    } = source.header(Machine::start(), builder)?;
    // Rebuilt here and below, so padding isn't copied.
    let (mut source, mut machine, mut builder) = (begun, Machine { ..first }, made);
    'lexemes: loop {
        if machine.is_over() {
            return Ok(Progress {
                source,
                machine,
                builder,
            });
        }
        let Progress {
            source: behind,
            machine: next,
            builder: made,
        } = step_many(machine, source, builder)?;
        (source, machine, builder) = (behind, Machine { ..next }, made);
    }
}
