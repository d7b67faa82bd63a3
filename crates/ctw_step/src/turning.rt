//! Turns: many steps of one running call.
ghost use Rattle.std.specs.Prelude.{true, ◌≡◌, ◌≤◌, ◌<◌, ◌+◌, ◌++◌, ℕ, List, Option, MatchResult, IfOk, option_to_list};
ghost use Rattle.std.specs.Vec.{vec_len, vec_capacity};
ghost use Rattle.ctw_ops.specs.declared.types.Label.{Label};
ghost use Rattle.ctw_ops.specs.Types.{ValueType};
ghost use Rattle.ctw_semantics.specs.Activations.{Activation as Call};
ghost use Rattle.ctw_semantics.specs.Sound.{Shape, SoundStorage};
ghost use Rattle.ctw_semantics.specs.Stores.{Storage};
ghost use Rattle.ctw_semantics.specs.Seen.{Agree};
ghost use Rattle.ctw_semantics.specs.Erased.{erase_functions, erase_storage, erase_activation};
ghost use Rattle.ctw_semantics.specs.Steps.{turn as turn_of};
ghost use Rattle.ctw_store.specs.Made.{KeepsMade};
ghost use Rattle.ctw_step.specs.SetInstances.{instances};
ghost use Rattle.ctw_step.specs.Stepping.{CanStep, Standing};
ghost use Rattle.ctw_step.specs.Turning.{GoesOn, TurnTells, TurnSeenAs, TurnErasedAs};

use crate::activation::{Activation, step, step_shortly};
use crate::running::Stepped;
use ctw_link::LinkedSet;
use ctw_script::{Event, TrapCode};
use ctw_store::Store;

/// How a turn ended.
#[derive(Clone, Copy, Debug, PartialEq, Eq)]
pub enum Turned {
    /// All its steps were taken, and the call goes on.
    More,
    /// The call ended.
    Ended {
        /// How many steps were taken.
        steps: u32,
        /// Its result.
        value: Option<u64>,
    },
    /// The call trapped.
    Trapped {
        /// How many steps were taken.
        steps: u32,
        /// Why.
        code: TrapCode,
    },
}

/// Want of memory in a turn.
#[derive(Clone, Copy, Debug, PartialEq, Eq)]
pub struct TurnNoMemory {
    /// How many steps were taken. The store, the call and the events are those after so many.
    pub steps: u32,
}

/// Appends an event, for which there is room.
fn note(events: &mut Vec<Event>, event: Option<Event>)
    requires { vec_len events.old < vec_capacity events.old }
    ensures items { events.new.items ≡ events.old.items ++ option_to_list event }
    ensures capacity { vec_capacity events.new ≡ vec_capacity events.old }
    ensures length { vec_len events.new ≤ 1 + vec_len events.old }
{
    if let Some(event) = event {
        events.push_reserved(event);
    }
}

/// Makes room for so many events, and tells whether it is there.
fn make_room(events: &mut Vec<Event>, n: u32) -> bool
    ensures items { events.new.items ≡ events.old.items }
    ensures room { result ≡ true → vec_len events.new + n ≤ vec_capacity events.new }
{
    events.reserve(n as usize).is_ok()
}

/// The steps of a turn.
fn turn_steps(
    set: &LinkedSet,
    store: &mut Store,
    act: &mut Activation,
    n: u32,
    events: &mut Vec<Event>,
) -> Result<Turned, TurnNoMemory>
    requires { CanStep set.now store.old.storage act.old }
    ensures does { (shape : Shape) (last : Option (ValueType Label)) (a : Call)
        → Standing set.now store.old.storage act.old shape last a
        → MatchResult result (λ r.
        TurnTells set.now shape last n (turn_of n (instances set.now) store.old.storage a) r
        store.new.storage act.new events.old.items events.new.items)
        (λ e. (e.steps ≤ n)
        × GoesOn set.now shape last (turn_of e.steps (instances set.now) store.old.storage a) e.steps
        store.new.storage act.new events.old.items events.new.items) }
    ensures made { KeepsMade store.old.made store.new.made }
{
    if !make_room(events, n) {
        return Err(TurnNoMemory { steps: 0 });
    }
    let mut steps = 0;
    'steps: while steps < n {
        steps += step_shortly(set, store, act, n - 1 - steps);
        match step(set, store, act) {
            Ok(Stepped::Went { event }) => {
                note(events, event);
                steps += 1;
            }
            Ok(Stepped::Ended { value, event }) => {
                note(events, event);
                return Ok(Turned::Ended {
                    steps: steps + 1,
                    value,
                });
            }
            Ok(Stepped::Trapped { code, event }) => {
                note(events, event);
                return Ok(Turned::Trapped {
                    steps: steps + 1,
                    code,
                });
            }
            Err(_) => return Err(TurnNoMemory { steps }),
        }
    }
    Ok(Turned::More)
}

/// So many steps of a running call, or fewer if it ends or traps; the events are appended in order.
///
/// `More` exactly where so many steps were taken and the call hasn't ended. Room for the events is taken first. The
/// error is want of memory, and tells how many steps were taken.
pub fn turn(
    set: &LinkedSet,
    store: &mut Store,
    act: &mut Activation,
    n: u32,
    events: &mut Vec<Event>,
) -> Result<Turned, TurnNoMemory>
    requires { CanStep set.now store.old.storage act.old }
    // It does what the turn of each call that it stands for does, or its first steps where memory is wanting.
    ensures does { (shape : Shape) (last : Option (ValueType Label)) (a : Call)
        → Standing set.now store.old.storage act.old shape last a
        → MatchResult result (λ r.
        TurnTells set.now shape last n (turn_of n (instances set.now) store.old.storage a) r
        store.new.storage act.new events.old.items events.new.items)
        (λ e. (e.steps ≤ n)
        × GoesOn set.now shape last (turn_of e.steps (instances set.now) store.old.storage a) e.steps
        store.new.storage act.new events.old.items events.new.items) }
    // The store stays sound, and with it each other call over it.
    ensures sound { (shape : Shape) (last : Option (ValueType Label)) (a : Call)
        → Standing set.now store.old.storage act.old shape last a → SoundStorage shape store.new.storage }
    // The turn of each agreeing state that releases the same looks the same.
    ensures isolated { (shape : Shape) (last : Option (ValueType Label)) (a : Call)
        → Standing set.now store.old.storage act.old shape last a
        → (t : Storage) (b : Call) → Agree store.old.storage a t b
        → (turn_of n (instances set.now) store.old.storage a).releases ≡ (turn_of n (instances set.now) t b).releases
        → IfOk result (λ r.
        TurnSeenAs set.now n r store.new.storage act.new events.old.items events.new.items
        (turn_of n (instances set.now) t b)) }
    // The erased state takes the same turn.
    ensures erased { (shape : Shape) (last : Option (ValueType Label)) (a : Call)
        → Standing set.now store.old.storage act.old shape last a
        → IfOk result (λ r.
        TurnErasedAs set.now n r store.new.storage act.new events.old.items events.new.items
        (turn_of n (erase_functions (instances set.now)) (erase_storage store.old.storage)
        (erase_activation (instances set.now) a))) }
    ensures made { KeepsMade store.old.made store.new.made }
{
    turn_steps(set, store, act, n, events)
}
