//! Running calls as callers see them.
ghost use Rattle.std.specs.Prelude.{◌≡◌, ◌≤◌, ◌<◌, ◌+◌, ℕ, List, Option, Some, IfErr, IfOk, map, length, slice_get};
ghost use Rattle.ctw_ops.specs.declared.types.ExternTag.TheVariants.{Func};
ghost use Rattle.ctw_ops.specs.Limits.{most_weight};
ghost use Rattle.ctw_link.specs.Sets.{set_of, defined};
ghost use Rattle.ctw_semantics.specs.Values.{Value};
ghost use Rattle.ctw_semantics.specs.Instances.{FunctionInstance};
ghost use Rattle.ctw_semantics.specs.Machine.{begun};
ghost use Rattle.ctw_step.specs.Stands.{Stands, number_of};
ghost use Rattle.ctw_ops.specs.declared.types.Label.{Label};
ghost use Rattle.ctw_ops.specs.Types.{ValueType};
ghost use Rattle.ctw_semantics.specs.Activations.{Activation as Call};
ghost use Rattle.ctw_semantics.specs.Stores.{Storage};
ghost use Rattle.ctw_semantics.specs.Sound.{Shape, SoundSet, SoundStorage, HasTypes};
ghost use Rattle.ctw_semantics.specs.Steps.{step as step_of};
ghost use Rattle.ctw_semantics.specs.Seen.{Agree};
ghost use Rattle.ctw_semantics.specs.Erased.{erase_functions, erase_storage, erase_activation};
ghost use Rattle.ctw_store.specs.Made.{KeepsMade};
ghost use Rattle.ctw_step.specs.Calls.{nothing};
ghost use Rattle.ctw_link.specs.Linked.{code_in};
ghost use Rattle.ctw_step.specs.Shown.{shown};
ghost use Rattle.ctw_step.specs.SetInstances.{instances};
ghost use Rattle.ctw_step.specs.Told.{KeepsAtEnd, Tells};
ghost use Rattle.ctw_step.specs.Stepping.{CanStep, Standing};
ghost use Rattle.ctw_step.specs.Machine.{StaysSound, SeenAs, ErasedAs};
ghost use Rattle.ctw_step.specs.Turning.{CameFromAll};
ghost use Rattle.ctw_script.specs.declared.event.Event.{Event};

use crate::calls::enter_frame;
use crate::one_step::step_running;
use crate::running::{Running, Stepped};
use crate::sets::callee_of;
use crate::short::pass_short;
use ctw_link::LinkedSet;
use ctw_store::Store;
use std::alloc::{AllocError, Global};
use std::marker::Model;

/// A running call of a linked set: words without types, and places in the bytes of bodies. Contracts see its lists.
#[derive(Drop)]
pub struct Activation {
    running: Running,
}

impl Model for Activation {
    ghost use Rattle.ctw_step.specs.Shown.{Shown, shown};

    ghost Value = { Shown };

    ghost view = { λ a. shown a.running };
}

/// Arguments as operands of no function.
fn waiting(alloc: Global, args: &[u64]) -> Result<Running, AllocError>
    ensures { IfOk result (λ r. shown r ≡ nothing args.now) }
{
    let mut operands = Vec::new(alloc);
    operands.extend_from_slice(args)?;
    Ok(Running {
        operands,
        locals: Vec::new(alloc),
        labels: Vec::new(alloc),
        frames: Vec::new(alloc),
        at: 0,
    })
}

/// A call that begins: of a function of the store, with a number for each of its parameters.
///
/// There are as many arguments as the function has parameters, each within its width. The error is want of memory.
pub fn enter(
    alloc: Global,
    set: &LinkedSet,
    func: u32,
    args: &[u64],
) -> Result<Activation, AllocError>
    requires func { func < defined Func (set_of set.now) }
    requires args { (fn : FunctionInstance) → slice_get (instances set.now) func ≡ Some fn
        → length args.now ≡ length fn.type.params }
    // It stands for the begun call with values of these numbers.
    ensures begins { (fn : FunctionInstance) (vs : List Value) → slice_get (instances set.now) func ≡ Some fn
        → map number_of vs ≡ args.now
        → IfOk result (λ act. Stands (code_in set.now) act (begun func fn vs)) }
    // Values of the parameters' types make it a sound call, if it isn't too heavy.
    ensures sound { (shape : Shape) (s : Storage) (fn : FunctionInstance) (vs : List Value)
        → SoundSet (instances set.now) shape → SoundStorage shape s
        → slice_get (instances set.now) func ≡ Some fn → HasTypes fn.type.params vs → map number_of vs ≡ args.now
        → 1 + length fn.type.params + length fn.locals ≤ most_weight
        → IfOk result (λ act. Standing set.now s act shape fn.type.result (begun func fn vs)) }
{
    let callee = callee_of(set, func);
    let mut running = waiting(alloc, args)?;
    enter_frame(&mut running, callee, 0, 0)?;
    Ok(Activation { running })
}

/// One step of a running call: the instructions that change a label and stand next, which cost nothing, and then one
/// counted reduction (W3C WebAssembly Core 1.0, section 4.4).
///
/// The call is one of the set over the store, and hasn't ended. What it stands for is never stuck. The error is want of
/// memory, and leaves the call and the store as they were.
pub fn step(set: &LinkedSet, store: &mut Store, act: &mut Activation) -> Result<Stepped, AllocError>
    requires { CanStep set.now store.old.storage act.old }
    // It does what the step of each call that it stands for does; one that ends or traps leaves the store as it was.
    ensures does { (shape : Shape) (last : Option (ValueType Label)) (a : Call)
        → Standing set.now store.old.storage act.old shape last a
        → IfOk result (λ r.
        Tells (code_in set.now) store.new.storage act.new r (step_of (instances set.now) store.old.storage a).answer
        (step_of (instances set.now) store.old.storage a).event) }
    ensures ends { IfOk result (KeepsAtEnd store.old.storage store.new.storage) }
    // It stays sound.
    ensures sound { (shape : Shape) (last : Option (ValueType Label)) (a : Call)
        → Standing set.now store.old.storage act.old shape last a
        → IfOk result (StaysSound set.now store.new.storage act.new shape last) }
    // The step of each agreeing state that releases the same looks the same.
    ensures isolated { (shape : Shape) (last : Option (ValueType Label)) (a : Call)
        → Standing set.now store.old.storage act.old shape last a
        → (t : Storage) (b : Call) → Agree store.old.storage a t b
        → (step_of (instances set.now) store.old.storage a).releases ≡ (step_of (instances set.now) t b).releases
        → IfOk result (λ r. SeenAs set.now store.new.storage act.new r (step_of (instances set.now) t b)) }
    // The erased state takes the same step.
    ensures erased { (shape : Shape) (last : Option (ValueType Label)) (a : Call)
        → Standing set.now store.old.storage act.old shape last a
        → IfOk result (λ r.
        ErasedAs set.now store.new.storage act.new r (step_of (erase_functions (instances set.now))
        (erase_storage store.old.storage) (erase_activation (instances set.now) a))) }
    ensures kept { IfErr result (λ _. (act.new ≡ act.old) × (store.new.storage ≡ store.old.storage)) }
    ensures made { KeepsMade store.old.made store.new.made }
{
    step_running(set, store, &mut act.running)
}

/// Steps of short instructions that show nothing and stand next, at most so many; tells how many were taken.
pub fn step_shortly(set: &LinkedSet, store: &Store, act: &mut Activation, n: u32) -> u32
    requires { CanStep set.now store.now.storage act.old }
    ensures few { result ≤ n }
    ensures came { (before : List Event)
        → CameFromAll set.now result store.now.storage act.old before store.now.storage act.new before }
    ensures on { CanStep set.now store.now.storage act.new }
{
    pass_short(set, store, &mut act.running, n)
}
