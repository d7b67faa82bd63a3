//! Indirect calls.
ghost use Rattle.std.specs.Prelude.{◌≡◌, ◌<◌, ◌∷◌, ◌++◌, [], ℕ, List, length, Some, None, IfErr, slice_get};
ghost use Rattle.ctw_ops.specs.declared.types.Label.{Label};
ghost use Rattle.ctw_ops.specs.declared.types.ExternTag.TheVariants.{Func};
ghost use Rattle.ctw_ops.specs.Equal.{same_function_type};
ghost use Rattle.ctw_ops.specs.Tree.{TypeEntry};
ghost use Rattle.ctw_flat.specs.declared.instr.Instr.TheVariants as instr;
ghost use Rattle.ctw_link.specs.Sets.{set_of, defined};
ghost use Rattle.ctw_semantics.specs.Instances.{FunctionInstance};
ghost use Rattle.ctw_semantics.specs.Stores.{Storage};
ghost use Rattle.ctw_step.specs.Shown.{shown};
ghost use Rattle.ctw_step.specs.SetInstances.{instances};
ghost use Rattle.ctw_step.specs.Reducing.{InPart, CanReduce, Reduces};
ghost use Rattle.ctw_step.specs.Told.{Tells};

use crate::calls::enter_frame;
use crate::running::{Running, Stepped};
use crate::sets::{callee_of, entry_in, table_in, type_in};
use crate::words::top_small;
use ctw_link::{LinkedSet, is_same};
use ctw_script::{Event, TrapCode};
use ctw_store::Store;
use std::alloc::AllocError;

/// Whether a function of the store has the type of a part's type entry.
fn has_type(set: &LinkedSet, part: u32, entry: u32, func: u32) -> bool
    requires func { func < defined Func (set_of set.now) }
    requires part { (at : ℕ) × (fn : FunctionInstance) × InPart set.now part at fn × (entry < length fn.part.types) }
    ensures { (at : ℕ) (fn callee : FunctionInstance) (t : TypeEntry Label) → InPart set.now part at fn
        → slice_get fn.part.types entry ≡ Some t → slice_get (instances set.now) func ≡ Some callee
        → result ≡ same_function_type callee.type t.type }
{
    let got = type_in(set, func);
    let wanted = entry_in(set, part, entry);
    is_same(&got, &wanted)
}

/// `call_indirect`
pub fn call_indirect(
    set: &LinkedSet,
    store: &Store,
    act: &mut Running,
    part: u32,
    entry: u32,
    next: usize,
) -> Result<Stepped, AllocError>
    requires { (code : List ℕ)
        × CanReduce set.now part code (shown act.old) (instr.CallIndirect entry) next store.now.storage }
    ensures does { (code : List ℕ)
        → Reduces set.now part code (shown act.old)
        (instr.CallIndirect entry) next store.now.storage result (shown act.new) store.now.storage }
    ensures kept { IfErr result (λ _. shown act.new ≡ shown act.old) }
{
    let index = top_small(act);
    match store.entry(table_in(set, part), index) {
        None => Ok(Stepped::Trapped {
            code: TrapCode::TableBounds,
            event: Some(Event::Indirect { index, func: None }),
        }),
        Some(None) => Ok(Stepped::Trapped {
            code: TrapCode::EmptyEntry,
            event: Some(Event::Indirect { index, func: None }),
        }),
        Some(Some(func)) => {
            if !has_type(set, part, entry, func) {
                return Ok(Stepped::Trapped {
                    code: TrapCode::CallType,
                    event: Some(Event::Indirect { index, func: None }),
                });
            }
            enter_frame(act, callee_of(set, func), 1, next)?;
            Ok(Stepped::Went {
                event: Some(Event::Indirect {
                    index,
                    func: Some(func),
                }),
            })
        }
    }
}
