//! The forms that read the linked set.
ghost use Rattle.std.specs.Prelude.{◌≡◌, true, Bool, ℕ, List, Ok, IfErr, IfOk, Some, None};
ghost use Rattle.ctw_ops.specs.declared.types.Label.{Label};
ghost use Rattle.ctw_ops.specs.Forms.{is_load, is_store};
ghost use Rattle.ctw_flat.specs.declared.instr.Instr.TheVariants as instr;
ghost use Rattle.ctw_semantics.specs.Stores.{Storage};
ghost use Rattle.ctw_store.specs.Made.{KeepsMade};
ghost use Rattle.ctw_step.specs.Shown.{shown};
ghost use Rattle.ctw_step.specs.Told.{HasBytes, Settles};
ghost use Rattle.ctw_step.specs.Reducing.{CanReduce, Reduces};

use crate::calls::call;
use crate::memory::{global_get, global_set, load, memory_grow, memory_size, store_number};
use crate::numeric::numeric;
use crate::running::{Running, Stepped};
use crate::sets::{callee_of, function_in, global_in, memory_in, profile_in};
use ctw_link::LinkedSet;
use ctw_ops::{NumOp, Width};
use ctw_store::Store;
use std::alloc::AllocError;

/// A load from the memory of a part.
pub fn load_in(
    set: &LinkedSet,
    store: &Store,
    act: &mut Running,
    part: u32,
    width: Width,
    bytes: u8,
    signed: bool,
    offset: u32,
    next: usize,
) -> Stepped
    requires form { is_load width bytes signed ≡ true }
    requires small { (mem : ℕ) → HasBytes store.now.storage mem }
    requires runs { (l : Label) × (align : ℕ) × (code : List ℕ)
        × CanReduce set.now part code (shown act.old)
        (instr.Load width l bytes signed align offset) next store.now.storage }
    ensures { (l : Label) (align : ℕ) (code : List ℕ)
        → Reduces set.now part code (shown act.old)
        (instr.Load width l bytes signed align offset) next store.now.storage (Ok result)
        (shown act.new) store.now.storage }
{
    load(
        store,
        act,
        memory_in(set, part),
        width,
        bytes,
        signed,
        offset,
        next,
    )
}

/// A store into the memory of a part. The error is want of memory.
pub fn store_in(
    set: &LinkedSet,
    store: &mut Store,
    act: &mut Running,
    part: u32,
    width: Width,
    bytes: u8,
    offset: u32,
    next: usize,
) -> Result<Stepped, AllocError>
    requires form { is_store width bytes ≡ true }
    requires runs { (l : Label) × (signed : Bool) × (align : ℕ) × (code : List ℕ)
        × CanReduce set.now part code (shown act.old)
        (instr.Store width l bytes signed align offset) next store.old.storage }
    ensures does { (l : Label) (signed : Bool) (align : ℕ) (code : List ℕ)
        → Reduces set.now part code (shown act.old)
        (instr.Store width l bytes signed align offset) next store.old.storage result (shown act.new)
        store.new.storage }
    ensures settles { IfOk result (Settles store.old.storage (shown act.old) store.new.storage (shown act.new)) }
    ensures kept { IfErr result (λ _. (shown act.new ≡ shown act.old) × (store.new.storage ≡ store.old.storage)) }
    ensures made { KeepsMade store.old.made store.new.made }
{
    store_number(store, act, memory_in(set, part), width, bytes, offset, next)
}

/// `memory.size` of the memory of a part. The error is want of memory.
pub fn size_in(
    set: &LinkedSet,
    store: &Store,
    act: &mut Running,
    part: u32,
    next: usize,
) -> Result<Stepped, AllocError>
    requires runs { (code : List ℕ)
        × CanReduce set.now part code (shown act.old) instr.MemorySize next store.now.storage }
    ensures does { (code : List ℕ)
        → Reduces set.now part code (shown act.old) instr.MemorySize next store.now.storage result
        (shown act.new) store.now.storage }
    ensures kept { IfErr result (λ _. shown act.new ≡ shown act.old) }
{
    memory_size(store, act, memory_in(set, part), next)
}

/// `memory.grow` of the memory of a part. The error is want of memory.
pub fn grow_in(
    set: &LinkedSet,
    store: &mut Store,
    act: &mut Running,
    part: u32,
    next: usize,
) -> Result<Stepped, AllocError>
    requires runs { (code : List ℕ)
        × CanReduce set.now part code (shown act.old) instr.MemoryGrow next store.old.storage }
    ensures does { (code : List ℕ)
        → Reduces set.now part code (shown act.old) instr.MemoryGrow next store.old.storage result
        (shown act.new) store.new.storage }
    ensures settles { IfOk result (Settles store.old.storage (shown act.old) store.new.storage (shown act.new)) }
    ensures kept { IfErr result (λ _. (shown act.new ≡ shown act.old) × (store.new.storage ≡ store.old.storage)) }
    ensures made { KeepsMade store.old.made store.new.made }
{
    memory_grow(store, act, memory_in(set, part), next)
}

/// `global.get` of a part. The error is want of memory.
pub fn get_in(
    set: &LinkedSet,
    store: &Store,
    act: &mut Running,
    part: u32,
    index: u32,
    next: usize,
) -> Result<Stepped, AllocError>
    requires runs { (code : List ℕ)
        × CanReduce set.now part code (shown act.old) (instr.GlobalGet index) next store.now.storage }
    ensures does { (code : List ℕ)
        → Reduces set.now part code (shown act.old)
        (instr.GlobalGet index) next store.now.storage result (shown act.new) store.now.storage }
    ensures kept { IfErr result (λ _. shown act.new ≡ shown act.old) }
{
    global_get(store, act, global_in(set, part, index), next)
}

/// `global.set` of a part.
pub fn set_in(
    set: &LinkedSet,
    store: &mut Store,
    act: &mut Running,
    part: u32,
    index: u32,
    next: usize,
) -> Stepped
    requires runs { (code : List ℕ)
        × CanReduce set.now part code (shown act.old) (instr.GlobalSet index) next store.old.storage }
    ensures does { (code : List ℕ)
        → Reduces set.now part code (shown act.old) (instr.GlobalSet index) next store.old.storage (Ok result)
        (shown act.new) store.new.storage }
    ensures settles { Settles store.old.storage (shown act.old) store.new.storage (shown act.new) result }
    ensures made { KeepsMade store.old.made store.new.made }
{
    global_set(store, act, global_in(set, part, index), next)
}

/// A numeric operation under the profile of a part.
pub fn numeric_in(set: &LinkedSet, act: &mut Running, part: u32, op: NumOp, next: usize) -> Stepped
    requires runs { (l : Label) × (code : List ℕ) × (s : Storage)
        × CanReduce set.now part code (shown act.old) (instr.Numeric op l) next s }
    ensures { (l : Label) (code : List ℕ) (s : Storage)
        → Reduces set.now part code (shown act.old) (instr.Numeric op l) next s (Ok result) (shown act.new) s }
{
    numeric(act, op, profile_in(set, part), next)
}

/// `call` of a function of a part. The error is want of memory.
pub fn call_in(
    set: &LinkedSet,
    act: &mut Running,
    part: u32,
    index: u32,
    next: usize,
) -> Result<Stepped, AllocError>
    requires runs { (code : List ℕ) × (s : Storage)
        × CanReduce set.now part code (shown act.old) (instr.Call index) next s }
    ensures does { (code : List ℕ) (s : Storage)
        → Reduces set.now part code (shown act.old) (instr.Call index) next s result (shown act.new) s }
    ensures kept { IfErr result (λ _. shown act.new ≡ shown act.old) }
{
    call(act, callee_of(set, function_in(set, part, index)), next)
}
