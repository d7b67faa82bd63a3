//! Memories and globals.
ghost use Rattle.std.specs.Prelude.{◌≡◌, ◌≤◌, ◌<◌, ◌+◌, ◌*◌, ◌^◌, true, Bool, ℕ, List, length, Some, Ok, IfErr, IfOk, MatchResult, slice_get, if◌then◌else◌};
ghost use Rattle.ctw_ops.specs.declared.types.Label.{Label};
ghost use Rattle.ctw_ops.specs.declared.types.Width.TheVariants as Widths;
ghost use Rattle.ctw_ops.specs.Types.{bit_width};
ghost use Rattle.ctw_ops.specs.Forms.{is_load, is_store};
ghost use Rattle.ctw_num.specs.Integers.{extend_s};
ghost use Rattle.ctw_flat.specs.declared.instr.Instr.TheVariants as instr;
ghost use Rattle.ctw_semantics.specs.Stores.{Memory};
ghost use Rattle.ctw_store.specs.Made.{KeepsMade};
ghost use Rattle.ctw_step.specs.Shown.{shown};
ghost use Rattle.ctw_step.specs.Told.{Does, Grew, HasBytes, HasGlobal, HasMemory, Runs, Settles};

use crate::running::{Running, Stepped};
use crate::words::{push, second_small, set_top, shrink, top, top_small};
use ctw_ops::Width;
use ctw_script::{Event, TrapCode};
use ctw_store::{Store, StoreFault};
use std::alloc::AllocError;

fn sign_8_32(n: u8) -> u64
    ensures { result ≡ extend_s 8 32 n }
{
    u64::from(i32::from(n.cast_signed()).cast_unsigned())
}

fn sign_16_32(n: u16) -> u64
    ensures { result ≡ extend_s 16 32 n }
{
    u64::from(i32::from(n.cast_signed()).cast_unsigned())
}

fn sign_8_64(n: u8) -> u64
    ensures { result ≡ extend_s 8 64 n }
{
    i64::from(n.cast_signed()).cast_unsigned()
}

fn sign_16_64(n: u16) -> u64
    ensures { result ≡ extend_s 16 64 n }
{
    i64::from(n.cast_signed()).cast_unsigned()
}

fn sign_32_64(n: u32) -> u64
    ensures { result ≡ extend_s 32 64 n }
{
    i64::from(n.cast_signed()).cast_unsigned()
}

/// A number of so many bytes in 32 bits, with its sign carried on.
fn signed_32(bytes: u8, n: u64) -> u64
    requires form { is_load Widths.W32 bytes true ≡ true }
    requires below { n < 2 ^ (8 * bytes) }
    ensures { result ≡ extend_s (8 * bytes) 32 n }
{
    match bytes {
        1 => sign_8_32(n as u8),
        2 => sign_16_32(n as u16),
        _ => unreachable!(),
    }
}

/// A number of so many bytes in 64 bits, with its sign carried on.
fn signed_64(bytes: u8, n: u64) -> u64
    requires form { is_load Widths.W64 bytes true ≡ true }
    requires below { n < 2 ^ (8 * bytes) }
    ensures { result ≡ extend_s (8 * bytes) 64 n }
{
    match bytes {
        1 => sign_8_64(n as u8),
        2 => sign_16_64(n as u16),
        4 => sign_32_64(n as u32),
        _ => unreachable!(),
    }
}

/// What a load gives of the number that its bytes stand for.
fn extended(width: Width, bytes: u8, signed: bool, n: u64) -> u64
    requires form { is_load width bytes signed ≡ true }
    requires below { n < 2 ^ (8 * bytes) }
    ensures { result ≡ (if signed then extend_s (8 * bytes) (bit_width width) n else n) }
{
    if !signed {
        return n;
    }
    match width {
        Width::W32 => signed_32(bytes, n),
        Width::W64 => signed_64(bytes, n),
    }
}

/// A load.
pub fn load(
    store: &Store,
    act: &mut Running,
    mem: u32,
    width: Width,
    bytes: u8,
    signed: bool,
    offset: u32,
    next: usize,
) -> Stepped
    requires form { is_load width bytes signed ≡ true }
    requires small { HasBytes store.now.storage mem }
    requires runs { (l : Label) × (align : ℕ) × (code : List ℕ)
        × Runs (HasMemory mem) code (shown act.old)
        (instr.Load width l bytes signed align offset) next store.now.storage }
    ensures { (l : Label) (align : ℕ) (code : List ℕ)
        → Does (HasMemory mem) code (shown act.old)
        (instr.Load width l bytes signed align offset) next store.now.storage (Ok result)
        (shown act.new) store.now.storage }
{
    let at = top_small(act) as u64 + offset as u64;
    let event = Some(Event::Load { mem, at, bytes });
    match store.load(mem, at, bytes) {
        Ok(number) => {
            set_top(act, extended(width, bytes, signed, number), next);
            Stepped::Went { event }
        }
        Err(_) => Stepped::Trapped {
            code: TrapCode::MemoryBounds,
            event,
        },
    }
}

/// A store. Its error is want of memory.
pub fn store_number(
    store: &mut Store,
    act: &mut Running,
    mem: u32,
    width: Width,
    bytes: u8,
    offset: u32,
    next: usize,
) -> Result<Stepped, AllocError>
    requires form { is_store width bytes ≡ true }
    requires runs { (l : Label) × (signed : Bool) × (align : ℕ) × (code : List ℕ)
        × Runs (HasMemory mem) code (shown act.old)
        (instr.Store width l bytes signed align offset) next store.old.storage }
    ensures does { (l : Label) (signed : Bool) (align : ℕ) (code : List ℕ)
        → Does (HasMemory mem) code (shown act.old)
        (instr.Store width l bytes signed align offset) next store.old.storage result (shown act.new)
        store.new.storage }
    ensures settles { IfOk result (Settles store.old.storage (shown act.old) store.new.storage (shown act.new)) }
    ensures kept { IfErr result (λ _. (shown act.new ≡ shown act.old) × (store.new.storage ≡ store.old.storage)) }
    ensures made { KeepsMade store.old.made store.new.made }
{
    let number = top(act);
    let at = second_small(act) as u64 + offset as u64;
    let event = Some(Event::Store { mem, at, bytes });
    match store.store(mem, at, bytes, number) {
        Ok(()) => {
            shrink(act, 2, next);
            Ok(Stepped::Went { event })
        }
        Err(StoreFault::OutOfBounds) => Ok(Stepped::Trapped {
            code: TrapCode::MemoryBounds,
            event,
        }),
        Err(StoreFault::NoMemory) => Err(AllocError),
    }
}

/// `memory.size`
pub fn memory_size(
    store: &Store,
    act: &mut Running,
    mem: u32,
    next: usize,
) -> Result<Stepped, AllocError>
    requires { (code : List ℕ) × Runs (HasMemory mem) code (shown act.old) instr.MemorySize next store.now.storage }
    ensures does { (code : List ℕ)
        → Does (HasMemory mem) code (shown act.old) instr.MemorySize next store.now.storage result
        (shown act.new) store.now.storage }
    ensures kept { IfErr result (λ _. shown act.new ≡ shown act.old) }
{
    push(act, store.size(mem) as u64, next)?;
    Ok(Stepped::Went { event: None })
}

/// The number that growth gives: the size before, or 2^32 - 1 where the memory can't grow.
fn grown_by(store: &mut Store, mem: u32, pages: u32) -> Result<u64, AllocError>
    requires { mem < length store.old.storage.memories }
    ensures grew { MatchResult result (λ n. (m : Memory) → slice_get store.old.storage.memories mem ≡ Some m
        → Grew store.old.storage mem m pages n store.new.storage)
        (λ _. (m : Memory) → slice_get store.old.storage.memories mem ≡ Some m
        → store.new.storage ≡ store.old.storage) }
    ensures made { KeepsMade store.old.made store.new.made }
{
    match store.grow(mem, pages)? {
        Some(before) => Ok(before as u64),
        None => Ok(4_294_967_295),
    }
}

/// `memory.grow`. Its error is want of memory.
pub fn memory_grow(
    store: &mut Store,
    act: &mut Running,
    mem: u32,
    next: usize,
) -> Result<Stepped, AllocError>
    requires { (code : List ℕ) × Runs (HasMemory mem) code (shown act.old) instr.MemoryGrow next store.old.storage }
    ensures does { (code : List ℕ)
        → Does (HasMemory mem) code (shown act.old) instr.MemoryGrow next store.old.storage result
        (shown act.new) store.new.storage }
    ensures settles { IfOk result (Settles store.old.storage (shown act.old) store.new.storage (shown act.new)) }
    ensures kept { IfErr result (λ _. (shown act.new ≡ shown act.old) × (store.new.storage ≡ store.old.storage)) }
    ensures made { KeepsMade store.old.made store.new.made }
{
    let pages = top_small(act);
    let number = grown_by(store, mem, pages)?;
    set_top(act, number, next);
    Ok(Stepped::Went {
        event: Some(Event::Grow { pages }),
    })
}

/// `global.get`
pub fn global_get(
    store: &Store,
    act: &mut Running,
    global: u32,
    next: usize,
) -> Result<Stepped, AllocError>
    requires { (index : ℕ) × (code : List ℕ)
        × Runs (HasGlobal index global) code (shown act.old) (instr.GlobalGet index) next store.now.storage }
    ensures does { (index : ℕ) (code : List ℕ)
        → Does (HasGlobal index global) code (shown act.old)
        (instr.GlobalGet index) next store.now.storage result (shown act.new) store.now.storage }
    ensures kept { IfErr result (λ _. shown act.new ≡ shown act.old) }
{
    push(act, store.global(global), next)?;
    Ok(Stepped::Went { event: None })
}

/// `global.set`
pub fn global_set(store: &mut Store, act: &mut Running, global: u32, next: usize) -> Stepped
    requires { (index : ℕ) × (code : List ℕ)
        × Runs (HasGlobal index global) code (shown act.old) (instr.GlobalSet index) next store.old.storage }
    ensures does { (index : ℕ) (code : List ℕ)
        → Does (HasGlobal index global) code (shown act.old) (instr.GlobalSet index) next store.old.storage (Ok result)
        (shown act.new) store.new.storage }
    ensures settles { Settles store.old.storage (shown act.old) store.new.storage (shown act.new) result }
    ensures made { KeepsMade store.old.made store.new.made }
{
    store.set_global(global, top(act));
    shrink(act, 1, next);
    Stepped::Went { event: None }
}
