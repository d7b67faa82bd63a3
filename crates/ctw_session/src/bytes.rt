//! Bytes of memories.
ghost use Rattle.std.specs.Prelude.{◌≡◌, ◌<◌, ◌≤◌, ◌+◌, ◌++◌, length, slice_get, Some, All, MatchResult};
ghost use Rattle.ctw_semantics.specs.Stores.{Memory, with_bytes, written_at};
ghost use Rattle.ctw_store.specs.Made.{AreMade};
ghost use Rattle.ctw_moves.specs.States.{bytes_at};

use ctw_store::{OutOfBounds, Store, StoreFault};
use std::alloc::AllocError;

/// Appends so many bytes of a memory from a place on, which don't reach past its end. Want of memory appends none.
pub fn read_bytes(
    store: &Store,
    mem: u32,
    at: u32,
    count: u32,
    out: &mut Vec<u8>,
) -> Result<(), AllocError>
    requires there { mem < length store.now.storage.memories }
    requires inside { (m : Memory) → slice_get store.now.storage.memories mem ≡ Some m → at + count ≤ length m.bytes }
    requires bytes { (m : Memory) → slice_get store.now.storage.memories mem ≡ Some m → All (λ byte. byte < 256) m.bytes }
    ensures { MatchResult result
        (λ _. (m : Memory) → slice_get store.now.storage.memories mem ≡ Some m
        → out.new.items ≡ out.old.items ++ bytes_at m at count)
        (λ _. out.new.items ≡ out.old.items) }
{
    out.reserve(count as usize)?;
    'bytes: for i in 0..count {
        match store.load(mem, at as u64 + i as u64, 1) {
            Ok(byte) => out.push_reserved(byte as u8),
            Err(OutOfBounds) => unreachable!(),
        }
    }
    Ok(())
}

/// Writes bytes into a memory from a place on. They don't reach past its end, and their pages are made.
pub fn write_bytes(store: &mut Store, mem: u32, at: u32, bytes: &[u8])
    requires there { mem < length store.old.storage.memories }
    requires inside { (m : Memory) → slice_get store.old.storage.memories mem ≡ Some m → at + length bytes.now ≤ length m.bytes }
    requires made { AreMade store.old.made mem at (length bytes.now) }
    ensures { (m : Memory) → slice_get store.old.storage.memories mem ≡ Some m
        → store.new.storage ≡ with_bytes store.old.storage mem m (written_at at bytes.now m.bytes) }
{
    'bytes: for i in 0..bytes.len() {
        match store.store(mem, at as u64 + i as u64, 1, bytes[i] as u64) {
            Ok(()) => {}
            Err(StoreFault::OutOfBounds) => unreachable!(),
            Err(StoreFault::NoMemory) => unreachable!(),
        }
    }
}
