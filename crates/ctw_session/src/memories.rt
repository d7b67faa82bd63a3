//! The moves of bytes of memories.
ghost use Rattle.std.specs.Prelude.{◌≡◌, ◌<◌, ◌+◌, ◌^◌, MatchResult, IfOk};
ghost use Rattle.ctw_script.specs.declared.moves.Move.TheVariants.{Poke, Peek, Seal, Reveal};
ghost use Rattle.ctw_semantics.specs.Stores.{Memory};
ghost use Rattle.ctw_semantics.specs.Sound.{shape_of};
ghost use Rattle.ctw_link.specs.Sets.{set_of};
ghost use Rattle.ctw_moves.specs.States.{State, answered};
ghost use Rattle.ctw_moves.specs.Moves.{play};
ghost use Rattle.ctw_session.specs.Room.{IsStoreOf, HasRoom, Places};

use crate::bytes::{read_bytes, write_bytes};
use crate::exports::{ExportedMemory, exported_memory};
use crate::vault::Vault;
use ctw_link::LinkedSet;
use ctw_ops::{Label, Octets};
use ctw_script::{Refusal, Reply};
use ctw_store::Store;
use std::alloc::{AllocError, Global};

/// The exported memory of a move, which has so many bytes from a place on. Else why the move is refused.
fn memory_with_room(
    set: &LinkedSet,
    store: &Store,
    part: &str,
    memory: &str,
    at: u32,
    count: u64,
) -> Result<ExportedMemory, Refusal>
    requires store { IsStoreOf set.now store.now.storage }
    requires small { count < 2 ^ 63 }
    ensures room { IfOk result (λ found. (m : Memory) × HasRoom store.now.storage found (at + count) m) }
    ensures places { (s : State) → s.storage ≡ store.now.storage
        → Places (set_of set.now) s part.now memory.now at count result }
{
    let Some(found) = exported_memory(set, part, memory) else {
        return Err(Refusal::NoMemoryExport);
    };
    let length = store.size(found.number) as u64 * 65_536;
    if at as u64 + count > length {
        return Err(Refusal::Bounds);
    }
    Ok(found)
}

/// Writes bytes into an exported memory. Want of memory changes nothing.
pub fn poke(
    set: &LinkedSet,
    store: &mut Store,
    part: &str,
    memory: &str,
    at: u32,
    bytes: &[u8],
) -> Result<Reply, AllocError>
    requires { IsStoreOf set.now store.old.storage }
    ensures plays { (s : State) → s.storage ≡ store.old.storage → MatchResult result
        (λ r. play (set_of set.now) s (Poke part.now memory.now at bytes.now)
        ≡ answered r (record s { storage = store.new.storage }))
        (λ _. store.new.storage ≡ store.old.storage) }
    ensures shape { shape_of store.new.storage ≡ shape_of store.old.storage }
{
    let count = bytes.len() as u64;
    let found = match memory_with_room(set, store, part, memory, at, count) {
        Ok(found) => found,
        Err(refusal) => return Ok(Reply::Refused(refusal)),
    };
    store.make_ready(found.number, at as u64, count as u32)?;
    write_bytes(store, found.number, at, bytes);
    Ok(Reply::Wrote)
}

/// Shows bytes of an exported public memory.
pub fn peek(
    alloc: Global,
    set: &LinkedSet,
    store: &Store,
    part: &str,
    memory: &str,
    at: u32,
    count: u32,
) -> Result<Reply, AllocError>
    requires { IsStoreOf set.now store.now.storage }
    ensures { (s : State) → s.storage ≡ store.now.storage
        → IfOk result (λ r. play (set_of set.now) s (Peek part.now memory.now at count) ≡ answered r s) }
{
    let found = match memory_with_room(set, store, part, memory, at, count as u64) {
        Ok(found) => found,
        Err(refusal) => return Ok(Reply::Refused(refusal)),
    };
    match found.label {
        Label::Secret => Ok(Reply::Refused(Refusal::WrongLabel)),
        Label::Public => {
            let mut bytes = Vec::new(alloc);
            read_bytes(store, found.number, at, count, &mut bytes)?;
            Ok(Reply::Bytes(Octets::new(bytes)))
        }
    }
}

/// Writes the next bytes of the vault into an exported secret memory. Want of memory changes nothing.
pub fn seal(
    set: &LinkedSet,
    store: &mut Store,
    vault: &mut Vault,
    part: &str,
    memory: &str,
    at: u32,
    count: u32,
) -> Result<Reply, AllocError>
    requires { IsStoreOf set.now store.old.storage }
    ensures plays { (s : State) → s.storage ≡ store.old.storage → s.vault ≡ vault.old → MatchResult result
        (λ r. play (set_of set.now) s (Seal part.now memory.now at count)
        ≡ answered r (record s { storage = store.new.storage; vault = vault.new }))
        (λ _. (store.new.storage ≡ store.old.storage) × (vault.new ≡ vault.old)) }
    ensures shape { shape_of store.new.storage ≡ shape_of store.old.storage }
{
    let found = match memory_with_room(set, store, part, memory, at, count as u64) {
        Ok(found) => found,
        Err(refusal) => return Ok(Reply::Refused(refusal)),
    };
    match found.label {
        Label::Public => Ok(Reply::Refused(Refusal::WrongLabel)),
        Label::Secret => {
            if vault.rest().len() < count as usize {
                return Ok(Reply::Refused(Refusal::VaultShort));
            }
            store.make_ready(found.number, at as u64, count)?;
            write_bytes(store, found.number, at, &vault.rest()[..count as usize]);
            vault.skip(count as usize);
            Ok(Reply::Sealed)
        }
    }
}

/// How many bytes are sealed at most.
const MOST_SEALED: usize = 16_777_216;

/// Appends bytes of an exported secret memory to the sealed bytes. Want of memory changes nothing.
pub fn reveal(
    set: &LinkedSet,
    store: &Store,
    sealed: &mut Vec<u8>,
    part: &str,
    memory: &str,
    at: u32,
    count: u32,
) -> Result<Reply, AllocError>
    requires { IsStoreOf set.now store.now.storage }
    ensures { (s : State) → s.storage ≡ store.now.storage → s.sealed ≡ sealed.old.items → MatchResult result
        (λ r. play (set_of set.now) s (Reveal part.now memory.now at count)
        ≡ answered r (record s { sealed = sealed.new.items }))
        (λ _. sealed.new.items ≡ sealed.old.items) }
{
    let found = match memory_with_room(set, store, part, memory, at, count as u64) {
        Ok(found) => found,
        Err(refusal) => return Ok(Reply::Refused(refusal)),
    };
    match found.label {
        Label::Public => Ok(Reply::Refused(Refusal::WrongLabel)),
        Label::Secret => {
            if sealed.len() + count as usize > MOST_SEALED {
                return Ok(Reply::Refused(Refusal::SealedFull));
            }
            read_bytes(store, found.number, at, count, sealed)?;
            Ok(Reply::Revealed { count })
        }
    }
}
