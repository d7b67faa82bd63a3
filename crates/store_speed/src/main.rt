//! Stores and loads of 4 bytes over a memory of 4,096 pages, for bench/store to measure. The two words are the number
//! of passes that store and the number of passes that load.
#![tactic(auto)]

ghost use Rattle.std.specs.Prelude.{◌≡◌, ◌≤◌, ◌<◌, length, IfOk};

use anyhow::bail;
use ctw_ops::{Label, Limits, MemType};
use ctw_store::{Store, StoreFault};
use std::alloc::{AllocError, Global};
use std::env;

/// The numbers of 4 bytes in 4,096 pages of 65,536 bytes.
const NUMBERS: u64 = 67_108_864;

/// A store with one memory of so many pages.
#[tactic(auto, unfolding(ctw_ops::specs::Limits::most_set_pages))]
fn store_of(alloc: Global, pages: u32) -> Result<Store, AllocError>
    requires { pages ≤ 4096 }
    ensures { IfOk result (λ store. length store.storage.memories ≡ 1) }
{
    let limits = Limits {
        min: pages,
        max: None,
    };
    let label = Label::Public;
    let mut store = Store::new(alloc);
    store.add_memory(MemType { label, limits })?;
    Ok(store)
}

/// Stores a number at each place of the first memory.
fn store_all(store: &mut Store, seed: u64) -> Result<(), StoreFault>
    requires { 0 < length store.old.storage.memories }
    ensures { 0 < length store.new.storage.memories }
{
    'numbers: for k in 0..NUMBERS {
        store.store(0, k * 4, 4, seed ^ k)?;
    }
    Ok(())
}

/// Loads the number at each place of the first memory, and mixes all into a seed.
fn load_all(store: &Store, seed: u64) -> u64
    requires { 0 < length store.now.storage.memories }
{
    let mut sum = seed;
    for k in 0..NUMBERS {
        if let Ok(number) = store.load(0, k * 4, 4) {
            sum = sum.rotate_left(1).wrapping_add(number);
        }
    }
    sum
}

fn main(rt: HostRuntime) -> anyhow::Result<()> {
    let mut words = Vec::new(rt.alloc());
    for word in env::args(&rt)?.skip(1) {
        words.push(word)?;
    }
    let [stores, loads] = words.as_slice() else {
        bail!("usage: store_speed STORES LOADS");
    };
    let stores = stores.parse::<u32>()?;
    let loads = loads.parse::<u32>()?;
    let mut store = store_of(rt.alloc(), 4_096)?;
    'stores: for pass in 0..stores {
        store_all(&mut store, pass as u64)?;
    }
    let mut sum = 0u64;
    'loads: for _ in 0..loads {
        sum = load_all(&store, sum);
    }
    println!(rt; "{sum}")?;
    Ok(())
}
