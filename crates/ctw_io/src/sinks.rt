// Sinks that stand in memory, for tests and proofs.
ghost use Rattle.std.specs.Prelude.{◌≡◌, ◌≤◌, ◌<◌, ◌↔◌, ◌+◌, ◌++◌, [], Some, IfOk, IfErr, OnErr, IsErrOf, Contains, length, take, min};
ghost use Rattle.ctw_io.specs.declared.Fault.TheVariants.{Failed, NoMemory};
ghost use Rattle.ctw_io.specs.Faults.{HasCause, next_count, faults_after};

use super::{Fault, Sink};
use crate::plan::Plan;
use std::alloc::Global;
use std::marker::Model;

/// A sink in memory whose calls fail where they are told to.
///
/// Contracts see the bytes that it has taken, the greatest number of bytes that one call takes, the numbers of the
/// calls that are to fail, how many calls there were, and how many of them failed.
#[derive(Drop)]
pub struct MemSink {
    taken: Vec<u8>,
    most: usize,
    plan: Plan,
}

impl Model for MemSink {
    ghost use Rattle.std.specs.Prelude.{◌≤◌};
    ghost use Rattle.ctw_io.specs.Held.{MemBytes};

    ghost Value = { MemBytes };

    ghost view = { λ sink.
        record {
          taken = sink.taken.items;
          most = sink.most;
          fails = sink.plan.fails.items;
          calls = sink.plan.calls;
          faults = sink.plan.faults;
        } };

    ghost invariant = { λ sink. 1 ≤ sink.most };
}

impl MemSink {
    /// A sink that takes at most so many bytes a call, and whose calls of these numbers fail, counted from 1. It has
    /// taken nothing yet, and takes no memory until it does.
    pub fn new(alloc: Global, most: usize, fails: Vec<u64>) -> MemSink
        requires { 1 ≤ most }
        ensures { result ≡ record { taken = []; most = most; fails = fails.items; calls = 0; faults = 0 } }
    {
        let plan = Plan {
            fails,
            calls: 0,
            faults: 0,
        };
        MemSink {
            taken: Vec::new(alloc),
            most,
            plan,
        }
    }

    /// The bytes that were taken so far.
    pub fn taken(&self) -> &[u8]
        ensures { result.now ≡ self.now.taken }
    {
        &self.taken
    }
}

impl Sink for MemSink {
    ghost taken = { λ sink. Some sink.taken };

    ghost faults = { λ sink. sink.faults };

    fn write(&mut self, piece: &[u8]) -> Result<usize, Fault>
        ensures count { IfOk result (λ count. count ≡ min self.old.most (length piece.now)) }
        ensures some { 0 < length piece.now → IfOk result (λ count. 0 < count) }
        ensures taken { IfOk result (λ count. self.new.taken ≡ self.old.taken ++ take count piece.now) }
        ensures kept { OnErr result (self.new.taken ≡ self.old.taken) }
        ensures failed { IsErrOf result Failed ↔ Contains self.old.fails (self.old.calls + 1) }
        ensures calls { self.new.calls ≡ next_count self.old.calls }
        ensures faults { self.new.faults ≡ faults_after self.old.faults result }
        ensures cause { HasCause self.old.faults self.new.faults result }
        ensures unchanged { (self.new.most ≡ self.old.most) × (self.new.fails ≡ self.old.fails) }
    {
        if self.plan.count_call() {
            return Err(Fault::Failed);
        }
        take_first(&mut self.taken, self.most, piece)
    }
}

/// A sink in memory that doesn't fail: `NoMemory` is its only fault.
///
/// Contracts see the bytes that it has taken, and the greatest number of bytes that one call takes.
#[derive(Drop)]
pub struct SureSink {
    taken: Vec<u8>,
    most: usize,
}

impl Model for SureSink {
    ghost use Rattle.std.specs.Prelude.{◌≤◌};
    ghost use Rattle.ctw_io.specs.Held.{SureBytes};

    ghost Value = { SureBytes };

    ghost view = { λ sink. record { taken = sink.taken.items; most = sink.most } };

    ghost invariant = { λ sink. 1 ≤ sink.most };
}

impl SureSink {
    /// A sink that takes at most so many bytes a call. It has taken nothing yet, and takes no memory until it does.
    pub fn new(alloc: Global, most: usize) -> SureSink
        requires { 1 ≤ most }
        ensures { result ≡ record { taken = []; most = most } }
    {
        SureSink {
            taken: Vec::new(alloc),
            most,
        }
    }

    /// The bytes that were taken so far.
    pub fn taken(&self) -> &[u8]
        ensures { result.now ≡ self.now.taken }
    {
        &self.taken
    }
}

impl Sink for SureSink {
    ghost taken = { λ sink. Some sink.taken };

    ghost faults = { λ sink. 0 };

    fn write(&mut self, piece: &[u8]) -> Result<usize, Fault>
        ensures count { IfOk result (λ count. count ≡ min self.old.most (length piece.now)) }
        ensures some { 0 < length piece.now → IfOk result (λ count. 0 < count) }
        ensures taken { IfOk result (λ count. self.new.taken ≡ self.old.taken ++ take count piece.now) }
        ensures kept { OnErr result (self.new.taken ≡ self.old.taken) }
        ensures memory { IfErr result (λ fault. fault ≡ NoMemory) }
        ensures unchanged { self.new.most ≡ self.old.most }
    {
        take_first(&mut self.taken, self.most, piece)
    }
}

/// Takes the first bytes of the piece, at most so many, and tells how many. `NoMemory` is the only error.
fn take_first(taken: &mut Vec<u8>, most: usize, piece: &[u8]) -> Result<usize, Fault>
    ensures count { IfOk result (λ count. count ≡ min most (length piece.now)) }
    ensures taken { IfOk result (λ count. taken.new.items ≡ taken.old.items ++ take count piece.now) }
    ensures kept { OnErr result (taken.new.items ≡ taken.old.items) }
    ensures memory { IfErr result (λ fault. fault ≡ NoMemory) }
{
    let count = most.min(piece.len());
    match taken.extend_from_slice(&piece[..count]) {
        Ok(()) => Ok(count),
        Err(_) => Err(Fault::NoMemory),
    }
}
