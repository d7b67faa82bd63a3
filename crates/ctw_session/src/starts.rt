//! The start functions of a set that is launched.
ghost use Rattle.std.specs.Prelude.{◌≡◌, ◌<◌, length, slice_get, Some};
ghost use Rattle.ctw_ops.specs.Limits.{most_steps as most};
ghost use Rattle.ctw_link.specs.Sets.{set_of};
ghost use Rattle.ctw_link.specs.Numbers.{LinkedModule, linked};
ghost use Rattle.ctw_link.specs.SetInstances.{set_instances};
ghost use Rattle.ctw_launch.specs.Launched.{started};
ghost use Rattle.ctw_semantics.specs.Sound.{Shape};
ghost use Rattle.ctw_session.specs.Launches.{IsStoreIn, StartsPart, Starts};

use crate::fault::LaunchFault;
use ctw_link::LinkedSet;
use ctw_step::{Turned, enter, turn};
use ctw_store::Store;
use std::alloc::Global;

/// How many steps a start function may take.
#[tactic(auto, unfolding(ctw_ops::specs::Limits::most_steps))]
fn most_steps() -> u32
    ensures { result ≡ most }
{
    1_000_000
}

/// The start function of a part, if it has one, runs to its end.
fn start_part(
    alloc: Global,
    set: &LinkedSet,
    store: &mut Store,
    part: u32,
    steps: u32,
) -> Result<(), LaunchFault>
    requires part { part < length set.now }
    requires store { (shape : Shape) × IsStoreIn set.now shape store.old.storage }
    ensures { (shape : Shape) (p : LinkedModule) → IsStoreIn set.now shape store.old.storage
        → slice_get (linked (set_of set.now)) part ≡ Some p
        → StartsPart set.now shape part steps p store.old.storage result store.new.storage }
{
    let Some(index) = set.parts()[part as usize].module.start() else {
        return Ok(());
    };
    let func = set.func(part, index);
    let Ok(mut call) = enter(alloc, set, func, &[]) else {
        return Err(LaunchFault::NoMemory);
    };
    let mut events = Vec::new(alloc);
    match turn(set, store, &mut call, steps, &mut events) {
        Ok(Turned::More) => Err(LaunchFault::StartUnfinished { part }),
        Ok(Turned::Ended { .. }) => Ok(()),
        Ok(Turned::Trapped { code, .. }) => Err(LaunchFault::StartTrapped { part, code }),
        Err(_) => Err(LaunchFault::NoMemory),
    }
}

/// The start functions of the parts run in their order, each for at most 1,000,000 steps.
pub fn start_parts(alloc: Global, set: &LinkedSet, store: &mut Store) -> Result<(), LaunchFault>
    requires { (shape : Shape) × IsStoreIn set.now shape store.old.storage }
    ensures { (shape : Shape) → IsStoreIn set.now shape store.old.storage
        → Starts set.now shape (started most (set_instances (set_of set.now)) (linked (set_of set.now)) store.old.storage) result store.new.storage }
{
    let steps = most_steps();
    'parts: for part in 0..set.parts().len() as u32 {
        match start_part(alloc, set, store, part, steps) {
            Ok(()) => {}
            Err(fault) => return Err(fault),
        }
    }
    Ok(())
}
