//! Sessions as callers see them.
ghost use Rattle.std.specs.Prelude.{◌≡◌, ℕ, List, [], length, MatchResult, IfOk};
ghost use Rattle.ctw_link.specs.Sets.{set_of};
ghost use Rattle.ctw_moves.specs.States.{State};
ghost use Rattle.ctw_moves.specs.Moves.{play};
ghost use Rattle.ctw_moves.specs.SeenStates.{Agree};
ghost use Rattle.ctw_moves.specs.LaunchedStates.{Faulty, launch as launches};
ghost use Rattle.ctw_launch.specs.Launched.{Fails, launched};
ghost use Rattle.ctw_launch.specs.ErasedSets.{erase_set};
ghost use Rattle.ctw_session.specs.LiveStates.{StandsFor, Acts, Lacks};
ghost use Rattle.ctw_session.specs.Beside.{ActsBeside, ActsErased};
ghost use Rattle.ctw_session.specs.Launches.{Denies, IsLaunched, IsLaunchedBeside, IsLaunchedErased};

use crate::allocation::make_store;
use crate::fault::{ActNoMemory, LaunchFault};
use crate::live::Live;
use crate::segments::{check_segments, write_segments};
use crate::starts::start_parts;
use ctw_link::LinkedSet;
use ctw_script::{Event, Move, Reply};
use std::alloc::Global;
use std::marker::Model;

/// A launched set with its store, 64 slots with perhaps a running call each, a vault and sealed bytes.
///
/// A session always stands for a sound state of the definitions: its store, its calls, what is left of its vault, and
/// its sealed bytes.
#[derive(Drop)]
pub struct Session<'a> {
    live: Live<'a>,
}

impl<'a> Model for Session<'a> {
    ghost use Rattle.ctw_session.specs.declared.live.Live.{Live};

    ghost Value = { Live };

    ghost view = { λ s. s.live };

    ghost use Rattle.ctw_moves.specs.States.{State};
    ghost use Rattle.ctw_session.specs.LiveStates.{StandsFor};

    ghost invariant = { λ s. (state : State) × StandsFor s.live state };
}

impl<'a> Session<'a> {
    /// Plays one move: its reply, with its events appended in order.
    ///
    /// A move is refused for the first refusal of its list that applies, and a refused move changes nothing. The error
    /// is want of memory: a turn has then taken just the steps that it tells, with their events, and every other move
    /// has changed nothing.
    pub fn act(&mut self, mv: &Move, events: &mut Vec<Event>) -> Result<Reply, ActNoMemory>
        // The session stands for a sound state before and after.
        ensures stood { (s : State) × StandsFor self.old s }
        ensures stands { (s : State) × StandsFor self.new s }
        // The set stays.
        ensures set { self.new.set ≡ self.old.set }
        // Reply, events and new state are those of the move, in each state that the session stands for.
        ensures plays { (s : State) → StandsFor self.old s → MatchResult result
            (λ r. Acts (play (set_of self.old.set) s mv.now) r self.new events.old.items events.new.items)
            (λ e. Lacks (set_of self.old.set) s mv.now e.steps self.new events.old.items events.new.items) }
        // The move of each state that agrees, and releases the same, has the same reply and events, and leaves states
        // that agree.
        ensures isolated { (s t : State) → StandsFor self.old s → Agree s t
            → (play (set_of self.old.set) s mv.now).releases ≡ (play (set_of self.old.set) t mv.now).releases
            → IfOk result (λ r. ActsBeside (play (set_of self.old.set) t mv.now) r self.new events.old.items events.new.items) }
        // The erased state does the same for the erased move, unless that is left out.
        ensures erased { (s : State) → StandsFor self.old s
            → IfOk result (λ r. ActsErased (set_of self.old.set) s mv.now r self.new events.old.items events.new.items) }
    {
        self.live.act(mv, events)
    }

    /// The bytes that are sealed so far.
    pub fn sealed(&self) -> &[u8]
        ensures { result.now ≡ self.now.sealed.items }
    {
        self.live.sealed.as_slice()
    }
}

/// Launches a set with a vault: all memories, tables and globals are made, all segments are checked, all are written,
/// and then the start functions run, in the order of the parts, each for at most 1,000,000 steps. The session has 64
/// free slots, the whole vault, and no sealed bytes.
///
/// `SegmentOutside` tells the first segment that doesn't lie inside its table or memory, part by part and elements
/// before data; no segment is then written. `StartTrapped` and `StartUnfinished` tell the first part whose start function
/// traps or hasn't ended; those of the parts behind it don't run. `NoMemory` is want of memory, and can come at any set.
/// An error leaves nothing of the set, its store and the vault.
pub fn launch<'a>(
    alloc: Global,
    set: LinkedSet<'a>,
    vault: Vec<u8>,
) -> Result<Session<'a>, LaunchFault>
    // The session stands for the launched set's first state with this vault, or an error tells why it isn't launched.
    ensures launched { MatchResult result (IsLaunched set.entry vault.items)
        (Denies set.entry (λ f. launched (set_of set.entry) ≡ Fails f)) }
    // With every vault of this length the set is launched into a state that agrees, or isn't for the same fault.
    ensures isolated { (other : List ℕ) → length other ≡ length vault.items → MatchResult result
        (IsLaunchedBeside set.entry vault.items other)
        (Denies set.entry (λ f. launches (set_of set.entry) other ≡ Faulty f)) }
    // The erased set with an empty vault is launched into the erased state, or isn't for the same fault.
    ensures erased { MatchResult result (IsLaunchedErased set.entry vault.items)
        (Denies set.entry (λ f. launches (erase_set (set_of set.entry)) [] ≡ Faulty f)) }
{
    let mut store = make_store(alloc, &set)?;
    check_segments(&set, &store)?;
    write_segments(&set, &mut store)?;
    start_parts(alloc, &set, &mut store)?;
    let live = Live::first(alloc, set, store, vault)?;
    Ok(Session { live })
}
