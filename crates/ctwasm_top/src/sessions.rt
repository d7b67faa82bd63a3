//! Sessions of sets that are linked and launched, and the moves that are made of them.
ghost use Rattle.std.specs.Prelude.{◌≡◌, ◌≢◌, ◌≤◌, ◌∷◌, [], ℕ, List, length, Err, IsErrOf, IfErr};
ghost use Rattle.ctw_io.specs.declared.Fault.TheVariants.{Failed};
ghost use Rattle.ctw_io.specs.Faults.{Rose};
ghost use Rattle.ctw_link.specs.declared.set.Part.{Part};
ghost use Rattle.ctw_link.specs.Sets.{set_of};
ghost use Rattle.ctw_launch.specs.Launched.{Fails, launched as is_launched};
ghost use Rattle.ctw_moves.specs.States.{State};
ghost use Rattle.ctw_moves.specs.Runs.{plays};
ghost use Rattle.ctw_moves.specs.LaunchedStates.{launch as launches};
ghost use Rattle.ctw_session.specs.LiveStates.{StandsFor};
ghost use Rattle.ctw_session.specs.Launches.{Denies};
ghost use Rattle.ctw_inputs.specs.declared.said.Stop.TheVariants.{ReadFault};
ghost use Rattle.ctw_inputs.specs.Outcome.{Outcome};
ghost use Rattle.ctw_inputs.specs.Parts.{names, contents, bytes_in, AreNamed};
ghost use Rattle.ctw_inputs.specs.Settling.{IsStop, IsRefusal};
ghost use Rattle.ctwasm_top.specs.Launching.{on_launch};
ghost use Rattle.ctwasm_top.specs.Answer.{launched};
ghost use Rattle.ctwasm_top.specs.Sessions.{Opens, Told};

use crate::lines::{launch_line, move_text};
use ctw_inputs::{LoadedPart, Stop, link_parts, refuse};
use ctw_io::{Fault, Sink, send};
use ctw_link::LinkedSet;
use ctw_ops::Profile;
use ctw_script::{Move, Moves};
use ctw_session::{LaunchFault, Session, launch};
use std::alloc::Global;

/// Why a set of loaded parts isn't launched, as a refusal.
fn refuse_launch(alloc: Global, parts: &[LoadedPart], fault: LaunchFault) -> Stop
    ensures told { (set : List Part) (vault : List ℕ) (go : State → Outcome) → AreNamed (set_of set) parts.now
        → Denies set (λ f. is_launched (set_of set) ≡ Fails f) fault
        → IsStop result (on_launch (launches (set_of set) vault) go) }
    ensures quiet { result ≢ ReadFault }
    ensures refuses { IsRefusal result }
{
    match fault {
        LaunchFault::NoMemory => Stop::NoMemory,
        _ => refuse(launch_line(alloc, parts, fault)),
    }
}

/// Launches a set of loaded parts with a vault, or refuses why it isn't launched.
pub fn launch_set<'b>(
    alloc: Global,
    parts: &[LoadedPart],
    set: LinkedSet<'b>,
    vault: Vec<u8>,
) -> Result<Session<'b>, Stop>
    requires { AreNamed (set_of set) parts.now }
    ensures quiet { result ≢ Err ReadFault }
    ensures refuses { IfErr result IsRefusal }
    ensures told { Opens (λ session. session) result
        (λ go. on_launch (launches (set_of set.entry) vault.items) (go (set_of set.entry))) }
{
    match launch(alloc, set, vault) {
        Ok(session) => Ok(session),
        Err(fault) => Err(refuse_launch(alloc, parts, fault)),
    }
}

/// Reads, checks and links loaded parts under a profile, and launches them with a vault. The first fault is refused.
pub fn open_session<'b>(
    alloc: Global,
    profile: Profile,
    parts: &'b [LoadedPart],
    vault: Vec<u8>,
) -> Result<Session<'b>, Stop>
    requires some { 1 ≤ length parts.now }
    requires few { length parts.now ≤ 64 }
    requires within { bytes_in parts.now ≤ 134217728 }
    ensures quiet { result ≢ Err ReadFault }
    ensures refuses { IfErr result IsRefusal }
    ensures told { Opens (λ session. session) result (launched profile (names parts.now) (contents parts.now) vault.items) }
{
    let set = link_parts(alloc, profile, parts)?;
    launch_set(alloc, parts, set, vault)
}

/// Makes a move of a session, and writes what it tells by one `send`.
///
/// The error is that of writing, or want of memory; a prefix of what the move tells was then taken.
pub fn play_move<K: Sink>(
    alloc: Global,
    session: &mut Session,
    mv: &Move,
    out: &mut K,
) -> Result<(), Fault>
    ensures told { (s : State) → StandsFor session.old s
        → Told (plays (set_of session.old.set) s (mv.now ∷ [])) result session.new (K.taken out.old) (K.taken out.new) }
    ensures set { session.new.set ≡ session.old.set }
    ensures kept { K.faults out.old ≤ K.faults out.new }
    ensures failed { IsErrOf result Failed → Rose (K.faults out.old) (K.faults out.new) }
{
    let mut events = Vec::new(alloc);
    let Ok(reply) = session.act(mv, &mut events) else {
        return Err(Fault::NoMemory);
    };
    let Ok(text) = move_text(alloc, &events, &reply) else {
        return Err(Fault::NoMemory);
    };
    send(out, &text)
}

/// Makes the moves of a script of a session, and writes what each tells before the next is made.
///
/// The error is that of writing, or want of memory; a prefix of what the moves tell was then taken.
pub fn play_script<K: Sink>(
    alloc: Global,
    session: &mut Session,
    moves: &Moves,
    out: &mut K,
) -> Result<(), Fault>
    ensures told { (s : State) → StandsFor session.old s
        → Told (plays (set_of session.old.set) s moves.now) result session.new (K.taken out.old) (K.taken out.new) }
    ensures kept { K.faults out.old ≤ K.faults out.new }
    ensures failed { IsErrOf result Failed → Rose (K.faults out.old) (K.faults out.new) }
{
    'moves: for i in 0..moves.count() {
        match play_move(alloc, session, moves.at(i), out) {
            Ok(()) => {}
            Err(fault) => return Err(fault),
        }
    }
    Ok(())
}

/// Makes two moves of a session, and writes what the first tells before the second is made.
///
/// The error is that of writing, or want of memory; a prefix of what the moves tell was then taken.
pub fn play_two<K: Sink>(
    alloc: Global,
    session: &mut Session,
    first: &Move,
    second: &Move,
    out: &mut K,
) -> Result<(), Fault>
    ensures told { (s : State) → StandsFor session.old s
        → Told (plays (set_of session.old.set) s (first.now ∷ second.now ∷ [])) result session.new (K.taken out.old)
        (K.taken out.new) }
    ensures kept { K.faults out.old ≤ K.faults out.new }
    ensures failed { IsErrOf result Failed → Rose (K.faults out.old) (K.faults out.new) }
{
    match play_move(alloc, session, first, out) {
        Ok(()) => play_move(alloc, session, second, out),
        Err(fault) => Err(fault),
    }
}
