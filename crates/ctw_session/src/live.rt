//! What a session holds, and its moves.
ghost use Rattle.std.specs.Prelude.{◌≡◌, List, Ok, Err, MatchResult, IfOk};
ghost use Rattle.ctw_script.specs.declared.event.Event.{Event as AnEvent};
ghost use Rattle.ctw_script.specs.declared.moves.Move.TheVariants.{Begin as Begins, Turn as Turns, Leave as Leaves, Poke as Pokes, Peek as Peeks, Seal as Seals, Reveal as Reveals};
ghost use Rattle.ctw_link.specs.Sets.{set_of};
ghost use Rattle.ctw_moves.specs.States.{State};
ghost use Rattle.ctw_moves.specs.Moves.{play};
ghost use Rattle.ctw_moves.specs.LaunchedStates.{first_state};
ghost use Rattle.ctw_moves.specs.SoundStates.{SoundState};
ghost use Rattle.ctw_session.specs.LiveStates.{StandsFor, Acts, Lacks};

use crate::arguments::{args_fit, args_take, numbers_of};
use crate::exports::exported_function;
use crate::fault::ActNoMemory;
use crate::memories::{peek, poke, reveal, seal};
use crate::slots::{Slot, free_slots, is_held, put_slot, show, take_slot};
use crate::vault::Vault;
use ctw_link::LinkedSet;
use ctw_script::{Arg, Event, Move, Refusal, Reply};
use ctw_step::{TurnNoMemory, Turned, enter, turn};
use ctw_store::Store;
use std::alloc::{AllocError, Global};

/// A linked set with its store, 64 slots with perhaps a running call each, the vault and the sealed bytes.
#[derive(Drop)]
pub struct Live<'a> {
    /// Where its own lists take room.
    pub alloc: Global,
    /// The set.
    pub set: LinkedSet<'a>,
    /// The set's store.
    pub store: Store,
    /// 64 slots.
    pub slots: Vec<Option<Slot>>,
    /// What is left of the vault.
    pub vault: Vault,
    /// The bytes that are sealed so far.
    pub sealed: Vec<u8>,
}

impl<'a> Live<'a> {
    /// What a session begins with: 64 free slots, a whole vault, and nothing sealed.
    pub fn first(
        alloc: Global,
        set: LinkedSet<'a>,
        store: Store,
        vault: Vec<u8>,
    ) -> Result<Live<'a>, AllocError>
        requires { SoundState (set_of set) (first_state store.storage vault.items) }
        ensures set { IfOk result (λ l. l.set ≡ set.entry) }
        ensures stands { IfOk result (λ l. StandsFor l (first_state store.storage vault.items)) }
    {
        Ok(Live {
            alloc,
            set,
            store,
            slots: free_slots(alloc)?,
            vault: Vault::new(vault),
            sealed: Vec::new(alloc),
        })
    }

    /// A call of an exported function begins in a free slot.
    pub fn begin(
        &mut self,
        slot: u32,
        part: &str,
        export: &str,
        args: &[Arg],
    ) -> Result<Reply, AllocError>
        requires { (s : State) × StandsFor self.old s }
        ensures set { self.new.set ≡ self.old.set }
        ensures plays { (s : State) (events : List AnEvent) → StandsFor self.old s → MatchResult result
            (λ r. Acts (play (set_of self.old.set) s (Begins slot part.now export.now args.now)) r self.new events events)
            (λ _. StandsFor self.new s) }
    {
        let Some(function) = exported_function(&self.set, part, export) else {
            return Ok(Reply::Refused(Refusal::NoExport));
        };
        let ty = function.ty;
        if !args_fit(ty.params, args) {
            return Ok(Reply::Refused(Refusal::BadArgs));
        }
        if is_held(&self.slots, slot as usize) {
            return Ok(Reply::Refused(Refusal::SlotBusy));
        }
        let taken = args_take(ty.params, args);
        if self.vault.rest().len() < taken {
            return Ok(Reply::Refused(Refusal::VaultShort));
        }
        let numbers = numbers_of(self.alloc, ty.params, args, self.vault.rest())?;
        let call = enter(self.alloc, &self.set, function.number, &numbers)?;
        self.vault.skip(taken);
        let begun = Slot {
            call,
            result: ty.result,
        };
        put_slot(&mut self.slots, slot as usize, Some(begun));
        Ok(Reply::Began)
    }

    /// The call in a slot is given up.
    pub fn leave(&mut self, slot: u32) -> Reply
        ensures set { self.new.set ≡ self.old.set }
        ensures plays { (s : State) (events : List AnEvent) → StandsFor self.old s
            → Acts (play (set_of self.old.set) s (Leaves slot)) result self.new events events }
    {
        if !is_held(&self.slots, slot as usize) {
            return Reply::Refused(Refusal::SlotFree);
        }
        put_slot(&mut self.slots, slot as usize, None);
        Reply::Dropped
    }

    /// The call in a slot takes steps.
    pub fn turn_slot(
        &mut self,
        slot: u32,
        steps: u32,
        events: &mut Vec<Event>,
    ) -> Result<Reply, ActNoMemory>
        requires { (s : State) × StandsFor self.old s }
        ensures set { self.new.set ≡ self.old.set }
        ensures plays { (s : State) → StandsFor self.old s → MatchResult result
            (λ r. Acts (play (set_of self.old.set) s (Turns slot steps)) r self.new events.old.items events.new.items)
            (λ e. Lacks (set_of self.old.set) s (Turns slot steps) e.steps self.new events.old.items events.new.items) }
    {
        let index = slot as usize;
        if !is_held(&self.slots, index) {
            return Ok(Reply::Refused(Refusal::SlotFree));
        }
        if steps > 1_000_000 {
            return Ok(Reply::Refused(Refusal::TurnTooLong));
        }
        if self.sealed.reserve(8).is_err() {
            return Err(ActNoMemory { steps: 0 });
        }
        let Some(mut held) = take_slot(&mut self.slots, index) else {
            unreachable!();
        };
        match turn(&self.set, &mut self.store, &mut held.call, steps, events) {
            Ok(Turned::More) => {
                put_slot(&mut self.slots, index, Some(held));
                Ok(Reply::More { steps })
            }
            Ok(Turned::Ended { steps, value }) => {
                let result = show(&mut self.sealed, held.result, value);
                Ok(Reply::Done { steps, result })
            }
            Ok(Turned::Trapped { steps, code }) => Ok(Reply::Trap { steps, code }),
            Err(TurnNoMemory { steps }) => {
                put_slot(&mut self.slots, index, Some(held));
                Err(ActNoMemory { steps })
            }
        }
    }

    /// Bytes are written into an exported memory.
    fn poke(&mut self, part: &str, memory: &str, at: u32, bytes: &[u8]) -> Result<Reply, AllocError>
        requires { (s : State) × StandsFor self.old s }
        ensures set { self.new.set ≡ self.old.set }
        ensures plays { (s : State) (events : List AnEvent) → StandsFor self.old s → MatchResult result
            (λ r. Acts (play (set_of self.old.set) s (Pokes part.now memory.now at bytes.now)) r self.new events events)
            (λ _. StandsFor self.new s) }
    {
        poke(&self.set, &mut self.store, part, memory, at, bytes)
    }

    /// Bytes of an exported public memory are shown.
    fn peek(&mut self, part: &str, memory: &str, at: u32, count: u32) -> Result<Reply, AllocError>
        requires { (s : State) × StandsFor self.old s }
        ensures set { self.new.set ≡ self.old.set }
        ensures plays { (s : State) (events : List AnEvent) → StandsFor self.old s → MatchResult result
            (λ r. Acts (play (set_of self.old.set) s (Peeks part.now memory.now at count)) r self.new events events)
            (λ _. StandsFor self.new s) }
    {
        peek(self.alloc, &self.set, &self.store, part, memory, at, count)
    }

    /// The next bytes of the vault are written into an exported secret memory.
    fn seal(&mut self, part: &str, memory: &str, at: u32, count: u32) -> Result<Reply, AllocError>
        requires { (s : State) × StandsFor self.old s }
        ensures set { self.new.set ≡ self.old.set }
        ensures plays { (s : State) (events : List AnEvent) → StandsFor self.old s → MatchResult result
            (λ r. Acts (play (set_of self.old.set) s (Seals part.now memory.now at count)) r self.new events events)
            (λ _. StandsFor self.new s) }
    {
        seal(
            &self.set,
            &mut self.store,
            &mut self.vault,
            part,
            memory,
            at,
            count,
        )
    }

    /// Bytes of an exported secret memory are appended to the sealed bytes.
    fn reveal(&mut self, part: &str, memory: &str, at: u32, count: u32) -> Result<Reply, AllocError>
        requires { (s : State) × StandsFor self.old s }
        ensures set { self.new.set ≡ self.old.set }
        ensures plays { (s : State) (events : List AnEvent) → StandsFor self.old s → MatchResult result
            (λ r. Acts (play (set_of self.old.set) s (Reveals part.now memory.now at count)) r self.new events events)
            (λ _. StandsFor self.new s) }
    {
        reveal(
            &self.set,
            &self.store,
            &mut self.sealed,
            part,
            memory,
            at,
            count,
        )
    }

    /// Plays one move.
    pub fn act(&mut self, mv: &Move, events: &mut Vec<Event>) -> Result<Reply, ActNoMemory>
        requires { (s : State) × StandsFor self.old s }
        ensures set { self.new.set ≡ self.old.set }
        ensures plays { (s : State) → StandsFor self.old s → MatchResult result
            (λ r. Acts (play (set_of self.old.set) s mv.now) r self.new events.old.items events.new.items)
            (λ e. Lacks (set_of self.old.set) s mv.now e.steps self.new events.old.items events.new.items) }
    {
        match mv {
            Move::Begin {
                slot,
                part,
                export,
                args,
            } => unchanged(self.begin(slot.get(), part.as_str(), export.as_str(), args.as_slice())),
            Move::Turn { slot, steps } => self.turn_slot(slot.get(), *steps, events),
            Move::Leave { slot } => Ok(self.leave(slot.get())),
            Move::Poke {
                part,
                memory,
                at,
                bytes,
            } => unchanged(self.poke(part.as_str(), memory.as_str(), *at, bytes.as_slice())),
            Move::Peek {
                part,
                memory,
                at,
                count,
            } => unchanged(self.peek(part.as_str(), memory.as_str(), *at, *count)),
            Move::Seal {
                part,
                memory,
                at,
                count,
            } => unchanged(self.seal(part.as_str(), memory.as_str(), *at, *count)),
            Move::Reveal {
                part,
                memory,
                at,
                count,
            } => unchanged(self.reveal(part.as_str(), memory.as_str(), *at, *count)),
        }
    }
}

/// What is told of a move that changes nothing where memory is wanting.
fn unchanged(told: Result<Reply, AllocError>) -> Result<Reply, ActNoMemory>
    ensures { MatchResult told (λ r. result ≡ Ok r) (λ _. result ≡ Err (record { steps = 0 })) }
{
    match told {
        Ok(reply) => Ok(reply),
        Err(AllocError) => Err(ActNoMemory { steps: 0 }),
    }
}
