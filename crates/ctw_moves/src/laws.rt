// Laws, for the crates above: functions that do nothing, whose contracts hold.
ghost use Rattle.std.specs.Prelude.{◌≡◌, ◌≢◌, ◌↔◌, ◌≤◌, ◌<◌, ◌+◌, ◌%◌, ◌^◌, ◌++◌, ℕ, true, false, List, [], length, map, take, drop, slice_get, Option, Some, None, All};
ghost use Rattle.ctw_ops.specs.declared.types.Trust.TheVariants.{Untrusted};
ghost use Rattle.ctw_ops.specs.declared.types.Width.{Width};
ghost use Rattle.ctw_ops.specs.declared.types.ExternTag.TheVariants.{Func, Memory};
ghost use Rattle.ctw_num.specs.Integers.{bit_width};
ghost use Rattle.ctw_script.specs.declared.moves.Arg.{Arg};
ghost use Rattle.ctw_script.specs.declared.moves.Move.{Move};
ghost use Rattle.ctw_script.specs.declared.moves.Move.TheVariants.{Begin, Turn, Leave, Seal, Reveal};
ghost use Rattle.ctw_script.specs.declared.reply.Refusal.{Refusal};
ghost use Rattle.ctw_script.specs.declared.reply.Refusal.TheVariants.{NoExport, SlotFree, TurnTooLong, SealedFull};
ghost use Rattle.ctw_script.specs.declared.reply.Shown.{Shown};
ghost use Rattle.ctw_script.specs.declared.trap.TrapCode.{TrapCode};
ghost use Rattle.ctw_script.specs.declared.reply.Reply.TheVariants.{Began, More, Done, Trap, Dropped, Sealed, Revealed, Refused};
ghost use Rattle.ctw_semantics.specs.Stores as Stores;
ghost use Rattle.ctw_semantics.specs.Stores.{bytes_of_number};
ghost use Rattle.ctw_semantics.specs.Instances.{FunctionInstance};
ghost use Rattle.ctw_semantics.specs.Activations.{Activation, weight};
ghost use Rattle.ctw_semantics.specs.Steps.{Stuck, turn};
ghost use Rattle.ctw_semantics.specs.Seen.{seen_storage, LookSame};
ghost use Rattle.ctw_semantics.specs.Erased.{erase_storage, erase_activation};
ghost use Rattle.ctw_link.specs.Sets.{ModuleSet};
ghost use Rattle.ctw_link.specs.Matching.{AreMatching};
ghost use Rattle.ctw_link.specs.SetInstances.{set_instances, AllValid};
ghost use Rattle.ctw_link.specs.Sets.{AllWithinLimits};
ghost use Rattle.ctw_launch.specs.ErasedSets.{erase_set};
ghost use Rattle.ctw_link.specs.Exports.{exported};
ghost use Rattle.ctw_moves.specs.States.{State, in_slot};
ghost use Rattle.ctw_moves.specs.Arguments.{byte_width, args_take, in_range, number_of, next_number};
ghost use Rattle.ctw_moves.specs.Moves.{play};
ghost use Rattle.ctw_moves.specs.Refusals.{IsFunctionOf, IsRefusalOf};
ghost use Rattle.ctw_moves.specs.Slots.{NamesSlot};
ghost use Rattle.ctw_moves.specs.Runs.{Told, plays, chosen};
ghost use Rattle.ctw_moves.specs.SeenStates.{seen_slot, Agree, seen_played, seen_run};
ghost use Rattle.ctw_moves.specs.SoundStates.{AreBytes, HasBytes, SoundState};
ghost use Rattle.ctw_moves.specs.ErasedRuns.{erase_state, erase_move, left_out, appended, erase_played, erase_moves, erase_run, weight_left};
ghost use Rattle.ctw_moves.specs.LaunchedStates.{Ready, launch, seen_launch, erase_launch, run_of, released, told_session};

/// What arguments stand for: a number in its range is itself, a negative one is itself modulo 2 to the width, and one
/// from a vault of bytes has the vault's next bytes.
pub fn arguments_stand_for_their_numbers()
    ensures natural { (w : Width) (size : ℕ) → in_range w false size ≡ true → number_of w false size ≡ size }
    ensures negative { (w : Width) (size : ℕ) → in_range w true size ≡ true
        → (number_of w true size + size) % 2 ^ bit_width w ≡ 0 }
    ensures vault { (w : Width) (vault : List ℕ) → All (λ b. b < 256) vault → byte_width w ≤ length vault
        → bytes_of_number (byte_width w) (next_number w vault) ≡ take (byte_width w) vault }
{}

/// Two states agree exactly where their stores and slots look the same, and their vaults and sealed bytes are equally
/// long.
pub fn agreeing_states_hide_secrets_alone()
    ensures { (s t : State) → Agree s t ↔ ((seen_storage s.storage ≡ seen_storage t.storage)
        × (map seen_slot s.slots ≡ map seen_slot t.slots) × (length s.vault ≡ length t.vault) × (length s.sealed
        ≡ length t.sealed)) }
{}

/// Isolation: from agreeing states, and with equal releases, a move has the same reply and events and leaves agreeing
/// states, and so has a list of moves, also where each is chosen by what was told of those before.
pub fn agreeing_moves_look_the_same()
    ensures moves { (set : ModuleSet) (s t : State) (m : Move) → Agree s t → (play set s m).releases
        ≡ (play set t m).releases
        → seen_played (play set s m) ≡ seen_played (play set t m) }
    ensures lists { (set : ModuleSet) (ms : List Move) (s t : State) → Agree s t → (plays set s ms).releases
        ≡ (plays set t ms).releases
        → seen_run (plays set s ms) ≡ seen_run (plays set t ms) }
    ensures chosen { (n : ℕ) (set : ModuleSet) (choose : List Told → Option Move) (s t : State) → Agree s t
        → (chosen n set choose [] s).releases ≡ (chosen n set choose [] t).releases
        → seen_run (chosen n set choose [] s) ≡ seen_run (chosen n set choose [] t) }
    ensures going_on { (set : ModuleSet) (ms : List Move) (s t : State) → Agree s t
        → LookSame (seen_run (plays set s ms)) (seen_run (plays set t ms))
        (plays set s ms).releases (plays set t ms).releases }
{}

/// A set with two equally long vaults is launched into agreeing states, or isn't launched for the same fault. A whole
/// session with either tells the same, where it releases the same: replies, events and the count of sealed bytes.
pub fn vaults_stay_hidden()
    ensures launches { (set : ModuleSet) (v w : List ℕ) → length v ≡ length w → seen_launch (launch set v)
        ≡ seen_launch (launch set w) }
    ensures sessions { (set : ModuleSet) (v w : List ℕ) (ms : List Move) → length v ≡ length w
        → released (run_of set v ms) ≡ released (run_of set w ms)
        → told_session (run_of set v ms) ≡ told_session (run_of set w ms) }
{}

/// What the replies to moves tell is so. A turn that goes on took all its steps and its call is in its slot; one that
/// is done or has trapped took no more, and its slot is free, as is the slot of a call that was given up. A turn's
/// events and releases, and its store, are the machine's. No slot changes but the one that a move names. A call that
/// has begun, and a seal, have taken their bytes of the vault.
pub fn moves_do_what_they_tell()
    ensures goes_on { (set : ModuleSet) (s : State) (slot steps n : ℕ) → (play set s (Turn slot steps)).reply ≡ More n
        → (n ≡ steps) × (a : Activation) × (in_slot (play set s (Turn slot steps)).state slot ≡ Some a) }
    ensures done { (set : ModuleSet) (s : State) (slot steps n : ℕ) (result : Shown)
        → (play set s (Turn slot steps)).reply ≡ Done n result
        → (n ≤ steps) × (in_slot (play set s (Turn slot steps)).state slot ≡ None) }
    ensures trapped { (set : ModuleSet) (s : State) (slot steps n : ℕ) (code : TrapCode)
        → (play set s (Turn slot steps)).reply ≡ Trap n code
        → (n ≤ steps) × (in_slot (play set s (Turn slot steps)).state slot ≡ None) }
    ensures turned { (set : ModuleSet) (s : State) (slot steps : ℕ) (a : Activation)
        → in_slot s slot ≡ Some a → steps ≤ 1000000
        → ((play set s (Turn slot steps)).events ≡ (turn steps (set_instances set) s.storage a).events)
        × ((play set s (Turn slot steps)).releases ≡ (turn steps (set_instances set) s.storage a).releases)
        × ((play set s (Turn slot steps)).state.storage ≡ (turn steps (set_instances set) s.storage a).storage) }
    ensures given_up { (set : ModuleSet) (s : State) (slot : ℕ) → (play set s (Leave slot)).reply ≡ Dropped
        → in_slot (play set s (Leave slot)).state slot ≡ None }
    ensures others { (set : ModuleSet) (s : State) (m : Move) (n : ℕ) → (NamesSlot m n → ⊥)
        → in_slot (play set s m).state n ≡ in_slot s n }
    ensures begun { (set : ModuleSet) (s : State) (slot : ℕ) (part export : List ℕ) (args : List Arg)
        → (play set s (Begin slot part export args)).reply ≡ Began
        → (fn : FunctionInstance) × IsFunctionOf set s part export fn
        × ((play set s (Begin slot part export args)).state.vault ≡ drop (args_take fn.type.params args) s.vault) }
    ensures sealed { (set : ModuleSet) (s : State) (part memory : List ℕ) (at count : ℕ)
        → (play set s (Seal part memory at count)).reply ≡ Sealed
        → (play set s (Seal part memory at count)).state.vault ≡ drop count s.vault }
{}

/// A move is refused for the first refusal of its list that applies, and is never refused where none does.
pub fn moves_are_refused_in_order()
    ensures { (set : ModuleSet) (s : State) (m : Move) (r : Refusal)
        → ((play set s m).reply ≡ Refused r) ↔ IsRefusalOf set s m r }
{}

/// A refused move changes nothing, and has no event and no release.
pub fn refused_moves_change_nothing()
    ensures { (set : ModuleSet) (s : State) (m : Move) (r : Refusal) → (play set s m).reply ≡ Refused r
        → play set s m ≡ record { state = s; reply = Refused r; events = []; releases = [] } }
{}

/// A launched state is sound, each kind of move keeps a sound state, and a call that has begun weighs at most 51,001.
pub fn moves_keep_states_sound()
    ensures launched { (set : ModuleSet) (vault : List ℕ) (s : State) → AreMatching set → AllValid set
        → AllWithinLimits set → AreBytes vault → launch set vault ≡ Ready s → SoundState set s }
    ensures moves { (set : ModuleSet) (s : State) (m : Move) → SoundState set s → HasBytes m
        → SoundState set (play set s m).state }
    ensures lists { (set : ModuleSet) (ms : List Move) (s : State) → SoundState set s → All HasBytes ms
        → SoundState set (plays set s ms).state }
    ensures begun { (set : ModuleSet) (s : State) (slot : ℕ) (part export : List ℕ) (args : List Arg) (a : Activation)
        → SoundState set s
        → (play set s (Begin slot part export args)).reply ≡ Began
        → in_slot (play set s (Begin slot part export args)).state slot ≡ Some a → weight a ≤ 51001 }
{}

/// The functions and memories that parts export are there in a sound state. So a call is refused for want of its
/// function only where no part of the name exports a function of the name.
pub fn exports_are_there()
    ensures functions { (set : ModuleSet) (s : State) (part name : List ℕ) (n : ℕ) → SoundState set s
        → exported Func set part name ≡ Some n → (fn : FunctionInstance) × (slice_get (set_instances set) n
        ≡ Some fn) }
    ensures memories { (set : ModuleSet) (s : State) (part name : List ℕ) (i : ℕ) → SoundState set s
        → exported Memory set part name ≡ Some i → (m : Stores.Memory) × (slice_get s.storage.memories i ≡ Some m) }
    ensures no_function { (set : ModuleSet) (s : State) (slot : ℕ) (part export : List ℕ) (args : List Arg)
        → SoundState set s
        → (play set s (Begin slot part export args)).reply ≡ Refused NoExport → exported Func set part export ≡ None }
{}

/// A turn of a call is too long exactly where it has more than 1,000,000 steps. A reveal leaves at most 16,777,216
/// sealed bytes, and is refused as full only where it would leave more.
pub fn moves_keep_limits()
    ensures long { (set : ModuleSet) (s : State) (slot steps : ℕ) → (play set s (Turn slot steps)).reply
        ≡ Refused TurnTooLong → 1000000 < steps }
    ensures too_long { (set : ModuleSet) (s : State) (slot steps : ℕ) → 1000000 < steps
        → (play set s (Turn slot steps)).reply ≢ Refused SlotFree → (play set s (Turn slot steps)).reply
        ≡ Refused TurnTooLong }
    ensures full { (set : ModuleSet) (s : State) (part memory : List ℕ) (at count : ℕ)
        → (play set s (Reveal part memory at count)).reply ≡ Refused SealedFull → 16777216 < length s.sealed + count }
    ensures revealed { (set : ModuleSet) (s : State) (part memory : List ℕ) (at count : ℕ)
        → (play set s (Reveal part memory at count)).reply ≡ Revealed count
        → length (play set s (Reveal part memory at count)).state.sealed ≤ 16777216 }
{}

/// The call in a slot of a sound state is never stuck, however many steps it takes.
pub fn turns_are_never_stuck()
    ensures { (set : ModuleSet) (s : State) (slot steps : ℕ) (a : Activation) → SoundState set s → in_slot s slot
        ≡ Some a → (turn steps (set_instances set) s.storage a).left ≢ Stuck }
{}

/// A move takes bytes from the front of the vault alone, and puts bytes behind the sealed bytes alone.
pub fn moves_take_and_append()
    ensures vault { (set : ModuleSet) (s : State) (m : Move) → (count : ℕ) × ((play set s m).state.vault
        ≡ drop count s.vault) }
    ensures sealed { (set : ModuleSet) (s : State) (m : Move) → (play set s m).state.sealed
        ≡ s.sealed ++ appended s (play set s m).state }
{}

/// Moves of a set without trusted types release nothing. So its sessions with equally long vaults always tell the
/// same.
pub fn untrusted_sets_release_nothing()
    ensures moves { (set : ModuleSet) (s : State) (ms : List Move) → All (λ p. All (λ entry. entry.type.trust
        ≡ Untrusted) p.tree.types) set → SoundState set s → All HasBytes ms → (plays set s ms).releases ≡ [] }
    ensures sessions { (set : ModuleSet) (v w : List ℕ) (ms : List Move) → All (λ p. All (λ entry. entry.type.trust
        ≡ Untrusted) p.tree.types) set → AreMatching set → AllValid set → AllWithinLimits set → AreBytes v
        → AreBytes w → All HasBytes ms → length v ≡ length w
        → told_session (run_of set v ms) ≡ told_session (run_of set w ms) }
{}

/// Erasure: the erased state gives for the erased move the erased reply with the same events, and leaves the erased
/// state; a move that is left out leaves it as it was. The same of a list of moves. A call weighs the same after each
/// step of a turn.
pub fn erased_moves_do_the_same()
    ensures moves { (set : ModuleSet) (s : State) (m : Move) → SoundState set s → left_out (play set s m).reply
        ≡ false
        → play (erase_set set) (erase_state set s) (erase_move set s (play set s m).reply m)
        ≡ erase_played set s (play set s m) }
    ensures left_out_moves { (set : ModuleSet) (s : State) (m : Move) → SoundState set s
        → left_out (play set s m).reply ≡ true → erase_state set (play set s m).state ≡ erase_state set s }
    ensures lists { (set : ModuleSet) (ms : List Move) (s : State) → SoundState set s → All HasBytes ms
        → plays (erase_set set) (erase_state set s) (erase_moves set s ms) ≡ erase_run set s ms }
    ensures weights { (set : ModuleSet) (s : State) (slot steps : ℕ) (a : Activation)
        → SoundState set s
        → in_slot s slot ≡ Some a
        → weight_left (turn steps (set_instances (erase_set set)) (erase_storage s.storage)
        (erase_activation (set_instances set) a)).left
        ≡ weight_left (turn steps (set_instances set) s.storage a).left }
{}

/// The erased set with an empty vault is launched exactly where the set is, into the erased state, and does for the
/// erased moves what the set does, erased.
pub fn erased_sessions_do_the_same()
    ensures launches { (set : ModuleSet) (vault : List ℕ) → AreMatching set → AllValid set → AllWithinLimits set
        → launch (erase_set set) [] ≡ erase_launch set (launch set vault) }
    ensures sessions { (set : ModuleSet) (vault : List ℕ) (s : State) (ms : List Move) → AreMatching set
        → AllValid set → AllWithinLimits set → AreBytes vault → All HasBytes ms → launch set vault ≡ Ready s
        → (launch (erase_set set) [] ≡ Ready (erase_state set s))
        × (plays (erase_set set) (erase_state set s) (erase_moves set s ms) ≡ erase_run set s ms) }
{}
