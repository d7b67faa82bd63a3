//! The commands that run sets: `run` and `once`.
ghost use Rattle.std.specs.Prelude.{◌≡◌, ◌≢◌, ◌≤◌, ◌<◌, ◌^◌, ◌∷◌, [], ℕ, true, List, Option, Result, Some, Ok, Err, length, IfOk, IsOk, IfErr};
ghost use Rattle.std.specs.Str.{is_utf8};
ghost use Rattle.std.specs.FinMap.{get};
ghost use Rattle.ctw_io.specs.declared.Fault.TheVariants.{Failed};
ghost use Rattle.ctw_io.specs.Files.{Files};
ghost use Rattle.ctw_io.specs.Faults.{Rose};
ghost use Rattle.ctw_script.specs.declared.moves.Move.{Move as AMove};
ghost use Rattle.ctw_script.specs.declared.script.ScriptFault.{ScriptFault as AScriptFault};
ghost use Rattle.ctw_inputs.specs.declared.said.Status.TheVariants.{Done, Usage, ReadFault, WriteFault, SaveFault};
ghost use Rattle.ctw_inputs.specs.declared.said.Stop.TheVariants as stop;
ghost use Rattle.ctw_inputs.specs.Outcome.{Outcome};
ghost use Rattle.ctw_inputs.specs.Inputs.{script_limit};
ghost use Rattle.ctw_inputs.specs.Parts.{names, contents, bytes_in};
ghost use Rattle.ctw_inputs.specs.Settling.{IsRefusal, Settles, HasReadCause, Reads};
ghost use Rattle.ctwasm_top.specs.Answer.{once_part, call_of, once_moves, once_answer, run_answer, ReadsScript};
ghost use Rattle.ctwasm_top.specs.Headline.{DidTold, HasCauses};
ghost use Rattle.ctwasm_top.specs.Sessions.{ArePartsOf, OpensRun, run_files, run_opened, once_files, IsSaved, Writes};
ghost use Rattle.ctw_words.specs.SessionWords.{same_in_run, same_in_once};
ghost use Rattle.ctw_words.specs.Words.{Run as Runs, Once as Calls};

use crate::saying::settle;
use crate::sessions::{open_session, play_script, play_two};
use ctw_inputs::{
    LoadedPart, PartFile, SCRIPT_LIMIT, Status, Stop, VAULT_LIMIT, load_file, load_parts,
    read_moves, refuse, text_of,
};
use ctw_io::{Fault, Shelf, Sink};
use ctw_lines::refusal_line;
use ctw_ops::{Name, Profile};
use ctw_script::{Arg, Args, Move, Moves, Slot64};
use ctw_session::Session;
use ctw_words::{Once, Run};
use std::alloc::{AllocError, Global};

/// The loaded files of `run`.
#[derive(Drop)]
struct RunFiles<'a> {
    script: Vec<u8>,
    vault: Vec<u8>,
    parts: Vec<LoadedPart<'a>>,
}

/// Loads the files of `run`: the script, the vault, and the modules of the parts.
fn load_run<'a, F: Shelf>(
    alloc: Global,
    words: &Run<'a>,
    shelf: &mut F,
) -> Result<RunFiles<'a>, Stop>
    ensures told { (files : Files) → F.files shelf.old ≡ Some files
        → Settles (λ f. (f.script.items, (f.vault.items, contents f.parts.items))) result (run_files files words.now) }
    ensures parts { IfOk result (λ f. ArePartsOf f.parts.items words.now.parts) }
    ensures script { (files : Files) → F.files shelf.old ≡ Some files
        → IfOk result (λ f. (get files words.now.script ≡ Some f.script.items) × (length f.script.items ≤ script_limit)) }
    ensures short { IfOk result (λ f. length f.script.items ≤ 1048576) }
    ensures unchanged { F.files shelf.new ≡ F.files shelf.old }
    ensures cause { HasReadCause (F.faults shelf.old) (F.faults shelf.new) result }
    ensures loads { result ≡ Err stop.ReadFault → same_in_run words.now ≡ None }
{
    if let Some(word) = words.same_file() {
        return Err(refuse(refusal_line(alloc, "SameFile", word)));
    }
    let parts = words.parts.parts(alloc)?;
    let script = load_file(alloc, shelf, words.script, SCRIPT_LIMIT)?;
    let vault = load_file(alloc, shelf, words.vault, VAULT_LIMIT)?;
    let parts = load_parts(alloc, shelf, &parts)?;
    Ok(RunFiles {
        script,
        vault,
        parts,
    })
}

/// A session, and the moves of a script.
#[derive(Drop)]
struct Opened<'b> {
    moves: Moves,
    session: Session<'b>,
}

/// Reads the script of `run`, and opens a session of its parts.
fn open_run<'b>(
    alloc: Global,
    profile: Profile,
    file: &str,
    script: &[u8],
    parts: &'b [LoadedPart],
    vault: Vec<u8>,
) -> Result<Opened<'b>, Stop>
    requires some { 1 ≤ length parts.now }
    requires few { length parts.now ≤ 64 }
    requires within { bytes_in parts.now ≤ 134217728 }
    requires short { length script.now < 2 ^ 32 }
    ensures told { (reading : Result (List AMove) AScriptFault) → (is_utf8 script.now ≡ true → Reads script.now reading)
        → OpensRun result (run_opened profile file.now script.now reading (names parts.now) (contents parts.now) vault.items) }
    ensures read { IfOk result (λ o. Reads script.now (Ok o.moves)) }
    ensures quiet { result ≢ Err stop.ReadFault }
    ensures refuses { IfErr result IsRefusal }
{
    let text = text_of(alloc, file, script)?;
    let moves = read_moves(alloc, text)?;
    let session = open_session(alloc, profile, parts, vault)?;
    Ok(Opened { moves, session })
}

/// Ends behind the moves of a session: saves what it sealed, where all that they tell was written.
fn finish<F: Shelf>(played: Result<(), Fault>, name: &str, sealed: &[u8], shelf: &mut F) -> Status
    ensures did { (files : Files) (o : Outcome) (taken took : Option (List ℕ)) → F.files shelf.old ≡ Some files
        → (IsOk played → IsSaved o name.now sealed.now) → Writes played o.out taken took
        → DidTold result o files (F.files shelf.new) taken took }
    ensures write { result ≡ WriteFault → played ≡ Err Failed }
    ensures save { result ≡ SaveFault → Rose (F.faults shelf.old) (F.faults shelf.new) }
    ensures quiet { (result ≢ ReadFault) × (result ≢ Usage) }
    ensures done { result ≡ Done → IsOk played }
{
    match played {
        Ok(()) => {}
        Err(Fault::Failed) => return Status::WriteFault,
        Err(Fault::NoMemory) => return Status::NoMemory,
    }
    match shelf.save(name, sealed) {
        Ok(()) => Status::Done,
        Err(Fault::Failed) => Status::SaveFault,
        Err(Fault::NoMemory) => Status::NoMemory,
    }
}

/// `run SCRIPT VAULT SEALED NAME=M..`: links and launches the parts, makes the moves of the script, and writes what each
/// tells before the next is made. In the last place the sealed bytes are saved as SEALED, whatever the replies were.
pub fn run<F: Shelf, K: Sink>(
    alloc: Global,
    profile: Profile,
    words: &Run,
    shelf: &mut F,
    out: &mut K,
) -> Status
    ensures did { (files : Files) (reading : Result (List AMove) AScriptFault) → F.files shelf.old ≡ Some files
        → ReadsScript (Some (Runs profile words.now)) files reading
        → DidTold result (run_answer files profile reading words.now) files (F.files shelf.new) (K.taken out.old)
        (K.taken out.new) }
    ensures read { (files : Files) → F.files shelf.old ≡ Some files → result ≡ Done
        → (moves : List AMove) × ReadsScript (Some (Runs profile words.now)) files (Ok moves) }
    ensures causes { HasCauses (Some (Runs profile words.now)) result (F.faults shelf.old) (F.faults shelf.new)
        (K.faults out.old) (K.faults out.new) (K.taken out.old) (K.taken out.new) }
{
    let files = match load_run(alloc, words, shelf) {
        Ok(files) => files,
        Err(stop) => return settle(out, Err(stop)),
    };
    let RunFiles {
        script,
        vault,
        parts,
    } = files;
    let opened = match open_run(alloc, profile, words.script, &script, &parts, vault) {
        Ok(opened) => opened,
        Err(stop) => return settle(out, Err(stop)),
    };
    let Opened { moves, mut session } = opened;
    let played = play_script(alloc, &mut session, &moves, out);
    finish(played, words.sealed, session.sealed(), shelf)
}

/// The loaded files of `once`.
#[derive(Drop)]
struct OnceFiles<'a> {
    parts: Vec<LoadedPart<'a>>,
    vault: Vec<u8>,
}

/// Loads the files of `once`: the module, as the one part `m`, and the vault.
fn load_once<'a, F: Shelf>(
    alloc: Global,
    words: &Once<'a>,
    shelf: &mut F,
) -> Result<OnceFiles<'a>, Stop>
    ensures told { (files : Files) → F.files shelf.old ≡ Some files
        → Settles (λ f. (contents f.parts.items, f.vault.items)) result (once_files files words.now) }
    ensures parts { IfOk result (λ f. ArePartsOf f.parts.items (once_part words.now ∷ [])) }
    ensures unchanged { F.files shelf.new ≡ F.files shelf.old }
    ensures cause { HasReadCause (F.faults shelf.old) (F.faults shelf.new) result }
    ensures loads { result ≡ Err stop.ReadFault → same_in_once words.now ≡ None }
{
    if let Some(word) = words.same_file() {
        return Err(refuse(refusal_line(alloc, "SameFile", word)));
    }
    let part = PartFile {
        name: "m",
        file: words.module_file,
    };
    let parts = load_parts(alloc, shelf, &[part])?;
    let vault = load_file(alloc, shelf, words.vault, VAULT_LIMIT)?;
    Ok(OnceFiles { parts, vault })
}

/// Two moves.
#[derive(Drop)]
pub struct TwoMoves {
    /// The first.
    pub begin: Move,
    /// The second.
    pub turn: Move,
}

/// A call of an export of the part `m` begins in slot 0, and takes 1,000,000 steps.
#[tactic(auto, unfolding(ctw_ops::specs::Limits::most_steps))]
pub fn call_moves(alloc: Global, export: &str, arguments: Vec<Arg>) -> Result<TwoMoves, AllocError>
    ensures { IfOk result (λ m. m.begin ∷ m.turn ∷ [] ≡ call_of export.now arguments.items) }
{
    let Some(slot) = Slot64::new(0) else {
        unreachable!();
    };
    let begin = Move::Begin {
        slot,
        part: Name::new(String::from_str(alloc, "m")?),
        export: Name::new(String::from_str(alloc, export)?),
        args: Args::new(arguments),
    };
    let turn = Move::Turn {
        slot,
        steps: 1_000_000,
    };
    Ok(TwoMoves { begin, turn })
}

/// The moves of `once`.
fn moves_of_once(alloc: Global, words: &Once) -> Result<TwoMoves, AllocError>
    ensures { IfOk result (λ m. m.begin ∷ m.turn ∷ [] ≡ once_moves words.now) }
{
    call_moves(alloc, words.export, words.arguments.read(alloc)?)
}

/// `once M VAULT SEALED EXPORT ARG..`: as `run` with M as the one part `m`, and two moves: the call of EXPORT with the
/// arguments begins, and takes 1,000,000 steps.
pub fn once<F: Shelf, K: Sink>(
    alloc: Global,
    profile: Profile,
    words: &Once,
    shelf: &mut F,
    out: &mut K,
) -> Status
    ensures did { (files : Files) → F.files shelf.old ≡ Some files
        → DidTold result (once_answer files profile words.now) files (F.files shelf.new) (K.taken out.old)
        (K.taken out.new) }
    ensures causes { HasCauses (Some (Calls profile words.now)) result (F.faults shelf.old) (F.faults shelf.new)
        (K.faults out.old) (K.faults out.new) (K.taken out.old) (K.taken out.new) }
{
    let files = match load_once(alloc, words, shelf) {
        Ok(files) => files,
        Err(stop) => return settle(out, Err(stop)),
    };
    let OnceFiles { parts, vault } = files;
    let mut session = match open_session(alloc, profile, &parts, vault) {
        Ok(session) => session,
        Err(stop) => return settle(out, Err(stop)),
    };
    let Ok(moves) = moves_of_once(alloc, words) else {
        return Status::NoMemory;
    };
    let played = play_two(alloc, &mut session, &moves.begin, &moves.turn, out);
    finish(played, words.sealed, session.sealed(), shelf)
}
