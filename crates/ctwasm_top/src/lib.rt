//! The command line of `ctwasm` over files and a sink.
#![tactic(auto)]

mod commands;
mod counting;
mod inferring;
mod lines;
mod running;
mod saying;
mod sessions;
mod texts;
mod working;

ghost use Rattle.std.specs.Prelude.{◌≡◌, ◌≢◌, [], List, Result, ℕ, map, string_bytes, Some, None, All};
ghost use Rattle.std.specs.FinMap.{get};
ghost use Rattle.ctw_io.specs.Files.{Files};
ghost use Rattle.ctw_ops.specs.declared.numeric.Profile.{Profile};
ghost use Rattle.ctw_ops.specs.Tree.{under};
ghost use Rattle.ctw_script.specs.declared.moves.Move.{Move};
ghost use Rattle.ctw_script.specs.declared.script.ScriptFault.{ScriptFault};
ghost use Rattle.ctw_semantics.specs.Sound.{AllUntrusted};
ghost use Rattle.ctw_link.specs.Sets.{ModuleSet};
ghost use Rattle.ctw_link.specs.SetInstances.{set_instances};
ghost use Rattle.ctw_moves.specs.States.{State};
ghost use Rattle.ctw_moves.specs.Runs.{plays};
ghost use Rattle.ctw_moves.specs.SoundStates.{HasBytes};
ghost use Rattle.ctw_moves.specs.SeenStates.{Agree, seen_run};
ghost use Rattle.ctw_inputs.specs.declared.said.Status.TheVariants.{Done, Refused, Usage};
ghost use Rattle.ctw_inputs.specs.Outcome.{Execution, ends};
ghost use Rattle.ctwasm_top.specs.Usage.{usage_text};
ghost use Rattle.ctw_words.specs.Words.{Assemble, Infer, command_of, vault_word};
ghost use Rattle.ctwasm_top.specs.Inference.{Found, IsPlacedUntrusted};
ghost use Rattle.ctwasm_top.specs.Marked.{HoldsMarked};
ghost use Rattle.ctwasm_top.specs.Texts.{IsReadBack};
ghost use Rattle.ctwasm_top.specs.Answer.{answer, releases, ReadsScript, FindsMarks};
ghost use Rattle.ctwasm_top.specs.Headline.{Did, DidFound, DidInfer, HasCauses, IsAnswer, AreOctets, OtherVault, SameOutcome, ExecutesUntrusted, RunsStripped};
ghost use Rattle.ctwasm_top.specs.ValidCalls.{HoldsInputs, WritesModule};

use commands::{canon_file, check_file, link_files, strip_file, text_file};
pub use ctw_inputs::Status;
use ctw_io::{Shelf, Sink};
use ctw_words::{Command, command_of};
use inferring::infer_file;
use running::{once, run};
use saying::{say, settle};
use std::alloc::Global;
use texts::assemble_file;
use working::work;

const USAGE: &[u8] = b"usage: ctwasm check M
       ctwasm canon M
       ctwasm text M
       ctwasm assemble T
       ctwasm infer M MARKS
       ctwasm strip M
       ctwasm link NAME=M..
       ctwasm run SCRIPT VAULT SEALED NAME=M..
       ctwasm once M VAULT SEALED EXPORT ARG..
       ctwasm work SEED SIZE
       ctwasm mul COMMAND..
";

/// Does what the words say, by the command.
#[tactic(auto, unfolding(crate::specs::Usage::usage_text))]
fn dispatch<F: Shelf, K: Sink>(
    alloc: Global,
    words: &[String],
    shelf: &mut F,
    out: &mut K,
) -> Status
    ensures did { (files : Files) (reading : Result (List Move) ScriptFault) → F.files shelf.old ≡ Some files
        → ReadsScript (command_of (map string_bytes words.now)) files reading
        → DidFound (map string_bytes words.now) reading result files (F.files shelf.new) (K.taken out.old)
        (K.taken out.new) }
    ensures read { (files : Files) → F.files shelf.old ≡ Some files → result ≡ Done
        → (reading : Result (List Move) ScriptFault) × ReadsScript (command_of (map string_bytes words.now)) files reading }
    ensures causes { HasCauses (command_of (map string_bytes words.now)) result (F.faults shelf.old) (F.faults shelf.new)
        (K.faults out.old) (K.faults out.new) (K.taken out.old) (K.taken out.new) }
    ensures back { (files : Files) (file text : List ℕ) → F.files shelf.old ≡ Some files
        → command_of (map string_bytes words.now) ≡ Some (Assemble file) → result ≡ Done → get files file ≡ Some text
        → IsReadBack text }
    ensures no_form { (files : Files) → command_of (map string_bytes words.now) ≡ None
        → Did result (ends Usage usage_text) files files (K.taken out.old) (K.taken out.new) }
{
    match command_of(words) {
        None => say(out, USAGE, Status::Usage),
        Some(Command::Check(profile, file)) => {
            settle(out, check_file(alloc, profile, file, shelf))
        }
        Some(Command::Canon(file)) => settle(out, canon_file(alloc, file, shelf)),
        Some(Command::Assemble(file)) => settle(out, assemble_file(alloc, file, shelf)),
        Some(Command::Text(profile, file)) => {
            settle(out, text_file(alloc, profile, file, shelf))
        }
        Some(Command::Infer(profile, file, marks)) => {
            settle(out, infer_file(alloc, profile, file, marks, shelf))
        }
        Some(Command::Strip(profile, file)) => {
            settle(out, strip_file(alloc, profile, file, shelf))
        }
        Some(Command::Link(profile, parts)) => {
            settle(out, link_files(alloc, profile, &parts, shelf))
        }
        Some(Command::Run(profile, words)) => run(alloc, profile, &words, shelf, out),
        Some(Command::Once(profile, words)) => once(alloc, profile, &words, shelf, out),
        Some(Command::Work(profile, seed, size)) => work(alloc, profile, seed, size, out),
    }
}

/// Does what the words after the program's name say, over these files and this place for text.
///
/// The commands are `check M`, `canon M`, `text M`, `assemble T`, `infer M MARKS`, `strip M`, `link NAME=M..`,
/// `run SCRIPT VAULT SEALED NAME=M..`, `once M VAULT SEALED EXPORT ARG..` and `work SEED SIZE`. Before all but `canon` and
/// `assemble` the word `mul` may stand, under which multiplications leak as divisions do. All other words are a wrong use, whose text is written. The text of each move is written before the
/// next is made, every text before a file is saved, and files are saved in the last place.
pub fn ctwasm<F: Shelf, K: Sink>(
    alloc: Global,
    words: &[String],
    shelf: &mut F,
    out: &mut K,
) -> Status
    // What was written and saved and the status are those of the answer, or a fault says how far it came. The answer goes
    // by the reading of the script that the words name: there is one at most, and there is one where the work is done.
    // And it goes by a finding on the marks that they name.
    ensures did { (files : Files) (reading : Result (List Move) ScriptFault) → F.files shelf.old ≡ Some files
        → ReadsScript (command_of (map string_bytes words.now)) files reading
        → DidFound (map string_bytes words.now) reading result files (F.files shelf.new) (K.taken out.old)
        (K.taken out.new) }
    ensures read { (files : Files) → F.files shelf.old ≡ Some files → result ≡ Done
        → (reading : Result (List Move) ScriptFault) × ReadsScript (command_of (map string_bytes words.now)) files reading }

    // The work is done only for files that hold what the command asks for, and no such files are refused: a module that
    // bytes spell or a text denotes, a valid one under the words' profile, such modules that match, and for `run` and `once`
    // such a set that is launched with the vault, and a script that stands for moves. `work` asks for none.
    ensures held { (files : Files) → F.files shelf.old ≡ Some files → result ≡ Done
        → HoldsInputs files (command_of (map string_bytes words.now)) }
    ensures complete { (files : Files) → F.files shelf.old ≡ Some files
        → HoldsInputs files (command_of (map string_bytes words.now)) → result ≢ Refused }

    // `canon` writes bytes that spell the file's module, `text` a text that denotes it, `assemble` the canonical bytes of
    // the module that a text denotes, and `strip` bytes that spell the erased module, if they aren't longer than a plain
    // module's file may be.
    ensures written { (files : Files) (reading : Result (List Move) ScriptFault) (found : Found)
        → (answer (map string_bytes words.now) files reading found).status ≡ Done
        → WritesModule files (command_of (map string_bytes words.now))
        (answer (map string_bytes words.now) files reading found).out }

    // A reader takes the bytes that `assemble` writes for a text, for the module that the text denotes.
    ensures back { (files : Files) (file text : List ℕ) → F.files shelf.old ≡ Some files
        → command_of (map string_bytes words.now) ≡ Some (Assemble file) → result ≡ Done → get files file ≡ Some text
        → IsReadBack text }

    // `infer` writes the placed module of the least labelling exactly where one fits the marks, the lines of a least flow
    // exactly where trust is kept and none fits, and else a refusal. Erasing the placed module gives the file's.
    ensures inference { (files : Files) (profile : Profile) (file marks : List ℕ) → F.files shelf.old ≡ Some files
        → command_of (map string_bytes words.now) ≡ Some (Infer profile file marks) → IsAnswer result
        → (h : HoldsMarked files profile file marks)
        → DidInfer (under profile h.tree) h.text result (K.taken out.old) (K.taken out.new) }

    // The two vaults: other bytes in VAULT, as many, by which the same is released, give the same bytes for out, the
    // same status and as many bytes to save.
    ensures hidden { (files others : Files) (reading : Result (List Move) ScriptFault) (found : Found) (vault : List ℕ)
        → vault_word (map string_bytes words.now) ≡ Some vault → OtherVault vault files others
        → releases (map string_bytes words.now) others reading found
        ≡ releases (map string_bytes words.now) files reading found
        → SameOutcome (answer (map string_bytes words.now) others reading found)
        (answer (map string_bytes words.now) files reading found) }
    // From agreeing states, and with equal releases, every list of moves tells the same and leaves agreeing states.
    ensures lists { (set : ModuleSet) (s t : State) (moves : List Move) → Agree s t
        → (plays set s moves).releases ≡ (plays set t moves).releases
        → seen_run (plays set s moves) ≡ seen_run (plays set t moves) }
    // Without trusted functions nothing is released.
    ensures untrusted { (files : Files) (reading : Result (List Move) ScriptFault) (found : Found) (e : Execution)
        → AreOctets files → FindsMarks (command_of (map string_bytes words.now)) files found → (answer (map string_bytes words.now) files reading found).execution ≡ Some e → All HasBytes e.moves
        → AllUntrusted (set_instances e.set) → (plays e.set e.state e.moves).releases ≡ [] }
    // Modules that are inferred without trust have no trusted function. So where the parts that are executed are such
    // ones, the answer keeps every secret, as `hidden` says, for every two vaults of one length.
    ensures placed { (set : ModuleSet) → All (λ p. IsPlacedUntrusted p.tree) set → AllUntrusted (set_instances set) }
    ensures keeps { (files others : Files) (reading : Result (List Move) ScriptFault) (found : Found) (vault : List ℕ)
        → AreOctets files → AreOctets others
        → vault_word (map string_bytes words.now) ≡ Some vault → OtherVault vault files others
        → ExecutesUntrusted (answer (map string_bytes words.now) files reading found).execution
        → ExecutesUntrusted (answer (map string_bytes words.now) others reading found).execution
        → SameOutcome (answer (map string_bytes words.now) others reading found)
        (answer (map string_bytes words.now) files reading found) }
    // What is executed does the same when it is stripped.
    ensures stripped { (files : Files) (reading : Result (List Move) ScriptFault) (found : Found) (e : Execution)
        → AreOctets files → FindsMarks (command_of (map string_bytes words.now)) files found → (answer (map string_bytes words.now) files reading found).execution ≡ Some e → All HasBytes e.moves
        → RunsStripped e }

    // Told or not: wrong words are a wrong use, which reads no file.
    ensures no_form { (files : Files) → command_of (map string_bytes words.now) ≡ None
        → Did result (ends Usage usage_text) files files (K.taken out.old) (K.taken out.new) }

    // Told or not: no other words are one, and each fault has its cause. Words that load no file, as those in which VAULT
    // or SEALED names another file of theirs, meet no fault of reading.
    ensures causes { HasCauses (command_of (map string_bytes words.now)) result (F.faults shelf.old) (F.faults shelf.new)
        (K.faults out.old) (K.faults out.new) (K.taken out.old) (K.taken out.new) }
{
    dispatch(alloc, words, shelf, out)
}
