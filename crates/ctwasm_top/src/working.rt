//! The command `work`: a workload is labelled by its marks, and the placed module is run.
ghost use Rattle.std.specs.Prelude.{◌≡◌, ◌≢◌, ◌≤◌, ◌<◌, ◌^◌, ◌++◌, ◌∷◌, [], false, List, length, Err, IfOk, OnOk, decimal};
ghost use Rattle.ctw_ops.specs.declared.types.Label.{Label};
ghost use Rattle.ctw_ops.specs.Tree.{Module as Tree, under};
ghost use Rattle.ctw_ops.specs.Valid.{IsValid};
ghost use Rattle.ctw_form.specs.Spelled.{Spells};
ghost use Rattle.ctw_module.specs.Trees.{view_module};
ghost use Rattle.ctw_script.specs.Lines.{blank_before_each};
ghost use Rattle.ctw_place.specs.Limits.{most_ct_bytes};
ghost use Rattle.ctw_link.specs.Sets.{set_of};
ghost use Rattle.ctw_link.specs.Matching.{AreMatching};
ghost use Rattle.ctw_moves.specs.States.{State};
ghost use Rattle.ctw_moves.specs.Runs.{plays};
ghost use Rattle.ctw_session.specs.LiveStates.{StandsFor};
ghost use Rattle.ctw_gen.specs.Workload.{moves};
ghost use Rattle.ctw_io.specs.Files.{Files};
ghost use Rattle.ctw_io.specs.Faults.{Rose};
ghost use Rattle.ctw_inputs.specs.declared.said.Status.TheVariants.{Usage, ReadFault, WriteFault, SaveFault};
ghost use Rattle.ctw_inputs.specs.declared.said.Stop.TheVariants as stop;
ghost use Rattle.ctwasm_top.specs.Works.{work_line, alone, secrets, all_steps, all_events, worked};
ghost use Rattle.ctwasm_top.specs.WorkSteps.{PlacesWork, TellsLine, TellsWork, DidWork};

use crate::counting::{count_classifies, count_secrets, tally_two};
use crate::inferring::label_by;
use crate::running::call_moves;
use crate::saying::{say, settle};
use crate::sessions::launch_set;
use ctw_gen::{Workload, generate};
use ctw_inputs::{LoadedPart, PartFile, Status, Stop, link_parts, read_valid};
use ctw_io::Sink;
use ctw_lines::add_word;
use ctw_module::Module;
use ctw_ops::Profile;
use ctw_place::place;
use ctw_script::Arg;
use ctw_session::Session;
use itoa::Buffer;
use std::alloc::{AllocError, Global};

/// What the line of `work` tells.
#[derive(Clone, Copy)]
struct Summary {
    sites: u32,
    secret: u32,
    classify: u64,
    steps: u64,
    events: usize,
}

/// Adds a word and a count.
fn add_count(line: &mut Vec<u8>, word: &[u8], count: u64) -> Result<(), AllocError>
    ensures { OnOk result (line.new.items ≡ line.old.items ++ blank_before_each (word.now ∷ decimal count ∷ [])) }
{
    let mut buffer = Buffer::new();
    add_word(line, word)?;
    add_word(line, buffer.format(count).as_bytes())
}

/// The line of `work`.
fn summary_line(alloc: Global, s: Summary) -> Result<Vec<u8>, AllocError>
    ensures { IfOk result (λ line. line.items ≡ work_line s.sites s.secret s.classify s.steps s.events) }
{
    let mut line = Vec::from_slice(alloc, b"labelled")?;
    add_count(&mut line, b"sites", u64::from(s.sites))?;
    add_count(&mut line, b"secret", u64::from(s.secret))?;
    add_count(&mut line, b"classify", s.classify)?;
    add_count(&mut line, b"steps", s.steps)?;
    add_count(&mut line, b"events", s.events as u64)?;
    line.push(b'\n')?;
    Ok(line)
}

/// A placed module, with how many sites its labelling has, and how many of them are secret.
#[derive(Drop)]
struct PlacedWork {
    bytes: Vec<u8>,
    sites: u32,
    secret: u32,
}

/// Labels a valid module by a text of marks, and places it.
fn place_module(alloc: Global, m: &Module, text: &str) -> Result<PlacedWork, Stop>
    requires valid { IsValid (view_module m.now) }
    requires short { length text.now < 2 ^ 32 }
    ensures told { (view_module m.now).ct ≡ false → PlacesWork (view_module m.now) text.now result }
    ensures within { IfOk result (λ p. length p.bytes.items ≤ most_ct_bytes) }
    ensures quiet { result ≢ Err stop.ReadFault }
{
    let labelled = match label_by(alloc, m, text) {
        Ok(labelled) => labelled,
        Err(stop) => return Err(stop),
    };
    let sites = labelled.sites.count();
    let secret = count_secrets(&labelled.labels, sites);
    let bytes = place(
        alloc,
        m,
        &labelled.sites,
        labelled.marks.points(),
        &labelled.labels,
    )?;
    Ok(PlacedWork {
        bytes,
        sites,
        secret,
    })
}

/// Labels the module that bytes spell by a text of marks, and places it.
fn place_work(alloc: Global, profile: Profile, bytes: &[u8], text: &str) -> Result<PlacedWork, Stop>
    requires bytes { length bytes.now < 2 ^ 32 }
    requires text { length text.now < 2 ^ 32 }
    ensures told { (m : Tree Label) → Spells bytes.now m → m.ct ≡ false → IsValid (under profile m)
        → PlacesWork (under profile m) text.now result }
    ensures within { IfOk result (λ p. length p.bytes.items ≤ most_ct_bytes) }
    ensures quiet { result ≢ Err stop.ReadFault }
{
    match read_valid(alloc, profile, "m", bytes) {
        Ok(module) => place_module(alloc, &module, text),
        Err(stop) => Err(stop),
    }
}

/// How many sites a labelling has and how many of them are secret, and how many classify instructions.
#[derive(Clone, Copy)]
struct Labels {
    sites: u32,
    secret: u32,
    classify: u64,
}

/// Makes the moves of a workload in a session of the part `m`, and sums up. The error is want of memory.
fn sum_up(alloc: Global, session: &mut Session, l: Labels) -> Result<Vec<u8>, AllocError>
    ensures { (s : State) → StandsFor session.old s → IfOk result (λ line. line.items
        ≡ work_line l.sites l.secret l.classify (all_steps (plays (set_of session.old.set) s moves).told)
        (all_events (plays (set_of session.old.set) s moves).told)) }
{
    let mut arguments = Vec::new(alloc);
    arguments.push(Arg::Vault)?;
    let moves = call_moves(alloc, "main", arguments)?;
    let tally = tally_two(alloc, session, &moves.begin, &moves.turn)?;
    let summary = Summary {
        sites: l.sites,
        secret: l.secret,
        classify: l.classify,
        steps: tally.steps,
        events: tally.events,
    };
    summary_line(alloc, summary)
}

/// Links and launches a placed module as the part `m`, makes the moves of a workload, and sums up.
fn run_work(
    alloc: Global,
    profile: Profile,
    placed: PlacedWork,
    vault: Vec<u8>,
) -> Result<Vec<u8>, Stop>
    requires { length placed.bytes.items ≤ most_ct_bytes }
    ensures told { (labels : List Label) (t : Tree Label) → Spells placed.bytes.items t → IsValid (under profile t)
        → AreMatching (alone (under profile t)) → placed.sites ≡ length labels → placed.secret ≡ secrets labels
        → TellsLine result (worked vault.items labels (under profile t)) }
    ensures quiet { result ≢ Err stop.ReadFault }
{
    let parts = [LoadedPart {
        part: PartFile {
            name: "m",
            file: "m",
        },
        bytes: placed.bytes,
    }];
    let set = match link_parts(alloc, profile, &parts) {
        Ok(set) => set,
        Err(stop) => return Err(stop),
    };
    let labels = Labels {
        sites: placed.sites,
        secret: placed.secret,
        classify: count_classifies(&set.parts()[0].module),
    };
    let mut session = match launch_set(alloc, &parts, set, vault) {
        Ok(session) => session,
        Err(stop) => return Err(stop),
    };
    match sum_up(alloc, &mut session, labels) {
        Ok(line) => Ok(line),
        Err(_) => Err(Stop::NoMemory),
    }
}

/// The line of `work SEED SIZE`, or what is said in its place.
fn work_text(alloc: Global, profile: Profile, seed: u32, size: u32) -> Result<Vec<u8>, Stop>
    requires seed { seed < 2 ^ 31 }
    requires size { size ≤ 20000 }
    ensures told { TellsWork profile seed size result }
    ensures quiet { result ≢ Err stop.ReadFault }
{
    let Workload {
        module,
        marks,
        vault,
        ..
    } = generate(alloc, seed, size)?;
    let placed = match place_work(alloc, profile, module.as_slice(), marks.as_str()) {
        Ok(placed) => placed,
        Err(stop) => return Err(stop),
    };
    let vault = Vec::from_slice(alloc, vault.as_slice())?;
    run_work(alloc, profile, placed, vault)
}

/// `work SEED SIZE`: makes the workload of the seed and the size, infers the labels of its module by its marks, places
/// them, links and launches the placed module as the part `m`, makes the moves of the workload, and sums up in a line.
pub fn work<K: Sink>(alloc: Global, profile: Profile, seed: u32, size: u32, out: &mut K) -> Status
    requires seed { seed < 2 ^ 31 }
    requires size { size ≤ 20000 }
    ensures did { (files : Files) → DidWork profile seed size result files (K.taken out.old) (K.taken out.new) }
    ensures write { result ≡ WriteFault → Rose (K.faults out.old) (K.faults out.new) }
    ensures quiet { (result ≢ ReadFault) × (result ≢ SaveFault) × (result ≢ Usage) }
{
    match work_text(alloc, profile, seed, size) {
        Ok(line) => say(out, &line, Status::Done),
        Err(stop) => settle(out, Err(stop)),
    }
}
