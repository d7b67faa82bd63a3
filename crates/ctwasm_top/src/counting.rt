//! What `work` counts: secret sites, classify instructions, and the steps and events of moves.
ghost use Rattle.std.specs.Prelude.{◌≡◌, ◌≤◌, ◌∷◌, [], length, IfOk};
ghost use Rattle.std.specs.List.{count_by};
ghost use Rattle.ctw_ops.specs.declared.types.Label.{Label as ALabel};
ghost use Rattle.ctw_ops.specs.Code.{Code, opcodes};
ghost use Rattle.ctw_flat.specs.Spelled.{IsBody};
ghost use Rattle.ctw_flat.specs.Instructions.{op_of};
ghost use Rattle.ctw_link.specs.Sets.{set_of};
ghost use Rattle.ctw_module.specs.Trees.{view_module};
ghost use Rattle.ctw_moves.specs.States.{State};
ghost use Rattle.ctw_moves.specs.Runs.{plays};
ghost use Rattle.ctw_session.specs.LiveStates.{StandsFor};
ghost use Rattle.ctwasm_top.specs.Works.{is_secret, secrets, is_classify, classifies, steps_in, all_steps, all_events};

use ctw_flat::{Body, Instr, Walk};
use ctw_module::Module;
use ctw_ops::{ExternTag, Label};
use ctw_script::{Move, Reply};
use ctw_session::Session;
use ctw_sites::Labelling;
use std::alloc::{AllocError, Global};

fn is_secret(label: Label) -> bool
    ensures { result ≡ is_secret label }
{
    match label {
        Label::Public => false,
        Label::Secret => true,
    }
}

/// How many of the first `count` sites are secret, which are all that the labelling has.
pub fn count_secrets(labels: &Labelling, count: u32) -> u32
    requires { count ≡ length labels.now }
    ensures { result ≡ secrets labels.now }
{
    let mut secret: u32 = 0;
    'sites: for site in 0..count {
        secret += u32::from(is_secret(labels.at(site)));
    }
    secret
}

fn is_classify(instr: &Instr) -> bool
    ensures { result ≡ is_classify (op_of instr.now) }
{
    match *instr {
        Instr::Classify { .. } => true,
        _ => false,
    }
}

/// How many classify instructions a body has.
fn classifies_in(body: &Body) -> u32
    requires { (code : Code ALabel) × IsBody body.now code }
    ensures { (code : Code ALabel) → IsBody body.now code → result ≡ count_by is_classify (opcodes code) }
{
    let mut count: u32 = 0;
    let mut walk = Walk::new(body);
    'opcodes: while !walk.is_done() {
        match walk.next() {
            Ok(instr) => count += u32::from(is_classify(&instr)),
            Err(_) => unreachable!(),
        }
    }
    count
}

/// How many classify instructions a module has.
pub fn count_classifies(m: &Module) -> u64
    ensures { result ≡ classifies (view_module m.now) }
{
    let mut count: u64 = 0;
    let imported = m.imported_count(ExternTag::Func);
    'functions: for i in 0..m.func_count() - imported {
        let Some(body) = m.body(imported + i) else {
            unreachable!();
        };
        count += u64::from(classifies_in(&body));
    }
    count
}

/// The steps that a reply tells; only those of turns tell any.
fn steps_in(reply: &Reply) -> u32
    ensures { result ≡ steps_in reply.now }
{
    match reply {
        Reply::More { steps } => *steps,
        Reply::Done { steps, .. } => *steps,
        Reply::Trap { steps, .. } => *steps,
        _ => 0,
    }
}

/// How many steps and events moves told.
#[derive(Clone, Copy)]
pub struct Tally {
    /// The steps.
    pub steps: u64,
    /// The events.
    pub events: usize,
}

/// Makes two moves of a session, and counts the steps and events that they tell. The error is want of memory.
pub fn tally_two(
    alloc: Global,
    session: &mut Session,
    first: &Move,
    second: &Move,
) -> Result<Tally, AllocError>
    ensures steps { (s : State) → StandsFor session.old s → IfOk result (λ t. t.steps
        ≡ all_steps (plays (set_of session.old.set) s (first.now ∷ second.now ∷ [])).told) }
    ensures events { (s : State) → StandsFor session.old s → IfOk result (λ t. t.events
        ≡ all_events (plays (set_of session.old.set) s (first.now ∷ second.now ∷ [])).told) }
{
    let mut events = Vec::new(alloc);
    let Ok(one) = session.act(first, &mut events) else {
        return Err(AllocError);
    };
    let Ok(other) = session.act(second, &mut events) else {
        return Err(AllocError);
    };
    Ok(Tally {
        steps: u64::from(steps_in(&one)) + u64::from(steps_in(&other)),
        events: events.len(),
    })
}
