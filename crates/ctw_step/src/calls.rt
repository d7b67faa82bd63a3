//! Calls.
ghost use Rattle.std.specs.Prelude.{◌≡◌, ◌≤◌, ◌<◌, ◌+◌, ◌-◌, ◌++◌, ◌∷◌, [], ℕ, List, length, replicate, MatchResult, IfErr};
ghost use Rattle.ctw_flat.specs.declared.instr.Instr.TheVariants as instr;
ghost use Rattle.ctw_semantics.specs.Stores.{Storage};
ghost use Rattle.ctw_step.specs.Shown.{shown};
ghost use Rattle.ctw_step.specs.Told.{Does, Runs};
ghost use Rattle.ctw_step.specs.Calls.{Calls, with_frame};

use crate::running::{Caller, Opened, Running, Stepped};
use ctw_script::Event;
use std::alloc::AllocError;

/// What a call has to know of the function that it calls.
#[derive(Clone, Copy, Debug, PartialEq, Eq)]
pub struct Callee {
    /// Its number in the store.
    pub func: u32,
    /// How many parameters it has.
    pub params: usize,
    /// How many locals it declares.
    pub declared: u32,
    /// Whether it has a result.
    pub has_result: bool,
}

/// Puts arguments and zeros upon the locals. An error leaves them as they were.
fn fill_locals(locals: &mut Vec<u64>, args: &[u64], declared: u32) -> Result<(), AllocError>
    ensures { MatchResult result (λ _. locals.new.items ≡ locals.old.items ++ (args.now ++ replicate declared 0))
        (λ _. locals.new.items ≡ locals.old.items) }
{
    let before = locals.len();
    locals.extend_from_slice(args)?;
    let filled = locals.len();
    if locals.resize(filled + declared as usize, 0).is_err() {
        locals.truncate(before);
        return Err(AllocError);
    }
    Ok(())
}

/// Enters a function: its arguments move from operands to locals, and `extra` operands above them are dropped. An error
/// leaves all as it was.
pub fn enter_frame(
    act: &mut Running,
    callee: Callee,
    extra: usize,
    next: usize,
) -> Result<(), AllocError>
    requires { callee.params + extra ≤ length act.old.operands.items }
    ensures { MatchResult result
        (λ _. (front args more : List ℕ) → act.old.operands.items ≡ front ++ (args ++ more)
        → length args ≡ callee.params → length more ≡ extra
        → shown act.new ≡ with_frame (shown act.old) front args callee next)
        (λ _. shown act.new ≡ shown act.old) }
{
    let end = act.operands.len() - extra;
    let height = end - callee.params;
    let frame = Caller {
        func: callee.func,
        back: next,
        locals: act.locals.len(),
        labels: act.labels.len(),
    };
    act.labels.reserve(1)?;
    act.frames.reserve(1)?;
    fill_locals(&mut act.locals, &act.operands[height..end], callee.declared)?;
    act.labels.push_reserved(Opened {
        height,
        after: 0,
        start: 0,
        has_result: callee.has_result,
        is_loop: false,
    });
    act.frames.push_reserved(frame);
    act.operands.truncate(height);
    act.at = 0;
    Ok(())
}

/// `call`
pub fn call(act: &mut Running, callee: Callee, next: usize) -> Result<Stepped, AllocError>
    requires { (index : ℕ) × (code : List ℕ) × (s : Storage)
        × Runs (Calls index callee) code (shown act.old) (instr.Call index) next s }
    ensures does { (index : ℕ) (code : List ℕ) (s : Storage)
        → Does (Calls index callee) code (shown act.old) (instr.Call index) next s result (shown act.new) s }
    ensures kept { IfErr result (λ _. shown act.new ≡ shown act.old) }
{
    enter_frame(act, callee, 0, next)?;
    Ok(Stepped::Went {
        event: Some(Event::Enter { func: callee.func }),
    })
}
