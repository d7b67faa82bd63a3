//! Changes of a label, which cost nothing.
ghost use Rattle.std.specs.Prelude.{◌≡◌, ◌≤◌, ◌<◌, ℕ, Ok, length};
ghost use Rattle.ctw_flat.specs.Instructions.{op_of, IsExactly};
ghost use Rattle.ctw_flat.specs.Places.{instr_in};
ghost use Rattle.ctw_step.specs.Changes.{is_change as changes};
ghost use Rattle.ctw_step.specs.Reducing.{IsCounted};
ghost use Rattle.ctw_step.specs.Stepping.{FreeBy, HasInstr};

use ctw_flat::{Body, Instr};

/// Whether an instruction changes a label.
fn is_change(instr: &Instr) -> bool
    ensures { result ≡ changes (op_of instr.now) }
{
    matches!(instr, Instr::Classify { .. } | Instr::Declassify { .. })
}

/// The instruction at a place, and the place behind it.
fn read<'a>(body: &Body<'a>, at: usize) -> (Instr<'a>, usize)
    requires { HasInstr body.now at }
    ensures reads { instr_in body.now at ≡ Ok (op_of result.0, result.1) }
    ensures exactly { IsExactly result.0 }
    ensures behind { at < result.1 }
    ensures inside { result.1 ≤ length body.now }
{
    match body.instr_at(at) {
        Ok(found) => found,
        Err(_) => unreachable!(),
    }
}

/// The first counted instruction from a place on: its place, the instruction, and the place behind it.
pub fn next_counted<'a>(body: &Body<'a>, start: usize) -> (usize, Instr<'a>, usize)
    requires { (n place : ℕ) → FreeBy body.now n start place → HasInstr body.now place }
    ensures free { (n : ℕ) × FreeBy body.now n start result.0 }
    ensures reads { instr_in body.now result.0 ≡ Ok (op_of result.1, result.2) }
    ensures exactly { IsExactly result.1 }
    ensures counted { IsCounted result.1 }
{
    let mut at = start;
    let (mut instr, mut next) = read(body, at);
    'free: while is_change(&instr) {
        at = next;
        (instr, next) = read(body, at);
    }
    (at, instr, next)
}
