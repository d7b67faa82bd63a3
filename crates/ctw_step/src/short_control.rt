//! Common short control instructions, taken where they stand.
ghost use Rattle.std.specs.Prelude.{◌≡◌, ◌<◌, ◌^◌, ◌∷◌, true, ℕ, List, None, IfSome, drop, length};
ghost use Rattle.ctw_flat.specs.Positions.{TellsEnds};
ghost use Rattle.ctw_flat.specs.Blocks.{ends_in};
ghost use Rattle.ctw_step.specs.Shown.{shown};
ghost use Rattle.ctw_step.specs.Short.{CanTake, Taken};

use crate::control::{
    branch_always, branch_if, end_arm, end_label, enter_block, enter_if, enter_loop, return_now,
};
use crate::running::{Running, Stepped};
use crate::short::short_index;
use ctw_flat::{BlockMap, Body};

/// Whether the byte stands in front that gives a block no result.
#[inline(always)]
fn has_no_result(tail: &[u8]) -> bool
    ensures { result ≡ true → (rest : List ℕ) × (tail.now ≡ 0x40 ∷ rest) }
{
    match tail {
        [byte, ..] => *byte == 0x40,
        [] => false,
    }
}

/// The instruction of an opcode, if it is such a one and memory isn't wanting; the bytes behind the opcode are these.
#[inline(always)]
fn take_form(
    act: &mut Running,
    body: &Body,
    blocks: &BlockMap,
    byte: u8,
    tail: &[u8],
) -> Option<Stepped>
    requires small { act.old.at < 2 ^ 32 }
    requires ends { TellsEnds body.now (ends_in blocks.now) }
    requires here { drop act.old.at body.now ≡ byte ∷ tail.now }
    requires runs { CanTake body.now (shown act.old) }
    ensures taken { IfSome result (λ r. Taken body.now (shown act.old) r (shown act.new)) }
    ensures kept { result ≡ None → shown act.new ≡ shown act.old }
{
    let at = act.at;
    match byte {
        0x02 if has_no_result(tail) => match enter_block(body, blocks, act, None, at + 2) {
            Ok(told) => Some(told),
            Err(_) => None,
        },
        0x03 if has_no_result(tail) => match enter_loop(body, blocks, act, None, at + 2) {
            Ok(told) => Some(told),
            Err(_) => None,
        },
        0x04 if has_no_result(tail) => match enter_if(body, blocks, act, None, at + 2) {
            Ok(told) => Some(told),
            Err(_) => None,
        },
        0x05 => Some(end_arm(act, at + 1)),
        0x0B => Some(end_label(act, at + 1)),
        0x0C => match short_index(tail) {
            Some(depth) => Some(branch_always(act, depth, at + 2)),
            None => None,
        },
        0x0D => match short_index(tail) {
            Some(depth) => Some(branch_if(act, depth, at + 2)),
            None => None,
        },
        0x0F => Some(return_now(act, at + 1)),
        _ => None,
    }
}

/// The instruction at the place, if it is such a one and memory isn't wanting.
#[inline(always)]
pub fn take_control(act: &mut Running, body: &Body, blocks: &BlockMap) -> Option<Stepped>
    requires inside { act.old.at < length body.now }
    requires ends { TellsEnds body.now (ends_in blocks.now) }
    requires runs { CanTake body.now (shown act.old) }
    ensures taken { IfSome result (λ r. Taken body.now (shown act.old) r (shown act.new)) }
    ensures kept { result ≡ None → shown act.new ≡ shown act.old }
{
    match &body.code()[act.at..] {
        [byte, tail @ ..] => take_form(act, body, blocks, *byte, tail),
        [] => None,
    }
}
