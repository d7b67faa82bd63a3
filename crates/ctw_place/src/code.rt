//! Appending what the code of a body becomes under labels. Where memory runs out, some bytes may be there.
ghost use Rattle.std.specs.Prelude.{◌≡◌, ◌<◌, ◌+◌, ◌^◌, ◌++◌, List, length, OnOk, IfOk};
ghost use Rattle.ctw_ops.specs.declared.types.Label.{Label};
ghost use Rattle.ctw_ops.specs.Code.{Code};
ghost use Rattle.ctw_flat.specs.Spelled.{IsBody};
ghost use Rattle.ctw_labels.specs.Placed.{TypeUse, with_uses};
ghost use Rattle.ctw_labels.specs.Sited.{placed_code};
ghost use Rattle.ctw_sites.specs.Bodies.{code_sites, IsReady};
ghost use Rattle.ctw_write.specs.Canon.{body_text};
ghost use Rattle.ctw_place.specs.Variants.{name_in, Holds};
ghost use Rattle.ctw_place.specs.Settings.{module_of, labels_of, points_of};
ghost use Rattle.ctw_place.specs.Codes.{uses_in};
ghost use Rattle.ctw_place.specs.Walks.{place_under, scope_under, sited_body};

use crate::lift::{Lift, put_lift};
use crate::op::put_op;
use crate::pass::pass;
use crate::setting::Setting;
use crate::variants::Variants;
use ctw_flat::{Body, Walk};
use ctw_labels::Tag;
use ctw_sites::around::Around;
use ctw_stack::Stack;
use std::alloc::{AllocError, Global};

/// What a body becomes, with the closing end; `n` is the site of its first opcode, and the answer that behind its last.
/// `stack` and `ends` are memory that is used again.
pub fn put_code(
    alloc: Global,
    setting: &Setting,
    around: &Around,
    stack: &mut Stack<Tag>,
    ends: &mut Vec<Option<Lift>>,
    variants: &mut Variants,
    out: &mut Vec<u8>,
    body: &Body,
    n: u32,
) -> Result<u32, AllocError>
    requires whole { around.now.whole.now ≡ setting.now.whole.now }
    requires code { (code : Code Label) × IsBody body.now code
        × IsReady (place_under (points_of setting.now) around.now) (scope_under (points_of setting.now) around.now) code n }
    requires few { (vs : List (TypeUse Label)) × Holds variants.old vs × ((code : Code Label) → IsBody body.now code
        → length (module_of setting.now).types + length (with_uses vs (uses_in setting.now around.now code n)) + 1 < 2 ^ 32) }
    ensures held { (vs : List (TypeUse Label)) → (code : Code Label) → Holds variants.old vs → IsBody body.now code
        → OnOk result (Holds variants.new (with_uses vs (uses_in setting.now around.now code n))) }
    ensures put { (vs later : List (TypeUse Label)) → (code : Code Label) → Holds variants.old vs → IsBody body.now code
        → OnOk result (out.new.items ≡ out.old.items ++ body_text (placed_code (labels_of setting.now)
        (name_in (length (module_of setting.now).types) (with_uses (with_uses vs (uses_in setting.now around.now code n)) later))
        (sited_body (points_of setting.now) around.now code n))) }
    ensures next { (code : Code Label) → IsBody body.now code → IfOk result (λ k. k ≡ n + length
        (code_sites (place_under (points_of setting.now) around.now) (scope_under (points_of setting.now) around.now) code n)) }
{
    stack.clear();
    ends.clear();
    stack.enter(false, around.result())?;
    ends.push(None)?;
    let mut walk = Walk::new(body);
    let mut site = n;
    let mut at: u32 = 0;
    'opcodes: while !walk.is_done() {
        let instr = match walk.next() {
            Ok(instr) => instr,
            Err(_) => unreachable!(),
        };
        put_op(alloc, setting, variants, out, &instr, site)?;
        let (behind, lift) = pass(around, setting.points, stack, ends, &instr, site, at)?;
        put_lift(out, &setting.labels, lift)?;
        site = behind;
        at += 1;
    }
    Ok(site)
}
