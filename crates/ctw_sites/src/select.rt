ghost use Rattle.std.specs.Prelude.{◌≡◌, ◌+◌, ◌<◌, ◌-◌, ◌^◌, Some, length, OnOk};
ghost use Rattle.ctw_stack.specs.Opens.{slot_count};
ghost use Rattle.ctw_stack.specs.Operands.{push as put_on};
ghost use Rattle.ctw_labels.specs.declared.name.SiteName.TheVariants.{Push};
ghost use Rattle.ctw_sites.specs.Leaves.{top_width, chosen_width, chosen_slot, chosen_push, either as one_of, selected};
ghost use Rattle.ctw_sites.specs.Packed.{after};
ghost use Rattle.ctw_sites.specs.Rows.{rest_of};
ghost use Rattle.ctw_sites.specs.Stacks.{on_innermost, of_innermost};

use crate::packer::Packer;
use ctw_labels::{SiteName, Tag};
use ctw_ops::Width;
use ctw_stack::{Slot, Stack};
use std::alloc::AllocError;

/// Takes the last operand off, and says its width where that is known.
fn pop_width(stack: &mut Stack<Tag>) -> Option<Width>
    requires { 0 < length stack.old }
    ensures width { result ≡ of_innermost top_width stack.old }
    ensures stack { stack.new ≡ on_innermost rest_of stack.old }
{
    match stack.pop() {
        Ok(Slot::Known { width, .. }) => Some(width),
        Ok(Slot::Wide { .. }) => None,
        Ok(Slot::Unknown) => None,
        Err(_) => None,
    }
}

/// The first width that is known.
pub fn either(a: Option<Width>, b: Option<Width>) -> Option<Width>
    ensures { result ≡ one_of a b }
{
    match a {
        Some(width) => Some(width),
        None => b,
    }
}

/// Puts on what a `select` gives whose own site is `n` and was added last, by the width that its operands have.
pub fn put_chosen(
    stack: &mut Stack<Tag>,
    packer: &mut Packer,
    f: u32,
    at: u32,
    n: u32,
    width: Option<Width>,
) -> Result<(), AllocError>
    requires open { 0 < length stack.old }
    requires few { slot_count stack.old < 2 ^ 32 - 1 }
    requires room { packer.old.count + length (chosen_push n (Push f at) width) < 2 ^ 32 }
    requires own { packer.old.count ≡ n + 1 }
    ensures stack { OnOk result (stack.new ≡ on_innermost (put_on (chosen_slot n width)) stack.old) }
    ensures sites { OnOk result (packer.new ≡ after packer.old (chosen_push n (Push f at) width)) }
{
    match width {
        Some(width) => {
            let site = packer.count;
            packer.push(SiteName::Push { f, at }, Some(n))?;
            stack.push(Slot::Known {
                width,
                tag: Tag::At { site },
            })
        }
        None => stack.push(Slot::Wide {
            tag: Tag::At { site: n },
        }),
    }
}

/// Takes the operands of a `select` off, whose own site was added last, and puts what it gives on.
pub fn select(
    stack: &mut Stack<Tag>,
    packer: &mut Packer,
    f: u32,
    at: u32,
    n: u32,
) -> Result<(), AllocError>
    requires open { 0 < length stack.old }
    requires few { slot_count stack.old < 2 ^ 32 - 1 }
    requires room { packer.old.count
        + length (chosen_push n (Push f at) (of_innermost chosen_width stack.old)) < 2 ^ 32 }
    requires own { packer.old.count ≡ n + 1 }
    ensures stack { OnOk result (stack.new ≡ on_innermost (selected n) stack.old) }
    ensures sites { OnOk result (packer.new
        ≡ after packer.old (chosen_push n (Push f at) (of_innermost chosen_width stack.old))) }
{
    let _ = pop_width(stack);
    let a = pop_width(stack);
    let b = pop_width(stack);
    put_chosen(stack, packer, f, at, n, either(a, b))
}
