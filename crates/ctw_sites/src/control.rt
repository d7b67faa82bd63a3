ghost use Rattle.std.specs.Prelude.{◌≡◌, false, ◌∷◌, ◌+◌, ◌<◌, ◌-◌, ◌^◌, length, OnOk};
ghost use Rattle.ctw_labels.specs.Collected.{handed_on, HasSmallResult, IsSmallTag};
ghost use Rattle.ctw_labels.specs.Numbering.{block_sites, result_from};
ghost use Rattle.ctw_stack.specs.Opens.{opened, slot_count};
ghost use Rattle.ctw_sites.specs.Controls.{parted, next_tag};
ghost use Rattle.ctw_sites.specs.Packed.{after};
ghost use Rattle.ctw_sites.specs.Rows.{rest_of};
ghost use Rattle.ctw_sites.specs.Stacks.{on_innermost};

use crate::packer::Packer;
use ctw_labels::{SiteName, Tag};
use ctw_ops::ValType;
use ctw_stack::{Slot, Stack};
use std::alloc::AllocError;

/// Opens a block, and adds the sites of its result and of the push of that.
pub fn open_block(
    stack: &mut Stack<Tag>,
    packer: &mut Packer,
    f: u32,
    at: u32,
    loops: bool,
    yields: Option<ValType>,
) -> Result<(), AllocError>
    requires { packer.old.count + length (block_sites f at packer.old.count yields) < 2 ^ 32 }
    ensures stack { OnOk result (stack.new ≡ opened loops (result_from packer.old.count yields) ∷ stack.old) }
    ensures sites { OnOk result (packer.new ≡ after packer.old (block_sites f at packer.old.count yields)) }
{
    let site = packer.count;
    match yields {
        Some(t) => {
            packer.push(SiteName::Block { f, at }, None)?;
            packer.push(SiteName::Push { f, at }, Some(site))?;
            stack.enter(loops, Some((t.width, Tag::At { site })))
        }
        None => stack.enter(loops, None),
    }
}

/// Closes a then arm at its `else`, and opens the other arm.
pub fn pass_else(stack: &mut Stack<Tag>) -> Result<(), AllocError>
    ensures { OnOk result (stack.new ≡ parted stack.old) }
{
    let Some((loops, yields)) = stack.innermost() else {
        return Ok(());
    };
    stack.leave();
    stack.enter(loops, yields)
}

/// The tag of the push of a block's result.
fn next(tag: Tag) -> Tag
    requires { IsSmallTag tag }
    ensures { result ≡ next_tag tag }
{
    match tag {
        Tag::At { site } => Tag::At { site: site + 1 },
        Tag::Fixed => Tag::Fixed,
    }
}

/// Closes the innermost block at its `end`; its result goes to the block around it.
pub fn pass_end(stack: &mut Stack<Tag>) -> Result<(), AllocError>
    requires few { slot_count stack.old < 2 ^ 32 - 1 }
    requires small { HasSmallResult stack.old }
    ensures { OnOk result (stack.new ≡ handed_on stack.old) }
{
    let Some((_, yields)) = stack.innermost() else {
        return Ok(());
    };
    stack.leave();
    if stack.innermost().is_none() {
        return Ok(());
    }
    match yields {
        Some((width, tag)) => stack.push(Slot::Known {
            width,
            tag: next(tag),
        }),
        None => Ok(()),
    }
}

/// Takes a condition, and opens the then arm of an `if`.
pub fn open_if(
    stack: &mut Stack<Tag>,
    packer: &mut Packer,
    f: u32,
    at: u32,
    yields: Option<ValType>,
) -> Result<(), AllocError>
    requires open { 0 < length stack.old }
    requires room { packer.old.count + length (block_sites f at packer.old.count yields) < 2 ^ 32 }
    ensures stack { OnOk result (stack.new
        ≡ opened false (result_from packer.old.count yields) ∷ on_innermost rest_of stack.old) }
    ensures sites { OnOk result (packer.new ≡ after packer.old (block_sites f at packer.old.count yields)) }
{
    let _ = stack.pop();
    open_block(stack, packer, f, at, false, yields)
}
