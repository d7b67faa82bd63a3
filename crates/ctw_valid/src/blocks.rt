ghost use Rattle.std.specs.Prelude.{◌≡◌, ◌<◌, ◌≤◌, ◌+◌, ◌-◌, ◌^◌, length, OnOk};
ghost use Rattle.ctw_stack.specs.Opens.{slot_count};
ghost use Rattle.ctw_valid.specs.declared.fault.BodyFault.TheVariants.{WrongType};
ghost use Rattle.ctw_valid.specs.OnStack.{Follows};
ghost use Rattle.ctw_valid.specs.Blocks.{ended, parted};

use crate::fault::BodyFault;
use crate::operands::{expect, put};
use ctw_ops::{Label, ValType};
use ctw_stack::{Slot, Stack};

/// Closes the innermost block at its `end`; its result goes to the block around it.
pub fn end(stack: &mut Stack<Label>, arm: bool, at: u32) -> Result<(), BodyFault>
    requires { slot_count stack.old < 2 ^ 32 - 1 }
    ensures step { Follows result (ended arm stack.old) stack.new (WrongType at) }
    ensures blocks { OnOk result (length stack.new + 1 ≡ length stack.old) }
    ensures slots { OnOk result (slot_count stack.new ≤ slot_count stack.old + 1) }
{
    let (_, yields) = match stack.innermost() {
        Some(block) => block,
        None => return Err(BodyFault::WrongType { at }),
    };
    if arm && yields.is_some() {
        return Err(BodyFault::WrongType { at });
    }
    if let Some((width, label)) = yields {
        expect(stack, ValType { width, label }, at)?;
    }
    match stack.leave() {
        Some(0) => {}
        _ => return Err(BodyFault::WrongType { at }),
    }
    if let Some((width, tag)) = yields {
        if stack.innermost().is_some() {
            put(stack, Slot::Known { width, tag })?;
        }
    }
    Ok(())
}

/// Closes a then arm at its `else`, and opens the other arm.
pub fn part(stack: &mut Stack<Label>, arm: bool, at: u32) -> Result<(), BodyFault>
    ensures step { Follows result (parted arm stack.old) stack.new (WrongType at) }
    ensures blocks { OnOk result (length stack.new ≡ length stack.old) }
    ensures slots { OnOk result (slot_count stack.new ≤ slot_count stack.old) }
{
    let (loops, yields) = match stack.innermost() {
        Some(block) => block,
        None => return Err(BodyFault::WrongType { at }),
    };
    if !arm {
        return Err(BodyFault::WrongType { at });
    }
    if let Some((width, label)) = yields {
        expect(stack, ValType { width, label }, at)?;
    }
    match stack.leave() {
        Some(0) => {}
        _ => return Err(BodyFault::WrongType { at }),
    }
    stack.enter(loops, yields)?;
    Ok(())
}
