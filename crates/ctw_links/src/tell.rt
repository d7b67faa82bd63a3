ghost use Rattle.std.specs.Prelude.{◌≡◌, ◌++◌, ◌<◌, ◌+◌, ◌^◌, length, IfOk, OnOk};
ghost use Rattle.ctw_ops.specs.declared.types.Width.TheVariants.{W32};
ghost use Rattle.ctw_ops.specs.Types.{value_type};
ghost use Rattle.ctw_labels.specs.Collected.{wants_on};
ghost use Rattle.ctw_sites.specs.Leaves.{top_width};
ghost use Rattle.ctw_sites.specs.Rows.{rest_of, rests};
ghost use Rattle.ctw_sites.specs.Stacks.{on_innermost, of_innermost};
ghost use Rattle.ctw_links.specs.Asks.{asked_on, alike_asks, param_asks, listed, HasRoom};
ghost use Rattle.ctw_links.specs.declared.asks.Asks.TheVariants.{Two};

use crate::asks::{Ask, Asks};
use ctw_labels::{Tag, Told};
use ctw_ops::Width;
use ctw_stack::{Slot, Stack, Underflow};
use std::alloc::AllocError;

/// Takes the last operand off, and tells what is asked of it. It answers the operand's width where that is known.
#[inline(always)]
pub fn ask(
    stack: &mut Stack<Tag>,
    ask: Ask,
    told: &mut Vec<Told>,
) -> Result<Option<Width>, AllocError>
    requires { 0 < length stack.old }
    ensures told { OnOk result (told.new.items
        ≡ told.old.items ++ wants_on ask.rule (value_type W32 ask.tag) stack.old) }
    ensures stack { stack.new ≡ on_innermost rest_of stack.old }
    ensures width { IfOk result (λ width. width ≡ of_innermost top_width stack.old) }
{
    match stack.pop() {
        Ok(Slot::Known { width, tag: own }) => {
            told.push(Told {
                rule: ask.rule,
                left: own,
                right: ask.tag,
            })?;
            Ok(Some(width))
        }
        Ok(Slot::Wide { tag: own }) => {
            told.push(Told {
                rule: ask.rule,
                left: own,
                right: ask.tag,
            })?;
            Ok(None)
        }
        Ok(Slot::Unknown) => Ok(None),
        Err(Underflow) => Ok(None),
    }
}

/// Takes so many operands off, and tells what is asked of each.
fn tell_alike(
    stack: &mut Stack<Tag>,
    each: Ask,
    count: u32,
    told: &mut Vec<Told>,
) -> Result<(), AllocError>
    requires { 0 < length stack.old }
    ensures told { OnOk result (told.new.items ≡ told.old.items ++ asked_on (alike_asks each count) stack.old) }
    ensures stack { OnOk result (stack.new ≡ on_innermost (rests count) stack.old) }
{
    let mut left = count;
    'operands: while left > 0 {
        left -= 1;
        ask(stack, each, told)?;
    }
    Ok(())
}

/// Takes the arguments of a function off, and tells what is asked of each.
fn tell_params(
    stack: &mut Stack<Tag>,
    first: u32,
    count: u32,
    told: &mut Vec<Told>,
) -> Result<(), AllocError>
    requires open { 0 < length stack.old }
    requires room { first + count < 2 ^ 32 }
    ensures told { OnOk result (told.new.items ≡ told.old.items ++ asked_on (param_asks first count) stack.old) }
    ensures stack { OnOk result (stack.new ≡ on_innermost (rests count) stack.old) }
{
    let mut left = count;
    'params: while left > 0 {
        left -= 1;
        let tag = Tag::At { site: first + left };
        ask(stack, Ask { rule: 7, tag }, told)?;
    }
    Ok(())
}

/// Takes the last two operands off, and tells what is asked of them.
fn tell_two(
    stack: &mut Stack<Tag>,
    last: Ask,
    below: Ask,
    told: &mut Vec<Told>,
) -> Result<(), AllocError>
    requires { 0 < length stack.old }
    ensures told { OnOk result (told.new.items ≡ told.old.items ++ asked_on (listed (Two last below)) stack.old) }
    ensures stack { OnOk result (stack.new ≡ on_innermost (rests 2) stack.old) }
{
    ask(stack, last, told)?;
    ask(stack, below, told)?;
    Ok(())
}

/// Takes the operands off of which something is asked, and tells that.
pub fn tell(stack: &mut Stack<Tag>, asks: &Asks, told: &mut Vec<Told>) -> Result<(), AllocError>
    requires open { 0 < length stack.old }
    requires room { HasRoom asks.now }
    ensures told { OnOk result (told.new.items ≡ told.old.items ++ asked_on (listed asks.now) stack.old) }
    ensures stack { OnOk result (stack.new ≡ on_innermost (rests (length (listed asks.now))) stack.old) }
{
    match *asks {
        Asks::Nothing => Ok(()),
        Asks::One { last } => tell_alike(stack, last, 1, told),
        Asks::Two { last, below } => tell_two(stack, last, below, told),
        Asks::Alike { each, count } => tell_alike(stack, each, count, told),
        Asks::Params { first, count } => tell_params(stack, first, count, told),
        Asks::Indexed { first, count } => {
            let index = Ask {
                rule: 14,
                tag: Tag::Fixed,
            };
            ask(stack, index, told)?;
            tell_params(stack, first, count, told)
        }
    }
}
