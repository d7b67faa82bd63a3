ghost use Rattle.std.specs.Prelude.{◌≡◌, ◌∷◌, ◌+◌, ◌<◌, ◌^◌, length, option_map, slice_get};
ghost use Rattle.ctw_flat.specs.Instructions.{op_of, IsExactly};
ghost use Rattle.ctw_ops.specs.Types.{FunctionType};
ghost use Rattle.ctw_ops.specs.Typing.{optional};
ghost use Rattle.ctw_labels.specs.declared.tag.Tag.TheVariants.{At, Fixed};
ghost use Rattle.ctw_labels.specs.FlatSites.{among};
ghost use Rattle.ctw_labels.specs.Numbering.{type_from, named_in};
ghost use Rattle.ctw_stack.specs.Opens.{target_of, type_of};
ghost use Rattle.ctw_sites.specs.Leaves.{own_count};
ghost use Rattle.ctw_sites.specs.Scope.{scope, place, functions_of};
ghost use Rattle.ctw_links.specs.Asks.{ask as ask_of, listed, HasRoom, branch_asks, branch_asks_below, call_asks, value_asks, asks_all, tags_of, asks_of_op};

use crate::asks::{Ask, Asks};
use ctw_flat::Instr;
use ctw_labels::Tag;
use ctw_ops::{Width, signature};
use ctw_sites::around::Around;
use ctw_stack::Stack;

/// An ask.
fn ask(rule: u8, tag: Tag) -> Ask
    ensures { result ≡ ask_of rule tag }
{
    Ask { rule, tag }
}

/// What is asked of what a branch carries.
fn branch(stack: &Stack<Tag>, depth: u32) -> Asks
    ensures asks { listed result ≡ branch_asks (target_of depth stack.now) }
    ensures room { HasRoom result }
{
    match stack.target(depth) {
        Some(Some((_, tag))) => Asks::One { last: ask(8, tag) },
        Some(None) => Asks::Nothing,
        None => Asks::Nothing,
    }
}

/// The same below an operand that has to be public.
fn branch_below(stack: &Stack<Tag>, depth: u32, rule: u8) -> Asks
    ensures asks { listed result ≡ branch_asks_below (ask_of rule Fixed) (target_of depth stack.now) }
    ensures room { HasRoom result }
{
    let last = ask(rule, Tag::Fixed);
    match stack.target(depth) {
        Some(Some((_, tag))) => Asks::Two {
            last,
            below: ask(8, tag),
        },
        Some(None) => Asks::One { last },
        None => Asks::Nothing,
    }
}

/// What is asked of a function's result.
fn result(around: &Around) -> Asks
    ensures asks { listed result ≡ asks_all 10 (tags_of (optional (scope around.now).result)) }
    ensures room { HasRoom result }
{
    match around.result() {
        Some((_, tag)) => Asks::One { last: ask(10, tag) },
        None => Asks::Nothing,
    }
}

/// What is asked of the arguments of a call.
fn call(around: &Around, index: u32) -> Asks
    ensures asks { listed result ≡ call_asks (slice_get (functions_of around.now) index) }
    ensures room { HasRoom result }
{
    match around.params(index) {
        Some(params) => Asks::Params {
            first: params.0,
            count: params.1,
        },
        None => Asks::Nothing,
    }
}

/// The same of an indirect call, whose sites begin at `n`, and of its index.
fn indirect(around: &Around, index: u32, n: u32) -> Asks
    requires { n + length (named_in (place around.now).types index).params < 2 ^ 32 }
    ensures asks { listed result
        ≡ ask_of 14 Fixed ∷ asks_all 7 (tags_of (type_from n (named_in (place around.now).types index)).params) }
    ensures room { HasRoom result }
{
    let (count, _) = around.signature(index);
    Asks::Indexed { first: n, count }
}

/// What is asked of a value that goes to a local or a global.
fn value(rule: u8, place: Option<(Width, Tag)>) -> Asks
    ensures asks { listed result ≡ value_asks rule (option_map type_of place) }
    ensures room { HasRoom result }
{
    match place {
        Some((_, tag)) => Asks::One {
            last: ask(rule, tag),
        },
        None => Asks::Nothing,
    }
}

/// What is asked of the operands of an instruction without instructions inside, whose sites begin at `n`. Nothing is
/// said of `select`.
pub fn asks_of(around: &Around, stack: &Stack<Tag>, instr: &Instr, n: u32) -> Asks
    requires exactly { IsExactly instr.now }
    requires room { n + own_count (place around.now) (op_of instr.now) < 2 ^ 32 }
    ensures asks { listed result
        ≡ asks_of_op (place around.now) (among (scope around.now) stack.now) n (op_of instr.now) }
    ensures room { HasRoom result }
{
    match *instr {
        Instr::Br { depth } => branch(stack, depth),
        Instr::BrIf { depth } => branch_below(stack, depth, 13),
        Instr::BrTable { otherwise, .. } => branch_below(stack, otherwise, 14),
        Instr::Return => result(around),
        Instr::Call { index } => call(around, index),
        Instr::CallIndirect { index } => indirect(around, index, n),
        Instr::LocalSet { index } => value(4, around.local(index)),
        Instr::LocalTee { index } => value(4, around.local(index)),
        Instr::GlobalSet { index } => value(5, around.global(index)),
        Instr::Load { .. } => Asks::One {
            last: ask(15, Tag::Fixed),
        },
        Instr::Store { .. } => Asks::Two {
            last: ask(6, around.memory()),
            below: ask(15, Tag::Fixed),
        },
        Instr::MemoryGrow => Asks::One {
            last: ask(17, Tag::Fixed),
        },
        Instr::Numeric { op, .. } => Asks::Alike {
            each: ask(2, Tag::At { site: n }),
            count: u32::from(signature(op).arity),
        },
        _ => Asks::Nothing,
    }
}
