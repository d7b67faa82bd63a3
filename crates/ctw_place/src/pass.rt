//! Passing the opcodes of a body, with where their values go.
ghost use Rattle.std.specs.Prelude.{◌≡◌, ◌+◌, ◌<◌, ◌-◌, ◌^◌, ◌∷◌, length, reverse, OnOk, IfOk};
ghost use Rattle.ctw_ops.specs.Tree.{type_named};
ghost use Rattle.ctw_flat.specs.Instructions.{op_of, IsExactly};
ghost use Rattle.ctw_stack.specs.Opens.{opened, slot_count};
ghost use Rattle.ctw_module.specs.Trees.{view_module};
ghost use Rattle.ctw_labels.specs.SitedModule.{site_count};
ghost use Rattle.ctw_labels.specs.FlatSites.{GoesBy, opens_behind, op_sites};
ghost use Rattle.ctw_labels.specs.Points.{Points};
ghost use Rattle.ctw_labels.specs.Numbering.{block_sites, block_lift, result_from};
ghost use Rattle.ctw_sites.specs.Controls.{AreSmall};
ghost use Rattle.ctw_sites.specs.Leaves.{is_select_op, IsLeaf, own_count, top_width, chosen_width, either as one_of, selected};
ghost use Rattle.ctw_sites.specs.Rows.{rest_of};
ghost use Rattle.ctw_sites.specs.Stacks.{on_innermost, of_innermost};
ghost use Rattle.ctw_place.specs.Flat.{innermost_lift, without_innermost, ends_behind};
ghost use Rattle.ctw_place.specs.Walks.{place_under, scope_under, lift_by, chosen_lift, next_site, op_lift, lift_behind};

use crate::lift::Lift;
use ctw_flat::Instr;
use ctw_labels::Tag;
use ctw_ops::{ValType, Width};
use ctw_sites::Points;
use ctw_sites::around::Around;
use ctw_sites::control::{pass_else, pass_end};
use ctw_sites::leaf::row_of;
use ctw_sites::row::{Row, apply};
use ctw_stack::{Slot, Stack};
use std::alloc::AllocError;

/// Whether an instruction is a `select`.
fn is_select(instr: &Instr) -> bool
    ensures { result ≡ is_select_op (op_of instr.now) }
{
    matches!(*instr, Instr::Select { .. })
}

/// How many sites an indirect call by a type entry has before its push's.
fn user_sites(around: &Around, y: u32) -> u32
    ensures count { result ≡ site_count (type_named (view_module around.now.whole.now) y) }
    ensures few { result < 2 ^ 17 }
{
    let (params, result) = around.signature(y);
    params + u32::from(result.is_some())
}

/// How many sites an opcode without instructions inside has before its push's.
fn own_sites(around: &Around, instr: &Instr) -> u32
    ensures { (p : Points) → result ≡ own_count (place_under p around.now) (op_of instr.now) }
{
    match *instr {
        Instr::Numeric { .. } | Instr::Select { .. } | Instr::Const { .. } => 1,
        Instr::CallIndirect { index } => user_sites(around, index),
        _ => 0,
    }
}

/// Where what a row gives goes, if it goes under a site of its own.
fn lift_of(row: &Row, site: u32, free: bool) -> Option<Lift>
    ensures { result ≡ lift_by site free row.now }
{
    if !row.lifts {
        return None;
    }
    match row.gives {
        Some((width, tag)) => Some(Lift {
            width,
            source: tag,
            target: Tag::At { site },
            free,
        }),
        None => None,
    }
}

/// The first site behind a push's, which may be there.
fn behind(site: u32, lift: &Option<Lift>) -> u32
    requires { next_site site lift.now < 2 ^ 32 }
    ensures { result ≡ next_site site lift.now }
{
    match lift {
        Some(_) => site + 1,
        None => site,
    }
}

/// Takes the last operand off, and says its width where that is known.
fn pop_width(stack: &mut Stack<Tag>) -> Option<Width>
    requires { 0 < length stack.old }
    ensures width { result ≡ of_innermost top_width stack.old }
    ensures stack { stack.new ≡ on_innermost rest_of stack.old }
{
    match stack.pop() {
        Ok(Slot::Known { width, .. }) => Some(width),
        Ok(Slot::Wide { .. }) => None,
        Ok(Slot::Unknown) => None,
        Err(_) => None,
    }
}

/// The first width that is known.
fn either(a: Option<Width>, b: Option<Width>) -> Option<Width>
    ensures { result ≡ one_of a b }
{
    match a {
        Some(width) => Some(width),
        None => b,
    }
}

/// Passes a `select` whose own site is `n`: the site behind its own ones, and where what it gives goes.
fn pass_select(
    stack: &mut Stack<Tag>,
    n: u32,
    free: bool,
) -> Result<(u32, Option<Lift>), AllocError>
    requires open { 0 < length stack.old }
    requires few { slot_count stack.old < 2 ^ 32 - 1 }
    requires room { next_site (n + 1) (chosen_lift n free (of_innermost chosen_width stack.old)) < 2 ^ 32 }
    ensures stack { OnOk result (stack.new ≡ on_innermost (selected n) stack.old) }
    ensures next { IfOk result (λ r.
        r.0 ≡ next_site (n + 1) (chosen_lift n free (of_innermost chosen_width stack.old))) }
    ensures lift { IfOk result (λ r. r.1 ≡ chosen_lift n free (of_innermost chosen_width stack.old)) }
{
    let _ = pop_width(stack);
    let a = pop_width(stack);
    let b = pop_width(stack);
    match either(a, b) {
        Some(width) => {
            let target = Tag::At { site: n + 1 };
            stack.push(Slot::Known { width, tag: target })?;
            let lift = Lift {
                width,
                source: Tag::At { site: n },
                target,
                free,
            };
            Ok((n + 2, Some(lift)))
        }
        None => {
            stack.push(Slot::Wide {
                tag: Tag::At { site: n },
            })?;
            Ok((n + 1, None))
        }
    }
}

/// Passes an instruction without instructions inside: the site behind its own ones, and where what it gives goes.
fn pass_leaf(
    around: &Around,
    points: &Points,
    stack: &mut Stack<Tag>,
    instr: &Instr,
    n: u32,
    at: u32,
) -> Result<(u32, Option<Lift>), AllocError>
    requires exactly { IsExactly instr.now }
    requires open { 0 < length stack.old }
    requires few { slot_count stack.old < 2 ^ 32 - 1 }
    requires leaf { IsLeaf (op_of instr.now) }
    requires goes { GoesBy (place_under points.now around.now) (scope_under points.now around.now) n (op_of instr.now) stack.old }
    requires room { n + length
        (op_sites (place_under points.now around.now) (scope_under points.now around.now) n at (op_of instr.now) stack.old) < 2 ^ 32 }
    ensures stack { OnOk result (stack.new
        ≡ opens_behind (place_under points.now around.now) (scope_under points.now around.now) n at (op_of instr.now) stack.old) }
    ensures next { IfOk result (λ r. r.0 ≡ n + length
        (op_sites (place_under points.now around.now) (scope_under points.now around.now) n at (op_of instr.now) stack.old)) }
    ensures lift { IfOk result (λ r. r.1
        ≡ op_lift (place_under points.now around.now) (scope_under points.now around.now) n at (op_of instr.now) stack.old) }
{
    let free = points.releases(around.f, at);
    if is_select(instr) {
        return pass_select(stack, n, free);
    }
    let site = n + own_sites(around, instr);
    let row = row_of(around, stack, instr, n);
    let lift = lift_of(&row, site, free);
    apply(stack, &row, site)?;
    let next = behind(site, &lift);
    Ok((next, lift))
}

/// Opens a block, and keeps where its result goes behind its `end`; the site behind its own ones.
fn open(
    stack: &mut Stack<Tag>,
    ends: &mut Vec<Option<Lift>>,
    loops: bool,
    yields: Option<ValType>,
    n: u32,
    free: bool,
) -> Result<u32, AllocError>
    requires { n + length (block_sites 0 0 n yields) < 2 ^ 32 }
    ensures stack { OnOk result (stack.new ≡ opened loops (result_from n yields) ∷ stack.old) }
    ensures ends { OnOk result (reverse ends.new.items ≡ block_lift free n yields ∷ reverse ends.old.items) }
    ensures next { IfOk result (λ r. r ≡ n + length (block_sites 0 0 n yields)) }
{
    match yields {
        Some(t) => {
            let source = Tag::At { site: n };
            let target = Tag::At { site: n + 1 };
            ends.push(Some(Lift {
                width: t.width,
                source,
                target,
                free,
            }))?;
            stack.enter(loops, Some((t.width, source)))?;
            Ok(n + 2)
        }
        None => {
            ends.push(None)?;
            stack.enter(loops, None)?;
            Ok(n)
        }
    }
}

/// Takes off where the innermost block's result goes.
fn close(ends: &mut Vec<Option<Lift>>) -> Option<Lift>
    ensures lift { result ≡ innermost_lift (reverse ends.old.items) }
    ensures ends { reverse ends.new.items ≡ without_innermost (reverse ends.old.items) }
{
    match ends.pop() {
        Some(lift) => lift,
        None => None,
    }
}

/// Passes an opcode: the site behind its own ones, and where the value goes that is pushed behind it.
pub fn pass(
    around: &Around,
    points: &Points,
    stack: &mut Stack<Tag>,
    ends: &mut Vec<Option<Lift>>,
    instr: &Instr,
    n: u32,
    at: u32,
) -> Result<(u32, Option<Lift>), AllocError>
    requires exactly { IsExactly instr.now }
    requires open { 0 < length stack.old }
    requires few { slot_count stack.old < 2 ^ 32 - 1 }
    requires small { AreSmall stack.old }
    requires goes { GoesBy (place_under points.now around.now) (scope_under points.now around.now) n (op_of instr.now) stack.old }
    requires room { n + length
        (op_sites (place_under points.now around.now) (scope_under points.now around.now) n at (op_of instr.now) stack.old) < 2 ^ 32 }
    ensures stack { OnOk result (stack.new
        ≡ opens_behind (place_under points.now around.now) (scope_under points.now around.now) n at (op_of instr.now) stack.old) }
    ensures ends { OnOk result (reverse ends.new.items
        ≡ ends_behind (place_under points.now around.now) n at (op_of instr.now) (reverse ends.old.items)) }
    ensures next { IfOk result (λ r. r.0 ≡ n + length
        (op_sites (place_under points.now around.now) (scope_under points.now around.now) n at (op_of instr.now) stack.old)) }
    ensures lift { IfOk result (λ r. r.1 ≡ lift_behind (place_under points.now around.now)
        (scope_under points.now around.now) n at (op_of instr.now) stack.old (reverse ends.old.items)) }
{
    match *instr {
        Instr::Block { result } => {
            let free = points.releases(around.f, at);
            Ok((open(stack, ends, false, result, n, free)?, None))
        }
        Instr::Loop { result } => {
            let free = points.releases(around.f, at);
            Ok((open(stack, ends, true, result, n, free)?, None))
        }
        Instr::If { result } => {
            let free = points.releases(around.f, at);
            let _ = pop_width(stack);
            Ok((open(stack, ends, false, result, n, free)?, None))
        }
        Instr::Else => {
            pass_else(stack)?;
            Ok((n, None))
        }
        Instr::End => {
            pass_end(stack)?;
            Ok((n, close(ends)))
        }
        _ => pass_leaf(around, points, stack, instr, n, at),
    }
}
