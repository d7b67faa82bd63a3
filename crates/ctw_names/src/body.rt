ghost use Rattle.std.specs.Prelude.{◌≡◌, IfOk, Ok, OnOk, []};
ghost use Rattle.ctw_text.specs.Names.{body_faults, find, labels_behind, names_for, op_of, ops_of, raw_faults, repeat_faults, use_faults};
ghost use Rattle.ctw_text.specs.Fields.{unfolded};
ghost use Rattle.ctw_names.specs.Noted.{noted};
ghost use Rattle.ctw_names.specs.Spaces.{space_in};
ghost use Rattle.ctw_names.specs.Ops.{op_in};

use crate::fault::{Fault, FaultKind, Faults};
use crate::labels::Labels;
use crate::locals::Locals;
use crate::op::{Op, OpKind};
use crate::order::run_order;
use crate::resolve::{label, labels_of, local, number};
use crate::space::{Space, again};
use crate::typeuse::{entry, note_use};
use ctw_text::{FrontList, Index, Indexed, Item, Name, Raw};
use std::alloc::{AllocError, Global};

/// The number of an instruction's index; a fault is noted and 0 is given where there is none.
fn operand(
    space: &Space,
    locals: &Locals,
    labels: &Labels,
    op: Indexed,
    x: &Index,
    faults: &mut Faults,
) -> u32
    ensures number { result
        ≡ find (names_for (record { space = space_in space.now; locals = locals.now }) labels.now op) x.now }
    ensures faults { faults.new ≡ noted faults.old
        (use_faults (names_for (record { space = space_in space.now; locals = locals.now }) labels.now op) x.now) }
{
    match op {
        Indexed::Br => label(labels, x, faults),
        Indexed::BrIf => label(labels, x, faults),
        Indexed::Call => number(&space.funcs, x, faults),
        Indexed::LocalGet => local(locals, x, faults),
        Indexed::LocalSet => local(locals, x, faults),
        Indexed::LocalTee => local(locals, x, faults),
        Indexed::GlobalGet => number(&space.globals, x, faults),
        Indexed::GlobalSet => number(&space.globals, x, faults),
    }
}

/// Notes a fault where an identifier behind `else` or `end` isn't the label of the block.
fn repeat(name: &Option<Name>, labels: &Labels, faults: &mut Faults)
    ensures { faults.new ≡ noted faults.old (repeat_faults name.now labels.now) }
{
    let Some(name) = name else {
        return;
    };
    if labels.is_innermost(name) {
        return;
    }
    faults.note(Fault::at(FaultKind::UnknownName, name));
}

fn plain(kind: OpKind) -> Result<Op, AllocError>
    ensures { result ≡ Ok (op_in kind) }
{
    Ok(Op { kind })
}

/// An instruction with numbers in place of its names. It opens and closes blocks, and faults are noted.
fn step<'a>(
    alloc: Global,
    space: &Space,
    locals: &Locals,
    labels: &mut Labels<'a>,
    raw: &Raw<'a>,
    faults: &mut Faults,
) -> Result<Op, AllocError>
    ensures op { IfOk result (λ op. op
        ≡ op_of (record { space = space_in space.now; locals = locals.now }) labels.old raw.now) }
    ensures labels { OnOk result (labels.new ≡ labels_behind raw.now labels.old) }
    ensures faults { OnOk result (faults.new ≡ noted faults.old
        (raw_faults (record { space = space_in space.now; locals = locals.now }) labels.old raw.now)) }
{
    match raw {
        Raw::Single(leaf) => plain(OpKind::Single(*leaf)),
        Raw::Uses(op, x) => {
            let n = operand(space, locals, labels, *op, x, faults);
            plain(OpKind::Uses(*op, n))
        }
        Raw::Targets(xs) => {
            let targets = labels_of(alloc, labels, xs, faults)?;
            plain(OpKind::Targets(targets))
        }
        Raw::Indirect(u) => {
            note_use(alloc, space, u, faults)?;
            let n = entry(alloc, space, u)?;
            plain(OpKind::Indirect(n))
        }
        Raw::Opens(shape, name, result) => {
            labels.open(again(name))?;
            plain(OpKind::Opens(*shape, *result))
        }
        Raw::Else(name) => {
            repeat(name, labels, faults);
            plain(OpKind::Else)
        }
        Raw::End(name) => {
            repeat(name, labels, faults);
            labels.close()?;
            plain(OpKind::End)
        }
    }
}

/// The instructions of a body with numbers in place of names, and its last `end`; faults are noted.
pub fn body_of<'a>(
    alloc: Global,
    space: &Space,
    locals: &Locals,
    code: FrontList<Item<'a>>,
    faults: &mut Faults,
) -> Result<Vec<Op>, AllocError>
    ensures ops { IfOk result (λ ops. ops.items
        ≡ ops_of (record { space = space_in space.now; locals = locals.now }) [] (unfolded [] code.entry)) }
    ensures faults { OnOk result (faults.new ≡ noted faults.old
        (body_faults (record { space = space_in space.now; locals = locals.now }) [] (unfolded [] code.entry))) }
{
    let raws = run_order(alloc, code)?;
    let mut labels = Labels::new(alloc);
    let mut ops = Vec::new(alloc);
    'instructions: for raw in raws.as_slice() {
        ops.push(step(alloc, space, locals, &mut labels, raw, faults)?)?;
    }
    ops.push(Op { kind: OpKind::End })?;
    Ok(ops)
}
