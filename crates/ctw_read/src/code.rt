ghost use Rattle.std.specs.Prelude.{◌≡◌, ◌+◌, ◌≤◌, ◌||◌, length, IfOk, None, if◌then◌else◌};
ghost use Rattle.ctw_leb.specs.Calls.{Finds};
ghost use Rattle.ctw_ops.specs.Limits.{most_locals_of_all};
ghost use Rattle.ctw_ops.specs.Plain.{is_plain_op, is_plain_type as type_is_plain};
ghost use Rattle.ctw_flat.specs.Instructions.{op_of};
ghost use Rattle.ctw_form.specs.declared.fault.FormKind.TheVariants.{LabelsInPlain};
ghost use Rattle.ctw_form.specs.Sections.{locals_of};
ghost use Rattle.ctw_form.specs.Spelled.{all_after};
ghost use Rattle.ctw_form.specs.Read.{label_place as place_of_label, form_step_at, form_body_at, groups_at, entry_insides_at, code_entry_at, codes_at};
ghost use Rattle.ctw_read.specs.declared.fault.ReadFault.TheVariants.{Bad};
ghost use Rattle.ctw_read.specs.Calls.{in_sized, Reads, ReadsFront, Steps, Tells};

use crate::fault::ReadFault;
use ctw_flat::{BuildFault, Instr, Nesting};
use ctw_form::items::{group, inside, number, of_code, window};
use ctw_form::{FormFault, FormKind};
use ctw_leb::Cursor;
use ctw_ops::{Label, ValType};
use std::alloc::Global;

/// The place of the byte that stands for a label in the opcode at the cursor.
fn label_place(cursor: &Cursor) -> Option<u32>
    ensures { result ≡ place_of_label cursor.now.at cursor.now.rest }
{
    let place = cursor.place();
    let _left = cursor.left(); // tells the prover that places behind this one are below 2^32 too
    match cursor.rest() {
        [0xE0..=0xE4, ..] => Some(place),
        [0x02..=0x04, 0x79..=0x7A, ..] => Some(place + 1),
        _ => None,
    }
}

/// The place of a label that comes before what is wrong with the opcode at the front: in a plain module, where an
/// opcode may stand at all.
fn refused_label(ct: bool, closed: bool, deep: bool, front: &Cursor) -> Option<u32>
    ensures { result ≡ (if ct || (closed || deep) then None else place_of_label front.now.at front.now.rest) }
{
    if ct || closed || deep {
        return None;
    }
    label_place(front)
}

fn is_plain_type(t: Option<ValType>) -> bool
    ensures { result ≡ type_is_plain t }
{
    match t {
        Some(t) => t.label == Label::Public,
        None => true,
    }
}

/// Whether a plain module has such an instruction: it changes no label and names no secret one.
fn is_plain(instr: &Instr) -> bool
    ensures { result ≡ is_plain_op (op_of instr.now) }
{
    match instr {
        Instr::Block { result } | Instr::Loop { result } | Instr::If { result } => {
            is_plain_type(*result)
        }
        Instr::Select { label }
        | Instr::Load { label, .. }
        | Instr::Store { label, .. }
        | Instr::Const { label, .. }
        | Instr::Numeric { label, .. } => *label == Label::Public,
        Instr::Classify { .. } | Instr::Declassify { .. } => false,
        _ => true,
    }
}

fn labels_in_plain(place: u32) -> ReadFault
    ensures { result ≡ Bad LabelsInPlain place }
{
    ReadFault::Bad {
        kind: FormKind::LabelsInPlain,
        place,
    }
}

/// The next instruction of a body. Bytes are asked for a label only where they aren't those of a plain instruction.
#[tactic(auto, unfolding(ctw_form::specs::Read::form_step_at))]
fn step(ct: bool, nesting: &mut Nesting, cursor: &mut Cursor) -> Result<(), ReadFault>
    ensures { Steps result nesting.old nesting.new cursor.new (form_step_at ct nesting.old cursor.old) }
{
    let closed = nesting.is_closed();
    let deep = nesting.is_too_deep(cursor);
    let front = cursor.duplicate();
    match nesting.step(cursor) {
        Ok(instr) => {
            if ct || is_plain(&instr) {
                return Ok(());
            }
            match label_place(&front) {
                Some(place) => Err(labels_in_plain(place)),
                None => unreachable!(),
            }
        }
        Err(BuildFault::Bad(fault)) => match refused_label(ct, closed, deep, &front) {
            Some(place) => Err(labels_in_plain(place)),
            None => Err(ReadFault::from(of_code(fault))),
        },
        Err(BuildFault::NoMemory) => Err(ReadFault::NoMemory),
    }
}

/// The instructions of a code entry, all of the bytes.
fn body(nesting: &mut Nesting, ct: bool, cursor: &mut Cursor) -> Result<(), ReadFault>
    ensures { Reads (λ u code. Unit {0}) result (form_body_at ct cursor.old) }
{
    nesting.restart()?;
    'body: while cursor.left() > 0 {
        step(ct, nesting, cursor)?;
    }
    if nesting.is_closed() {
        return Ok(());
    }
    Err(ReadFault::Bad {
        kind: FormKind::Unbalanced,
        place: cursor.place(),
    })
}

/// The locals of a function behind functions with so many, and how many they are with these.
#[tactic(auto, unfolding(ctw_form::specs::Read::groups_at, ctw_ops::specs::Limits::most_locals, ctw_ops::specs::Limits::most_locals_of_all))]
fn groups(ct: bool, all: u32, cursor: &mut Cursor) -> Result<u32, FormFault>
    requires { all ≤ most_locals_of_all }
    ensures locals { Tells (λ n groups.
        n ≡ all + length (locals_of groups)) result cursor.new (groups_at ct all cursor.old) }
    ensures within { IfOk result (λ n. n ≤ most_locals_of_all) }
{
    let count = number(cursor)?;
    let mut own = 0;
    let mut all = all;
    'groups: for _ in 0..count {
        let group = group(ct, own, all, cursor)?;
        own += group.count;
        all += group.count;
    }
    Ok(all)
}

/// The locals and the instructions of a function, all of the bytes.
#[tactic(auto, unfolding(ctw_form::specs::Read::entry_insides_at))]
fn entry_insides(
    nesting: &mut Nesting,
    ct: bool,
    all: u32,
    cursor: &mut Cursor,
) -> Result<u32, ReadFault>
    requires { all ≤ most_locals_of_all }
    ensures entry { Reads (λ n e. n ≡ all_after all e) result (entry_insides_at ct all cursor.old) }
    ensures within { IfOk result (λ n. n ≤ most_locals_of_all) }
{
    let all = groups(ct, all, cursor)?;
    body(nesting, ct, cursor)?;
    Ok(all)
}

/// A code entry behind entries with so many locals, and how many these are with its own.
fn entry(nesting: &mut Nesting, ct: bool, all: u32, cursor: &mut Cursor) -> Result<u32, ReadFault>
    requires { all ≤ most_locals_of_all }
    ensures entry { ReadsFront (λ n e. n ≡ all_after all e) result cursor.new (code_entry_at ct all cursor.old) }
    ensures within { IfOk result (λ n. n ≤ most_locals_of_all) }
{
    let mut window = window(cursor)?;
    match entry_insides(nesting, ct, all, &mut window) {
        Ok(all) => Ok(all),
        Err(fault) => Err(inside_fault(fault)),
    }
}

/// A fault in something of a known size, as a fault of the file.
pub fn inside_fault(fault: ReadFault) -> ReadFault
    ensures { result ≡ in_sized fault }
{
    match fault {
        ReadFault::Bad { kind, place } => ReadFault::from(inside(FormFault { kind, place })),
        ReadFault::NoMemory => ReadFault::NoMemory,
    }
}

/// The entries of a code section, one for each function that has no code yet.
#[tactic(auto, unfolding(ctw_form::specs::Read::codes_at), using(crate::proofs::CodeLoops::owed_short, crate::proofs::CodeLoops::owed_same, crate::proofs::CodeLoops::owed_other))]
pub fn codes(alloc: Global, ct: bool, owed: u32, cursor: &mut Cursor) -> Result<(), ReadFault>
    ensures { ReadsFront (λ u entries. Unit {0}) result cursor.new (codes_at ct owed cursor.old) }
{
    let place = cursor.place();
    let count = number(cursor)?;
    if count != owed {
        return Err(ReadFault::Bad {
            kind: FormKind::CountMismatch,
            place,
        });
    }
    let mut all = 0;
    let mut nesting = Nesting::new(alloc)?;
    'entries: for _ in 0..count {
        all = entry(&mut nesting, ct, all, cursor)?;
    }
    Ok(())
}
