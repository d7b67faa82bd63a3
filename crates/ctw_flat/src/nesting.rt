ghost use Rattle.std.specs.Prelude.{◌≡◌, ◌==◌, ◌&&◌, ◌≤◌, ◌<◌, ◌^◌, ◌+◌, ◌++◌, length, reverse, IfOk, OnOk, ℕ, List, true};
ghost use Rattle.ctw_leb.specs.Input.{Input};
ghost use Rattle.ctw_flat.specs.declared.fault.BuildFault.TheVariants.{Bad};
ghost use Rattle.ctw_flat.specs.declared.fault.CodeKind.TheVariants.{Unbalanced};
ghost use Rattle.ctw_flat.specs.Read.{fault};
ghost use Rattle.ctw_flat.specs.Instructions.{op_of, IsExactly};
ghost use Rattle.ctw_flat.specs.Places.{Placed, Stand, from};
ghost use Rattle.ctw_flat.specs.Bodies.{is_full as full, allows, opened_by, own_body, opens_block as opening, step_at, body_at};
ghost use Rattle.ctw_flat.specs.Marks.{role_of, marked, marks_of};
ghost use Rattle.ctw_flat.specs.Calls.{Nests, Steps, Checks};

use crate::blocks::{Mark, Role};
use crate::fault::{BuildFault, CodeFault, CodeKind};
use crate::instr::Instr;
use crate::reading::read_instr;
use ctw_leb::Cursor;
use std::alloc::{AllocError, Global};
use std::marker::Model;

/// How many blocks may be open in one another, the function's own body apart.
const MOST_OPEN: usize = 4096;

/// Whether as many blocks are open as may be.
fn is_full(around: &[bool]) -> bool
    ensures { result ≡ full (reverse around.now) }
{
    around.len() > MOST_OPEN
}

/// Whether the next opcode opens a block.
fn opens_block(cursor: &Cursor) -> bool
    ensures { result ≡ opening cursor.now.rest }
{
    matches!(cursor.rest(), [0x02..=0x04, ..])
}

/// Whether an instruction may stand where so much is open; and what is open behind it.
#[inline(always)]
fn shift(around: &mut Vec<bool>, instr: &Instr) -> Result<bool, AllocError>
    ensures allowed { IfOk result (λ r. r ≡ allows (reverse around.old.items) (op_of instr.now)) }
    ensures shifted { IfOk result (λ r. r ≡ true
        → reverse around.new.items ≡ opened_by (reverse around.old.items) (op_of instr.now)) }
{
    match instr {
        Instr::Block { .. } | Instr::Loop { .. } | Instr::If { .. } => {
            if around.is_empty() || around.len() > MOST_OPEN {
                return Ok(false);
            }
            around.push(matches!(instr, Instr::If { .. }))?;
            Ok(true)
        }
        Instr::End => Ok(around.pop().is_some()),
        Instr::Else => match around.pop() {
            Some(true) => {
                around.push(false)?;
                Ok(true)
            }
            _ => Ok(false),
        },
        _ => Ok(!around.is_empty()),
    }
}

/// What an instruction does to blocks.
fn role(instr: &Instr) -> Option<Role>
    ensures { result ≡ role_of (op_of instr.now) }
{
    match instr {
        Instr::Block { .. } | Instr::Loop { .. } | Instr::If { .. } => Some(Role::Begins),
        Instr::Else => Some(Role::Parts),
        Instr::End => Some(Role::Ends),
        _ => None,
    }
}

/// Notes an instruction that does something to blocks.
fn note(marks: &mut Vec<Mark>, at: usize, instr: &Instr) -> Result<(), AllocError>
    ensures { OnOk result (marks.new.items ≡ marks.old.items ++ marked at (role_of (op_of instr.now))) }
{
    if let Some(role) = role(instr) {
        marks.push(Mark { at, role })?;
    }
    Ok(())
}

/// What is open around a place while a body is read: the function's own body, and the blocks in it.
///
/// Contracts see a list, innermost first: true where an `else` may come.
#[derive(Drop)]
pub struct Nesting {
    around: Vec<bool>,
}

impl Model for Nesting {
    ghost use Rattle.std.specs.Prelude.{List, Bool, reverse};

    ghost Value = { List Bool };

    ghost view = { λ n. reverse n.around.items };
}

impl Nesting {
    /// In front of a body: the body alone is open. `Err` where memory runs out.
    pub fn new(alloc: Global) -> Result<Nesting, AllocError>
        ensures { IfOk result (λ n. n ≡ own_body) }
    {
        let mut around = Vec::new(alloc);
        around.push(false)?;
        Ok(Nesting { around })
    }

    /// Whether the body's own `end` was read, so that nothing may stand behind it.
    pub fn is_closed(&self) -> bool
        ensures { result ≡ (length self.now == 0) }
    {
        self.around.is_empty()
    }

    /// Whether the opcode at the cursor opens a block inside as many as may be open.
    pub fn is_too_deep(&self, cursor: &Cursor) -> bool
        ensures { result ≡ (full self.now && opening cursor.now.rest) }
    {
        is_full(self.around.as_slice()) && opens_block(cursor)
    }

    /// In front of a body again. `Err` where memory runs out.
    pub fn restart(&mut self) -> Result<(), AllocError>
        ensures { OnOk result (self.new ≡ own_body) }
    {
        self.around.clear();
        self.around.push(false)?;
        Ok(())
    }

    /// Reads the next instruction of the body.
    ///
    /// `Unbalanced` where it may not stand there, `TooDeep` where it opens a block inside 4,096 others,
    /// and the faults of `Body::instr_at`; their places are offsets in the cursor's file. After an `Err`
    /// the cursor may stand anywhere, and reading can't go on.
    #[inline(always)]
    pub fn step<'a>(&mut self, cursor: &mut Cursor<'a>) -> Result<Instr<'a>, BuildFault>
        ensures read { Nests op_of result self.old self.new cursor.new (step_at self.old cursor.old) }
        ensures exactly { IfOk result (λ i. IsExactly i) }
    {
        let place = cursor.place();
        if self.is_closed() {
            return Err(unbalanced(place));
        }
        if self.is_too_deep(cursor) {
            return Err(BuildFault::Bad(CodeFault {
                kind: CodeKind::TooDeep,
                place,
            }));
        }
        match read_instr(cursor) {
            Ok(instr) => {
                if !shift(&mut self.around, &instr)? {
                    return Err(unbalanced(place));
                }
                Ok(instr)
            }
            Err(fault) => Err(BuildFault::Bad(fault)),
        }
    }
}

/// Something that may not stand at a place.
fn unbalanced(place: u32) -> BuildFault
    ensures { result ≡ Bad (fault Unbalanced place) }
{
    BuildFault::Bad(CodeFault {
        kind: CodeKind::Unbalanced,
        place,
    })
}

/// Reads one instruction of a body, and notes it.
fn step(nesting: &mut Nesting, marks: &mut Vec<Mark>, cursor: &mut Cursor) -> Result<(), BuildFault>
    ensures { Steps result nesting.old nesting.new marks.old.items marks.new.items cursor.old cursor.new
        (step_at nesting.old cursor.old) }
{
    let place = cursor.place();
    match nesting.step(cursor) {
        Ok(instr) => {
            note(marks, place as usize, &instr)?;
            Ok(())
        }
        Err(fault) => Err(fault),
    }
}

/// Notes the opcodes of a body that begin, part and end blocks, in place of what was noted before;
/// else the first fault.
pub fn mark(nesting: &mut Nesting, marks: &mut Vec<Mark>, code: &[u8]) -> Result<(), BuildFault>
    requires { length code.now < 2 ^ 32 }
    ensures checks { Checks result (body_at (record { at = 0; rest = code.now })) }
    ensures marks { OnOk result ((ps : List Placed) × Stand code.now 0 ps × (marks.new.items ≡ marks_of ps)) }
{
    nesting.restart()?;
    marks.clear();
    let mut cursor = Cursor::new(code, 0);
    'body: while cursor.left() > 0 {
        step(nesting, marks, &mut cursor)?;
    }
    if nesting.is_closed() {
        return Ok(());
    }
    Err(unbalanced(cursor.place()))
}
