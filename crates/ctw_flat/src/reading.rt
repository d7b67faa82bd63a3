ghost use Rattle.std.specs.Prelude.{ℕ, Result, ◌≡◌, ◌≤◌, ◌<◌, ◌^◌, ◌+◌, length, IfOk, Ok};
ghost use Rattle.ctw_leb.specs.Grammar.{Times};
ghost use Rattle.ctw_leb.specs.Numbers.{IsU32};
ghost use Rattle.ctw_leb.specs.Calls.{Finds, Tabulates};
ghost use Rattle.ctw_flat.specs.Spelled.{bare_op, shape_of, indexed_leaf, access_leaf};
ghost use Rattle.ctw_flat.specs.Read.{of_leb, by_table, block_type_at, reserved_at, index_at, indexes_at, bits32_at, bits64_at, branch_table_at, access_at, constant_at, immediate_at, secret_at, behind_at, op_at, behind_byte_at};
ghost use Rattle.ctw_flat.specs.Instructions.{op_of, targets_in, IsExactly, IsListed, IsListedFirst};
ghost use Rattle.ctw_ops.specs.Code.{Plain, Opens, Numeric};
ghost use Rattle.ctw_ops.specs.declared.types.Label.TheVariants.{Public};
ghost use Rattle.ctw_flat.specs.declared.fault.CodeKind.{CodeKind};
ghost use Rattle.ctw_flat.specs.Opcodes.{opcode};
ghost use Rattle.ctw_flat.specs.declared.opcode.Form.TheVariants as form;

use crate::fault::{CodeFault, CodeKind};
use crate::instr::Instr;
use crate::opcode::{
    Access, Bare, First, Form, Indexed, Opener, block_type_of, first_of, numeric_of, reserved_of,
    secret_form_of,
};
use ctw_leb::{Cursor, LebFault};
use ctw_ops::{Label, NumOp, ValType, Width};

/// The fault of a number where the cursor stands.
#[inline(never)]
fn number_fault(cursor: &Cursor, fault: LebFault) -> CodeFault
    ensures { result ≡ of_leb cursor.now fault }
{
    match fault {
        LebFault::Truncated => CodeFault {
            kind: CodeKind::Truncated,
            place: cursor.place() + cursor.left(),
        },
        LebFault::BadLeb { place } | LebFault::BadUtf8 { place } => CodeFault {
            kind: CodeKind::BadLeb,
            place,
        },
    }
}

/// One byte by a table.
#[inline(always)]
fn byte_by<T, F: FnOnce(u8) -> Result<T, CodeKind> + Drop>(
    cursor: &mut Cursor,
    table: F,
) -> Result<T, CodeFault>
    requires { F.IsAlwaysCallable table }
    ensures read { (rows : ℕ → Result T CodeKind) → Tabulates (F.post table) rows →
        Finds (λ x. x) result cursor.new (by_table rows cursor.old) }
    ensures row { IfOk result (λ x. (byte : ℕ) × F.post table byte (Ok x)) }
{
    match cursor.by_table(CodeKind::Truncated, table) {
        Ok(found) => Ok(found),
        Err((kind, place)) => Err(CodeFault { kind, place }),
    }
}

/// The result of a block.
#[inline(always)]
#[tactic(auto, unfolding(crate::specs::Read::block_type_at))]
fn block_type(cursor: &mut Cursor) -> Result<Option<ValType>, CodeFault>
    ensures { Finds (λ t. t) result cursor.new (block_type_at cursor.old) }
{
    byte_by(cursor, block_type_of)
}

/// A byte that has to be 00.
#[inline(always)]
#[tactic(auto, unfolding(crate::specs::Read::reserved_at))]
fn reserved(cursor: &mut Cursor) -> Result<(), CodeFault>
    ensures { Finds (λ u. tt) result cursor.new (reserved_at cursor.old) }
{
    byte_by(cursor, reserved_of)
}

/// An index, a depth, an alignment or an offset.
#[inline(always)]
#[tactic(auto, unfolding(crate::specs::Read::index_at))]
fn index(cursor: &mut Cursor) -> Result<u32, CodeFault>
    ensures { Finds (λ n. n) result cursor.new (index_at cursor.old) }
{
    match cursor.read_u32() {
        Ok(n) => Ok(n),
        Err(fault) => Err(number_fault(cursor, fault)),
    }
}

/// The bits of a number of 32 bits.
#[tactic(auto, unfolding(crate::specs::Read::bits32_at))]
fn bits32(cursor: &mut Cursor) -> Result<u64, CodeFault>
    ensures read { Finds (λ n. n) result cursor.new (bits32_at cursor.old) }
    ensures fits { IfOk result (λ n. n < 2 ^ 32) }
{
    match cursor.read_s32() {
        Ok(n) => Ok(u64::from(n.cast_unsigned())),
        Err(fault) => Err(number_fault(cursor, fault)),
    }
}

/// The bits of a number of 64 bits.
#[tactic(auto, unfolding(crate::specs::Read::bits64_at))]
fn bits64(cursor: &mut Cursor) -> Result<u64, CodeFault>
    ensures { Finds (λ n. n) result cursor.new (bits64_at cursor.old) }
{
    match cursor.read_s64() {
        Ok(n) => Ok(n.cast_unsigned()),
        Err(fault) => Err(number_fault(cursor, fault)),
    }
}

/// The bytes of the targets of a branch table.
#[inline(never)]
fn targets<'a>(cursor: &mut Cursor<'a>, count: u32) -> Result<&'a [u8], CodeFault>
    ensures targets { Finds (λ bytes. targets_in count bytes.now) result cursor.new (indexes_at count cursor.old) }
    ensures exactly { IfOk result (λ bytes. Times IsU32 count bytes.now (targets_in count bytes.now)) }
{
    let front = cursor.rest();
    'targets: for _ in 0..count {
        index(cursor)?;
    }
    let length = front.len() - cursor.rest().len();
    Ok(&front[..length])
}

/// What stands behind the opcode of a branch table.
#[inline(always)]
#[tactic(auto, unfolding(crate::specs::Read::branch_table_at))]
fn branch_table<'a>(cursor: &mut Cursor<'a>) -> Result<Instr<'a>, CodeFault>
    ensures instr { Finds op_of result cursor.new (branch_table_at cursor.old) }
    ensures exactly { IfOk result (λ i. IsExactly i) }
{
    let count = index(cursor)?;
    let targets = targets(cursor, count)?;
    let otherwise = index(cursor)?;
    Ok(Instr::BrTable {
        targets,
        count,
        otherwise,
    })
}

/// What stands behind the opcode of a load or a store.
#[inline(always)]
#[tactic(auto, unfolding(crate::specs::Read::access_at))]
fn access<'a>(cursor: &mut Cursor, label: Label, access: Access) -> Result<Instr<'a>, CodeFault>
    requires { IsListed (form.Access access) }
    ensures instr { Finds op_of result cursor.new (access_at label access cursor.old) }
    ensures exactly { IfOk result (λ i. IsExactly i) }
{
    let align = index(cursor)?;
    let offset = index(cursor)?;
    match access {
        Access::Load {
            width,
            bytes,
            signed,
        } => Ok(Instr::Load {
            width,
            label,
            bytes,
            signed,
            align,
            offset,
        }),
        Access::Store { width, bytes } => Ok(Instr::Store {
            width,
            label,
            bytes,
            signed: false,
            align,
            offset,
        }),
    }
}

/// An instruction that is its opcode alone.
#[inline(always)]
fn bare_instr<'a>(bare: Bare) -> Instr<'a>
    ensures instr { op_of result ≡ bare_op bare }
    ensures exactly { IsExactly result }
{
    match bare {
        Bare::Unreachable => Instr::Unreachable,
        Bare::Nop => Instr::Nop,
        Bare::Else => Instr::Else,
        Bare::End => Instr::End,
        Bare::Return => Instr::Return,
        Bare::Drop => Instr::Drop,
        Bare::Classify(width) => Instr::Classify { width },
        Bare::Declassify(width) => Instr::Declassify { width },
    }
}

/// An instruction that opens a block.
#[inline(always)]
fn opening_instr<'a>(opener: Opener, yielded: Option<ValType>) -> Instr<'a>
    ensures instr { op_of result ≡ Opens (shape_of opener) yielded }
    ensures exactly { IsExactly result }
{
    match opener {
        Opener::Block => Instr::Block { result: yielded },
        Opener::Loop => Instr::Loop { result: yielded },
        Opener::If => Instr::If { result: yielded },
    }
}

/// An instruction with one index.
#[inline(always)]
fn indexed_instr<'a>(indexed: Indexed, index: u32) -> Instr<'a>
    ensures instr { op_of result ≡ Plain (indexed_leaf indexed index) }
    ensures exactly { IsExactly result }
{
    match indexed {
        Indexed::Br => Instr::Br { depth: index },
        Indexed::BrIf => Instr::BrIf { depth: index },
        Indexed::Call => Instr::Call { index },
        Indexed::LocalGet => Instr::LocalGet { index },
        Indexed::LocalSet => Instr::LocalSet { index },
        Indexed::LocalTee => Instr::LocalTee { index },
        Indexed::GlobalGet => Instr::GlobalGet { index },
        Indexed::GlobalSet => Instr::GlobalSet { index },
    }
}

/// What stands behind the opcode of a constant.
#[inline(always)]
#[tactic(auto, unfolding(crate::specs::Read::constant_at))]
fn constant<'a>(cursor: &mut Cursor, label: Label, width: Width) -> Result<Instr<'a>, CodeFault>
    ensures instr { Finds op_of result cursor.new (constant_at label width cursor.old) }
    ensures exactly { IfOk result (λ i. IsExactly i) }
{
    match width {
        Width::W32 => {
            let bits = bits32(cursor)?;
            Ok(Instr::Const { width, label, bits })
        }
        Width::W64 => {
            let bits = bits64(cursor)?;
            Ok(Instr::Const { width, label, bits })
        }
    }
}

/// A numeric operation.
#[inline(always)]
fn numeric_instr<'a>(op: NumOp, label: Label) -> Instr<'a>
    ensures instr { op_of result ≡ Plain (Numeric op label) }
    ensures exactly { IsExactly result }
{
    Instr::Numeric { op, label }
}

/// What stands behind an opcode's byte.
#[inline(always)]
#[tactic(auto, unfolding(crate::specs::Read::immediate_at))]
fn immediate<'a>(cursor: &mut Cursor<'a>, label: Label, form: Form) -> Result<Instr<'a>, CodeFault>
    requires { IsListed form }
    ensures instr { Finds op_of result cursor.new (immediate_at label form cursor.old) }
    ensures exactly { IfOk result (λ i. IsExactly i) }
{
    match form {
        Form::Bare(bare) => Ok(bare_instr(bare)),
        Form::Opens(opener) => {
            let yielded = block_type(cursor)?;
            Ok(opening_instr(opener, yielded))
        }
        Form::Indexed(indexed) => {
            let n = index(cursor)?;
            Ok(indexed_instr(indexed, n))
        }
        Form::BrTable => branch_table(cursor),
        Form::CallIndirect => {
            let n = index(cursor)?;
            reserved(cursor)?;
            Ok(Instr::CallIndirect { index: n })
        }
        Form::MemorySize => {
            reserved(cursor)?;
            Ok(Instr::MemorySize)
        }
        Form::MemoryGrow => {
            reserved(cursor)?;
            Ok(Instr::MemoryGrow)
        }
        Form::Select => Ok(Instr::Select { label }),
        Form::Access(what) => access(cursor, label, what),
        Form::Const(width) => constant(cursor, label, width),
        Form::Numeric(op) => Ok(numeric_instr(op, label)),
    }
}

/// The instruction behind a prefix.
#[inline(always)]
#[tactic(auto, unfolding(crate::specs::Read::secret_at))]
fn secret<'a>(cursor: &mut Cursor<'a>) -> Result<Instr<'a>, CodeFault>
    ensures instr { Finds op_of result cursor.new (secret_at cursor.old) }
    ensures exactly { IfOk result (λ i. IsExactly i) }
{
    let form = byte_by(cursor, secret_form_of)?;
    immediate(cursor, Label::Secret, form)
}

/// What stands behind the first byte.
#[inline(always)]
fn behind<'a>(cursor: &mut Cursor<'a>, first: First) -> Result<Instr<'a>, CodeFault>
    requires { IsListedFirst first }
    ensures instr { Finds op_of result cursor.new (behind_at first cursor.old) }
    ensures exactly { IfOk result (λ i. IsExactly i) }
{
    match first {
        First::Prefix => secret(cursor),
        First::Direct(form) => immediate(cursor, Label::Public, form),
    }
}

/// An instruction with one index behind its opcode.
#[inline(always)]
#[tactic(auto, unfolding(crate::specs::Read::immediate_at))]
fn indexed<'a>(cursor: &mut Cursor<'a>, what: Indexed) -> Result<Instr<'a>, CodeFault>
    ensures instr { Finds op_of result cursor.new (immediate_at Public (form.Indexed what) cursor.old) }
    ensures exactly { IfOk result (λ i. IsExactly i) }
{
    let n = index(cursor)?;
    Ok(indexed_instr(what, n))
}

/// An instruction that opens a block, behind its opcode.
#[inline(always)]
#[tactic(auto, unfolding(crate::specs::Read::immediate_at))]
fn opening<'a>(cursor: &mut Cursor<'a>, opener: Opener) -> Result<Instr<'a>, CodeFault>
    ensures instr { Finds op_of result cursor.new (immediate_at Public (form.Opens opener) cursor.old) }
    ensures exactly { IfOk result (λ i. IsExactly i) }
{
    let yielded = block_type(cursor)?;
    Ok(opening_instr(opener, yielded))
}

/// What stands behind any first byte.
#[inline(never)]
fn behind_any<'a>(cursor: &mut Cursor<'a>, byte: u8, place: u32) -> Result<Instr<'a>, CodeFault>
    ensures instr { Finds op_of result cursor.new (behind_byte_at (opcode byte) place cursor.old) }
    ensures exactly { IfOk result (λ i. IsExactly i) }
{
    match first_of(byte) {
        Ok(first) => behind(cursor, first),
        Err(kind) => Err(CodeFault { kind, place }),
    }
}

/// The same; the most common bytes take the shortest way.
#[inline(always)]
#[tactic(auto, unfolding(crate::specs::Opcodes::opcode, crate::specs::Opcodes::form, crate::specs::Opcodes::control_form, crate::specs::Opcodes::variable_form, crate::specs::Opcodes::memory_form, crate::specs::Opcodes::is_float, ctw_ops::specs::Numeric::is_numeric, crate::specs::Read::immediate_at))]
fn behind_byte<'a>(cursor: &mut Cursor<'a>, byte: u8, place: u32) -> Result<Instr<'a>, CodeFault>
    ensures instr { Finds op_of result cursor.new (behind_byte_at (opcode byte) place cursor.old) }
    ensures exactly { IfOk result (λ i. IsExactly i) }
{
    match byte {
        0x02 => opening(cursor, Opener::Block),
        0x03 => opening(cursor, Opener::Loop),
        0x04 => opening(cursor, Opener::If),
        0x05 => Ok(bare_instr(Bare::Else)),
        0x0B => Ok(bare_instr(Bare::End)),
        0x0C => indexed(cursor, Indexed::Br),
        0x0D => indexed(cursor, Indexed::BrIf),
        0x0F => Ok(bare_instr(Bare::Return)),
        0x10 => indexed(cursor, Indexed::Call),
        0x1A => Ok(bare_instr(Bare::Drop)),
        0x20 => indexed(cursor, Indexed::LocalGet),
        0x21 => indexed(cursor, Indexed::LocalSet),
        0x22 => indexed(cursor, Indexed::LocalTee),
        0x23 => indexed(cursor, Indexed::GlobalGet),
        0x24 => indexed(cursor, Indexed::GlobalSet),
        0x41 => constant(cursor, Label::Public, Width::W32),
        0x42 => constant(cursor, Label::Public, Width::W64),
        0x45..=0x5A | 0x67..=0x8A | 0xA7 | 0xAC | 0xAD | 0xC0..=0xC4 => match numeric_of(byte) {
            Some(op) => Ok(numeric_instr(op, Label::Public)),
            None => behind_any(cursor, byte, place),
        },
        _ => behind_any(cursor, byte, place),
    }
}

/// The instruction at the cursor. After a fault the cursor may stand anywhere.
#[inline(always)]
#[tactic(auto, using(crate::proofs::Rows::op_behind, crate::proofs::Rows::op_short))]
pub fn read_instr<'a>(cursor: &mut Cursor<'a>) -> Result<Instr<'a>, CodeFault>
    ensures instr { Finds op_of result cursor.new (op_at cursor.old) }
    ensures exactly { IfOk result (λ i. IsExactly i) }
{
    let place = cursor.place();
    match cursor.byte() {
        Ok(byte) => behind_byte(cursor, byte, place),
        Err(_) => Err(CodeFault {
            kind: CodeKind::Truncated,
            place,
        }),
    }
}
