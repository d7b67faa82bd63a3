ghost use Rattle.std.specs.Prelude.{◌≡◌, true, Ok, IfOk, IfSome};
ghost use Rattle.ctw_ops.specs.Forms.{is_load, is_store};
ghost use Rattle.ctw_ops.specs.Types.{type_byte, byte_type};
ghost use Rattle.ctw_flat.specs.declared.opcode.First.TheVariants.{Direct};
ghost use Rattle.ctw_flat.specs.declared.opcode.Form.TheVariants.{Numeric};
ghost use Rattle.ctw_flat.specs.Instructions.{IsListed, IsListedFirst};
ghost use Rattle.ctw_flat.specs.Opcodes.{is_float, control_form, variable_form, load_form, store_form, memory_form, labelling_form, form, opcode, secret_form, block_type, reserved, bare_opcode, opener_opcode, indexed_opcode, load_opcode, store_opcode, access_opcode, const_opcode, opcode_byte, prefix_byte};

use crate::fault::CodeKind;
use ctw_ops::{Label, NumOp, ValType, Width, num_op};

/// Opcodes with nothing behind them.
#[derive(Clone, Copy, Debug, PartialEq, Eq)]
pub enum Bare {
    Unreachable,
    Nop,
    Else,
    End,
    Return,
    Drop,
    Classify(Width),
    Declassify(Width),
}

/// Opcodes that open a block.
#[derive(Clone, Copy, Debug, PartialEq, Eq)]
pub enum Opener {
    Block,
    Loop,
    If,
}

/// Opcodes with an index behind them.
#[derive(Clone, Copy, Debug, PartialEq, Eq)]
pub enum Indexed {
    Br,
    BrIf,
    Call,
    LocalGet,
    LocalSet,
    LocalTee,
    GlobalGet,
    GlobalSet,
}

/// Loads and stores, by the width of the value and the bytes of the access.
#[derive(Clone, Copy, Debug, PartialEq, Eq)]
pub enum Access {
    Load {
        width: Width,
        bytes: u8,
        signed: bool,
    },
    Store {
        width: Width,
        bytes: u8,
    },
}

/// The byte in front of the opcode of a secret form.
pub const SECRET_PREFIX: u8 = 0xE0;

/// What an opcode's byte stands for.
#[derive(Clone, Copy, Debug, PartialEq, Eq)]
pub enum Form {
    Bare(Bare),
    Opens(Opener),
    Indexed(Indexed),
    BrTable,
    CallIndirect,
    MemorySize,
    MemoryGrow,
    Select,
    Access(Access),
    Const(Width),
    Numeric(NumOp),
}

/// What the first byte of an instruction stands for.
#[derive(Clone, Copy, Debug, PartialEq, Eq)]
pub enum First {
    Direct(Form),
    Prefix,
}

/// Whether a byte is an opcode of floats of WebAssembly 1.0, which this profile has none of.
#[inline(always)]
#[tactic(auto, unfolding(crate::specs::Opcodes::is_float))]
pub fn is_float_opcode(byte: u8) -> bool
    ensures { result ≡ is_float byte }
{
    matches!(
        byte,
        0x2A..=0x2B | 0x38..=0x39 | 0x43..=0x44 | 0x5B..=0x66 | 0x8B..=0xA6 | 0xA8..=0xAB | 0xAE..=0xBF
    )
}

/// Control instructions: bytes up to 11.
#[inline(always)]
#[tactic(auto, unfolding(crate::specs::Opcodes::control_form))]
fn control(byte: u8) -> Result<Form, CodeKind>
    ensures form { result ≡ control_form byte }
    ensures listed { IfOk result (λ f. IsListed f) }
{
    match byte {
        0x00 => Ok(Form::Bare(Bare::Unreachable)),
        0x01 => Ok(Form::Bare(Bare::Nop)),
        0x02 => Ok(Form::Opens(Opener::Block)),
        0x03 => Ok(Form::Opens(Opener::Loop)),
        0x04 => Ok(Form::Opens(Opener::If)),
        0x05 => Ok(Form::Bare(Bare::Else)),
        0x0B => Ok(Form::Bare(Bare::End)),
        0x0C => Ok(Form::Indexed(Indexed::Br)),
        0x0D => Ok(Form::Indexed(Indexed::BrIf)),
        0x0E => Ok(Form::BrTable),
        0x0F => Ok(Form::Bare(Bare::Return)),
        0x10 => Ok(Form::Indexed(Indexed::Call)),
        0x11 => Ok(Form::CallIndirect),
        _ => Err(CodeKind::BadOpcode),
    }
}

/// Instructions on operands, locals and globals: bytes up to 24.
#[inline(always)]
#[tactic(auto, unfolding(crate::specs::Opcodes::variable_form))]
fn variable(byte: u8) -> Result<Form, CodeKind>
    ensures form { result ≡ variable_form byte }
    ensures listed { IfOk result (λ f. IsListed f) }
{
    match byte {
        0x1A => Ok(Form::Bare(Bare::Drop)),
        0x1B => Ok(Form::Select),
        0x20 => Ok(Form::Indexed(Indexed::LocalGet)),
        0x21 => Ok(Form::Indexed(Indexed::LocalSet)),
        0x22 => Ok(Form::Indexed(Indexed::LocalTee)),
        0x23 => Ok(Form::Indexed(Indexed::GlobalGet)),
        0x24 => Ok(Form::Indexed(Indexed::GlobalSet)),
        _ => Err(CodeKind::BadOpcode),
    }
}

/// A load.
#[inline(always)]
fn load(width: Width, bytes: u8, signed: bool) -> Form
    requires { is_load width bytes signed ≡ true }
    ensures form { result ≡ load_form width bytes signed }
    ensures listed { IsListed result }
{
    Form::Access(Access::Load {
        width,
        bytes,
        signed,
    })
}

/// A store.
#[inline(always)]
fn store(width: Width, bytes: u8) -> Form
    requires { is_store width bytes ≡ true }
    ensures form { result ≡ store_form width bytes }
    ensures listed { IsListed result }
{
    Form::Access(Access::Store { width, bytes })
}

/// Memory instructions and constants: bytes up to 42.
#[inline(always)]
#[tactic(auto, unfolding(crate::specs::Opcodes::memory_form))]
fn memory(byte: u8) -> Result<Form, CodeKind>
    ensures form { result ≡ memory_form byte }
    ensures listed { IfOk result (λ f. IsListed f) }
{
    match byte {
        0x28 => Ok(load(Width::W32, 4, false)),
        0x29 => Ok(load(Width::W64, 8, false)),
        0x2C => Ok(load(Width::W32, 1, true)),
        0x2D => Ok(load(Width::W32, 1, false)),
        0x2E => Ok(load(Width::W32, 2, true)),
        0x2F => Ok(load(Width::W32, 2, false)),
        0x30 => Ok(load(Width::W64, 1, true)),
        0x31 => Ok(load(Width::W64, 1, false)),
        0x32 => Ok(load(Width::W64, 2, true)),
        0x33 => Ok(load(Width::W64, 2, false)),
        0x34 => Ok(load(Width::W64, 4, true)),
        0x35 => Ok(load(Width::W64, 4, false)),
        0x36 => Ok(store(Width::W32, 4)),
        0x37 => Ok(store(Width::W64, 8)),
        0x3A => Ok(store(Width::W32, 1)),
        0x3B => Ok(store(Width::W32, 2)),
        0x3C => Ok(store(Width::W64, 1)),
        0x3D => Ok(store(Width::W64, 2)),
        0x3E => Ok(store(Width::W64, 4)),
        0x3F => Ok(Form::MemorySize),
        0x40 => Ok(Form::MemoryGrow),
        0x41 => Ok(Form::Const(Width::W32)),
        0x42 => Ok(Form::Const(Width::W64)),
        _ => Err(CodeKind::BadOpcode),
    }
}

/// The instructions that change a label.
#[inline(always)]
#[tactic(auto, unfolding(crate::specs::Opcodes::labelling_form))]
fn labelling(byte: u8) -> Result<Form, CodeKind>
    ensures form { result ≡ labelling_form byte }
    ensures listed { IfOk result (λ f. IsListed f) }
{
    match byte {
        0xE1 => Ok(Form::Bare(Bare::Classify(Width::W32))),
        0xE2 => Ok(Form::Bare(Bare::Classify(Width::W64))),
        0xE3 => Ok(Form::Bare(Bare::Declassify(Width::W32))),
        0xE4 => Ok(Form::Bare(Bare::Declassify(Width::W64))),
        _ => Err(CodeKind::BadOpcode),
    }
}

/// What an opcode's byte stands for, the prefix apart.
#[inline(always)]
#[tactic(auto, unfolding(crate::specs::Opcodes::form))]
pub fn form_of(byte: u8) -> Result<Form, CodeKind>
    ensures form { result ≡ form byte }
    ensures listed { IfOk result (λ f. IsListed f) }
{
    if byte <= 0x11 {
        return control(byte);
    }
    if byte <= 0x24 {
        return variable(byte);
    }
    if is_float_opcode(byte) {
        return Err(CodeKind::Floats);
    }
    if let Some(op) = num_op(byte) {
        return Ok(Form::Numeric(op));
    }
    if byte <= 0x42 {
        return memory(byte);
    }
    labelling(byte)
}

/// What the first byte of an instruction stands for.
#[inline(always)]
#[tactic(auto, unfolding(crate::specs::Opcodes::opcode))]
pub fn first_of(byte: u8) -> Result<First, CodeKind>
    ensures first { result ≡ opcode byte }
    ensures listed { IfOk result (λ first. IsListedFirst first) }
{
    if byte == SECRET_PREFIX {
        return Ok(First::Prefix);
    }
    match form_of(byte) {
        Ok(form) => Ok(First::Direct(form)),
        Err(kind) => Err(kind),
    }
}

/// The numeric operation of a byte that stands for one.
#[inline(always)]
#[tactic(auto, unfolding(crate::specs::Opcodes::opcode, crate::specs::Opcodes::form))]
pub fn numeric_of(byte: u8) -> Option<NumOp>
    ensures { IfSome result (λ op. opcode byte ≡ Ok (Direct (Numeric op))) }
{
    if byte <= 0x24 || byte == SECRET_PREFIX || is_float_opcode(byte) {
        return None;
    }
    num_op(byte)
}

/// What the byte behind the prefix stands for.
#[tactic(auto, unfolding(crate::specs::Opcodes::secret_form))]
pub fn secret_form_of(byte: u8) -> Result<Form, CodeKind>
    ensures form { result ≡ secret_form byte }
    ensures listed { IfOk result (λ f. IsListed f) }
{
    match form_of(byte) {
        Ok(form) => match form {
            Form::Select | Form::Access(_) | Form::Const(_) | Form::Numeric(_) => Ok(form),
            _ => Err(CodeKind::BadOpcode),
        },
        Err(kind) => Err(kind),
    }
}

/// The opcode of an instruction with nothing behind it.
#[inline(always)]
fn bare_opcode_of(bare: Bare) -> u8
    ensures { result ≡ bare_opcode bare }
{
    match bare {
        Bare::Unreachable => 0x00,
        Bare::Nop => 0x01,
        Bare::Else => 0x05,
        Bare::End => 0x0B,
        Bare::Return => 0x0F,
        Bare::Drop => 0x1A,
        Bare::Classify(Width::W32) => 0xE1,
        Bare::Classify(Width::W64) => 0xE2,
        Bare::Declassify(Width::W32) => 0xE3,
        Bare::Declassify(Width::W64) => 0xE4,
    }
}

/// The opcode that opens a block.
#[inline(always)]
fn opener_opcode_of(opener: Opener) -> u8
    ensures { result ≡ opener_opcode opener }
{
    match opener {
        Opener::Block => 0x02,
        Opener::Loop => 0x03,
        Opener::If => 0x04,
    }
}

/// The opcode of an instruction with an index behind it.
#[inline(always)]
fn indexed_opcode_of(indexed: Indexed) -> u8
    ensures { result ≡ indexed_opcode indexed }
{
    match indexed {
        Indexed::Br => 0x0C,
        Indexed::BrIf => 0x0D,
        Indexed::Call => 0x10,
        Indexed::LocalGet => 0x20,
        Indexed::LocalSet => 0x21,
        Indexed::LocalTee => 0x22,
        Indexed::GlobalGet => 0x23,
        Indexed::GlobalSet => 0x24,
    }
}

/// The opcode of a load.
#[inline(always)]
fn load_opcode_of(width: Width, bytes: u8, signed: bool) -> u8
    ensures { result ≡ load_opcode width bytes signed }
{
    match (width, bytes, signed) {
        (Width::W32, 1, true) => 0x2C,
        (Width::W32, 1, false) => 0x2D,
        (Width::W32, 2, true) => 0x2E,
        (Width::W32, 2, false) => 0x2F,
        (Width::W32, _, _) => 0x28,
        (Width::W64, 1, true) => 0x30,
        (Width::W64, 1, false) => 0x31,
        (Width::W64, 2, true) => 0x32,
        (Width::W64, 2, false) => 0x33,
        (Width::W64, 4, true) => 0x34,
        (Width::W64, 4, false) => 0x35,
        (Width::W64, _, _) => 0x29,
    }
}

/// The opcode of a store.
#[inline(always)]
fn store_opcode_of(width: Width, bytes: u8) -> u8
    ensures { result ≡ store_opcode width bytes }
{
    match (width, bytes) {
        (Width::W32, 1) => 0x3A,
        (Width::W32, 2) => 0x3B,
        (Width::W32, _) => 0x36,
        (Width::W64, 1) => 0x3C,
        (Width::W64, 2) => 0x3D,
        (Width::W64, 4) => 0x3E,
        (Width::W64, _) => 0x37,
    }
}

/// The opcode of a load or a store.
#[inline(always)]
fn access_opcode_of(access: Access) -> u8
    ensures { result ≡ access_opcode access }
{
    match access {
        Access::Load {
            width,
            bytes,
            signed,
        } => load_opcode_of(width, bytes, signed),
        Access::Store { width, bytes } => store_opcode_of(width, bytes),
    }
}

/// The opcode of a constant.
#[inline(always)]
fn const_opcode_of(width: Width) -> u8
    ensures { result ≡ const_opcode width }
{
    match width {
        Width::W32 => 0x41,
        Width::W64 => 0x42,
    }
}

/// The opcode of a form: the byte that stands for it, where it is an opcode's.
#[inline(always)]
pub fn opcode_of(form: Form) -> u8
    ensures { result ≡ opcode_byte form }
{
    match form {
        Form::Bare(bare) => bare_opcode_of(bare),
        Form::Opens(opener) => opener_opcode_of(opener),
        Form::Indexed(indexed) => indexed_opcode_of(indexed),
        Form::BrTable => 0x0E,
        Form::CallIndirect => 0x11,
        Form::MemorySize => 0x3F,
        Form::MemoryGrow => 0x40,
        Form::Select => 0x1B,
        Form::Access(access) => access_opcode_of(access),
        Form::Const(width) => const_opcode_of(width),
        Form::Numeric(op) => op.code(),
    }
}

/// The value type of a byte; None where it has none.
#[inline(always)]
pub fn type_of_byte(byte: u8) -> Option<ValType>
    ensures { result ≡ byte_type byte }
{
    let (width, label) = match byte {
        0x7F => (Width::W32, Label::Public),
        0x7E => (Width::W64, Label::Public),
        0x7A => (Width::W32, Label::Secret),
        0x79 => (Width::W64, Label::Secret),
        _ => return None,
    };
    Some(ValType { width, label })
}

/// The byte of a value type.
pub fn byte_of_type(t: ValType) -> u8
    ensures { result ≡ type_byte t }
{
    match (t.width, t.label) {
        (Width::W32, Label::Public) => 0x7F,
        (Width::W64, Label::Public) => 0x7E,
        (Width::W32, Label::Secret) => 0x7A,
        (Width::W64, Label::Secret) => 0x79,
    }
}

/// The result that a byte gives a block.
#[tactic(auto, unfolding(crate::specs::Opcodes::block_type))]
pub fn block_type_of(byte: u8) -> Result<Option<ValType>, CodeKind>
    ensures { result ≡ block_type byte }
{
    match byte {
        0x40 => Ok(None),
        0x7C | 0x7D => Err(CodeKind::Floats),
        _ => match type_of_byte(byte) {
            Some(t) => Ok(Some(t)),
            None => Err(CodeKind::BadBlockType),
        },
    }
}

/// A byte that has to be 00.
pub fn reserved_of(byte: u8) -> Result<(), CodeKind>
    ensures { result ≡ reserved byte }
{
    if byte == 0 {
        Ok(())
    } else {
        Err(CodeKind::BadOpcode)
    }
}
