//! The words of types and instructions.
ghost use Rattle.std.specs.Prelude.{◌≡◌, true};
ghost use Rattle.ctw_print.specs.Words.{value_word, select_word, load_end, store_end, comparison_end, arithmetic_end, conversion_end, front_width, numeric_end};
ghost use Rattle.ctw_print.specs.Texts.{kind_word};

use ctw_ops::{ExternTag, Label, NumOp, ValType, Width};

/// The word of a value type.
#[inline(always)]
pub(crate) fn value_word(ty: ValType) -> &'static str
    ensures { result.now ≡ value_word ty }
{
    match (ty.width, ty.label) {
        (Width::W32, Label::Public) => "i32",
        (Width::W64, Label::Public) => "i64",
        (Width::W32, Label::Secret) => "s32",
        (Width::W64, Label::Secret) => "s64",
    }
}

/// The word of a `select`.
pub(crate) fn select_word(label: Label) -> &'static str
    ensures { result.now ≡ select_word label }
{
    match label {
        Label::Public => "select",
        Label::Secret => "secret.select",
    }
}

/// The word of what is exported.
pub(crate) fn kind_word(kind: ExternTag) -> &'static str
    ensures { result.now ≡ kind_word kind }
{
    match kind {
        ExternTag::Func => "func",
        ExternTag::Table => "table",
        ExternTag::Memory => "memory",
        ExternTag::Global => "global",
    }
}

/// What stands behind the type's word in the word of a load.
pub(crate) fn load_end(width: Width, bytes: u8, signed: bool) -> &'static str
    ensures { result.now ≡ load_end width bytes signed }
{
    match (bytes, signed, width) {
        (1, true, _) => ".load8_s",
        (1, false, _) => ".load8_u",
        (2, true, _) => ".load16_s",
        (2, false, _) => ".load16_u",
        (4, true, Width::W64) => ".load32_s",
        (4, false, Width::W64) => ".load32_u",
        _ => ".load",
    }
}

/// What stands behind the type's word in the word of a store.
pub(crate) fn store_end(width: Width, bytes: u8) -> &'static str
    ensures { result.now ≡ store_end width bytes }
{
    match (bytes, width) {
        (1, _) => ".store8",
        (2, _) => ".store16",
        (4, Width::W64) => ".store32",
        _ => ".store",
    }
}

/// What stands behind the type's word in the word of a test or comparison, which are counted from `eqz` on.
fn comparison_end(number: u8) -> &'static str
    ensures { result.now ≡ comparison_end number }
{
    match number {
        0 => ".eqz",
        1 => ".eq",
        2 => ".ne",
        3 => ".lt_s",
        4 => ".lt_u",
        5 => ".gt_s",
        6 => ".gt_u",
        7 => ".le_s",
        8 => ".le_u",
        9 => ".ge_s",
        _ => ".ge_u",
    }
}

/// What stands behind the type's word in the word of an operation, which are counted from `clz` on.
fn arithmetic_end(number: u8) -> &'static str
    ensures { result.now ≡ arithmetic_end number }
{
    match number {
        0 => ".clz",
        1 => ".ctz",
        2 => ".popcnt",
        3 => ".add",
        4 => ".sub",
        5 => ".mul",
        6 => ".div_s",
        7 => ".div_u",
        8 => ".rem_s",
        9 => ".rem_u",
        10 => ".and",
        11 => ".or",
        12 => ".xor",
        13 => ".shl",
        14 => ".shr_s",
        15 => ".shr_u",
        16 => ".rotl",
        _ => ".rotr",
    }
}

/// What stands behind the type's word in the word of a conversion, by its opcode.
fn conversion_end(op: u8, label: Label) -> &'static str
    ensures { result.now ≡ conversion_end op label }
{
    match (op, label) {
        (0xA7, Label::Public) => ".wrap_i64",
        (0xA7, Label::Secret) => ".wrap_s64",
        (0xAC, Label::Public) => ".extend_i32_s",
        (0xAC, Label::Secret) => ".extend_s32_s",
        (0xAD, Label::Public) => ".extend_i32_u",
        (0xAD, Label::Secret) => ".extend_s32_u",
        (0xC0, _) => ".extend8_s",
        (0xC1, _) => ".extend16_s",
        (0xC2, _) => ".extend8_s",
        (0xC3, _) => ".extend16_s",
        _ => ".extend32_s",
    }
}

/// The width of the type whose word stands in front of the word of a numeric operation.
#[tactic(auto, unfolding(crate::specs::Words::front_width))]
pub(crate) fn front_width(op: NumOp) -> Width
    ensures { result ≡ front_width op }
{
    match op.code() {
        0x45..=0x4F | 0x67..=0x78 | 0xA7 | 0xC0..=0xC1 => Width::W32,
        _ => Width::W64,
    }
}

/// What stands behind the type's word in the word of a numeric operation.
#[tactic(auto, unfolding(crate::specs::Words::numeric_end))]
pub(crate) fn numeric_end(op: NumOp, label: Label) -> &'static str
    ensures { result.now ≡ numeric_end op label }
{
    let op = op.code();
    match op {
        0x45..=0x4F => comparison_end(op - 0x45),
        0x50..=0x5A => comparison_end(op - 0x50),
        0x67..=0x78 => arithmetic_end(op - 0x67),
        0x79..=0x8A => arithmetic_end(op - 0x79),
        _ => conversion_end(op, label),
    }
}
