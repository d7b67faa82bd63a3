use ctw_ops::{Label, NumOp, ValType, Width};

/// One instruction of a body (W3C WebAssembly Core 1.0, section 5.4, without floats; and those of CT-Wasm).
#[derive(Clone, Copy, Debug, PartialEq, Eq)]
pub enum Instr<'a> {
    /// `unreachable`
    Unreachable,
    /// `nop`
    Nop,
    /// `block`, with the type of its result
    Block {
        result: Option<ValType>,
    },
    /// `loop`, with the type of its result
    Loop {
        result: Option<ValType>,
    },
    /// `if`, with the type of its result
    If {
        result: Option<ValType>,
    },
    /// `else`
    Else,
    /// `end`
    End,
    /// `br`
    Br {
        depth: u32,
    },
    /// `br_if`
    BrIf {
        depth: u32,
    },
    /// `br_table`: `targets` are the spellings of `count` numbers, and `otherwise` is the default
    BrTable {
        targets: &'a [u8],
        count: u32,
        otherwise: u32,
    },
    /// `return`
    Return,
    /// `call`
    Call {
        index: u32,
    },
    /// `call_indirect`, with the index of a type
    CallIndirect {
        index: u32,
    },
    /// `drop`
    Drop,
    /// `select`
    Select {
        label: Label,
    },
    /// `local.get`
    LocalGet {
        index: u32,
    },
    /// `local.set`
    LocalSet {
        index: u32,
    },
    /// `local.tee`
    LocalTee {
        index: u32,
    },
    /// `global.get`
    GlobalGet {
        index: u32,
    },
    /// `global.set`
    GlobalSet {
        index: u32,
    },
    /// A load of `bytes` bytes, which are extended to the width with their sign where `signed` says so
    Load {
        width: Width,
        label: Label,
        bytes: u8,
        signed: bool,
        align: u32,
        offset: u32,
    },
    /// A store of the lowest `bytes` bytes; never `signed`
    Store {
        width: Width,
        label: Label,
        bytes: u8,
        signed: bool,
        align: u32,
        offset: u32,
    },
    /// `memory.size`
    MemorySize,
    /// `memory.grow`
    MemoryGrow,
    /// A constant, by the bits of its number; those of width 32 are below 2^32
    Const {
        width: Width,
        label: Label,
        bits: u64,
    },
    /// A numeric operation
    Numeric {
        op: NumOp,
        label: Label,
    },
    /// `i32.classify` or `i64.classify`
    Classify {
        width: Width,
    },
    /// `s32.declassify` or `s64.declassify`
    Declassify {
        width: Width,
    },
}
