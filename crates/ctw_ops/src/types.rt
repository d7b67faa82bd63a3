ghost use Rattle.std.specs.Prelude.{◌≡◌};
ghost use Rattle.ctw_ops.specs.Types.{erase_value_type};

use std::marker::Model;

/// Whether a value may be seen: a secret number or memory decides no branch, address or division.
#[derive(Clone, Copy, Debug, PartialEq, Eq)]
pub enum Label {
    /// Anybody may see it.
    Public,
    /// An onlooker learns nothing of it.
    Secret,
}

/// The bits of an integer.
#[derive(Clone, Copy, Debug, PartialEq, Eq)]
pub enum Width {
    /// 32 bits.
    W32,
    /// 64 bits.
    W64,
}

/// A value type (W3C WebAssembly Core 1.0, section 2.3.1, with a label): i32, i64, s32 or s64.
#[derive(Clone, Copy, Debug, PartialEq, Eq)]
pub struct ValType {
    /// Its bits.
    pub width: Width,
    /// Public for i32 and i64, secret for s32 and s64.
    pub label: Label,
}

impl Model for ValType {
    ghost use Rattle.ctw_ops.specs.ValueType.{ValueType};
    ghost use Rattle.ctw_ops.specs.declared.types.Label.{Label};

    ghost Value = { ValueType Label };

    ghost view = { λ t. record { width = t.width; tag = t.label } };

    ghost inverse = { λ t. record { width = t.width; label = t.tag } };
}

/// Whether a function may declassify, and be called by functions that may.
#[derive(Clone, Copy, Debug, PartialEq, Eq)]
pub enum Trust {
    /// It can't declassify, nor call a function that can.
    Untrusted,
    /// It may declassify.
    Trusted,
}

/// The sizes that a memory (in pages of 65,536 bytes) or a table (in entries) may have.
#[derive(Clone, Copy, Debug, PartialEq, Eq)]
pub struct Limits {
    /// The size at the start.
    pub min: u32,
    /// The greatest size, if one is declared.
    pub max: Option<u32>,
}

/// A memory's type: all its bytes are public, or all are secret.
#[derive(Clone, Copy, Debug, PartialEq, Eq)]
pub struct MemType {
    /// The label of its bytes.
    pub label: Label,
    /// Its sizes in pages.
    pub limits: Limits,
}

impl Model for MemType {
    ghost use Rattle.ctw_ops.specs.Types.{MemoryType};
    ghost use Rattle.ctw_ops.specs.declared.types.Label.{Label};

    ghost Value = { MemoryType Label };

    ghost view = { λ t. record { tag = t.label; limits = t.limits } };

    ghost inverse = { λ t. record { label = t.tag; limits = t.limits } };
}

/// A global's type.
#[derive(Clone, Copy, Debug, PartialEq, Eq)]
pub struct GlobalType {
    /// The type of its value.
    pub value: ValType,
    /// Whether it may be written.
    pub mutable: bool,
}

impl Model for GlobalType {
    ghost use Rattle.ctw_ops.specs.Types.{VariableType};
    ghost use Rattle.ctw_ops.specs.declared.types.Label.{Label};

    ghost Value = { VariableType Label };

    ghost view = { λ t. record { mutable = t.mutable; value = t.value } };

    ghost inverse = { λ t. record { value = t.value; mutable = t.mutable } };
}

/// A function's type, with its parameters lent from a file.
#[derive(Drop)]
pub struct FuncType<'a> {
    /// Whether the function may declassify.
    pub trust: Trust,
    /// A byte for each parameter from the first on: 7F for i32, 7E for i64, 7A for s32, 79 for s64.
    pub params: &'a [u8],
    /// The type of what it gives back, if it gives something back.
    pub result: Option<ValType>,
}

impl<'a> Model for FuncType<'a> {
    ghost use Rattle.ctw_ops.specs.Types.{FunctionType, byte_types, is_type_byte};
    ghost use Rattle.ctw_ops.specs.declared.types.Label.{Label};
    ghost use Rattle.std.specs.Prelude.{IsTrue};
    ghost use Rattle.std.specs.List.{list_all};

    ghost Value = { FunctionType Label };

    ghost view = { λ t. record { trust = t.trust; params = byte_types t.params.now; result = t.result } };

    ghost invariant = { λ t. IsTrue (list_all is_type_byte t.params.now) };
}

/// The kinds of things that are imported and exported (W3C WebAssembly Core 1.0, sections 2.5.10 and 2.5.11).
#[derive(Clone, Copy, Debug, PartialEq, Eq)]
pub enum ExternTag {
    /// A function.
    Func,
    /// A table.
    Table,
    /// A memory.
    Memory,
    /// A global.
    Global,
}

/// The public type of the same width.
pub fn erase_type(t: ValType) -> ValType
    ensures { result ≡ erase_value_type t }
{
    ValType {
        width: t.width,
        label: Label::Public,
    }
}
