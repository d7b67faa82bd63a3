// The table of words.

ghost use Rattle.std.specs.Prelude.{◌≡◌, ◌≤◌, length, map};
ghost use Rattle.ctw_text.specs.Words.{look_up, key_of};
ghost use Rattle.ctw_text.specs.Buckets.{key_in, told};

use crate::keys::{Form, Indexed, Key, Leaf, LeafKind, Opener, Part, Shape};
use ctw_ops::{ExternTag, Label, ValType, Width};

/// What a word stands for, as the table holds it.
#[derive(Clone, Copy)]
pub enum Meaning {
    Module,
    Ct,
    Type,
    Variant,
    Trusted,
    Import,
    Export,
    Start,
    Elem,
    Data,
    Custom,
    Mut,
    Secret,
    Funcref,
    Offset,
    Then,
    Else,
    End,
    Extern(ExternTag),
    Group(Part),
    Shape(Opener),
    Ty(Width, Label),
    Bare(LeafKind),
    Access(LeafKind),
    Const(Width, Label),
    Uses(Indexed),
    BrTable,
    CallIndirect,
}

/// A word and what it stands for.
#[derive(Clone, Copy)]
pub struct Entry {
    /// Its bytes, and then zeros.
    pub word: [u8; 16],
    pub meaning: Meaning,
}

macro_rules! entry {
    ($word:literal, $meaning:expr) => {
        Entry {
            word: *$word,
            meaning: $meaning,
        }
    };
}

macro_rules! value_type {
    ($word:literal, $width:ident, $label:ident) => {
        entry!($word, Meaning::Ty(Width::$width, Label::$label))
    };
}

macro_rules! constant {
    ($word:literal, $width:ident, $label:ident) => {
        entry!($word, Meaning::Const(Width::$width, Label::$label))
    };
}

macro_rules! bare {
    ($word:literal, $kind:expr) => {
        entry!($word, Meaning::Bare($kind))
    };
}

macro_rules! numeric {
    ($word:literal, $opcode:literal, $label:ident) => {
        bare!($word, LeafKind::Numeric($opcode, Label::$label))
    };
}

macro_rules! load {
    ($word:literal, $width:ident, $label:ident, $bytes:literal, $signed:literal, $align:literal) => {
        entry!(
            $word,
            Meaning::Access(LeafKind::Load {
                width: Width::$width,
                label: Label::$label,
                bytes: $bytes,
                signed: $signed,
                align: $align,
                offset: 0,
            })
        )
    };
}

macro_rules! store {
    ($word:literal, $width:ident, $label:ident, $bytes:literal, $align:literal) => {
        entry!(
            $word,
            Meaning::Access(LeafKind::Store {
                width: Width::$width,
                label: Label::$label,
                bytes: $bytes,
                align: $align,
                offset: 0,
            })
        )
    };
}

const WORDS_2: [Entry; 3] = [
    entry!(b"ct\0\0\0\0\0\0\0\0\0\0\0\0\0\0", Meaning::Ct),
    entry!(
        b"if\0\0\0\0\0\0\0\0\0\0\0\0\0\0",
        Meaning::Shape(Opener::If)
    ),
    entry!(
        b"br\0\0\0\0\0\0\0\0\0\0\0\0\0\0",
        Meaning::Uses(Indexed::Br)
    ),
];

const WORDS_3: [Entry; 7] = [
    entry!(b"mut\0\0\0\0\0\0\0\0\0\0\0\0\0", Meaning::Mut),
    entry!(b"end\0\0\0\0\0\0\0\0\0\0\0\0\0", Meaning::End),
    value_type!(b"i32\0\0\0\0\0\0\0\0\0\0\0\0\0", W32, Public),
    value_type!(b"i64\0\0\0\0\0\0\0\0\0\0\0\0\0", W64, Public),
    value_type!(b"s32\0\0\0\0\0\0\0\0\0\0\0\0\0", W32, Secret),
    value_type!(b"s64\0\0\0\0\0\0\0\0\0\0\0\0\0", W64, Secret),
    bare!(b"nop\0\0\0\0\0\0\0\0\0\0\0\0\0", LeafKind::Nop),
];

const WORDS_4: [Entry; 9] = [
    entry!(b"type\0\0\0\0\0\0\0\0\0\0\0\0", Meaning::Type),
    entry!(b"elem\0\0\0\0\0\0\0\0\0\0\0\0", Meaning::Elem),
    entry!(b"data\0\0\0\0\0\0\0\0\0\0\0\0", Meaning::Data),
    entry!(b"then\0\0\0\0\0\0\0\0\0\0\0\0", Meaning::Then),
    entry!(b"else\0\0\0\0\0\0\0\0\0\0\0\0", Meaning::Else),
    entry!(
        b"func\0\0\0\0\0\0\0\0\0\0\0\0",
        Meaning::Extern(ExternTag::Func)
    ),
    entry!(
        b"loop\0\0\0\0\0\0\0\0\0\0\0\0",
        Meaning::Shape(Opener::Loop)
    ),
    entry!(
        b"call\0\0\0\0\0\0\0\0\0\0\0\0",
        Meaning::Uses(Indexed::Call)
    ),
    bare!(b"drop\0\0\0\0\0\0\0\0\0\0\0\0", LeafKind::Drop),
];

const WORDS_5: [Entry; 6] = [
    entry!(b"start\0\0\0\0\0\0\0\0\0\0\0", Meaning::Start),
    entry!(
        b"table\0\0\0\0\0\0\0\0\0\0\0",
        Meaning::Extern(ExternTag::Table)
    ),
    entry!(b"param\0\0\0\0\0\0\0\0\0\0\0", Meaning::Group(Part::Param)),
    entry!(b"local\0\0\0\0\0\0\0\0\0\0\0", Meaning::Group(Part::Local)),
    entry!(
        b"block\0\0\0\0\0\0\0\0\0\0\0",
        Meaning::Shape(Opener::Block)
    ),
    entry!(b"br_if\0\0\0\0\0\0\0\0\0\0\0", Meaning::Uses(Indexed::BrIf)),
];

const WORDS_6: [Entry; 23] = [
    entry!(b"module\0\0\0\0\0\0\0\0\0\0", Meaning::Module),
    entry!(b"import\0\0\0\0\0\0\0\0\0\0", Meaning::Import),
    entry!(b"export\0\0\0\0\0\0\0\0\0\0", Meaning::Export),
    entry!(b"custom\0\0\0\0\0\0\0\0\0\0", Meaning::Custom),
    entry!(b"secret\0\0\0\0\0\0\0\0\0\0", Meaning::Secret),
    entry!(b"offset\0\0\0\0\0\0\0\0\0\0", Meaning::Offset),
    entry!(
        b"memory\0\0\0\0\0\0\0\0\0\0",
        Meaning::Extern(ExternTag::Memory)
    ),
    entry!(
        b"global\0\0\0\0\0\0\0\0\0\0",
        Meaning::Extern(ExternTag::Global)
    ),
    entry!(b"result\0\0\0\0\0\0\0\0\0\0", Meaning::Group(Part::Result)),
    bare!(b"return\0\0\0\0\0\0\0\0\0\0", LeafKind::Return),
    bare!(
        b"select\0\0\0\0\0\0\0\0\0\0",
        LeafKind::Select(Label::Public)
    ),
    numeric!(b"i32.eq\0\0\0\0\0\0\0\0\0\0", 0x46, Public),
    numeric!(b"i32.ne\0\0\0\0\0\0\0\0\0\0", 0x47, Public),
    numeric!(b"i64.eq\0\0\0\0\0\0\0\0\0\0", 0x51, Public),
    numeric!(b"i64.ne\0\0\0\0\0\0\0\0\0\0", 0x52, Public),
    numeric!(b"i32.or\0\0\0\0\0\0\0\0\0\0", 0x72, Public),
    numeric!(b"i64.or\0\0\0\0\0\0\0\0\0\0", 0x84, Public),
    numeric!(b"s32.eq\0\0\0\0\0\0\0\0\0\0", 0x46, Secret),
    numeric!(b"s32.ne\0\0\0\0\0\0\0\0\0\0", 0x47, Secret),
    numeric!(b"s64.eq\0\0\0\0\0\0\0\0\0\0", 0x51, Secret),
    numeric!(b"s64.ne\0\0\0\0\0\0\0\0\0\0", 0x52, Secret),
    numeric!(b"s32.or\0\0\0\0\0\0\0\0\0\0", 0x72, Secret),
    numeric!(b"s64.or\0\0\0\0\0\0\0\0\0\0", 0x84, Secret),
];

const WORDS_7: [Entry; 39] = [
    entry!(b"variant\0\0\0\0\0\0\0\0\0", Meaning::Variant),
    entry!(b"trusted\0\0\0\0\0\0\0\0\0", Meaning::Trusted),
    entry!(b"funcref\0\0\0\0\0\0\0\0\0", Meaning::Funcref),
    numeric!(b"i32.eqz\0\0\0\0\0\0\0\0\0", 0x45, Public),
    numeric!(b"i64.eqz\0\0\0\0\0\0\0\0\0", 0x50, Public),
    numeric!(b"i32.clz\0\0\0\0\0\0\0\0\0", 0x67, Public),
    numeric!(b"i32.ctz\0\0\0\0\0\0\0\0\0", 0x68, Public),
    numeric!(b"i32.add\0\0\0\0\0\0\0\0\0", 0x6A, Public),
    numeric!(b"i32.sub\0\0\0\0\0\0\0\0\0", 0x6B, Public),
    numeric!(b"i32.mul\0\0\0\0\0\0\0\0\0", 0x6C, Public),
    numeric!(b"i32.and\0\0\0\0\0\0\0\0\0", 0x71, Public),
    numeric!(b"i32.xor\0\0\0\0\0\0\0\0\0", 0x73, Public),
    numeric!(b"i32.shl\0\0\0\0\0\0\0\0\0", 0x74, Public),
    numeric!(b"i64.clz\0\0\0\0\0\0\0\0\0", 0x79, Public),
    numeric!(b"i64.ctz\0\0\0\0\0\0\0\0\0", 0x7A, Public),
    numeric!(b"i64.add\0\0\0\0\0\0\0\0\0", 0x7C, Public),
    numeric!(b"i64.sub\0\0\0\0\0\0\0\0\0", 0x7D, Public),
    numeric!(b"i64.mul\0\0\0\0\0\0\0\0\0", 0x7E, Public),
    numeric!(b"i64.and\0\0\0\0\0\0\0\0\0", 0x83, Public),
    numeric!(b"i64.xor\0\0\0\0\0\0\0\0\0", 0x85, Public),
    numeric!(b"i64.shl\0\0\0\0\0\0\0\0\0", 0x86, Public),
    numeric!(b"s32.eqz\0\0\0\0\0\0\0\0\0", 0x45, Secret),
    numeric!(b"s64.eqz\0\0\0\0\0\0\0\0\0", 0x50, Secret),
    numeric!(b"s32.clz\0\0\0\0\0\0\0\0\0", 0x67, Secret),
    numeric!(b"s32.ctz\0\0\0\0\0\0\0\0\0", 0x68, Secret),
    numeric!(b"s32.add\0\0\0\0\0\0\0\0\0", 0x6A, Secret),
    numeric!(b"s32.sub\0\0\0\0\0\0\0\0\0", 0x6B, Secret),
    numeric!(b"s32.mul\0\0\0\0\0\0\0\0\0", 0x6C, Secret),
    numeric!(b"s32.and\0\0\0\0\0\0\0\0\0", 0x71, Secret),
    numeric!(b"s32.xor\0\0\0\0\0\0\0\0\0", 0x73, Secret),
    numeric!(b"s32.shl\0\0\0\0\0\0\0\0\0", 0x74, Secret),
    numeric!(b"s64.clz\0\0\0\0\0\0\0\0\0", 0x79, Secret),
    numeric!(b"s64.ctz\0\0\0\0\0\0\0\0\0", 0x7A, Secret),
    numeric!(b"s64.add\0\0\0\0\0\0\0\0\0", 0x7C, Secret),
    numeric!(b"s64.sub\0\0\0\0\0\0\0\0\0", 0x7D, Secret),
    numeric!(b"s64.mul\0\0\0\0\0\0\0\0\0", 0x7E, Secret),
    numeric!(b"s64.and\0\0\0\0\0\0\0\0\0", 0x83, Secret),
    numeric!(b"s64.xor\0\0\0\0\0\0\0\0\0", 0x85, Secret),
    numeric!(b"s64.shl\0\0\0\0\0\0\0\0\0", 0x86, Secret),
];

const WORDS_8: [Entry; 45] = [
    entry!(b"br_table\0\0\0\0\0\0\0\0", Meaning::BrTable),
    load!(b"i32.load\0\0\0\0\0\0\0\0", W32, Public, 4, false, 2),
    load!(b"i64.load\0\0\0\0\0\0\0\0", W64, Public, 8, false, 3),
    load!(b"s32.load\0\0\0\0\0\0\0\0", W32, Secret, 4, false, 2),
    load!(b"s64.load\0\0\0\0\0\0\0\0", W64, Secret, 8, false, 3),
    numeric!(b"i32.lt_s\0\0\0\0\0\0\0\0", 0x48, Public),
    numeric!(b"i32.lt_u\0\0\0\0\0\0\0\0", 0x49, Public),
    numeric!(b"i32.gt_s\0\0\0\0\0\0\0\0", 0x4A, Public),
    numeric!(b"i32.gt_u\0\0\0\0\0\0\0\0", 0x4B, Public),
    numeric!(b"i32.le_s\0\0\0\0\0\0\0\0", 0x4C, Public),
    numeric!(b"i32.le_u\0\0\0\0\0\0\0\0", 0x4D, Public),
    numeric!(b"i32.ge_s\0\0\0\0\0\0\0\0", 0x4E, Public),
    numeric!(b"i32.ge_u\0\0\0\0\0\0\0\0", 0x4F, Public),
    numeric!(b"i64.lt_s\0\0\0\0\0\0\0\0", 0x53, Public),
    numeric!(b"i64.lt_u\0\0\0\0\0\0\0\0", 0x54, Public),
    numeric!(b"i64.gt_s\0\0\0\0\0\0\0\0", 0x55, Public),
    numeric!(b"i64.gt_u\0\0\0\0\0\0\0\0", 0x56, Public),
    numeric!(b"i64.le_s\0\0\0\0\0\0\0\0", 0x57, Public),
    numeric!(b"i64.le_u\0\0\0\0\0\0\0\0", 0x58, Public),
    numeric!(b"i64.ge_s\0\0\0\0\0\0\0\0", 0x59, Public),
    numeric!(b"i64.ge_u\0\0\0\0\0\0\0\0", 0x5A, Public),
    numeric!(b"i32.rotl\0\0\0\0\0\0\0\0", 0x77, Public),
    numeric!(b"i32.rotr\0\0\0\0\0\0\0\0", 0x78, Public),
    numeric!(b"i64.rotl\0\0\0\0\0\0\0\0", 0x89, Public),
    numeric!(b"i64.rotr\0\0\0\0\0\0\0\0", 0x8A, Public),
    numeric!(b"s32.lt_s\0\0\0\0\0\0\0\0", 0x48, Secret),
    numeric!(b"s32.lt_u\0\0\0\0\0\0\0\0", 0x49, Secret),
    numeric!(b"s32.gt_s\0\0\0\0\0\0\0\0", 0x4A, Secret),
    numeric!(b"s32.gt_u\0\0\0\0\0\0\0\0", 0x4B, Secret),
    numeric!(b"s32.le_s\0\0\0\0\0\0\0\0", 0x4C, Secret),
    numeric!(b"s32.le_u\0\0\0\0\0\0\0\0", 0x4D, Secret),
    numeric!(b"s32.ge_s\0\0\0\0\0\0\0\0", 0x4E, Secret),
    numeric!(b"s32.ge_u\0\0\0\0\0\0\0\0", 0x4F, Secret),
    numeric!(b"s64.lt_s\0\0\0\0\0\0\0\0", 0x53, Secret),
    numeric!(b"s64.lt_u\0\0\0\0\0\0\0\0", 0x54, Secret),
    numeric!(b"s64.gt_s\0\0\0\0\0\0\0\0", 0x55, Secret),
    numeric!(b"s64.gt_u\0\0\0\0\0\0\0\0", 0x56, Secret),
    numeric!(b"s64.le_s\0\0\0\0\0\0\0\0", 0x57, Secret),
    numeric!(b"s64.le_u\0\0\0\0\0\0\0\0", 0x58, Secret),
    numeric!(b"s64.ge_s\0\0\0\0\0\0\0\0", 0x59, Secret),
    numeric!(b"s64.ge_u\0\0\0\0\0\0\0\0", 0x5A, Secret),
    numeric!(b"s32.rotl\0\0\0\0\0\0\0\0", 0x77, Secret),
    numeric!(b"s32.rotr\0\0\0\0\0\0\0\0", 0x78, Secret),
    numeric!(b"s64.rotl\0\0\0\0\0\0\0\0", 0x89, Secret),
    numeric!(b"s64.rotr\0\0\0\0\0\0\0\0", 0x8A, Secret),
];

const WORDS_9: [Entry; 35] = [
    entry!(b"local.get\0\0\0\0\0\0\0", Meaning::Uses(Indexed::LocalGet)),
    entry!(b"local.set\0\0\0\0\0\0\0", Meaning::Uses(Indexed::LocalSet)),
    entry!(b"local.tee\0\0\0\0\0\0\0", Meaning::Uses(Indexed::LocalTee)),
    constant!(b"i32.const\0\0\0\0\0\0\0", W32, Public),
    constant!(b"i64.const\0\0\0\0\0\0\0", W64, Public),
    constant!(b"s32.const\0\0\0\0\0\0\0", W32, Secret),
    constant!(b"s64.const\0\0\0\0\0\0\0", W64, Secret),
    store!(b"i32.store\0\0\0\0\0\0\0", W32, Public, 4, 2),
    store!(b"i64.store\0\0\0\0\0\0\0", W64, Public, 8, 3),
    store!(b"s32.store\0\0\0\0\0\0\0", W32, Secret, 4, 2),
    store!(b"s64.store\0\0\0\0\0\0\0", W64, Secret, 8, 3),
    numeric!(b"i32.div_s\0\0\0\0\0\0\0", 0x6D, Public),
    numeric!(b"i32.div_u\0\0\0\0\0\0\0", 0x6E, Public),
    numeric!(b"i32.rem_s\0\0\0\0\0\0\0", 0x6F, Public),
    numeric!(b"i32.rem_u\0\0\0\0\0\0\0", 0x70, Public),
    numeric!(b"i32.shr_s\0\0\0\0\0\0\0", 0x75, Public),
    numeric!(b"i32.shr_u\0\0\0\0\0\0\0", 0x76, Public),
    numeric!(b"i64.div_s\0\0\0\0\0\0\0", 0x7F, Public),
    numeric!(b"i64.div_u\0\0\0\0\0\0\0", 0x80, Public),
    numeric!(b"i64.rem_s\0\0\0\0\0\0\0", 0x81, Public),
    numeric!(b"i64.rem_u\0\0\0\0\0\0\0", 0x82, Public),
    numeric!(b"i64.shr_s\0\0\0\0\0\0\0", 0x87, Public),
    numeric!(b"i64.shr_u\0\0\0\0\0\0\0", 0x88, Public),
    numeric!(b"s32.div_s\0\0\0\0\0\0\0", 0x6D, Secret),
    numeric!(b"s32.div_u\0\0\0\0\0\0\0", 0x6E, Secret),
    numeric!(b"s32.rem_s\0\0\0\0\0\0\0", 0x6F, Secret),
    numeric!(b"s32.rem_u\0\0\0\0\0\0\0", 0x70, Secret),
    numeric!(b"s32.shr_s\0\0\0\0\0\0\0", 0x75, Secret),
    numeric!(b"s32.shr_u\0\0\0\0\0\0\0", 0x76, Secret),
    numeric!(b"s64.div_s\0\0\0\0\0\0\0", 0x7F, Secret),
    numeric!(b"s64.div_u\0\0\0\0\0\0\0", 0x80, Secret),
    numeric!(b"s64.rem_s\0\0\0\0\0\0\0", 0x81, Secret),
    numeric!(b"s64.rem_u\0\0\0\0\0\0\0", 0x82, Secret),
    numeric!(b"s64.shr_s\0\0\0\0\0\0\0", 0x87, Secret),
    numeric!(b"s64.shr_u\0\0\0\0\0\0\0", 0x88, Secret),
];

const WORDS_10: [Entry; 10] = [
    entry!(b"global.get\0\0\0\0\0\0", Meaning::Uses(Indexed::GlobalGet)),
    entry!(b"global.set\0\0\0\0\0\0", Meaning::Uses(Indexed::GlobalSet)),
    store!(b"i32.store8\0\0\0\0\0\0", W32, Public, 1, 0),
    store!(b"i64.store8\0\0\0\0\0\0", W64, Public, 1, 0),
    store!(b"s32.store8\0\0\0\0\0\0", W32, Secret, 1, 0),
    store!(b"s64.store8\0\0\0\0\0\0", W64, Secret, 1, 0),
    numeric!(b"i32.popcnt\0\0\0\0\0\0", 0x69, Public),
    numeric!(b"i64.popcnt\0\0\0\0\0\0", 0x7B, Public),
    numeric!(b"s32.popcnt\0\0\0\0\0\0", 0x69, Secret),
    numeric!(b"s64.popcnt\0\0\0\0\0\0", 0x7B, Secret),
];

const WORDS_11: [Entry; 17] = [
    bare!(b"unreachable\0\0\0\0\0", LeafKind::Unreachable),
    bare!(b"memory.size\0\0\0\0\0", LeafKind::MemorySize),
    bare!(b"memory.grow\0\0\0\0\0", LeafKind::MemoryGrow),
    load!(b"i32.load8_s\0\0\0\0\0", W32, Public, 1, true, 0),
    load!(b"i32.load8_u\0\0\0\0\0", W32, Public, 1, false, 0),
    load!(b"i64.load8_s\0\0\0\0\0", W64, Public, 1, true, 0),
    load!(b"i64.load8_u\0\0\0\0\0", W64, Public, 1, false, 0),
    store!(b"i32.store16\0\0\0\0\0", W32, Public, 2, 1),
    store!(b"i64.store16\0\0\0\0\0", W64, Public, 2, 1),
    store!(b"i64.store32\0\0\0\0\0", W64, Public, 4, 2),
    load!(b"s32.load8_s\0\0\0\0\0", W32, Secret, 1, true, 0),
    load!(b"s32.load8_u\0\0\0\0\0", W32, Secret, 1, false, 0),
    load!(b"s64.load8_s\0\0\0\0\0", W64, Secret, 1, true, 0),
    load!(b"s64.load8_u\0\0\0\0\0", W64, Secret, 1, false, 0),
    store!(b"s32.store16\0\0\0\0\0", W32, Secret, 2, 1),
    store!(b"s64.store16\0\0\0\0\0", W64, Secret, 2, 1),
    store!(b"s64.store32\0\0\0\0\0", W64, Secret, 4, 2),
];

const WORDS_12: [Entry; 16] = [
    bare!(b"i32.classify\0\0\0\0", LeafKind::Classify(Width::W32)),
    bare!(b"i64.classify\0\0\0\0", LeafKind::Classify(Width::W64)),
    load!(b"i32.load16_s\0\0\0\0", W32, Public, 2, true, 1),
    load!(b"i32.load16_u\0\0\0\0", W32, Public, 2, false, 1),
    load!(b"i64.load16_s\0\0\0\0", W64, Public, 2, true, 1),
    load!(b"i64.load16_u\0\0\0\0", W64, Public, 2, false, 1),
    load!(b"i64.load32_s\0\0\0\0", W64, Public, 4, true, 2),
    load!(b"i64.load32_u\0\0\0\0", W64, Public, 4, false, 2),
    load!(b"s32.load16_s\0\0\0\0", W32, Secret, 2, true, 1),
    load!(b"s32.load16_u\0\0\0\0", W32, Secret, 2, false, 1),
    load!(b"s64.load16_s\0\0\0\0", W64, Secret, 2, true, 1),
    load!(b"s64.load16_u\0\0\0\0", W64, Secret, 2, false, 1),
    load!(b"s64.load32_s\0\0\0\0", W64, Secret, 4, true, 2),
    load!(b"s64.load32_u\0\0\0\0", W64, Secret, 4, false, 2),
    numeric!(b"i32.wrap_i64\0\0\0\0", 0xA7, Public),
    numeric!(b"s32.wrap_s64\0\0\0\0", 0xA7, Secret),
];

const WORDS_13: [Entry; 6] = [
    entry!(b"call_indirect\0\0\0", Meaning::CallIndirect),
    bare!(b"secret.select\0\0\0", LeafKind::Select(Label::Secret)),
    numeric!(b"i32.extend8_s\0\0\0", 0xC0, Public),
    numeric!(b"i64.extend8_s\0\0\0", 0xC2, Public),
    numeric!(b"s32.extend8_s\0\0\0", 0xC0, Secret),
    numeric!(b"s64.extend8_s\0\0\0", 0xC2, Secret),
];

const WORDS_14: [Entry; 8] = [
    bare!(b"s32.declassify\0\0", LeafKind::Declassify(Width::W32)),
    bare!(b"s64.declassify\0\0", LeafKind::Declassify(Width::W64)),
    numeric!(b"i32.extend16_s\0\0", 0xC1, Public),
    numeric!(b"i64.extend16_s\0\0", 0xC3, Public),
    numeric!(b"i64.extend32_s\0\0", 0xC4, Public),
    numeric!(b"s32.extend16_s\0\0", 0xC1, Secret),
    numeric!(b"s64.extend16_s\0\0", 0xC3, Secret),
    numeric!(b"s64.extend32_s\0\0", 0xC4, Secret),
];

const WORDS_15: [Entry; 0] = [];

const WORDS_16: [Entry; 4] = [
    numeric!(b"i64.extend_i32_s", 0xAC, Public),
    numeric!(b"i64.extend_i32_u", 0xAD, Public),
    numeric!(b"s64.extend_s32_s", 0xAC, Secret),
    numeric!(b"s64.extend_s32_u", 0xAD, Secret),
];

fn key_in(meaning: Meaning) -> Key
    ensures { result ≡ key_in meaning }
{
    match meaning {
        Meaning::Module => Key::Module,
        Meaning::Ct => Key::Ct,
        Meaning::Type => Key::Type,
        Meaning::Variant => Key::Variant,
        Meaning::Trusted => Key::Trusted,
        Meaning::Import => Key::Import,
        Meaning::Export => Key::Export,
        Meaning::Start => Key::Start,
        Meaning::Elem => Key::Elem,
        Meaning::Data => Key::Data,
        Meaning::Custom => Key::Custom,
        Meaning::Mut => Key::Mut,
        Meaning::Secret => Key::Secret,
        Meaning::Funcref => Key::Funcref,
        Meaning::Offset => Key::Offset,
        Meaning::Then => Key::Then,
        Meaning::Else => Key::Else,
        Meaning::End => Key::End,
        Meaning::Extern(tag) => Key::Extern(tag),
        Meaning::Group(part) => Key::Group(part),
        Meaning::Shape(opener) => Key::Shape(Shape { opener }),
        Meaning::Ty(width, label) => Key::Ty(ValType { width, label }),
        Meaning::Bare(kind) => Key::Op(Form::Bare(Leaf { kind })),
        Meaning::Access(kind) => Key::Op(Form::Access(Leaf { kind })),
        Meaning::Const(width, label) => Key::Op(Form::Const(width, label)),
        Meaning::Uses(op) => Key::Op(Form::Uses(op)),
        Meaning::BrTable => Key::Op(Form::BrTable),
        Meaning::CallIndirect => Key::Op(Form::CallIndirect),
    }
}

// Looks a word up in the table of the words that are as long.
fn find(entries: &[Entry], word: &[u8]) -> Option<Key>
    requires { length word.now ≤ 16 }
    ensures { result ≡ look_up (map (told (length word.now)) entries.now) word.now }
{
    for entry in entries {
        if &entry.word[..word.len()] == word {
            return Some(key_in(entry.meaning));
        }
    }
    None
}

fn word_of_2(word: &[u8]) -> Option<Key>
    requires { length word.now ≡ 2 }
    ensures { result ≡ key_of word.now }
{
    find(&WORDS_2, word)
}

fn word_of_3(word: &[u8]) -> Option<Key>
    requires { length word.now ≡ 3 }
    ensures { result ≡ key_of word.now }
{
    find(&WORDS_3, word)
}

fn word_of_4(word: &[u8]) -> Option<Key>
    requires { length word.now ≡ 4 }
    ensures { result ≡ key_of word.now }
{
    find(&WORDS_4, word)
}

fn word_of_5(word: &[u8]) -> Option<Key>
    requires { length word.now ≡ 5 }
    ensures { result ≡ key_of word.now }
{
    find(&WORDS_5, word)
}

fn word_of_6(word: &[u8]) -> Option<Key>
    requires { length word.now ≡ 6 }
    ensures { result ≡ key_of word.now }
{
    find(&WORDS_6, word)
}

fn word_of_7(word: &[u8]) -> Option<Key>
    requires { length word.now ≡ 7 }
    ensures { result ≡ key_of word.now }
{
    find(&WORDS_7, word)
}

fn word_of_8(word: &[u8]) -> Option<Key>
    requires { length word.now ≡ 8 }
    ensures { result ≡ key_of word.now }
{
    find(&WORDS_8, word)
}

fn word_of_9(word: &[u8]) -> Option<Key>
    requires { length word.now ≡ 9 }
    ensures { result ≡ key_of word.now }
{
    find(&WORDS_9, word)
}

fn word_of_10(word: &[u8]) -> Option<Key>
    requires { length word.now ≡ 10 }
    ensures { result ≡ key_of word.now }
{
    find(&WORDS_10, word)
}

fn word_of_11(word: &[u8]) -> Option<Key>
    requires { length word.now ≡ 11 }
    ensures { result ≡ key_of word.now }
{
    find(&WORDS_11, word)
}

fn word_of_12(word: &[u8]) -> Option<Key>
    requires { length word.now ≡ 12 }
    ensures { result ≡ key_of word.now }
{
    find(&WORDS_12, word)
}

fn word_of_13(word: &[u8]) -> Option<Key>
    requires { length word.now ≡ 13 }
    ensures { result ≡ key_of word.now }
{
    find(&WORDS_13, word)
}

fn word_of_14(word: &[u8]) -> Option<Key>
    requires { length word.now ≡ 14 }
    ensures { result ≡ key_of word.now }
{
    find(&WORDS_14, word)
}

fn word_of_15(word: &[u8]) -> Option<Key>
    requires { length word.now ≡ 15 }
    ensures { result ≡ key_of word.now }
{
    find(&WORDS_15, word)
}

fn word_of_16(word: &[u8]) -> Option<Key>
    requires { length word.now ≡ 16 }
    ensures { result ≡ key_of word.now }
{
    find(&WORDS_16, word)
}

/// What a word stands for; None where it is no word of the text form.
#[tactic(auto, using(crate::proofs::Lengths::short, crate::proofs::Lengths::long))]
pub fn key_of(word: &[u8]) -> Option<Key>
    ensures { result ≡ key_of word.now }
{
    let size = word.len();
    if size < 2 {
        return None;
    }
    if size > 16 {
        return None;
    }
    match size {
        2 => word_of_2(word),
        3 => word_of_3(word),
        4 => word_of_4(word),
        5 => word_of_5(word),
        6 => word_of_6(word),
        7 => word_of_7(word),
        8 => word_of_8(word),
        9 => word_of_9(word),
        10 => word_of_10(word),
        11 => word_of_11(word),
        12 => word_of_12(word),
        13 => word_of_13(word),
        14 => word_of_14(word),
        15 => word_of_15(word),
        _ => word_of_16(word),
    }
}
