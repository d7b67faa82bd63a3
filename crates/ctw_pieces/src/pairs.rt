// Moves over a `(` and a word.

ghost use Rattle.std.specs.Prelude.{◌≡◌, ◌∷◌, [], ℕ, Bool};
ghost use Rattle.ctw_text.specs.declared.keys.Key.TheVariants.{Import as KImport, Start as KStart, Group as KGroup};
ghost use Rattle.ctw_text.specs.declared.sorts.Sort.TheVariants.{Expr, Closing, ImportKind, ExportKind};
ghost use Rattle.ctw_text.specs.Machine.{field_word, func_type_word, type_head_word, use_word, yield_word, tail_word, at_then, code_word, after_word, after_then_word, inline_elem_word, pages_word, global_word, body_word, import_word, extern_word, import_type_word, expr_word, offset_word, module_word, head_word, move2};
ghost use Rattle.ctw_pieces.specs.Split.{inline_word, is_inline_word};

use crate::forms::{filled, folded_block, folded_expr, folded_instruction, import_type, is_within};
use crate::moves::{Longer, Move, Next, alone, before, takes, writes};
use ctw_ops::ExternTag;
use ctw_text::{
    Before, FieldKind, Filling, Key, Part, Piece, Place, Quoted, Role, Sort, Stage, Tail,
};

fn field_word<'a>(fields: Before, key: &Key) -> Option<Move<'a>>
    ensures { result ≡ field_word fields key.now }
{
    let more = Sort::Fields(fields);
    match key {
        Key::Type => writes(
            Piece::Begin(FieldKind::TypeField),
            Next::Three(Sort::TypeHead(false), Sort::Closing, more),
        ),
        Key::Import => import_field(fields),
        Key::Extern(tag) => writes(
            Piece::Begin(FieldKind::Defining(*tag)),
            Next::One(Sort::ExternHead(*tag, fields, false)),
        ),
        Key::Export => writes(
            Piece::Begin(FieldKind::ExportField),
            Next::Four(
                Sort::AString(Quoted::ExportName),
                Sort::ExportKind,
                Sort::Closing,
                more,
            ),
        ),
        Key::Start => start_field(fields),
        Key::Elem => writes(
            Piece::Begin(FieldKind::ElemField),
            Next::Two(Sort::SegmentHead(Role::OfTable, Filling::Functions), more),
        ),
        Key::Data => writes(
            Piece::Begin(FieldKind::DataField),
            Next::Two(Sort::SegmentHead(Role::OfMemory, Filling::Bytes), more),
        ),
        Key::Custom => writes(
            Piece::Begin(FieldKind::CustomField),
            Next::Five(
                Sort::CustomPlace,
                Sort::AString(Quoted::CustomName),
                Sort::AString(Quoted::Bytes),
                Sort::Closing,
                more,
            ),
        ),
        _ => None,
    }
}

// `import` stands before all fields that define a function, table, memory or global.
fn import_field<'a>(fields: Before) -> Option<Move<'a>>
    ensures { result ≡ field_word fields KImport }
{
    if fields.defined {
        return None;
    }
    writes(
        Piece::Begin(FieldKind::ImportField),
        Next::Five(
            Sort::AString(Quoted::ModuleName),
            Sort::AString(Quoted::ImportName),
            Sort::ImportKind,
            Sort::Closing,
            Sort::Fields(fields),
        ),
    )
}

// `start` stands at most once.
fn start_field<'a>(fields: Before) -> Option<Move<'a>>
    ensures { result ≡ field_word fields KStart }
{
    if fields.started {
        return None;
    }
    writes(
        Piece::Begin(FieldKind::StartField),
        Next::Three(
            Sort::AnIndex(Role::OfStart),
            Sort::Closing,
            Sort::Fields(Before {
                defined: fields.defined,
                started: true,
            }),
        ),
    )
}

fn func_type_word<'a>(key: &Key) -> Option<Move<'a>>
    ensures { result ≡ func_type_word key.now }
{
    match key {
        Key::Extern(ExternTag::Func) => takes(Next::One(Sort::After(
            Tail::InUse(false, Stage::AtTrusted),
            Place::Nothing,
        ))),
        _ => None,
    }
}

fn type_head_word<'a>(ct: bool, key: &Key) -> Option<Move<'a>>
    ensures { result ≡ type_head_word ct key.now }
{
    match key {
        Key::Variant => {
            if ct {
                takes(Next::Three(Sort::AnIndex(Role::OfBase), Sort::FuncType, Sort::Closing))
            } else {
                None
            }
        }
        Key::Extern(ExternTag::Func) => takes(Next::One(Sort::After(
            Tail::InUse(false, Stage::AtTrusted),
            Place::Nothing,
        ))),
        _ => None,
    }
}

// A `(param ..)`, a `(result ..)` or a `(local ..)` of a typeuse.
fn group_word<'a>(locals: bool, stage: Stage, place: Place, part: Part) -> Option<Move<'a>>
    ensures { (at : ℕ) → result ≡ use_word locals stage place at (KGroup part) }
{
    match part {
        Part::Param => {
            if is_within(stage, Stage::AtParams) {
                let tail = Tail::InUse(locals, Stage::AtParams);
                takes(Next::Two(Sort::Group(part), Sort::After(tail, place)))
            } else {
                None
            }
        }
        Part::Result => {
            if is_within(stage, Stage::AtResults) {
                let tail = Tail::InUse(locals, Stage::AtResults);
                takes(Next::Two(Sort::Group(part), Sort::After(tail, place)))
            } else {
                None
            }
        }
        Part::Local => {
            if locals {
                let tail = Tail::InUse(locals, Stage::AtLocals);
                takes(Next::Two(Sort::Group(part), Sort::After(tail, place)))
            } else {
                None
            }
        }
    }
}

// A part of a typeuse.
fn use_word<'a>(locals: bool, stage: Stage, place: Place, at: u32, key: &Key) -> Option<Move<'a>>
    ensures { result ≡ use_word locals stage place at key.now }
{
    match key {
        Key::Type => {
            if is_within(stage, Stage::AtType) {
                let after = Sort::After(Tail::InUse(locals, Stage::AtParams), place);
                writes(
                    Piece::Entry(at),
                    Next::Three(Sort::AnIndex(Role::OfEntry), Sort::Closing, after),
                )
            } else {
                None
            }
        }
        Key::Group(part) => group_word(locals, stage, place, *part),
        _ => None,
    }
}

fn yield_word<'a>(place: Place, key: &Key) -> Option<Move<'a>>
    ensures { result ≡ yield_word place key.now }
{
    match key {
        Key::Group(Part::Result) => takes(Next::Three(
            Sort::YieldType,
            Sort::Closing,
            Sort::After(Tail::NoTail, place),
        )),
        _ => None,
    }
}

fn tail_word<'a>(tail: Tail, place: Place, at: u32, key: &Key) -> Option<Move<'a>>
    ensures { result ≡ tail_word tail place at key.now }
{
    match tail {
        Tail::MayLabel => yield_word(place, key),
        Tail::MayYield => yield_word(place, key),
        Tail::InUse(locals, stage) => use_word(locals, stage, place, at, key),
        _ => None,
    }
}

fn at_then<'a>(place: Place) -> Option<Move<'a>>
    ensures { result ≡ at_then place }
{
    match place {
        Place::InConditions => writes(
            Piece::Unfold,
            Next::One(Sort::After(Tail::NoTail, Place::InThen)),
        ),
        _ => None,
    }
}

fn code_word<'a>(ct: bool, place: Place, key: &Key) -> Option<Move<'a>>
    ensures { result ≡ code_word ct place key.now }
{
    match key {
        Key::Op(form) => folded_instruction(ct, place, form),
        Key::Shape(shape) => folded_block(place, shape),
        Key::Then => at_then(place),
        _ => None,
    }
}

fn after_word<'a>(ct: bool, tail: Tail, place: Place, at: u32, key: &Key) -> Option<Move<'a>>
    ensures { result ≡ after_word ct tail place at key.now }
{
    if let Some(found) = tail_word(tail, place, at, key) {
        return Some(found);
    }
    code_word(ct, place, key)
}

fn after_then_word<'a>(key: &Key) -> Option<Move<'a>>
    ensures { result ≡ after_then_word key.now }
{
    match key {
        Key::Else => writes(
            Piece::Else,
            Next::One(Sort::After(Tail::NoTail, Place::InElse)),
        ),
        _ => None,
    }
}

fn inline_elem_word<'a>(key: &Key) -> Option<Move<'a>>
    ensures { result ≡ inline_elem_word key.now }
{
    match key {
        Key::Elem => takes(Next::One(Sort::Items)),
        _ => None,
    }
}

fn pages_word<'a>(inline: bool, key: &Key) -> Option<Move<'a>>
    ensures { result ≡ pages_word inline key.now }
{
    match key {
        Key::Data => {
            if inline {
                writes(Piece::Inline, Next::Two(Sort::Strings, Sort::Closing))
            } else {
                None
            }
        }
        _ => None,
    }
}

fn imported_global_word<'a>(key: &Key) -> Option<Move<'a>>
    ensures { result ≡ global_word (Closing ∷ []) key.now }
{
    match key {
        Key::Mut => writes(
            Piece::IsMutable,
            Next::Three(Sort::ValueType, Sort::Closing, Sort::Closing),
        ),
        _ => None,
    }
}

fn defined_global_word<'a>(key: &Key) -> Option<Move<'a>>
    ensures { result ≡ global_word (Expr ∷ Closing ∷ []) key.now }
{
    match key {
        Key::Mut => writes(
            Piece::IsMutable,
            Next::Four(Sort::ValueType, Sort::Closing, Sort::Expr, Sort::Closing),
        ),
        _ => None,
    }
}

fn body_word<'a>(ct: bool, tag: ExternTag, at: u32, key: &Key) -> Option<Move<'a>>
    ensures { result ≡ body_word ct tag at key.now }
{
    match tag {
        ExternTag::Func => after_word(ct, Tail::InUse(true, Stage::AtType), Place::Body, at, key),
        ExternTag::Table => None,
        ExternTag::Memory => pages_word(true, key),
        ExternTag::Global => defined_global_word(key),
    }
}

// `import` inside a field stands before all fields that define a function, table, memory or global.
fn import_word<'a>(tag: ExternTag, fields: Before) -> Option<Move<'a>>
    ensures { result ≡ import_word tag fields }
{
    if fields.defined {
        return None;
    }
    takes(Next::Five(
        Sort::AString(Quoted::ModuleName),
        Sort::AString(Quoted::ImportName),
        Sort::Closing,
        import_type(tag),
        Sort::Fields(fields),
    ))
}

// An inline export or import.
fn inline_word<'a>(tag: ExternTag, fields: Before, key: &Key) -> Option<Move<'a>>
    ensures { result ≡ inline_word tag fields key.now }
{
    match key {
        Key::Export => takes(Next::Three(
            Sort::AString(Quoted::InlineExport),
            Sort::Closing,
            Sort::ExternHead(tag, fields, true),
        )),
        Key::Import => import_word(tag, fields),
        _ => None,
    }
}

fn is_inline_word(key: &Key) -> bool
    ensures { result ≡ is_inline_word key.now }
{
    matches!(key, Key::Export | Key::Import)
}

#[tactic(auto, using(crate::proofs::Inline::inline, crate::proofs::Inline::other))]
fn extern_word<'a>(
    ct: bool,
    tag: ExternTag,
    fields: Before,
    at: u32,
    key: &Key,
) -> Option<Longer<'a>>
    ensures { result ≡ extern_word ct tag fields at key.now }
{
    if is_inline_word(key) {
        return alone(inline_word(tag, fields, key));
    }
    before(
        body_word(ct, tag, at, key),
        Sort::Fields(Before {
            defined: true,
            started: fields.started,
        }),
    )
}

fn import_type_word<'a>(ct: bool, tag: ExternTag, at: u32, key: &Key) -> Option<Move<'a>>
    ensures { result ≡ import_type_word ct tag at key.now }
{
    match tag {
        ExternTag::Func => after_word(
            ct,
            Tail::InUse(false, Stage::AtType),
            Place::Nothing,
            at,
            key,
        ),
        ExternTag::Table => None,
        ExternTag::Memory => pages_word(false, key),
        ExternTag::Global => imported_global_word(key),
    }
}

fn import_kind_word<'a>(key: &Key) -> Option<Move<'a>>
    ensures { (ct : Bool) (at : ℕ) → result ≡ move2 ct ImportKind at key.now }
{
    match key {
        Key::Extern(tag) => writes(Piece::KindIs(*tag), Next::One(Sort::NamedType(*tag))),
        _ => None,
    }
}

fn export_kind_word<'a>(key: &Key) -> Option<Move<'a>>
    ensures { (ct : Bool) (at : ℕ) → result ≡ move2 ct ExportKind at key.now }
{
    match key {
        Key::Extern(tag) => takes(Next::Two(Sort::AnIndex(Role::OfExport(*tag)), Sort::Closing)),
        _ => None,
    }
}

fn expr_word<'a>(ct: bool, key: &Key) -> Option<Move<'a>>
    ensures { result ≡ expr_word ct key.now }
{
    match key {
        Key::Op(form) => folded_expr(ct, form),
        _ => None,
    }
}

fn offset_word<'a>(ct: bool, key: &Key) -> Option<Move<'a>>
    ensures { result ≡ offset_word ct key.now }
{
    match key {
        Key::Offset => takes(Next::Two(Sort::Expr, Sort::Closing)),
        Key::Op(form) => folded_expr(ct, form),
        _ => None,
    }
}

fn module_word<'a>(key: &Key) -> Option<Move<'a>>
    ensures { result ≡ module_word key.now }
{
    match key {
        Key::Module => takes(Next::One(Sort::Head(false))),
        _ => None,
    }
}

fn head_word<'a>(ct: bool, key: &Key) -> Option<Move<'a>>
    ensures { result ≡ head_word ct key.now }
{
    if ct {
        return None;
    }
    field_word(
        Before {
            defined: false,
            started: false,
        },
        key,
    )
}

/// The production of a nonterminal that begins with a `(` at this offset and this word; None where there is none.
pub fn word_move<'a>(ct: bool, sort: Sort, at: u32, key: &Key) -> Option<Longer<'a>>
    ensures { result ≡ move2 ct sort at key.now }
{
    match sort {
        Sort::Module => alone(module_word(key)),
        Sort::Head(_) => alone(head_word(ct, key)),
        Sort::Fields(fields) => alone(field_word(fields, key)),
        Sort::TypeHead(_) => alone(type_head_word(ct, key)),
        Sort::FuncType => alone(func_type_word(key)),
        Sort::After(tail, place) => alone(after_word(ct, tail, place, at, key)),
        Sort::AfterThen => alone(after_then_word(key)),
        Sort::ExternHead(tag, fields, _) => extern_word(ct, tag, fields, at, key),
        Sort::GlobalBody => alone(defined_global_word(key)),
        Sort::MemoryBody(inline) => alone(pages_word(inline, key)),
        Sort::Pages(inline) => alone(pages_word(inline, key)),
        Sort::NamedType(tag) => alone(import_type_word(ct, tag, at, key)),
        Sort::GlobalType => alone(imported_global_word(key)),
        Sort::InlineElem => alone(inline_elem_word(key)),
        Sort::Expr => alone(expr_word(ct, key)),
        Sort::Offset => alone(offset_word(ct, key)),
        Sort::SegmentHead(_, filling) => before(offset_word(ct, key), filled(filling)),
        Sort::ImportKind => alone(import_kind_word(key)),
        Sort::ExportKind => alone(export_kind_word(key)),
        _ => None,
    }
}
