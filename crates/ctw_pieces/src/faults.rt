// Why a token has no place.

ghost use Rattle.std.specs.Prelude.{◌≡◌, ℕ, Bool};
ghost use Rattle.ctw_text.specs.Machine.{tail_opens, takes_open, takes_float, takes_folded_float, takes_number, takes_value, is_float, why_here, why_behind};
ghost use Rattle.ctw_text.specs.declared.toks.Tok.TheVariants.{Signed, OffsetIs, AlignIs};
ghost use Rattle.ctw_text.specs.declared.sorts.Before.{Before};
ghost use Rattle.ctw_text.specs.declared.sorts.Place.{Place};
ghost use Rattle.ctw_text.specs.declared.sorts.Sort.TheVariants.{NamedType, ExternHead, After};
ghost use Rattle.ctw_pieces.specs.Reasons.{why_of};

use crate::PiecesKind;
use crate::forms::{is_within, takes_folded, takes_plain};
use ctw_ops::ExternTag;
use ctw_text::{Sort, Stage, Tail, Tok};

fn tail_opens(tail: Tail) -> bool
    ensures { result ≡ tail_opens tail }
{
    match tail {
        Tail::InUse(locals, stage) => is_within(stage, Stage::AtResults) || locals,
        Tail::MayLabel => true,
        Tail::MayYield => true,
        _ => false,
    }
}

fn import_opens(tag: ExternTag) -> bool
    ensures { (ct : Bool) → result ≡ takes_open ct (NamedType tag) }
{
    match tag {
        ExternTag::Func => true,
        ExternTag::Global => true,
        _ => false,
    }
}

/// Whether some production begins with a `(`: then the faulty token is the one behind it.
pub fn takes_open(ct: bool, sort: Sort) -> bool
    ensures { result ≡ takes_open ct sort }
{
    match sort {
        Sort::Module => true,
        Sort::Head(_) => !ct,
        Sort::Fields(_) => true,
        Sort::TypeHead(_) => true,
        Sort::FuncType => true,
        Sort::After(tail, place) => takes_folded(place) || tail_opens(tail),
        Sort::AfterThen => true,
        Sort::ExternHead(_, _, _) => true,
        Sort::GlobalBody => true,
        Sort::MemoryBody(inline) => inline,
        Sort::Pages(inline) => inline,
        Sort::NamedType(tag) => import_opens(tag),
        Sort::GlobalType => true,
        Sort::InlineElem => true,
        Sort::Expr => true,
        Sort::Offset => true,
        Sort::SegmentHead(_, _) => true,
        Sort::ImportKind => true,
        Sort::ExportKind => true,
        _ => false,
    }
}

fn extern_takes_float(tag: ExternTag) -> bool
    ensures { (b : Before) (named : Bool) → result ≡ takes_float (ExternHead tag b named) }
{
    match tag {
        ExternTag::Func => true,
        ExternTag::Global => true,
        _ => false,
    }
}

fn import_takes_float(tag: ExternTag) -> bool
    ensures { result ≡ takes_float (NamedType tag) }
{
    match tag {
        ExternTag::Global => true,
        _ => false,
    }
}

// Whether a value type or an instruction's word may stand there.
fn takes_float(sort: Sort) -> bool
    ensures { result ≡ takes_float sort }
{
    match sort {
        Sort::After(_, place) => takes_plain(place),
        Sort::Group(_) => true,
        Sort::Types(_) => true,
        Sort::OneType(_) => true,
        Sort::YieldType => true,
        Sort::ValueType => true,
        Sort::GlobalBody => true,
        Sort::GlobalType => true,
        Sort::Expr => true,
        Sort::ExternHead(tag, _, _) => extern_takes_float(tag),
        Sort::NamedType(tag) => import_takes_float(tag),
        _ => false,
    }
}

fn extern_takes_folded_float(tag: ExternTag) -> bool
    ensures { (b : Before) (named : Bool) → result ≡ takes_folded_float (ExternHead tag b named) }
{
    match tag {
        ExternTag::Func => true,
        _ => false,
    }
}

// Whether an instruction's word may stand behind a `(` there.
fn takes_folded_float(sort: Sort) -> bool
    ensures { result ≡ takes_folded_float sort }
{
    match sort {
        Sort::After(_, place) => takes_folded(place),
        Sort::ExternHead(tag, _, _) => extern_takes_folded_float(tag),
        Sort::Expr => true,
        Sort::Offset => true,
        Sort::SegmentHead(_, _) => true,
        _ => false,
    }
}

fn tail_takes_number(tail: Tail) -> bool
    ensures { (p : Place) → result ≡ takes_number (After tail p) }
{
    match tail {
        Tail::MayTarget => true,
        _ => false,
    }
}

fn extern_takes_number(tag: ExternTag) -> bool
    ensures { (b : Before) (named : Bool) → result ≡ takes_number (ExternHead tag b named) }
{
    match tag {
        ExternTag::Table => true,
        ExternTag::Memory => true,
        _ => false,
    }
}

fn import_takes_number(tag: ExternTag) -> bool
    ensures { result ≡ takes_number (NamedType tag) }
{
    match tag {
        ExternTag::Table => true,
        ExternTag::Memory => true,
        _ => false,
    }
}

// Whether an unsigned number may stand there.
fn takes_number(sort: Sort) -> bool
    ensures { result ≡ takes_number sort }
{
    match sort {
        Sort::After(tail, _) => tail_takes_number(tail),
        Sort::AnIndex(_) => true,
        Sort::AConst(_, _) => true,
        Sort::ExternHead(tag, _, _) => extern_takes_number(tag),
        Sort::TableBody => true,
        Sort::MemoryBody(_) => true,
        Sort::Pages(_) => true,
        Sort::NamedType(tag) => import_takes_number(tag),
        Sort::TableType => true,
        Sort::TableMax => true,
        Sort::MemoryMax => true,
        Sort::Items => true,
        Sort::SegmentHead(_, _) => true,
        Sort::CustomPlace => true,
        _ => false,
    }
}

fn takes_signed(sort: Sort) -> bool
    ensures { (neg : Bool) (n : ℕ) → result ≡ takes_value sort (Signed neg n) }
{
    match sort {
        Sort::AConst(_, _) => true,
        _ => false,
    }
}

fn takes_offset(sort: Sort) -> bool
    ensures { (n : ℕ) → result ≡ takes_value sort (OffsetIs n) }
{
    match sort {
        Sort::After(Tail::MayOffset, _) => true,
        _ => false,
    }
}

fn takes_align(sort: Sort) -> bool
    ensures { (n : ℕ) → result ≡ takes_value sort (AlignIs n) }
{
    match sort {
        Sort::After(Tail::MayOffset, _) => true,
        Sort::After(Tail::MayAlign, _) => true,
        _ => false,
    }
}

// Whether such a number may stand there.
fn takes_value(sort: Sort, tok: &Tok) -> bool
    ensures { result ≡ takes_value sort tok.now }
{
    match tok {
        Tok::Num(_) => takes_number(sort),
        Tok::Signed(_, _) => takes_signed(sort),
        Tok::OffsetIs(_) => takes_offset(sort),
        Tok::AlignIs(_) => takes_align(sort),
        _ => false,
    }
}

fn is_float(tok: &Tok) -> bool
    ensures { result ≡ is_float tok.now }
{
    match tok {
        Tok::Floats => true,
        _ => false,
    }
}

/// Why a token has no place where this nonterminal is to come.
pub fn why_here(sort: Sort, tok: &Tok) -> PiecesKind
    ensures { why_of result ≡ why_here sort tok.now }
{
    if takes_value(sort, tok) {
        PiecesKind::NumberRange
    } else if takes_float(sort) && is_float(tok) {
        PiecesKind::Floats
    } else {
        PiecesKind::Unexpected
    }
}

/// Why a token has no place behind a `(` where this nonterminal is to come.
pub fn why_behind(sort: Sort, tok: &Tok) -> PiecesKind
    ensures { why_of result ≡ why_behind sort tok.now }
{
    if takes_folded_float(sort) && is_float(tok) {
        PiecesKind::Floats
    } else {
        PiecesKind::Unexpected
    }
}
