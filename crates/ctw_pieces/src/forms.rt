// What instructions and their words need.

ghost use Rattle.std.specs.Prelude.{◌≡◌, ◌∷◌, [], Bool, Some};
ghost use Rattle.ctw_text.specs.Keys.{is_secret, is_own_leaf, is_own_form, is_own, allowed};
ghost use Rattle.ctw_text.specs.declared.keys.Key.TheVariants.{Ty as KTy, Op as KOp, Shape as KShape};
ghost use Rattle.ctw_text.specs.declared.toks.Tok.TheVariants.{Word};
ghost use Rattle.ctw_text.specs.declared.pieces.Piece.TheVariants.{Fold};
ghost use Rattle.ctw_text.specs.Grammar.{rank, within, takes_plain, takes_folded, pieces_of, operands_of, tail_of, place_of, type_of, filled};
ghost use Rattle.ctw_text.specs.declared.sorts.Sort.TheVariants.{Closing};
ghost use Rattle.ctw_text.specs.Machine.{code_token, code_word, expr_op, shape_word};
ghost use Rattle.ctw_pieces.specs.Moves.{pieces_in, sorts_in};

use crate::moves::{Move, Next, Out, takes, writes, writes_both};
use ctw_ops::{ExternTag, Label, ValType};
use ctw_text::{
    Filling, Form, Indexed, Key, Leaf, LeafKind, Opener, Piece, Place, Role, Shape, Sort, Stage,
    Tail,
};

fn is_secret(label: Label) -> bool
    ensures { result ≡ is_secret label }
{
    match label {
        Label::Public => false,
        Label::Secret => true,
    }
}

fn is_own_leaf(leaf: &Leaf) -> bool
    ensures { result ≡ is_own_leaf leaf.now }
{
    match leaf.kind {
        LeafKind::Select(label) => is_secret(label),
        LeafKind::Load { label, .. } => is_secret(label),
        LeafKind::Store { label, .. } => is_secret(label),
        LeafKind::Const { label, .. } => is_secret(label),
        LeafKind::Numeric(_, label) => is_secret(label),
        LeafKind::Classify(_) => true,
        LeafKind::Declassify(_) => true,
        _ => false,
    }
}

fn is_own_form(form: &Form) -> bool
    ensures { result ≡ is_own_form form.now }
{
    match form {
        Form::Bare(leaf) => is_own_leaf(leaf),
        Form::Access(leaf) => is_own_leaf(leaf),
        Form::Const(_, label) => is_secret(*label),
        _ => false,
    }
}

/// Whether a type's word may stand in a module of this kind.
pub fn takes_type(ct: bool, t: ValType) -> bool
    ensures { result ≡ allowed ct (KTy t) }
{
    ct || !is_secret(t.label)
}

fn takes_form(ct: bool, form: &Form) -> bool
    ensures { result ≡ allowed ct (KOp form.now) }
{
    ct || !is_own_form(form)
}

fn stage_rank(stage: Stage) -> u8
    ensures { result ≡ rank stage }
{
    match stage {
        Stage::AtType => 0,
        Stage::AtTrusted => 1,
        Stage::AtParams => 2,
        Stage::AtResults => 3,
        Stage::AtLocals => 4,
    }
}

/// Whether a part that may stand up to this stage may still stand.
pub fn is_within(stage: Stage, last: Stage) -> bool
    ensures { result ≡ within stage last }
{
    stage_rank(stage) <= stage_rank(last)
}

/// Whether plain instructions may stand at a place.
pub fn takes_plain(place: Place) -> bool
    ensures { result ≡ takes_plain place }
{
    match place {
        Place::InOperands => false,
        Place::InConditions => false,
        Place::Nothing => false,
        _ => true,
    }
}

/// Whether folded instructions may stand at a place.
pub fn takes_folded(place: Place) -> bool
    ensures { result ≡ takes_folded place }
{
    match place {
        Place::Nothing => false,
        _ => true,
    }
}

fn tail_of(form: &Form) -> Tail
    ensures { result ≡ tail_of form.now }
{
    match form {
        Form::Access(_) => Tail::MayOffset,
        Form::BrTable => Tail::MayTarget,
        Form::CallIndirect => Tail::InUse(false, Stage::AtType),
        _ => Tail::NoTail,
    }
}

fn plain_out<'a>(form: &Form) -> Out<'a>
    ensures { pieces_in result ≡ pieces_of form.now }
{
    match form {
        Form::Bare(leaf) => Out::One(Piece::Single(*leaf)),
        Form::Access(leaf) => Out::One(Piece::Single(*leaf)),
        Form::BrTable => Out::One(Piece::Branches),
        Form::CallIndirect => Out::One(Piece::Indirect),
        _ => Out::Nothing,
    }
}

fn folded_out<'a>(form: &Form) -> Out<'a>
    ensures { pieces_in result ≡ Fold ∷ pieces_of form.now }
{
    match form {
        Form::Bare(leaf) => Out::Two(Piece::Fold, Piece::Single(*leaf)),
        Form::Access(leaf) => Out::Two(Piece::Fold, Piece::Single(*leaf)),
        Form::BrTable => Out::Two(Piece::Fold, Piece::Branches),
        Form::CallIndirect => Out::Two(Piece::Fold, Piece::Indirect),
        _ => Out::One(Piece::Fold),
    }
}

fn plain_next(form: &Form, after: Sort) -> Next
    ensures { sorts_in result ≡ operands_of form.now (after ∷ []) }
{
    match form {
        Form::Const(width, label) => Next::Two(Sort::AConst(*width, *label), after),
        Form::Uses(op) => Next::Two(Sort::AnIndex(Role::OfOp(*op)), after),
        Form::BrTable => Next::Two(Sort::AnIndex(Role::OfTarget), after),
        _ => Next::One(after),
    }
}

fn folded_next(form: &Form, inner: Sort, outer: Sort) -> Next
    ensures { sorts_in result ≡ operands_of form.now (inner ∷ outer ∷ []) }
{
    match form {
        Form::Const(width, label) => Next::Three(Sort::AConst(*width, *label), inner, outer),
        Form::Uses(op) => Next::Three(Sort::AnIndex(Role::OfOp(*op)), inner, outer),
        Form::BrTable => Next::Three(Sort::AnIndex(Role::OfTarget), inner, outer),
        _ => Next::Two(inner, outer),
    }
}

/// An instruction in plain form.
pub fn plain_instruction<'a>(ct: bool, place: Place, form: &Form) -> Option<Move<'a>>
    ensures { result ≡ code_token ct place (Word (KOp form.now)) }
{
    if takes_plain(place) && takes_form(ct, form) {
        let out = plain_out(form);
        let next = plain_next(form, Sort::After(tail_of(form), place));
        Some(Move { out, next })
    } else {
        None
    }
}

/// An instruction in folded form, behind its `(`.
pub fn folded_instruction<'a>(ct: bool, place: Place, form: &Form) -> Option<Move<'a>>
    ensures { result ≡ code_word ct place (KOp form.now) }
{
    if takes_folded(place) && takes_form(ct, form) {
        let out = folded_out(form);
        let inner = Sort::After(tail_of(form), Place::InOperands);
        let next = folded_next(form, inner, Sort::After(Tail::NoTail, place));
        Some(Move { out, next })
    } else {
        None
    }
}

fn block_place(shape: &Shape) -> Place
    ensures { result ≡ place_of shape.now }
{
    match shape.opener {
        Opener::Block => Place::InBlock,
        Opener::Loop => Place::InBlock,
        Opener::If => Place::InIf,
    }
}

/// A block in plain form.
pub fn plain_block<'a>(place: Place, shape: &Shape) -> Option<Move<'a>>
    ensures { (ct : Bool) → result ≡ code_token ct place (Word (KShape shape.now)) }
{
    if takes_plain(place) {
        let inside = Sort::After(Tail::MayLabel, block_place(shape));
        writes(
            Piece::Opens(*shape),
            Next::Two(inside, Sort::After(Tail::MayRepeat, place)),
        )
    } else {
        None
    }
}

fn folded_shape<'a>(place: Place, shape: &Shape) -> Option<Move<'a>>
    ensures { result ≡ Some (shape_word place shape.now) }
{
    let after = Sort::After(Tail::NoTail, place);
    match shape.opener {
        Opener::If => writes_both(
            Piece::Fold,
            Piece::Opens(*shape),
            Next::Two(Sort::After(Tail::MayLabel, Place::InConditions), after),
        ),
        _ => writes(
            Piece::Opens(*shape),
            Next::Two(Sort::After(Tail::MayLabel, Place::InFolded), after),
        ),
    }
}

/// A block in folded form, behind its `(`.
pub fn folded_block<'a>(place: Place, shape: &Shape) -> Option<Move<'a>>
    ensures { (ct : Bool) → result ≡ code_word ct place (KShape shape.now) }
{
    if takes_folded(place) {
        folded_shape(place, shape)
    } else {
        None
    }
}

/// A constant expression in plain form.
pub fn plain_expr<'a>(ct: bool, form: &Form) -> Option<Move<'a>>
    ensures { result ≡ expr_op ct [] form.now }
{
    match form {
        Form::Const(width, label) => {
            if ct || !is_secret(*label) {
                takes(Next::One(Sort::AConst(*width, *label)))
            } else {
                None
            }
        }
        Form::Uses(Indexed::GlobalGet) => takes(Next::One(Sort::AnIndex(Role::OfOp(
            Indexed::GlobalGet,
        )))),
        _ => None,
    }
}

/// A constant expression in folded form, behind its `(`.
pub fn folded_expr<'a>(ct: bool, form: &Form) -> Option<Move<'a>>
    ensures { result ≡ expr_op ct (Closing ∷ []) form.now }
{
    match form {
        Form::Const(width, label) => {
            if ct || !is_secret(*label) {
                takes(Next::Two(Sort::AConst(*width, *label), Sort::Closing))
            } else {
                None
            }
        }
        Form::Uses(Indexed::GlobalGet) => takes(Next::Two(
            Sort::AnIndex(Role::OfOp(Indexed::GlobalGet)),
            Sort::Closing,
        )),
        _ => None,
    }
}

/// What begins the type of an import.
pub fn import_type(tag: ExternTag) -> Sort
    ensures { result ≡ type_of tag }
{
    match tag {
        ExternTag::Func => Sort::After(Tail::InUse(false, Stage::AtType), Place::Nothing),
        ExternTag::Table => Sort::TableType,
        ExternTag::Memory => Sort::MemoryBody(false),
        ExternTag::Global => Sort::GlobalType,
    }
}

/// What follows the offset of a segment.
pub fn filled(filling: Filling) -> Sort
    ensures { result ≡ filled filling }
{
    match filling {
        Filling::Functions => Sort::Items,
        Filling::Bytes => Sort::Strings,
    }
}
