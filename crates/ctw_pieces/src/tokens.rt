// Moves over one token.

ghost use Rattle.std.specs.Prelude.{◌≡◌, ◌∷◌, [], Bool, option_map};
ghost use Rattle.ctw_text.specs.declared.toks.Tok.TheVariants.{Word};
ghost use Rattle.ctw_text.specs.declared.pieces.Piece.TheVariants.{Refers, Number, Typed, ValueIs, Yields, Aligned};
ghost use Rattle.ctw_text.specs.Grammar.{exponent, takes_bytes, gives};
ghost use Rattle.ctw_text.specs.declared.sorts.Tail.TheVariants.{MayRepeat, MayLabel, MayOffset, MayAlign, InUse, NoTail};
ghost use Rattle.ctw_text.specs.declared.sorts.Sort.TheVariants.{After, SegmentHead};
ghost use Rattle.ctw_text.specs.Machine.{at_index, at_u32, at_type, group_token, types_token, const_token, string_token, table_token, table_max_token, funcref_token, memory_token, memory_max_token, items_token, strings_token, expr_token, custom_token, tail_token, at_end, at_else, at_close, code_token, after_token, body_token, extern_token, import_type_token, named_type_token, close_token, head_token, type_head_token, after_then_token, move1};
ghost use Rattle.ctw_pieces.specs.Moves.{sorts_in};
ghost use Rattle.ctw_pieces.specs.Split.{own_name, inner_move};

use crate::forms::{
    filled, import_type, is_within, plain_block, plain_expr, plain_instruction, takes_type,
};
use crate::moves::{Longer, Move, Next, alone, before, takes, writes};
use crate::numbers::{constant, exponent, small};
use ctw_ops::{ExternTag, Label, Width};
use ctw_text::{
    Before, Filling, Index, Key, Part, Piece, Place, Quote, Quoted, Role, Sort, Stage, Tail, Tok,
};

fn index_token<'a>(role: Role, next: Next, tok: &Tok<'a>) -> Option<Move<'a>>
    ensures { result ≡ at_index (λ x. gives (Refers role x ∷ []) (sorts_in next)) tok.now }
{
    match tok {
        Tok::Num(n) => match small(*n) {
            Some(index) => writes(Piece::Refers(role, Index::Numbered(index)), next),
            None => None,
        },
        Tok::Id(w) => writes(Piece::Refers(role, Index::Named(w.again())), next),
        _ => None,
    }
}

fn size_token<'a>(next: Next, tok: &Tok<'a>) -> Option<Move<'a>>
    ensures { result ≡ at_u32 (λ n. gives (Number n ∷ []) (sorts_in next)) tok.now }
{
    match tok {
        Tok::Num(n) => match small(*n) {
            Some(n) => writes(Piece::Number(n), next),
            None => None,
        },
        _ => None,
    }
}

fn listed_type<'a>(ct: bool, part: Part, next: Next, tok: &Tok<'a>) -> Option<Move<'a>>
    ensures { result ≡ at_type ct (λ t. gives (Typed part t ∷ []) (sorts_in next)) tok.now }
{
    match tok {
        Tok::Word(Key::Ty(t)) => {
            if takes_type(ct, *t) {
                writes(Piece::Typed(part, *t), next)
            } else {
                None
            }
        }
        _ => None,
    }
}

fn value_type<'a>(ct: bool, next: Next, tok: &Tok<'a>) -> Option<Move<'a>>
    ensures { result ≡ at_type ct (λ t. gives (ValueIs t ∷ []) (sorts_in next)) tok.now }
{
    match tok {
        Tok::Word(Key::Ty(t)) => {
            if takes_type(ct, *t) {
                writes(Piece::ValueIs(*t), next)
            } else {
                None
            }
        }
        _ => None,
    }
}

fn result_type<'a>(ct: bool, tok: &Tok<'a>) -> Option<Move<'a>>
    ensures { result ≡ at_type ct (λ t. gives (Yields t ∷ []) []) tok.now }
{
    match tok {
        Tok::Word(Key::Ty(t)) => {
            if takes_type(ct, *t) {
                writes(Piece::Yields(*t), Next::Done)
            } else {
                None
            }
        }
        _ => None,
    }
}

fn types_token<'a>(ct: bool, part: Part, tok: &Tok<'a>) -> Option<Move<'a>>
    ensures { result ≡ types_token ct part tok.now }
{
    match tok {
        Tok::Close => takes(Next::Done),
        Tok::Word(Key::Ty(t)) => {
            if takes_type(ct, *t) {
                writes(Piece::Typed(part, *t), Next::One(Sort::Types(part)))
            } else {
                None
            }
        }
        _ => None,
    }
}

fn group_token<'a>(ct: bool, part: Part, tok: &Tok<'a>) -> Option<Move<'a>>
    ensures { result ≡ group_token ct part tok.now }
{
    match tok {
        Tok::Id(w) => match part {
            Part::Result => None,
            _ => writes(
                Piece::Slot(part, w.again()),
                Next::Two(Sort::OneType(part), Sort::Closing),
            ),
        },
        Tok::Close => takes(Next::Done),
        Tok::Word(Key::Ty(t)) => {
            if takes_type(ct, *t) {
                writes(Piece::Typed(part, *t), Next::One(Sort::Types(part)))
            } else {
                None
            }
        }
        _ => None,
    }
}

fn const_token<'a>(width: Width, label: Label, tok: &Tok<'a>) -> Option<Move<'a>>
    ensures { result ≡ const_token width label tok.now }
{
    match tok {
        Tok::Num(n) => constant(width, label, false, *n),
        Tok::Signed(negative, n) => constant(width, label, *negative, *n),
        _ => None,
    }
}

fn takes_string(what: Quoted, quote: &Quote) -> bool
    ensures { result ≡ takes_bytes what quote.now }
{
    match what {
        Quoted::Bytes => true,
        _ => quote.is_utf8(),
    }
}

fn string_token<'a>(what: Quoted, tok: &Tok<'a>) -> Option<Move<'a>>
    ensures { result ≡ string_token what tok.now }
{
    match tok {
        Tok::Text(quote) => {
            if takes_string(what, quote) {
                writes(Piece::Quotes(what, quote.again()), Next::Done)
            } else {
                None
            }
        }
        _ => None,
    }
}

fn strings_token<'a>(tok: &Tok<'a>) -> Option<Move<'a>>
    ensures { result ≡ strings_token tok.now }
{
    match tok {
        Tok::Close => takes(Next::Done),
        Tok::Text(quote) => writes(
            Piece::Quotes(Quoted::Bytes, quote.again()),
            Next::One(Sort::Strings),
        ),
        _ => None,
    }
}

fn items_token<'a>(tok: &Tok<'a>) -> Option<Move<'a>>
    ensures { result ≡ items_token tok.now }
{
    match tok {
        Tok::Close => takes(Next::Done),
        Tok::Num(n) => match small(*n) {
            Some(n) => writes(
                Piece::Refers(Role::OfItem, Index::Numbered(n)),
                Next::One(Sort::Items),
            ),
            None => None,
        },
        Tok::Id(w) => writes(
            Piece::Refers(Role::OfItem, Index::Named(w.again())),
            Next::One(Sort::Items),
        ),
        _ => None,
    }
}

fn table_token<'a>(tok: &Tok<'a>) -> Option<Move<'a>>
    ensures { result ≡ table_token tok.now }
{
    match tok {
        Tok::Num(n) => match small(*n) {
            Some(n) => writes(Piece::Number(n), Next::Two(Sort::TableMax, Sort::Closing)),
            None => None,
        },
        Tok::Word(Key::Funcref) => writes(
            Piece::Inline,
            Next::Two(Sort::InlineElem, Sort::Closing),
        ),
        _ => None,
    }
}

fn table_max_token<'a>(tok: &Tok<'a>) -> Option<Move<'a>>
    ensures { result ≡ table_max_token tok.now }
{
    match tok {
        Tok::Num(n) => match small(*n) {
            Some(n) => writes(Piece::Number(n), Next::One(Sort::Funcref)),
            None => None,
        },
        Tok::Word(Key::Funcref) => takes(Next::Done),
        _ => None,
    }
}

fn funcref_token<'a>(tok: &Tok<'a>) -> Option<Move<'a>>
    ensures { result ≡ funcref_token tok.now }
{
    match tok {
        Tok::Word(Key::Funcref) => takes(Next::Done),
        _ => None,
    }
}

fn memory_token<'a>(ct: bool, inline: bool, tok: &Tok<'a>) -> Option<Move<'a>>
    ensures { result ≡ memory_token ct inline tok.now }
{
    match tok {
        Tok::Num(n) => match small(*n) {
            Some(n) => writes(Piece::Number(n), Next::One(Sort::MemoryMax)),
            None => None,
        },
        Tok::Word(Key::Secret) => {
            if ct {
                writes(Piece::IsSecret, Next::One(Sort::Pages(inline)))
            } else {
                None
            }
        }
        _ => None,
    }
}

fn memory_max_token<'a>(tok: &Tok<'a>) -> Option<Move<'a>>
    ensures { result ≡ memory_max_token tok.now }
{
    match tok {
        Tok::Close => takes(Next::Done),
        Tok::Num(n) => match small(*n) {
            Some(n) => writes(Piece::Number(n), Next::One(Sort::Closing)),
            None => None,
        },
        _ => None,
    }
}

fn custom_token<'a>(tok: &Tok<'a>) -> Option<Move<'a>>
    ensures { result ≡ custom_token tok.now }
{
    match tok {
        Tok::Num(n) => {
            if *n <= 11 {
                writes(Piece::Number(*n as u32), Next::Done)
            } else {
                None
            }
        }
        _ => None,
    }
}

fn expr_token<'a>(ct: bool, tok: &Tok<'a>) -> Option<Move<'a>>
    ensures { result ≡ expr_token ct tok.now }
{
    match tok {
        Tok::Word(Key::Op(form)) => plain_expr(ct, form),
        _ => None,
    }
}

fn repeat_token<'a>(place: Place, tok: &Tok<'a>) -> Option<Move<'a>>
    ensures { (ct : Bool) → result ≡ tail_token ct MayRepeat place tok.now }
{
    match tok {
        Tok::Id(w) => writes(
            Piece::Repeats(w.again()),
            Next::One(Sort::After(Tail::NoTail, place)),
        ),
        _ => None,
    }
}

fn label_token<'a>(place: Place, tok: &Tok<'a>) -> Option<Move<'a>>
    ensures { (ct : Bool) → result ≡ tail_token ct MayLabel place tok.now }
{
    match tok {
        Tok::Id(w) => writes(
            Piece::Labelled(w.again()),
            Next::One(Sort::After(Tail::MayYield, place)),
        ),
        _ => None,
    }
}

fn aligned<'a>(place: Place, n: u128) -> Option<Move<'a>>
    ensures { result ≡ option_map (λ k. gives (Aligned k ∷ []) (After NoTail place ∷ [])) (exponent n) }
{
    match exponent(n) {
        Some(k) => writes(
            Piece::Aligned(k),
            Next::One(Sort::After(Tail::NoTail, place)),
        ),
        None => None,
    }
}

fn offset_token<'a>(place: Place, tok: &Tok<'a>) -> Option<Move<'a>>
    ensures { (ct : Bool) → result ≡ tail_token ct MayOffset place tok.now }
{
    match tok {
        Tok::OffsetIs(n) => match small(*n) {
            Some(n) => writes(
                Piece::AtOffset(n),
                Next::One(Sort::After(Tail::MayAlign, place)),
            ),
            None => None,
        },
        Tok::AlignIs(n) => aligned(place, *n),
        _ => None,
    }
}

fn align_token<'a>(place: Place, tok: &Tok<'a>) -> Option<Move<'a>>
    ensures { (ct : Bool) → result ≡ tail_token ct MayAlign place tok.now }
{
    match tok {
        Tok::AlignIs(n) => aligned(place, *n),
        _ => None,
    }
}

fn trusted_token<'a>(
    ct: bool,
    locals: bool,
    stage: Stage,
    place: Place,
    tok: &Tok<'a>,
) -> Option<Move<'a>>
    ensures { result ≡ tail_token ct (InUse locals stage) place tok.now }
{
    match tok {
        Tok::Word(Key::Trusted) => {
            if ct && is_within(stage, Stage::AtTrusted) {
                writes(
                    Piece::Trusting,
                    Next::One(Sort::After(Tail::InUse(locals, Stage::AtParams), place)),
                )
            } else {
                None
            }
        }
        _ => None,
    }
}

// What belongs to the thing before.
fn tail_token<'a>(ct: bool, tail: Tail, place: Place, tok: &Tok<'a>) -> Option<Move<'a>>
    ensures { result ≡ tail_token ct tail place tok.now }
{
    match tail {
        Tail::NoTail => None,
        Tail::MayRepeat => repeat_token(place, tok),
        Tail::MayLabel => label_token(place, tok),
        Tail::MayYield => None,
        Tail::MayOffset => offset_token(place, tok),
        Tail::MayAlign => align_token(place, tok),
        Tail::MayTarget => index_token(
            Role::OfTarget,
            Next::One(Sort::After(Tail::MayTarget, place)),
            tok,
        ),
        Tail::InUse(locals, stage) => trusted_token(ct, locals, stage, place, tok),
    }
}

fn at_end<'a>(place: Place) -> Option<Move<'a>>
    ensures { result ≡ at_end place }
{
    match place {
        Place::InBlock => writes(Piece::End, Next::Done),
        Place::InIf => writes(Piece::End, Next::Done),
        _ => None,
    }
}

fn at_else<'a>(place: Place) -> Option<Move<'a>>
    ensures { result ≡ at_else place }
{
    match place {
        Place::InIf => writes(
            Piece::Else,
            Next::One(Sort::After(Tail::MayRepeat, Place::InBlock)),
        ),
        _ => None,
    }
}

fn at_close<'a>(place: Place) -> Option<Move<'a>>
    ensures { result ≡ at_close place }
{
    match place {
        Place::Body => takes(Next::Done),
        Place::InFolded => writes(Piece::End, Next::Done),
        Place::InOperands => writes(Piece::Unfold, Next::Done),
        Place::InThen => takes(Next::One(Sort::AfterThen)),
        Place::InElse => writes(Piece::End, Next::One(Sort::Closing)),
        Place::Nothing => takes(Next::Done),
        _ => None,
    }
}

fn code_key<'a>(ct: bool, place: Place, key: &Key) -> Option<Move<'a>>
    ensures { result ≡ code_token ct place (Word key.now) }
{
    match key {
        Key::Op(form) => plain_instruction(ct, place, form),
        Key::Shape(shape) => plain_block(place, shape),
        Key::End => at_end(place),
        Key::Else => at_else(place),
        _ => None,
    }
}

// An instruction, or what closes them.
fn code_token<'a>(ct: bool, place: Place, tok: &Tok<'a>) -> Option<Move<'a>>
    ensures { result ≡ code_token ct place tok.now }
{
    match tok {
        Tok::Word(key) => code_key(ct, place, key),
        Tok::Close => at_close(place),
        _ => None,
    }
}

fn after_token<'a>(ct: bool, tail: Tail, place: Place, tok: &Tok<'a>) -> Option<Move<'a>>
    ensures { result ≡ after_token ct tail place tok.now }
{
    if let Some(found) = tail_token(ct, tail, place, tok) {
        return Some(found);
    }
    code_token(ct, place, tok)
}

fn body_token<'a>(ct: bool, tag: ExternTag, tok: &Tok<'a>) -> Option<Move<'a>>
    ensures { result ≡ body_token ct tag tok.now }
{
    match tag {
        ExternTag::Func => after_token(ct, Tail::InUse(true, Stage::AtType), Place::Body, tok),
        ExternTag::Table => table_token(tok),
        ExternTag::Memory => memory_token(ct, true, tok),
        ExternTag::Global => value_type(ct, Next::Two(Sort::Expr, Sort::Closing), tok),
    }
}

// A field's own name.
fn name_token<'a>(next: Next, tok: &Tok<'a>) -> Option<Move<'a>>
    ensures { result ≡ own_name (sorts_in next) tok.now }
{
    match tok {
        Tok::Id(w) => writes(Piece::NameIs(w.again()), next),
        _ => None,
    }
}

fn extern_token<'a>(
    ct: bool,
    tag: ExternTag,
    fields: Before,
    named: bool,
    tok: &Tok<'a>,
) -> Option<Longer<'a>>
    ensures { result ≡ extern_token ct tag fields named tok.now }
{
    if !named {
        let next = Next::One(Sort::ExternHead(tag, fields, true));
        if let Some(found) = name_token(next, tok) {
            return alone(Some(found));
        }
    }
    before(
        body_token(ct, tag, tok),
        Sort::Fields(Before {
            defined: true,
            started: fields.started,
        }),
    )
}

fn import_type_token<'a>(ct: bool, tag: ExternTag, tok: &Tok<'a>) -> Option<Move<'a>>
    ensures { result ≡ import_type_token ct tag tok.now }
{
    match tag {
        ExternTag::Func => after_token(ct, Tail::InUse(false, Stage::AtType), Place::Nothing, tok),
        ExternTag::Table => size_token(Next::Two(Sort::TableMax, Sort::Closing), tok),
        ExternTag::Memory => memory_token(ct, false, tok),
        ExternTag::Global => value_type(ct, Next::One(Sort::Closing), tok),
    }
}

fn named_type_token<'a>(ct: bool, tag: ExternTag, tok: &Tok<'a>) -> Option<Move<'a>>
    ensures { result ≡ named_type_token ct tag tok.now }
{
    if let Some(found) = name_token(Next::One(import_type(tag)), tok) {
        return Some(found);
    }
    import_type_token(ct, tag, tok)
}

fn close_token<'a>(tok: &Tok<'a>) -> Option<Move<'a>>
    ensures { result ≡ close_token tok.now }
{
    match tok {
        Tok::Close => takes(Next::Done),
        _ => None,
    }
}

// Behind `(module`.
fn head_token<'a>(ct: bool, named: bool, tok: &Tok<'a>) -> Option<Move<'a>>
    ensures { result ≡ head_token ct named tok.now }
{
    match tok {
        Tok::Id(_) => {
            if named {
                None
            } else {
                takes(Next::One(Sort::Head(true)))
            }
        }
        Tok::Word(Key::Ct) => {
            if ct {
                takes(Next::One(Sort::Fields(Before {
                    defined: false,
                    started: false,
                })))
            } else {
                None
            }
        }
        Tok::Close => { if ct { None } else { takes(Next::Done) } }
        _ => None,
    }
}

fn type_head_token<'a>(named: bool, tok: &Tok<'a>) -> Option<Move<'a>>
    ensures { result ≡ type_head_token named tok.now }
{
    if named {
        return None;
    }
    name_token(Next::One(Sort::TypeHead(true)), tok)
}

fn after_then_token<'a>(tok: &Tok<'a>) -> Option<Move<'a>>
    ensures { result ≡ after_then_token tok.now }
{
    match tok {
        Tok::Close => writes(Piece::End, Next::Done),
        _ => None,
    }
}

fn segment_token<'a>(role: Role, filling: Filling, tok: &Tok<'a>) -> Option<Move<'a>>
    ensures { (ct : Bool) → result ≡ move1 ct (SegmentHead role filling) tok.now }
{
    index_token(role, Next::Two(Sort::Offset, filled(filling)), tok)
}

// The productions inside fields that begin with this token.
fn inner_move<'a>(ct: bool, sort: Sort, tok: &Tok<'a>) -> Option<Move<'a>>
    ensures { result ≡ inner_move ct sort tok.now }
{
    match sort {
        Sort::After(tail, place) => after_token(ct, tail, place, tok),
        Sort::AfterThen => after_then_token(tok),
        Sort::Group(part) => group_token(ct, part, tok),
        Sort::Types(part) => types_token(ct, part, tok),
        Sort::OneType(part) => listed_type(ct, part, Next::Done, tok),
        Sort::YieldType => result_type(ct, tok),
        Sort::ValueType => value_type(ct, Next::Done, tok),
        Sort::AnIndex(role) => index_token(role, Next::Done, tok),
        Sort::AConst(width, label) => const_token(width, label, tok),
        Sort::AString(what) => string_token(what, tok),
        Sort::Expr => expr_token(ct, tok),
        _ => None,
    }
}

/// The production of a nonterminal that begins with this token; None where there is none.
pub fn token_move<'a>(ct: bool, sort: Sort, tok: &Tok<'a>) -> Option<Longer<'a>>
    ensures { result ≡ move1 ct sort tok.now }
{
    match sort {
        Sort::ExternHead(tag, fields, named) => extern_token(ct, tag, fields, named, tok),
        Sort::Head(named) => alone(head_token(ct, named, tok)),
        Sort::Fields(_) => alone(close_token(tok)),
        Sort::Closing => alone(close_token(tok)),
        Sort::TypeHead(named) => alone(type_head_token(named, tok)),
        Sort::NamedType(tag) => alone(named_type_token(ct, tag, tok)),
        Sort::TableBody => alone(table_token(tok)),
        Sort::GlobalBody => alone(value_type(ct, Next::Two(Sort::Expr, Sort::Closing), tok)),
        Sort::MemoryBody(inline) => alone(memory_token(ct, inline, tok)),
        Sort::Pages(_) => alone(size_token(Next::One(Sort::MemoryMax), tok)),
        Sort::TableType => alone(size_token(Next::Two(Sort::TableMax, Sort::Closing), tok)),
        Sort::GlobalType => alone(value_type(ct, Next::One(Sort::Closing), tok)),
        Sort::TableMax => alone(table_max_token(tok)),
        Sort::MemoryMax => alone(memory_max_token(tok)),
        Sort::Funcref => alone(funcref_token(tok)),
        Sort::Items => alone(items_token(tok)),
        Sort::Strings => alone(strings_token(tok)),
        Sort::SegmentHead(role, filling) => alone(segment_token(role, filling, tok)),
        Sort::CustomPlace => alone(custom_token(tok)),
        _ => alone(inner_move(ct, sort, tok)),
    }
}
