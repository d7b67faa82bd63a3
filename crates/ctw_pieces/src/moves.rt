// What a production writes, and what follows it.

ghost use Rattle.std.specs.Prelude.{◌≡◌, ◌∷◌, [], Some, option_map};
ghost use Rattle.ctw_text.specs.Grammar.{gives, before_sort};
ghost use Rattle.ctw_pieces.specs.Moves.{sorts_in};

use ctw_text::{Piece, Sort};
use std::marker::Model;

/// The pieces that a production writes behind its first tokens.
#[derive(Drop)]
pub enum Out<'a> {
    Nothing,
    One(Piece<'a>),
    Two(Piece<'a>, Piece<'a>),
}

/// The nonterminals that follow, the first one first.
#[derive(Clone, Copy)]
pub enum Next {
    Done,
    One(Sort),
    Two(Sort, Sort),
    Three(Sort, Sort, Sort),
    Four(Sort, Sort, Sort, Sort),
    Five(Sort, Sort, Sort, Sort, Sort),
}

/// A production behind its first tokens.
#[derive(Drop)]
pub struct Move<'a> {
    pub out: Out<'a>,
    pub next: Next,
}

impl<'a> Model for Move<'a> {
    ghost use Rattle.ctw_text.specs.Grammar.{Move as Production};
    ghost use Rattle.ctw_pieces.specs.Moves.{pieces_in, sorts_in};

    ghost Value = { Production };

    ghost view = { λ m. record { out = pieces_in m.out; next = sorts_in m.next } };
}

/// A production behind its first tokens, and what may follow it in the production around it.
#[derive(Drop)]
pub struct Longer<'a> {
    pub out: Out<'a>,
    pub next: Next,
    pub last: Option<Sort>,
}

impl<'a> Model for Longer<'a> {
    ghost use Rattle.ctw_text.specs.Grammar.{Move as Production};
    ghost use Rattle.ctw_pieces.specs.Moves.{pieces_in, sorts_in, with_last};

    ghost Value = { Production };

    ghost view = { λ m. record { out = pieces_in m.out; next = with_last (sorts_in m.next) m.last } };
}

/// A production that writes nothing.
pub fn takes<'a>(next: Next) -> Option<Move<'a>>
    ensures { result ≡ Some (gives [] (sorts_in next)) }
{
    Some(Move {
        out: Out::Nothing,
        next,
    })
}

/// A production that writes one piece.
pub fn writes<'a>(piece: Piece<'a>, next: Next) -> Option<Move<'a>>
    ensures { result ≡ Some (gives (piece.entry ∷ []) (sorts_in next)) }
{
    Some(Move {
        out: Out::One(piece),
        next,
    })
}

/// A production that writes two pieces.
pub fn writes_both<'a>(first: Piece<'a>, second: Piece<'a>, next: Next) -> Option<Move<'a>>
    ensures { result ≡ Some (gives (first.entry ∷ second.entry ∷ []) (sorts_in next)) }
{
    Some(Move {
        out: Out::Two(first, second),
        next,
    })
}

/// The production alone.
pub fn alone<'a>(found: Option<Move<'a>>) -> Option<Longer<'a>>
    ensures { result ≡ found.entry }
{
    match found {
        Some(Move { out, next }) => Some(Longer {
            out,
            next,
            last: None,
        }),
        None => None,
    }
}

/// The production, with a nonterminal behind it.
pub fn before<'a>(found: Option<Move<'a>>, last: Sort) -> Option<Longer<'a>>
    ensures { result ≡ option_map (λ m. before_sort m last) found.entry }
{
    match found {
        Some(Move { out, next }) => Some(Longer {
            out,
            next,
            last: Some(last),
        }),
        None => None,
    }
}
