// What a token does where a nonterminal is to come.

ghost use Rattle.std.specs.Prelude.{◌≡◌, ℕ, false};
ghost use Rattle.ctw_text.specs.declared.toks.Tok.TheVariants.{Word};
ghost use Rattle.ctw_pieces.specs.Steps.{IsHere, IsBehind, is_open, is_word};

use crate::PiecesKind;
use crate::faults::{takes_open, why_behind, why_here};
use crate::moves::Longer;
use crate::pairs::word_move;
use crate::tokens::token_move;
use ctw_text::{Key, Sort, Tok};

/// What a token does.
#[derive(Drop)]
pub enum Answer<'a> {
    /// It is a `(` at this offset, and the next token says more.
    Holds(u32),
    /// It ends the first tokens of this production.
    Takes(Longer<'a>),
    /// It has no place.
    Stuck(PiecesKind),
    /// The `(` before it has no place.
    StuckBefore,
}

#[tactic(auto, using(crate::proofs::StepLaws::takes_here, crate::proofs::StepLaws::stuck_here))]
fn other_than_open<'a>(ct: bool, sort: Sort, tok: &Tok<'a>) -> Answer<'a>
    requires { is_open tok.now ≡ false }
    ensures { IsHere result ct sort tok.now }
{
    match token_move(ct, sort, tok) {
        Some(found) => Answer::Takes(found),
        None => Answer::Stuck(why_here(sort, tok)),
    }
}

/// What a token does that has no `(` before it.
pub fn at_token<'a>(ct: bool, sort: Sort, tok: &Tok<'a>) -> Answer<'a>
    ensures { IsHere result ct sort tok.now }
{
    match tok {
        Tok::Open(place) => Answer::Holds(*place),
        _ => other_than_open(ct, sort, tok),
    }
}

#[tactic(auto, using(crate::proofs::StepLaws::word_takes, crate::proofs::StepLaws::word_stuck, crate::proofs::StepLaws::word_before))]
fn behind_word<'a>(ct: bool, sort: Sort, place: u32, key: &Key) -> Answer<'a>
    ensures { IsBehind result ct sort place (Word key.now) }
{
    match word_move(ct, sort, place, key) {
        Some(found) => Answer::Takes(found),
        None => {
            if takes_open(ct, sort) {
                Answer::Stuck(PiecesKind::Unexpected)
            } else {
                Answer::StuckBefore
            }
        }
    }
}

#[tactic(auto, using(crate::proofs::StepLaws::other_stuck, crate::proofs::StepLaws::other_before))]
fn behind_other<'a>(ct: bool, sort: Sort, tok: &Tok<'a>) -> Answer<'a>
    requires { is_word tok.now ≡ false }
    ensures { (at : ℕ) → IsBehind result ct sort at tok.now }
{
    if takes_open(ct, sort) {
        Answer::Stuck(why_behind(sort, tok))
    } else {
        Answer::StuckBefore
    }
}

/// What a token does behind a `(`.
pub fn behind_open<'a>(ct: bool, sort: Sort, place: u32, tok: &Tok<'a>) -> Answer<'a>
    ensures { IsBehind result ct sort place tok.now }
{
    match tok {
        Tok::Word(key) => behind_word(ct, sort, place, key),
        _ => behind_other(ct, sort, tok),
    }
}
