//! The second pass of the assembler: the pieces that the tokens of a text spell (W3C WebAssembly Core 1.0, chapter 6),
//! or the first token that has no place.
#![tactic(auto)]

ghost use Rattle.std.specs.Prelude.{◌≡◌, Bool, List, IfErr, IfOk, IfSome, Ok, Err, Some};
ghost use Rattle.ctw_text.specs.Toks.{toks_of};
ghost use Rattle.ctw_text.specs.declared.pieces.Piece.{Piece};
ghost use Rattle.ctw_text.specs.Grammar.{Spells};
ghost use Rattle.ctw_text.specs.Machine.{is_ct, spelled, stop};
ghost use Rattle.ctw_text.specs.Denotes.{stop_fault};
ghost use Rattle.ctw_pieces.specs.Reasons.{why_of};
ghost use Rattle.ctw_pieces.specs.declared.PiecesFault.TheVariants.{NoMemory};
ghost use Rattle.ctw_pieces.specs.Second.{second_pass, fault_of};

mod atoms;
mod faults;
mod forms;
mod leads;
mod machine;
mod moves;
mod numbers;
mod pairs;
mod steps;
mod tokens;

use crate::atoms::tok_of;
use crate::leads::is_ct;
use crate::machine::{Machine, Progress, started};
use ctw_lex::TokenList;
use ctw_text::Piece;
use std::alloc::{AllocError, AllocFailed, Global};

/// Why a token has no place.
#[derive(Clone, Copy, Debug, PartialEq, Eq)]
pub enum PiecesKind {
    /// No module of this kind goes on with it, or the text ends too early.
    Unexpected,
    /// A number may stand there, but not this one.
    NumberRange,
    /// It names a float where a type or an instruction may stand.
    Floats,
}

/// The first token that has no place.
#[derive(Clone, Copy, Debug, PartialEq, Eq)]
pub struct PiecesPlace {
    /// Why it has none.
    pub kind: PiecesKind,
    /// The offset of its first byte; that of the text's end where the text ends too early.
    pub start: u32,
    /// The offset behind its last byte; that of the text's end where the text ends too early.
    pub end: u32,
}

/// Why `pieces` gives no pieces.
#[derive(Clone, Copy, Debug, PartialEq, Eq)]
pub enum PiecesFault {
    /// The tokens spell no module; the first one without a place is told.
    Bad(PiecesPlace),
    /// Memory was wanting.
    NoMemory,
}

impl From<AllocError> for PiecesFault {
    ghost from_gives = { λ _ fault. fault ≡ NoMemory };

    fn from(_failed: AllocError) -> PiecesFault {
        PiecesFault::NoMemory
    }
}

impl<T: Drop> From<AllocFailed<T>> for PiecesFault {
    ghost from_gives = { λ _ fault. fault ≡ NoMemory };

    fn from(_failed: AllocFailed<T>) -> PiecesFault {
        PiecesFault::NoMemory
    }
}

/// A module as it is spelled.
#[derive(Drop)]
pub struct Spelled<'a> {
    /// Whether it is a CT module.
    pub is_ct: bool,
    /// Its pieces, in the order of the text.
    pub items: Vec<Piece<'a>>,
}

// The fault at the token of this number, or at the text's end.
fn fault_at(tokens: &TokenList, at: u32, size: u32, kind: PiecesKind) -> PiecesFault
    ensures { fault_of result ≡ Some (stop_fault size tokens.now (stop at (why_of kind))) }
{
    if at >= tokens.count() {
        return PiecesFault::Bad(PiecesPlace {
            kind: PiecesKind::Unexpected,
            start: size,
            end: size,
        });
    }
    let token = tokens.at(at);
    PiecesFault::Bad(PiecesPlace {
        kind,
        start: token.start,
        end: token.end,
    })
}

/// The pieces that the tokens of a text of `size` bytes spell.
///
/// `Bad` comes exactly where they spell no module, with the first token that has no place; the text's end where a
/// token is missing. `NoMemory` may come for any tokens.
#[tactic(auto, using(crate::proofs::Claims::begun, crate::proofs::Claims::stepped, crate::proofs::Claims::stuck, crate::proofs::Claims::stuck_before, crate::proofs::Claims::ended, crate::proofs::Claims::end_stuck, crate::proofs::Claims::end_before, crate::proofs::Claims::fault_told, crate::proofs::Claims::spells_told, crate::proofs::Claims::none_told))]
pub fn pieces<'a>(
    alloc: Global,
    tokens: &TokenList<'a>,
    size: u32,
) -> Result<Spelled<'a>, PiecesFault>
    ensures grammar { IfOk result (λ p. Spells p.is_ct (toks_of tokens.now) p.items.items) }
    ensures none { IfErr result (λ f. IfSome (fault_of f) (λ _. (ct : Bool) (ps : List Piece) → Spells ct (toks_of tokens.now) ps → ⊥)) }

    // The same by functions, which compute, with the fault.
    ensures kind { IfOk result (λ p. p.is_ct ≡ is_ct (toks_of tokens.now)) }
    ensures pieces { IfOk result (λ p. spelled (toks_of tokens.now) ≡ Ok p.items.items) }
    ensures fault { IfErr result (λ f. IfSome (fault_of f) (λ fault. second_pass size tokens.now ≡ Err fault)) }
{
    let ct = is_ct(alloc, tokens)?;
    let mut machine = started(alloc)?;
    for at in 0..tokens.count() {
        let tok = tok_of(alloc, tokens.at(at))?;
        match machine.advance(ct, &tok)? {
            Progress::Ahead => {}
            Progress::Stuck(kind) => return Err(fault_at(tokens, at, size, kind)),
            Progress::StuckBefore => {
                return Err(fault_at(tokens, at - 1, size, PiecesKind::Unexpected));
            }
        }
    }
    let count = tokens.count();
    match machine.ending(ct) {
        Progress::Ahead => Ok(Spelled {
            is_ct: ct,
            items: machine.out,
        }),
        Progress::Stuck(kind) => Err(fault_at(tokens, count, size, kind)),
        Progress::StuckBefore => Err(fault_at(tokens, count - 1, size, PiecesKind::Unexpected)),
    }
}
