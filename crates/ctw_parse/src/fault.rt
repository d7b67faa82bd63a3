ghost use Rattle.std.specs.Prelude.{◌≡◌};
ghost use Rattle.ctw_parse.specs.declared.fault.TextFault.TheVariants.{NoMemory};
ghost use Rattle.ctw_parse.specs.Told.{fault_of, lex_fault, pieces_fault};

use ctw_lex::{LexFault, LexPlace};
use ctw_ops::What;
use ctw_pieces::{PiecesFault, PiecesKind};
use std::alloc::{AllocError, AllocFailed};
use thiserror::Error;

/// Why a text isn't assembled. A token is told by the offsets of its first byte and behind its last one.
#[derive(Debug, Drop, Error)]
pub enum TextFault {
    /// The text has no tokens; its first fault is told.
    #[error("{0:?}")]
    Lex(LexPlace),
    /// A token has no place, or a typeuse spells other types than its entry has. At the text's end the text ends too
    /// early.
    #[error("unexpected token from byte {start} to {end}")]
    Unexpected {
        start: u32,
        end: u32,
    },
    /// Nothing has the name.
    #[error("unknown name from byte {start} to {end}")]
    UnknownName {
        start: u32,
        end: u32,
    },
    /// Another thing of the same kind has the name already.
    #[error("name that is taken from byte {start} to {end}")]
    DoubleName {
        start: u32,
        end: u32,
    },
    /// A number is out of the range of its place.
    #[error("number out of range from byte {start} to {end}")]
    NumberRange {
        start: u32,
        end: u32,
    },
    /// A word names a float where a type or an instruction may stand.
    #[error("float from byte {start} to {end}")]
    Floats {
        start: u32,
        end: u32,
    },
    /// The module has more of something than a file may have; the first limit that a reader of its bytes would meet.
    #[error("too many {what:?}: the limit is {limit}")]
    TooMany {
        /// What is too much.
        what: What,
        /// How much there may be.
        limit: u32,
    },
    /// Memory was wanting.
    #[error("out of memory")]
    NoMemory,
}

impl From<AllocError> for TextFault {
    ghost from_gives = { λ _ fault. fault ≡ NoMemory };

    fn from(_failed: AllocError) -> TextFault {
        TextFault::NoMemory
    }
}

impl<T: Drop> From<AllocFailed<T>> for TextFault {
    ghost from_gives = { λ _ fault. fault ≡ NoMemory };

    fn from(_failed: AllocFailed<T>) -> TextFault {
        TextFault::NoMemory
    }
}

impl From<LexFault> for TextFault {
    ghost from_gives = { λ f fault. fault_of fault ≡ lex_fault f };

    fn from(fault: LexFault) -> TextFault {
        match fault {
            LexFault::Bad(place) => TextFault::Lex(place),
            LexFault::NoMemory => TextFault::NoMemory,
        }
    }
}

impl From<PiecesFault> for TextFault {
    ghost from_gives = { λ f fault. fault_of fault ≡ pieces_fault f };

    fn from(fault: PiecesFault) -> TextFault {
        match fault {
            PiecesFault::Bad(place) => {
                let start = place.start;
                let end = place.end;
                match place.kind {
                    PiecesKind::Unexpected => TextFault::Unexpected { start, end },
                    PiecesKind::NumberRange => TextFault::NumberRange { start, end },
                    PiecesKind::Floats => TextFault::Floats { start, end },
                }
            }
            PiecesFault::NoMemory => TextFault::NoMemory,
        }
    }
}
