// What a session tells of a move.
use crate::trap::TrapCode;
use ctw_ops::{Octets, Width};

/// What is shown of a result.
#[derive(Clone, Copy, Debug, PartialEq, Eq)]
pub enum Shown {
    /// The call has no result.
    Nothing,
    /// A public result.
    Number {
        /// The result's width.
        width: Width,
        /// The result as an unsigned number.
        bits: u64,
    },
    /// A secret result: its bytes are sealed.
    Secret,
}

/// Why a move is refused. A refused move changes nothing.
#[derive(Clone, Copy, Debug, PartialEq, Eq)]
pub enum Refusal {
    /// No part of that name exports a function of that name.
    NoExport,
    /// Arguments that the function's parameters don't take: another count, a number outside its parameter's range, or
    /// vault bytes for a public parameter.
    BadArgs,
    /// A call is in the slot.
    SlotBusy,
    /// No call is in the slot.
    SlotFree,
    /// No part of that name exports a memory of that name.
    NoMemoryExport,
    /// Bytes past the memory's end.
    Bounds,
    /// A memory of another label than the move wants.
    WrongLabel,
    /// Fewer bytes are left of the vault than the move takes.
    VaultShort,
    /// A turn of more than 1,000,000 steps.
    TurnTooLong,
    /// More than 16,777,216 sealed bytes.
    SealedFull,
}

/// The reply to a move.
#[derive(Debug, Drop)]
pub enum Reply {
    /// A call has begun.
    Began,
    /// The steps of the turn were taken, and the call hasn't ended.
    More {
        /// How many steps the turn took.
        steps: u32,
    },
    /// The call has ended.
    Done {
        /// How many steps the turn took.
        steps: u32,
        /// What is shown of its result.
        result: Shown,
    },
    /// The call has trapped.
    Trap {
        /// How many steps the turn took.
        steps: u32,
        /// Why.
        code: TrapCode,
    },
    /// A call was given up.
    Dropped,
    /// Bytes were written.
    Wrote,
    /// The bytes that are shown.
    Bytes(Octets),
    /// Bytes of the vault were written.
    Sealed,
    /// Bytes were appended to the sealed bytes.
    Revealed {
        /// How many.
        count: u32,
    },
    /// The move was refused.
    Refused(Refusal),
}
