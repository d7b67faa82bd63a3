ghost use Rattle.std.specs.Prelude.{◌≡◌};
ghost use Rattle.ctw_session.specs.declared.fault.LaunchFault.TheVariants.{NoMemory};

use ctw_ops::Space;
use ctw_script::TrapCode;
use std::alloc::AllocError;
use thiserror::Error;

/// Why a set isn't launched.
#[derive(Clone, Copy, Debug, PartialEq, Eq, Error)]
pub enum LaunchFault {
    /// A segment doesn't lie inside its table or memory.
    #[error("a segment is outside")]
    SegmentOutside {
        /// The part.
        part: u32,
        /// Elements or data segments.
        space: Space,
        /// Which of them.
        index: u32,
    },
    /// A start function trapped.
    #[error("a start function trapped")]
    StartTrapped {
        /// The part.
        part: u32,
        /// Why.
        code: TrapCode,
    },
    /// A start function hasn't ended after 1,000,000 steps.
    #[error("a start function has not ended")]
    StartUnfinished {
        /// The part.
        part: u32,
    },
    /// There was no memory.
    #[error("out of memory")]
    NoMemory,
}

impl From<AllocError> for LaunchFault {
    ghost from_gives = { λ _ e. e ≡ NoMemory };

    fn from(_e: AllocError) -> LaunchFault {
        LaunchFault::NoMemory
    }
}

/// Want of memory in a move.
#[derive(Clone, Copy, Debug, PartialEq, Eq, Error)]
#[error("out of memory")]
pub struct ActNoMemory {
    /// How many steps were taken. It is 0 for every move but a turn, and all is then as before.
    pub steps: u32,
}
