ghost use Rattle.std.specs.Prelude.{◌≡◌};
ghost use Rattle.ctw_flat.specs.declared.fault.BuildFault.TheVariants.{NoMemory};

use std::alloc::{AllocError, AllocFailed};
use thiserror::Error;

/// What is wrong with the bytes of a body.
#[derive(Clone, Copy, Debug, PartialEq, Eq)]
pub enum CodeKind {
    /// The slice ends inside an instruction. The place is the slice's length.
    Truncated,
    /// No legal number begins at the place.
    BadLeb,
    /// The byte at the place is no opcode, or behind E0 no opcode with a secret form, or a reserved byte that isn't 00.
    BadOpcode,
    /// The byte at the place is an opcode or a block type of floats.
    Floats,
    /// The byte at the place is no block type.
    BadBlockType,
    /// The place has an `else` without an `if` or code behind the closing `end`,
    /// or is the slice's length with blocks open.
    Unbalanced,
    /// The opcode at the place opens a block inside 4,096 others.
    TooDeep,
}

/// The first fault of a body from the left, and the place where it stands.
#[derive(Clone, Copy, Debug, PartialEq, Eq, Error)]
#[error("{kind:?} at byte {place} of the body")]
pub struct CodeFault {
    /// What is wrong there.
    pub kind: CodeKind,
    /// An offset in the body's bytes.
    pub place: u32,
}

/// Why the blocks of a body weren't found.
#[derive(Debug, Drop, Error)]
pub enum BuildFault {
    /// The bytes are no body.
    #[error("{0}")]
    Bad(CodeFault),
    /// Memory ran out.
    #[error("out of memory")]
    NoMemory,
}

impl From<AllocError> for BuildFault {
    ghost from_gives = { λ _ e. e ≡ NoMemory };

    fn from(_e: AllocError) -> BuildFault {
        BuildFault::NoMemory
    }
}

impl<T: Drop> From<AllocFailed<T>> for BuildFault {
    ghost from_gives = { λ _ e. e ≡ NoMemory };

    fn from(_e: AllocFailed<T>) -> BuildFault {
        BuildFault::NoMemory
    }
}
