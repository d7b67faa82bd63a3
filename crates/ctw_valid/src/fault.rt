ghost use Rattle.std.specs.Prelude.{◌≡◌};
ghost use Rattle.ctw_valid.specs.declared.fault.BodyFault.TheVariants.{NoMemory};

use ctw_ops::SecretRule;
use std::alloc::{AllocError, AllocFailed};
use thiserror::Error;

/// Why a body doesn't have its function's type, or that memory ran out. `at` is the number of an opcode of the body,
/// counted from 0: the body cut before it has the type, and the body cut behind it hasn't.
#[derive(Clone, Copy, Debug, PartialEq, Eq, Error)]
pub enum BodyFault {
    /// The opcode names a type, function, local, global, label, table or memory that isn't there.
    #[error("no such index at opcode {at}")]
    Index {
        /// The opcode's number.
        at: u32,
    },
    /// A load's or store's alignment passes its bytes.
    #[error("bad alignment at opcode {at}")]
    Align {
        /// The opcode's number.
        at: u32,
    },
    /// A constant global would be written.
    #[error("constant global written at opcode {at}")]
    Immutable {
        /// The opcode's number.
        at: u32,
    },
    /// An untrusted function declassifies, or calls a trusted type.
    #[error("trust wanted at opcode {at}")]
    Trust {
        /// The opcode's number.
        at: u32,
    },
    /// A secret stands where no secret may.
    #[error("secret at opcode {at}: {rule:?}")]
    SecretPlace {
        /// The opcode's number.
        at: u32,
        /// The place where it stands.
        rule: SecretRule,
    },
    /// The operands have other types than the opcode wants, or a block ends otherwise than its type says.
    #[error("wrong type at opcode {at}")]
    WrongType {
        /// The opcode's number.
        at: u32,
    },
    /// Memory ran out; nothing is known of the body.
    #[error("out of memory")]
    NoMemory,
}

impl From<AllocError> for BodyFault {
    ghost from_gives = { λ _ e. e ≡ NoMemory };

    fn from(_e: AllocError) -> BodyFault {
        BodyFault::NoMemory
    }
}

impl<T: Drop> From<AllocFailed<T>> for BodyFault {
    ghost from_gives = { λ _ e. e ≡ NoMemory };

    fn from(_e: AllocFailed<T>) -> BodyFault {
        BodyFault::NoMemory
    }
}
