ghost use Rattle.std.specs.Prelude.{◌≡◌};
ghost use Rattle.ctw_read.specs.declared.fault.ReadFault.TheVariants.{Bad, NoMemory};

use ctw_flat::BuildFault;
use ctw_form::items::of_code;
use ctw_form::{FormFault, FormKind};
use std::alloc::{AllocError, AllocFailed};
use thiserror::Error;

/// Why a file wasn't read.
#[derive(Debug, Drop, Error)]
pub enum ReadFault {
    /// The bytes spell no module. Where several things are wrong, this is the first from the left.
    #[error("{kind:?} at byte {place}")]
    Bad {
        /// What is wrong.
        kind: FormKind,
        /// Where it stands, as an offset in the file. `FormKind` says what stands at the place.
        place: u32,
    },
    /// Memory ran out.
    #[error("out of memory")]
    NoMemory,
}

impl From<FormFault> for ReadFault {
    ghost from_gives = { λ f e. e ≡ Bad f.kind f.place };

    fn from(fault: FormFault) -> ReadFault {
        ReadFault::Bad {
            kind: fault.kind,
            place: fault.place,
        }
    }
}

impl From<AllocError> for ReadFault {
    ghost from_gives = { λ _ e. e ≡ NoMemory };

    fn from(_e: AllocError) -> ReadFault {
        ReadFault::NoMemory
    }
}

impl<T: Drop> From<AllocFailed<T>> for ReadFault {
    ghost from_gives = { λ _ e. e ≡ NoMemory };

    fn from(_e: AllocFailed<T>) -> ReadFault {
        ReadFault::NoMemory
    }
}
