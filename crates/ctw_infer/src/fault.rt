ghost use Rattle.std.specs.Prelude.{◌≡◌};
ghost use Rattle.ctw_infer.specs.declared.fault.InferFault.TheVariants.{NoMemory};

use ctw_sites::Witness;
use std::alloc::AllocError;
use std::fmt;
use thiserror::Error;

/// Why a module isn't labelled. Functions are numbered with imported ones first.
#[derive(Drop, Error)]
pub enum InferFault {
    /// The module is a CT module, which has its labels.
    #[error("the module has labels")]
    Labelled,
    /// The module has more than 16,777,216 sites.
    #[error("{count} sites")]
    TooManySites {
        /// How many it has.
        count: u32,
    },
    /// A function that isn't trusted calls one that is.
    #[error("function {caller} calls the trusted function {callee} at opcode {at}")]
    TrustCall {
        /// The function that calls.
        caller: u32,
        /// The number of the call among its opcodes, counted from 0.
        at: u32,
        /// The function that is called.
        callee: u32,
    },
    /// A trusted function is put into the table.
    #[error("the trusted function {func} stands in a table")]
    TrustTable {
        /// The function.
        func: u32,
    },
    /// A secret flows into a public place: the sites on its way, the rules of the links, and why the last one is
    /// public.
    #[error("a secret flows into a public place")]
    Flow(Witness),
    /// Memory ran out.
    #[error("out of memory")]
    NoMemory,
}

impl fmt::Debug for InferFault {
    fn fmt<W: fmt::Write>(&self, f: &mut fmt::Formatter<W>) -> fmt::Result {
        fmt::Display::fmt(self, f)
    }
}

impl From<AllocError> for InferFault {
    ghost from_gives = { λ _ e. e ≡ NoMemory };

    fn from(_e: AllocError) -> InferFault {
        InferFault::NoMemory
    }
}
