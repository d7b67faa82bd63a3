ghost use Rattle.std.specs.Prelude.{◌≡◌};
ghost use Rattle.ctw_sites.specs.declared.fault.SitesFault.TheVariants.{NoMemory};

use std::alloc::AllocError;
use thiserror::Error;

/// Why the sites of a module weren't numbered.
#[derive(Clone, Copy, Debug, PartialEq, Eq, Error)]
pub enum SitesFault {
    /// The module has more than 16,777,216 sites.
    #[error("{count} sites")]
    TooManySites {
        /// How many it has.
        count: u32,
    },
    /// Memory ran out.
    #[error("out of memory")]
    NoMemory,
}

impl From<AllocError> for SitesFault {
    ghost from_gives = { λ _ e. e ≡ NoMemory };

    fn from(_e: AllocError) -> SitesFault {
        SitesFault::NoMemory
    }
}
