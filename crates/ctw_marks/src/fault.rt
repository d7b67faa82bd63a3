ghost use Rattle.std.specs.Prelude.{◌≡◌};
ghost use Rattle.ctw_marks.specs.declared.fault.MarkFault.TheVariants.{NoMemory};

use std::alloc::AllocError;
use thiserror::Error;

/// Why marks aren't read.
#[derive(Clone, Copy, Debug, PartialEq, Eq, Error)]
pub enum MarkFault {
    /// The text has no tokens.
    #[error("no tokens from line {line} on")]
    Lex {
        /// The line of the text's first fault, from 1.
        line: u32,
    },
    /// A line has no reading.
    #[error("line {line} is no mark")]
    Line {
        /// The line, from 1.
        line: u32,
    },
    /// A line names what the module doesn't have.
    #[error("line {line} names no place")]
    NoPlace {
        /// The line, from 1.
        line: u32,
    },
    /// A line releases in a function that no line trusts.
    #[error("line {line} releases in an untrusted function")]
    Untrusted {
        /// The line, from 1.
        line: u32,
    },
    /// Memory was wanting.
    #[error("out of memory")]
    NoMemory,
}

impl From<AllocError> for MarkFault {
    ghost from_gives = { λ _ e. e ≡ NoMemory };

    fn from(_e: AllocError) -> MarkFault {
        MarkFault::NoMemory
    }
}
