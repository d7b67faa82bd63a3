use thiserror::Error;

/// An access that reaches past the end of a memory.
#[derive(Clone, Copy, Debug, PartialEq, Eq, Error)]
#[error("out of bounds memory access")]
pub struct OutOfBounds;

/// Why nothing was stored.
#[derive(Clone, Copy, Debug, PartialEq, Eq, Error)]
pub enum StoreFault {
    /// The access reaches past the end of the memory.
    #[error("out of bounds memory access")]
    OutOfBounds,
    /// A page was to be made, and there was no memory for it.
    #[error("out of memory")]
    NoMemory,
}
