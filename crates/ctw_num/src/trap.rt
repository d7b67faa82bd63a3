use thiserror::Error;

/// Why an operation has no value.
#[derive(Clone, Copy, Debug, PartialEq, Eq, Error)]
pub enum NumTrap {
    /// A division or a remainder by 0.
    #[error("integer divide by zero")]
    DivZero,
    /// A quotient that no integer of the width stands for: the least number divided by -1.
    #[error("integer overflow")]
    DivOverflow,
}
