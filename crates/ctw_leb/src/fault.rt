use thiserror::Error;

/// Why no number, name or byte was read.
#[derive(Clone, Copy, Debug, PartialEq, Eq, Error)]
pub enum LebFault {
    /// The bytes end inside what was to be read.
    #[error("the bytes end too early")]
    Truncated,
    /// The bytes from `place` on begin no legal number.
    #[error("no legal number begins at byte {place}")]
    BadLeb { place: u32 },
    /// The text of a name, which begins at `place`, isn't UTF-8.
    #[error("the name at byte {place} isn't UTF-8")]
    BadUtf8 { place: u32 },
}

/// Why no number stands at the front of some bytes, wherever these are.
#[derive(Clone, Copy, Debug, PartialEq, Eq)]
pub enum Cause {
    /// The bytes end inside it.
    Short,
    /// They begin no legal number.
    Illegal,
}
