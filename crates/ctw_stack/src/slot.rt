use ctw_ops::Width;

/// What a pass knows of an operand. A tag is a label, or a number that stands for one.
#[derive(Clone, Copy, Debug, PartialEq, Eq)]
pub enum Slot<S: Copy> {
    /// A value of the width and the tag.
    Known {
        /// Its bits.
        width: Width,
        /// Its tag.
        tag: S,
    },
    /// A value of the tag and one of both widths.
    Wide {
        /// Its tag.
        tag: S,
    },
    /// Any value, in code that is never reached.
    Unknown,
}

/// The innermost block is reached, and has no operand of its own.
#[derive(Clone, Copy, Debug, PartialEq, Eq)]
pub struct Underflow;
