// Tokens as the grammar sees them.

use crate::keys::Key;
use crate::pieces::{Name, Quote};

/// A token as the grammar sees it. Numbers of 2^64 or more stand as 2^64.
#[derive(Drop)]
pub enum Tok<'a> {
    /// A `(` and its offset.
    Open(u32),
    /// A `)`.
    Close,
    /// A string.
    Text(Quote<'a>),
    /// An identifier.
    Id(Name<'a>),
    /// An unsigned number.
    Num(u128),
    /// A number with a sign: whether that is `-`, and the number without it.
    Signed(bool, u128),
    /// `offset=N`
    OffsetIs(u128),
    /// `align=N`
    AlignIs(u128),
    /// A word of the text form.
    Word(Key),
    /// An atom that names a float.
    Floats,
    /// Any other token.
    Other,
}
