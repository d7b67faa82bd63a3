use ctw_ops::What;
use thiserror::Error;

/// What is wrong with the bytes of a module's file.
#[derive(Clone, Copy, Debug, PartialEq, Eq)]
pub enum FormKind {
    /// The first four bytes aren't those of a module; the place is 0.
    BadMagic,
    /// The next four bytes are no version; the place is 4.
    BadVersion,
    /// Bytes are missing; the place is the end of the file.
    Truncated,
    /// No legal number begins at the place.
    BadLeb,
    /// The byte at the place is the id of no section, or of one that is repeated or out of order.
    BadSection,
    /// A section or a code entry ends inside its items, or goes on behind them;
    /// the place is where its size or its items end.
    SizeMismatch,
    /// Functions and code differ; the place is the count of the code section,
    /// or the file's end where that section is missing.
    CountMismatch,
    /// The byte at the place is no type, kind, limits, trust or mutability.
    BadType,
    /// The byte at the place is no opcode, none of a constant expression, or a reserved byte that isn't 00.
    BadOpcode,
    /// The byte at the place is a value type or an opcode of floats.
    Floats,
    /// The text of the name that begins at the place isn't UTF-8.
    BadUtf8,
    /// The place has an `else` without an `if` or code behind the closing `end`,
    /// or is the end of a code entry with blocks open.
    Unbalanced,
    /// The count or opcode at the place passes the limit on these things.
    TooMany {
        /// The things that are too many.
        what: What,
        /// How many of them may be.
        limit: u32,
    },
    /// The byte at the place stands for a label, in a plain module.
    LabelsInPlain,
}

/// The first fault of a module's file from the left, and the place where it stands.
#[derive(Clone, Copy, Debug, PartialEq, Eq, Error)]
#[error("{kind:?} at byte {place}")]
pub struct FormFault {
    /// What is wrong there.
    pub kind: FormKind,
    /// An offset in the file.
    pub place: u32,
}
