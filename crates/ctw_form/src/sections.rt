use crate::table::Held;

/// What the sections read so far say of those that may come.
#[derive(Clone, Copy, Debug, PartialEq, Eq)]
pub struct Seen {
    /// The id of the last section but custom ones; 0 where there is none.
    pub last: u8,
    /// How many functions are declared whose code hasn't come yet.
    pub owed: u32,
    /// What is imported.
    pub held: Held,
}
