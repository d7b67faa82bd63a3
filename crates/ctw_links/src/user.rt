/// A user of the table: an entry of an element or an indirect call.
#[derive(Clone, Copy, Debug, PartialEq, Eq)]
pub struct User {
    /// The entry of its type.
    pub entry: u32,
    /// The site of its first parameter; those of the others and of its result follow.
    pub first: u32,
}
