/// What there can be too much of in a file or a text.
#[derive(Clone, Copy, Debug, PartialEq, Eq)]
pub enum What {
    /// Bytes of a plain module.
    Bytes,
    /// Parameters of a type.
    Params,
    /// Results of a type.
    Results,
    /// Memories.
    Memories,
    /// Tables.
    Tables,
    /// Declared locals.
    Locals,
    /// Open blocks in a body.
    Nesting,
}

/// The part of a module that a fault lies in.
#[derive(Clone, Copy, Debug, PartialEq, Eq)]
pub enum Space {
    /// Its type entries.
    Types,
    /// Its imports.
    Imports,
    /// Its functions.
    Functions,
    /// Its table.
    Tables,
    /// Its memory.
    Memories,
    /// Its globals.
    Globals,
    /// Its exports.
    Exports,
    /// Its start function.
    Start,
    /// Its element segments.
    Elements,
    /// Its data segments.
    Segments,
}

/// The place at which a secret isn't allowed.
#[derive(Clone, Copy, Debug, PartialEq, Eq)]
pub enum SecretRule {
    /// The condition of a branch.
    Condition,
    /// The index into a table of branches.
    TableIndex,
    /// The index of an indirect call.
    CallIndex,
    /// An address.
    Address,
    /// An operand of a division or a remainder.
    Divide,
    /// The number of pages by which a memory grows.
    GrowSize,
}
