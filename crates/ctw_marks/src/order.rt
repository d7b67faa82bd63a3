// What a line of marks stands for, whatever the module is.
use ctw_ops::{Label, Name};

/// A function or a global.
#[derive(Debug, Drop)]
pub enum Subject {
    /// By its index; a number of 2^32 or more is the index of nothing.
    Number { index: Option<u32> },
    /// By the name of an export.
    Export { name: Name },
}

/// A place that gets a label.
#[derive(Debug, Drop)]
pub enum Spot {
    /// A parameter of a function, by its number.
    Param { func: Subject, i: Option<u32> },
    /// The result of a function.
    Result { func: Subject },
    /// A declared local of a function, by its number among all locals.
    Local { func: Subject, i: Option<u32> },
    /// A global.
    Global { global: Subject },
    /// The memory.
    Memory,
}

/// What a line asks for.
#[derive(Debug, Drop)]
pub enum Order {
    /// A place has a label.
    Label { label: Label, spot: Spot },
    /// A function is trusted.
    Trust { func: Subject },
    /// An opcode of a function, by its number, releases what it pushes.
    Release { func: Subject, at: Option<u32> },
}
