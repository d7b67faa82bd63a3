ghost use Rattle.std.specs.Prelude.{◌≡◌};
ghost use Rattle.ctw_link.specs.declared.fault.LinkFault.TheVariants.{NoMemory};

use ctw_module::ExternKind;
use ctw_ops::FuncType;
use std::alloc::{AllocError, AllocFailed};
use std::fmt;
use thiserror::Error;

/// Why parts can't be linked. Parts and imports are named by their numbers, from 0 on.
#[derive(Drop, Error)]
pub enum LinkFault<'a> {
    /// No earlier part of the import's module name exports its name.
    #[error("part {part}: import {import} is exported by no earlier part")]
    NoImport {
        /// The part that imports.
        part: u32,
        /// The import's number in it.
        import: u32,
    },
    /// What an import is met by is of another kind, or its type doesn't match.
    #[error("part {part}: import {import} has another type than what is exported")]
    ImportType {
        /// The part that imports.
        part: u32,
        /// The import's number in it.
        import: u32,
        /// The type that the import asks for.
        want: ExternKind<'a>,
        /// The type that the exporting part declares.
        got: ExternKind<'a>,
    },
    /// Two users of one table have types that differ and erase alike.
    #[error("table {table} has users that differ in labels or trust alone")]
    TableMix {
        /// The table's number in the store.
        table: u32,
        /// The type of the first user that erases like the second type.
        a: FuncType<'a>,
        /// The type of the first user that differs from such a one.
        b: FuncType<'a>,
    },
    /// The memories begin with more than 4,096 pages together.
    #[error("{pages} pages are more than 4096")]
    TooManyPages {
        /// Their pages.
        pages: u32,
    },
    /// The tables begin with more than 1,000,000 entries together.
    #[error("{entries} table entries are more than 1000000")]
    TooManyEntries {
        /// Their entries.
        entries: u64,
    },
    /// An earlier part has this part's name.
    #[error("part {part} has the name of an earlier part")]
    DoubleName {
        /// The first such part.
        part: u32,
    },
    /// Memory was wanting.
    #[error("out of memory")]
    NoMemory,
}

/// As it is displayed: the types that it names are lent, and have no words of their own.
impl<'a> fmt::Debug for LinkFault<'a> {
    fn fmt<W: fmt::Write>(&self, f: &mut fmt::Formatter<W>) -> fmt::Result {
        fmt::Display::fmt(self, f)
    }
}

impl<'a> From<AllocError> for LinkFault<'a> {
    ghost from_gives = { λ _ e. e ≡ NoMemory };

    fn from(_e: AllocError) -> LinkFault<'a> {
        LinkFault::NoMemory
    }
}

impl<'a, T: Drop> From<AllocFailed<T>> for LinkFault<'a> {
    ghost from_gives = { λ _ e. e ≡ NoMemory };

    fn from(_e: AllocFailed<T>) -> LinkFault<'a> {
        LinkFault::NoMemory
    }
}
