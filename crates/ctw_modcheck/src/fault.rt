ghost use Rattle.std.specs.Prelude.{◌≡◌};
ghost use Rattle.ctw_modcheck.specs.declared.fault.Invalid.TheVariants.{NoMemory};

use ctw_ops::Space;
use ctw_valid::BodyFault;
use std::alloc::{AllocError, AllocFailed};
use thiserror::Error;

/// Why a module isn't valid. `space` and `index` name the item, counted in its own list from 0: for functions and
/// globals the defined ones.
#[derive(Clone, Copy, Debug, PartialEq, Eq, Error)]
pub enum Invalid {
    /// A body doesn't have its function's type.
    #[error("function {f}: {fault}")]
    Body {
        /// The function's index, imported ones first.
        f: u32,
        /// What is wrong in its body.
        fault: BodyFault,
    },
    /// An item that isn't a variant names a type, function, global, table or memory that isn't there.
    #[error("no such index in {space:?} {index}")]
    ModuleIndex {
        /// The item's list.
        space: Space,
        /// The item's number in it.
        index: u32,
    },
    /// An earlier export has this export's name.
    #[error("export {index} has the name of an earlier one")]
    DoubleExport {
        /// The export's number.
        index: u32,
    },
    /// A global's or a segment's expression names a global that it may not,
    /// or a global's has another type than the global.
    #[error("bad constant expression in {space:?} {index}")]
    ConstExpr {
        /// The item's list.
        space: Space,
        /// The item's number in it.
        index: u32,
    },
    /// A least size passes the greatest, or a size of a memory passes 65,536.
    #[error("bad limits in {space:?}")]
    LimitsOrder {
        /// Where the limits stand.
        space: Space,
    },
    /// The start function has a parameter or a result.
    #[error("start function with a parameter or a result")]
    StartType,
    /// A segment's offset isn't of type i32.
    #[error("bad offset in {space:?} {index}")]
    SegmentType {
        /// The item's list.
        space: Space,
        /// The item's number in it.
        index: u32,
    },
    /// A variant stands before an entry that isn't one, or its base is missing, is a variant or erases otherwise.
    #[error("bad variant {index}")]
    Variant {
        /// The type entry's number.
        index: u32,
    },
    /// Memory was wanting.
    #[error("out of memory")]
    NoMemory,
}

impl From<AllocError> for Invalid {
    ghost from_gives = { λ _ e. e ≡ NoMemory };

    fn from(_e: AllocError) -> Invalid {
        Invalid::NoMemory
    }
}

impl<T: Drop> From<AllocFailed<T>> for Invalid {
    ghost from_gives = { λ _ e. e ≡ NoMemory };

    fn from(_e: AllocFailed<T>) -> Invalid {
        Invalid::NoMemory
    }
}
