ghost use Rattle.std.specs.Prelude.{◌≡◌, None, Ok, Err, IfOk, IfErr, IfSome, OnOk};
ghost use Rattle.ctw_text.specs.Fields.{fields_of};
ghost use Rattle.ctw_text.specs.Names.{faults_of, leftmost, named, wide_of};
ghost use Rattle.ctw_names.specs.Third.{fault_of};
ghost use Rattle.ctw_names.specs.declared.naming.NamesFault.TheVariants.{NoMemory};

use crate::customs::customs;
use crate::fault::{Fault, Faults};
use crate::function::functions;
use crate::gather::fields;
use crate::space::space_of_fields;
use crate::whole::{defines_no_function, has_items, sections};
use crate::wide::Wide;
use ctw_text::Piece;
use std::alloc::{AllocError, AllocFailed, Global};

/// Why `named` gives no module.
#[derive(Debug, Drop)]
pub enum NamesFault {
    /// A name stands for nothing or for two things, or a typeuse spells other types than its entry has; the first such
    /// place in the text is told.
    Bad(Fault),
    /// Memory was wanting.
    NoMemory,
}

impl From<AllocError> for NamesFault {
    ghost from_gives = { λ _ fault. fault ≡ NoMemory };

    fn from(_failed: AllocError) -> NamesFault {
        NamesFault::NoMemory
    }
}

impl<T: Drop> From<AllocFailed<T>> for NamesFault {
    ghost from_gives = { λ _ fault. fault ≡ NoMemory };

    fn from(_failed: AllocFailed<T>) -> NamesFault {
        NamesFault::NoMemory
    }
}

/// The module that pieces stand for, where nothing is wrong with their names and typeuses; faults are noted.
fn module_of<'a>(
    alloc: Global,
    ct: bool,
    pieces: Vec<Piece<'a>>,
    faults: &mut Faults,
) -> Result<Wide, AllocError>
    requires { faults.old ≡ None }
    ensures module { IfOk result (λ m. m ≡ wide_of ct (fields_of pieces.entry.items)) }
    ensures faults { OnOk result (faults.new ≡ leftmost (faults_of (fields_of pieces.entry.items))) }
{
    let fields = fields(alloc, pieces)?;
    let space = space_of_fields(alloc, &fields, faults)?;
    let mut m = sections(alloc, ct, &space, &fields)?;
    let has = has_items(&m, defines_no_function(&fields));
    m.customs = customs(alloc, &has, &fields)?;
    m.functions = functions(alloc, &space, fields, faults)?;
    Ok(m)
}

/// The module that pieces stand for.
///
/// `Bad` comes exactly where something is wrong with a name or a typeuse, with the first such place in the text.
/// `NoMemory` may come for any pieces.
pub fn named<'a>(alloc: Global, ct: bool, pieces: Vec<Piece<'a>>) -> Result<Wide, NamesFault>
    ensures module { IfOk result (λ m. named ct (fields_of pieces.entry.items) ≡ Ok m) }
    ensures fault { IfErr result (λ f. IfSome (fault_of f) (λ fault. named ct (fields_of pieces.entry.items) ≡ Err fault)) }
{
    let mut faults = Faults::none();
    let m = module_of(alloc, ct, pieces, &mut faults)?;
    match faults.least() {
        None => Ok(m),
        Some(fault) => Err(NamesFault::Bad(fault)),
    }
}
