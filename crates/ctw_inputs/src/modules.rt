//! Modules that are read and checked.
ghost use Rattle.std.specs.Prelude.{◌≡◌, ◌≢◌, ◌<◌, ◌^◌, length, Err, IfOk, IfErr};
ghost use Rattle.ctw_ops.specs.Valid.{IsValid};
ghost use Rattle.ctw_form.specs.Spelled.{Spells};
ghost use Rattle.ctw_module.specs.Trees.{tree, view_module};
ghost use Rattle.ctw_inputs.specs.Inputs.{read as reads, read_valid as reads_valid};
ghost use Rattle.ctw_inputs.specs.declared.said.Stop.TheVariants.{ReadFault as AReadFault};
ghost use Rattle.ctw_inputs.specs.Settling.{IsRefusal, Settles};

use crate::said::{Stop, refuse};
use ctw_form::FormFault;
use ctw_lines::{check_line, read_line};
use ctw_modcheck::{Invalid, check};
use ctw_module::Module;
use ctw_ops::Profile;
use ctw_read::{ReadFault, read};
use std::alloc::Global;

/// The module that a file's bytes spell; where they spell none, their first fault is refused.
pub fn read_module<'a>(alloc: Global, name: &str, bytes: &'a [u8]) -> Result<Module<'a>, Stop>
    requires { length bytes.now < 2 ^ 32 }
    ensures told { Settles tree result (reads name.now bytes.now) }
    ensures quiet { result ≢ Err AReadFault }
    ensures refuses { IfErr result IsRefusal }
    ensures spelled { IfOk result (λ m. Spells bytes.now (tree m)) }
{
    match read(alloc, bytes) {
        Ok(module) => Ok(module),
        Err(ReadFault::Bad { kind, place }) => {
            Err(refuse(read_line(alloc, name, FormFault { kind, place })))
        }
        Err(ReadFault::NoMemory) => Err(Stop::NoMemory),
    }
}

/// The module that a file's bytes spell, where it is valid under a profile; else its first fault is refused.
pub fn read_valid<'a>(
    alloc: Global,
    profile: Profile,
    name: &str,
    bytes: &'a [u8],
) -> Result<Module<'a>, Stop>
    requires { length bytes.now < 2 ^ 32 }
    ensures told { Settles view_module result (reads_valid profile name.now bytes.now) }
    ensures quiet { result ≢ Err AReadFault }
    ensures refuses { IfErr result IsRefusal }
    ensures valid { IfOk result (λ m. IsValid (view_module m)) }
    ensures profile { IfOk result (λ m. m.profile ≡ profile) }
    ensures spelled { IfOk result (λ m. Spells bytes.now (tree m)) }
{
    let module = read_module(alloc, name, bytes)?.with_profile(profile);
    match check(alloc, &module) {
        Ok(()) => Ok(module),
        Err(Invalid::NoMemory) => Err(Stop::NoMemory),
        Err(fault) => Err(refuse(check_line(alloc, name, fault))),
    }
}
