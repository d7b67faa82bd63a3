ghost use Rattle.std.specs.Prelude.{◌≡◌, ◌+◌, ◌<◌, ◌^◌, length, position, IfOk};
ghost use Rattle.ctw_text.specs.Names.{entry_of, is_named, local_names, names_in};
ghost use Rattle.ctw_names.specs.Known.{below as found_below};
ghost use Rattle.ctw_names.specs.Spaces.{space_in};

use crate::space::{Space, again};
use crate::table::NameTable;
use ctw_text::{Draft, FrontList, Name, Variable};
use std::alloc::{AllocError, Global};
use std::marker::Model;

/// The names of a function's parameters and of its declared locals. A name is found in constant time.
#[derive(Drop)]
pub struct Locals<'a> {
    // The names of the parameters that are spelled.
    params: NameTable<'a>,
    // How many parameters the function's entry has.
    count: u32,
    declared: NameTable<'a>,
}

impl<'a> Model for Locals<'a> {
    ghost use Rattle.std.specs.Prelude.{◌+◌, ◌++◌, ◌<◌, ◌^◌, length, List, Option};
    ghost use Rattle.ctw_text.specs.Written.{Name as Identifier};
    ghost use Rattle.ctw_text.specs.Names.{padded};

    ghost Value = { List (Option Identifier) };

    ghost view = { λ l. padded l.count l.params ++ l.declared };

    ghost invariant = { λ l. l.count + length l.declared < 2 ^ 32 };
}

/// The names of some variables.
fn names<'a>(
    alloc: Global,
    variables: &FrontList<Variable<'a>>,
) -> Result<NameTable<'a>, AllocError>
    ensures { IfOk result (λ table. table ≡ names_in variables.now) }
{
    let mut table = NameTable::new(alloc);
    'variables: for i in 0..variables.len() {
        table.add(again(&variables.at(i).name))?;
    }
    Ok(table)
}

/// A number, if it is below a count.
fn below(found: Option<u32>, count: u32) -> Option<u32>
    ensures { result ≡ found_below count found }
{
    let Some(n) = found else {
        return None;
    };
    if n < count {
        return Some(n);
    }
    None
}

/// The names of a function's parameters and declared locals; its entry says how many parameters it has.
pub fn locals_of<'a>(
    alloc: Global,
    space: &Space,
    n: u32,
    draft: &Draft<'a>,
) -> Result<Locals<'a>, AllocError>
    requires { n ≡ entry_of (space_in space.now) draft.now.sig }
    ensures { IfOk result (λ locals. locals ≡ local_names (space_in space.now) draft.now) }
{
    let params = names(alloc, &draft.sig.params)?;
    let declared = names(alloc, &draft.locals)?;
    let count = space.entries.param_count(n);
    if count > 0xFFFF_FFFF - declared.len() as usize {
        return Err(AllocError);
    }
    Ok(Locals {
        params,
        count: count as u32,
        declared,
    })
}

impl<'a> Locals<'a> {
    /// The first number that has this name.
    pub fn position(&self, name: &Name) -> Option<u32>
        ensures { result ≡ position (is_named name.now) self.now }
    {
        let param = below(self.params.position(name), self.count);
        if param.is_some() {
            return param;
        }
        let Some(n) = self.declared.position(name) else {
            return None;
        };
        Some(self.count + n)
    }
}
