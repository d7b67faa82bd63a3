ghost use Rattle.std.specs.Prelude.{◌≡◌, ◌∷◌, [], ◌++◌, ◌<◌, ℕ, List, Some, None, cond, map, length, position, slice_get, unwrap_or, IfOk, OnOk, OnErr};
ghost use Rattle.std.specs.Str.{bytes_eq};
ghost use Rattle.std.specs.Option.{option_copied, option_or};
ghost use Rattle.indexmap.specs.IndexMap.{get_by, IsUnchanged};
ghost use Rattle.ctw_ops.specs.Types.{type_byte};
ghost use Rattle.ctw_text.specs.Names.{added, no_type, same_spelled, spelled_type};
ghost use Rattle.ctw_names.specs.TypeKeys.{trust_code, type_key};

use ctw_ops::{Label, Trust, ValType, Width};
use ctw_text::{FrontList, Use, Variable};
use indexmap::IndexMap;
use std::alloc::{AllocError, Global};
use std::marker::Model;

/// A type as it is spelled, with all its results.
#[derive(Drop)]
pub struct Spelled {
    /// Whether `trusted` is spelled.
    pub trust: Trust,
    /// The types of the parameters.
    pub params: Vec<ValType>,
    /// The types of the results.
    pub results: Vec<ValType>,
}

impl Model for Spelled {
    ghost use Rattle.ctw_text.specs.Names.{Spelled as SpelledType};

    ghost Value = { SpelledType };

    ghost view = { λ t. record { trust = t.trust; params = t.params.items; results = t.results.items } };
}

/// The byte of a value type.
fn byte_of(t: ValType) -> u8
    ensures { result ≡ type_byte t }
{
    match (t.width, t.label) {
        (Width::W32, Label::Public) => 0x7F,
        (Width::W64, Label::Public) => 0x7E,
        (Width::W32, Label::Secret) => 0x7A,
        (Width::W64, Label::Secret) => 0x79,
    }
}

pub(crate) fn push_bytes(key: &mut Vec<u8>, types: &[ValType]) -> Result<(), AllocError>
    ensures { OnOk result (key.new.items ≡ key.old.items ++ map type_byte types.now) }
{
    'types: for t in types {
        key.push(byte_of(*t))?;
    }
    Ok(())
}

fn trust_byte(trust: Trust) -> u8
    ensures { result ≡ trust_code trust }
{
    match trust {
        Trust::Untrusted => 0,
        Trust::Trusted => 1,
    }
}

/// Bytes that are equal exactly where types are.
fn key_of(alloc: Global, t: &Spelled) -> Result<Vec<u8>, AllocError>
    ensures { IfOk result (λ key. key.items ≡ type_key t.now) }
{
    let mut key = Vec::new(alloc);
    key.push(trust_byte(t.trust))?;
    push_bytes(&mut key, t.params.as_slice())?;
    key.push(0)?;
    push_bytes(&mut key, t.results.as_slice())?;
    Ok(key)
}

/// The types of variables.
pub fn types_of(alloc: Global, variables: &FrontList<Variable>) -> Result<Vec<ValType>, AllocError>
    ensures { IfOk result (λ types. types.items ≡ map (λ v. v.ty) variables.now) }
{
    let mut types = Vec::new(alloc);
    'variables: for i in 0..variables.len() {
        types.push(variables.at(i).ty)?;
    }
    Ok(types)
}

fn all_of(alloc: Global, list: &FrontList<ValType>) -> Result<Vec<ValType>, AllocError>
    ensures { IfOk result (λ types. types.items ≡ list.now) }
{
    let mut types = Vec::new(alloc);
    'types: for i in 0..list.len() {
        types.push(*list.at(i))?;
    }
    Ok(types)
}

/// The type that a typeuse spells.
pub fn type_spelled(alloc: Global, u: &Use) -> Result<Spelled, AllocError>
    ensures { IfOk result (λ t. t ≡ spelled_type u.now) }
{
    let params = types_of(alloc, &u.params)?;
    let results = all_of(alloc, &u.results)?;
    Ok(Spelled {
        trust: u.trust,
        params,
        results,
    })
}

/// The entries of a module. The least entry of a type is found in the time that it takes to read the type.
#[derive(Drop)]
pub struct EntryTable {
    entries: Vec<Spelled>,
    // The least entry of each type, by the type's key.
    firsts: IndexMap<Vec<u8>, u32>,
}

impl Model for EntryTable {
    ghost use Rattle.std.specs.Prelude.{List};
    ghost use Rattle.ctw_text.specs.Names.{Spelled as SpelledType};

    ghost Value = { List SpelledType };

    ghost view = { λ t. t.entries.items };

    ghost use Rattle.ctw_names.specs.EntryTables.{IsEntryTable};

    ghost invariant = { λ t. IsEntryTable t };
}

/// Keeps the least entry of a key.
fn keep_entry(firsts: &mut IndexMap<Vec<u8>, u32>, key: Vec<u8>, at: u32) -> Result<(), AllocError>
    ensures firsts { OnOk result ((w : List ℕ) → get_by (λ k. bytes_eq w k.items) firsts.new
        ≡ option_or (get_by (λ k. bytes_eq w k.items) firsts.old) (cond (bytes_eq w key.items) (Some at) None)) }
    ensures err { OnErr result (IsUnchanged firsts.old firsts.new) }
{
    if firsts.contains_key(&key) {
        return Ok(());
    }
    firsts.insert(key, at)?;
    Ok(())
}

impl EntryTable {
    /// No entries.
    pub fn new(alloc: Global) -> EntryTable
        ensures { result ≡ [] }
    {
        EntryTable {
            entries: Vec::new(alloc),
            firsts: IndexMap::new(alloc),
        }
    }

    /// Puts an entry behind the others.
    pub fn add(&mut self, alloc: Global, t: Spelled) -> Result<(), AllocError>
        ensures { OnOk result (self.new ≡ self.old ++ t ∷ []) }
    {
        if self.entries.len() >= 0xFFFF_FFFF {
            return Err(AllocError);
        }
        self.entries.reserve(1)?;
        let key = key_of(alloc, &t)?;
        let number = self.entries.len() as u32;
        keep_entry(&mut self.firsts, key, number)?;
        self.entries.push(t)?;
        Ok(())
    }

    /// The least entry with a type.
    pub fn position(&self, alloc: Global, t: &Spelled) -> Result<Option<u32>, AllocError>
        ensures { IfOk result (λ found. found ≡ position (same_spelled t.now) self.now) }
    {
        let key = key_of(alloc, t)?;
        Ok(self.firsts.get(&key).copied())
    }

    /// The entry of a number, if there is one.
    pub fn at(&self, n: u32) -> Option<&Spelled>
        ensures { option_copied result ≡ slice_get self.now n }
    {
        self.entries.get(n as usize)
    }

    /// How many entries there are.
    pub fn count(&self) -> usize
        ensures { result ≡ length self.now }
    {
        self.entries.len()
    }

    /// The entry of a number below the count.
    pub fn entry(&self, n: usize) -> &Spelled
        requires { n < length self.now }
        ensures { slice_get self.now n ≡ Some result.now }
    {
        &self.entries[n]
    }

    /// How many parameters the entry of a number has; 0 where there is none.
    pub fn param_count(&self, n: u32) -> usize
        ensures { result ≡ length (unwrap_or (slice_get self.now n) no_type).params }
    {
        let Some(entry) = self.at(n) else {
            return 0;
        };
        entry.params.len()
    }

    #[tactic(auto, using(crate::proofs::Positions::any_position))]
    /// Adds the entry of a typeuse that names none, where no entry has its type.
    pub fn add_use(&mut self, alloc: Global, u: &Use) -> Result<(), AllocError>
        ensures { OnOk result (self.new ≡ added self.old u.now) }
    {
        if u.entry.is_some() {
            return Ok(());
        }
        let t = type_spelled(alloc, u)?;
        if self.position(alloc, &t)?.is_some() {
            return Ok(());
        }
        self.add(alloc, t)
    }
}
