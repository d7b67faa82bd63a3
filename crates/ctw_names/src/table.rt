ghost use Rattle.std.specs.Prelude.{◌≡◌, ◌∷◌, [], ◌++◌, ◌<◌, ◌^◌, ℕ, List, Option, Some, None, cond, is_some, position, length, IfOk, OnOk, OnErr};
ghost use Rattle.std.specs.Str.{bytes_eq};
ghost use Rattle.std.specs.Option.{option_or};
ghost use Rattle.indexmap.specs.IndexMap.{get_by, IsUnchanged};
ghost use Rattle.ctw_text.specs.Names.{is_named};
ghost use Rattle.ctw_names.specs.Tables.{stands_in};

use ctw_text::Name;
use indexmap::IndexMap;
use std::alloc::{AllocError, Global};
use std::marker::Model;

/// The names of the things of one kind, from number 0 on. A name is found in constant time.
#[derive(Drop)]
pub struct NameTable<'a> {
    names: Vec<Option<Name<'a>>>,
    // The first number of each word.
    firsts: IndexMap<&'a [u8], u32>,
}

impl<'a> Model for NameTable<'a> {
    ghost use Rattle.std.specs.Prelude.{List, Option};
    ghost use Rattle.ctw_text.specs.Written.{Name as Identifier};

    ghost Value = { List (Option Identifier) };

    ghost view = { λ t. t.names.items };

    ghost use Rattle.ctw_names.specs.Tables.{IsTable};

    ghost invariant = { λ t. IsTable t };
}

/// Keeps where a word stands first, and says whether it stood before.
fn keep_first<'a>(
    firsts: &mut IndexMap<&'a [u8], u32>,
    word: &'a [u8],
    at: u32,
) -> Result<bool, AllocError>
    ensures stood { IfOk result (λ stood. stood ≡ is_some (get_by (λ k. bytes_eq word.now k.now) firsts.old)) }
    ensures firsts { OnOk result ((w : List ℕ) → get_by (λ k. bytes_eq w k.now) firsts.new
        ≡ option_or (get_by (λ k. bytes_eq w k.now) firsts.old) (cond (bytes_eq w word.now) (Some at) None)) }
    ensures err { OnErr result (IsUnchanged firsts.old firsts.new) }
{
    if firsts.contains_key(word) {
        return Ok(true);
    }
    firsts.insert(word, at)?;
    Ok(false)
}

impl<'a> NameTable<'a> {
    /// A table without names.
    pub fn new(alloc: Global) -> NameTable<'a>
        ensures { result ≡ [] }
    {
        NameTable {
            names: Vec::new(alloc),
            firsts: IndexMap::new(alloc),
        }
    }

    /// Gives the next number to a thing with this name, or without one, and says whether the name stood before.
    pub fn add(&mut self, name: Option<Name<'a>>) -> Result<bool, AllocError>
        ensures names { OnOk result (self.new ≡ self.old ++ name.entry ∷ []) }
        ensures stood { IfOk result (λ stood. stood ≡ stands_in name.entry self.old) }
    {
        if self.names.len() >= 0xFFFF_FFFF {
            return Err(AllocError);
        }
        self.names.reserve(1)?;
        let Some(name) = name else {
            self.names.push(None)?;
            return Ok(false);
        };
        let number = self.names.len() as u32;
        let stood = keep_first(&mut self.firsts, name.word, number)?;
        self.names.push(Some(name))?;
        Ok(stood)
    }

    /// The first number that has this name.
    pub fn position(&self, name: &Name) -> Option<u32>
        ensures { result ≡ position (is_named name.now) self.now }
    {
        self.firsts.get(name.word).copied()
    }

    /// How many numbers there are.
    pub fn len(&self) -> u32
        ensures { result ≡ length self.now }
    {
        self.names.len() as u32
    }
}
