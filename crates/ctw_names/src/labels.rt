ghost use Rattle.std.specs.Prelude.{◌≡◌, ◌∷◌, [], Some, None, position, length, OnOk};
ghost use Rattle.ctw_text.specs.Names.{is_named, behind};
ghost use Rattle.ctw_names.specs.Open.{is_front};

use ctw_text::Name;
use indexmap::IndexMap;
use std::alloc::{AllocError, Global};
use std::marker::Model;

/// An open block.
#[derive(Drop)]
pub struct OpenBlock<'a> {
    /// Its label.
    pub name: Option<Name<'a>>,
    /// The number from the outermost block on of the block whose label this one shadows.
    pub shadowed: Option<u32>,
}

/// The labels of the blocks that are open, the innermost first. A label is found in constant time.
#[derive(Drop)]
pub struct Labels<'a> {
    // From the outermost on.
    open: Vec<OpenBlock<'a>>,
    // The number from the outermost on of the innermost block with each label.
    tops: IndexMap<&'a [u8], Option<u32>>,
}

impl<'a> Model for Labels<'a> {
    ghost use Rattle.std.specs.Prelude.{List, Option};
    ghost use Rattle.ctw_text.specs.Written.{Name as Identifier};

    ghost Value = { List (Option Identifier) };

    ghost use Rattle.ctw_names.specs.Open.{labels_in, IsOpen};

    ghost view = { λ l. labels_in l };

    ghost invariant = { λ l. IsOpen l };
}

impl<'a> Labels<'a> {
    /// No open block.
    pub fn new(alloc: Global) -> Labels<'a>
        ensures { result ≡ [] }
    {
        Labels {
            open: Vec::new(alloc),
            tops: IndexMap::new(alloc),
        }
    }

    /// Opens a block with this label, or without one.
    pub fn open(&mut self, name: Option<Name<'a>>) -> Result<(), AllocError>
        ensures { OnOk result (self.new ≡ name.entry ∷ self.old) }
    {
        if self.open.len() >= 0xFFFF_FFFF {
            return Err(AllocError);
        }
        self.open.reserve(1)?;
        let Some(name) = name else {
            self.open.push(OpenBlock {
                name: None,
                shadowed: None,
            })?;
            return Ok(());
        };
        let number = self.open.len() as u32;
        let shadowed = self.tops.insert(name.word, Some(number))?.flatten();
        self.open.push(OpenBlock {
            name: Some(name),
            shadowed,
        })?;
        Ok(())
    }

    /// Closes the innermost block, if one is open.
    pub fn close(&mut self) -> Result<(), AllocError>
        ensures { OnOk result (self.new ≡ behind self.old) }
    {
        let Some(block) = self.open.pop() else {
            return Ok(());
        };
        let OpenBlock { name, shadowed } = block;
        let Some(name) = name else {
            return Ok(());
        };
        self.tops.insert(name.word, shadowed)?;
        Ok(())
    }

    /// How many blocks are open inside the innermost one with this label.
    pub fn position(&self, name: &Name) -> Option<u32>
        ensures { result ≡ position (is_named name.now) self.now }
    {
        let Some(top) = self.tops.get(name.word).copied().flatten() else {
            return None;
        };
        Some(self.open.len() as u32 - 1 - top)
    }

    /// Whether the innermost block has this label.
    pub fn is_innermost(&self, name: &Name) -> bool
        ensures { result ≡ is_front name.now self.now }
    {
        let Some(block) = self.open.last() else {
            return false;
        };
        let Some(label) = &block.name else {
            return false;
        };
        name.word == label.word
    }
}
