ghost use Rattle.std.specs.Prelude.{◌≡◌, ◌+◌, ◌<◌, ◌^◌, [], ◌∷◌, length, Some, None, slice_get, OnOk, OnErr, MatchOption};

use std::alloc::{AllocError, Global};
use std::marker::Model;

/// A list that grows at its front, and holds less than 2^32 items.
#[derive(Drop)]
pub struct FrontList<T> {
    // From the last item to the first.
    items: Vec<T>,
}

impl<T> Model for FrontList<T> {
    ghost use Rattle.std.specs.Prelude.{List, reverse, ◌<◌, ◌^◌, length};

    ghost Value = { List T };

    ghost view = { λ l. reverse l.items.items };

    ghost invariant = { λ l. length l.items.items < 2 ^ 32 };
}

impl<T: Drop> FrontList<T> {
    /// An empty list, which allocates nothing.
    pub fn new(alloc: Global) -> FrontList<T>
        ensures { result ≡ [] }
    {
        FrontList {
            items: Vec::new(alloc),
        }
    }

    /// Puts an item before the others.
    pub fn push(&mut self, item: T) -> Result<(), AllocError>
        ensures { OnOk result (self.new ≡ item ∷ self.old) }
    {
        if self.items.len() >= 0xFFFF_FFFF {
            return Err(AllocError);
        }
        self.items.push(item)?;
        Ok(())
    }

    /// Takes the first item, if there is one.
    pub fn pop(&mut self) -> Option<T>
        ensures { MatchOption result ((self.old ≡ []) × (self.new ≡ [])) (λ x. self.old ≡ x ∷ self.new) }
    {
        self.items.pop()
    }

    /// How many items there are.
    pub fn len(&self) -> u32
        ensures { result ≡ length self.now }
    {
        self.items.len() as u32
    }

    /// The item at a place from the front.
    pub fn at(&self, i: u32) -> &T
        requires { i < length self.now }
        ensures { slice_get self.now i ≡ Some result.now }
    {
        &self.items[self.items.len() - 1 - i as usize]
    }
}
