ghost use Rattle.std.specs.Prelude.{◌≡◌, ◌<◌, ◌+◌, ◌^◌, [], false, List, length, IfOk, OnOk};
ghost use Rattle.ctw_ops.specs.declared.types.Label.{Label};
ghost use Rattle.ctw_labels.specs.Placed.{TypeUse, is_all_public, place_of_use, with_use};
ghost use Rattle.ctw_place.specs.Variants.{use_text, IsSmallUse, Holds};

use std::alloc::{AllocError, Global};
use std::collections::BTreeMap;

/// Variants in the order of their first use.
#[derive(Drop)]
pub struct Variants {
    /// Their entries as they are spelled, one after another.
    pub texts: Vec<u8>,
    /// How many there are.
    pub count: u32,
    /// The number of each by its entry's spelling.
    pub numbers: BTreeMap<Vec<u8>, u32>,
}

impl Variants {
    /// Without variants.
    pub fn new(alloc: Global) -> Variants
        ensures { Holds result [] }
    {
        Variants {
            texts: Vec::new(alloc),
            count: 0,
            numbers: BTreeMap::new(alloc),
        }
    }

    /// The number of the variant whose entry is spelled so. It is appended where there is none.
    pub fn number(&mut self, text: Vec<u8>) -> Result<u32, AllocError>
        requires { (vs : List (TypeUse Label)) × Holds self.old vs × (length vs + 1 < 2 ^ 32) }
        ensures held { (vs : List (TypeUse Label)) → (u : TypeUse Label) → Holds self.old vs → text.items ≡ use_text u
            → IsSmallUse u → is_all_public u.type ≡ false → OnOk result (Holds self.new (with_use vs u)) }
        ensures number { (vs : List (TypeUse Label)) → (u : TypeUse Label) → Holds self.old vs → text.items ≡ use_text u
            → IsSmallUse u → is_all_public u.type ≡ false → IfOk result (λ n. n ≡ place_of_use (with_use vs u) u) }
    {
        match self.numbers.get(text.as_slice()).copied() {
            Some(number) => Ok(number),
            None => {
                let number = self.count;
                self.texts.extend_from_slice(&text)?;
                self.numbers.insert(text, number)?;
                self.count = number + 1;
                Ok(number)
            }
        }
    }
}
