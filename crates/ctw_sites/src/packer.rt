ghost use Rattle.std.specs.Prelude.{◌≡◌, ◌+◌, ◌<◌, ◌*◌, ◌^◌, [], ◌∷◌, OnOk};
ghost use Rattle.ctw_labels.specs.Names.{push_site};
ghost use Rattle.ctw_sites.specs.Packed.{packed, packed_word, yield_index, after};

use ctw_labels::SiteName;
use std::alloc::{AllocError, Global};
use std::marker::Model;

/// As many sites as a module may have.
pub const MOST_SITES: u32 = 16_777_216;

/// The words of sites one after another, up to a limit, and how many sites there are.
#[derive(Drop)]
pub struct Packer {
    /// The words.
    pub words: Vec<u64>,
    /// How many sites there are.
    pub count: u32,
    // Of how many sites the words are kept.
    most: u32,
}

impl Model for Packer {
    ghost use Rattle.ctw_sites.specs.Packed.{Kept};

    ghost Value = { Kept };

    ghost view = { λ p. record { words = p.words.items; count = p.count; most = p.most } };
}

/// A word of these parts.
fn word(kind: u64, at: u32, index: u64) -> u64
    requires kind { kind < 2 ^ 4 }
    requires index { index < 2 ^ 33 }
    ensures { result ≡ packed_word kind at index }
{
    kind + u64::from(at) * 16 + index * 33_554_432
}

/// A yield's part of a push's word.
fn index_of(yields: Option<u32>) -> u64
    ensures value { result ≡ yield_index yields }
    ensures few { result < 2 ^ 33 }
{
    match yields {
        Some(site) => u64::from(site) + 1,
        None => 0,
    }
}

/// A site's word.
fn pack(name: SiteName, yields: Option<u32>) -> u64
    ensures { result ≡ packed name yields }
{
    match name {
        SiteName::Param { i, .. } => word(0, 0, u64::from(i)),
        SiteName::Result { .. } => word(1, 0, 0),
        SiteName::GlobalOf { g } => word(2, g, 0),
        SiteName::Memory => word(3, 0, 0),
        SiteName::Local { i, .. } => word(4, 0, u64::from(i)),
        SiteName::Block { at, .. } => word(5, at, 0),
        SiteName::Op { at, .. } => word(6, at, 0),
        SiteName::Push { at, .. } => word(7, at, index_of(yields)),
        SiteName::IParam { at, i, .. } => word(8, at, u64::from(i)),
        SiteName::IResult { at, .. } => word(9, at, 0),
    }
}

impl Packer {
    /// Without sites. The words of so many will be kept at most.
    pub fn new(alloc: Global, most: u32) -> Packer
        ensures { result ≡ record { words = []; count = 0; most = most } }
    {
        Packer {
            words: Vec::new(alloc),
            count: 0,
            most,
        }
    }

    /// Adds a site.
    pub fn push(&mut self, name: SiteName, yields: Option<u32>) -> Result<(), AllocError>
        requires { self.old.count + 1 < 2 ^ 32 }
        ensures { OnOk result (self.new ≡ after self.old (push_site name yields ∷ [])) }
    {
        if self.count < self.most {
            self.words.push(pack(name, yields))?;
        }
        self.count += 1;
        Ok(())
    }
}
