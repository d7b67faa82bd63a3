ghost use Rattle.std.specs.Prelude.{◌≡◌, ◌≤◌, ◌<◌, ◌↔◌, ℕ, false, Some, length, IfOk, IfErr, IfSome};
ghost use Rattle.ctw_ops.specs.Valid.{IsValid};
ghost use Rattle.ctw_module.specs.Trees.{view_module};
ghost use Rattle.ctw_labels.specs.declared.name.SiteName.TheVariants.{Push};
ghost use Rattle.ctw_labels.specs.Order.{key_of, name_at};
ghost use Rattle.ctw_labels.specs.SitedModule.{sites as sites_of};
ghost use Rattle.ctw_sites.specs.Packed.{most_sites};
ghost use Rattle.ctw_sites.specs.Refused.{IsRefusal};
ghost use Rattle.ctw_sites.specs.Unpacked.{yields_at};

use crate::fault::SitesFault;
use crate::gather::gather;
use crate::packer::{MOST_SITES, Packer};
use crate::unpack;
use ctw_labels::SiteName;
use ctw_module::Module;
use ctw_ops::ExternTag;
use std::alloc::Global;
use std::cmp::Ordering;
use std::marker::Model;

/// Where a site stands among others, by its name: sites are numbered in the order of these.
fn key(name: SiteName) -> (u8, u32, u32, u8, u32)
    ensures { result ≡ key_of name }
{
    match name {
        SiteName::Param { f, i } => (0, f, 0, 0, i),
        SiteName::Result { f } => (0, f, 0, 1, 0),
        SiteName::GlobalOf { g } => (1, g, 0, 0, 0),
        SiteName::Memory => (2, 0, 0, 0, 0),
        SiteName::Local { f, i } => (3, f, 0, 0, i),
        SiteName::Block { f, at } => (3, f, at, 1, 0),
        SiteName::Op { f, at } => (3, f, at, 2, 0),
        SiteName::IParam { f, at, i } => (3, f, at, 3, i),
        SiteName::IResult { f, at } => (3, f, at, 4, 0),
        SiteName::Push { f, at } => (3, f, at, 5, 0),
    }
}

/// The sites of a plain module by their numbers. Each takes one word of 64 bits.
#[derive(Drop)]
pub struct Sites {
    words: Vec<u64>,
    // The first site of each function, and that of each defined function's locals and opcodes.
    heads: Vec<u32>,
    starts: Vec<u32>,
    // How many functions are imported.
    imported: u32,
}

impl Model for Sites {
    ghost use Rattle.std.specs.Prelude.{List};
    ghost use Rattle.ctw_labels.specs.Names.{Site};

    ghost Value = { List Site };

    ghost use Rattle.ctw_sites.specs.Held.{sites_in, IsHeld};

    ghost view = { λ s. sites_in s };

    ghost invariant = { λ s. IsHeld s };
}

impl Sites {
    /// Numbers the sites of a module, which is valid and plain, in one walk over its bytes. In order these are the
    /// parameters and the result of each function, the globals, the memory, and for each defined function its declared
    /// locals and then those of each opcode: of its block, its operation or its indirect call, and last its push.
    ///
    /// `TooManySites` comes exactly where there are more than 16,777,216, with their count. `NoMemory` may come for any
    /// module.
    pub fn of(alloc: Global, m: &Module) -> Result<Sites, SitesFault>
        requires plain { (view_module m.now).ct ≡ false }
        requires valid { IsValid (view_module m.now) }
        ensures sites { IfOk result (λ s. s ≡ sites_of (view_module m.now)) }
        ensures few { IfOk result (λ s. length (sites_of (view_module m.now)) ≤ most_sites) }
        ensures refused { IfErr result (IsRefusal (length (sites_of (view_module m.now)))) }
    {
        // A plain file is so short that all site numbers fit into 32 bits.
        let _ = m.bytes();
        let mut packer = Packer::new(alloc, MOST_SITES);
        let mut heads = Vec::new(alloc);
        let mut starts = Vec::new(alloc);
        gather(alloc, m, &mut packer, &mut heads, &mut starts)?;
        if packer.count > MOST_SITES {
            return Err(SitesFault::TooManySites {
                count: packer.count,
            });
        }
        Ok(Sites {
            words: packer.words,
            heads,
            starts,
            imported: m.imported_count(ExternTag::Func),
        })
    }

    /// How many sites there are.
    pub fn count(&self) -> u32
        ensures count { result ≡ length self.now }
        ensures few { result ≤ most_sites }
    {
        self.words.len() as u32
    }

    /// The name of a site below the count.
    pub fn name(&self, site: u32) -> SiteName
        requires { site < length self.now }
        ensures { name_at self.now site ≡ Some result }
    {
        let word = self.words[site as usize];
        unpack::name_of(word, site, &self.heads, &self.starts, self.imported)
    }

    /// The site that a push takes its label from; None exactly where the site is no push, and where what it pushes
    /// comes from no site: of `memory.size` and `memory.grow`, and of constants, which are sites of their own.
    pub fn yield_of(&self, site: u32) -> Option<u32>
        requires { site < length self.now }
        ensures yields { yields_at self.now site ≡ Some result }
        ensures push { IfSome result (λ _. (f : ℕ) × (at : ℕ) × (name_at self.now site ≡ Some (Push f at))) }
    {
        unpack::yield_of(self.words[site as usize])
    }

    /// The site of a name; None exactly where no site has it. It undoes `name`, and takes logarithmic time.
    pub fn site_of(&self, name: SiteName) -> Option<u32>
        ensures { (k : ℕ) → (result ≡ Some k) ↔ (name_at self.now k ≡ Some name) }
    {
        let wanted = key(name);
        let mut low = 0;
        let mut high = self.words.len() as u32;
        'between: while low < high {
            let middle = low + (high - low) / 2;
            match key(self.name(middle)).cmp(&wanted) {
                Ordering::Less => low = middle + 1,
                Ordering::Equal => return Some(middle),
                Ordering::Greater => high = middle,
            }
        }
        None
    }
}
