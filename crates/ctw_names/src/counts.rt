ghost use Rattle.std.specs.Prelude.{◌≡◌, suc, IfOk, OnOk};
ghost use Rattle.ctw_text.specs.Names.{count_of, counted, none_yet};

use ctw_ops::ExternTag;
use std::alloc::AllocError;
use std::marker::Model;

/// How many things of each kind stand before a field.
#[derive(Drop)]
pub struct Counts {
    /// Functions.
    pub funcs: u32,
    /// Tables.
    pub tables: u32,
    /// Memories.
    pub memories: u32,
    /// Globals.
    pub globals: u32,
}

impl Model for Counts {
    ghost use Rattle.ctw_text.specs.Names.{Counts as FieldCounts};

    ghost Value = { FieldCounts };

    ghost view = { λ c. record { funcs = c.funcs; tables = c.tables; memories = c.memories; globals = c.globals } };
}

/// One more; 2^32 counts as want of memory.
fn one_more(n: u32) -> Result<u32, AllocError>
    ensures { IfOk result (λ m. m ≡ suc n) }
{
    if n >= 0xFFFF_FFFF {
        return Err(AllocError);
    }
    Ok(n + 1)
}

impl Counts {
    /// None stands before.
    pub fn none() -> Counts
        ensures { result ≡ none_yet }
    {
        Counts {
            funcs: 0,
            tables: 0,
            memories: 0,
            globals: 0,
        }
    }

    /// How many of a kind.
    pub fn of(&self, tag: ExternTag) -> u32
        ensures { result ≡ count_of self.now tag }
    {
        match tag {
            ExternTag::Func => self.funcs,
            ExternTag::Table => self.tables,
            ExternTag::Memory => self.memories,
            ExternTag::Global => self.globals,
        }
    }

    /// One more of a kind, if one is given.
    pub fn count(&mut self, tag: Option<ExternTag>) -> Result<(), AllocError>
        ensures { OnOk result (self.new ≡ counted tag self.old) }
    {
        let Some(tag) = tag else {
            return Ok(());
        };
        match tag {
            ExternTag::Func => self.funcs = one_more(self.funcs)?,
            ExternTag::Table => self.tables = one_more(self.tables)?,
            ExternTag::Memory => self.memories = one_more(self.memories)?,
            ExternTag::Global => self.globals = one_more(self.globals)?,
        }
        Ok(())
    }
}
