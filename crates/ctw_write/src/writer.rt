ghost use Rattle.std.specs.Prelude.{◌≡◌, ◌<◌, ◌^◌, ◌++◌, length, IfOk, OnOk, OnErr};
ghost use Rattle.ctw_form.specs.Spelled.{magic, version};
ghost use Rattle.ctw_write.specs.Canon.{section_text};

use crate::text::put_section;
use std::alloc::{AllocError, Global};
use std::marker::Model;

/// A writer of a module's sections, one after another; contracts see the bytes so far.
#[derive(Drop)]
pub struct ModuleWriter {
    out: Vec<u8>,
}

impl Model for ModuleWriter {
    ghost use Rattle.std.specs.Prelude.{ℕ, List};

    ghost Value = { List ℕ };

    ghost view = { λ w. w.out.items };
}

impl ModuleWriter {
    /// A writer that has written the magic and the version, of a CT module or a plain one.
    pub fn new(alloc: Global, ct: bool) -> Result<ModuleWriter, AllocError>
        ensures { IfOk result (λ writer. writer ≡ magic ++ version ct) }
    {
        let mut out = Vec::new(alloc);
        put_header(&mut out, ct)?;
        Ok(ModuleWriter { out })
    }

    /// Writes a section: its id, the minimal spelling of its size, and its contents, which are shorter than
    /// 2^32 bytes. They aren't looked at. Where memory runs out, the writer is as before.
    pub fn section(&mut self, id: u8, contents: &[u8]) -> Result<(), AllocError>
        requires { length contents.now < 2 ^ 32 }
        ensures written { OnOk result (self.new ≡ self.old ++ section_text id contents.now) }
        ensures kept { OnErr result (self.new ≡ self.old) }
    {
        let len = self.out.len();
        let result = put_section(&mut self.out, id, contents);
        if result.is_err() {
            self.out.truncate(len);
        }
        result
    }

    /// The bytes: the magic and the version, and then each section whose writing was answered Ok, in order.
    pub fn finish(self) -> Vec<u8>
        ensures { result.items ≡ self }
    {
        self.out
    }
}

/// Appends the magic and the version.
pub fn put_header(out: &mut Vec<u8>, ct: bool) -> Result<(), AllocError>
    ensures { OnOk result (out.new.items ≡ out.old.items ++ magic ++ version ct) }
{
    out.extend_from_slice(b"\0asm")?;
    if ct {
        out.extend_from_slice(&[0x01, 0x00, 0x43, 0x54])
    } else {
        out.extend_from_slice(&[0x01, 0x00, 0x00, 0x00])
    }
}
