ghost use Rattle.std.specs.Prelude.{◌≡◌, ◌<◌, ◌^◌, true, false, length, IfOk, OnOk, OnErr};
ghost use Rattle.ctw_leb.specs.Calls.{Gives};
ghost use Rattle.ctw_flat.specs.Instructions.{op_of, IsExactly};
ghost use Rattle.ctw_flat.specs.Places.{instr_in};

use crate::body::Body;
use crate::fault::CodeFault;
use crate::instr::Instr;
use crate::reading::read_instr;
use ctw_leb::Cursor;
use std::marker::Model;

/// A walk over the instructions of a body, from the first on. Contracts see the bytes and the place that it reached.
#[derive(Drop)]
pub struct Walk<'a> {
    code: &'a [u8],
    cursor: Cursor<'a>,
}

impl<'a> Model for Walk<'a> {
    ghost use Rattle.std.specs.Prelude.{◌≡◌, ◌≤◌, ◌<◌, ◌^◌, length};
    ghost use Rattle.ctw_flat.specs.Places.{Reached, from};

    ghost Value = { Reached };

    ghost view = { λ w. record { bytes = w.code.now; place = w.cursor.at } };

    ghost invariant = { λ w. (w.cursor ≡ from w.code.now w.cursor.at) × (w.cursor.at ≤ length w.code.now)
        × (length w.code.now < 2 ^ 32) };
}

impl<'a> Walk<'a> {
    /// At the front of a body.
    #[inline(always)]
    pub fn new(body: &Body<'a>) -> Walk<'a>
        ensures bytes { result.bytes ≡ body.now }
        ensures place { result.place ≡ 0 }
    {
        let code = body.code();
        Walk {
            code,
            cursor: Cursor::new(code, 0),
        }
    }

    /// Whether no instruction is left.
    #[inline(always)]
    pub fn is_done(&self) -> bool
        ensures done { result ≡ true → self.now.place ≡ length self.now.bytes }
        ensures more { result ≡ false → self.now.place < length self.now.bytes }
        ensures short { length self.now.bytes < 2 ^ 32 }
    {
        self.cursor.place() as usize == self.code.len()
    }

    /// The next instruction, behind which the walk then stands; else the first fault, and the walk stays.
    #[inline(always)]
    pub fn next(&mut self) -> Result<Instr<'a>, CodeFault>
        ensures instr { Gives (λ i. (op_of i, self.new.place)) result (instr_in self.old.bytes self.old.place) }
        ensures exactly { IfOk result (λ i. IsExactly i) }
        ensures bytes { self.new.bytes ≡ self.old.bytes }
        ensures kept { OnErr result (self.new ≡ self.old) }
    {
        let mut ahead = self.cursor.duplicate();
        match read_instr(&mut ahead) {
            Ok(instr) => {
                self.cursor = ahead;
                Ok(instr)
            }
            Err(fault) => Err(fault),
        }
    }
}
