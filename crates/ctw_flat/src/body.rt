ghost use Rattle.std.specs.Prelude.{◌≡◌, ◌≤◌, ◌<◌, ◌^◌, ◌+◌, ◌↔◌, ◌++◌, ℕ, List, length, drop, IfOk, IfErr, IsOk};
ghost use Rattle.ctw_ops.specs.declared.types.Label.{Label};
ghost use Rattle.ctw_ops.specs.Code.{Op};
ghost use Rattle.ctw_leb.specs.Calls.{Gives};
ghost use Rattle.ctw_flat.specs.Spelled.{IsOp};
ghost use Rattle.ctw_flat.specs.Instructions.{op_of, IsExactly, IsInstrKind};
ghost use Rattle.ctw_flat.specs.Places.{instr_in};

use crate::fault::CodeFault;
use crate::instr::Instr;
use crate::reading::read_instr;
use ctw_leb::Cursor;
use std::marker::Model;

/// One function's instructions with the closing `end`, as they stand in a CT module; contracts see the bytes.
#[derive(Drop)]
pub struct Body<'a> {
    code: &'a [u8],
}

impl<'a> Model for Body<'a> {
    ghost use Rattle.std.specs.Prelude.{ℕ, List, ◌<◌, ◌^◌, length};

    ghost Value = { List ℕ };

    ghost view = { λ body. body.code.now };

    ghost invariant = { λ body. length body.code.now < 2 ^ 32 };
}

impl<'a> Body<'a> {
    /// The body with these bytes, which are fewer than 2^32. Nothing is read yet: they may be any.
    pub fn new(code: &'a [u8]) -> Body<'a>
        requires { length code.now < 2 ^ 32 }
        ensures { result ≡ code.now }
    {
        Body { code }
    }

    /// The bytes.
    pub fn code(&self) -> &'a [u8]
        ensures bytes { result.now ≡ self.now }
        ensures short { length self.now < 2 ^ 32 }
    {
        self.code
    }

    /// The instruction that is spelled at a place, which isn't past the bytes, and the place behind it.
    ///
    /// Else the first fault from the left. It takes no memory.
    #[inline(always)]
    pub fn instr_at(&self, at: usize) -> Result<(Instr<'a>, usize), CodeFault>
        requires { at ≤ length self.now }
        ensures instr { Gives (λ x. (op_of x.0, x.1)) result (instr_in self.now at) }
        ensures exactly { IfOk result (λ x. IsExactly x.0) }
        ensures behind { IfOk result (λ x. (at < x.1) × (x.1 ≤ length self.now)) }
        ensures spelled { IfOk result (λ x. (text after : List ℕ) × IsOp text (op_of x.0)
            × (drop at self.now ≡ text ++ after) × (x.1 ≡ at + length text)) }
        ensures kinds { IfErr result (λ fault. IsInstrKind fault.kind) }
        ensures found { (text after : List ℕ) (op : Op Label) → IsOp text op → drop at self.now ≡ text ++ after
            → IsOk result }
    {
        read_at(self.code, at)
    }
}

/// The same of bytes.
#[inline(always)]
#[tactic(auto, unfolding(crate::specs::Places::instr_in))]
fn read_at<'a>(code: &'a [u8], at: usize) -> Result<(Instr<'a>, usize), CodeFault>
    requires inside { at ≤ length code.now }
    requires short { length code.now < 2 ^ 32 }
    ensures instr { Gives (λ x. (op_of x.0, x.1)) result (instr_in code.now at) }
    ensures exactly { IfOk result (λ x. IsExactly x.0) }
{
    let mut cursor = Cursor::new(&code[at..], at as u32);
    match read_instr(&mut cursor) {
        Ok(instr) => Ok((instr, cursor.place() as usize)),
        Err(fault) => Err(fault),
    }
}
