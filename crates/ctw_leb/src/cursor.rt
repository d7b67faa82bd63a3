ghost use Rattle.std.specs.Prelude.{◌≡◌, ◌+◌, ◌-◌, ◌*◌, ◌<◌, ◌≤◌, ◌^◌, [], ◌∷◌, ◌++◌, ◌↔◌, ℕ, length, pos, negsuc, IfOk, IsOk, OnErr, Result, Ok};
ghost use Rattle.std.specs.Int.{w32, w64, cast_unsigned};
ghost use Rattle.ctw_leb.specs.Numbers.{IsU32, IsSigned};
ghost use Rattle.ctw_leb.specs.Readers.{ending, number_at, placed, byte_at, bytes_at, u32_at, s32_at, s64_at, name_at};
ghost use Rattle.ctw_leb.specs.Reading.{tabled};
ghost use Rattle.ctw_leb.specs.Calls.{Reads, ReadsAs, Finds, Tabulates, ReadsNumber, ReadsName};

use crate::fault::{Cause, LebFault};
use crate::number::front_number;
use std::marker::Model;

/// A position in a lent slice of a file.
#[derive(Drop)]
pub struct Cursor<'a> {
    rest: &'a [u8],
    place: u32,
}

impl<'a> Model for Cursor<'a> {
    ghost use Rattle.std.specs.Prelude.{◌+◌, ◌<◌, ◌^◌, length};
    ghost use Rattle.ctw_leb.specs.Input.{Input};

    ghost Value = { Input };

    ghost view = { λ c. record { at = c.place; rest = c.rest.now } };

    ghost invariant = { λ c. c.place + length c.rest.now < 2 ^ 32 };
}

impl<'a> Cursor<'a> {
    /// A cursor at the front of a slice, whose first byte has the file offset `base`.
    pub fn new(bytes: &'a [u8], base: u32) -> Cursor<'a>
        requires { base + length bytes.now < 2 ^ 32 }
        ensures at { result.at ≡ base }
        ensures rest { result.rest ≡ bytes.now }
    {
        Cursor {
            rest: bytes,
            place: base,
        }
    }

    /// Another cursor at the same place.
    #[inline(always)]
    pub fn duplicate(&self) -> Cursor<'a>
        ensures { result ≡ self.now }
    {
        Cursor {
            rest: self.rest,
            place: self.place,
        }
    }

    /// The file offset of the next byte.
    pub fn place(&self) -> u32
        ensures { result ≡ self.now.at }
    {
        self.place
    }

    /// How many bytes aren't read yet.
    pub fn left(&self) -> u32
        ensures count { result ≡ length self.now.rest }
        ensures within { self.now.at + length self.now.rest < 2 ^ 32 }
    {
        self.rest.len() as u32
    }

    /// The bytes that aren't read yet.
    pub fn rest(&self) -> &'a [u8]
        ensures { result.now ≡ self.now.rest }
    {
        self.rest
    }

    /// Reads one byte, whatever it is. `Truncated` where none is left.
    #[tactic(auto, unfolding(crate::specs::Readers::byte_at))]
    pub fn byte(&mut self) -> Result<u8, LebFault>
        ensures read { Reads result self.old self.new (byte_at self.old) }
        ensures value { IfOk result (λ b. (self.old.rest ≡ b ∷ self.new.rest) × (self.new.at ≡ self.old.at + 1)) }
        ensures truncated { OnErr result ((result ≡ Err LebFault.Truncated) × (self.old.rest ≡ [])
            × (self.new ≡ self.old)) }
    {
        match self.rest {
            [] => Err(LebFault::Truncated),
            [byte, rest @ ..] => {
                self.place += 1;
                self.rest = rest;
                Ok(*byte)
            }
        }
    }

    /// Reads one byte by a table, which answers a kind of fault where it stands for nothing.
    ///
    /// A fault has its kind and the place of the byte; where no byte is left the kind is `short`. After it the cursor
    /// may stand behind the byte.
    #[inline(always)]
    pub fn by_table<T, K: Drop, F: FnOnce(u8) -> Result<T, K> + Drop>(
        &mut self,
        short: K,
        table: F,
    ) -> Result<T, (K, u32)>
        requires { F.IsAlwaysCallable table }
        ensures read { (rows : ℕ → Result T K) → Tabulates (F.post table) rows →
            Finds (λ x. x) result self.new (tabled short rows self.old) }
        ensures row { IfOk result (λ x. (byte : ℕ) × F.post table byte (Ok x)) }
    {
        let place = self.place;
        match self.rest {
            [] => Err((short, place)),
            [byte, rest @ ..] => {
                self.place += 1;
                self.rest = rest;
                match table(*byte) {
                    Ok(x) => Ok(x),
                    Err(kind) => Err((kind, place)),
                }
            }
        }
    }

    /// Reads an unsigned number below 2^32, of at most 5 bytes.
    ///
    /// `Truncated` where the bytes end inside a spelling, `BadLeb` with the place of the first byte
    /// where no spelling begins.
    #[inline(always)]
    pub fn read_u32(&mut self) -> Result<u32, LebFault>
        ensures read { Reads result self.old self.new (u32_at self.old) }
        ensures grammar { ReadsNumber IsU32 result self.old self.new }
    {
        self.unsigned32()
    }

    /// Reads a signed number of 32 bits, of at most 5 bytes. The faults are those of `read_u32`.
    #[inline(always)]
    pub fn read_s32(&mut self) -> Result<i32, LebFault>
        ensures read { ReadsAs (cast_unsigned w32) result self.old self.new (s32_at self.old) }
        ensures grammar { ReadsNumber (IsSigned 32) result self.old self.new }
    {
        self.signed32()
    }

    /// Reads a signed number of 64 bits, of at most 10 bytes. The faults are those of `read_u32`.
    pub fn read_s64(&mut self) -> Result<i64, LebFault>
        ensures read { ReadsAs (cast_unsigned w64) result self.old self.new (s64_at self.old) }
        ensures grammar { ReadsNumber (IsSigned 64) result self.old self.new }
    {
        self.signed64()
    }

    /// Takes the next `n` bytes as they are. `Truncated` where fewer are left.
    #[tactic(auto, unfolding(crate::specs::Readers::bytes_at))]
    pub fn take(&mut self, n: u32) -> Result<&'a [u8], LebFault>
        ensures read { ReadsAs (λ s. s.now) result self.old self.new (bytes_at n self.old) }
        ensures found { IsOk result ↔ (n ≤ length self.old.rest) }
        ensures taken { IfOk result (λ s. (self.old.rest ≡ s.now ++ self.new.rest) × (length s.now ≡ n)) }
        ensures place { IfOk result (λ s. self.new.at ≡ self.old.at + n) }
        ensures truncated { OnErr result ((result ≡ Err LebFault.Truncated) × (self.new ≡ self.old)) }
    {
        if self.rest.len() < n as usize {
            return Err(LebFault::Truncated);
        }
        let (front, rest) = self.rest.split_at(n as usize);
        self.place += n;
        self.rest = rest;
        Ok(front)
    }

    /// Reads a name: a size as an unsigned number, and a text in UTF-8 of so many bytes.
    ///
    /// `Truncated` where the bytes end inside the size or the text, `BadLeb` where no size begins,
    /// `BadUtf8` with the place of the text where it isn't UTF-8.
    pub fn name(&mut self) -> Result<&'a str, LebFault>
        ensures read { ReadsAs (λ t. t.now) result self.old self.new (name_at self.old) }
        ensures grammar { ReadsName (λ t. t.now) result self.old self.new }
    {
        let rest = self.rest;
        let place = self.place;
        let result = self.sized_text();
        if result.is_err() {
            self.rest = rest;
            self.place = place;
        }
        result
    }

    /// Reads a name; after a fault the cursor may stand inside.
    #[tactic(auto, using(crate::proofs::Names::name_ok, crate::proofs::Names::name_bad, crate::proofs::Names::name_short, crate::proofs::Names::name_no_size))]
    fn sized_text(&mut self) -> Result<&'a str, LebFault>
        ensures { Finds (λ t. t.now) result self.new (name_at self.old) }
    {
        let size = match self.read_u32() {
            Ok(n) => n,
            Err(fault) => return Err(fault),
        };
        let place = self.place;
        match self.take(size) {
            Ok(bytes) => match simdutf8::compat::from_utf8(bytes) {
                Ok(text) => Ok(text),
                Err(_) => Err(LebFault::BadUtf8 { place }),
            },
            Err(fault) => Err(fault),
        }
    }

    /// Reads a number below twice `half`, signed or not, by its bits.
    #[inline(always)]
    fn number(&mut self, half: u64, signed: bool) -> Result<u64, LebFault>
        requires { half ≤ 2 ^ 63 }
        ensures read { Reads result self.old self.new (placed self.old (number_at (ending signed) half self.old.rest)) }
        ensures below { IfOk result (λ n. n < 2 * half) }
    {
        match front_number(self.rest, half, signed) {
            Ok((n, rest)) => {
                self.place += (self.rest.len() - rest.len()) as u32;
                self.rest = rest;
                Ok(n)
            }
            Err(Cause::Short) => Err(LebFault::Truncated),
            Err(Cause::Illegal) => Err(LebFault::BadLeb { place: self.place }),
        }
    }

    /// Reads an unsigned number; most have one byte.
    #[tactic(auto, unfolding(crate::specs::Readers::number_at))]
    #[inline(always)]
    fn unsigned32(&mut self) -> Result<u32, LebFault>
        ensures { Reads result self.old self.new (u32_at self.old) }
    {
        match self.rest {
            [byte, rest @ ..] if *byte < 128 => {
                self.place += 1;
                self.rest = rest;
                Ok(u32::from(*byte))
            }
            _ => self.long_unsigned32(),
        }
    }

    /// Reads an unsigned number of any length.
    #[inline(never)]
    fn long_unsigned32(&mut self) -> Result<u32, LebFault>
        ensures { Reads result self.old self.new (u32_at self.old) }
    {
        match self.number(1 << 31, false) {
            Ok(n) => Ok(n as u32),
            Err(fault) => Err(fault),
        }
    }

    /// Reads a signed number; most have one byte.
    #[tactic(auto, unfolding(crate::specs::Readers::number_at))]
    #[inline(always)]
    fn signed32(&mut self) -> Result<i32, LebFault>
        ensures { ReadsAs (cast_unsigned w32) result self.old self.new (s32_at self.old) }
    {
        match self.rest {
            [byte, rest @ ..] if *byte < 128 => {
                self.place += 1;
                self.rest = rest;
                Ok(sign_extended(*byte))
            }
            _ => self.long_signed32(),
        }
    }

    /// Reads a signed number of any length.
    #[inline(never)]
    fn long_signed32(&mut self) -> Result<i32, LebFault>
        ensures { ReadsAs (cast_unsigned w32) result self.old self.new (s32_at self.old) }
    {
        match self.number(1 << 31, true) {
            Ok(n) => Ok((n as u32).cast_signed()),
            Err(fault) => Err(fault),
        }
    }

    /// Reads a signed number; most have one byte.
    #[tactic(auto, unfolding(crate::specs::Readers::number_at))]
    #[inline(always)]
    fn signed64(&mut self) -> Result<i64, LebFault>
        ensures { ReadsAs (cast_unsigned w64) result self.old self.new (s64_at self.old) }
    {
        match self.rest {
            [byte, rest @ ..] if *byte < 128 => {
                self.place += 1;
                self.rest = rest;
                Ok(i64::from(sign_extended(*byte)))
            }
            _ => self.long_signed64(),
        }
    }

    /// Reads a signed number of any length.
    #[inline(never)]
    fn long_signed64(&mut self) -> Result<i64, LebFault>
        ensures { ReadsAs (cast_unsigned w64) result self.old self.new (s64_at self.old) }
    {
        match self.number(1 << 63, true) {
            Ok(n) => Ok(n.cast_signed()),
            Err(fault) => Err(fault),
        }
    }
}

/// The signed number of a last byte.
fn sign_extended(byte: u8) -> i32
    requires { byte < 128 }
    ensures low { byte < 64 → result ≡ pos byte }
    ensures high { 64 ≤ byte → result ≡ negsuc (127 - byte) }
{
    if byte < 64 {
        i32::from(byte)
    } else {
        i32::from(byte) - 128
    }
}
