ghost use Rattle.std.specs.Prelude.{◌≡◌, ◌++◌, ◌<◌, ◌≤◌, ℕ, List, OnOk, OnErr, FitsSigned};
ghost use Rattle.std.specs.Int.{w32};
ghost use Rattle.ctw_leb.specs.Numbers.{IsU32, IsSigned};
ghost use Rattle.ctw_leb.specs.Spelling.{IsMinimal, turned, shortest, u32_text, s64_text};

use std::alloc::AllocError;

/// Appends the minimal spelling of an unsigned number. Where memory runs out, the items are as before.
pub fn put_u32(out: &mut Vec<u8>, n: u32) -> Result<(), AllocError>
    ensures put { OnOk result (out.new.items ≡ out.old.items ++ u32_text n) }
    ensures minimal { IsMinimal IsU32 (u32_text n) n }
    ensures kept { OnErr result (out.new.items ≡ out.old.items) }
{
    put_bytes(out, u64::from(n), 128, false)
}

/// Appends the minimal spelling of a signed number, which for a number of 32 bits is also the
/// minimal one of that width. Where memory runs out, the items are as before.
pub fn put_s64(out: &mut Vec<u8>, n: i64) -> Result<(), AllocError>
    ensures put { OnOk result (out.new.items ≡ out.old.items ++ s64_text n) }
    ensures minimal { IsMinimal (IsSigned 64) (s64_text n) n }
    ensures narrow { FitsSigned w32 n → IsMinimal (IsSigned 32) (s64_text n) n }
    ensures kept { OnErr result (out.new.items ≡ out.old.items) }
{
    let bits = n.cast_unsigned();
    if n < 0 {
        put_bytes(out, u64::MAX - bits, 64, true)
    } else {
        put_bytes(out, bits, 64, false)
    }
}

/// Appends n, or -(n + 1) by its bits turned over; the last byte has something below `limit`.
fn put_bytes(out: &mut Vec<u8>, n: u64, limit: u64, below: bool) -> Result<(), AllocError>
    requires some { 64 ≤ limit }
    requires seven { limit ≤ 128 }
    ensures put { OnOk result (out.new.items ≡ out.old.items ++ shortest limit below 10 n) }
    ensures kept { OnErr result (out.new.items ≡ out.old.items) }
{
    let len = out.len();
    let result = push_bytes(out, n, limit, below);
    if result.is_err() {
        out.truncate(len);
    }
    result
}

/// The same, and where memory runs out, some bytes may be there.
fn push_bytes(out: &mut Vec<u8>, n: u64, limit: u64, below: bool) -> Result<(), AllocError>
    requires some { 64 ≤ limit }
    requires seven { limit ≤ 128 }
    ensures put { OnOk result (out.new.items ≡ out.old.items ++ shortest limit below 10 n) }
    ensures part { OnErr result ((part : List ℕ) × (out.new.items ≡ out.old.items ++ part)) }
{
    let mut rest = n;
    while rest >= limit {
        out.push(seven_bits(rest % 128, below) + 128)?;
        rest /= 128;
    }
    out.push(seven_bits(rest, below))?;
    Ok(())
}

/// Seven bits as they are, or turned over.
fn seven_bits(bits: u64, below: bool) -> u8
    requires { bits < 128 }
    ensures value { result ≡ turned below bits }
    ensures seven { result < 128 }
{
    let bits = bits as u8;
    if below { 127 - bits } else { bits }
}
