ghost use Rattle.std.specs.Prelude.{◌≡◌, ◌*◌, ◌<◌, ◌≤◌, ◌^◌, ◌++◌, IfOk, IfSome, IsSome, ℕ, List, length};
ghost use Rattle.ctw_leb.specs.Numbers.{IsU32};
ghost use Rattle.ctw_leb.specs.Readers.{ending, number_at};
ghost use Rattle.ctw_leb.specs.Calls.{Gives};

use crate::fault::Cause;

/// The number at the front, below twice `half`, and the bytes behind it. Most have up to three bytes,
/// which are read without a call.
#[inline(always)]
#[tactic(auto, unfolding(crate::specs::Readers::number_at))]
pub fn front_number(bytes: &[u8], half: u64, signed: bool) -> Result<(u64, &[u8]), Cause>
    requires { half ≤ 2 ^ 63 }
    ensures value { Gives (λ x. (x.0, x.1.now)) result (number_at (ending signed) half bytes.now) }
    ensures length { IfOk result (λ x. length x.1.now ≤ length bytes.now) }
    ensures below { IfOk result (λ x. x.0 < 2 * half) }
{
    match bytes {
        [] => Err(Cause::Short),
        [byte, rest @ ..] => {
            let byte = u64::from(*byte);
            if byte < 128 {
                match last(byte, half, signed) {
                    Some(n) => Ok((n, rest)),
                    None => Err(Cause::Illegal),
                }
            } else if half < 128 {
                Err(Cause::Illegal)
            } else {
                let (above, rest) = second_number(rest, half / 128, signed)?;
                Ok((byte - 128 + 128 * above, rest))
            }
        }
    }
}

/// The same from the second byte on.
#[inline(always)]
#[tactic(auto, unfolding(crate::specs::Readers::number_at))]
fn second_number(bytes: &[u8], half: u64, signed: bool) -> Result<(u64, &[u8]), Cause>
    requires { half ≤ 2 ^ 63 }
    ensures value { Gives (λ x. (x.0, x.1.now)) result (number_at (ending signed) half bytes.now) }
    ensures length { IfOk result (λ x. length x.1.now ≤ length bytes.now) }
    ensures below { IfOk result (λ x. x.0 < 2 * half) }
{
    match bytes {
        [] => Err(Cause::Short),
        [byte, rest @ ..] => {
            let byte = u64::from(*byte);
            if byte < 128 {
                match last(byte, half, signed) {
                    Some(n) => Ok((n, rest)),
                    None => Err(Cause::Illegal),
                }
            } else if half < 128 {
                Err(Cause::Illegal)
            } else {
                let (above, rest) = third_number(rest, half / 128, signed)?;
                Ok((byte - 128 + 128 * above, rest))
            }
        }
    }
}

/// The same from the third byte on.
#[inline(always)]
#[tactic(auto, unfolding(crate::specs::Readers::number_at))]
fn third_number(bytes: &[u8], half: u64, signed: bool) -> Result<(u64, &[u8]), Cause>
    requires { half ≤ 2 ^ 63 }
    ensures value { Gives (λ x. (x.0, x.1.now)) result (number_at (ending signed) half bytes.now) }
    ensures length { IfOk result (λ x. length x.1.now ≤ length bytes.now) }
    ensures below { IfOk result (λ x. x.0 < 2 * half) }
{
    match bytes {
        [] => Err(Cause::Short),
        [byte, rest @ ..] => {
            let byte = u64::from(*byte);
            if byte < 128 {
                match last(byte, half, signed) {
                    Some(n) => Ok((n, rest)),
                    None => Err(Cause::Illegal),
                }
            } else if half < 128 {
                Err(Cause::Illegal)
            } else {
                let (above, rest) = number(rest, half / 128, signed)?;
                Ok((byte - 128 + 128 * above, rest))
            }
        }
    }
}

/// The same of a number of any length.
#[inline(never)]
#[tactic(auto, unfolding(crate::specs::Readers::number_at))]
fn number(bytes: &[u8], half: u64, signed: bool) -> Result<(u64, &[u8]), Cause>
    requires { half ≤ 2 ^ 63 }
    ensures value { Gives (λ x. (x.0, x.1.now)) result (number_at (ending signed) half bytes.now) }
    ensures length { IfOk result (λ x. length x.1.now ≤ length bytes.now) }
    ensures below { IfOk result (λ x. x.0 < 2 * half) }
{
    match bytes {
        [] => Err(Cause::Short),
        [byte, rest @ ..] => {
            let byte = u64::from(*byte);
            if byte < 128 {
                match last(byte, half, signed) {
                    Some(n) => Ok((n, rest)),
                    None => Err(Cause::Illegal),
                }
            } else if half < 128 {
                Err(Cause::Illegal)
            } else {
                let (high, rest) = number(rest, half / 128, signed)?;
                Ok((byte - 128 + 128 * high, rest))
            }
        }
    }
}

/// What the last byte stands for.
#[inline(always)]
fn last(byte: u64, half: u64, signed: bool) -> Option<u64>
    requires byte { byte < 128 }
    requires half { half ≤ 2 ^ 63 }
    ensures { result ≡ ending signed half byte }
{
    if signed {
        if byte < 64 {
            (byte < half).then_some(byte)
        } else if 128 <= byte + half {
            Some(half - (128 - byte) + half)
        } else {
            None
        }
    } else if byte / 2 < half {
        Some(byte)
    } else {
        None
    }
}

/// The unsigned number below 2^32 at the front of bytes, and the bytes behind it;
/// None where no number is spelled there.
#[inline(always)]
pub fn front_u32(bytes: &[u8]) -> Option<(u32, &[u8])>
    ensures spelled { IfSome result (λ x. (text : List ℕ) × IsU32 text x.0 × (bytes.now ≡ text ++ x.1.now)) }
    ensures found { (text after : List ℕ) (n : ℕ) → IsU32 text n → bytes.now ≡ text ++ after →
        IsSome result × IfSome result (λ x. (x.0 ≡ n) × (x.1.now ≡ after)) }
{
    match front_number(bytes, 1 << 31, false) {
        Ok((n, rest)) => Some((n as u32, rest)),
        Err(_) => None,
    }
}
