// Numbers that atoms spell.

ghost use Rattle.std.specs.Prelude.{◌≡◌, ℕ, ◌+◌, ◌*◌, ◌^◌, ◌<◌, ◌≤◌, Bool, true, false, MatchOption, option_map, min};
ghost use Rattle.ctw_lex.specs.Chars.{is_hex, hex_value};
ghost use Rattle.ctw_lex.specs.NumberForms.{is_decimal, IsNumber, IsSignedNumber};
ghost use Rattle.ctw_lex.specs.NumberValues.{digits_value, radix, digit_test, decimal_value, hexadecimal_value, number_value, number_of_value, signed_number_value, signed_of_value, NoNumber, NoSigned, SpellsNumber, SpellsSigned};

use crate::bytes::{begins_with, hex_digit_value, is_hex_digit};

/// How large a number is.
#[derive(Clone, Copy, Debug, PartialEq, Eq)]
pub enum Magnitude {
    /// Below 2 ^ 64: its value.
    Small(u64),
    /// 2 ^ 64 or more.
    Large,
}

/// A number with a sign or without one.
#[derive(Clone, Copy, Debug, PartialEq, Eq)]
pub struct SignedNumber {
    /// Whether its sign is `-`.
    pub negative: bool,
    /// The number without its sign.
    pub size: Magnitude,
}

// The digits that may stand in a number.
#[derive(Clone, Copy, PartialEq, Eq)]
enum Base {
    Decimal,
    Hexadecimal,
}

// The number that one more digit makes of a number, or 2 ^ 64 where it is larger.
fn with_digit(base: Base, value: u128, digit: u8) -> u128
    requires value { value ≤ 2 ^ 64 }
    requires digit { digit < 16 }
    ensures { result ≡ min (radix base * value + digit) (2 ^ 64) }
{
    let larger = match base {
        Base::Decimal => 10 * value,
        Base::Hexadecimal => 16 * value,
    };
    (larger + u128::from(digit)).min(1 << 64)
}

fn is_digit(base: Base, b: u8) -> bool
    ensures value { result ≡ digit_test base b }
    ensures hexadecimal { result ≡ true → is_hex b ≡ true }
{
    match base {
        Base::Decimal => b.is_ascii_digit(),
        Base::Hexadecimal => is_hex_digit(b),
    }
}

// The number that the digits spell, or 2 ^ 64 where it is larger.
fn digits(base: Base, bytes: &[u8]) -> Option<u128>
    ensures value { result ≡ option_map (λ n. min n (2 ^ 64))
        (digits_value (radix base) (digit_test base) false 0 bytes.now) }
{
    let mut value: u128 = 0;
    let mut after_digit: bool = false;
    for b in bytes {
        if is_digit(base, *b) {
            value = with_digit(base, value, hex_digit_value(*b));
            after_digit = true;
        } else if after_digit && *b == b'_' {
            after_digit = false;
        } else {
            return None;
        }
    }
    if after_digit { Some(value) } else { None }
}

fn hexadecimal(bytes: &[u8]) -> Option<u128>
    ensures value { result ≡ option_map (λ n. min n (2 ^ 64)) (hexadecimal_value bytes.now) }
{
    match bytes {
        [b'0', b'x', rest @ ..] => digits(Base::Hexadecimal, rest),
        _ => None,
    }
}

fn magnitude_of(bytes: &[u8]) -> Option<Magnitude>
    ensures { result ≡ option_map number_of_value (number_value bytes.now) }
{
    let value = match digits(Base::Decimal, bytes) {
        Some(value) => value,
        None => hexadecimal(bytes)?,
    };
    match u64::try_from(value) {
        Ok(small) => Some(Magnitude::Small(small)),
        Err(_) => Some(Magnitude::Large),
    }
}

fn with_sign(negative: bool, unsigned: &[u8]) -> Option<SignedNumber>
    ensures { result ≡ option_map (λ n. signed_of_value (negative, n)) (number_value unsigned.now) }
{
    let size = magnitude_of(unsigned)?;
    Some(SignedNumber { negative, size })
}

fn signed_of(bytes: &[u8]) -> Option<SignedNumber>
    ensures { result ≡ option_map signed_of_value (signed_number_value bytes.now) }
{
    if begins_with(bytes, b'+') {
        with_sign(false, &bytes[1..])
    } else if begins_with(bytes, b'-') {
        with_sign(true, &bytes[1..])
    } else {
        with_sign(false, bytes)
    }
}

/// The unsigned number that an atom spells, as the integers of the text format are spelled (W3C WebAssembly Core 1.0,
/// section 6.3.1): decimal digits, or `0x` and hexadecimal digits of either case, with single `_` between digits.
///
/// None exactly where the text is no such number; a sign makes it none.
pub fn number(text: &str) -> Option<Magnitude>
    ensures spelled { MatchOption result (NoNumber text.now) (SpellsNumber text.now) }
    ensures only { (m n : ℕ) → IsNumber text.now m → IsNumber text.now n → m ≡ n }

    // The same by one function, which computes.
    ensures value { result ≡ option_map number_of_value (number_value text.now) }
{
    magnitude_of(text.as_bytes())
}

/// The number that an atom spells with a `+`, a `-` or no sign before it.
///
/// None exactly where the text is no such number. `-0` has a sign too.
pub fn signed_number(text: &str) -> Option<SignedNumber>
    ensures spelled { MatchOption result (NoSigned text.now) (SpellsSigned text.now) }
    ensures only { (a b : Bool) (m n : ℕ) → IsSignedNumber text.now a m → IsSignedNumber text.now b n →
        (a ≡ b) × (m ≡ n) }

    // The same by one function, which computes.
    ensures value { result ≡ option_map signed_of_value (signed_number_value text.now) }
{
    signed_of(text.as_bytes())
}
