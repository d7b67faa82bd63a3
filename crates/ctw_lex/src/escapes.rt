// The escapes of a string.

ghost use Rattle.std.specs.Prelude.{◌≡◌, ◌+◌, ◌≤◌, ◌<◌, ◌++◌, All, IfOk, IfSome, IsTrue, length, min, option_map};
ghost use Rattle.std.specs.List.{prefix_len};
ghost use Rattle.ctw_lex.specs.Chars.{is_hex, number_of, simple_of};
ghost use Rattle.ctw_lex.specs.Strings.{byte_of, scalar_of, escape_of};
ghost use Rattle.ctw_lex.specs.Escapes.{meaning, escape_len};

use crate::bytes::{hex_digit_value, is_hex_digit};
use std::alloc::AllocError;

/// An escape: how many bytes it has behind its backslash, and what it stands for.
#[derive(Clone, Copy)]
pub enum Escape {
    Byte(usize, u8),
    Scalar(usize, char),
}

fn hex_digits(rest: &[u8]) -> usize
    ensures value { result ≡ prefix_len is_hex rest.now }
    ensures within { result ≤ length rest.now }
{
    rest.iter().take_while(|b| is_hex_digit(**b)).count()
}

// The number that the digits spell, or 2 ^ 21 where it is larger.
fn capped_number(digits: &[u8]) -> u32
    requires { All (λ b. IsTrue (is_hex b)) digits.now }
    ensures { result ≡ min (number_of digits.now) 0x20_0000 }
{
    let mut value: u32 = 0;
    for b in digits {
        value = (value * 16 + u32::from(hex_digit_value(*b))).min(0x20_0000);
    }
    value
}

fn simple_escape(b: u8) -> Option<u8>
    ensures { result ≡ simple_of b }
{
    match b {
        b't' => Some(9),
        b'n' => Some(10),
        b'r' => Some(13),
        b'"' => Some(34),
        b'\'' => Some(39),
        b'\\' => Some(92),
        _ => None,
    }
}

fn byte_escape(b: u8, rest: &[u8]) -> Option<u8>
    ensures { result ≡ byte_of b rest.now }
{
    if rest.is_empty() {
        return None;
    }
    if is_hex_digit(b) && is_hex_digit(rest[0]) {
        Some(16 * hex_digit_value(b) + hex_digit_value(rest[0]))
    } else {
        None
    }
}

// `u{`, hexadecimal digits and `}`.
fn scalar_escape(b: u8, rest: &[u8]) -> Option<Escape>
    ensures value { option_map meaning result ≡ scalar_of b rest.now }
    ensures within { IfSome result (λ e. escape_len e ≤ length rest.now + 1) }
{
    if b != b'u' || rest.is_empty() || rest[0] != b'{' {
        return None;
    }
    let n = hex_digits(&rest[1..]);
    if n == 0 || n + 1 >= rest.len() || rest[n + 1] != b'}' {
        return None;
    }
    match char::from_u32(capped_number(&rest[1..n + 1])) {
        Some(c) => Some(Escape::Scalar(n + 3, c)),
        None => None,
    }
}

/// The escape whose backslash stands before.
pub fn escape_at(rest: &[u8]) -> Option<Escape>
    ensures value { option_map meaning result ≡ escape_of rest.now }
    ensures within { IfSome result (λ e. escape_len e ≤ length rest.now) }
{
    if rest.is_empty() {
        return None;
    }
    let b = rest[0];
    let more = &rest[1..];
    if let Some(c) = simple_escape(b) {
        return Some(Escape::Byte(1, c));
    }
    if let Some(c) = byte_escape(b, more) {
        return Some(Escape::Byte(2, c));
    }
    scalar_escape(b, more)
}

/// How many bytes an escape has behind its backslash.
pub fn length_of(e: Escape) -> usize
    ensures { result ≡ escape_len e }
{
    match e {
        Escape::Byte(n, _) => n,
        Escape::Scalar(n, _) => n,
    }
}

/// Writes what an escape stands for.
pub fn push_escape(out: &mut Vec<u8>, e: Escape) -> Result<(), AllocError>
    ensures { IfOk result (λ _. out.new.items ≡ out.old.items ++ (meaning e).bytes) }
{
    match e {
        Escape::Byte(_, b) => {
            out.push(b)?;
        }
        Escape::Scalar(_, c) => {
            let mut room: [u8; 4] = [0; 4];
            let text = c.encode_utf8(&mut room);
            out.extend_from_slice(text.as_bytes())?;
        }
    }
    Ok(())
}
