// Where a string ends, its first fault, and what it stands for.

ghost use Rattle.std.specs.Prelude.{◌≡◌, ◌+◌, ◌≤◌, ◌<◌, ◌^◌, false, length, option_map, IfOk, IfSome, IsOk, Ok};
ghost use Rattle.ctw_lex.specs.Strings.{string_len, contents, fault_of};

use crate::LexKind;
use crate::bytes::is_part_of_string;
use crate::escapes::{escape_at, length_of, push_escape};
use std::alloc::{AllocError, Global};

/// How many bytes stand before the quote that closes the string.
#[tactic(auto, using(crate::proofs::Steps::string_after_escape, crate::proofs::Steps::string_after_backslash, crate::proofs::Steps::string_after_other))]
pub fn string_length(rest: &[u8]) -> Option<usize>
    ensures value { result ≡ string_len false rest.now }
    ensures within { IfSome result (λ n. n < length rest.now) }
{
    let mut escaped: bool = false;
    for (i, b) in rest.iter().enumerate() {
        if escaped {
            escaped = false;
        } else if *b == b'"' {
            return Some(i);
        } else if *b == b'\\' {
            escaped = true;
        }
    }
    None
}

/// The first byte between a string's quotes that may not stand there, by its distance from the opening quote.
pub fn first_string_fault(content: &[u8]) -> Option<(LexKind, usize)>
    requires { length content.now < 2 ^ 32 }
    ensures value { option_map (λ p. record { kind = p.0; start = p.1 }) result ≡ fault_of (contents 0 1 content.now) }
    ensures within { IfSome result (λ p. p.1 ≤ length content.now) }
{
    let mut skip: usize = 0;
    for (i, b) in content.iter().enumerate() {
        if skip > 0 {
            skip -= 1;
        } else if *b == b'\\' {
            match escape_at(&content[i + 1..]) {
                Some(e) => skip = length_of(e),
                None => return Some((LexKind::BadEscape, i + 1)),
            }
        } else if !is_part_of_string(*b) {
            return Some((LexKind::BadChar, i + 1));
        }
    }
    None
}

/// The bytes that what stands between a string's quotes stands for.
pub fn unescaped(alloc: Global, content: &[u8]) -> Result<Vec<u8>, AllocError>
    requires { IsOk (contents 0 1 content.now) }
    ensures { IfOk result (λ v. contents 0 1 content.now ≡ Ok v.items) }
{
    let mut out = Vec::new(alloc);
    let mut skip: usize = 0;
    for (i, b) in content.iter().enumerate() {
        if skip > 0 {
            skip -= 1;
        } else if *b == b'\\' {
            match escape_at(&content[i + 1..]) {
                Some(e) => {
                    push_escape(&mut out, e)?;
                    skip = length_of(e);
                }
                None => unreachable!(),
            }
        } else {
            out.push(*b)?;
        }
    }
    Ok(out)
}
