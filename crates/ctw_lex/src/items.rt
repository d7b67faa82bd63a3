// What stands at a place of a text.

ghost use Rattle.std.specs.Prelude.{if◌then◌else◌, ◌≡◌, ◌==◌, ◌+◌, ◌≤◌, ◌<◌, ◌^◌, false, not, length, IfSome};
ghost use Rattle.std.specs.List.{prefix_len};
ghost use Rattle.ctw_lex.specs.Chars.{is_atom_byte};
ghost use Rattle.ctw_lex.specs.Strings.{string_len};
ghost use Rattle.ctw_lex.specs.Items.{comment_len, item, string_at};
ghost use Rattle.ctw_lex.specs.Extent.{extent};

use crate::bytes::{begins_with, is_blank_byte, is_part_of_atom};
use crate::strings::{first_string_fault, string_length};
use crate::{LexKind, TokenKind};

/// A blank or a comment, a token, or a fault. The number says how many bytes it has behind its first one, or how far
/// behind the first one the faulty byte stands.
#[derive(Clone, Copy)]
pub enum Item {
    Gap(usize),
    Spelled(TokenKind, usize),
    Faulty(LexKind, usize),
}

fn atom_length(rest: &[u8]) -> usize
    ensures value { result ≡ prefix_len is_atom_byte rest.now }
    ensures within { result ≤ length rest.now }
{
    rest.iter().take_while(|b| is_part_of_atom(**b)).count()
}

fn line_length(rest: &[u8]) -> usize
    ensures value { result ≡ prefix_len (λ b. not (b == 10)) rest.now }
    ensures within { result ≤ length rest.now }
{
    rest.iter().take_while(|b| **b != b'\n').count()
}

// How many bytes are left of a comment whose `(;` stands before.
fn comment_length(rest: &[u8]) -> Option<usize>
    ensures value { result ≡ comment_len 0 0 rest.now }
    ensures within { IfSome result (λ n. n ≤ length rest.now) }
{
    let mut depth: usize = 0;
    let mut last: u8 = 0;
    for (i, b) in rest.iter().enumerate() {
        if last == b'(' && *b == b';' {
            depth += 1;
            last = 0;
        } else if last == b';' && *b == b')' {
            if depth == 0 {
                return Some(i + 1);
            }
            depth -= 1;
            last = 0;
        } else {
            last = *b;
        }
    }
    None
}

// The string whose opening quote stands before.
fn string_item(rest: &[u8]) -> Item
    requires { length rest.now < 2 ^ 32 }
    ensures value { result ≡ string_at rest.now (string_len false rest.now) }
    ensures within { extent result ≤ length rest.now }
{
    match string_length(rest) {
        None => Item::Faulty(LexKind::OpenString, 0),
        Some(n) => match first_string_fault(&rest[..n]) {
            Some((kind, k)) => Item::Faulty(kind, k),
            None => Item::Spelled(TokenKind::Text, n + 1),
        },
    }
}

/// What stands at the head of these bytes.
pub fn item_at(rest: &[u8]) -> Item
    requires { (0 < length rest.now) × (length rest.now < 2 ^ 32) }
    ensures value { result ≡ item rest.now }
    ensures within { extent result < length rest.now }
{
    let b = rest[0];
    let more = &rest[1..];
    if is_blank_byte(b) {
        Item::Gap(0)
    } else if b == b'(' {
        if begins_with(more, b';') {
            match comment_length(&more[1..]) {
                None => Item::Faulty(LexKind::OpenComment, 0),
                Some(n) => Item::Gap(n + 1),
            }
        } else {
            Item::Spelled(TokenKind::Left, 0)
        }
    } else if b == b')' {
        Item::Spelled(TokenKind::Right, 0)
    } else if b == b'"' {
        string_item(more)
    } else if b == b';' && begins_with(more, b';') {
        Item::Gap(line_length(more))
    } else if is_part_of_atom(b) {
        Item::Spelled(TokenKind::Atom, atom_length(more))
    } else {
        Item::Faulty(LexKind::BadChar, 0)
    }
}

/// The line of what follows a byte.
pub fn line_after(line: usize, b: u8) -> usize
    requires { line < 2 ^ 33 }
    ensures { result ≡ (if b == 10 then line + 1 else line) }
{
    if b == b'\n' { line + 1 } else { line }
}
