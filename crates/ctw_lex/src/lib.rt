//! The tokens of a text: parentheses, atoms and strings.
#![tactic(auto)]

ghost use Rattle.std.specs.Prelude.{◌≡◌, ℕ, ◌+◌, ◌<◌, ◌^◌, List, length, IfOk, IfErr, IfSome, IsSome, Ok, Err, Some, MatchResult};
ghost use Rattle.ctw_lex.specs.declared.LexFault.TheVariants.{NoMemory};
ghost use Rattle.ctw_lex.specs.declared.TokenKind.TheVariants.{Text};
ghost use Rattle.ctw_lex.specs.Answers.{HasTokens, HasFault, AreSlices};
ghost use Rattle.ctw_lex.specs.Grammar.{IsString};
ghost use Rattle.ctw_lex.specs.Strings.{string_value};
ghost use Rattle.ctw_lex.specs.Tokens.{tokens_of, place_of};

mod bytes;
mod escapes;
mod items;
mod list;
mod numbers;
mod strings;

use crate::items::{Item, item_at, line_after};
use crate::list::Span;
pub use crate::list::{Token, TokenList};
pub use crate::numbers::{Magnitude, SignedNumber, number, signed_number};
use crate::strings::unescaped;
use std::alloc::{AllocError, AllocFailed, Global};

/// What a token is.
#[derive(Clone, Copy, Debug, PartialEq, Eq)]
pub enum TokenKind {
    /// A `(`.
    Left,
    /// A `)`.
    Right,
    /// One or more ASCII letters, ASCII digits and the marks ``!#$%&'*+-./:<=>?@\^_`|~``.
    Atom,
    /// A string, with its quotes.
    Text,
}

/// Why a text has no tokens.
#[derive(Clone, Copy, Debug, PartialEq, Eq)]
pub enum LexKind {
    /// A character that may stand in no token there.
    BadChar,
    /// A quote that no later unescaped quote closes.
    OpenString,
    /// A `(;` that no `;)` closes; it is the outermost one.
    OpenComment,
    /// A backslash in a string that begins no escape.
    BadEscape,
}

/// The first fault of a text.
#[derive(Clone, Copy, Debug, PartialEq, Eq)]
pub struct LexPlace {
    /// What is wrong.
    pub kind: LexKind,
    /// The offset of the character, the quote, the `(;` or the backslash, in bytes.
    pub start: u32,
    /// The line of that byte, from 1.
    pub line: u32,
}

/// Why `tokens` gives no list.
#[derive(Clone, Copy, Debug, PartialEq, Eq)]
pub enum LexFault {
    /// The text has a fault, the first of which is told.
    Bad(LexPlace),
    /// Memory was wanting.
    NoMemory,
}

impl<T: Drop> From<AllocFailed<T>> for LexFault {
    ghost from_gives = { λ _ fault. fault ≡ NoMemory };

    fn from(_failed: AllocFailed<T>) -> LexFault {
        LexFault::NoMemory
    }
}

/// The tokens of the text, in order; blanks and comments between them are left out.
///
/// The text is shorter than 2 ^ 32 bytes. `Bad` comes exactly where it has a fault, with the one whose start is least.
/// `NoMemory` may come for any text.
pub fn tokens<'a>(alloc: Global, text: &'a str) -> Result<TokenList<'a>, LexFault>
    requires { length text.now < 2 ^ 32 }
    ensures tokens { IfOk result (λ list. HasTokens text.now list) }
    ensures slices { IfOk result (λ list. AreSlices text.now list) }
    ensures fault { IfErr result (λ fault. IfSome (place_of fault) (HasFault text.now)) }

    // The same by one function, which computes.
    ensures read { MatchResult result (λ list. tokens_of text.now ≡ Ok list)
        (λ fault. IfSome (place_of fault) (λ place. tokens_of text.now ≡ Err place)) }
{
    let bytes = text.as_bytes();
    let mut spans = Vec::new(alloc);
    let mut line: usize = 1;
    let mut skip: usize = 0;
    for (at, byte) in bytes.iter().enumerate() {
        if skip > 0 {
            skip -= 1;
        } else {
            match item_at(&bytes[at..]) {
                Item::Gap(n) => skip = n,
                Item::Spelled(kind, n) => {
                    spans.push(Span {
                        kind,
                        start: at as u32,
                        end: (at + 1 + n) as u32,
                        line: line as u32,
                    })?;
                    skip = n;
                }
                Item::Faulty(kind, n) => {
                    return Err(LexFault::Bad(LexPlace {
                        kind,
                        start: (at + n) as u32,
                        line: line as u32,
                    }));
                }
            }
        }
        line = line_after(line, *byte);
    }
    Ok(TokenList { text, spans })
}

/// The bytes that a string token stands for: its characters in UTF-8, and for each escape what it names.
///
/// Each `Text` token of a list has a whole string as its text. The only error is want of memory.
pub fn unescape(alloc: Global, t: Token) -> Result<Vec<u8>, AllocError>
    requires kind { t.kind ≡ Text }
    requires whole { IsSome (string_value t.text.now) }
    ensures spelled { IfOk result (λ bytes. IsString t.entry.text.now bytes.items) }
    ensures value { IfOk result (λ bytes. string_value t.entry.text.now ≡ Some bytes.items) }
{
    let bytes = t.text.as_bytes();
    unescaped(alloc, &bytes[1..bytes.len() - 1])
}
