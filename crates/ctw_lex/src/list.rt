// Tokens and lists of them.

ghost use Rattle.std.specs.Prelude.{◌≡◌, ◌<◌, ◌≤◌, ◌^◌, All, IsSome, IsUtf8, List, Some, length, slice_get};
ghost use Rattle.ctw_lex.specs.declared.TokenKind.TheVariants.{Text};
ghost use Rattle.ctw_lex.specs.Lexeme.{Lexeme};
ghost use Rattle.ctw_lex.specs.Strings.{string_value};
ghost use Rattle.ctw_lex.specs.Spans.{IsSpanOf, lexemes};
ghost use Rattle.ctw_lex.specs.Told.{lexeme_of};

use crate::TokenKind;
use std::marker::Model;

/// Where a token stands.
#[derive(Clone, Copy)]
pub struct Span {
    pub kind: TokenKind,
    pub start: u32,
    pub end: u32,
    pub line: u32,
}

/// A token: what it is, its text and where it stands.
#[derive(Clone, Copy)]
pub struct Token<'a> {
    /// What it is.
    pub kind: TokenKind,
    /// Its characters; of a string with the quotes, and the escapes as they are spelled.
    pub text: &'a str,
    /// The offset of its first byte.
    pub start: u32,
    /// The offset behind its last byte.
    pub end: u32,
    /// The line of its first byte, from 1; lines end at line feeds alone.
    pub line: u32,
}

/// The tokens of a text, in order.
#[derive(Drop)]
pub struct TokenList<'a> {
    pub(crate) text: &'a str,
    pub(crate) spans: Vec<Span>,
}

impl<'a> Model for TokenList<'a> {
    ghost Value = { List Lexeme };

    ghost view = { λ l. lexemes l.text.now l.spans.items };

    ghost invariant = { λ l. (length l.text.now < 2 ^ 32) × IsUtf8 l.text.now
        × (length l.spans.items ≤ length l.text.now) × All (IsSpanOf l.text.now) l.spans.items };
}

impl<'a> TokenList<'a> {
    /// How many tokens the text has.
    pub fn count(&self) -> u32
        ensures { result ≡ length self.now }
    {
        self.spans.len() as u32
    }

    /// The token of this number, from 0.
    pub fn at(&self, i: u32) -> Token<'a>
        requires { i < length self.now }
        ensures token { slice_get self.now i ≡ Some (lexeme_of result) }
        ensures whole { result.kind ≡ Text → IsSome (string_value result.text.now) }
    {
        let span = self.spans[i as usize];
        Token {
            kind: span.kind,
            text: &self.text[span.start as usize..span.end as usize],
            start: span.start,
            end: span.end,
            line: span.line,
        }
    }
}
