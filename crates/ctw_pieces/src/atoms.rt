// Tokens as the grammar sees them.

ghost use Rattle.std.specs.Prelude.{◌≡◌, ◌≤◌, ◌<◌, ℕ, Some, IfOk, IsSome, ◌-◌, length, drop, slice_index, option_map};
ghost use Rattle.ctw_lex.specs.declared.TokenKind.TheVariants.{Text};
ghost use Rattle.ctw_lex.specs.Strings.{string_value};
ghost use Rattle.ctw_lex.specs.Told.{lexeme_of};
ghost use Rattle.ctw_text.specs.Toks.{number, begins_with, holds_word, names_float, numeral, atom, tok_of};
ghost use Rattle.ctw_pieces.specs.Numbers.{cut, cut_tok, worded};

use ctw_lex::{Magnitude, Token, TokenKind, number};
use ctw_text::{Name, Quote, Tok, key_of};
use std::alloc::{AllocError, Global};

// The unsigned number that characters spell, or 2^64 where it is larger.
#[tactic(auto, using(crate::proofs::NumberValues::small_number, crate::proofs::NumberValues::large_number, crate::proofs::NumberValues::no_number))]
fn cut_number(text: &str) -> Option<u128>
    ensures { result ≡ option_map cut (number text.now) }
{
    match number(text) {
        Some(Magnitude::Small(n)) => Some(u128::from(n)),
        Some(Magnitude::Large) => Some(0x1_0000_0000_0000_0000),
        None => None,
    }
}

// What stands behind these many bytes, of which the last one is ASCII.
#[tactic(auto, using(crate::proofs::AtomTexts::boundary))]
fn behind(text: &str, count: usize) -> &str
    requires within { (0 < count) × (count ≤ length text.now) }
    requires ascii { slice_index text.now (count - 1) < 128 }
    ensures { result.now ≡ drop count text.now }
{
    &text[count..]
}

#[tactic(auto, using(crate::proofs::AtomTexts::too_short))]
fn begins_with(word: &[u8], front: &[u8]) -> bool
    ensures { result ≡ begins_with front.now word.now }
{
    if word.len() < front.len() {
        return false;
    }
    &word[..front.len()] == front
}

#[tactic(auto, using(crate::proofs::AtomTexts::holds_later, crate::proofs::AtomTexts::holds_here))]
fn holds_word(inner: &[u8], word: &[u8]) -> bool
    ensures { result ≡ holds_word inner.now word.now }
{
    for i in 0..word.len() {
        if begins_with(&word[i..], inner) {
            return true;
        }
    }
    false
}

fn names_float(word: &[u8]) -> bool
    ensures { result ≡ names_float word.now }
{
    begins_with(word, b"f32")
        || begins_with(word, b"f64")
        || holds_word(b"_f32", word)
        || holds_word(b"_f64", word)
}

fn first_byte(word: &[u8]) -> u8
    ensures { result ≡ slice_index word.now 0 }
{
    if word.is_empty() { 0 } else { word[0] }
}

// `offset=N`, `align=N`, or a word that names a float.
#[tactic(auto, using(crate::proofs::AtomTexts::front_within, crate::proofs::AtomTexts::front_byte))]
fn worded<'a>(text: &'a str) -> Option<Tok<'a>>
    ensures { result ≡ option_map cut_tok (worded text.now) }
{
    let word = text.as_bytes();
    if begins_with(word, b"offset=") {
        return match cut_number(behind(text, 7)) {
            Some(n) => Some(Tok::OffsetIs(n)),
            None => None,
        };
    }
    if begins_with(word, b"align=") {
        return match cut_number(behind(text, 6)) {
            Some(n) => Some(Tok::AlignIs(n)),
            None => None,
        };
    }
    if names_float(word) {
        Some(Tok::Floats)
    } else {
        None
    }
}

// An atom that is neither an identifier nor a word of the text form.
#[tactic(auto, using(crate::proofs::AtomTexts::nonempty))]
fn numeral<'a>(text: &'a str) -> Option<Tok<'a>>
    ensures { result ≡ option_map cut_tok (numeral text.now) }
{
    let first = first_byte(text.as_bytes());
    if first.is_ascii_digit() {
        return match cut_number(text) {
            Some(n) => Some(Tok::Num(n)),
            None => None,
        };
    }
    if first == b'+' || first == b'-' {
        return match cut_number(behind(text, 1)) {
            Some(n) => Some(Tok::Signed(first == b'-', n)),
            None => None,
        };
    }
    worded(text)
}

#[tactic(auto, using(crate::proofs::AtomTexts::by_numeral, crate::proofs::AtomTexts::by_none))]
fn atom<'a>(place: u32, text: &'a str) -> Tok<'a>
    ensures { result ≡ cut_tok (atom place text.now) }
{
    let word = text.as_bytes();
    if first_byte(word) == b'$' {
        if word.len() > 1 {
            return Tok::Id(Name { word, place });
        }
        return Tok::Other;
    }
    match key_of(word) {
        Some(key) => Tok::Word(key),
        None => match numeral(text) {
            Some(tok) => tok,
            None => Tok::Other,
        },
    }
}

/// A token as the grammar sees it; the only error is want of memory.
pub fn tok_of<'a>(alloc: Global, token: Token<'a>) -> Result<Tok<'a>, AllocError>
    requires whole { token.kind ≡ Text → IsSome (string_value token.text.now) }
    ensures { IfOk result (λ t. t ≡ cut_tok (tok_of (lexeme_of token.entry))) }
{
    match token.kind {
        TokenKind::Left => Ok(Tok::Open(token.start)),
        TokenKind::Right => Ok(Tok::Close),
        TokenKind::Atom => Ok(atom(token.start, token.text)),
        TokenKind::Text => match Quote::of(alloc, token) {
            Ok(quote) => Ok(Tok::Text(quote)),
            Err(failed) => Err(failed),
        },
    }
}
