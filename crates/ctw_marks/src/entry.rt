// The lines of marks, each with what it asks for.
ghost use Rattle.std.specs.Prelude.{◌≡◌, ◌<◌, ◌≤◌, ◌∷◌, length, map, take, drop, IfOk, OnOk};
ghost use Rattle.ctw_lex.specs.Told.{lexeme_of};
ghost use Rattle.ctw_script.specs.MoveValues.{AreWhole};
ghost use Rattle.ctw_script.specs.Scripts.{lines_of};
ghost use Rattle.ctw_marks.specs.Entries.{line_entry};

use crate::line::{LineFault, order_on_line};
use crate::order::Order;
use ctw_lex::{Token, TokenList};
use std::alloc::{AllocError, Global};

/// A line with tokens.
#[derive(Drop)]
pub struct Entry {
    /// Its number, from 1.
    pub line: u32,
    /// What it asks for, if it has a reading.
    pub order: Option<Order>,
}

// All tokens of a list.
fn all_tokens<'a>(alloc: Global, list: &TokenList<'a>) -> Result<Vec<Token<'a>>, AllocError>
    ensures tokens { IfOk result (λ all. map lexeme_of all.items ≡ list.now) }
    ensures whole { IfOk result (λ all. AreWhole all.items) }
{
    let mut all = Vec::new(alloc);
    for i in 0..list.count() {
        all.push(list.at(i))?;
    }
    Ok(all)
}

// How many tokens stand on the first one's line.
fn line_length(tokens: &[Token]) -> usize
    requires { 0 < length tokens.now }
    ensures some { 0 < result }
    ensures within { result ≤ length tokens.now }
    ensures lines { lines_of (map lexeme_of tokens.now)
        ≡ take result (map lexeme_of tokens.now) ∷ lines_of (drop result (map lexeme_of tokens.now)) }
{
    let line = tokens[0].line;
    'same: for i in 1..tokens.len() {
        if tokens[i].line != line {
            return i;
        }
    }
    tokens.len()
}

// A line, which has a token.
fn entry_of(alloc: Global, line: &[Token]) -> Result<Entry, AllocError>
    requires some { 0 < length line.now }
    requires whole { AreWhole line.now }
    ensures { IfOk result (λ entry. entry ≡ line_entry (map lexeme_of line.now)) }
{
    let order = match order_on_line(alloc, line) {
        Ok(order) => Some(order),
        Err(LineFault::NoReading) => None,
        Err(LineFault::NoMemory) => return Err(AllocError),
    };
    Ok(Entry {
        line: line[0].line,
        order,
    })
}

// The tokens behind so many.
fn behind<'a, 'b>(tokens: &'b [Token<'a>], count: usize) -> &'b [Token<'a>]
    requires { count ≤ length tokens.now }
    ensures { result.now ≡ drop count tokens.now }
{
    &tokens[count..]
}

// The lines of tokens, each with what it asks for.
fn entries_of(alloc: Global, tokens: &[Token]) -> Result<Vec<Entry>, AllocError>
    requires { AreWhole tokens.now }
    ensures { IfOk result (λ entries. entries.items ≡ map line_entry (lines_of (map lexeme_of tokens.now))) }
{
    let mut entries = Vec::new(alloc);
    let mut rest = tokens;
    'lines: while !rest.is_empty() {
        let count = line_length(rest);
        let entry = entry_of(alloc, &rest[..count])?;
        entries.push(entry)?;
        rest = behind(rest, count);
    }
    Ok(entries)
}

/// The lines of a list of tokens, each with what it asks for.
pub fn entries(alloc: Global, list: &TokenList) -> Result<Vec<Entry>, AllocError>
    ensures { IfOk result (λ entries. entries.items ≡ map line_entry (lines_of list.now)) }
{
    let all = all_tokens(alloc, list)?;
    entries_of(alloc, &all)
}
