// Scripts: the moves of their lines, in order.
ghost use Rattle.std.specs.Prelude.{◌≡◌, ◌<◌, ◌^◌, ◌++◌, ◌∷◌, [], length, slice_get, Some, map, OnOk, IfOk, IfErr};
ghost use Rattle.ctw_script.specs.declared.moves.Move.{Move as AMove};
ghost use Rattle.std.specs.List.{AllZip};
ghost use Rattle.ctw_lex.specs.Told.{lexeme_of};
ghost use Rattle.ctw_script.specs.Grammar.{IsMove};
ghost use Rattle.ctw_script.specs.declared.script.ScriptFault.TheVariants.{NoMemory};
ghost use Rattle.ctw_script.specs.Scripts.{lines_of, HasReading, HasFault};
ghost use Rattle.ctw_script.specs.MoveValues.{AreWhole, IsWhole};
ghost use Rattle.ctw_script.specs.LineValues.{IsRead, IsUnreadLine};
ghost use Rattle.ctw_script.specs.Progress.{KeepsReading, StopsReading, EndsLine, IsLineCause, goes_on};

use crate::line::{LineFault, move_on_line};
use crate::moves::Move;
use ctw_lex::{LexFault, Token, TokenList, tokens};
use std::alloc::Global;
use std::marker::Model;
use thiserror::Error;

/// Why a script isn't read.
#[derive(Clone, Copy, Debug, PartialEq, Eq, Error)]
pub enum ScriptFault {
    /// The text has no tokens.
    #[error("no tokens from line {line} on")]
    Lex {
        /// The line of the text's first fault, from 1.
        line: u32,
    },
    /// A line stands for no move.
    #[error("line {line} is no move")]
    Line {
        /// The first such line, from 1.
        line: u32,
    },
    /// Memory was wanting.
    #[error("out of memory")]
    NoMemory,
}

/// The moves of a script, in order.
#[derive(Debug, Drop)]
pub struct Moves {
    moves: Vec<Move>,
}

impl Model for Moves {
    ghost use Rattle.std.specs.Prelude.{◌<◌, ◌^◌, List, length};
    ghost use Rattle.ctw_script.specs.declared.moves.Move.{Move as AMove};

    ghost Value = { List AMove };

    ghost view = { λ m. m.moves.items };

    ghost invariant = { λ m. length m.moves.items < 2 ^ 32 };
}

impl Moves {
    /// How many moves there are.
    pub fn count(&self) -> u32
        ensures { result ≡ length self.now }
    {
        self.moves.len() as u32
    }

    /// The move of this number, from 0.
    pub fn at(&self, i: u32) -> &Move
        requires { i < length self.now }
        ensures { slice_get self.now i ≡ Some result.now }
    {
        &self.moves[i as usize]
    }
}

// The move of a line, which has a token.
fn read_line(alloc: Global, line: &[Token]) -> Result<Move, ScriptFault>
    requires some { 0 < length line.now }
    requires whole { AreWhole line.now }
    ensures { IsRead (map lexeme_of line.now) result }
{
    match move_on_line(alloc, line) {
        Ok(read) => Ok(read),
        Err(LineFault::NoReading) => Err(ScriptFault::Line { line: line[0].line }),
        Err(LineFault::NoMemory) => Err(ScriptFault::NoMemory),
    }
}

// The line has ended: its move is added.
fn end_line(alloc: Global, line: &[Token], moves: &mut Vec<Move>) -> Result<(), ScriptFault>
    requires some { 0 < length line.now }
    requires whole { AreWhole line.now }
    ensures read { OnOk result (EndsLine (map lexeme_of line.now) moves.old.items moves.new.items) }
    ensures fault { IfErr result (λ fault. IsUnreadLine (map lexeme_of line.now) fault) }
{
    let read = read_line(alloc, line)?;
    match moves.push(read) {
        Ok(()) => Ok(()),
        Err(_) => Err(ScriptFault::NoMemory),
    }
}

fn push_token<'a>(line: &mut Vec<Token<'a>>, t: Token<'a>) -> Result<(), ScriptFault>
    ensures ok { OnOk result (line.new.items ≡ line.old.items ++ t.entry ∷ []) }
    ensures fault { IfErr result (λ fault. fault ≡ NoMemory) }
{
    match line.push(t) {
        Ok(()) => Ok(()),
        Err(_) => Err(ScriptFault::NoMemory),
    }
}

// Whether a token stands on the line that goes on, or begins the first one.
fn goes_on(line: &[Token], t: Token) -> bool
    ensures { result ≡ goes_on (map lexeme_of line.now) (lexeme_of t.entry) }
{
    match line {
        [] => true,
        [first, ..] => first.line == t.line,
    }
}

// The next token goes on with the line, or ends it and begins the next one.
fn add_token<'a>(
    alloc: Global,
    t: Token<'a>,
    line: &mut Vec<Token<'a>>,
    moves: &mut Vec<Move>,
) -> Result<(), ScriptFault>
    requires line { AreWhole line.old.items }
    requires token { IsWhole t }
    ensures reading { OnOk result (KeepsReading (map lexeme_of line.old.items) moves.old.items (lexeme_of t.entry)
        (map lexeme_of line.new.items) moves.new.items) }
    ensures whole { OnOk result (AreWhole line.new.items) }
    ensures fault { IfErr result (StopsReading (map lexeme_of line.old.items) moves.old.items (lexeme_of t.entry)) }
{
    if goes_on(line, t) {
        return push_token(line, t);
    }
    end_line(alloc, line, moves)?;
    line.clear();
    push_token(line, t)
}

// The moves of the lines of a list of tokens.
fn read_tokens(alloc: Global, list: &TokenList) -> Result<Moves, ScriptFault>
    ensures read { IfOk result (AllZip IsMove (lines_of list.now)) }
    ensures fault { IfErr result (IsLineCause list.now) }
{
    let mut moves = Vec::new(alloc);
    let mut line: Vec<Token> = Vec::new(alloc);
    for i in 0..list.count() {
        add_token(alloc, list.at(i), &mut line, &mut moves)?;
    }
    if line.is_empty() {
        return Ok(Moves { moves });
    }
    end_line(alloc, &line, &mut moves)?;
    Ok(Moves { moves })
}

/// The moves of a script's lines.
///
/// The text is shorter than 2 ^ 32 bytes. A line's tokens are those that start on it; a line without tokens stands for
/// nothing. `Lex` comes exactly where the text has no tokens, with the line of its first fault. `Line` comes exactly
/// where it has tokens and a line stands for no move, with the first such line. `NoMemory` may come for any text.
pub fn read_script(alloc: Global, text: &str) -> Result<Moves, ScriptFault>
    requires { length text.now < 2 ^ 32 }
    ensures reading { IfOk result (λ moves. HasReading text.now moves) }
    ensures fault { IfErr result (λ fault. HasFault text.now fault) }
{
    let list = match tokens(alloc, text) {
        Ok(list) => list,
        Err(LexFault::Bad(place)) => return Err(ScriptFault::Lex { line: place.line }),
        Err(LexFault::NoMemory) => return Err(ScriptFault::NoMemory),
    };
    read_tokens(alloc, &list)
}
