// What a line of a script stands for.
ghost use Rattle.std.specs.Prelude.{◌≡◌, ◌≤◌, ◌^◌, map, IsSome, IfOk, ◌<◌};
ghost use Rattle.ctw_lex.specs.declared.TokenKind.TheVariants.{Text};
ghost use Rattle.ctw_lex.specs.Strings.{string_value};
ghost use Rattle.ctw_lex.specs.Told.{lexeme_of};
ghost use Rattle.ctw_script.specs.MoveValues.{Reads, number_below, atom_text, bytes_value, name_value, argument_of, arguments_of, items_of, AreWhole, of_verb, begin_of, turn_of, leave_of, poke_of, place_of, verb_of, move_of};

use crate::arguments::argument;
use crate::moves::{Arg, Args, Move, Slot64};
use ctw_lex::{Magnitude, Token, TokenKind, number, unescape};
use ctw_ops::{Name, Octets};
use std::alloc::Global;

// How many bytes a peek, a seal or a reveal may name.
const MOST_BYTES: u64 = 1_048_576;

/// Why a line gives no move.
#[derive(Clone, Copy)]
pub enum LineFault {
    /// It stands for none.
    NoReading,
    /// Memory was wanting.
    NoMemory,
}

/// The first word of a line.
#[derive(Clone, Copy)]
pub enum Verb {
    Begin,
    Turn,
    Drop,
    Poke,
    Peek,
    Seal,
    Reveal,
}

/// Bytes of an exported memory.
#[derive(Drop)]
pub struct Place {
    pub part: Name,
    pub memory: Name,
    pub at: u32,
    pub count: u32,
}

// The number, below the limit, that an atom spells.
fn unsigned(t: Token, limit: u64) -> Result<u64, LineFault>
    ensures value { Reads result (number_below limit (lexeme_of t.entry)) }
    ensures below { IfOk result (λ n. n < limit) }
{
    if t.kind != TokenKind::Atom {
        return Err(LineFault::NoReading);
    }
    match number(t.text) {
        Some(Magnitude::Small(n)) if n < limit => Ok(n),
        _ => Err(LineFault::NoReading),
    }
}

fn slot_number(t: Token) -> Result<Slot64, LineFault>
    ensures { Reads result (number_below 64 (lexeme_of t.entry)) }
{
    let n = unsigned(t, 64)?;
    Slot64::new(n as u32).ok_or(LineFault::NoReading)
}

fn number32(t: Token) -> Result<u32, LineFault>
    ensures { Reads result (number_below (2 ^ 32) (lexeme_of t.entry)) }
{
    let n = unsigned(t, 1 << 32)?;
    Ok(n as u32)
}

fn byte_count(t: Token) -> Result<u32, LineFault>
    ensures { Reads result (number_below 0x10_0001 (lexeme_of t.entry)) }
{
    let n = unsigned(t, MOST_BYTES + 1)?;
    Ok(n as u32)
}

// The bytes that a string stands for. A string of a line is whole.
fn octets(alloc: Global, t: Token) -> Result<Vec<u8>, LineFault>
    requires { t.kind ≡ Text → IsSome (string_value t.text.now) }
    ensures { Reads (items_of result) (bytes_value (lexeme_of t.entry)) }
{
    if t.kind != TokenKind::Text {
        return Err(LineFault::NoReading);
    }
    unescape(alloc, t).map_err(|_| LineFault::NoMemory)
}

fn byte_text(alloc: Global, t: Token) -> Result<Octets, LineFault>
    requires { t.kind ≡ Text → IsSome (string_value t.text.now) }
    ensures { Reads result (bytes_value (lexeme_of t.entry)) }
{
    let bytes = octets(alloc, t)?;
    Ok(Octets::new(bytes))
}

// A string whose bytes are UTF-8.
fn name(alloc: Global, t: Token) -> Result<Name, LineFault>
    requires { t.kind ≡ Text → IsSome (string_value t.text.now) }
    ensures { Reads result (name_value (lexeme_of t.entry)) }
{
    let bytes = octets(alloc, t)?;
    match String::from_utf8(bytes) {
        Ok(text) => Ok(Name::new(text)),
        Err(_) => Err(LineFault::NoReading),
    }
}

fn arguments(alloc: Global, tokens: &[Token]) -> Result<Vec<Arg>, LineFault>
    ensures { Reads (items_of result) (arguments_of (map lexeme_of tokens.now)) }
{
    let mut args = Vec::new(alloc);
    for t in tokens {
        if t.kind != TokenKind::Atom {
            return Err(LineFault::NoReading);
        }
        let Some(arg) = argument(t.text) else {
            return Err(LineFault::NoReading);
        };
        args.push(arg).map_err(|_| LineFault::NoMemory)?;
    }
    Ok(args)
}

fn begin(alloc: Global, rest: &[Token]) -> Result<Move, LineFault>
    requires { AreWhole rest.now }
    ensures { Reads result (begin_of (map lexeme_of rest.now)) }
{
    let [slot, part, export, args @ ..] = rest else {
        return Err(LineFault::NoReading);
    };
    let slot = slot_number(*slot)?;
    let part = name(alloc, *part)?;
    let export = name(alloc, *export)?;
    let args = Args::new(arguments(alloc, args)?);
    Ok(Move::Begin {
        slot,
        part,
        export,
        args,
    })
}

fn turn(rest: &[Token]) -> Result<Move, LineFault>
    ensures { Reads result (turn_of (map lexeme_of rest.now)) }
{
    let [slot, steps] = rest else {
        return Err(LineFault::NoReading);
    };
    let slot = slot_number(*slot)?;
    let steps = number32(*steps)?;
    Ok(Move::Turn { slot, steps })
}

fn leave(rest: &[Token]) -> Result<Move, LineFault>
    ensures { Reads result (leave_of (map lexeme_of rest.now)) }
{
    let [slot] = rest else {
        return Err(LineFault::NoReading);
    };
    let slot = slot_number(*slot)?;
    Ok(Move::Leave { slot })
}

fn poke(alloc: Global, rest: &[Token]) -> Result<Move, LineFault>
    requires { AreWhole rest.now }
    ensures { Reads result (poke_of (map lexeme_of rest.now)) }
{
    let [part, memory, at, bytes] = rest else {
        return Err(LineFault::NoReading);
    };
    let part = name(alloc, *part)?;
    let memory = name(alloc, *memory)?;
    let at = number32(*at)?;
    let bytes = byte_text(alloc, *bytes)?;
    Ok(Move::Poke {
        part,
        memory,
        at,
        bytes,
    })
}

fn memory_place(alloc: Global, rest: &[Token]) -> Result<Place, LineFault>
    requires { AreWhole rest.now }
    ensures { Reads result (place_of (map lexeme_of rest.now)) }
{
    let [part, memory, at, count] = rest else {
        return Err(LineFault::NoReading);
    };
    let part = name(alloc, *part)?;
    let memory = name(alloc, *memory)?;
    let at = number32(*at)?;
    let count = byte_count(*count)?;
    Ok(Place {
        part,
        memory,
        at,
        count,
    })
}

fn first_word(word: &str) -> Option<Verb>
    ensures { result ≡ verb_of word.now }
{
    match word {
        "begin" => Some(Verb::Begin),
        "turn" => Some(Verb::Turn),
        "drop" => Some(Verb::Drop),
        "poke" => Some(Verb::Poke),
        "peek" => Some(Verb::Peek),
        "seal" => Some(Verb::Seal),
        "reveal" => Some(Verb::Reveal),
        _ => None,
    }
}

// What stands behind a line's first word.
fn behind(alloc: Global, word: Verb, rest: &[Token]) -> Result<Move, LineFault>
    requires { AreWhole rest.now }
    ensures { Reads result (of_verb word (map lexeme_of rest.now)) }
{
    match word {
        Verb::Begin => begin(alloc, rest),
        Verb::Turn => turn(rest),
        Verb::Drop => leave(rest),
        Verb::Poke => poke(alloc, rest),
        Verb::Peek => {
            let Place {
                part,
                memory,
                at,
                count,
            } = memory_place(alloc, rest)?;
            Ok(Move::Peek {
                part,
                memory,
                at,
                count,
            })
        }
        Verb::Seal => {
            let Place {
                part,
                memory,
                at,
                count,
            } = memory_place(alloc, rest)?;
            Ok(Move::Seal {
                part,
                memory,
                at,
                count,
            })
        }
        Verb::Reveal => {
            let Place {
                part,
                memory,
                at,
                count,
            } = memory_place(alloc, rest)?;
            Ok(Move::Reveal {
                part,
                memory,
                at,
                count,
            })
        }
    }
}

/// The move that a line's tokens stand for. The strings among them are whole.
pub fn move_on_line(alloc: Global, line: &[Token]) -> Result<Move, LineFault>
    requires { AreWhole line.now }
    ensures { Reads result (move_of (map lexeme_of line.now)) }
{
    let [first, rest @ ..] = line else {
        return Err(LineFault::NoReading);
    };
    if first.kind != TokenKind::Atom {
        return Err(LineFault::NoReading);
    }
    match first_word(first.text) {
        Some(word) => behind(alloc, word, rest),
        None => Err(LineFault::NoReading),
    }
}
