// What a line of marks stands for, token by token.
ghost use Rattle.std.specs.Prelude.{◌≡◌, map, IsSome, option_map};
ghost use Rattle.ctw_lex.specs.declared.TokenKind.TheVariants.{Text};
ghost use Rattle.ctw_lex.specs.Strings.{string_value};
ghost use Rattle.ctw_lex.specs.Told.{lexeme_of};
ghost use Rattle.ctw_script.specs.MoveValues.{AreWhole, bytes_value, name_value};
ghost use Rattle.ctw_marks.specs.Orders.{Reads, items_of, index_value, subject_value, numbered_of, named_of, kind_of, of_kind, spot_of, verb_of, of_verb, order_of};

use crate::order::{Order, Spot, Subject};
use ctw_lex::{Magnitude, Token, TokenKind, number, unescape};
use ctw_ops::{Label, Name};
use std::alloc::Global;

/// Why a line asks for nothing.
#[derive(Clone, Copy)]
pub enum LineFault {
    /// It has no reading.
    NoReading,
    /// Memory was wanting.
    NoMemory,
}

/// The first word of a line.
#[derive(Clone, Copy)]
pub enum Verb {
    Secret,
    Public,
    Trust,
    Release,
}

/// The first word of a place.
#[derive(Clone, Copy)]
pub enum Kind {
    Param,
    Result,
    Local,
    Global,
    Memory,
}

// The index that an atom spells.
fn index(t: Token) -> Result<Option<u32>, LineFault>
    ensures { Reads result (index_value (lexeme_of t.entry)) }
{
    if t.kind != TokenKind::Atom {
        return Err(LineFault::NoReading);
    }
    match number(t.text) {
        Some(Magnitude::Small(n)) => Ok(u32::try_from(n).ok()),
        Some(Magnitude::Large) => Ok(None),
        None => Err(LineFault::NoReading),
    }
}

// The bytes that a string stands for. A string of a line is whole.
fn octets(alloc: Global, t: Token) -> Result<Vec<u8>, LineFault>
    requires { t.kind ≡ Text → IsSome (string_value t.text.now) }
    ensures { Reads (items_of result) (bytes_value (lexeme_of t.entry)) }
{
    if t.kind != TokenKind::Text {
        return Err(LineFault::NoReading);
    }
    unescape(alloc, t).map_err(|_| LineFault::NoMemory)
}

// A string whose bytes are UTF-8.
fn name(alloc: Global, t: Token) -> Result<Name, LineFault>
    requires { t.kind ≡ Text → IsSome (string_value t.text.now) }
    ensures { Reads result (name_value (lexeme_of t.entry)) }
{
    let bytes = octets(alloc, t)?;
    match String::from_utf8(bytes) {
        Ok(text) => Ok(Name::new(text)),
        Err(_) => Err(LineFault::NoReading),
    }
}

// The index or the export's name of a function or a global.
fn subject(alloc: Global, t: Token) -> Result<Subject, LineFault>
    requires { t.kind ≡ Text → IsSome (string_value t.text.now) }
    ensures { Reads result (subject_value (lexeme_of t.entry)) }
{
    match t.kind {
        TokenKind::Text => Ok(Subject::Export {
            name: name(alloc, t)?,
        }),
        TokenKind::Atom => Ok(Subject::Number { index: index(t)? }),
        TokenKind::Left => Err(LineFault::NoReading),
        TokenKind::Right => Err(LineFault::NoReading),
    }
}

// A subject and a number.
fn numbered(alloc: Global, rest: &[Token]) -> Result<(Subject, Option<u32>), LineFault>
    requires { AreWhole rest.now }
    ensures { Reads result (numbered_of (map lexeme_of rest.now)) }
{
    let [first, second] = rest else {
        return Err(LineFault::NoReading);
    };
    let func = subject(alloc, *first)?;
    let i = index(*second)?;
    Ok((func, i))
}

// A subject alone.
fn named(alloc: Global, rest: &[Token]) -> Result<Subject, LineFault>
    requires { AreWhole rest.now }
    ensures { Reads result (named_of (map lexeme_of rest.now)) }
{
    let [first] = rest else {
        return Err(LineFault::NoReading);
    };
    subject(alloc, *first)
}

fn kind_word(word: &str) -> Option<Kind>
    ensures { result ≡ kind_of word.now }
{
    match word {
        "param" => Some(Kind::Param),
        "result" => Some(Kind::Result),
        "local" => Some(Kind::Local),
        "global" => Some(Kind::Global),
        "memory" => Some(Kind::Memory),
        _ => None,
    }
}

fn spot_behind(alloc: Global, kind: Kind, rest: &[Token]) -> Result<Spot, LineFault>
    requires { AreWhole rest.now }
    ensures { Reads result (of_kind kind (map lexeme_of rest.now)) }
{
    match kind {
        Kind::Param => {
            let (func, i) = numbered(alloc, rest)?;
            Ok(Spot::Param { func, i })
        }
        Kind::Result => Ok(Spot::Result {
            func: named(alloc, rest)?,
        }),
        Kind::Local => {
            let (func, i) = numbered(alloc, rest)?;
            Ok(Spot::Local { func, i })
        }
        Kind::Global => Ok(Spot::Global {
            global: named(alloc, rest)?,
        }),
        Kind::Memory => match rest {
            [] => Ok(Spot::Memory),
            _ => Err(LineFault::NoReading),
        },
    }
}

// The place that tokens name.
fn spot(alloc: Global, tokens: &[Token]) -> Result<Spot, LineFault>
    requires { AreWhole tokens.now }
    ensures { Reads result (spot_of (map lexeme_of tokens.now)) }
{
    let [first, rest @ ..] = tokens else {
        return Err(LineFault::NoReading);
    };
    if first.kind != TokenKind::Atom {
        return Err(LineFault::NoReading);
    }
    match kind_word(first.text) {
        Some(kind) => spot_behind(alloc, kind, rest),
        None => Err(LineFault::NoReading),
    }
}

fn first_word(word: &str) -> Option<Verb>
    ensures { result ≡ verb_of word.now }
{
    match word {
        "secret" => Some(Verb::Secret),
        "public" => Some(Verb::Public),
        "trust" => Some(Verb::Trust),
        "release" => Some(Verb::Release),
        _ => None,
    }
}

// What stands behind a line's first word.
fn behind(alloc: Global, word: Verb, rest: &[Token]) -> Result<Order, LineFault>
    requires { AreWhole rest.now }
    ensures { Reads result (of_verb word (map lexeme_of rest.now)) }
{
    match word {
        Verb::Secret => Ok(Order::Label {
            label: Label::Secret,
            spot: spot(alloc, rest)?,
        }),
        Verb::Public => Ok(Order::Label {
            label: Label::Public,
            spot: spot(alloc, rest)?,
        }),
        Verb::Trust => Ok(Order::Trust {
            func: named(alloc, rest)?,
        }),
        Verb::Release => {
            let (func, at) = numbered(alloc, rest)?;
            Ok(Order::Release { func, at })
        }
    }
}

/// What a line's tokens ask for. The strings among them are whole.
pub fn order_on_line(alloc: Global, line: &[Token]) -> Result<Order, LineFault>
    requires { AreWhole line.now }
    ensures { Reads result (order_of (map lexeme_of line.now)) }
{
    let [first, rest @ ..] = line else {
        return Err(LineFault::NoReading);
    };
    if first.kind != TokenKind::Atom {
        return Err(LineFault::NoReading);
    }
    match first_word(first.text) {
        Some(word) => behind(alloc, word, rest),
        None => Err(LineFault::NoReading),
    }
}
