//! The command that assembles a text.
ghost use Rattle.std.specs.Prelude.{◌≡◌, ◌≢◌, ◌<◌, ◌^◌, ◌++◌, ℕ, List, length, Some, Err, IfOk, IfSome, OnOk};
ghost use Rattle.std.specs.FinMap.{get};
ghost use Rattle.ctw_io.specs.Files.{Files};
ghost use Rattle.ctw_script.specs.Lines.{blank_before_each};
ghost use Rattle.ctw_parse.specs.Told.{fault_of};
ghost use Rattle.ctw_inputs.specs.declared.said.Status.TheVariants.{Done};
ghost use Rattle.ctw_inputs.specs.declared.said.Stop.TheVariants.{ReadFault};
ghost use Rattle.ctw_inputs.specs.Inputs.{load};
ghost use Rattle.ctw_inputs.specs.Settling.{SaysSo, HasReadCause};
ghost use Rattle.ctwasm_top.specs.Texts.{IsReadBack, text_limit, lex_word, between, text_words, text_line, text_answer};
ghost use Rattle.ctwasm_top.specs.Findings.{OnSaid};

use ctw_inputs::{Said, Stop, load_file, refuse, text_of};
use ctw_io::Shelf;
use ctw_lex::LexKind;
use ctw_lines::{add_number_word, add_word, what_word};
use ctw_parse::{TextFault, assemble};
use std::alloc::{AllocError, Global};

/// The greatest size of a text's file, in bytes.
const TEXT_LIMIT: u64 = 8_388_608;

fn lex_word(kind: LexKind) -> &'static [u8]
    ensures { result.now ≡ lex_word kind }
{
    match kind {
        LexKind::BadChar => b"BadChar",
        LexKind::OpenString => b"OpenString",
        LexKind::OpenComment => b"OpenComment",
        LexKind::BadEscape => b"BadEscape",
    }
}

/// Adds a kind of fault, and where its token begins and ends.
fn add_between(line: &mut Vec<u8>, kind: &[u8], start: u32, end: u32) -> Result<(), AllocError>
    ensures { OnOk result (line.new.items ≡ line.old.items ++ blank_before_each (between kind.now start end)) }
{
    add_word(line, kind)?;
    add_number_word(line, start)?;
    add_number_word(line, end)
}

/// Adds why a text isn't assembled.
fn add_text_fault(line: &mut Vec<u8>, fault: &TextFault) -> Result<(), AllocError>
    ensures { IfSome (fault_of fault.now) (λ f. OnOk result (line.new.items
        ≡ line.old.items ++ blank_before_each (text_words f))) }
{
    match fault {
        TextFault::Lex(place) => {
            add_word(line, b"Lex")?;
            add_word(line, lex_word(place.kind))?;
            add_number_word(line, place.start)
        }
        TextFault::Unexpected { start, end } => add_between(line, b"Unexpected", *start, *end),
        TextFault::UnknownName { start, end } => add_between(line, b"UnknownName", *start, *end),
        TextFault::DoubleName { start, end } => add_between(line, b"DoubleName", *start, *end),
        TextFault::NumberRange { start, end } => add_between(line, b"NumberRange", *start, *end),
        TextFault::Floats { start, end } => add_between(line, b"Floats", *start, *end),
        TextFault::TooMany { what, limit } => {
            add_word(line, b"TooMany")?;
            add_word(line, what_word(*what))?;
            add_number_word(line, *limit)
        }
        TextFault::NoMemory => Ok(()),
    }
}

/// The line for a text that isn't assembled.
fn text_line(alloc: Global, fault: &TextFault) -> Result<Vec<u8>, AllocError>
    ensures { IfSome (fault_of fault.now) (λ f. IfOk result (λ line. line.items ≡ text_line f)) }
{
    let mut line = Vec::from_slice(alloc, b"refused text")?;
    add_text_fault(&mut line, fault)?;
    line.push(b'\n')?;
    Ok(line)
}

/// The canonical bytes of the module that a file's text denotes.
fn assembled(alloc: Global, file: &str, bytes: &[u8]) -> Result<Said, Stop>
    requires { length bytes.now < 2 ^ 30 }
    ensures told { SaysSo result (text_answer file.now bytes.now) }
    ensures back { OnSaid result (λ said. said.status ≡ Done → IsReadBack bytes.now) }
    ensures quiet { result ≢ Err ReadFault }
{
    let text = match text_of(alloc, file, bytes) {
        Ok(text) => text,
        Err(stop) => return Err(stop),
    };
    match assemble(alloc, text) {
        Ok(module) => Ok(Said::done(module)),
        Err(TextFault::NoMemory) => Err(Stop::NoMemory),
        Err(fault) => Err(refuse(text_line(alloc, &fault))),
    }
}

/// `assemble T`: says the canonical bytes of the module that the file's text denotes.
#[tactic(auto, unfolding(crate::specs::Texts::text_limit))]
pub fn assemble_file<F: Shelf>(alloc: Global, file: &str, shelf: &mut F) -> Result<Said, Stop>
    ensures told { (files : Files) → F.files shelf.old ≡ Some files
        → SaysSo result (load files file.now text_limit (text_answer file.now)) }
    ensures back { (files : Files) (text : List ℕ) → F.files shelf.old ≡ Some files → get files file.now ≡ Some text
        → OnSaid result (λ said. said.status ≡ Done → IsReadBack text) }
    ensures unchanged { F.files shelf.new ≡ F.files shelf.old }
    ensures cause { HasReadCause (F.faults shelf.old) (F.faults shelf.new) result }
{
    let bytes = load_file(alloc, shelf, file, TEXT_LIMIT)?;
    assembled(alloc, file, &bytes)
}
