//! Texts, and the moves of scripts.
ghost use Rattle.std.specs.Prelude.{◌≡◌, ◌<◌, ◌^◌, List, Result, Ok, length, IfOk, ◌≢◌, Err, IfErr};
ghost use Rattle.ctw_script.specs.declared.moves.Move.{Move};
ghost use Rattle.ctw_script.specs.declared.script.ScriptFault.{ScriptFault as AScriptFault};
ghost use Rattle.ctw_inputs.specs.declared.said.Stop.TheVariants.{ReadFault as AReadFault};
ghost use Rattle.ctw_inputs.specs.Inputs.{on_text, on_moves};
ghost use Rattle.ctw_inputs.specs.Settling.{IsRefusal, Settles, Reads, FollowsReading};

use crate::said::{Stop, refuse};
use ctw_lines::{not_text_line, script_line};
use ctw_script::{Moves, ScriptFault, read_script};
use std::alloc::Global;

/// A file's bytes as a text, where they are UTF-8; else they are refused with the length of their longest prefix that is.
pub fn text_of<'a>(alloc: Global, name: &str, bytes: &'a [u8]) -> Result<&'a str, Stop>
    ensures told { Settles (λ text. text.now) result (on_text name.now bytes.now) }
    ensures same { IfOk result (λ text. text.now ≡ bytes.now) }
    ensures quiet { result ≢ Err AReadFault }
    ensures refuses { IfErr result IsRefusal }
{
    match simdutf8::compat::from_utf8(bytes) {
        Ok(text) => Ok(text),
        Err(fault) => Err(refuse(not_text_line(alloc, name, fault.valid_up_to()))),
    }
}

/// The moves of a script, or its first fault is refused.
pub fn read_moves(alloc: Global, text: &str) -> Result<Moves, Stop>
    requires { length text.now < 2 ^ 32 }
    // It goes by every reading of the text: there is one at most.
    ensures told { (reading : Result (List Move) AScriptFault) → Reads text.now reading
        → Settles (λ moves. moves) result (on_moves reading) }
    // Where it goes on or refuses, the text has a reading.
    ensures read { FollowsReading text.now result }
    ensures refuses { IfErr result IsRefusal }
{
    match read_script(alloc, text) {
        Ok(moves) => Ok(moves),
        Err(ScriptFault::NoMemory) => Err(Stop::NoMemory),
        Err(fault) => Err(refuse(script_line(alloc, fault))),
    }
}
