//! What a script asks of a session and what a session tells: moves and replies, why a call traps, what its trace
//! shows, and how all of these are written.
#![tactic(auto)]

mod arguments;
mod event;
mod line;
mod lines;
mod moves;
mod reply;
mod script;
mod trap;

ghost use Rattle.std.specs.Prelude.{◌≡◌, ℕ, List};
ghost use Rattle.ctw_lex.specs.Lexeme.{Lexeme};
ghost use Rattle.ctw_script.specs.Grammar.{IsMove};
ghost use Rattle.ctw_script.specs.Scripts.{IsReading};

pub use arguments::argument;
pub use event::Event;
pub use lines::{event_text, lines_tell_replies_apart, reply_text, trap_word};
pub use moves::{Arg, Args, Move, Slot64};
pub use reply::{Refusal, Reply, Shown};
pub use script::{Moves, ScriptFault, read_script};
pub use trap::TrapCode;

/// A line stands for one move at most, and a script for one list of moves.
pub fn scripts_have_one_reading()
    ensures lines { (ts : List Lexeme) (a b : Move) → IsMove ts a → IsMove ts b → a ≡ b }
    ensures scripts { (text : List ℕ) (a b : List Move) → IsReading text a → IsReading text b → a ≡ b }
{}
