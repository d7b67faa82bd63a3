//! Marks: which places of a plain module are secret or public, which functions are trusted, and where they release.
#![tactic(auto)]

mod entry;
mod fault;
mod line;
mod marks;
mod order;
mod place;
mod pushes;
mod read;

ghost use Rattle.std.specs.Prelude.{◌≡◌, ℕ, List};
ghost use Rattle.ctw_ops.specs.declared.types.Label.{Label};
ghost use Rattle.ctw_ops.specs.Tree.{Module};
ghost use Rattle.ctw_lex.specs.Lexeme.{Lexeme};
ghost use Rattle.ctw_marks.specs.declared.order.Order.{Order as AnOrder};
ghost use Rattle.ctw_marks.specs.Grammar.{IsOrder};
ghost use Rattle.ctw_marks.specs.Readings.{MarkList, IsReading, AreSame};

pub use fault::MarkFault;
pub use marks::Marks;
pub use read::read_marks;

/// A line asks for one thing at most, and the readings of a text have the same marks.
pub fn marks_have_one_reading()
    ensures lines { (ts : List Lexeme) (a b : AnOrder) → IsOrder ts a → IsOrder ts b → a ≡ b }
    ensures texts { (m : Module Label) (text : List ℕ) (a b : MarkList) → IsReading m text a → IsReading m text b
        → AreSame a b }
{}
