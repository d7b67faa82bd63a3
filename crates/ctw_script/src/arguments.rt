// The arguments of a call as words spell them.
ghost use Rattle.std.specs.Prelude.{◌≡◌, MatchOption};
ghost use Rattle.ctw_script.specs.declared.moves.Arg.{Arg as AnArg};
ghost use Rattle.ctw_script.specs.Grammar.{IsArgument};
ghost use Rattle.ctw_script.specs.MoveValues.{argument_value, ranged};

use crate::moves::Arg;
use ctw_lex::{Magnitude, SignedNumber, signed_number};

// The greatest number that may stand behind a minus sign.
const MOST_NEGATIVE: u64 = 1 << 63;

fn in_range(number: SignedNumber) -> Option<Arg>
    ensures { result ≡ ranged number.negative number.size }
{
    let Magnitude::Small(size) = number.size else {
        return None;
    };
    if number.negative && size > MOST_NEGATIVE {
        return None;
    }
    Some(Arg::Number {
        neg: number.negative,
        size,
    })
}

fn argument_of(word: &str) -> Option<Arg>
    ensures { result ≡ argument_value word.now }
{
    if word == "*" {
        return Some(Arg::Vault);
    }
    in_range(signed_number(word)?)
}

/// The argument that a word is: `*`, or a number from -2 ^ 63 to 2 ^ 64 - 1 with a `+`, a `-` or no sign before it.
///
/// None exactly where the word is neither. Words of a command and of a script's line are read by this one call.
pub fn argument(word: &str) -> Option<Arg>
    ensures spelled { MatchOption result ((arg : AnArg) → ¬ (IsArgument word.now arg))
        (λ arg. IsArgument word.now arg) }
    ensures only { (a b : AnArg) → IsArgument word.now a → IsArgument word.now b → a ≡ b }

    // The same by one function, which computes.
    ensures value { result ≡ argument_value word.now }
{
    argument_of(word)
}
