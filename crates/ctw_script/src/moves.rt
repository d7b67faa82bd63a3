// What a script asks of a session.
ghost use Rattle.std.specs.Prelude.{◌≡◌, ◌<◌, if◌then◌else◌, nat_lt, Option, Some, None};

use ctw_ops::{Name, Octets};
use std::marker::Model;

/// The number of a slot: 0 to 63.
#[derive(Clone, Copy, Debug, PartialEq, Eq)]
pub struct Slot64 {
    number: u32,
}

impl Model for Slot64 {
    ghost use Rattle.std.specs.Prelude.{◌<◌, ℕ};

    ghost Value = { ℕ };

    ghost view = { λ slot. slot.number };

    ghost invariant = { λ slot. slot.number < 64 };

    ghost inverse = { λ number. record { number = number } };
}

impl Slot64 {
    /// The slot of this number; None exactly where it is 64 or more.
    pub fn new(n: u32) -> Option<Slot64>
        ensures { result ≡ (if nat_lt n 64 then Some n else None) }
    {
        if n < 64 {
            Some(Slot64 { number: n })
        } else {
            None
        }
    }

    /// The slot's number.
    pub fn get(&self) -> u32
        ensures value { result ≡ self.now }
        ensures small { result < 64 }
    {
        self.number
    }
}

/// An argument of a call.
#[derive(Clone, Copy, Debug, PartialEq, Eq)]
pub enum Arg {
    /// A number that is written out.
    Number {
        /// Whether it has a minus sign.
        neg: bool,
        /// The number without its sign.
        size: u64,
    },
    /// The next 4 or 8 bytes of the vault, the lowest byte first.
    Vault,
}

/// A list of arguments.
#[derive(Debug, Drop)]
pub struct Args {
    items: Vec<Arg>,
}

impl Model for Args {
    ghost use Rattle.std.specs.Prelude.{List};
    ghost use Rattle.ctw_script.specs.declared.moves.Arg.{Arg};

    ghost Value = { List Arg };

    ghost view = { λ args. args.items.items };
}

impl Args {
    /// These arguments.
    pub fn new(items: Vec<Arg>) -> Args
        ensures { result ≡ items.items }
    {
        Args { items }
    }

    /// The arguments as a slice.
    pub fn as_slice(&self) -> &[Arg]
        ensures { result.now ≡ self.now }
    {
        self.items.as_slice()
    }
}

/// One move of a session.
#[derive(Debug, Drop)]
pub enum Move {
    /// A call of an exported function begins in a free slot.
    Begin {
        /// The slot.
        slot: Slot64,
        /// The name of the part that exports the function.
        part: Name,
        /// The name of the export.
        export: Name,
        /// The arguments.
        args: Args,
    },
    /// The call in a slot takes steps.
    Turn {
        /// The slot.
        slot: Slot64,
        /// How many steps it takes at most.
        steps: u32,
    },
    /// The call in a slot is given up.
    Leave {
        /// The slot.
        slot: Slot64,
    },
    /// Bytes are written into an exported memory.
    Poke {
        /// The name of the part that exports the memory.
        part: Name,
        /// The name of the export.
        memory: Name,
        /// The place of the first byte.
        at: u32,
        /// The bytes.
        bytes: Octets,
    },
    /// Bytes of an exported public memory are shown.
    Peek {
        /// The name of the part that exports the memory.
        part: Name,
        /// The name of the export.
        memory: Name,
        /// The place of the first byte.
        at: u32,
        /// How many bytes.
        count: u32,
    },
    /// The next bytes of the vault are written into an exported secret memory.
    Seal {
        /// The name of the part that exports the memory.
        part: Name,
        /// The name of the export.
        memory: Name,
        /// The place of the first byte.
        at: u32,
        /// How many bytes.
        count: u32,
    },
    /// Bytes of an exported secret memory are appended to the sealed bytes.
    Reveal {
        /// The name of the part that exports the memory.
        part: Name,
        /// The name of the export.
        memory: Name,
        /// The place of the first byte.
        at: u32,
        /// How many bytes.
        count: u32,
    },
}
