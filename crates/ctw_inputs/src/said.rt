//! What a command says, and why it stops.
ghost use Rattle.std.specs.Prelude.{◌≡◌, ◌≢◌, ℕ, List, IfOk};
ghost use Rattle.ctw_inputs.specs.declared.said.Status.TheVariants.{Done, Refused, NoLabelling};
ghost use Rattle.ctw_inputs.specs.declared.said.Stop.TheVariants as stop;
ghost use Rattle.ctw_inputs.specs.Outcome.{ends};
ghost use Rattle.ctw_inputs.specs.Saying.{IsCommandStatus};
ghost use Rattle.ctw_inputs.specs.Settling.{IsStop, IsRefusal};

use std::alloc::{AllocError, AllocFailed};
use std::marker::Model;

/// How a command ended; its number is the program's exit status.
#[derive(Clone, Copy, Debug, PartialEq, Eq)]
pub enum Status {
    /// The command's text was taken, and its bytes were saved where it saves.
    Done,
    /// A file or the words were refused; the refusal's line was taken.
    Refused,
    /// The words have none of the forms of a command; the usage text was taken.
    Usage,
    /// No labelling extends the marks; the flow's lines were taken.
    NoLabelling,
    /// Reading a file failed; nothing was taken.
    ReadFault,
    /// Writing the text failed; a prefix of it was taken.
    WriteFault,
    /// Memory was wanting; a prefix of the text was taken.
    NoMemory,
    /// Saving failed, after the whole text was taken.
    SaveFault,
}

/// All that a command says: its text, and the status that goes with it. It is `Done`, `Refused` or `NoLabelling`.
#[derive(Drop)]
pub struct Said {
    status: Status,
    text: Vec<u8>,
}

impl Model for Said {
    ghost use Rattle.ctw_inputs.specs.Saying.{Saying, IsCommandStatus};

    ghost Value = { Saying };

    ghost view = { λ s. record { status = s.status; text = s.text.items } };

    ghost invariant = { λ s. IsCommandStatus s.status };
}

impl Said {
    /// The text of work that is done.
    pub fn done(text: Vec<u8>) -> Said
        ensures { result ≡ record { status = Done; text = text.items } }
    {
        Said {
            status: Status::Done,
            text,
        }
    }

    /// The line of a refusal.
    pub fn refused(text: Vec<u8>) -> Said
        ensures { result ≡ record { status = Refused; text = text.items } }
    {
        Said {
            status: Status::Refused,
            text,
        }
    }

    /// The lines that tell why there is no labelling.
    pub fn no_labelling(text: Vec<u8>) -> Said
        ensures { result ≡ record { status = NoLabelling; text = text.items } }
    {
        Said {
            status: Status::NoLabelling,
            text,
        }
    }

    /// The status.
    pub fn status(&self) -> Status
        ensures value { result ≡ self.now.status }
        ensures known { IsCommandStatus result }
    {
        self.status
    }

    /// The text.
    pub fn text(&self) -> &[u8]
        ensures { result.now ≡ self.now.text }
    {
        self.text.as_slice()
    }
}

/// Why a command stops before its work is done.
#[derive(Drop)]
pub enum Stop {
    /// This is all that is said.
    Says(Said),
    /// Reading a file failed.
    ReadFault,
    /// Memory was wanting.
    NoMemory,
}

impl From<AllocError> for Stop {
    ghost from_gives = { λ _ e. e ≡ stop.NoMemory };

    fn from(_error: AllocError) -> Stop {
        Stop::NoMemory
    }
}

impl<T: Drop> From<AllocFailed<T>> for Stop {
    ghost from_gives = { λ _ e. e ≡ stop.NoMemory };

    fn from(_error: AllocFailed<T>) -> Stop {
        Stop::NoMemory
    }
}

/// Stops with the line of a refusal, where memory was there to make it.
pub fn refuse(line: Result<Vec<u8>, AllocError>) -> Stop
    ensures told { (words : List ℕ) → IfOk line (λ l. l.items ≡ words) → IsStop result (ends Refused words) }
    ensures quiet { result ≢ stop.ReadFault }
    ensures refuses { IsRefusal result }
{
    match line {
        Ok(text) => Stop::Says(Said::refused(text)),
        Err(AllocError) => Stop::NoMemory,
    }
}
