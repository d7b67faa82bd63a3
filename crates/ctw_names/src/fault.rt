ghost use Rattle.std.specs.Prelude.{◌≡◌, ◌∷◌, [], is_some, Some, None, Option, unwrap_or, ℕ};
ghost use Rattle.ctw_text.specs.Names.{fault_at, unless, Kind};
ghost use Rattle.ctw_text.specs.Names as names;
ghost use Rattle.ctw_names.specs.Noted.{earlier, kind_of, noted};

use ctw_text::Name;
use std::marker::Model;

/// What is wrong with a name or a typeuse.
#[derive(Clone, Copy, Debug, PartialEq, Eq)]
pub enum FaultKind {
    /// Nothing has the name.
    UnknownName,
    /// Another thing of the same kind has the name already.
    DoubleName,
    /// The types that are spelled out differ from those of the entry that is named.
    Mismatch,
}

/// A fault among names and typeuses, with the token at which it is found.
#[derive(Debug, Drop)]
pub struct Fault {
    /// What is wrong.
    pub kind: FaultKind,
    /// The offset of the token.
    pub place: u32,
    /// How many bytes the token has.
    pub extent: usize,
}

impl Model for Fault {
    ghost use Rattle.ctw_text.specs.Names.{NameFault};

    ghost Value = { NameFault };

    ghost use Rattle.ctw_names.specs.Noted.{kind_of};

    ghost view = { λ f. record { kind = kind_of f.kind; place = f.place; extent = f.extent } };
}

impl Fault {
    /// A fault at a name.
    pub fn at(kind: FaultKind, name: &Name) -> Fault
        ensures { result ≡ fault_at (kind_of kind) name.now }
    {
        Fault {
            kind,
            place: name.place,
            extent: name.word.len(),
        }
    }
}

/// The first fault in a text of those that are noted.
#[derive(Drop)]
pub struct Faults {
    least: Option<Fault>,
}

impl Model for Faults {
    ghost use Rattle.std.specs.Prelude.{Option};
    ghost use Rattle.ctw_text.specs.Names.{NameFault};

    ghost Value = { Option NameFault };

    ghost view = { λ f. f.least };
}

impl Faults {
    /// No fault.
    pub fn none() -> Faults
        ensures { result ≡ None }
    {
        Faults { least: None }
    }

    /// Notes a fault.
    pub fn note(&mut self, fault: Fault)
        ensures { self.new ≡ noted self.old (fault ∷ []) }
    {
        if let Some(least) = &self.least {
            let least = least;
            if least.place <= fault.place {
                return;
            }
        }
        self.least = Some(fault);
    }

    /// The first of the faults that were noted.
    pub fn least(self) -> Option<Fault>
        ensures { result ≡ self }
    {
        self.least
    }

    /// The number that a name was found to have; a fault is noted and 0 is given where it has none.
    pub fn expect(&mut self, found: Option<u32>, name: &Name) -> u32
        ensures number { result ≡ unwrap_or found 0 }
        ensures faults { self.new ≡ noted self.old (unless (is_some found) (fault_at names.Kind.UnknownName name.now)) }
    {
        let Some(number) = found else {
            self.note(Fault::at(FaultKind::UnknownName, name));
            return 0;
        };
        number
    }
}
