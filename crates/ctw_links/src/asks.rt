ghost use Rattle.std.specs.Prelude.{◌≡◌, ◌-◌, length};
ghost use Rattle.ctw_links.specs.Asks.{listed};

use ctw_labels::Tag;

/// What a rule of the link table asks of an operand: to have the label of a tag.
#[derive(Clone, Copy, Debug, PartialEq, Eq)]
pub struct Ask {
    /// The rule's number.
    pub rule: u8,
    /// The tag.
    pub tag: Tag,
}

/// What is asked of an instruction's operands.
#[derive(Clone, Copy, Debug, PartialEq, Eq)]
pub enum Asks {
    /// Nothing.
    Nothing,
    /// Something of the last operand.
    One { last: Ask },
    /// Something of the last two.
    Two { last: Ask, below: Ask },
    /// The same of so many.
    Alike { each: Ask, count: u32 },
    /// To be the arguments of a function with so many parameters, whose sites begin at `first`.
    Params { first: u32, count: u32 },
    /// The same below the index of the function.
    Indexed { first: u32, count: u32 },
}

impl Asks {
    /// How many of so many operands are left where nothing is asked of them.
    pub fn left_of(&self, takes: u32) -> u32
        ensures { result ≡ takes - length (listed self.now) }
    {
        match *self {
            Asks::Nothing => takes,
            Asks::One { .. } => takes.saturating_sub(1),
            Asks::Two { .. } => takes.saturating_sub(2),
            Asks::Alike { count, .. } => takes.saturating_sub(count),
            Asks::Params { count, .. } => takes.saturating_sub(count),
            Asks::Indexed { count, .. } => takes.saturating_sub(count).saturating_sub(1),
        }
    }
}
