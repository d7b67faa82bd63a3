use crate::tag::Tag;
use std::marker::Model;

/// Two tags that have to have one label, by a rule of the link table.
#[derive(Clone, Copy, Debug, PartialEq, Eq)]
pub struct Told {
    /// The rule's number.
    pub rule: u8,
    /// An operand's tag.
    pub left: Tag,
    /// The tag that is wanted.
    pub right: Tag,
}

impl Model for Told {
    ghost use Rattle.ctw_labels.specs.Links.{Fact};
    ghost use Rattle.ctw_labels.specs.Names.{Tag};

    ghost Value = { Fact Tag };

    ghost view = { λ q. record { rule = q.rule; left = q.left; right = q.right } };

    ghost inverse = { λ q. record { rule = q.rule; left = q.left; right = q.right } };
}
