ghost use Rattle.std.specs.Prelude.{◌≡◌, ◌<◌, ◌-◌, ◌^◌, false, length, option_map, Some, OnOk};
ghost use Rattle.ctw_stack.specs.Opens.{slot_count, type_of};
ghost use Rattle.ctw_sites.specs.Rows.{rests, done, takes_alone as taking, gives_of as giving, ending as last};
ghost use Rattle.ctw_sites.specs.Stacks.{on_innermost};

use ctw_labels::Tag;
use ctw_ops::Width;
use ctw_stack::{Slot, Stack};
use std::alloc::AllocError;
use std::marker::Model;

/// What an instruction without instructions inside does to the operands of its block, where it passes.
#[derive(Drop)]
pub struct Row {
    /// How many operands it takes.
    pub takes: u32,
    /// Whether the rest of its block is dead.
    pub ends: bool,
    /// The width and the tag of what it gives.
    pub gives: Option<(Width, Tag)>,
    /// Whether that goes under a site of its own.
    pub lifts: bool,
}

impl Model for Row {
    ghost use Rattle.std.specs.Prelude.{option_map};
    ghost use Rattle.ctw_stack.specs.Opens.{type_of};
    ghost use Rattle.ctw_sites.specs.Rows.{Row};

    ghost Value = { Row };

    ghost view = { λ r. record {
      takes = r.takes;
      ends = r.ends;
      gives = option_map type_of r.gives;
      lifts = r.lifts;
    } };
}

impl Row {
    /// It takes so many operands and gives nothing.
    pub fn takes_alone(takes: u32) -> Row
        ensures { result ≡ taking takes }
    {
        Row {
            takes,
            ends: false,
            gives: None,
            lifts: false,
        }
    }

    /// It takes so many operands and gives this under a site of its own, where that is something.
    pub fn gives_of(takes: u32, gives: Option<(Width, Tag)>) -> Row
        ensures { result ≡ giving takes (option_map type_of gives) }
    {
        Row {
            takes,
            ends: false,
            gives,
            lifts: true,
        }
    }

    /// It takes so many operands and gives this under no site of its own.
    pub fn kept(takes: u32, gives: (Width, Tag)) -> Row
        ensures { result ≡ record { takes = takes; ends = false; gives = Some (type_of gives); lifts = false } }
    {
        Row {
            takes,
            ends: false,
            gives: Some(gives),
            lifts: false,
        }
    }

    /// The rest of its block is dead.
    pub fn ending() -> Row
        ensures { result ≡ last }
    {
        Row {
            takes: 0,
            ends: true,
            gives: None,
            lifts: false,
        }
    }
}

/// Takes so many operands off the innermost block, or as many as it has.
fn take(stack: &mut Stack<Tag>, count: u32)
    requires { 0 < length stack.old }
    ensures { stack.new ≡ on_innermost (rests count) stack.old }
{
    'taken: for _i in 0..count {
        let _ = stack.pop();
    }
}

/// Does to the innermost block what a row says; `site` is the one of its push, where it has one.
///
/// The error is want of memory.
pub fn apply(stack: &mut Stack<Tag>, row: &Row, site: u32) -> Result<(), AllocError>
    requires open { 0 < length stack.old }
    requires few { slot_count stack.old < 2 ^ 32 - 1 }
    ensures { OnOk result (stack.new ≡ on_innermost (done site row.now) stack.old) }
{
    if row.ends {
        stack.kill();
    } else {
        take(stack, row.takes);
    }
    match row.gives {
        Some((width, tag)) => {
            let tag = if row.lifts { Tag::At { site } } else { tag };
            stack.push(Slot::Known { width, tag })
        }
        None => Ok(()),
    }
}
