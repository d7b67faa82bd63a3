//! The lines about sets that are linked and launched, and about moves.
ghost use Rattle.std.specs.Prelude.{◌≡◌, ◌≢◌, ◌++◌, ◌∷◌, [], List, OnOk, IfOk, decimal};
ghost use Rattle.ctw_link.specs.declared.set.Part.{Part};
ghost use Rattle.ctw_link.specs.Sets.{set_of};
ghost use Rattle.ctw_launch.specs.Launched as Launched;
ghost use Rattle.ctw_script.specs.Lines.{blank_before_each};
ghost use Rattle.ctw_session.specs.Launches.{TellsFault};
ghost use Rattle.ctw_session.specs.declared.fault.LaunchFault.TheVariants.{NoMemory};
ghost use Rattle.ctw_inputs.specs.Parts.{AreNamed};
ghost use Rattle.ctwasm_top.specs.Lines.{linked_line, launch_words, launch_line, told_line};

use ctw_inputs::{LoadedPart, part_name};
use ctw_lines::{add_number_word, add_space, add_word};
use ctw_script::{Event, Reply, event_text, reply_text, trap_word};
use ctw_session::LaunchFault;
use itoa::Buffer;
use std::alloc::{AllocError, Global};

/// The line for a set of so many parts that matches.
pub fn linked_line(alloc: Global, parts: usize) -> Result<Vec<u8>, AllocError>
    ensures { IfOk result (λ line. line.items ≡ linked_line parts) }
{
    let mut buffer = Buffer::new();
    let mut line = Vec::from_slice(alloc, b"linked ")?;
    line.extend_from_slice(buffer.format(parts).as_bytes())?;
    line.push(b'\n')?;
    Ok(line)
}

/// Adds a kind and a part's name.
fn add_part(line: &mut Vec<u8>, kind: &[u8], part: &str) -> Result<(), AllocError>
    ensures { OnOk result (line.new.items ≡ line.old.items ++ blank_before_each (kind.now ∷ part.now ∷ [])) }
{
    add_word(line, kind)?;
    add_word(line, part.as_bytes())
}

/// Adds why a set isn't launched.
fn add_launch_fault(
    line: &mut Vec<u8>,
    parts: &[LoadedPart],
    fault: LaunchFault,
) -> Result<(), AllocError>
    ensures { (set : List Part) (f : Launched.LaunchFault) → AreNamed (set_of set) parts.now → fault ≢ NoMemory
        → TellsFault set fault f
        → OnOk result (line.new.items ≡ line.old.items ++ blank_before_each (launch_words f)) }
{
    match fault {
        LaunchFault::SegmentOutside { part, space, index } => {
            add_part(line, b"SegmentOutside", part_name(parts, part))?;
            add_space(line, space)?;
            add_number_word(line, index)
        }
        LaunchFault::StartTrapped { part, code } => {
            add_part(line, b"StartTrapped", part_name(parts, part))?;
            add_word(line, trap_word(code))
        }
        LaunchFault::StartUnfinished { part } => {
            add_part(line, b"StartUnfinished", part_name(parts, part))
        }
        LaunchFault::NoMemory => Ok(()),
    }
}

/// The line for a set that isn't launched.
pub fn launch_line(
    alloc: Global,
    parts: &[LoadedPart],
    fault: LaunchFault,
) -> Result<Vec<u8>, AllocError>
    ensures { (set : List Part) (f : Launched.LaunchFault) → AreNamed (set_of set) parts.now → fault ≢ NoMemory
        → TellsFault set fault f → IfOk result (λ line. line.items ≡ launch_line f) }
{
    let mut line = Vec::from_slice(alloc, b"refused launch")?;
    add_launch_fault(&mut line, parts, fault)?;
    line.push(b'\n')?;
    Ok(line)
}

/// The lines of a move: those of its events in their order, and then that of its reply.
pub fn move_text(alloc: Global, events: &[Event], reply: &Reply) -> Result<Vec<u8>, AllocError>
    ensures { IfOk result (λ text. text.items ≡ told_line (record { events = events.now; reply = reply.now })) }
{
    let mut text = Vec::new(alloc);
    'events: for event in events {
        event_text(event, &mut text)?;
    }
    reply_text(reply, &mut text)?;
    Ok(text)
}
