//! Reads scripts of 1 MiB and makes event lines, for bench/script to measure. The words are how many times the script
//! is read, how many times a million event lines are made, and the lines that the script repeats.
#![tactic(auto)]

ghost use Rattle.std.specs.Prelude.{◌<◌, ◌^◌, length};

use anyhow::bail;
use ctw_script::{Event, ScriptFault, event_text, read_script};
use std::alloc::{AllocError, Global};
use std::env;

/// The greatest size of the script, in bytes.
const SIZE: usize = 1_048_576;

/// How many event lines are made at once.
const LINES: u32 = 1_000_000;

/// The lines, over and over, as often as 1 MiB has room for them.
fn script_of(alloc: Global, lines: &[String]) -> Result<String, AllocError> {
    let mut once = String::new(alloc);
    'lines: for line in lines {
        once.push_str(line.as_str())?;
        once.push('\n')?;
    }
    let mut text = String::new(alloc);
    if once.is_empty() {
        return Ok(text);
    }
    let times = SIZE / once.len();
    'times: for _ in 0..times {
        text.push_str(once.as_str())?;
    }
    Ok(text)
}

/// How many moves a script has.
fn count_moves(alloc: Global, text: &str) -> Result<u32, ScriptFault>
    requires { length text.now < 2 ^ 32 }
{
    let moves = read_script(alloc, text)?;
    Ok(moves.count())
}

/// One of the events that a running call may show.
fn event(k: u32) -> Event {
    let at = u64::from(k);
    match k % 8 {
        0 => Event::Branch { taken: k % 3 == 0 },
        1 => Event::Load {
            mem: 0,
            at,
            bytes: 4,
        },
        2 => Event::Store {
            mem: 0,
            at,
            bytes: 8,
        },
        3 => Event::Enter { func: k % 1_000 },
        4 => Event::Indirect {
            index: k % 100,
            func: Some(k % 1_000),
        },
        5 => Event::Divide { a: at, b: 7 },
        6 => Event::Table { index: k % 10 },
        _ => Event::Load {
            mem: 0,
            at,
            bytes: 1,
        },
    }
}

/// How long a million event lines are together.
fn lines_length(alloc: Global) -> Result<u64, AllocError> {
    let mut text = Vec::new(alloc);
    'events: for k in 0..LINES {
        event_text(&event(k), &mut text)?;
    }
    Ok(text.len() as u64)
}

fn main(rt: HostRuntime) -> anyhow::Result<()> {
    let mut words = Vec::new(rt.alloc());
    for word in env::args(&rt)?.skip(1) {
        words.push(word)?;
    }
    let [reads, events, lines @ ..] = words.as_slice() else {
        bail!("usage: script_speed READS EVENTS LINE..");
    };
    let reads = reads.parse::<u32>()?;
    let events = events.parse::<u32>()?;
    let text = script_of(rt.alloc(), lines)?;
    if text.len() > SIZE {
        bail!("more than 1 MiB");
    }
    let mut sum = 0u64;
    'reads: for _ in 0..reads {
        let count = count_moves(rt.alloc(), text.as_str())?;
        sum = sum.wrapping_add(count as u64);
    }
    'makes: for _ in 0..events {
        let length = lines_length(rt.alloc())?;
        sum = sum.wrapping_add(length);
    }
    println!(rt; "{sum}")?;
    Ok(())
}
