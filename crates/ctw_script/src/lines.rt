// The lines that tell replies and events.
ghost use Rattle.std.specs.Prelude.{◌≡◌, ℕ, ◌++◌, ◌∷◌, ◌<◌, take, length, OnOk, OnErr};
ghost use Rattle.ctw_script.specs.declared.reply.Reply.TheVariants.{Done};
ghost use Rattle.ctw_script.specs.Lines.{reply_line, event_line, width_word, trap_word, refusal_word, hex_digit, hex_digits, spaced, blank_before_each, shown_number};
ghost use Rattle.ctw_ops.specs.declared.types.Label.TheVariants.{Secret};
ghost use Rattle.ctw_ops.specs.declared.types.Width.{Width as AWidth};
ghost use Rattle.ctw_script.specs.declared.reply.Reply.{Reply as AReply};
ghost use Rattle.ctw_script.specs.Ranges.{IsInRange};
ghost use Rattle.ctw_script.specs.WordTexts.{word_text, words_texts};

use crate::event::Event;
use crate::reply::{Refusal, Reply, Shown};
use crate::trap::TrapCode;
use ctw_ops::Width;
use itoa::Buffer;
use std::alloc::AllocError;

// A word of a line: its text, a number in decimal digits, or two hexadecimal digits for each byte.
#[derive(Clone, Copy)]
enum Word<'a> {
    Plain(&'a [u8]),
    Number(u64),
    Hexadecimal(&'a [u8]),
}

fn width_word(width: Width) -> &'static [u8]
    ensures { result.now ≡ width_word width }
{
    match width {
        Width::W32 => b"i32",
        Width::W64 => b"i64",
    }
}

/// The word that tells why a call traps.
pub fn trap_word(code: TrapCode) -> &'static [u8]
    ensures { result.now ≡ trap_word code }
{
    match code {
        TrapCode::Unreachable => b"Unreachable",
        TrapCode::DivZero => b"DivZero",
        TrapCode::DivOverflow => b"DivOverflow",
        TrapCode::MemoryBounds => b"MemoryBounds",
        TrapCode::TableBounds => b"TableBounds",
        TrapCode::EmptyEntry => b"EmptyEntry",
        TrapCode::CallType => b"CallType",
        TrapCode::Exhausted => b"Exhausted",
    }
}

fn refusal_word(why: Refusal) -> &'static [u8]
    ensures { result.now ≡ refusal_word why }
{
    match why {
        Refusal::NoExport => b"NoExport",
        Refusal::BadArgs => b"BadArgs",
        Refusal::SlotBusy => b"SlotBusy",
        Refusal::SlotFree => b"SlotFree",
        Refusal::NoMemoryExport => b"NoMemoryExport",
        Refusal::Bounds => b"Bounds",
        Refusal::WrongLabel => b"WrongLabel",
        Refusal::VaultShort => b"VaultShort",
        Refusal::TurnTooLong => b"TurnTooLong",
        Refusal::SealedFull => b"SealedFull",
    }
}

fn hexadecimal_digit(n: u8) -> u8
    requires { n < 16 }
    ensures { result ≡ hex_digit n }
{
    if n < 10 { b'0' + n } else { b'a' - 10 + n }
}

fn add_hexadecimal(out: &mut Vec<u8>, bytes: &[u8]) -> Result<(), AllocError>
    ensures appended { OnOk result (out.new.items ≡ out.old.items ++ hex_digits bytes.now) }
    ensures kept { take (length out.old.items) out.new.items ≡ out.old.items }
{
    for b in bytes {
        out.extend_from_slice(&[hexadecimal_digit(*b / 16), hexadecimal_digit(*b % 16)])?;
    }
    Ok(())
}

fn add_word(out: &mut Vec<u8>, word: Word) -> Result<(), AllocError>
    ensures appended { OnOk result (out.new.items ≡ out.old.items ++ word_text word.entry) }
    ensures kept { take (length out.old.items) out.new.items ≡ out.old.items }
{
    match word {
        Word::Plain(text) => out.extend_from_slice(text),
        Word::Number(n) => {
            let mut buffer = Buffer::new();
            out.extend_from_slice(buffer.format(n).as_bytes())
        }
        Word::Hexadecimal(bytes) => add_hexadecimal(out, bytes),
    }
}

// Each word behind a blank.
fn add_words(out: &mut Vec<u8>, words: &[Word]) -> Result<(), AllocError>
    ensures appended { OnOk result (out.new.items ≡ out.old.items ++ blank_before_each (words_texts words.now)) }
    ensures kept { take (length out.old.items) out.new.items ≡ out.old.items }
{
    for word in words {
        out.push(b' ')?;
        add_word(out, *word)?;
    }
    Ok(())
}

// A word, others behind it, and a line feed.
fn add_spaced(out: &mut Vec<u8>, first: &[u8], words: &[Word]) -> Result<(), AllocError>
    ensures appended { OnOk result (out.new.items ≡ out.old.items ++ spaced (first.now ∷ words_texts words.now)) }
    ensures kept { take (length out.old.items) out.new.items ≡ out.old.items }
{
    out.extend_from_slice(first)?;
    add_words(out, words)?;
    out.push(b'\n')?;
    Ok(())
}

// The same, or nothing.
fn add_line(out: &mut Vec<u8>, first: &[u8], words: &[Word]) -> Result<(), AllocError>
    ensures appended { OnOk result (out.new.items ≡ out.old.items ++ spaced (first.now ∷ words_texts words.now)) }
    ensures kept { OnErr result (out.new.items ≡ out.old.items) }
{
    let before = out.len();
    let written = add_spaced(out, first, words);
    if written.is_err() {
        out.truncate(before);
    }
    written
}

fn done_text(steps: u32, shown: Shown, out: &mut Vec<u8>) -> Result<(), AllocError>
    ensures appended { OnOk result (out.new.items ≡ out.old.items ++ reply_line (Done steps shown)) }
    ensures kept { OnErr result (out.new.items ≡ out.old.items) }
{
    let steps = Word::Number(u64::from(steps));
    match shown {
        Shown::Nothing => add_line(out, b"done", &[steps]),
        Shown::Number { width, bits } => add_line(
            out,
            b"done",
            &[steps, Word::Plain(width_word(width)), Word::Number(bits)],
        ),
        Shown::Secret => add_line(out, b"done", &[steps, Word::Plain(b"secret")]),
    }
}

/// Appends the line of a reply: its word, what belongs to it behind blanks, and a line feed. A secret result is told as
/// `done N secret`, whatever its number is.
///
/// The only error is want of memory, which leaves what `out` holds as before.
pub fn reply_text(r: &Reply, out: &mut Vec<u8>) -> Result<(), AllocError>
    ensures appended { OnOk result (out.new.items ≡ out.old.items ++ reply_line r.now) }
    ensures kept { OnErr result (out.new.items ≡ out.old.items) }
{
    match r {
        Reply::Began => add_line(out, b"began", &[]),
        Reply::More { steps } => add_line(out, b"more", &[Word::Number(u64::from(*steps))]),
        Reply::Done { steps, result } => done_text(*steps, *result, out),
        Reply::Trap { steps, code } => add_line(
            out,
            b"trap",
            &[
                Word::Number(u64::from(*steps)),
                Word::Plain(trap_word(*code)),
            ],
        ),
        Reply::Dropped => add_line(out, b"dropped", &[]),
        Reply::Wrote => add_line(out, b"wrote", &[]),
        Reply::Bytes(bytes) => add_line(out, b"bytes", &[Word::Hexadecimal(bytes.as_slice())]),
        Reply::Sealed => add_line(out, b"sealed", &[]),
        Reply::Revealed { count } => {
            add_line(out, b"revealed", &[Word::Number(u64::from(*count))])
        }
        Reply::Refused(why) => add_line(out, b"refused", &[Word::Plain(refusal_word(*why))]),
    }
}

/// Appends the line of an event: its word, its numbers behind blanks, and a line feed.
///
/// The only error is want of memory, which leaves what `out` holds as before.
pub fn event_text(e: &Event, out: &mut Vec<u8>) -> Result<(), AllocError>
    ensures appended { OnOk result (out.new.items ≡ out.old.items ++ event_line e.now) }
    ensures kept { OnErr result (out.new.items ≡ out.old.items) }
{
    match *e {
        Event::Branch { taken } => {
            let bit: &[u8] = if taken { b"1" } else { b"0" };
            add_line(out, b"branch", &[Word::Plain(bit)])
        }
        Event::Table { index } => add_line(out, b"table", &[Word::Number(u64::from(index))]),
        Event::Enter { func } => add_line(out, b"enter", &[Word::Number(u64::from(func))]),
        Event::Indirect { index, func } => {
            let index = Word::Number(u64::from(index));
            match func {
                Some(func) => {
                    add_line(out, b"indirect", &[index, Word::Number(u64::from(func))])
                }
                None => add_line(out, b"indirect", &[index, Word::Plain(b"-")]),
            }
        }
        Event::Load { mem, at, bytes } => add_line(
            out,
            b"load",
            &[
                Word::Number(u64::from(mem)),
                Word::Number(at),
                Word::Number(u64::from(bytes)),
            ],
        ),
        Event::Store { mem, at, bytes } => add_line(
            out,
            b"store",
            &[
                Word::Number(u64::from(mem)),
                Word::Number(at),
                Word::Number(u64::from(bytes)),
            ],
        ),
        Event::Grow { pages } => add_line(out, b"grow", &[Word::Number(u64::from(pages))]),
        Event::Divide { a, b } => { add_line(out, b"divide", &[Word::Number(a), Word::Number(b)]) }
    }
}

/// Replies of one line are equal: a secret result, whose number no reply holds, has the line `done N secret`.
pub fn lines_tell_replies_apart()
    ensures replies { (a b : AReply) → IsInRange a → IsInRange b → reply_line a ≡ reply_line b → a ≡ b }
    ensures secrets { (steps : ℕ) (width : AWidth) (m n : ℕ) →
        reply_line (Done steps (shown_number Secret width m)) ≡
        reply_line (Done steps (shown_number Secret width n)) }
{}
