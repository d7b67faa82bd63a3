use ctw_ops::{Octets, Width};
use ctw_script::{
    Arg, Event, Move, Refusal, Reply, ScriptFault, Shown, Slot64, TrapCode, argument, event_text,
    read_script, reply_text,
};
use std::alloc::{AllocError, Global};

/// A move as its variant and its fields.
fn written(alloc: Global, mv: &Move) -> Result<String, AllocError> {
    match mv {
        Move::Begin {
            slot,
            part,
            export,
            args,
        } => {
            let mut out = format!(in alloc;
                "begin {} {} {}",
                slot.get(),
                part.as_str(),
                export.as_str()
            )?;
            for arg in args.as_slice() {
                match arg {
                    Arg::Number { neg, size } => out.push_str(&format!(in alloc;
                        " {neg} {size}"
                    )?)?,
                    Arg::Vault => out.push_str(" *")?,
                }
            }
            Ok(out)
        }
        Move::Turn { slot, steps } => format!(in alloc; "turn {} {steps}", slot.get()),
        Move::Leave { slot } => format!(in alloc; "leave {}", slot.get()),
        Move::Poke {
            part,
            memory,
            at,
            bytes,
        } => format!(in alloc;
            "poke {} {} {at} {:?}",
            part.as_str(),
            memory.as_str(),
            bytes.as_slice()
        ),
        Move::Peek {
            part,
            memory,
            at,
            count,
        } => format!(in alloc; "peek {} {} {at} {count}", part.as_str(), memory.as_str()),
        Move::Seal {
            part,
            memory,
            at,
            count,
        } => format!(in alloc; "seal {} {} {at} {count}", part.as_str(), memory.as_str()),
        Move::Reveal {
            part,
            memory,
            at,
            count,
        } => format!(in alloc; "reveal {} {} {at} {count}", part.as_str(), memory.as_str()),
    }
}

/// The moves of a script, each behind the one before, or why it isn't read.
fn moves_of(alloc: Global, text: &str) -> Result<String, AllocError> {
    let mut out = String::new(alloc);
    if text.len() > 1000 {
        return Ok(out);
    }
    match read_script(alloc, text) {
        Ok(moves) => {
            for i in 0..moves.count() {
                out.push_str(&written(alloc, moves.at(i))?)?;
                out.push_str(";")?;
            }
        }
        Err(ScriptFault::Line { line }) => out.push_str(&format!(in alloc; "Line {line}")?)?,
        Err(ScriptFault::Lex { line }) => out.push_str(&format!(in alloc; "Lex {line}")?)?,
        Err(ScriptFault::NoMemory) => return Err(AllocError),
    }
    Ok(out)
}

#[test]
fn scripts_have_these_moves(rt: HostRuntime) {
    let alloc = rt.alloc();
    let rows = [
        ("", ""),
        ("\n ;; turn 0 1\n(; drop 1\n;)\n", ""),
        // slots and steps at the ends of their ranges
        ("turn 0 0", "turn 0 0;"),
        ("turn 63 4294967295\n", "turn 63 4294967295;"),
        ("turn 0x3f 0xffff_ffff", "turn 63 4294967295;"),
        ("drop 0_7", "leave 7;"),
        // arguments
        ("begin 0 \"m\" \"f\"", "begin 0 m f;"),
        ("begin 0 \"\" \"\" *", "begin 0   *;"),
        (
            "begin 1 \"m\" \"f\" -0 +7 0 -9223372036854775808 18446744073709551615 -0x8000_0000_0000_0000 *",
            "begin 1 m f true 0 false 7 false 0 true 9223372036854775808 false 18446744073709551615 true 9223372036854775808 *;",
        ),
        // names and bytes
        (
            "peek \"\\u{e9}\" \"\\c3\\a9\" 4294967295 1048576",
            "peek \u{e9} \u{e9} 4294967295 1048576;",
        ),
        (
            "poke \"m\" \"mem\" 65535 \"\\01\\ff\"",
            "poke m mem 65535 [1, 255];",
        ),
        ("poke \"m\" \"mem\" 0 \"\"", "poke m mem 0 [];"),
        ("seal \"m\" \"mem\" 0 64", "seal m mem 0 64;"),
        ("reveal \"m\" \"mem\" 0 0", "reveal m mem 0 0;"),
        // what stands behind a comment over lines is on a later line, and no blank is needed
        ("turn(;a\nb;)0 1", "Line 1"),
        ("peek\"m\"\"mem\"0 1;;\ndrop 0", "peek m mem 0 1;leave 0;"),
        ("drop 0(;\n;)\ndrop 1", "leave 0;leave 1;"),
    ];
    for (text, want) in rows {
        let given = moves_of(alloc, text).expect(&rt, "memory");
        assert_eq!(rt; given.as_str(), want, "{text}");
    }
}

#[test]
fn scripts_without_a_reading_have_these_faults(rt: HostRuntime) {
    let rows = [
        // the two scripts of a row: a second line that is no move
        ("begin 0 \"m\" \"f\" *\njump 0", "Line 2"),
        ("\n\njump", "Line 3"),
        ("turn 64 1", "Line 1"),
        ("turn 0 4294967296", "Line 1"),
        ("turn 0 0x1_0000_0000", "Line 1"),
        ("turn 0 99999999999999999999999999", "Line 1"),
        ("turn 0", "Line 1"),
        ("turn 0 1 2", "Line 1"),
        ("turn +0 1", "Line 1"),
        ("turn 0 -1", "Line 1"),
        ("turn 0 1_", "Line 1"),
        ("turn 0 1__0", "Line 1"),
        ("turn 0 0x", "Line 1"),
        ("turn 0 0X1", "Line 1"),
        ("Turn 0 1", "Line 1"),
        ("\"turn\" 0 1", "Line 1"),
        ("turn \"0\" 1", "Line 1"),
        ("(turn 0 1)", "Line 1"),
        ("turn 0\n1", "Line 1"),
        ("drop", "Line 1"),
        ("begin 0 m \"f\"", "Line 1"),
        ("begin 0 \"\\ff\" \"f\"", "Line 1"),
        ("begin 0 \"m\"", "Line 1"),
        ("begin 0 \"m\" \"f\" **", "Line 1"),
        ("begin 0 \"m\" \"f\" \"*\"", "Line 1"),
        ("begin 0 \"m\" \"f\" -9223372036854775809", "Line 1"),
        ("begin 0 \"m\" \"f\" 18446744073709551616", "Line 1"),
        ("begin 0 \"m\" \"f\" +-1", "Line 1"),
        ("peek \"m\" \"mem\" 4294967296 0", "Line 1"),
        ("peek \"m\" \"mem\" 0 1048577", "Line 1"),
        ("seal \"m\" \"mem\" 0", "Line 1"),
        ("reveal \"m\" \"mem\" 0 1 1", "Line 1"),
        ("poke \"m\" \"mem\" 0 1", "Line 1"),
        // the first bad line counts, and its number is that of its first token
        ("drop 0\n(;\n;) drop\njump", "Line 3"),
        // lexing covers the whole text first
        ("jump\n,", "Lex 2"),
        ("jump\n\n\"a\nb", "Lex 3"),
        ("drop 0\n(;\n(;;)", "Lex 2"),
        ("\u{feff}drop 0", "Lex 1"),
    ];
    for (text, want) in rows {
        let given = moves_of(rt.alloc(), text).expect(&rt, "memory");
        assert_eq!(rt; given.as_str(), want, "{text}");
    }
}

#[test]
fn replies_have_these_lines(rt: HostRuntime) {
    let alloc = rt.alloc();
    let done = |steps: u32, shown: Shown| Reply::Done {
        steps,
        result: shown,
    };
    let number = |width: Width, bits: u64| Shown::Number { width, bits };
    let rows = [
        (Reply::Began, "began\n"),
        (Reply::More { steps: 0 }, "more 0\n"),
        (done(4, Shown::Nothing), "done 4\n"),
        (
            done(3, number(Width::W32, 4294967295)),
            "done 3 i32 4294967295\n",
        ),
        (
            done(3, number(Width::W64, 18446744073709551615)),
            "done 3 i64 18446744073709551615\n",
        ),
        (done(4, Shown::Secret), "done 4 secret\n"),
        (
            Reply::Trap {
                steps: 1000000,
                code: TrapCode::Exhausted,
            },
            "trap 1000000 Exhausted\n",
        ),
        (
            Reply::Trap {
                steps: 1,
                code: TrapCode::Unreachable,
            },
            "trap 1 Unreachable\n",
        ),
        (
            Reply::Trap {
                steps: 1,
                code: TrapCode::DivZero,
            },
            "trap 1 DivZero\n",
        ),
        (
            Reply::Trap {
                steps: 3,
                code: TrapCode::DivOverflow,
            },
            "trap 3 DivOverflow\n",
        ),
        (
            Reply::Trap {
                steps: 2,
                code: TrapCode::MemoryBounds,
            },
            "trap 2 MemoryBounds\n",
        ),
        (
            Reply::Trap {
                steps: 2,
                code: TrapCode::TableBounds,
            },
            "trap 2 TableBounds\n",
        ),
        (
            Reply::Trap {
                steps: 2,
                code: TrapCode::EmptyEntry,
            },
            "trap 2 EmptyEntry\n",
        ),
        (
            Reply::Trap {
                steps: 2,
                code: TrapCode::CallType,
            },
            "trap 2 CallType\n",
        ),
        (Reply::Dropped, "dropped\n"),
        (Reply::Wrote, "wrote\n"),
        (
            Reply::Bytes(Octets::new([0x05, 0x00, 0xAF].to_vec(alloc).expect(&rt, "memory"))),
            "bytes 0500af\n",
        ),
        (Reply::Bytes(Octets::new(Vec::new(alloc))), "bytes \n"),
        (Reply::Sealed, "sealed\n"),
        (Reply::Revealed { count: 1048576 }, "revealed 1048576\n"),
        (Reply::Refused(Refusal::NoExport), "refused NoExport\n"),
        (Reply::Refused(Refusal::BadArgs), "refused BadArgs\n"),
        (Reply::Refused(Refusal::SlotBusy), "refused SlotBusy\n"),
        (Reply::Refused(Refusal::SlotFree), "refused SlotFree\n"),
        (
            Reply::Refused(Refusal::NoMemoryExport),
            "refused NoMemoryExport\n",
        ),
        (Reply::Refused(Refusal::Bounds), "refused Bounds\n"),
        (Reply::Refused(Refusal::WrongLabel), "refused WrongLabel\n"),
        (Reply::Refused(Refusal::VaultShort), "refused VaultShort\n"),
        (
            Reply::Refused(Refusal::TurnTooLong),
            "refused TurnTooLong\n",
        ),
        (Reply::Refused(Refusal::SealedFull), "refused SealedFull\n"),
    ];
    for (reply, want) in &rows {
        let mut out = Vec::new(alloc);
        reply_text(reply, &mut out).expect(&rt, "memory");
        assert_eq!(rt; out.as_slice(), want.as_bytes(), "line {want}");
    }
}

#[test]
fn events_have_these_lines(rt: HostRuntime) {
    let rows = [
        (Event::Branch { taken: false }, "branch 0\n"),
        (Event::Branch { taken: true }, "branch 1\n"),
        (Event::Table { index: 7 }, "table 7\n"),
        (Event::Enter { func: 0 }, "enter 0\n"),
        (
            Event::Indirect {
                index: 2,
                func: Some(5),
            },
            "indirect 2 5\n",
        ),
        (
            Event::Indirect {
                index: 4294967295,
                func: None,
            },
            "indirect 4294967295 -\n",
        ),
        (
            Event::Load {
                mem: 0,
                at: 8589934590,
                bytes: 4,
            },
            "load 0 8589934590 4\n",
        ),
        (
            Event::Store {
                mem: 0,
                at: 1,
                bytes: 1,
            },
            "store 0 1 1\n",
        ),
        (Event::Grow { pages: 1 }, "grow 1\n"),
        (
            Event::Divide {
                a: 2147483648,
                b: 18446744073709551615,
            },
            "divide 2147483648 18446744073709551615\n",
        ),
    ];
    let mut out = Vec::new(rt.alloc());
    for (event, want) in &rows {
        out.clear();
        event_text(event, &mut out).expect(&rt, "memory");
        assert_eq!(rt; out.as_slice(), want.as_bytes(), "line {want}");
    }
}

#[test]
fn slots_and_argument_words_have_these_values(rt: HostRuntime) {
    assert_eq!(rt; Slot64::new(63).map(|slot| slot.get()), Some(63));
    assert_eq!(rt; Slot64::new(64).map(|slot| slot.get()), None);
    assert_eq!(rt; argument("*"), Some(Arg::Vault));
    assert_eq!(rt;
        argument("-2147483648"),
        Some(Arg::Number {
            neg: true,
            size: 2147483648
        })
    );
    assert_eq!(rt; argument(""), None);
}
