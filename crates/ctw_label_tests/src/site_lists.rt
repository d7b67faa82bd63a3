use crate::cases::{THREE, module_bytes, numbered, row_bytes, valid_module};
use ctw_labels::SiteName;
use ctw_sites::{Sites, SitesFault};
use ctw_tests::{answer, bytes_of};
use ctw_witness::add_site;
use std::alloc::{AllocError, Global};
use std::process::Abort;

/// Sections of plain modules, and their sites in order: the name of each, and the site that a push takes its label
/// from.
const SITES: &str = "\
three functions: 01060160017F017F 030403000000 0A1003040020000B040020000B040020000B => param 0 0; result 0; param 1 0; result 1; param 2 0; result 2; push 0 0 of 0; push 1 0 of 2; push 2 0 of 4;
each kind: 01060160017F017F 020701016D01660000 03020100 040401700002 0503010001 0606017F0041000B 0A24012201027F200022011A027F410141026A41001100000B20020D001A230040002802000B => param 0 0; result 0; param 1 0; result 1; global 0; memory; local 1 1; local 1 2; push 1 0 of 2; push 1 1 of 6; block 1 3; push 1 3 of 10; push 1 4; push 1 5; op 1 6; push 1 6 of 14; push 1 7; iparam 1 8 0; iresult 1 8; push 1 8 of 18; push 1 10 of 7; push 1 11 of 3; push 1 13 of 4; push 1 14; push 1 15 of 5;
dead code: 0105016000017F 03020100 0A0B010900001B410141021B0B => result 0; op 0 1; push 0 2; push 0 3; op 0 4; push 0 4 of 4;
";

/// The sites in order.
fn listed(alloc: Global, s: &Sites) -> Result<String, AllocError> {
    let mut out = String::new(alloc);
    for site in 0..s.count() {
        if site > 0 {
            out.push_str(" ")?;
        }
        add_site(&mut out, s.name(site))?;
        if let Some(from) = s.yield_of(site) {
            out.push_str(&format!(in alloc; " of {from}")?)?;
        }
        out.push_str(";")?;
    }
    Ok(out)
}

#[test]
fn sites_are_numbered_in_order(rt: HostRuntime) {
    for row in SITES.lines() {
        let bytes = row_bytes(&rt, rt.alloc(), row);
        let m = valid_module(&rt, rt.alloc(), &bytes);
        let s = numbered(&rt, rt.alloc(), &m);
        let text = listed(rt.alloc(), &s).expect(&rt, "memory");
        assert_eq!(rt; text.as_str(), answer(row), "{row}");
    }
}

#[test]
fn a_name_has_its_site_alone(rt: HostRuntime) {
    for row in SITES.lines() {
        let bytes = row_bytes(&rt, rt.alloc(), row);
        let m = valid_module(&rt, rt.alloc(), &bytes);
        let s = numbered(&rt, rt.alloc(), &m);
        for site in 0..s.count() {
            assert_eq!(rt; s.site_of(s.name(site)), Some(site), "{row}");
        }
    }
}

#[test]
fn other_names_have_no_site(rt: HostRuntime) {
    let bytes = module_bytes(&rt, rt.alloc(), THREE);
    let m = valid_module(&rt, rt.alloc(), &bytes);
    let s = numbered(&rt, rt.alloc(), &m);
    for name in [
        SiteName::Param { f: 0, i: 1 },
        SiteName::Param { f: 3, i: 0 },
        SiteName::Result { f: 3 },
        SiteName::GlobalOf { g: 0 },
        SiteName::Memory,
        SiteName::Local { f: 0, i: 0 },
        SiteName::Op { f: 0, at: 0 },
        SiteName::Push { f: 0, at: 1 },
        SiteName::Push { f: 3, at: 0 },
    ] {
        assert!(rt; s.site_of(name).is_none());
    }
}

/// Times, and the bytes that stand there so often, in hexadecimal digits.
type Piece = (u32, &'static str);

/// A plain module that imports 16,777 functions of 1,000 parameters and one of 216, by pieces: 16,777,216 sites.
const MANY: [Piece; 7] = [
    (1, "00 61 73 6D 01 00 00 00 01 C9 09 02 60 E8 07"),
    (1000, "7F"),
    (1, "00 60 D8 01"),
    (216, "7F"),
    (1, "00 02 AB 8C 04 8A 83 01"),
    (16_777, "00 00 00 00"),
    (1, "00 00 00 01"),
];

/// The bytes of pieces.
fn joined(rt: &impl Abort, alloc: Global, pieces: &[Piece]) -> Vec<u8> {
    let mut bytes = Vec::new(alloc);
    for (times, digits) in pieces {
        let piece = bytes_of(alloc, *digits).expect(rt, "memory");
        for _ in 0..*times {
            bytes.extend_from_slice(&piece).expect(rt, "memory");
        }
    }
    bytes
}

/// How many sites a plain module has, or why they aren't numbered.
fn counted(rt: &impl Abort, alloc: Global, bytes: &[u8]) -> Result<u32, SitesFault> {
    let m = valid_module(rt, alloc, bytes);
    let s = Sites::of(alloc, &m)?;
    Ok(s.count())
}

#[test]
fn sites_are_counted_up_to_their_limit_and_behind_it(rt: HostRuntime) {
    let mut bytes = joined(&rt, rt.alloc(), &MANY);
    assert_eq!(rt; counted(&rt, rt.alloc(), &bytes), Ok(16_777_216));
    let memory = bytes_of(rt.alloc(), "05 03 01 00 01").expect(&rt, "memory");
    bytes.extend_from_slice(&memory).expect(&rt, "memory");
    let fault = SitesFault::TooManySites { count: 16_777_217 };
    assert_eq!(rt; counted(&rt, rt.alloc(), &bytes), Err(fault));
}
