use crate::cases::{module_bytes, numbered, valid_module};
use ctw_links::collect;
use ctw_marks::read_marks;
use ctw_sites::Witness;
use ctw_witness::check_witness;
use std::alloc::Global;
use std::process::Abort;

/// A load at a parameter: a function of type (i32) to (i32), and a memory. Its sites are the parameter, the result, the
/// memory and two pushes.
const LOAD: &str = "01060160017F017F 03020100 0503010001 0A0901070020002802000B";

/// Sites, rules, a last reason, and whether these are a flow with its least rules.
const FLOWS: [(&[u32], &[u8], u8, bool); 11] = [
    (&[0, 3], &[1], 15, true),
    // Another rule, and another last reason.
    (&[0, 3], &[10], 15, false),
    (&[0, 3], &[0], 15, false),
    (&[0, 3], &[1], 13, false),
    (&[0, 3], &[1], 255, false),
    // A first site that isn't secret.
    (&[3], &[], 15, false),
    (&[2, 3], &[1], 15, false),
    // A last site that isn't public.
    (&[0], &[], 15, false),
    (&[0], &[], 255, false),
    // No link, and no site.
    (&[0, 4], &[1], 15, false),
    (&[0, 5], &[1], 15, false),
];

/// A witness with these sites, rules and last reason.
fn witness_of(rt: &impl Abort, alloc: Global, sites: &[u32], rules: &[u8], last: u8) -> Witness {
    assert!(rt; !sites.is_empty() && sites.len() < 1000);
    assert!(rt; rules.len() + 1 == sites.len());
    let sites = Vec::from_slice(alloc, sites).expect(rt, "memory");
    let rules = Vec::from_slice(alloc, rules).expect(rt, "memory");
    Witness::new(sites, rules, last)
}

#[test]
fn flows_with_their_least_rules_are_told_from_others(rt: HostRuntime) {
    let bytes = module_bytes(&rt, rt.alloc(), LOAD);
    let m = valid_module(&rt, rt.alloc(), &bytes);
    let s = numbered(&rt, rt.alloc(), &m);
    let marks = read_marks(rt.alloc(), "secret param 0 0", &m).expect(&rt, "marks");
    let links = collect(rt.alloc(), &m, &s, marks.points()).expect(&rt, "memory");
    for (sites, rules, last, yes) in FLOWS {
        let w = witness_of(&rt, rt.alloc(), sites, rules, last);
        assert_eq!(rt; check_witness(&m, &s, &links, &marks, &w), yes);
    }
}
