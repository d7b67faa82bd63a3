ghost use Rattle.std.specs.Prelude.{◌≡◌, length};

use crate::cases::{THREE, module_bytes, numbered, points_of, valid_module};
use ctw_marks::read_marks;
use ctw_ops::Label;
use ctw_place::{is_orderly, place};
use ctw_sites::{Labelling, Points, Sites};
use ctw_tests::bytes_of;
use std::alloc::Global;
use std::process::Abort;

/// The three functions as a CT module, the second one from secret to secret: 47 bytes.
const SECOND_IS_SECRET: &str = "\
00 61 73 6D 01 00 43 54 01 0D 02 60 01 7F 01 7F 62 00 00 01 7A 01 7A 03 04 03 00 01 00 \
0A 10 03 04 00 20 00 0B 04 00 20 00 0B 04 00 20 00 0B";

/// A function of type (i32) to (i32) that gives the lowest bit of its argument, exported as `bit`.
const BIT: &str = "01060160017F017F 03020100 07070103626974 0000 0A0901070020004101710B";

/// The same as a CT module whose argument is secret, and whose operation is released: 50 bytes.
const BIT_IS_RELEASED: &str = "\
00 61 73 6D 01 00 43 54 01 0D 02 60 01 7F 01 7F 62 00 01 01 7A 01 7F 03 02 01 01 07 07 01 03 62 69 74 00 00 \
0A 0C 01 0A 00 20 00 E0 41 01 E0 71 E3 0B";

/// A labelling by which these sites are secret and all others public.
fn labelled(rt: &impl Abort, alloc: Global, s: &Sites, secret: &[u32]) -> Labelling
    ensures { length result ≡ length s.now }
{
    let mut l = Labelling::new(alloc, s).expect(rt, "memory");
    for site in secret {
        assert!(rt; *site < s.count());
        l.set(*site, Label::Secret);
    }
    l
}

#[test]
fn a_labelling_is_orderly_where_no_push_drops_a_secret(rt: HostRuntime) {
    let bytes = module_bytes(&rt, rt.alloc(), THREE);
    let m = valid_module(&rt, rt.alloc(), &bytes);
    let s = numbered(&rt, rt.alloc(), &m);
    let p = Points::new(rt.alloc());
    let tables: [(&[u32], bool); 5] = [
        (&[], true),
        (&[2, 3, 7], true),
        (&[7], true),
        (&[2, 3], false),
        (&[2, 6, 8], false),
    ];
    for (secret, yes) in tables {
        let l = labelled(&rt, rt.alloc(), &s, secret);
        assert_eq!(rt; is_orderly(&m, &s, &p, &l), yes);
    }
}

#[test]
fn a_secret_function_names_a_variant(rt: HostRuntime) {
    let bytes = module_bytes(&rt, rt.alloc(), THREE);
    let m = valid_module(&rt, rt.alloc(), &bytes);
    let s = numbered(&rt, rt.alloc(), &m);
    let p = Points::new(rt.alloc());
    let l = labelled(&rt, rt.alloc(), &s, &[2, 3, 7]);
    let placed = place(rt.alloc(), &m, &s, &p, &l).expect(&rt, "memory");
    let wanted = bytes_of(rt.alloc(), SECOND_IS_SECRET).expect(&rt, "memory");
    assert!(rt; placed.len() == 47);
    assert!(rt; placed.as_slice() == wanted.as_slice());
}

#[test]
fn a_push_drops_a_secret_where_it_is_released(rt: HostRuntime) {
    let bytes = module_bytes(&rt, rt.alloc(), BIT);
    let m = valid_module(&rt, rt.alloc(), &bytes);
    let s = numbered(&rt, rt.alloc(), &m);
    let l = labelled(&rt, rt.alloc(), &s, &[0, 2, 3, 4]);
    let tables: [(&[u32], &[(u32, u32)], bool); 4] = [
        (&[], &[], false),
        (&[0], &[], false),
        (&[0], &[(0, 0)], false),
        (&[0], &[(0, 2)], true),
    ];
    for (trusted, releases, yes) in tables {
        let p = points_of(&rt, rt.alloc(), trusted, releases);
        assert_eq!(rt; is_orderly(&m, &s, &p, &l), yes);
    }
}

#[test]
fn a_released_push_has_a_declassify_behind_it(rt: HostRuntime) {
    let bytes = module_bytes(&rt, rt.alloc(), BIT);
    let m = valid_module(&rt, rt.alloc(), &bytes);
    let s = numbered(&rt, rt.alloc(), &m);
    let marks = read_marks(rt.alloc(), "trust 0\nrelease 0 2", &m).expect(&rt, "marks");
    let l = labelled(&rt, rt.alloc(), &s, &[0, 2, 3, 4]);
    let placed = place(rt.alloc(), &m, &s, marks.points(), &l).expect(&rt, "memory");
    let wanted = bytes_of(rt.alloc(), BIT_IS_RELEASED).expect(&rt, "memory");
    assert!(rt; placed.len() == 50);
    assert!(rt; placed.as_slice() == wanted.as_slice());
}
