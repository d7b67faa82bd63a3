ghost use Rattle.std.specs.Prelude.{◌≡◌, ◌<◌, ◌^◌, false, length};
ghost use Rattle.ctw_ops.specs.Valid.{IsValid};
ghost use Rattle.ctw_module.specs.Trees.{view_module};
ghost use Rattle.ctw_labels.specs.SitedModule.{sites as sites_of};

use ctw_modcheck::check;
use ctw_module::Module;
use ctw_ops::Profile;
use ctw_read::read;
use ctw_sites::{Points, Sites};
use ctw_tests::{bytes_of, question};
use std::alloc::Global;
use std::process::Abort;

/// The first eight bytes of a plain module.
const PLAIN: &str = "00 61 73 6D 01 00 00 00";

/// Three functions that give their argument, of type (i32) to (i32): a plain module's sections.
pub const THREE: &str = "01060160017F017F 030403000000 0A1003040020000B040020000B040020000B";

/// A plain module with these sections, in hexadecimal digits.
pub fn module_bytes(rt: &impl Abort, alloc: Global, sections: &str) -> Vec<u8> {
    let mut bytes = bytes_of(alloc, PLAIN).expect(rt, "memory");
    bytes
        .extend_from_slice(&bytes_of(alloc, sections).expect(rt, "memory"))
        .expect(rt, "memory");
    bytes
}

/// The module of a row, whose question is its sections.
pub fn row_bytes(rt: &impl Abort, alloc: Global, row: &str) -> Vec<u8> {
    module_bytes(rt, alloc, question(row))
}

/// The module that bytes spell, which is plain and valid, under a profile.
pub fn module_under<'a>(
    rt: &impl Abort,
    alloc: Global,
    bytes: &'a [u8],
    profile: Profile,
) -> Module<'a>
    ensures plain { (view_module result).ct ≡ false }
    ensures valid { IsValid (view_module result) }
{
    assert!(rt; bytes.len() < 10_000_000);
    let m = read(alloc, bytes)
        .expect(rt, "a module")
        .with_profile(profile);
    assert!(rt; !m.is_ct());
    check(alloc, &m).expect(rt, "valid");
    m
}

/// The same under the profile in which divisions alone leak.
pub fn valid_module<'a>(rt: &impl Abort, alloc: Global, bytes: &'a [u8]) -> Module<'a>
    ensures plain { (view_module result).ct ≡ false }
    ensures valid { IsValid (view_module result) }
{
    module_under(rt, alloc, bytes, Profile::Divide)
}

/// The sites of a module.
pub fn numbered(rt: &impl Abort, alloc: Global, m: &Module) -> Sites
    requires plain { (view_module m.now).ct ≡ false }
    requires valid { IsValid (view_module m.now) }
    ensures { result ≡ sites_of (view_module m.now) }
{
    Sites::of(alloc, m).expect(rt, "sites")
}

/// The points of trusted functions, and of opcodes in them that release what they push.
pub fn points_of(
    rt: &impl Abort,
    alloc: Global,
    trusted: &[u32],
    releases: &[(u32, u32)],
) -> Points {
    let mut points = Points::new(alloc);
    for f in trusted {
        points.add_trust(*f).expect(rt, "memory");
    }
    for (f, at) in releases {
        points.add_release(*f, *at).expect(rt, "memory");
    }
    points
}
