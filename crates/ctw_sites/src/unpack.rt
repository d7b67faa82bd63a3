ghost use Rattle.std.specs.Prelude.{◌≡◌, ◌≤◌, ◌<◌, ◌-◌, ◌^◌, length};
ghost use Rattle.std.specs.List.Sorted.{IsNonDecreasing};
ghost use Rattle.ctw_sites.specs.Unpacked.{kind_of as kind_in, at_of as at_in, index_of as index_in};
ghost use Rattle.ctw_sites.specs.Unpacked.{IsTable, upto, yield_by, site_at};

use ctw_labels::SiteName;

/// The number of the last place that stands no later than this one, among places that don't fall; 0 where there is
/// none.
fn last_upto(place: u32, firsts: &[u32]) -> u32
    requires rising { IsNonDecreasing firsts.now }
    requires few { length firsts.now < 2 ^ 32 }
    ensures number { result ≡ upto place firsts.now - 1 }
    ensures few { result ≤ length firsts.now }
{
    let count = firsts.partition_point(|first| *first <= place) as u32;
    count.saturating_sub(1)
}

/// The kind of a site, by its word.
fn kind_of(word: u64) -> u64
    ensures { result ≡ kind_in word }
{
    word % 16
}

/// The number of its opcode or of its global.
fn at_of(word: u64) -> u32
    ensures { result ≡ at_in word }
{
    (word / 16 % 2_097_152) as u32
}

/// The number of its parameter or local, or one more than the site that it yields.
fn index_of(word: u64) -> u32
    ensures { result ≡ index_in word }
{
    (word / 33_554_432 % 33_554_432) as u32
}

/// The name of a site, by its word and its number. `heads` and `starts` are the first sites of functions and of bodies.
pub fn name_of(word: u64, site: u32, heads: &[u32], starts: &[u32], imported: u32) -> SiteName
    requires { IsTable (record { heads = heads.now; starts = starts.now; imported = imported }) }
    ensures { result
        ≡ (site_at (record { heads = heads.now; starts = starts.now; imported = imported }) site word).name }
{
    let f = last_upto(site, heads);
    let g = imported + last_upto(site, starts);
    let at = at_of(word);
    let i = index_of(word);
    match kind_of(word) {
        0 => SiteName::Param { f, i },
        1 => SiteName::Result { f },
        2 => SiteName::GlobalOf { g: at },
        3 => SiteName::Memory,
        4 => SiteName::Local { f: g, i },
        5 => SiteName::Block { f: g, at },
        6 => SiteName::Op { f: g, at },
        7 => SiteName::Push { f: g, at },
        8 => SiteName::IParam { f: g, at, i },
        _ => SiteName::IResult { f: g, at },
    }
}

/// The site that a site yields, by its word; None where that is none.
pub fn yield_of(word: u64) -> Option<u32>
    ensures { result ≡ yield_by (kind_in word) (index_in word) }
{
    if kind_of(word) != 7 {
        return None;
    }
    match index_of(word) {
        0 => None,
        index => Some(index - 1),
    }
}
