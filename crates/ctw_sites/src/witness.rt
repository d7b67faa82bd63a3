ghost use Rattle.std.specs.Prelude.{◌≡◌, ◌<◌, ◌≤◌, ◌+◌, ◌-◌, ◌^◌, length, slice_get, Some};
ghost use Rattle.ctw_sites.specs.Flow.{Flow};

use std::marker::Model;

/// Sites one after another, the rule of the link to each but the first, and why the last one is public: the number of a
/// rule, or 255 where it is marked.
#[derive(Drop)]
pub struct Witness {
    sites: Vec<u32>,
    rules: Vec<u8>,
    last: u8,
    ghost some: { 0 < length sites.items },
    ghost few: { length sites.items < 2 ^ 32 },
    ghost linked: { length rules.items + 1 ≡ length sites.items },
}

impl Model for Witness {
    ghost use Rattle.ctw_sites.specs.Flow.{Flow};

    ghost Value = { Flow };

    ghost view = { λ w. record { sites = w.sites.items; rules = w.rules.items; last = w.last } };
}

impl Witness {
    /// A witness of at least one site, and fewer than 2^32, with one rule fewer than sites.
    pub fn new(sites: Vec<u32>, rules: Vec<u8>, last: u8) -> Witness
        requires some { 0 < length sites.items }
        requires few { length sites.items < 2 ^ 32 }
        requires linked { length rules.items + 1 ≡ length sites.items }
        ensures { result ≡ record { sites = sites.items; rules = rules.items; last = last } }
    {
        Witness { sites, rules, last }
    }

    /// How many sites there are: at least one, and one more than rules.
    pub fn count(&self) -> u32
        ensures count { result ≡ length self.now.sites }
        ensures some { 0 < result }
        ensures linked { length self.now.rules + 1 ≡ result }
    {
        self.sites.len() as u32
    }

    /// The site of a number below the count.
    pub fn site(&self, i: u32) -> u32
        requires { i < length self.now.sites }
        ensures { slice_get self.now.sites i ≡ Some result }
    {
        self.sites[i as usize]
    }

    /// The rule of the link to the site of a number from 1 on, which is below the count.
    pub fn rule(&self, i: u32) -> u8
        requires first { 0 < i }
        requires there { i < length self.now.sites }
        ensures { slice_get self.now.rules (i - 1) ≡ Some result }
    {
        self.rules[i as usize - 1]
    }

    /// Why the last site is public.
    pub fn last(&self) -> u8
        ensures { result ≡ self.now.last }
    {
        self.last
    }
}
