// Which calls on an object are to fail.
ghost use Rattle.std.specs.Prelude.{◌≡◌, ◌≤◌, ◌↔◌, ◌+◌, IsTrue, Contains, if◌then◌else◌};
ghost use Rattle.ctw_io.specs.Faults.{next_count};

/// The numbers of the calls that are to fail, and how many calls and failures there were.
#[derive(Drop)]
pub(crate) struct Plan {
    pub(crate) fails: Vec<u64>,
    pub(crate) calls: u64,
    pub(crate) faults: u64,
}

impl Plan {
    /// Counts one more call, and its fault where it is to fail, and tells whether it is.
    pub(crate) fn count_call(&mut self) -> bool
        ensures fails { IsTrue result ↔ Contains self.old.fails.items (self.old.calls + 1) }
        ensures kept { self.new.fails ≡ self.old.fails }
        ensures calls { self.new.calls ≡ next_count self.old.calls }
        ensures faults { self.new.faults ≡ (if result then next_count self.old.faults else self.old.faults) }
        ensures grows { self.old.faults ≤ self.new.faults }
    {
        let fails = is_next_listed(&self.fails, self.calls);
        count_up(&mut self.calls);
        if fails {
            count_up(&mut self.faults);
        }
        fails
    }
}

/// Whether the number of the call that follows so many is in the list.
fn is_next_listed(numbers: &[u64], calls: u64) -> bool
    ensures { IsTrue result ↔ Contains numbers.now (calls + 1) }
{
    match calls.checked_add(1) {
        Some(number) => numbers.contains(&number),
        None => false,
    }
}

/// Makes the count one more. At the end of its type it stands still.
#[tactic(auto, unfolding(crate::specs::Faults::last_count))]
pub(crate) fn count_up(count: &mut u64)
    ensures counted { count.new ≡ next_count count.old }
    ensures grows { count.old ≤ count.new }
{
    *count = count.saturating_add(1);
}
