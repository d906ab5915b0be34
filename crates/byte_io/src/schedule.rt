ghost use Rattle.std.specs.Prelude.{◌≡◌, ◌↔◌, if◌then◌else◌, IsTrue, Contains};
ghost use Rattle.byte_io.specs.Faults.{next_count};

// The numbers of the calls that are to fail, the number of calls so far, and of faults.
#[derive(Drop)]
pub(crate) struct Schedule {
    pub(crate) fails: Vec<u64>,
    pub(crate) calls: u64,
    pub(crate) faults: u64,
}

impl Schedule {
    pub(crate) fn new(fails: Vec<u64>) -> Schedule
        ensures { result ≡ record { fails = fails; calls = 0; faults = 0 } }
    {
        Schedule {
            fails,
            calls: 0,
            faults: 0,
        }
    }

    // Counts a call, and also a fault where the call is to fail. Answers whether it is.
    pub(crate) fn count_call(&mut self) -> bool
        ensures listed { IsTrue result ↔ Contains self.old.fails.items (next_count self.old.calls) }
        ensures calls { self.new.calls ≡ next_count self.old.calls }
        ensures faults { self.new.faults
            ≡ (if result then next_count self.old.faults else self.old.faults) }
        ensures fails { self.new.fails ≡ self.old.fails }
    {
        self.calls = self.calls.saturating_add(1);
        let is_listed = self.fails.contains(&self.calls);
        if is_listed {
            self.faults = self.faults.saturating_add(1);
        }
        is_listed
    }
}
