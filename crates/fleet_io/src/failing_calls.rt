ghost use Rattle.std.specs.Prelude.{◌≡◌};
ghost use Rattle.fleet_io.specs.Counts.{raised, is_failing};

// Which calls of a test's shelf or sink fail: their numbers, from 0, and the number of the next call.
#[derive(Drop)]
pub(crate) struct FailingCalls {
    numbers: Vec<u32>,
    next: u64,
}

impl FailingCalls {
    pub(crate) fn new(numbers: Vec<u32>) -> FailingCalls
        ensures { result ≡ record { numbers = numbers; next = 0 } }
    {
        FailingCalls { numbers, next: 0 }
    }

    // Counts one call, and tells whether it is to fail.
    pub(crate) fn count(&mut self) -> bool
        ensures told { result ≡ is_failing self.old.next self.old.numbers.items }
        ensures counted { self.new ≡ record self.old { next = raised self.old.next } }
    {
        let number = self.next;
        self.next = number.saturating_add(1);
        self.numbers
            .iter()
            .any(|failing| u64::from(*failing) == number)
    }
}
