//! A count of calls, of which one is to fail.
ghost use Rattle.std.specs.Prelude.{◌≡◌};
ghost use Rattle.stopping_books.specs.Stops.{MakesCall};

/// How many calls were made, and the number of the one that is to fail, counted from 1.
#[derive(Clone, Copy, Debug)]
pub(crate) struct Calls {
    made: u64,
    failing: u64,
}

impl Calls {
    /// No call is made yet; that of this number is to fail, and none where it is 0.
    pub(crate) fn none_before(failing: u64) -> Calls
        ensures { result ≡ record { made = 0; failing = failing } }
    {
        Calls { made: 0, failing }
    }

    /// Makes a call; whether it is the one that is to fail.
    pub(crate) fn fails(&mut self) -> bool
        ensures { MakesCall self.old self.new result }
    {
        self.made = self.made.saturating_add(1);
        self.made == self.failing
    }

    /// How many calls were made.
    pub(crate) fn made(&self) -> u64
        ensures { result ≡ self.now.made }
    {
        self.made
    }
}
