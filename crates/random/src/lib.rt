// Random numbers for tests and measurements: the same ones each time, so that what failed fails again.

#![tactic(auto)]

ghost use Rattle.std.specs.Prelude.{◌≡◌, ◌%◌, ◌<◌, max};
ghost use Rattle.random.specs.Drawing.{beginning, stepped};

// A generator of the kind xorshift.
#[derive(Clone, Copy, Debug, PartialEq, Eq)]
pub struct Random {
    pub state: u64,
}

impl Random {
    pub fn new() -> Random
        ensures { result.state ≡ beginning }
    {
        Random {
            state: 88_172_645_463_325_252,
        }
    }

    // The next number, below a bound. Below a bound of 0 there is none: then it is 0.
    pub fn below(&mut self, bound: u16) -> u16
        ensures left { self.new.state ≡ stepped self.old.state }
        ensures value { result ≡ stepped self.old.state % max bound 1 }
        ensures bound { result < max bound 1 }
    {
        let mut state = self.state;
        state ^= state << 13;
        state ^= state >> 7;
        state ^= state << 17;
        self.state = state;
        (state % u64::from(bound.max(1))) as u16
    }
}
