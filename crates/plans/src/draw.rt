// Numbers that look random and are the same in every run: a linear congruential generator, of which the upper bits are used.
ghost use Rattle.std.specs.Prelude.{◌≡◌, ◌/◌, ◌%◌, ◌^◌, ◌<◌, ◌≤◌, true, false, ◌≢◌};
ghost use Rattle.plans.specs.Draws.{next_state, first_state};

#[derive(Clone, Copy, Debug, PartialEq, Eq)]
pub struct Draw {
    state: u64,
}

const FACTOR: u64 = 6_364_136_223_846_793_005;

const STEP: u64 = 1_442_695_040_888_963_407;

// A percentage is out of so many.
pub const HUNDRED: u64 = 100;

impl Draw {
    // The numbers that come after a state.
    pub fn new(state: u64) -> Draw
        ensures { result.state ≡ state }
    {
        Draw { state }
    }

    // The numbers of one day: each day has a start of its own, so that it can be played alone.
    pub fn of_day(seed: u64, day: u64) -> Draw
        ensures { result.state ≡ first_state seed day }
    {
        let state = seed
            .wrapping_mul(FACTOR)
            .wrapping_add(day)
            .wrapping_mul(FACTOR)
            .wrapping_add(STEP);
        Draw::new(state)
    }

    // A number below another.
    pub fn below(&mut self, n: u64) -> u64
        requires { 0 < n }
        ensures after { self.new.state ≡ next_state self.old.state }
        ensures value { result ≡ next_state self.old.state / 2 ^ 33 % n }
        ensures bound { result < n }
    {
        self.state = self.state.wrapping_mul(FACTOR).wrapping_add(STEP);
        (self.state >> 33) % n
    }

    // Whether something happens that happens in so many of a hundred cases.
    pub fn happens(&mut self, percent: u64) -> bool
        ensures never { percent ≡ 0 → result ≡ false }
        ensures always { 100 ≤ percent → result ≡ true }
    {
        self.below(HUNDRED) < percent
    }

    // Two different numbers below another.
    pub fn pair(&mut self, n: u64) -> (u64, u64)
        requires { 2 ≤ n }
        ensures bound { (result.0 < n) × (result.1 < n) }
        ensures two { result.0 ≢ result.1 }
    {
        let one = self.below(n);
        let other = self.below(n - 1);
        if other < one {
            (one, other)
        } else {
            (one, other + 1)
        }
    }
}
