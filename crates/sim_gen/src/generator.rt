//! A generator of numbers.

ghost use Rattle.std.specs.Prelude.{◌≡◌, ◌<◌, ◌≤◌, ◌≤ℤ◌, unsigned_abs};
ghost use Rattle.sim_gen.specs.Generator.{first_state, next_state, drawn, drawn_within};

/// How many states there are.
const MODULUS: u32 = 2_147_483_648;

/// A linear congruential generator.
#[derive(Clone, Copy, Debug)]
pub(crate) struct Generator {
    pub(crate) state: u32,
}

impl Generator {
    /// The generator that begins with a seed.
    pub(crate) fn new(seed: u32) -> Generator
        ensures { result.state ≡ first_state seed }
    {
        Generator {
            state: seed % MODULUS,
        }
    }

    /// Draws a number below `count`.
    pub(crate) fn below(&mut self, count: u32) -> u32
        requires { 0 < count }
        ensures state { self.new.state ≡ next_state self.old.state }
        ensures value { result ≡ drawn count (next_state self.old.state) }
        ensures bound { result < count }
    {
        let state = (1_103_515_245 * u64::from(self.state) + 12_345) % u64::from(MODULUS);
        self.state = state as u32;
        self.state / 65_536 % count
    }

    /// Draws a number from `-most` to `most`.
    pub(crate) fn within(&mut self, most: u32) -> i128
        requires { most ≤ 1_000 }
        ensures state { self.new.state ≡ next_state self.old.state }
        ensures value { result ≡ drawn_within most (next_state self.old.state) }
        ensures bound { unsigned_abs result ≤ most }
    {
        i128::from(self.below(2 * most + 1)) - i128::from(most)
    }
}
