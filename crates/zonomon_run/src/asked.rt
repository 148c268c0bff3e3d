//! Which demonstration is asked for.
ghost use Rattle.std.specs.Prelude.{◌≤◌};

/// The demonstration of a seed, with so many samples.
#[derive(Clone, Copy)]
pub struct Demo {
    pub seed: u32,
    pub samples: u32,
    ghost some: { 1 ≤ samples },
    ghost few: { samples ≤ 10_000 },
}
