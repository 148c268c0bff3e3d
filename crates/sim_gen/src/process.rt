//! The plant of the demonstration, sample by sample.

ghost use Rattle.std.specs.Prelude.{◌≡◌, ◌≤◌, ◌^◌, ◌+◌, ◌*◌, ◌∷◌, [], pos, ◌+ℤ◌, ◌*ℤ◌, unsigned_abs};
ghost use Rattle.sim_gen.specs.Process.{begun, stepped, moment_of, half_up, odd_part, third_state, input_in, error_in, push_in};

use crate::generator::Generator;
use fixed_mat::S;
use std::marker::Model;

/// Nano-units in a thousandth of a unit.
const THOUSANDTH: i128 = 1_000_000;

/// The greatest error of a reading is a thousand of these, in nano-units.
const ERROR: i128 = 50_000;

/// How much a push moves the second state, in nano-units.
const PUSH: i128 = 10_000_000;

/// A plant of two states, in nano-units, with its coupling and its gain, in units by units.
#[derive(Drop)]
pub(crate) struct Process {
    coupling: u32,
    gain: u32,
    generator: Generator,
    first: i128,
    second: i128,
}

/// A sample: its input and its reading in nano-units, and its states and disturbances in halves of a nano-unit.
#[derive(Debug, Drop)]
pub(crate) struct Moment {
    pub(crate) input: i128,
    pub(crate) reading: i128,
    pub(crate) states: [i128; 2],
    pub(crate) dists: [i128; 3],
}

/// What is drawn for a sample: its input and the error of its reading in nano-units, and a push, -1, 0 or 1.
#[derive(Drop)]
struct Draw {
    input: i128,
    error: i128,
    push: i128,
}

impl Model for Process {
    ghost use Rattle.sim_gen.specs.Process.{Process as TheModel, IsProcess};

    ghost Value = { TheModel };

    ghost view = { λ p. record { coupling = p.coupling; gain = p.gain; generator = p.generator.state; first = p.first; second = p.second } };

    ghost invariant = { λ p. IsProcess (record { coupling = p.coupling; gain = p.gain; generator = p.generator.state; first = p.first; second = p.second }) };
}

impl Process {
    /// The plant at the first sample of a seed.
    pub(crate) fn new(seed: u32) -> Process
        ensures { result ≡ begun seed }
    {
        let mut generator = Generator::new(seed);
        let coupling = 1 + generator.below(2);
        let gain = 1 + generator.below(4);
        let first = scaled(THOUSANDTH, generator.within(1_000));
        let second = scaled(THOUSANDTH, generator.within(1_000));
        Process {
            coupling,
            gain,
            generator,
            first,
            second,
        }
    }

    /// How many units the first state gains for each unit of the second.
    pub(crate) fn coupling(&self) -> u32
        ensures value { result ≡ self.now.coupling }
        ensures some { 1 ≤ result }
        ensures small { result ≤ 2 }
    {
        self.coupling
    }

    /// How many units the second state gains for each unit of the input.
    pub(crate) fn gain(&self) -> u32
        ensures value { result ≡ self.now.gain }
        ensures some { 1 ≤ result }
        ensures small { result ≤ 4 }
    {
        self.gain
    }

    /// Goes to the next sample, and tells the one before it.
    pub(crate) fn step(&mut self) -> Moment
        ensures value { result ≡ moment_of self.old }
        ensures after { self.new ≡ stepped self.old }
        ensures input { unsigned_abs result.input ≤ 1_000_000_000 }
        ensures reading { unsigned_abs result.reading ≤ 39_000_000_000 }
    {
        let draw = Draw::of(&mut self.generator);
        let moment = self.moment(&draw);
        let second = self.next_second(&draw);
        self.first = self.next_first();
        self.second = second;
        moment
    }

    /// The sample with this draw.
    fn moment(&self, draw: &Draw) -> Moment
        requires error { unsigned_abs draw.now.error ≤ 50_000_000 }
        requires push { unsigned_abs draw.now.push ≤ 1 }
        ensures input { result.input ≡ draw.now.input }
        ensures reading { result.reading ≡ self.now.first +ℤ draw.now.error }
        ensures reading_small { unsigned_abs result.reading ≤ 39_000_000_000 }
        ensures states { result.states ≡ (pos 2 *ℤ self.now.first) ∷ (pos 2 *ℤ self.now.second) ∷ [] }
        ensures dists { result.dists ≡ odd_part self.now.first ∷ odd_part self.now.second ∷ (pos 2 *ℤ draw.now.push) ∷ [] }
    {
        Moment {
            input: draw.input,
            reading: self.first + draw.error,
            states: [2 * self.first, 2 * self.second],
            dists: [odd_part(self.first), odd_part(self.second), 2 * draw.push],
        }
    }

    /// The first state at the next sample.
    fn next_first(&self) -> i128
        ensures { result ≡ half_up self.now.first +ℤ pos self.now.coupling *ℤ self.now.second }
    {
        half_up(self.first) + times(self.coupling, self.second)
    }

    /// The second state at the next sample.
    fn next_second(&self, draw: &Draw) -> i128
        requires input { unsigned_abs draw.now.input ≤ 1_000_000_000 }
        requires push { unsigned_abs draw.now.push ≤ 1 }
        ensures { result ≡ half_up self.now.second +ℤ pos self.now.gain *ℤ draw.now.input +ℤ pos 10_000_000 *ℤ draw.now.push }
    {
        half_up(self.second) + times(self.gain, draw.input) + PUSH * draw.push
    }
}

impl Draw {
    /// Three draws.
    fn of(generator: &mut Generator) -> Draw
        ensures after { generator.new.state ≡ third_state generator.old.state }
        ensures input { result.input ≡ input_in generator.old.state }
        ensures error { result.error ≡ error_in generator.old.state }
        ensures push { result.push ≡ push_in generator.old.state }
        ensures input_small { unsigned_abs result.input ≤ 1_000_000_000 }
        ensures error_small { unsigned_abs result.error ≤ 50_000_000 }
        ensures push_small { unsigned_abs result.push ≤ 1 }
    {
        let input = scaled(S, generator.within(1));
        let error = scaled(ERROR, generator.within(1_000));
        let push = generator.within(1);
        Draw { input, error, push }
    }
}

/// A number of at most a thousand of `size`.
fn scaled(size: i128, number: i128) -> i128
    requires size { unsigned_abs size ≤ 10 ^ 9 }
    requires number { unsigned_abs number ≤ 1_000 }
    ensures { result ≡ size *ℤ number }
{
    size * number
}

/// A small multiple of a number.
fn times(factor: u32, number: i128) -> i128
    requires factor { factor ≤ 4 }
    requires number { unsigned_abs number ≤ 10 ^ 12 }
    ensures value { result ≡ pos factor *ℤ number }
    ensures small { unsigned_abs result ≤ 4 * unsigned_abs number }
{
    i128::from(factor) * number
}

/// 1 of an odd number, 0 of an even one.
#[tactic(auto, using(crate::proofs::Halves::odd_part_small), unfolding(crate::specs::Process::odd_part))]
fn odd_part(x: i128) -> i128
    ensures value { result ≡ odd_part x }
    ensures small { unsigned_abs result ≤ 1 }
{
    x.rem_euclid(2)
}

/// Half of a number, rounded up.
#[tactic(auto, using(crate::proofs::Halves::half_up_small), unfolding(crate::specs::Process::half_up))]
fn half_up(x: i128) -> i128
    requires { unsigned_abs x ≤ 10 ^ 12 }
    ensures value { result ≡ half_up x }
    ensures small { unsigned_abs result ≤ unsigned_abs x + 1 }
{
    (x + odd_part(x)).div_euclid(2)
}
