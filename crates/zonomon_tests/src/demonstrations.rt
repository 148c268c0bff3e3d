ghost use Rattle.std.specs.Prelude.{pos, ◌≤ℤ◌};

use model_file::read_models;
use plant_model::AnyPlant;
use sim_gen::{Made, make};
use std::alloc::Global;
use std::test::Fail;

/// The states and the disturbances of a sample, in halves of a nano-unit and in halves.
fn moment_of(made: &Made, k: usize) -> Option<([i128; 2], [i128; 3])> {
    if k >= made.samples() {
        return None;
    }
    Some((
        [made.state(k, 0), made.state(k, 1)],
        [made.dist(k, 0), made.dist(k, 1), made.dist(k, 2)],
    ))
}

/// Worked out apart from the program: coupling 1 and gain 3.
#[test]
fn a_seed_makes_its_telemetry_and_its_trajectory(rt: HostRuntime) -> Result<(), Fail> {
    let made = make(rt.alloc(), 7, 4)?;
    let text = "u,y
1.000000000,-0.118800000
1.000000000,-0.356400000
1.000000000,2.636300000
1.000000000,5.717575000
";
    assert_eq!(rt; made.telemetry(), text.as_bytes());
    assert_eq!(rt; made.samples(), 4);
    assert!(rt; moment_of(&made, 1) == Some(([-811_000_000, 5_643_000_000], [0, 0, 2])));
    assert!(rt; moment_of(&made, 3) == Some(([11_460_250_000, 10_440_750_000], [0, 0, 0])));
    Ok(())
}

/// Coupling 2, and a seed past the generator's states.
#[test]
fn the_greatest_seed_is_taken(rt: HostRuntime) -> Result<(), Fail> {
    let made = make(rt.alloc(), 4_294_967_295, 2)?;
    let text = "u,y\n0.000000000,0.818600000\n1.000000000,-0.209600000\n";
    assert_eq!(rt; made.telemetry(), text.as_bytes());
    assert!(rt; moment_of(&made, 1) == Some(([-322_000_000, -275_000_000], [0, 0, 2])));
    Ok(())
}

/// What halving leaves of odd states is a disturbance.
#[test]
fn odd_states_come_with_disturbances(rt: HostRuntime) -> Result<(), Fail> {
    let made = make(rt.alloc(), 7, 40)?;
    assert!(rt; moment_of(&made, 39) == Some(([9_674_839_470, 7_898_466_326], [1, 1, 0])));
    Ok(())
}

/// The numbers of a plant of two states, in nano-units, as far as its inputs, outputs and disturbances reach.
fn numbers_of(plant: &AnyPlant) -> Option<[[i64; 4]; 5]> {
    let AnyPlant::N2(plant) = plant else {
        return None;
    };
    let (a, b, e) = (plant.a(), plant.b(), plant.e());
    let (radius, bound) = (plant.radius(), plant.state_max());
    Some([
        [a.at(0, 0), a.at(0, 1), a.at(1, 0), a.at(1, 1)],
        [
            b.at(0, 0),
            b.at(1, 0),
            plant.c().at(0, 0),
            plant.c().at(0, 1),
        ],
        [e.at(0, 0), e.at(0, 1), e.at(1, 1), e.at(1, 2)],
        [
            radius.at(0, 0),
            radius.at(1, 0),
            bound.at(0, 0),
            bound.at(1, 0),
        ],
        [
            plant.inputs() as i64,
            plant.outputs() as i64,
            plant.dists() as i64,
            0,
        ],
    ])
}

const UNIT: i64 = 1_000_000_000;

/// What `numbers_of` gives for a model of the demonstration with coupling 1 and this gain.
fn wanted(gain: i64) -> Option<[[i64; 4]; 5]>
    requires low { pos 0 ≤ℤ gain }
    requires high { gain ≤ℤ pos 5 }
{
    Some([
        [UNIT / 2, UNIT, 0, UNIT / 2],
        [0, gain * UNIT, UNIT, 0],
        [1, 0, 1, 10_000_000],
        [UNIT, UNIT, 1_000 * UNIT, 1_000 * UNIT],
        [1, 1, 3, 0],
    ])
}

/// The model file is read as two models, which differ in their gain alone: 3 and 4.
#[test]
fn the_model_file_is_read_as_two_models(rt: HostRuntime) -> Result<(), Fail> {
    let made = make(rt.alloc(), 7, 1)?;
    let bank = read_models(rt.alloc(), made.model())?;
    let (inputs, outputs) = (bank.inputs(), bank.outputs());
    assert_eq!(rt; (inputs.len(), outputs.len(), bank.count()), (1, 1, 2));
    assert_eq!(rt;
        [inputs.at(0), outputs.at(0), bank.name(0), bank.name(1)],
        ["u", "y", "true", "other"]
    );
    assert!(rt; numbers_of(bank.plant(0)) == wanted(3));
    assert!(rt; numbers_of(bank.plant(1)) == wanted(4));
    Ok(())
}
