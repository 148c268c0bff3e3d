use fixed_mat::Mat;
use plant_model::{Names, Plant, PlantFault, PlantParts};
use std::test::Fail;

/// A plant of one state, with this noise, centre and radius.
fn parts(outputs: usize, noise: i128, centre: i128, radius: i128) -> Result<PlantParts<1>, Fail> {
    let mut parts = PlantParts {
        inputs: 0,
        outputs,
        dists: 8,
        a: Mat::zero(),
        b: Mat::zero(),
        c: Mat::zero(),
        d: Mat::zero(),
        e: Mat::zero(),
        noise: Mat::zero(),
        centre: Mat::zero(),
        radius: Mat::zero(),
        state_max: Mat::zero(),
    };
    parts.c.set(0, 0, 1_000_000_000)?;
    parts.noise.set(0, 0, noise)?;
    parts.centre.set(0, 0, centre)?;
    parts.radius.set(0, 0, radius)?;
    Ok(parts)
}

const RANGE: i128 = 1_000_000_000_000_000_000;

#[test]
fn a_plant_is_refused_by_its_first_limit(rt: HostRuntime) -> Result<(), Fail> {
    let cases = [
        (1, 0, -RANGE, 0, None),
        (6, 1, 1, RANGE - 1, None),
        (0, -1, RANGE, RANGE, Some(PlantFault::Counts)),
        (7, 0, 0, 0, Some(PlantFault::Counts)),
        (1, -1, RANGE, RANGE, Some(PlantFault::Negative)),
        (1, 0, 0, -1, Some(PlantFault::Negative)),
        (1, 0, -RANGE, 1, Some(PlantFault::Box { i: 0 })),
    ];
    for (outputs, noise, centre, radius, fault) in cases {
        let judged = Plant::of(parts(outputs, noise, centre, radius)?);
        assert_eq!(rt; judged.err(), fault);
    }
    Ok(())
}

#[test]
fn a_plant_lends_what_it_was_made_of(rt: HostRuntime) -> Result<(), Fail> {
    let plant = Plant::of(parts(1, 5, -7, 3)?)?;
    let counts = [
        plant.states(),
        plant.inputs(),
        plant.outputs(),
        plant.dists(),
    ];
    assert_eq!(rt; counts, [1, 0, 1, 8]);
    assert_eq!(rt; plant.noise(0), 5);
    let row = plant.c_row(0);
    let ends = [
        row.entries(),
        plant.centre().entries(),
        plant.radius().entries(),
    ];
    assert_eq!(rt; ends, [[1_000_000_000].as_slice(), &[-7], &[3]]);
    let sizes = [
        plant.a().entries().len(),
        plant.b().entries().len(),
        plant.c().entries().len(),
        plant.d().entries().len(),
        plant.e().entries().len(),
        plant.state_max().entries().len(),
    ];
    assert_eq!(rt; sizes, [1, 4, 6, 24, 8, 1]);
    Ok(())
}

#[test]
fn names_stay_in_their_order(rt: HostRuntime) {
    let mut names = Names::new();
    assert!(rt; names.is_empty());
    names.push("speed");
    names.push("");
    assert_eq!(rt; names.len(), 2);
    assert_eq!(rt; (names.at(0), names.at(1)), ("speed", ""));
    assert!(rt; names.contains("speed") && !names.contains("spee"));
}
