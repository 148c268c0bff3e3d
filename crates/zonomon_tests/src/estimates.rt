ghost use Rattle.std.specs.Prelude.{◌≤◌, IfSome, unsigned_abs};
ghost use Rattle.set_rules.specs.Limits.{input_limit};
ghost use Rattle.set_rules.specs.Zono.{range};
ghost use Rattle.plant_model.specs.Plant.{IsReading};

use arrayvec::ArrayVec;
use farkas_check::{Cert, Multipliers};
use fixed_mat::{Mat, Reading};
use observer_step::{Est, Kept, Outcome};
use plant_model::{Plant, PlantParts, Sample};
use std::test::Fail;

const ONE: i128 = 1_000_000_000;

type Ends = (i128, i128);

/// A plant of one state and one output, with as many disturbances as inputs: the inputs are added,
/// disturbances add 0.2 units, and it is read with noise within 0.1 units.
fn plant(inputs: usize, a: i128, radius: i128) -> Result<Plant<1>, Fail> {
    let mut parts = PlantParts {
        inputs,
        outputs: 1,
        dists: inputs,
        a: Mat::zero(),
        b: Mat::zero(),
        c: Mat::zero(),
        d: Mat::zero(),
        e: Mat::zero(),
        noise: Mat::zero(),
        centre: Mat::zero(),
        radius: Mat::zero(),
        state_max: Mat::zero(),
    };
    parts.a.set(0, 0, a)?;
    parts.b.set(0, 0, ONE)?;
    parts.c.set(0, 0, ONE)?;
    parts.e.set(0, 0, 200_000_000)?;
    parts.noise.set(0, 0, 100_000_000)?;
    parts.radius.set(0, 0, radius)?;
    parts.state_max.set(0, 0, 1_000 * ONE)?;
    Ok(Plant::of(parts)?)
}

/// Two states, each within 1 unit, whose sum is read twice with noise within 0.1 units.
fn twin() -> Result<Plant<2>, Fail> {
    let mut parts = PlantParts {
        inputs: 0,
        outputs: 2,
        dists: 0,
        a: Mat::zero(),
        b: Mat::zero(),
        c: Mat::zero(),
        d: Mat::zero(),
        e: Mat::zero(),
        noise: Mat::zero(),
        centre: Mat::zero(),
        radius: Mat::zero(),
        state_max: Mat::zero(),
    };
    for i in 0..2 {
        parts.c.set(i, 0, ONE)?;
        parts.c.set(i, 1, ONE)?;
        parts.noise.set(i, 0, 100_000_000)?;
        parts.radius.set(i, 0, ONE)?;
    }
    Ok(Plant::of(parts)?)
}

/// A sample with at most one input and one reading.
fn sample(u: Option<i128>, y: Reading) -> Sample
    requires input { IfSome u (λ v. unsigned_abs v ≤ input_limit) }
    requires reading { IsReading y }
{
    let mut inputs = ArrayVec::new();
    if let Some(u) = u {
        inputs.push(u);
    }
    let mut readings = ArrayVec::new();
    readings.push(y);
    Sample {
        u: inputs,
        y: readings,
    }
}

/// A sample without inputs and with two readings.
fn pair(first: Reading, second: Reading) -> Sample
    requires first { IsReading first }
    requires second { IsReading second }
{
    let mut readings = ArrayVec::new();
    readings.push(first);
    readings.push(second);
    Sample {
        u: ArrayVec::new(),
        y: readings,
    }
}

/// The predicted interval of the output and the hull of the state, once a sample was taken.
type Taken = (Ends, Ends);

/// Takes a sample, where it fits.
fn taken(est: &mut Est<1>, plant: &Plant<1>, sample: &Sample) -> Option<Taken> {
    if sample.u.len() != plant.inputs() || sample.y.len() != plant.outputs() {
        return None;
    }
    let outs = est.outs(plant, &sample.u);
    match est.correct(plant, sample) {
        Outcome::Fits => Some((outs[0], est.hull(0))),
        Outcome::Excluded(_) => None,
    }
}

/// One sample on.
fn moved(est: &mut Est<1>, plant: &Plant<1>, sample: &Sample) -> Option<Kept> {
    if sample.u.len() != plant.inputs() {
        return None;
    }
    Some(est.predict(plant, &sample.u))
}

/// Takes a sample, goes on by it and takes the next.
fn taken_both(
    plant: &Plant<1>,
    first: &Sample,
    second: &Sample,
) -> (Option<Taken>, Option<Kept>, Option<Taken>) {
    let mut est = Est::begin(plant);
    let before = taken(&mut est, plant, first);
    let kept = moved(&mut est, plant, first);
    (before, kept, taken(&mut est, plant, second))
}

/// A reading without slack.
fn exactly(v: i128) -> Reading
    requires { unsigned_abs v ≤ range }
    ensures { IsReading result }
{
    Reading::Value { v, slack: 0 }
}

const HALF: i128 = 500_000_000;

/// The gain is 990099009: the centre goes to 495049505, and the columns are 9900991, -99009901 and 1.
#[test]
fn a_reading_is_taken(rt: HostRuntime) -> Result<(), Fail> {
    let plant = plant(0, HALF, ONE)?;
    let mut est = Est::begin(&plant);
    assert_eq!(rt;
        taken(&mut est, &plant, &sample(None, exactly(HALF))),
        Some(((-1_100_000_000, 1_100_000_000), (386_138_612, 603_960_398)))
    );
    Ok(())
}

/// The predicted interval ends at 1.1 units.
#[test]
fn a_reading_at_the_edge_is_kept(rt: HostRuntime) -> Result<(), Fail> {
    let plant = plant(0, HALF, ONE)?;
    for (v, slack, hull) in [
        (1_100_000_000, 0, (980_198_017, 1_198_019_803)),
        (1_100_000_000, 1, (980_198_016, 1_198_019_804)),
        (1_100_000_001, 1, (980_198_017, 1_198_019_805)),
    ] {
        let mut est = Est::begin(&plant);
        let near = sample(None, Reading::Value { v, slack });
        assert_eq!(rt;
            taken(&mut est, &plant, &near).map(|made| made.1),
            Some(hull)
        );
    }
    Ok(())
}

#[test]
fn a_reading_past_the_edge_is_not_taken(rt: HostRuntime) -> Result<(), Fail> {
    let plant = plant(0, HALF, ONE)?;
    let mut est = Est::begin(&plant);
    let past = sample(None, exactly(1_100_000_001));
    assert!(rt; taken(&mut est, &plant, &past).is_none());
    assert_eq!(rt; est.hull(0), (-ONE, ONE));
    Ok(())
}

/// The gain 198412695 would raise the sum of the radii from 54455449 to 63492070.
#[test]
fn a_reading_that_would_spread_the_set_is_not_taken(rt: HostRuntime) -> Result<(), Fail> {
    let plant = plant(0, HALF, ONE)?;
    let half = sample(None, exactly(HALF));
    let fifth = sample(None, exactly(200_000_000));
    let (before, kept, after) = taken_both(&plant, &half, &fifth);
    assert_eq!(rt; (before.is_some(), kept), (true, Some(Kept::Imaged)));
    assert_eq!(rt;
        after,
        Some(((93_069_304, 401_980_202), (193_069_304, 301_980_202)))
    );
    Ok(())
}

#[test]
fn a_lost_reading_leaves_the_set(rt: HostRuntime) -> Result<(), Fail> {
    let plant = plant(0, HALF, ONE)?;
    let lost = sample(None, Reading::Missing);
    assert_eq!(rt;
        taken_both(&plant, &lost, &lost),
        (
            Some(((-1_100_000_000, 1_100_000_000), (-ONE, ONE))),
            Some(Kept::Imaged),
            Some(((-600_000_000, 600_000_000), (-HALF, HALF)))
        )
    );
    Ok(())
}

/// The image of 10^6 units reaches 10^9 units and stays; that of one unit more is the box of the state bounds.
#[test]
fn an_image_at_the_range_stays(rt: HostRuntime) -> Result<(), Fail> {
    let lost = sample(None, Reading::Missing);
    let cases = [
        (
            1_000_000_000_000_000,
            Kept::Imaged,
            (
                (-1_000_000_000_100_000_000, 1_000_000_000_100_000_000),
                (-1_000_000_000_000_000_000, 1_000_000_000_000_000_000),
            ),
        ),
        (
            1_000_001_000_000_000,
            Kept::Widened,
            (
                (-1_000_100_000_000, 1_000_100_000_000),
                (-1_000_000_000_000, 1_000_000_000_000),
            ),
        ),
    ];
    for (radius, image, ends) in cases {
        let plant = plant(0, 1_000_000_000_000, radius)?;
        let (before, kept, after) = taken_both(&plant, &lost, &lost);
        assert_eq!(rt;
            (before.is_some(), kept, after),
            (true, Some(image), Some(ends))
        );
    }
    Ok(())
}

/// The input 2 and a disturbance within 0.2 units: from 1.3 to 2.7 units. The gain is 966666666.
#[test]
fn an_input_moves_the_set(rt: HostRuntime) -> Result<(), Fail> {
    let plant = plant(1, HALF, ONE)?;
    let driven = sample(Some(2_000_000_000), Reading::Missing);
    let still = sample(Some(0), exactly(2_000_000_000));
    let (before, kept, after) = taken_both(&plant, &driven, &still);
    assert_eq!(rt; (before.is_some(), kept), (true, Some(Kept::Imaged)));
    assert_eq!(rt;
        after,
        Some((
            (1_200_000_000, 2_800_000_000),
            (1_879_999_998, 2_120_000_002)
        ))
    );
    Ok(())
}

/// Both outputs are predicted within 2.1 units.
#[test]
fn the_least_output_that_misses_is_named(rt: HostRuntime) -> Result<(), Fail> {
    let plant = twin()?;
    let cases = [
        (500_000_000, 2_200_000_000, 1),
        (-2_200_000_000, 2_200_000_000, 0),
    ];
    for (first, second, output) in cases {
        let sample = pair(exactly(first), exactly(second));
        let mut est = Est::begin(&plant);
        assert!(rt; sample.u.is_empty() && plant.inputs() == 0);
        assert!(rt; sample.y.len() == 2 && plant.outputs() == 2);
        let outcome = est.correct(&plant, &sample);
        assert!(rt; matches!(outcome, Outcome::Excluded(Cert::Out(o)) if o == output));
    }
    Ok(())
}

/// The one row that is kept has the coefficients 1 and 0.1 units and the right side 0.5: that is in reach, so 1 refutes nothing.
#[test]
fn offered_rows_are_not_justified(rt: HostRuntime) -> Result<(), Fail> {
    let plant = plant(0, HALF, ONE)?;
    let rows = Cert::Rows(Multipliers::of(&[1]).ok_or("in range")?);
    let half = sample(None, exactly(HALF));
    let mut est = Est::begin(&plant);
    assert!(rt; half.u.is_empty() && plant.inputs() == 0);
    assert!(rt; half.y.len() == 1 && plant.outputs() == 1);
    let Err(why) = est.correct_with(&plant, &half, Some(rows)) else {
        return Err("justified".into());
    };
    assert_eq!(rt; why.due, None);
    assert!(rt;
        matches!(why.offered, Some(Cert::Rows(list)) if list.len() == 1 && list.at(0) == 1)
    );
    Ok(())
}

/// Two sensors of one sum read 0.5 and -0.5 units: neither misses what is predicted, and both rows together are refuted.
#[test]
fn kept_rows_refute_what_no_reading_misses(rt: HostRuntime) -> Result<(), Fail> {
    let plant = twin()?;
    let sample = pair(exactly(HALF), exactly(-HALF));
    let mut est = Est::begin(&plant);
    assert!(rt; sample.u.is_empty() && plant.inputs() == 0);
    assert!(rt; sample.y.len() == 2 && plant.outputs() == 2);
    let Outcome::Excluded(Cert::Rows(found)) = est.correct(&plant, &sample) else {
        return Err("not refuted".into());
    };
    assert!(rt; found.len() == 2);
    assert_eq!(rt; (found.at(0), found.at(1)), (1_000_000_000, -1_000_000_000));
    assert_eq!(rt; est.rows().count(), 2);
    Ok(())
}

/// The multipliers 1 and -1 refute the same rows, 0 and 0 do not, and nothing is not enough where an output is due.
#[test]
fn any_multipliers_that_pass_are_justified(rt: HostRuntime) -> Result<(), Fail> {
    let plant = twin()?;
    for (second, offered, justified) in [
        (-HALF, [1, -1], true),
        (-HALF, [0, 0], false),
        (2_200_000_000, [1, -1], false),
    ] {
        let sample = pair(exactly(HALF), exactly(second));
        let mut est = Est::begin(&plant);
        assert!(rt; sample.u.is_empty() && plant.inputs() == 0);
        assert!(rt; sample.y.len() == 2 && plant.outputs() == 2);
        let offer = Cert::Rows(Multipliers::of(&offered).ok_or("in range")?);
        let judged = est.correct_with(&plant, &sample, Some(offer));
        assert_eq!(rt; judged.is_ok(), justified);
    }
    Ok(())
}
