ghost use Rattle.std.specs.Prelude.{◌≡◌, ◌≤◌, [], length, unsigned_abs};
ghost use Rattle.set_rules.specs.Zono.{range};

use arrayvec::ArrayVec;
use farkas_check::Cert;
use fixed_mat::Reading;
use isolate_core::Verdict;
use model_bank::{Bank, SampleRec};
use model_file::read_models;
use plant_model::Sample;
use std::process::Abort;
use std::test::Fail;

/// Two models of one state: half of it stays, in the second with its sign turned.
const TWO: &str = "version = 1
outputs = [\"y\"]
[[model]]
name = \"half\"
states = 1
disturbances = 0
A = [[\"0.5\"]]
C = [[1]]
noise = [\"0.1\"]
centre = [0]
radius = [1]
state_max = [1000]
[[model]]
name = \"minus\"
states = 1
disturbances = 0
A = [[\"-0.5\"]]
C = [[1]]
noise = [\"0.1\"]
centre = [0]
radius = [1]
state_max = [1000]
";

/// A sample of this reading alone, without slack.
fn reading(v: i128) -> Sample
    requires { unsigned_abs v ≤ range }
    ensures no_inputs { result.u.items ≡ [] }
    ensures one_reading { length result.y.items ≡ 1 }
{
    let mut y = ArrayVec::new();
    y.push(Reading::Value { v, slack: 0 });
    Sample {
        u: ArrayVec::new(),
        y,
    }
}

/// A sample of which the reading is missing.
fn lost() -> Sample
    ensures no_inputs { result.u.items ≡ [] }
    ensures one_reading { length result.y.items ≡ 1 }
{
    let mut y = ArrayVec::new();
    y.push(Reading::Missing);
    Sample {
        u: ArrayVec::new(),
        y,
    }
}

/// Asserts the parts of a sample that speak of all models.
fn expect_sample(rt: &impl Abort, sample: &SampleRec, k: u64, possible: &[bool], verdict: Verdict) {
    assert_eq!(rt; sample.k, k);
    assert_eq!(rt; sample.possible.as_slice(), possible);
    assert_eq!(rt; sample.verdict, verdict);
}

#[test]
fn an_excluded_model_is_gone(rt: HostRuntime) -> Result<(), Fail> {
    let models = read_models(rt.alloc(), TWO.as_bytes())?;
    assert_eq!(rt; (models.inputs().len(), models.outputs().len()), (0, 1));
    let mut bank = Bank::begin(rt.alloc(), models)?;

    let sample = bank.step(&reading(500_000_000));
    expect_sample(&rt, &sample, 0, &[true, true], Verdict::Several);

    let sample = bank.step(&reading(200_000_000));
    expect_sample(&rt, &sample, 1, &[true, false], Verdict::Isolated(0));
    assert_eq!(rt; sample.models.len(), 2);

    let sample = bank.step(&lost());
    expect_sample(&rt, &sample, 2, &[true, false], Verdict::Isolated(0));
    assert_eq!(rt; sample.models.len(), 1);
    assert_eq!(rt; bank.count(), 3);
    Ok(())
}

/// At the second sample the reading misses what the second model predicts, so its exclusion is due, and no other.
#[test]
fn the_due_certificate_is_taken_and_no_other(rt: HostRuntime) -> Result<(), Fail> {
    for (offer, is_taken) in [
        (Some(Cert::Out(0)), true),
        (Some(Cert::Out(1)), false),
        (None, false),
    ] {
        let models = read_models(rt.alloc(), TWO.as_bytes())?;
        assert!(rt; models.inputs().is_empty() && models.outputs().len() == 1);
        assert!(rt; models.count() == 2);
        let mut bank = Bank::begin(rt.alloc(), models)?;
        assert!(rt; bank.step_with(&reading(500_000_000), &[None, None]).is_ok());
        match bank.step_with(&reading(200_000_000), &[None, offer]) {
            Ok(sample) => {
                assert!(rt; is_taken);
                expect_sample(&rt, &sample, 1, &[true, false], Verdict::Isolated(0));
            }
            Err(bad) => {
                assert!(rt; !is_taken);
                assert_eq!(rt; (bad.model, bad.why.due, bad.before.len()), (1, Some(0), 1));
            }
        }
    }
    Ok(())
}
