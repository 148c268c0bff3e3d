//! What a run over one model reports.
use super::inputs::{P, Q};
use super::run_over;
use std::alloc::Global;
use std::test::Fail;

/// The model P over the reading 0.5.
pub const HALF: &str = "zonomon 1
model 0 P
sample 0
p 0 0 -1.100000000 1.100000000
h 0 0 0.386138612 0.603960398
s 0 fits
possible 0
verdict isolated 0
end 1
";

/// The report of one sample of P with this hull.
fn with_hull(alloc: Global, hull: &str) -> Result<String, Fail> {
    Ok(HALF.replace(alloc, "0.386138612 0.603960398", hull)?)
}

#[test]
fn reading_narrows_the_hull(rt: HostRuntime) -> Result<(), Fail> {
    let alloc = rt.alloc();
    let mut longest = String::from_str(alloc, "y\n0.5")?;
    longest.push_str(&"0".repeat(alloc, 4093)?)?;
    let telemetries = [
        "y\n0.5\n",
        "y\n5e-1\n",
        "y\n\" 0.5 \"\n",
        "\u{feff}t,y\r\n0,0.5",
        longest.as_str(),
    ];
    for telemetry in telemetries {
        let ran = run_over(alloc, P, telemetry)?;
        assert_eq!(rt; ran.said(), (0, HALF, ""));
    }
    Ok(())
}

#[test]
fn reading_at_the_edge_is_kept(rt: HostRuntime) -> Result<(), Fail> {
    let alloc = rt.alloc();
    let cases = [
        ("y\n1.100000000\n", "0.980198017 1.198019803"),
        ("y\n1.1000000001\n", "0.980198016 1.198019804"),
        ("y\n1.1000000009\n", "0.980198017 1.198019805"),
    ];
    for (telemetry, hull) in cases {
        let ran = run_over(alloc, P, telemetry)?;
        let report = with_hull(alloc, hull)?;
        assert_eq!(rt; ran.said(), (0, report.as_str(), ""));
    }
    Ok(())
}

/// A reading past the edge excludes the model.
const PAST_THE_EDGE: &str = "zonomon 1
model 0 P
sample 0
p 0 0 -1.100000000 1.100000000
x 0 out 0
possible
verdict none
end 1
";

/// A correction that would widen the set is not used.
const UNUSED: &str = "zonomon 1
model 0 P
sample 0
p 0 0 -1.100000000 1.100000000
h 0 0 0.386138612 0.603960398
s 0 fits
possible 0
verdict isolated 0
sample 1
p 0 0 0.093069304 0.401980202
h 0 0 0.193069304 0.301980202
s 0 fits
possible 0
verdict isolated 0
end 2
";

/// A model that was excluded stays so.
const EXCLUDED: &str = "zonomon 1
model 0 P
sample 0
p 0 0 -1.100000000 1.100000000
h 0 0 0.386138612 0.603960398
s 0 fits
possible 0
verdict isolated 0
sample 1
p 0 0 0.093069304 0.401980202
x 0 out 0
possible
verdict none
sample 2
possible
verdict none
end 3
";

/// A lost sample is predicted over.
const LOST: &str = "zonomon 1
model 0 P
sample 0
p 0 0 -1.100000000 1.100000000
h 0 0 -1.000000000 1.000000000
s 0 fits
possible 0
verdict isolated 0
sample 1
p 0 0 -0.600000000 0.600000000
h 0 0 -0.500000000 0.500000000
s 0 fits
possible 0
verdict isolated 0
end 2
";

const WIDEST: &str = "zonomon 1
model 0 P
sample 0
p 0 0 -1000000.100000000 1000000.100000000
h 0 0 -1000000.000000000 1000000.000000000
s 0 fits
possible 0
verdict isolated 0
sample 1
p 0 0 -1000000000.100000000 1000000000.100000000
h 0 0 -1000000000.000000000 1000000000.000000000
s 0 fits
possible 0
verdict isolated 0
end 2
";

const WIDENED: &str = "zonomon 1
model 0 P
sample 0
p 0 0 -1000001.100000000 1000001.100000000
h 0 0 -1000001.000000000 1000001.000000000
s 0 fits
possible 0
verdict isolated 0
sample 1
p 0 0 -1000.100000000 1000.100000000
h 0 0 -1000.000000000 1000.000000000
s 0 undecided
possible 0
verdict isolated 0
end 2
";

#[test]
fn model_that_outgrows_the_range_is_undecided(rt: HostRuntime) -> Result<(), Fail> {
    let alloc = rt.alloc();
    let growing = P.replace(alloc, "\"0.5\"", "1000")?;
    let cases = [
        ("radius = [1000000]", WIDEST),
        ("radius = [1000001]", WIDENED),
    ];
    for (radius, report) in cases {
        let model = growing.replace(alloc, "radius = [1]", radius)?;
        let ran = run_over(alloc, &model, "t,y\n0,\n1,\n")?;
        assert_eq!(rt; ran.said(), (0, report, ""));
    }
    Ok(())
}

/// An input moves the prediction.
const MOVED: &str = "zonomon 1
model 0 Q
sample 0
p 0 0 -1.100000000 1.100000000
h 0 0 -1.000000000 1.000000000
s 0 fits
possible 0
verdict isolated 0
sample 1
p 0 0 1.200000000 2.800000000
h 0 0 1.879999998 2.120000002
s 0 fits
possible 0
verdict isolated 0
end 2
";

/// A header alone has no samples.
const NO_SAMPLES: &str = "zonomon 1
model 0 P
end 0
";

#[test]
fn each_run_over_one_model_has_its_report(rt: HostRuntime) -> Result<(), Fail> {
    let cases = [
        (P, "y\n1.100000001\n", PAST_THE_EDGE),
        (P, "y\n0.5\n0.2\n", UNUSED),
        (P, "y\n0.5\n0.5\n0.5\n", EXCLUDED),
        (P, "t,y\n0,\n1,NaN\n", LOST),
        (Q, "u,y\n2,NaN\n0,2.0\n", MOVED),
        (P, "y\n", NO_SAMPLES),
        (P, "y", NO_SAMPLES),
        (P, "\n\ny\r\n\n", NO_SAMPLES),
    ];
    for (model, telemetry, report) in cases {
        let ran = run_over(rt.alloc(), model, telemetry)?;
        assert_eq!(rt; ran.said(), (0, report, ""));
    }
    Ok(())
}
