//! What a run over several models reports.
use super::inputs::{PAIR, UNLIKE, WHEEL, WHEEL_ROWS};
use super::run_over;
use std::alloc::Global;
use std::test::Fail;

/// The pair over the readings 0.5 and 0.2.
pub const TOLD_APART: &str = "zonomon 1
model 0 half
model 1 minus
sample 0
p 0 0 -1.100000000 1.100000000
h 0 0 0.386138612 0.603960398
s 0 fits
p 1 0 -1.100000000 1.100000000
h 1 0 0.386138612 0.603960398
s 1 fits
possible 0 1
verdict several
sample 1
p 0 0 0.093069304 0.401980202
h 0 0 0.193069304 0.301980202
s 0 fits
p 1 0 -0.401980200 -0.093069304
x 1 out 0
possible 0
verdict isolated 0
end 2
";

#[test]
fn two_models_are_told_apart(rt: HostRuntime) -> Result<(), Fail> {
    let ran = run_over(rt.alloc(), PAIR, "y\n0.5\n0.2\n")?;
    assert_eq!(rt; ran.said(), (0, TOLD_APART, ""));
    Ok(())
}

const OF_DIFFERENT_SIZES: &str = "zonomon 1
model 0 one
model 1 two
sample 0
p 0 0 -1.100000000 1.100000000
h 0 0 -1.000000000 1.000000000
s 0 fits
p 1 0 -3.100000000 3.100000000
h 1 0 -1.000000000 1.000000000
h 1 1 -2.000000000 2.000000000
s 1 fits
possible 0 1
verdict several
sample 1
p 0 0 -0.600000000 0.600000000
x 0 out 0
p 1 0 -2.600000000 2.600000000
";

#[test]
fn models_of_different_sizes_run_together(rt: HostRuntime) -> Result<(), Fail> {
    let ran = run_over(rt.alloc(), UNLIKE, "y\nNA\n2\n")?;
    assert_eq!(rt; (ran.status, ran.told.as_str()), (0, ""));
    assert!(rt; ran.report.starts_with(OF_DIFFERENT_SIZES));
    assert!(rt;
        ran.report
            .ends_with("\ns 1 fits\npossible 1\nverdict isolated 1\nend 2\n")
    );
    Ok(())
}

/// The lines of a report that say nothing of an interval.
pub fn without_intervals(alloc: Global, report: &str) -> Result<String, Fail> {
    let mut kept = String::new(alloc);
    for line in report.lines() {
        if !line.starts_with("p ") && !line.starts_with("h ") {
            kept.push_str(line)?;
            kept.push('\n')?;
        }
    }
    Ok(kept)
}

const WHEEL_HEAD: &str = "zonomon 1
model 0 nominal
model 1 friction
model 2 stuck
sample 0
p 0 0 98.500000000 101.500000000
p 0 1 18.700000000 21.300000000
";

/// The report of the wheel without the lines of intervals.
pub const FRICTION_ISOLATED: &str = "zonomon 1
model 0 nominal
model 1 friction
model 2 stuck
sample 0
s 0 fits
s 1 fits
s 2 fits
possible 0 1 2
verdict several
sample 1
s 0 fits
s 1 fits
x 2 out 0
possible 0 1
verdict several
sample 2
s 0 fits
s 1 fits
possible 0 1
verdict several
sample 3
x 0 out 0
s 1 fits
possible 1
verdict isolated 1
sample 4
s 1 fits
possible 1
verdict isolated 1
sample 5
s 1 fits
possible 1
verdict isolated 1
sample 6
s 1 fits
possible 1
verdict isolated 1
sample 7
s 1 fits
possible 1
verdict isolated 1
sample 8
s 1 fits
possible 1
verdict isolated 1
sample 9
s 1 fits
possible 1
verdict isolated 1
sample 10
s 1 fits
possible 1
verdict isolated 1
sample 11
s 1 fits
possible 1
verdict isolated 1
end 12
";

#[test]
fn friction_of_a_wheel_is_isolated(rt: HostRuntime) -> Result<(), Fail> {
    let ran = run_over(rt.alloc(), WHEEL, WHEEL_ROWS)?;
    assert_eq!(rt; (ran.status, ran.told.as_str()), (0, ""));
    assert!(rt; ran.report.starts_with(WHEEL_HEAD));
    let verdicts = without_intervals(rt.alloc(), &ran.report)?;
    assert_eq!(rt; verdicts.as_str(), FRICTION_ISOLATED);
    Ok(())
}
