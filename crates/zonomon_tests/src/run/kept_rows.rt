//! Models that are excluded by the rows of several readings together.
use super::inputs::{RING, TWIN};
use super::{check_over, run_over};
use std::alloc::{AllocGlobal, Global};
use std::process::Abort;
use std::test::Fail;

/// Two sensors of one sum that can differ by 0.2 at most, and differ by 1.
const APART: &str = "y0,y1\n0.5,-0.5\n";

/// No reading misses; the difference of both rows is 1, and their coefficients leave 0.2.
const REFUTED: &str = "zonomon 1
model 0 twin
sample 0
p 0 0 -2.100000000 2.100000000
p 0 1 -2.100000000 2.100000000
x 0 rows 1000000000 -1000000000
possible
verdict none
end 1
";

#[test]
fn two_sensors_of_one_sum_refute_together(rt: HostRuntime) -> Result<(), Fail> {
    let ran = run_over(rt.alloc(), TWIN, APART)?;
    assert_eq!(rt; ran.said(), (0, REFUTED, ""));
    Ok(())
}

/// What stands in the place of the certificate, and what a check then says.
const OFFERS: [(&str, (u8, &str, &str)); 7] = [
    ("rows 1000000000 -1000000000", (0, "accepted\n", "")),
    ("rows 1 -1", (0, "accepted\n", "")),
    ("rows 0 0", (7, "", "report refused: line 6\n")),
    ("rows 1", (7, "", "report refused: line 6\n")),
    ("rows -2147483648 1", (7, "", "report refused: line 6\n")),
    ("rows 1 -1 0", (7, "", "report refused: line 6\n")),
    ("out 0", (7, "", "report refused: line 6\n")),
];

#[test]
fn any_multipliers_that_refute_are_accepted(rt: HostRuntime) -> Result<(), Fail> {
    let alloc = rt.alloc();
    for (offer, said) in OFFERS {
        let report = REFUTED.replace(alloc, "rows 1000000000 -1000000000", offer)?;
        let ran = check_over(alloc, TWIN, APART, &report)?;
        assert_eq!(rt; ran.said(), said, "{offer}");
    }
    Ok(())
}

/// Three differences round a ring of three levels add up to 0.6, and their noises to 0.3: no two of them show it.
const ROUND: &str = "y0,y1,y2\n0.2,0.2,0.2\n";

/// What a report of it says up to the outcome: each difference of two levels within 1 reaches 2, and its noise 0.1 more.
const RING_FRONT: &str = "zonomon 1
model 0 ring
sample 0
p 0 0 -2.100000000 2.100000000
p 0 1 -2.100000000 2.100000000
p 0 2 -2.100000000 2.100000000
";

/// What follows the line of an exclusion.
const EXCLUDED: &str = "
possible
verdict none
end 1
";

/// What follows where the ring stays possible: a substitution of any difference would spread more than the box, so the
/// hulls are those of the box.
const STAYING: &str = "h 0 0 -1.000000000 1.000000000
h 0 1 -1.000000000 1.000000000
h 0 2 -1.000000000 1.000000000
s 0 fits
possible 0
verdict isolated 0
end 1
";

/// A report of one sample that excludes by these multipliers.
fn excluding(alloc: Global, front: &str, list: &str) -> Result<String, Fail> {
    let mut report = String::from_str(alloc, front)?;
    report.push_str("x 0 rows ")?;
    report.push_str(list)?;
    report.push_str(EXCLUDED)?;
    Ok(report)
}

/// The multipliers of a report of one sample that excludes by them.
fn list_of<'a>(report: &'a str, front: &str) -> Option<&'a str> {
    let rest = report.strip_prefix(front)?;
    rest.strip_prefix("x 0 rows ")?.strip_suffix(EXCLUDED)
}

/// A run excludes the model by three multipliers, none of them 0, so that no candidate is among them; a check accepts
/// its report, and answers each of these lists so.
fn expect_found(
    rt: &(impl AllocGlobal + Abort),
    [model, telemetry, front]: [&str; 3],
    answers: &[(&str, (u8, &str, &str))],
) -> Result<(), Fail> {
    let alloc = rt.alloc();
    let ran = run_over(alloc, model, telemetry)?;
    assert_eq!(rt; (ran.status, ran.told.as_str()), (0, ""));
    let list = list_of(ran.report.as_str(), front).ok_or("not excluded by rows")?;
    assert_eq!(rt; list.split(' ').count(), 3);
    assert!(rt; !list.split(' ').any(|number| number == "0"));
    let checked = check_over(alloc, model, telemetry, &ran.report)?;
    assert_eq!(rt; checked.said(), (0, "accepted\n", ""));
    for (list, said) in answers {
        let report = excluding(alloc, front, list)?;
        let checked = check_over(alloc, model, telemetry, &report)?;
        assert_eq!(rt; checked.said(), *said, "{list}");
    }
    Ok(())
}

/// What a check says of multipliers that refute.
const ACCEPTED: (u8, &str, &str) = (0, "accepted\n", "");

/// What it says of others in line 7.
const DEPARTS: (u8, &str, &str) = (7, "", "report refused: line 7\n");

/// With equal multipliers every level cancels: 0.6 is beyond the noises, which reach 0.3. With any two of them two
/// levels stay, and reach 2.2 where the right side is 0.4.
#[test]
fn three_sensors_round_a_ring_refute_together(rt: HostRuntime) -> Result<(), Fail> {
    let answers = [("1 1 1", ACCEPTED), ("1 1 0", DEPARTS), ("0 0 1", DEPARTS)];
    expect_found(&rt, [RING, ROUND, RING_FRONT], &answers)
}

/// The same readings times 1, 2 and 3.
const UNEQUAL: &str = "y0,y1,y2\n0.2,0.4,0.6\n";

const UNEQUAL_FRONT: &str = "zonomon 1
model 0 ring
sample 0
p 0 0 -2.100000000 2.100000000
p 0 1 -4.100000000 4.100000000
p 0 2 -6.100000000 6.100000000
";

/// The differences are read once, twice and three times as large. With the multipliers 6, 3 and 2 every level cancels:
/// 3.6 is beyond the noises, which reach 1.1. With equal ones levels stay, and reach 4.3 where the right side is 1.2.
#[test]
fn unequal_sensors_round_a_ring_refute_together(rt: HostRuntime) -> Result<(), Fail> {
    let model = RING.replace(
        rt.alloc(),
        "[[1, -1, 0], [0, 1, -1], [-1, 0, 1]]",
        "[[1, -1, 0], [0, 2, -2], [-3, 0, 3]]",
    )?;
    let answers = [("6 3 2", ACCEPTED), ("1 1 1", DEPARTS), ("2 1 0", DEPARTS)];
    expect_found(&rt, [model.as_str(), UNEQUAL, UNEQUAL_FRONT], &answers)
}

/// A run excludes the ring by the multipliers that its search finds. A check also accepts a report that leaves it
/// possible, and one that excludes it by other multipliers: 11.8 is beyond 7.9.
#[test]
fn report_with_other_certificates_than_a_run_has_is_accepted(rt: HostRuntime) -> Result<(), Fail> {
    let alloc = rt.alloc();
    let mut staying = String::from_str(alloc, RING_FRONT)?;
    staying.push_str(STAYING)?;
    let by_three = excluding(alloc, RING_FRONT, "20 20 19")?;
    let ran = run_over(alloc, RING, ROUND)?;
    for report in [&staying, &by_three] {
        assert!(rt; ran.report.as_str() != report.as_str());
        let checked = check_over(alloc, RING, ROUND, report)?;
        assert_eq!(rt; checked.said(), ACCEPTED);
    }
    Ok(())
}
