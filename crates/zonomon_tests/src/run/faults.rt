//! Inputs that can't be read, and an output that can't be written.
use super::call_failing;
use super::several_models::TOLD_APART;
use std::test::Fail;

/// The words of a run, and of one whose telemetry is no file.
const RUN: &[&str] = &["run", "m", "t"];

const RUN_OF_NONE: &[&str] = &["run", "m", "x"];

/// The words of a check, and of one whose report is no file.
const CHECK: &[&str] = &["check", "m", "t", "r"];

const CHECK_OF_NONE: &[&str] = &["check", "m", "t", "x"];

/// The words, the calls that fail of the shelf and of `out`, and what is said.
type Case = (
    &'static [&'static str],
    &'static [(usize, u64)],
    &'static [u64],
    (u8, &'static str, &'static str),
);

/// Runs: faults of the model file and at the start of the telemetry, a name that no file has, faults of the output, and
/// faults that never come.
const RUNS: [Case; 9] = [
    (RUN, &[(0, 1)], &[], (4, "", "read fault: model\n")),
    (RUN, &[(0, 2)], &[], (4, "", "read fault: model\n")),
    (RUN, &[(0, 3)], &[], (4, "", "read fault: model\n")),
    (RUN, &[(1, 1)], &[], (4, "", "read fault: telemetry\n")),
    (RUN, &[(1, 2)], &[], (4, "", "read fault: telemetry\n")),
    (RUN_OF_NONE, &[], &[], (4, "", "read fault: telemetry\n")),
    (RUN, &[], &[1], (5, "", "write fault\n")),
    (
        RUN,
        &[],
        &[3],
        (5, "zonomon 1\nmodel 0 half\n", "write fault\n"),
    ),
    (RUN, &[(0, 4), (1, 4), (2, 1)], &[22], (0, TOLD_APART, "")),
];

/// Checks: faults of each file, a name that no file has, a fault of the output, and faults that never come.
const CHECKS: [Case; 10] = [
    (CHECK, &[(0, 1)], &[], (4, "", "read fault: model\n")),
    (CHECK, &[(0, 2)], &[], (4, "", "read fault: model\n")),
    (CHECK, &[(1, 1)], &[], (4, "", "read fault: telemetry\n")),
    (CHECK, &[(1, 2)], &[], (4, "", "read fault: telemetry\n")),
    (CHECK, &[(2, 1)], &[], (4, "", "read fault: report\n")),
    (CHECK, &[(2, 2)], &[], (4, "", "read fault: report\n")),
    (CHECK, &[(2, 3)], &[], (4, "", "read fault: report\n")),
    (CHECK_OF_NONE, &[], &[], (4, "", "read fault: report\n")),
    (CHECK, &[], &[1], (5, "", "write fault\n")),
    (
        CHECK,
        &[(0, 4), (1, 4), (2, 4)],
        &[2],
        (0, "accepted\n", ""),
    ),
];

#[test]
fn each_fault_ends_a_run_at_its_place(rt: HostRuntime) -> Result<(), Fail> {
    for (texts, gets, puts, said) in RUNS {
        let ran = call_failing(rt.alloc(), texts, gets, puts)?;
        assert_eq!(rt; ran.said(), said, "{texts:?} {gets:?} {puts:?}");
    }
    Ok(())
}

#[test]
fn each_fault_ends_a_check_at_its_place(rt: HostRuntime) -> Result<(), Fail> {
    for (texts, gets, puts, said) in CHECKS {
        let ran = call_failing(rt.alloc(), texts, gets, puts)?;
        assert_eq!(rt; ran.said(), said, "{texts:?} {gets:?} {puts:?}");
    }
    Ok(())
}

#[test]
fn a_fault_at_the_end_leaves_all_lines_but_the_last(rt: HostRuntime) -> Result<(), Fail> {
    let whole = TOLD_APART.strip_suffix("end 2\n").unwrap_or("");
    let ends: [Case; 2] = [
        (RUN, &[(1, 3)], &[], (4, whole, "read fault: telemetry\n")),
        (RUN, &[], &[21], (5, whole, "write fault\n")),
    ];
    for (texts, gets, puts, said) in ends {
        let ran = call_failing(rt.alloc(), texts, gets, puts)?;
        assert_eq!(rt; ran.said(), said, "{texts:?} {gets:?} {puts:?}");
    }
    Ok(())
}
