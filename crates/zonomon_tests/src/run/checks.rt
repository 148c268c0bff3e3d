//! Reports that are checked: what is accepted, and where what is not departs.
use super::inputs::{P, PAIR, Q, UNLIKE, WHEEL, WHEEL_ROWS};
use super::one_model::HALF;
use super::several_models::TOLD_APART;
use super::{check_over, run_over};
use std::test::Fail;

const ACCEPTED: (u8, &str, &str) = (0, "accepted\n", "");

/// The telemetry of the report `TOLD_APART`.
const TWO_ROWS: &str = "y\n0.5\n0.2\n";

/// A telemetry of one row, and a second that is refused.
const SHORT_ROW: &str = "t,y\n0,0.5\n1\n";

const SHORT_ROW_TOLD: &str = "telemetry refused: line 3: 2 fields wanted, 1 found\n";

#[test]
fn written_report_is_accepted(rt: HostRuntime) -> Result<(), Fail> {
    let cases = [
        (P, "y\n0.5\n", HALF),
        (P, "t,y\n0,0.5", HALF),
        (P, "y\n", "zonomon 1\nmodel 0 P\nend 0\n"),
        (PAIR, TWO_ROWS, TOLD_APART),
    ];
    for (model, telemetry, report) in cases {
        let ran = check_over(rt.alloc(), model, telemetry, report)?;
        assert_eq!(rt; ran.said(), ACCEPTED);
    }
    Ok(())
}

#[test]
fn report_of_a_run_is_accepted(rt: HostRuntime) -> Result<(), Fail> {
    let alloc = rt.alloc();
    let growing = P.replace(alloc, "\"0.5\"", "1000")?;
    let cases = [
        (P, "y\n0.5\n0.5\n0.5\n"),
        (P, "y\n1.1000000009\n"),
        (growing.as_str(), "t,y\n0,\n1,\n2,\n3,\n4,\n"),
        (Q, "u,y\n2,NaN\n0,2.0\n"),
        (UNLIKE, "y\nNA\n2\n"),
        (WHEEL, WHEEL_ROWS),
    ];
    for (model, telemetry) in cases {
        let ran = run_over(alloc, model, telemetry)?;
        assert_eq!(rt; (ran.status, ran.told.as_str()), (0, ""));
        let checked = check_over(alloc, model, telemetry, &ran.report)?;
        assert_eq!(rt; checked.said(), ACCEPTED);
    }
    Ok(())
}

/// Changes in the report of two samples, each with the line at which it then departs.
const CHANGES: [(&str, &str, (u8, &str)); 20] = [
    ("zonomon 1\n", "", (7, "report refused: line 1\n")),
    (
        "zonomon 1\n",
        "zonomon 1\r\n",
        (7, "report refused: line 1\n"),
    ),
    (
        "zonomon 1\n",
        "\nzonomon 1\n",
        (7, "report refused: line 1\n"),
    ),
    ("model 1 minus\n", "", (7, "report refused: line 3\n")),
    (
        "h 0 0 0.386138612",
        "h 0 0 0.386138613",
        (7, "report refused: line 6\n"),
    ),
    (
        "h 0 0 0.386138612",
        "h 0 0  0.386138612",
        (7, "report refused: line 6\n"),
    ),
    (
        "h 0 0 0.386138612 0.603960398\n",
        "x 0 rows 1\n",
        (7, "report refused: line 6\n"),
    ),
    (
        "s 1 fits\n",
        "s 1 undecided\n",
        (7, "report refused: line 10\n"),
    ),
    (
        "possible 0 1\n",
        "possible 0\n",
        (7, "report refused: line 11\n"),
    ),
    ("x 1 out 0\n", "", (7, "report refused: line 18\n")),
    (
        "x 1 out 0\n",
        "x 1 out 1\n",
        (7, "report refused: line 18\n"),
    ),
    (
        "x 1 out 0\n",
        "x 1 rows 1\n",
        (7, "report refused: line 18\n"),
    ),
    (
        "x 1 out 0\n",
        "h 1 0 -0.301980200 -0.193069304\ns 1 fits\n",
        (7, "report refused: line 18\n"),
    ),
    (
        "verdict isolated 0\n",
        "verdict fault\n",
        (7, "report refused: line 20\n"),
    ),
    ("end 2\n", "", (7, "report refused: line 21\n")),
    ("end 2\n", "end 2", (7, "report refused: line 21\n")),
    ("end 2\n", "end 3\n", (7, "report refused: line 21\n")),
    (
        "end 2\n",
        "end 2\nend 2\n",
        (7, "report refused: line 22\n"),
    ),
    ("end 2\n", "end 2\n\n", (7, "report refused: line 22\n")),
    ("end 2\n", "end 2\n ", (7, "report refused: line 22\n")),
];

#[test]
fn changed_report_is_refused_at_its_first_line_that_departs(rt: HostRuntime) -> Result<(), Fail> {
    let alloc = rt.alloc();
    for (old, new, (status, told)) in CHANGES {
        let report = TOLD_APART.replace(alloc, old, new)?;
        let ran = check_over(alloc, PAIR, TWO_ROWS, &report)?;
        assert_eq!(rt; ran.said(), (status, "", told), "{old} as {new}");
    }
    Ok(())
}

/// Changes at the end of the report of one sample.
const CHANGED_ENDS: [(&str, &str, (u8, &str)); 2] = [
    ("end 1\n", "end 1", (7, "report refused: line 9\n")),
    (
        "end 1\n",
        "end 1\nend 1\n",
        (7, "report refused: line 10\n"),
    ),
];

#[test]
fn report_of_one_row_ends_with_its_end(rt: HostRuntime) -> Result<(), Fail> {
    let alloc = rt.alloc();
    for (old, new, (status, told)) in CHANGED_ENDS {
        let report = HALF.replace(alloc, old, new)?;
        let ran = check_over(alloc, P, "y\n0.5\n", &report)?;
        assert_eq!(rt; ran.said(), (status, "", told), "{old} as {new}");
    }
    Ok(())
}

/// Changes in the report of one sample before a row that is refused.
const CHANGES_BEFORE: [(&str, &str, (u8, &str)); 7] = [
    ("end 1\n", "end 1\n", (3, SHORT_ROW_TOLD)),
    ("end 1\n", "", (3, SHORT_ROW_TOLD)),
    ("end 1\n", "end 7", (3, SHORT_ROW_TOLD)),
    ("end 1\n", "sample 1\n", (3, SHORT_ROW_TOLD)),
    (
        "h 0 0 0.386138612",
        "h 0 0 0.386138613",
        (7, "report refused: line 5\n"),
    ),
    (
        "verdict isolated 0\nend 1\n",
        "",
        (7, "report refused: line 8\n"),
    ),
    (
        "verdict isolated 0\nend 1\n",
        "verdict isolated 0",
        (7, "report refused: line 8\n"),
    ),
];

#[test]
fn a_refused_row_is_told_where_the_report_does_not_depart_before(
    rt: HostRuntime,
) -> Result<(), Fail> {
    let alloc = rt.alloc();
    for (old, new, (status, told)) in CHANGES_BEFORE {
        let report = HALF.replace(alloc, old, new)?;
        let ran = check_over(alloc, P, SHORT_ROW, &report)?;
        assert_eq!(rt; ran.said(), (status, "", told), "{old} as {new}");
    }
    Ok(())
}

#[test]
fn line_past_the_longest_is_refused(rt: HostRuntime) -> Result<(), Fail> {
    let alloc = rt.alloc();
    for count in [256, 257, 5000] {
        let long = "v".repeat(alloc, count)?;
        let report = TOLD_APART.replace(alloc, "verdict several", &long)?;
        let ran = check_over(alloc, PAIR, TWO_ROWS, &report)?;
        assert_eq!(rt; ran.said(), (7, "", "report refused: line 12\n"));
    }
    Ok(())
}

#[test]
fn refused_header_and_model_are_told_whatever_the_report_is(rt: HostRuntime) -> Result<(), Fail> {
    let alloc = rt.alloc();
    let later = P.replace(alloc, "version = 1", "version = 2")?;
    for report in [HALF, "", "end"] {
        let ran = check_over(alloc, P, "t,z\n0,1\n", report)?;
        let told = "telemetry refused: line 1: no column for output 0\n";
        assert_eq!(rt; ran.said(), (3, "", told));
        let ran = check_over(alloc, &later, "y\n0.5\n", report)?;
        assert_eq!(rt; ran.said(), (2, "", "model refused: version: wrong kind\n"));
    }
    Ok(())
}
