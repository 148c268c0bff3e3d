//! Model files and telemetries that are refused.
use super::inputs::{P, Q};
use super::run_over;
use std::test::Fail;

#[test]
fn changed_model_is_refused_at_its_place(rt: HostRuntime) -> Result<(), Fail> {
    let alloc = rt.alloc();
    let cases = [
        (
            "version = 1",
            "version = 2",
            "model refused: version: wrong kind\n",
        ),
        (
            "version = 1",
            "version = 1\nversion = 1",
            "model refused: not TOML\n",
        ),
        (
            "\"0.5\"",
            "0.5",
            "model refused: model[0].A[0][0]: wrong kind\n",
        ),
        (
            "states = 1\ndisturbances = 0\nA = [[\"0.5\"]]",
            "states = 2\ndisturbances = 0\nA = [[\"0.5\", 0], [0]]",
            "model refused: model[0].A[1]: 2 entries wanted, 1 found\n",
        ),
        (
            "state_max = [1000]",
            "state_max = [1000000001]",
            "model refused: model[0].state_max[0]: out of range\n",
        ),
        (
            "\"0.1\"",
            "\"0.0000000001\"",
            "model refused: model[0].noise[0]: finer than 0.000000001\n",
        ),
    ];
    for (old, new, told) in cases {
        let ran = run_over(alloc, &P.replace(alloc, old, new)?, "y\n0.5\n")?;
        assert_eq!(rt; ran.said(), (2, "", told));
    }
    Ok(())
}

#[test]
fn seventeenth_model_is_refused(rt: HostRuntime) -> Result<(), Fail> {
    let alloc = rt.alloc();
    let mut model = String::from_str(alloc, P)?;
    model.push_str(&"[[model]]\n".repeat(alloc, 16)?)?;
    let ran = run_over(alloc, &model, "y\n0.5\n")?;
    let told = "model refused: model: too many, 17\n";
    assert_eq!(rt; ran.said(), (2, "", told));
    Ok(())
}

const BEFORE_THE_REFUSAL: &str = "zonomon 1
model 0 P
sample 0
p 0 0 -1.100000000 1.100000000
h 0 0 0.386138612 0.603960398
s 0 fits
possible 0
verdict isolated 0
";

#[test]
fn rows_before_a_refused_line_are_reported(rt: HostRuntime) -> Result<(), Fail> {
    let alloc = rt.alloc();
    let mut long = String::from_str(alloc, "y\n")?;
    long.push_str(&"0".repeat(alloc, 4097)?)?;
    long.push('\n')?;
    let head = "zonomon 1\nmodel 0 P\n";
    let cases = [
        (P, "", "", "telemetry refused: line 1: no header\n"),
        (
            P,
            "t,z\n0,1\n",
            "",
            "telemetry refused: line 1: no column for output 0\n",
        ),
        (
            P,
            "y,y\n0,1\n",
            "",
            "telemetry refused: line 1: column twice for output 0\n",
        ),
        (
            P,
            "y\ninf\n",
            head,
            "telemetry refused: line 2: output 0: not a decimal\n",
        ),
        (
            Q,
            "u,y\n,1\n",
            "zonomon 1\nmodel 0 Q\n",
            "telemetry refused: line 2: input 0 is missing\n",
        ),
        (
            P,
            long.as_str(),
            head,
            "telemetry refused: line 2: line over 4096 bytes\n",
        ),
        (
            P,
            "t,y\n0,0.5\n1\n",
            BEFORE_THE_REFUSAL,
            "telemetry refused: line 3: 2 fields wanted, 1 found\n",
        ),
    ];
    for (model, telemetry, report, told) in cases {
        let ran = run_over(alloc, model, telemetry)?;
        assert_eq!(rt; ran.said(), (3, report, told));
    }
    Ok(())
}
