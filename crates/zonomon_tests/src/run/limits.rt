//! Files at the limits of their sizes. Where there is memory, none is wanted: a free answer could hide that.
use super::inputs::P;
use super::{check_over, run_over};
use std::alloc::Global;
use std::test::Fail;

/// The most bytes of a model file.
const MOST_MODEL: usize = 1_048_576;

/// The most bytes of a line of a telemetry, before its line feed.
const MOST_LINE: usize = 4_096;

/// The columns of the largest models.
const COLUMNS: &str = "inputs = [\"a\", \"b\", \"c\", \"d\"]
outputs = [\"p\", \"q\", \"r\", \"s\", \"t\", \"u\"]
";

/// A model of 8 states, 8 disturbances, 4 inputs and 6 outputs, up to its name and its rows.
const LARGEST: &str = "[[model]]
name = \"NAME\"
states = 8
disturbances = 8
A = [EIGHT, EIGHT, EIGHT, EIGHT, EIGHT, EIGHT, EIGHT, EIGHT]
B = [FOUR, FOUR, FOUR, FOUR, FOUR, FOUR, FOUR, FOUR]
C = [EIGHT, EIGHT, EIGHT, EIGHT, EIGHT, EIGHT]
D = [FOUR, FOUR, FOUR, FOUR, FOUR, FOUR]
E = [EIGHT, EIGHT, EIGHT, EIGHT, EIGHT, EIGHT, EIGHT, EIGHT]
noise = [\"0.01\", \"0.01\", \"0.01\", \"0.01\", \"0.01\", \"0.01\"]
centre = EIGHT
radius = EIGHT
state_max = EIGHT
";

const EIGHT: &str =
    "[\"0.01\", \"0.01\", \"0.01\", \"0.01\", \"0.01\", \"0.01\", \"0.01\", \"0.01\"]";

const FOUR: &str = "[\"0.01\", \"0.01\", \"0.01\", \"0.01\"]";

const NAMES: [&str; 16] = [
    "m0", "m1", "m2", "m3", "m4", "m5", "m6", "m7", "m8", "m9", "m10", "m11", "m12", "m13", "m14",
    "m15",
];

/// So many times this character.
fn repeated(alloc: Global, text: &str, count: usize) -> Result<String, Fail> {
    let mut repeated = String::new(alloc);
    for _ in 0..count {
        repeated.push_str(text)?;
    }
    Ok(repeated)
}

/// A model file of the greatest size: 16 of the largest models, and a note that fills it up.
fn largest_models(alloc: Global) -> Result<String, Fail> {
    let model = LARGEST
        .replace(alloc, "EIGHT", EIGHT)?
        .replace(alloc, "FOUR", FOUR)?;
    let mut text = String::from_str(alloc, "version = 1\n")?;
    text.push_str(COLUMNS)?;
    for name in NAMES {
        text.push_str(&model.replace(alloc, "NAME", name)?)?;
    }
    text.push_str("#")?;
    let left = MOST_MODEL.saturating_sub(text.len());
    text.push_str(&repeated(alloc, "-", left)?)?;
    Ok(text)
}

/// A row of the longest lines: ten quoted fields, which spaces fill up.
fn longest_row(alloc: Global) -> Result<String, Fail> {
    let mut row = String::new(alloc);
    for place in 0..10u32 {
        let spaces = if place == 0 { 409 } else { 402 };
        row.push_str(if place == 0 { "\"0.01" } else { ",\"0.01" })?;
        row.push_str(&repeated(alloc, " ", spaces)?)?;
        row.push_str("\"")?;
    }
    Ok(row)
}

/// A telemetry of three of the longest rows.
fn longest_rows(alloc: Global) -> Result<String, Fail> {
    let row = longest_row(alloc)?;
    let mut text = String::from_str(alloc, "\"a\",b,c,d,p,q,r,s,t,\"u\"\n")?;
    for _ in 0..3u32 {
        text.push_str(&row)?;
        text.push_str("\n")?;
    }
    Ok(text)
}

#[test]
fn greatest_files_are_monitored_and_checked(rt: HostRuntime) -> Result<(), Fail> {
    let alloc = rt.alloc();
    let models = largest_models(alloc)?;
    let rows = longest_rows(alloc)?;
    assert_eq!(rt;
        (models.len(), longest_row(alloc)?.len()),
        (MOST_MODEL, MOST_LINE)
    );
    let ran = run_over(alloc, &models, &rows)?;
    assert_eq!(rt; (ran.status, ran.told.as_str()), (0, ""));
    assert!(rt; ran.report.ends_with("verdict several\nend 3\n"));
    let checked = check_over(alloc, &models, &rows, &ran.report)?;
    assert_eq!(rt; checked.said(), (0, "accepted\n", ""));
    Ok(())
}

#[test]
fn model_file_past_the_greatest_is_refused(rt: HostRuntime) -> Result<(), Fail> {
    let alloc = rt.alloc();
    let mut models = largest_models(alloc)?;
    models.push_str("-")?;
    let said = (2, "", "model refused: file: too many, 1048577\n");
    assert_eq!(rt; run_over(alloc, &models, "")?.said(), said);
    assert_eq!(rt; check_over(alloc, &models, "", "")?.said(), said);
    Ok(())
}

/// What fills a model file of the greatest size, none of which is one.
const NO_MODELS: [&str; 8] = ["[", "{", "\"", "a", "=", "a.", "[[a]]\n", "a = [\n"];

#[test]
fn greatest_files_of_no_models_are_refused(rt: HostRuntime) -> Result<(), Fail> {
    let alloc = rt.alloc();
    for unit in NO_MODELS {
        let text = repeated(alloc, unit, MOST_MODEL / unit.len().max(1))?;
        let ran = run_over(alloc, &text, "")?;
        assert_eq!(rt; (ran.status, ran.report.as_str()), (2, ""), "{unit}");
    }
    Ok(())
}

/// What stands in front of a line of the longest, what fills it, and how a run over it ends.
const LONGEST: [(&str, &str, (u8, &str)); 9] = [
    (
        "",
        ",",
        (
            3,
            "telemetry refused: line 2: 1 fields wanted, 4097 found\n",
        ),
    ),
    (
        "",
        "\"",
        (3, "telemetry refused: line 2: output 0: not a decimal\n"),
    ),
    (
        "",
        "\",",
        (
            3,
            "telemetry refused: line 2: 1 fields wanted, 1025 found\n",
        ),
    ),
    (
        "",
        "x",
        (3, "telemetry refused: line 2: output 0: not a decimal\n"),
    ),
    (
        "",
        "9",
        (3, "telemetry refused: line 2: output 0: too large\n"),
    ),
    ("0e", "9", (0, "")),
    ("0.", "3", (0, "")),
    ("", "0", (0, "")),
    ("", " ", (0, "")),
];

#[test]
fn longest_lines_are_read_or_refused_by_their_cause(rt: HostRuntime) -> Result<(), Fail> {
    let alloc = rt.alloc();
    for (front, unit, said) in LONGEST {
        let mut text = String::from_str(alloc, "y\n")?;
        text.push_str(front)?;
        let count = MOST_LINE.saturating_sub(front.len()) / unit.len().max(1);
        text.push_str(&repeated(alloc, unit, count)?)?;
        assert_eq!(rt; text.len(), MOST_LINE + 2);
        let ran = run_over(alloc, P, &text)?;
        assert_eq!(rt; (ran.status, ran.told.as_str()), said, "{front}{unit}");
        text.push_str(unit)?;
        let ran = run_over(alloc, P, &text)?;
        assert_eq!(rt;
            (ran.status, ran.told.as_str()),
            (3, "telemetry refused: line 2: line over 4096 bytes\n")
        );
    }
    Ok(())
}
