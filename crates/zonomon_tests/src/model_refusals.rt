use model_file::{MOST_BYTES, read_models};
use refusal_text::model_refusal;
use std::alloc::Global;
use std::process::Abort;
use std::test::Fail;

/// A model file with every field, each on a line of its own.
const FILE: &str = "version = 1
inputs = [\"u\"]
outputs = [\"y\"]
[[model]]
name = \"Q\"
states = 1
disturbances = 1
A = [[\"0.5\"]]
B = [[1]]
C = [[1]]
D = [[0]]
E = [[\"0.2\"]]
noise = [\"0.1\"]
centre = [1]
radius = [1]
state_max = [1000]
";

/// The file with other text in place of the line of this key.
fn with_line(alloc: Global, key: &str, line: &str) -> Result<String, Fail> {
    let mut text = String::new(alloc);
    for old in FILE.lines() {
        let is_it = match old.split_once(" = ") {
            Some((name, _)) => name == key,
            None => false,
        };
        if is_it {
            text.push_str(line)?;
        } else {
            text.push_str(old)?;
        }
        text.push_str("\n")?;
    }
    Ok(text)
}

/// What is said of a file, or nothing where it is accepted.
fn said(alloc: Global, bytes: &[u8]) -> Result<String, Fail> {
    match read_models(alloc, bytes) {
        Ok(_) => Ok(String::new(alloc)),
        Err(fault) => {
            let line = model_refusal(&fault);
            let text = std::str::from_utf8(&line).map_err(|_| Fail::from("no text"))?;
            Ok(String::from_str(alloc, text)?)
        }
    }
}

/// Each line in place of that of its key, and what is said then.
fn check(rt: &(impl AllocGlobal + Abort), cases: &[(&str, &str, &str)]) -> Result<(), Fail> {
    for (key, line, expected) in cases {
        let text = with_line(rt.alloc(), key, line)?;
        let said = said(rt.alloc(), text.as_bytes())?;
        assert_eq!(rt; said.as_str(), *expected, "{key}: {line}");
    }
    Ok(())
}

#[test]
fn the_heads_of_a_file_are_judged(rt: HostRuntime) -> Result<(), Fail> {
    check(
        &rt,
        &[
            ("note", "", ""),
            ("version", "", "model refused: version: missing"),
            (
                "version",
                "version = \"1\"",
                "model refused: version: wrong kind",
            ),
            (
                "version",
                "version = 1.0",
                "model refused: version: wrong kind",
            ),
            (
                "version",
                "version = 2",
                "model refused: version: wrong kind",
            ),
            (
                "version",
                "version = \nversion = 1",
                "model refused: not TOML",
            ),
            ("version", "version = 1\nnote = 0.5", ""),
            ("inputs", "", ""),
            ("inputs", "inputs = []", ""),
            ("inputs", "inputs = 1", "model refused: inputs: wrong kind"),
            (
                "inputs",
                "inputs = [1]",
                "model refused: inputs[0]: wrong kind",
            ),
            (
                "inputs",
                "inputs = [\"a\", \"b\", \"c\", \"d\", \"e\"]",
                "model refused: inputs: too many, 5",
            ),
            (
                "inputs",
                "inputs = [\"a\", \"b\", \"a\", \"d\"]",
                "model refused: inputs[2]: bad name",
            ),
            (
                "inputs",
                "inputs = [\"\"]",
                "model refused: inputs[0]: bad name",
            ),
            (
                "inputs",
                "inputs = [\"u \"]",
                "model refused: inputs[0]: bad name",
            ),
            (
                "inputs",
                "inputs = [\" u\"]",
                "model refused: inputs[0]: bad name",
            ),
            ("inputs", "inputs = [\"a b\"]", ""),
            (
                "inputs",
                "inputs = [\"u\\u007F\"]",
                "model refused: inputs[0]: bad name",
            ),
            (
                "inputs",
                "inputs = [\"u\\u001F\"]",
                "model refused: inputs[0]: bad name",
            ),
            ("inputs", "inputs = [\"\u{b5}\"]", ""),
            (
                "inputs",
                "inputs = [\"1234567890123456789012345678901234567890123456789012345678901234\"]",
                "",
            ),
            (
                "inputs",
                "inputs = [\"12345678901234567890123456789012345678901234567890123456789012345\"]",
                "model refused: inputs[0]: bad name",
            ),
            ("outputs", "", "model refused: outputs: missing"),
            (
                "outputs",
                "outputs = \"y\"",
                "model refused: outputs: wrong kind",
            ),
            (
                "outputs",
                "outputs = []",
                "model refused: outputs: 1 entries wanted, 0 found",
            ),
            (
                "outputs",
                "outputs = [\"1\", \"2\", \"3\", \"4\", \"5\", \"6\", \"7\"]",
                "model refused: outputs: too many, 7",
            ),
            (
                "outputs",
                "outputs = [\"u\"]",
                "model refused: outputs[0]: bad name",
            ),
            (
                "outputs",
                "outputs = [\"y\", \"y\"]",
                "model refused: outputs[1]: bad name",
            ),
            (
                "outputs",
                "outputs = [\"y\", 1]",
                "model refused: outputs[1]: wrong kind",
            ),
        ],
    )
}

#[test]
fn the_counts_of_a_model_are_judged(rt: HostRuntime) -> Result<(), Fail> {
    check(
        &rt,
        &[
            ("name", "", "model refused: model[0].name: missing"),
            (
                "name",
                "name = 1",
                "model refused: model[0].name: wrong kind",
            ),
            (
                "name",
                "name = \"\"",
                "model refused: model[0].name: bad name",
            ),
            (
                "name",
                "name = \"\u{b5}\"",
                "model refused: model[0].name: bad name",
            ),
            ("name", "name = \"12345678901234567890123456789012\"", ""),
            (
                "name",
                "name = \"123456789012345678901234567890123\"",
                "model refused: model[0].name: bad name",
            ),
            ("states", "", "model refused: model[0].states: missing"),
            (
                "states",
                "states = \"1\"",
                "model refused: model[0].states: wrong kind",
            ),
            (
                "states",
                "states = 0",
                "model refused: model[0].states: wrong kind",
            ),
            (
                "states",
                "states = -1",
                "model refused: model[0].states: wrong kind",
            ),
            (
                "states",
                "states = 9",
                "model refused: model[0].states: too many, 9",
            ),
            (
                "disturbances",
                "",
                "model refused: model[0].disturbances: missing",
            ),
            (
                "disturbances",
                "disturbances = -1",
                "model refused: model[0].disturbances: wrong kind",
            ),
            (
                "disturbances",
                "disturbances = 9",
                "model refused: model[0].disturbances: too many, 9",
            ),
            ("disturbances", "disturbances = 0", ""),
        ],
    )
}

#[test]
fn the_numbers_of_a_model_are_judged(rt: HostRuntime) -> Result<(), Fail> {
    check(
        &rt,
        &[
            ("A", "", "model refused: model[0].A: missing"),
            ("A", "A = 1", "model refused: model[0].A: wrong kind"),
            (
                "A",
                "A = [[0.5], [0]]",
                "model refused: model[0].A: 1 entries wanted, 2 found",
            ),
            ("A", "A = [1]", "model refused: model[0].A[0]: wrong kind"),
            (
                "A",
                "A = [[]]",
                "model refused: model[0].A[0]: 1 entries wanted, 0 found",
            ),
            (
                "A",
                "A = [[0.5]]",
                "model refused: model[0].A[0][0]: wrong kind",
            ),
            (
                "A",
                "A = [[true]]",
                "model refused: model[0].A[0][0]: wrong kind",
            ),
            (
                "A",
                "A = [[\"1e3\"]]",
                "model refused: model[0].A[0][0]: not a decimal",
            ),
            (
                "A",
                "A = [[\"1000000000000000000.1\"]]",
                "model refused: model[0].A[0][0]: too large",
            ),
            (
                "A",
                "A = [[\"0.0000000001\"]]",
                "model refused: model[0].A[0][0]: finer than 0.000000001",
            ),
            (
                "A",
                "A = [[\"1000.000000001\"]]",
                "model refused: model[0].A[0][0]: out of range",
            ),
            (
                "A",
                "A = [[\"-1000.000000001\"]]",
                "model refused: model[0].A[0][0]: out of range",
            ),
            ("A", "A = [[-1000]]", ""),
            ("B", "", "model refused: model[0].B: missing"),
            (
                "B",
                "B = [[1, 2]]",
                "model refused: model[0].B[0]: 1 entries wanted, 2 found",
            ),
            (
                "B",
                "B = [[1001]]",
                "model refused: model[0].B[0][0]: out of range",
            ),
            ("C", "", "model refused: model[0].C: missing"),
            (
                "C",
                "C = [[-1001]]",
                "model refused: model[0].C[0][0]: out of range",
            ),
            ("D", "", "model refused: model[0].D: missing"),
            (
                "D",
                "D = [[1001]]",
                "model refused: model[0].D[0][0]: out of range",
            ),
            ("E", "", "model refused: model[0].E: missing"),
            ("E", "E = [[1000000000]]", ""),
            (
                "E",
                "E = [[1000000001]]",
                "model refused: model[0].E[0][0]: out of range",
            ),
            ("noise", "", "model refused: model[0].noise: missing"),
            (
                "noise",
                "noise = []",
                "model refused: model[0].noise: 1 entries wanted, 0 found",
            ),
            (
                "noise",
                "noise = [\"0.0000000001\"]",
                "model refused: model[0].noise[0]: finer than 0.000000001",
            ),
            (
                "noise",
                "noise = [\"-0.000000001\"]",
                "model refused: model[0].noise[0]: out of range",
            ),
            ("noise", "noise = [1000000000]", ""),
            ("centre", "", "model refused: model[0].centre: missing"),
            (
                "centre",
                "centre = [-1000000001]",
                "model refused: model[0].centre[0]: out of range",
            ),
            (
                "centre",
                "centre = [-1000000000]",
                "model refused: model[0].radius[0]: out of range",
            ),
            ("radius", "", "model refused: model[0].radius: missing"),
            (
                "radius",
                "radius = [-1]",
                "model refused: model[0].radius[0]: out of range",
            ),
            ("radius", "radius = [999999999]", ""),
            (
                "radius",
                "radius = [\"999999999.000000001\"]",
                "model refused: model[0].radius[0]: out of range",
            ),
            (
                "state_max",
                "",
                "model refused: model[0].state_max: missing",
            ),
            ("state_max", "state_max = [1000000000]", ""),
            (
                "state_max",
                "state_max = [1000000001]",
                "model refused: model[0].state_max[0]: out of range",
            ),
        ],
    )
}

#[test]
fn the_whole_of_a_file_is_judged(rt: HostRuntime) -> Result<(), Fail> {
    let alloc = rt.alloc();
    for (models, expected) in [
        ("", "model refused: model: missing"),
        ("model = 1", "model refused: model: wrong kind"),
        (
            "model = []",
            "model refused: model: 1 entries wanted, 0 found",
        ),
        (
            "model = [{ name = 1 }, 1]",
            "model refused: model[1]: wrong kind",
        ),
        (
            "model = [1,1,1,1,1,1,1,1,1,1,1,1,1,1,1,1,1]",
            "model refused: model: too many, 17",
        ),
        (
            "[[model]]\nname = \"a\"\nstates = 2\ndisturbances = 0\nA = [[\"0.5\", 0], [0]]",
            "model refused: model[0].A[1]: 2 entries wanted, 1 found",
        ),
    ] {
        let mut text = String::from_str(alloc, "version = 1\noutputs = [\"y\"]\n")?;
        text.push_str(models)?;
        text.push('\n')?;
        assert_eq!(rt; said(alloc, text.as_bytes())?.as_str(), expected);
    }
    Ok(())
}

#[test]
fn a_second_model_has_another_name(rt: HostRuntime) -> Result<(), Fail> {
    let alloc = rt.alloc();
    for (second, expected) in [
        (
            "[[model]]\nname = \"Q\"\n",
            "model refused: model[1].name: bad name",
        ),
        (
            "[[model]]\nname = \"R\"\n",
            "model refused: model[1].states: missing",
        ),
    ] {
        let mut text = String::from_str(alloc, FILE)?;
        text.push_str(second)?;
        assert_eq!(rt; said(alloc, text.as_bytes())?.as_str(), expected);
    }
    Ok(())
}

#[test]
fn a_file_past_its_greatest_length_is_refused(rt: HostRuntime) -> Result<(), Fail> {
    let alloc = rt.alloc();
    let mut bytes = Vec::from_slice(alloc, FILE.as_bytes())?;
    bytes.resize(MOST_BYTES, b'\n')?;
    assert_eq!(rt; said(alloc, &bytes)?.as_str(), "");
    bytes.push(b'\n')?;
    let told = "model refused: file: too many, 1048577";
    assert_eq!(rt; said(alloc, &bytes)?.as_str(), told);
    Ok(())
}

#[test]
fn a_file_that_is_no_text_is_refused(rt: HostRuntime) -> Result<(), Fail> {
    let said = said(rt.alloc(), b"\xff")?;
    assert_eq!(rt; said.as_str(), "model refused: not TOML");
    Ok(())
}
