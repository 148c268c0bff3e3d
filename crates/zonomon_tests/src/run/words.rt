//! The words of a call.
use super::call;
use outside_io::SureShelf;
use std::test::Fail;

const USAGE: &str = "usage: zonomon run MODEL TELEMETRY
       zonomon check MODEL TELEMETRY REPORT
       zonomon demo SEED SAMPLES
       zonomon help
";

/// Words, and what is said where every file is empty: of no form, of a demonstration, and of the help.
const WORDS: [(&[&str], (u8, &str, &str)); 14] = [
    (&[], (1, "", USAGE)),
    (&["run"], (1, "", USAGE)),
    (&["run", "a"], (1, "", USAGE)),
    (&["run", "a", "b", "c"], (1, "", USAGE)),
    (&["Run", "a", "b"], (1, "", USAGE)),
    (&["help", "me"], (1, "", USAGE)),
    (&["check", "a", "b"], (1, "", USAGE)),
    (&["check", "a", "b", "c", "d"], (1, "", USAGE)),
    (&["checks", "a", "b", "c"], (1, "", USAGE)),
    (&["demo", "7", "0"], (1, "", USAGE)),
    (&["demo", "4294967296", "1"], (1, "", USAGE)),
    (&["demo", "7", "10001"], (1, "", USAGE)),
    (
        &["demo", "007", "1"],
        (
            0,
            "demo 7 1\ntrue possible\nother possible\nundecided 0\n",
            "",
        ),
    ),
    (&["help"], (0, USAGE, "")),
];

#[test]
fn each_form_of_words_is_told(rt: HostRuntime) -> Result<(), Fail> {
    let alloc = rt.alloc();
    for (texts, said) in WORDS {
        let ran = call(alloc, texts, &mut SureShelf::of(alloc), &[], &[])?;
        assert_eq!(rt; ran.said(), said, "{texts:?}");
    }
    Ok(())
}

#[test]
fn fault_of_the_error_stream_changes_no_status(rt: HostRuntime) -> Result<(), Fail> {
    let alloc = rt.alloc();
    let ran = call(alloc, &["run", "a"], &mut SureShelf::of(alloc), &[], &[1])?;
    assert_eq!(rt; ran.said(), (1, "", ""));
    Ok(())
}
