ghost use Rattle.std.specs.Prelude.{◌≡◌, true};
ghost use Rattle.report_text.specs.Line.{has_printable_ends};
ghost use Rattle.report_text.specs.Seen.{line_of};

use arrayvec::{ArrayString, ArrayVec};
use farkas_check::{Cert, Multipliers};
use isolate_core::Verdict;
use report_text::{BadLine, RepLine, read_line, write_line};
use std::process::Abort;
use std::test::Fail;

/// Texts of lines, of each form and at the ends of the ranges.
const LINES: [&[u8]; 21] = [
    b"zonomon 1",
    b"model 0 half",
    b"model 15 a valve, stuck",
    b"sample 0",
    b"sample 9223372036854775807",
    b"p 0 5 -1.100000000 0.000000001",
    b"p 15 0 -1000000000000000.000000000 1000000000000000.000000000",
    b"x 0 out 5",
    b"x 3 rows 1000000000 -1000000000",
    b"x 15 rows 0",
    b"x 15 rows 2147483647 -2147483647 1 -1 0 10",
    b"h 1 7 0.000000000 1000000000000000.000000000",
    b"s 0 fits",
    b"s 15 undecided",
    b"possible",
    b"possible 0 1 2 3 4 5 6 7 8 9 10 11 12 13 14 15",
    b"verdict none",
    b"verdict isolated 3",
    b"verdict several",
    b"verdict fault",
    b"end 2",
];

/// Texts of no line, each close to one that is.
const NO_LINES: [&[u8]; 48] = [
    b"",
    b" ",
    b"zonomon",
    b"zonomon 2",
    b"zonomon 1 ",
    b" zonomon 1",
    b"zonomon  1",
    b"zonomon 1\n",
    b"model 0",
    b"model 0 ",
    b"model 16 half",
    b"model 00 half",
    b"model 0 half ",
    b"model 0  half",
    b"model 0 h\xc3\xa4lf",
    b"model 0 abcdefghijklmnopqrstuvwxyzabcdefg",
    b"sample 01",
    b"sample +1",
    b"sample -0",
    b"sample",
    b"sample 9223372036854775808",
    b"sample 18446744073709551616",
    b"p 0 0 0.0 0.000000000",
    b"p 0 0 -0.000000000 0.000000000",
    b"p 0 0 +1.000000000 2.000000000",
    b"p 0 0 01.000000000 2.000000000",
    b"p 0 6 0.000000000 0.000000000",
    b"p 0 0 0.000000000 1000000000000000.000000001",
    b"p 0 0 0.000000000 0.000000000 0.000000000",
    b"p 0 0 0.000000000",
    b"x 0 out 6",
    b"x 0 out -0",
    b"x 0 out 1 1",
    b"x 0 rows",
    b"x 0 rows ",
    b"x 0 rows -0 1",
    b"x 0 rows 01 -1",
    b"x 0 rows -2147483648 1",
    b"x 0 rows 2147483648 1",
    b"x 0 rows 1 2 3 4 5 6 7",
    b"x 0 lines 1 2",
    b"h 0 8 0.000000000 0.000000000",
    b"s 0 fit",
    b"possible 1 0",
    b"possible 0 0",
    b"possible 16",
    b"verdict isolated 16",
    b"verdict isolate 1",
];

/// Asserts that a line is written as this text.
fn expect_text(rt: &impl Abort, line: &RepLine, text: &[u8])
    requires { has_printable_ends (line_of line.now) ≡ true }
{
    assert_eq!(rt; write_line(line).as_slice(), text);
}

#[test]
fn writes_the_lines_of_counts_and_words(rt: HostRuntime) {
    let mut name: ArrayString<32> = ArrayString::new();
    name.push_str("half");
    let mut models: ArrayVec<u32, 16> = ArrayVec::new();
    models.push(0);
    models.push(15);
    let isolated = Verdict::Isolated(3);
    expect_text(&rt, &RepLine::Title, b"zonomon 1");
    expect_text(&rt, &RepLine::Model { index: 0, name }, b"model 0 half");
    expect_text(&rt, &RepLine::Sample { k: 12 }, b"sample 12");
    expect_text(&rt, &RepLine::Possible { models }, b"possible 0 15");
    expect_text(&rt, &RepLine::Verdict(isolated), b"verdict isolated 3");
    expect_text(&rt, &RepLine::End { samples: 2 }, b"end 2");
}

#[test]
fn writes_the_lines_of_a_model(rt: HostRuntime) -> Result<(), Fail> {
    let multipliers = Multipliers::of(&[1_000_000_000, -1_000_000_000]).ok_or("in range")?;
    let predicted = RepLine::Pred {
        model: 0,
        output: 5,
        lo: -1_100_000_000,
        hi: 1,
    };
    let hull = RepLine::Hull {
        model: 1,
        state: 0,
        lo: 0,
        hi: 1_000_000_000_000_000_000_000_000,
    };
    let missed = RepLine::Exclude {
        model: 0,
        cert: Cert::Out(2),
    };
    let refuted = RepLine::Exclude {
        model: 3,
        cert: Cert::Rows(multipliers),
    };
    let undecided = RepLine::Status {
        model: 0,
        kept: false,
    };
    expect_text(&rt, &predicted, b"p 0 5 -1.100000000 0.000000001");
    expect_text(&rt, &hull, b"h 1 0 0.000000000 1000000000000000.000000000");
    expect_text(&rt, &missed, b"x 0 out 2");
    expect_text(&rt, &refuted, b"x 3 rows 1000000000 -1000000000");
    expect_text(&rt, &undecided, b"s 0 undecided");
    Ok(())
}

/// Whether a text is no line for its form.
fn has_no_form(text: &[u8]) -> bool {
    matches!(read_line(text), Err(BadLine::NoForm))
}

#[test]
fn reads_each_form_of_line(rt: HostRuntime) -> Result<(), Fail> {
    for text in LINES {
        assert_eq!(rt; write_line(&read_line(text)?).as_slice(), text);
    }
    Ok(())
}

#[test]
fn reads_no_other_text(rt: HostRuntime) {
    for text in NO_LINES {
        assert!(rt; has_no_form(text));
    }
    assert!(rt; has_no_form(&[b' '; 256]));
    assert!(rt; matches!(read_line(&[b' '; 257]), Err(BadLine::TooLong)));
}
