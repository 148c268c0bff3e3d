//! Telemetries that come in pieces: how they are cut into lines, and what stands in the report where reading or writing fails.
ghost use Rattle.std.specs.Prelude.{◌≡◌, true, IfOk};
ghost use Rattle.std.proofs.Common.{rules};
ghost use Rattle.outside_io.specs.Shelf.{IsFresh};

use crate::run::call;
use crate::run::inputs::{P, WHEEL, WHEEL_ROWS};
use crate::run::several_models::{FRICTION_ISOLATED, without_intervals};
use outside_io::{GetFault, MemShelf, Shelf};
use std::alloc::Global;
use std::test::Fail;
use telem_csv::{Fed, LineCutter};

#[test]
fn a_cutter_is_fed_byte_by_byte(rt: HostRuntime) {
    let wanted = [
        (b'y', Fed::More, 1),
        (b'\n', Fed::Line, 1),
        (b'0', Fed::More, 2),
        (b'.', Fed::More, 2),
        (b'5', Fed::More, 2),
        (b'\n', Fed::Line, 2),
    ];
    let mut cutter = LineCutter::new(6);
    for (byte, want, number) in wanted {
        assert_eq!(rt; cutter.feed(&[byte]), (1, want));
        assert_eq!(rt; cutter.number(), number);
    }
    assert_eq!(rt; cutter.finish(), Fed::Ended);
}

#[test]
fn a_byte_past_the_limit_ends_a_cutter(rt: HostRuntime) {
    let mut cutter = LineCutter::new(6);
    for byte in b"y\n0.5\n" {
        assert_eq!(rt; cutter.feed(&[*byte]).0, 1);
    }
    assert_eq!(rt; cutter.feed(b"1"), (1, Fed::OverLimit));
    assert_eq!(rt; cutter.number(), 3);
    for piece in [b"1\n".as_slice(), b"", b"0"] {
        assert_eq!(rt; cutter.feed(piece), (0, Fed::OverLimit));
        assert_eq!(rt; cutter.number(), 3);
    }
    assert_eq!(rt; cutter.finish(), Fed::OverLimit);
}

/// The lines that are cut from a stream of two pieces, each with a line feed behind it.
fn cut_lines(alloc: Global, first: &[u8], second: &[u8]) -> Result<Vec<u8>, Fail> {
    let mut cutter = LineCutter::new(1_073_741_824);
    let mut lines = Vec::new(alloc);
    for piece in [first, second] {
        let mut rest = piece;
        for _ in 0..1000u64 {
            let (taken, fed) = cutter.feed(rest);
            rest = &rest[taken..];
            if fed == Fed::Line {
                lines.extend_from_slice(cutter.line())?;
                lines.push(b'\n')?;
            }
        }
    }
    Ok(lines)
}

#[test]
fn lines_are_the_same_wherever_a_stream_is_cut(rt: HostRuntime) -> Result<(), Fail> {
    let rows = WHEEL_ROWS.as_bytes();
    for at in 0..=rows.len() {
        let lines = cut_lines(rt.alloc(), &rows[..at], &rows[at..])?;
        assert_eq!(rt; lines.as_slice(), rows, "at {at}");
    }
    Ok(())
}

/// A shelf that knows whether slot 1 can be read.
#[derive(Drop)]
struct Watched {
    shelf: MemShelf,
    is_open: bool,
    ghost open: { is_open ≡ true → ((⟦<MemShelf as Shelf>⟧.state shelf).slot 1).attached ≡ true },
}

impl Watched {
    /// A shelf of these two files, of which these calls fail.
    fn of(
        alloc: Global,
        model: &str,
        telemetry: &str,
        gets: &[(usize, u64)],
    ) -> Result<Watched, Fail>
        ensures { IfOk result (λ s. IsFresh (⟦<MemShelf as Shelf>⟧.state s.shelf)) }
    {
        let mut shelf = MemShelf::of(alloc, gets)?;
        shelf.add("m", model.as_bytes())?;
        shelf.add("t", telemetry.as_bytes())?;
        Ok(Watched {
            shelf,
            is_open: false,
        })
    }

    /// How many bytes further calls of `next` give from slot 1.
    fn read_on(&mut self) -> usize {
        let mut left: usize = 0;
        let mut piece = [0u8; 4096];
        for _ in 0..10_000u64 {
            if !self.is_open {
                break;
            }
            match self.shelf.next(1, &mut piece) {
                Ok(count) => left = left.saturating_add(count),
                Err(_) => break,
            }
        }
        left
    }
}

impl Shelf for Watched {
    ghost state = { λ s. ⟦<MemShelf as Shelf>⟧.state s.shelf };

    ghost attached_was_asked = { λ s q. Prim.search rules };

    fn attach(&mut self, slot: usize, name: &str) -> Result<(), GetFault> {
        let result = self.shelf.attach(slot, name);
        if slot == 1 && result.is_ok() {
            self.is_open = true;
        }
        result
    }

    fn next(&mut self, slot: usize, into: &mut [u8]) -> Result<usize, GetFault> {
        self.shelf.next(slot, into)
    }
}

/// The words of a run.
const RUN: [&str; 3] = ["run", "m", "t"];

/// The rows of the wheel, each with a thousand letters before its time.
fn long_rows(alloc: Global) -> Result<String, Fail> {
    let letters = "z".repeat(alloc, 1000)?;
    let mut rows = String::new(alloc);
    for line in WHEEL_ROWS.lines() {
        if !line.starts_with("time") {
            rows.push_str(&letters)?;
        }
        rows.push_str(line)?;
        rows.push('\n')?;
    }
    Ok(rows)
}

#[test]
fn the_rows_before_a_read_fault_are_in_the_report(rt: HostRuntime) -> Result<(), Fail> {
    let alloc = rt.alloc();
    let long = long_rows(alloc)?;

    // The rows of the wheel have 186 bytes, all in the first piece. Of the long ones, row 3 ends with byte 4,074, row 7 with
    // byte 8,130 and row 11 with byte 12,186.
    let cases = [
        (WHEEL_ROWS, 1, ""),
        (WHEEL_ROWS, 2, "end 12\n"),
        (long.as_str(), 1, ""),
        (long.as_str(), 2, "sample 4\n"),
        (long.as_str(), 3, "sample 8\n"),
        (long.as_str(), 4, "end 12\n"),
    ];
    for (rows, read, next) in cases {
        let front = match FRICTION_ISOLATED.split_once(next) {
            Some((front, _)) => front,
            None => "",
        };
        let mut shelf = Watched::of(alloc, WHEEL, rows, &[(1, read + 1)])?;
        let ran = call(alloc, &RUN, &mut shelf, &[], &[])?;
        let told = "read fault: telemetry\n";
        assert_eq!(rt; (ran.status, ran.told.as_str()), (4, told));
        let lines = without_intervals(alloc, &ran.report)?;
        assert_eq!(rt; lines.as_str(), front, "at read {read}");
    }
    Ok(())
}

const THREE_ROWS: &str = "zonomon 1
model 0 P
sample 0
p 0 0 -1.100000000 1.100000000
h 0 0 -1.000000000 1.000000000
s 0 fits
possible 0
verdict isolated 0
sample 1
p 0 0 -0.600000000 0.600000000
h 0 0 -0.500000000 0.500000000
s 0 fits
possible 0
verdict isolated 0
sample 2
p 0 0 -0.350000000 0.350000000
h 0 0 -0.250000000 0.250000000
s 0 fits
possible 0
verdict isolated 0
";

const FOURTH_ROW: &str = "sample 3
p 0 0 -0.225000000 0.225000000
h 0 0 -0.125000000 0.125000000
s 0 fits
possible 0
verdict isolated 0
";

/// A header of 4 bytes and five rows without a reading: of 1,005 bytes each, but the fourth with so many letters.
fn five_rows(alloc: Global, letters: usize) -> Result<String, Fail> {
    let mut rows = String::from_str(alloc, "t,y\n")?;
    for count in [1000, 1000, 1000, letters, 1000] {
        rows.push_str(&"z".repeat(alloc, count)?)?;
        rows.push_str(",NaN\n")?;
    }
    Ok(rows)
}

#[test]
fn a_row_is_reported_once_its_line_feed_is_read(rt: HostRuntime) -> Result<(), Fail> {
    let alloc = rt.alloc();

    // The line feed of the fourth row is byte 4,096, the last of the first piece, or the byte behind it.
    for (letters, fourth) in [(1072, FOURTH_ROW), (1073, "")] {
        let rows = five_rows(alloc, letters)?;
        let mut shelf = Watched::of(alloc, P, &rows, &[(1, 3)])?;
        let ran = call(alloc, &RUN, &mut shelf, &[], &[])?;
        let mut report = String::from_str(alloc, THREE_ROWS)?;
        report.push_str(fourth)?;
        let told = "read fault: telemetry\n";
        assert_eq!(rt; ran.said(), (4, report.as_str(), told));
    }
    Ok(())
}

/// A header of 4 bytes and 4,300 rows without a reading, of 4,005 bytes each.
fn many_rows(alloc: Global) -> Result<String, Fail> {
    let mut row = "z".repeat(alloc, 4000)?;
    row.push_str(",NaN\n")?;
    let mut rows = String::from_str(alloc, "t,y\n")?;
    rows.push_str(&row.repeat(alloc, 4300)?)?;
    Ok(rows)
}

#[test]
fn a_long_telemetry_is_read_to_its_end(rt: HostRuntime) -> Result<(), Fail> {
    let alloc = rt.alloc();
    let rows = many_rows(alloc)?;
    assert_eq!(rt; rows.len(), 17_221_504);
    let mut shelf = Watched::of(alloc, P, &rows, &[])?;
    let ran = call(alloc, &RUN, &mut shelf, &[], &[])?;
    assert_eq!(rt; (ran.status, ran.told.as_str()), (0, ""));
    assert!(rt; ran.report.ends_with("\nverdict isolated 0\nend 4300\n"));
    assert_eq!(rt; shelf.read_on(), 0);
    Ok(())
}

#[test]
fn nothing_is_read_ahead_of_a_failed_put(rt: HostRuntime) -> Result<(), Fail> {
    let alloc = rt.alloc();
    let rows = many_rows(alloc)?;
    let mut shelf = Watched::of(alloc, P, &rows, &[])?;
    let ran = call(alloc, &RUN, &mut shelf, &[1], &[])?;
    assert_eq!(rt; ran.said(), (5, "", "write fault\n"));
    assert!(rt; shelf.read_on() >= 17_217_404);
    Ok(())
}
