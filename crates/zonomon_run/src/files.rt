//! A run over two files and a check over three, up to their status.
ghost use Rattle.std.specs.Prelude.{◌≡◌, ◌≢◌};
ghost use Rattle.outside_io.specs.Shelf.{IsFresh};
ghost use Rattle.zonomon_run.specs.Ending.{TellsEnding};
ghost use Rattle.zonomon_run.specs.Runs.{Monitors, outside};
ghost use Rattle.zonomon_run.specs.Checks.{Checks};

use crate::ending::{check_ending, ending_of, tell};
use crate::texts::{accepted, put_text};
use cert_replay::check;
use monitor_run::monitor;
use outside_io::{Shelf, Sink};
use std::alloc::Global;

/// Puts the report of two files to `out`, or the line that says why not to `err`, and gives the status.
pub fn run_files<F: Shelf, O: Sink, E: Sink>(
    alloc: Global,
    shelf: &mut F,
    model: &str,
    telemetry: &str,
    out: &mut O,
    err: &mut E,
) -> u8
    requires { IsFresh (F.state shelf.old) }
    ensures monitors { Monitors model.now telemetry.now (outside (F.state shelf.old) (O.state out.old) (E.state err.old))
        result (outside (F.state shelf.new) (O.state out.new) (E.state err.new)) }
    ensures silent { result ≡ 0 → (E.state err.new).held ≡ (E.state err.old).held }
    ensures told { result ≢ 0 → TellsEnding result (E.state err.old) (E.state err.new) }
{
    match monitor(alloc, shelf, model, telemetry, out) {
        Ok(_) => 0,
        Err(fault) => tell(err, ending_of(fault)),
    }
}

/// Puts to `out` that a report is accepted, or the line that says why not to `err`, and gives the status.
pub fn check_files<F: Shelf, O: Sink, E: Sink>(
    alloc: Global,
    shelf: &mut F,
    model: &str,
    telemetry: &str,
    report: &str,
    out: &mut O,
    err: &mut E,
) -> u8
    requires { IsFresh (F.state shelf.old) }
    ensures checks { Checks model.now telemetry.now report.now
        (outside (F.state shelf.old) (O.state out.old) (E.state err.old)) result
        (outside (F.state shelf.new) (O.state out.new) (E.state err.new)) }
    ensures silent { result ≡ 0 → (E.state err.new).held ≡ (E.state err.old).held }
    ensures told { result ≢ 0 → TellsEnding result (E.state err.old) (E.state err.new) }
{
    match check(alloc, shelf, model, telemetry, report) {
        Ok(_) => put_text(accepted(), out, err),
        Err(fault) => tell(err, check_ending(fault)),
    }
}
