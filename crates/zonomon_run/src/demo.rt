//! A demonstration, made and monitored in memory, up to its status.
ghost use Rattle.std.specs.Prelude.{◌≡◌, ◌≢◌, List, IfOk};
ghost use Rattle.outside_io.specs.Sure.{sink_bytes};
ghost use Rattle.report_text.specs.Line.{Line, lines_text};
ghost use Rattle.zonomon_run.specs.Ending.{TellsEnding};
ghost use Rattle.zonomon_run.specs.Demo.{Demonstrates, IsDemoReport};

use crate::asked::Demo;
use crate::ending::{Ending, tell};
use crate::texts::put_text;
use monitor_run::monitor;
use outside_io::{Sink, SureShelf, SureSink};
use report_summary::Summary;
use sim_gen::make;
use std::alloc::{AllocError, Global};

/// Puts what the report of a demonstration says to `out`, or the line that says why not to `err`, and gives the status.
pub fn demonstrate<O: Sink, E: Sink>(alloc: Global, demo: Demo, out: &mut O, err: &mut E) -> u8
    ensures demonstrates { Demonstrates demo.seed demo.samples (O.state out.old) result (O.state out.new) }
    ensures silent { result ≡ 0 → (E.state err.new).held ≡ (E.state err.old).held }
    ensures told { result ≢ 0 → TellsEnding result (E.state err.old) (E.state err.new) }
{
    match report_of(alloc, demo) {
        Ok(report) => put_text(
            &Summary::of(report.held()).text(demo.seed, demo.samples),
            out,
            err,
        ),
        Err(AllocError) => tell(err, Ending::Memory),
    }
}

/// The report of a demonstration.
fn report_of(alloc: Global, demo: Demo) -> Result<SureSink, AllocError>
    ensures { IfOk result (λ sink. (lines : List Line) × IsDemoReport demo.seed demo.samples lines × (sink_bytes sink ≡ lines_text lines)) }
{
    let made = make(alloc, demo.seed, demo.samples)?;
    let mut shelf = SureShelf::of(alloc);
    shelf.add("model", made.model())?;
    shelf.add("telemetry", made.telemetry())?;
    let mut report = SureSink::of(alloc);
    match monitor(alloc, &mut shelf, "model", "telemetry", &mut report) {
        Ok(_) => Ok(report),
        Err(_) => Err(AllocError),
    }
}
