//! A run from its two files to its report.
ghost use Rattle.std.specs.Prelude.{◌≡◌, ◌<◌, ◌≤◌, ◌+◌, ◌^◌, List, [], ◌∷◌, length, true, false, None, Some, IfOk, OnOk};
ghost use Rattle.outside_io.specs.Shelf.{IsFresh, KeepsOthers};
ghost use Rattle.plant_model.specs.Plant.{Plant};
ghost use Rattle.report_text.specs.Line.{end};
ghost use Rattle.telem_csv.specs.Cutter.{current};
ghost use Rattle.telem_csv.specs.Columns.{AreFor};
ghost use Rattle.telem_csv.specs.Fed.{is_refusal};
ghost use Rattle.input_files.specs.Ended.{without_last, rows_ended, begun_with};
ghost use Rattle.input_files.specs.Stream.{OnRows, ReadsOn, IsEndedAt};
ghost use Rattle.input_files.specs.Files.{files_with};
ghost use Rattle.input_files.specs.Told.{OnFile, OnFiles, OnLeft, AreRead};
ghost use Rattle.input_files.specs.Whole.{IsAskedAtMost, TakesAtMost, most_model, most_piece};
ghost use Rattle.monitor_run.specs.InTime.{PutsInTime, RowsInTime, OnTaken, OnUnreadLeft};
ghost use Rattle.monitor_run.specs.InTime.{IsBegun, IsBegunOf, IsReportBegun, AreRowsBegun};
ghost use Rattle.monitor_run.specs.Reports.{IsReportOf, IsReportOfRows};
ghost use Rattle.monitor_run.specs.Outcome.{SaysOfModel, SaysOfFiles, PutsReport, PutsNothing};
ghost use Rattle.monitor_run.specs.Outcome.{AsksInOrder, IfRead, ReadsFailed, HasWriteCause};
ghost use Rattle.monitor_run.specs.Rows.{AreRows, StandsNew, SaysOfRows, EndsRun, PutsLast};

use crate::done::{Done, RunFault};
use input_files::{
    MOST_TELEMETRY, Stream, StreamFault, TELEMETRY_SLOT, find_header, next_row, read_model,
};
use model_bank::{Bank, SampleRec};
use model_file::Bank0;
use outside_io::{Shelf, Sink};
use report_put::{put_end, put_head, put_sample};
use std::alloc::Global;
use telem_csv::Header;

/// Puts a report of a model file and a telemetry to `out`, each line as soon as its row is read. Slot 0 of the shelf reads the
/// model file, slot 1 the telemetry.
pub fn monitor<F: Shelf, O: Sink>(
    alloc: Global,
    shelf: &mut F,
    model: &str,
    telemetry: &str,
    out: &mut O,
) -> Result<Done, RunFault>
    requires fresh { IsFresh (F.state shelf.old) }
    ensures says_model { OnFile (F.state shelf.old) model.now (SaysOfModel result) }
    ensures says_files { OnFiles (F.state shelf.old) model.now telemetry.now (SaysOfFiles result) }
    ensures puts { OnFiles (F.state shelf.old) model.now telemetry.now
        (λ files. PutsReport (IsReportOf files) (O.state out.old) result (O.state out.new)) }

    // Where reading the telemetry failed, the lines of all that was read were put, and where a put failed, nothing was read ahead.
    ensures in_time { OnLeft (F.state shelf.old) (F.state shelf.new) model.now telemetry.now
        (λ m t left. PutsInTime (IsBegun m t) left (O.state out.old) result (O.state out.new)) }
    ensures model_taken { TakesAtMost (most_model + most_piece) ((F.state shelf.old).file model.now) ((F.state shelf.new).slot 0) }

    // A run that ended at the model file has put nothing.
    ensures nothing { PutsNothing (O.state out.old) result (O.state out.new) }
    ensures read { IfRead result (ReadsFailed model.now telemetry.now (F.state shelf.old) (F.state shelf.new)) }
    ensures write { HasWriteCause (O.state out.old) result (O.state out.new) }
    ensures at_end { OnOk result (AreRead (F.state shelf.new)) }
    ensures asks { AsksInOrder model.now telemetry.now result (F.state shelf.new) }
{
    let models = read_model(alloc, shelf, model)?;
    monitor_models(alloc, shelf, models, telemetry, out)
}

/// Puts the report of these models over the telemetry.
fn monitor_models<F: Shelf, O: Sink>(
    alloc: Global,
    shelf: &mut F,
    models: Bank0,
    telemetry: &str,
    out: &mut O,
) -> Result<Done, RunFault>
    requires { ((F.state shelf.old).slot 1).asked ≡ None }
    ensures says { OnFile (F.state shelf.old) telemetry.now (λ t. SaysOfFiles result (files_with models t)) }
    ensures puts { OnFile (F.state shelf.old) telemetry.now
        (λ t. PutsReport (IsReportOf (files_with models t)) (O.state out.old) result (O.state out.new)) }
    ensures in_time { OnTaken (F.state shelf.old) (F.state shelf.new) telemetry.now
        (λ t left. PutsInTime (λ k. IsBegunOf (begun_with models (without_last k t)))
        left (O.state out.old) result (O.state out.new)) }
    ensures ends { EndsRun (F.state shelf.old) (F.state shelf.new) (O.state out.old) result (O.state out.new) }
    ensures asked { IsAskedAtMost telemetry.now ((F.state shelf.new).slot 1) }
    ensures asked_unread { IfRead result (λ _. ((F.state shelf.new).slot 1).asked ≡ Some telemetry.now) }
    ensures others { KeepsOthers 1 (F.state shelf.old) (F.state shelf.new) }
{
    match shelf.attach(TELEMETRY_SLOT, telemetry) {
        Ok(()) => {}
        Err(fault) => return Err(StreamFault::from(fault).into()),
    }
    let mut stream = Stream::new(MOST_TELEMETRY);
    let head = find_header(alloc, &mut stream, shelf, models.inputs(), models.outputs())?;
    put_report(alloc, &mut stream, shelf, &head, models, out)
}

/// Puts the report of these models over the rows that the telemetry has still to tell.
fn put_report<F: Shelf, O: Sink>(
    alloc: Global,
    stream: &mut Stream,
    shelf: &mut F,
    head: &Header,
    models: Bank0,
    out: &mut O,
) -> Result<Done, RunFault>
    requires attached { ((F.state shelf.old).slot 1).attached ≡ true }
    requires going { is_refusal stream.old.cutter.last ≡ false }
    requires ended { IsEndedAt 1 stream.old (F.state shelf.old) }
    requires columns { AreFor models.inputs models.outputs head.now }
    requires short { (current stream.old.cutter).room < 2 ^ 63 }
    ensures says { OnRows 1 head.now stream.old (F.state shelf.old) (SaysOfRows result) }
    ensures puts { OnRows 1 head.now stream.old (F.state shelf.old)
        (λ rows. PutsReport (IsReportOfRows models rows) (O.state out.old) result (O.state out.new)) }
    ensures in_time { OnUnreadLeft stream.old (F.state shelf.old) (F.state shelf.new) (λ unread left. RowsInTime
        (λ k. IsReportBegun models (rows_ended head.now stream.old.cutter (without_last k unread)))
        stream.old.is_ended (length unread) left (O.state out.old) result (O.state out.new)) }
    ensures ends { EndsRun (F.state shelf.old) (F.state shelf.new) (O.state out.old) result (O.state out.new) }
    ensures kept { ReadsOn 1 (F.state shelf.old) (F.state shelf.new) }
{
    put_head(out, &models)?;
    match Bank::begin(alloc, models) {
        Ok(mut bank) => put_rows(alloc, stream, shelf, head, &mut bank, out),
        Err(_) => Err(RunFault::Memory),
    }
}

/// Puts the lines of the rows one after another, and the last line.
fn put_rows<F: Shelf, O: Sink>(
    alloc: Global,
    stream: &mut Stream,
    shelf: &mut F,
    head: &Header,
    bank: &mut Bank,
    out: &mut O,
) -> Result<Done, RunFault>
    requires attached { ((F.state shelf.old).slot 1).attached ≡ true }
    requires going { is_refusal stream.old.cutter.last ≡ false }
    requires ended { IsEndedAt 1 stream.old (F.state shelf.old) }
    requires inputs { length head.now.inputs ≡ bank.old.inputs }
    requires outputs { length head.now.outputs ≡ bank.old.outputs }
    requires begins { bank.old.count ≡ 0 }
    requires short { (current stream.old.cutter).room < 2 ^ 63 }
    ensures says { OnRows 1 head.now stream.old (F.state shelf.old) (SaysOfRows result) }
    ensures puts { (ps : List Plant) → StandsNew ps bank.old → OnRows 1 head.now stream.old (F.state shelf.old)
        (λ rows. PutsReport (AreRows ps rows) (O.state out.old) result (O.state out.new)) }
    ensures in_time { (ps : List Plant) → StandsNew ps bank.old
        → OnUnreadLeft stream.old (F.state shelf.old) (F.state shelf.new) (λ unread left. RowsInTime
        (λ k. AreRowsBegun ps (rows_ended head.now stream.old.cutter (without_last k unread)))
        stream.old.is_ended (length unread) left (O.state out.old) result (O.state out.new)) }
    ensures ends { EndsRun (F.state shelf.old) (F.state shelf.new) (O.state out.old) result (O.state out.new) }
    ensures kept { ReadsOn 1 (F.state shelf.old) (F.state shelf.new) }
{
    let mut record = SampleRec::new();
    'rows: loop {
        match next_row(alloc, stream, shelf, head)? {
            Some(sample) => {
                bank.step_into(&sample, &mut record);
                put_sample(out, &record)?;
            }
            None => return put_last(out, bank.count()),
        }
    }
}

/// Puts the last line, after so many samples.
fn put_last<O: Sink>(out: &mut O, samples: u64) -> Result<Done, RunFault>
    ensures done { IfOk result (λ done. done.samples ≡ samples) }
    ensures puts { PutsLast (end samples ∷ []) (O.state out.old) result (O.state out.new) }
{
    put_end(out, samples)?;
    Ok(Done { samples })
}
