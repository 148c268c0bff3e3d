//! A check from its three files to its answer.
ghost use Rattle.std.specs.Prelude.{◌≡◌, ℕ, ◌+◌, ◌≤◌, ◌<◌, ◌^◌, List, [], length, replicate, true, false};
ghost use Rattle.std.specs.Prelude.{None, Some, IfErr, IfOk, OnOk};
ghost use Rattle.std.specs.Io.KnownBytes.{IsAtEnd};
ghost use Rattle.outside_io.specs.Causes.{Rose};
ghost use Rattle.outside_io.specs.Shelf.{IsFresh};
ghost use Rattle.plant_model.specs.Plant.{Plant};
ghost use Rattle.telem_csv.specs.Cutter.{current};
ghost use Rattle.telem_csv.specs.Columns.{AreFor};
ghost use Rattle.telem_csv.specs.Fed.{is_refusal};
ghost use Rattle.model_bank.specs.Bank.{plants_in, names_in};
ghost use Rattle.input_files.specs.Files.{files_with, most_telemetry};
ghost use Rattle.input_files.specs.Stream.{OnRows, ReadsOn, IsEndedAt};
ghost use Rattle.input_files.specs.Ended.{without_last, rows_ended, begun_with, files_begun};
ghost use Rattle.input_files.specs.Told.{OnFile};
ghost use Rattle.input_files.specs.Whole.{TakesAtMost, most_model, most_piece};
ghost use Rattle.monitor_run.specs.InTime.{OnTaken, OnUnreadLeft};
ghost use Rattle.report_rules.specs.Replay.{watch};
ghost use Rattle.cert_replay.specs.Outcome.{OnReport, SaysOfModel, SaysOfReport, IfRead, ReadsFailed, AllRead, AsksInOrder};
ghost use Rattle.cert_replay.specs.Ahead.{OnReportLeft, RefusesInTime, RowsRefuseInTime, begun_watch};
ghost use Rattle.cert_replay.specs.Faults.{IsSampleFault};
ghost use Rattle.cert_replay.specs.Lines.{room};
ghost use Rattle.cert_replay.specs.Window.{HasUnread};
ghost use Rattle.cert_replay.specs.Checked.{AreModels, Checked, IsReady};
ghost use Rattle.cert_replay.specs.Ends.{AreNamed, HeadStands, DepartsInHead, EndStands, EndDeparts, SaysOfChecked, EndsRows, EndsModels};

use crate::counts::LineCounts;
use crate::fault::{Accepted, CheckFault};
use crate::replay::Replay;
use crate::window::{REPORT_SLOT, Window};
use input_files::{
    MOST_TELEMETRY, Stream, StreamFault, TELEMETRY_SLOT, find_header, next_row, read_model,
};
use model_bank::{Bank, SampleRec};
use model_file::Bank0;
use outside_io::Shelf;
use std::alloc::Global;
use telem_csv::Header;

/// Compares a report with what it has to say of a model file and a telemetry, sample by sample. Slot 0 of the shelf reads the model
/// file, slot 1 the telemetry, slot 2 the report; none of the last two is held.
pub fn check<F: Shelf>(
    alloc: Global,
    shelf: &mut F,
    model: &str,
    telemetry: &str,
    report: &str,
) -> Result<Accepted, CheckFault>
    requires fresh { IsFresh (F.state shelf.old) }
    ensures says_model { OnFile (F.state shelf.old) model.now (SaysOfModel result) }
    ensures says { OnReport (F.state shelf.old) model.now telemetry.now report.now (SaysOfReport result) }

    // Where the report is refused, the telemetry was read to the line that judges the refused one, and a piece at most past it.
    ensures in_time { OnReportLeft (F.state shelf.old) (F.state shelf.new) model.now telemetry.now report.now
        (λ m t bytes left. RefusesInTime (λ k. files_begun m (without_last k t)) bytes left result) }
    ensures model_taken { TakesAtMost (most_model + most_piece)
        ((F.state shelf.old).file model.now) ((F.state shelf.new).slot 0) }
    ensures read { IfRead result (ReadsFailed model.now telemetry.now report.now (F.state shelf.old) (F.state shelf.new)) }
    ensures at_end { OnOk result (AllRead (F.state shelf.new)) }
    ensures asks { AsksInOrder model.now telemetry.now report.now result (F.state shelf.new) }
{
    let models = read_model(alloc, shelf, model)?;
    check_models(alloc, shelf, models, telemetry, report)
}

/// Checks the report of these models over the telemetry.
fn check_models<F: Shelf>(
    alloc: Global,
    shelf: &mut F,
    models: Bank0,
    telemetry: &str,
    report: &str,
) -> Result<Accepted, CheckFault>
    requires asked_telemetry { ((F.state shelf.old).slot 1).asked ≡ None }
    requires asked_report { ((F.state shelf.old).slot 2).asked ≡ None }
    ensures says { AreNamed (names_in models) → OnFile (F.state shelf.old) report.now (λ bytes.
        OnFile (F.state shelf.old) telemetry.now (λ t. SaysOfReport result (files_with models t) bytes)) }
    ensures in_time { AreNamed (names_in models) → OnFile (F.state shelf.old) report.now (λ bytes.
        OnTaken (F.state shelf.old) (F.state shelf.new) telemetry.now (λ t left. RefusesInTime
        (λ k. begun_with models (without_last k t)) bytes left result)) }
    ensures ends { EndsModels telemetry.now report.now (F.state shelf.old) (F.state shelf.new) result }
{
    match shelf.attach(TELEMETRY_SLOT, telemetry) {
        Ok(()) => {}
        Err(fault) => return Err(StreamFault::from(fault).into()),
    }
    shelf.attach(REPORT_SLOT, report)?;
    let mut stream = Stream::new(MOST_TELEMETRY);
    let head = find_header(alloc, &mut stream, shelf, models.inputs(), models.outputs())?;
    check_report(alloc, &mut stream, shelf, &head, models)
}

/// Checks the report of these models over the rows that the telemetry has still to tell.
fn check_report<F: Shelf>(
    alloc: Global,
    stream: &mut Stream,
    shelf: &mut F,
    head: &Header,
    models: Bank0,
) -> Result<Accepted, CheckFault>
    requires attached { ((F.state shelf.old).slot 1).attached ≡ true }
    requires report { ((F.state shelf.old).slot 2).attached ≡ true }
    requires going { is_refusal stream.old.cutter.last ≡ false }
    requires ended { IsEndedAt 1 stream.old (F.state shelf.old) }
    requires columns { AreFor models.inputs models.outputs head.now }
    requires short { (current stream.old.cutter).room ≤ most_telemetry }
    ensures says { AreNamed (names_in models) → (bytes : List ℕ) → ((F.state shelf.old).slot 2).rest ≡ Some bytes
        → OnRows 1 head.now stream.old (F.state shelf.old)
        (λ rows. SaysOfChecked (names_in models) (plants_in models) result rows bytes) }
    ensures in_time { AreNamed (names_in models) → (bytes : List ℕ) → ((F.state shelf.old).slot 2).rest ≡ Some bytes
        → OnUnreadLeft stream.old (F.state shelf.old) (F.state shelf.new) (λ unread left. RowsRefuseInTime
        (λ k. begun_watch models (rows_ended head.now stream.old.cutter (without_last k unread)))
        bytes (length unread) left result) }
    ensures ends { EndsRows (F.state shelf.old) (F.state shelf.new) result }
{
    let mut window = Window::new();
    check_head(&mut window, shelf, &models)?;
    let counts = LineCounts::of(&models);
    let last = all_possible(models.count());
    match Bank::begin(alloc, models) {
        Ok(bank) => {
            let mut replay = Replay {
                bank,
                counts,
                last,
                window,
            };
            check_rows(alloc, stream, shelf, head, &mut replay)
        }
        Err(_) => Err(CheckFault::Memory),
    }
}

/// A record of no sample: of so many models each is possible.
fn all_possible(models: usize) -> SampleRec
    requires { models ≤ 16 }
    ensures { result.possible.items ≡ replicate models true }
{
    let mut made = SampleRec::new();
    for _ in 0..models {
        made.possible.push(true);
    }
    made
}

/// Compares the title and the names of the models.
fn check_head<F: Shelf>(
    window: &mut Window,
    shelf: &mut F,
    models: &Bank0,
) -> Result<(), CheckFault>
    requires attached { ((F.state shelf.old).slot 2).attached ≡ true }
    requires begins { window.old.lines ≡ 0 }
    ensures stands { OnOk result (AreNamed (names_in models.now) → (bytes : List ℕ) → HasUnread window.old (F.state shelf.old) bytes
        → HeadStands (names_in models.now) bytes window.new (F.state shelf.new)) }
    ensures departs { IfErr result (λ fault. AreNamed (names_in models.now) → (bytes : List ℕ)
        → HasUnread window.old (F.state shelf.old) bytes → DepartsInHead (names_in models.now) bytes fault) }
    ensures few { OnOk result (window.new.lines ≤ room) }
    ensures fault { IfErr result IsSampleFault }
    ensures read { IfRead result (λ slot. Rose ((F.state shelf.old).slot 2).faults ((F.state shelf.new).slot 2).faults) }
    ensures kept { ReadsOn 2 (F.state shelf.old) (F.state shelf.new) }
{
    window.take_lines(shelf, Some(0), 1 + models.count())?;
    window.compare_head(models)
}

/// Checks the lines of the rows one after another, and the last line.
fn check_rows<F: Shelf>(
    alloc: Global,
    stream: &mut Stream,
    shelf: &mut F,
    head: &Header,
    replay: &mut Replay,
) -> Result<Accepted, CheckFault>
    requires attached { ((F.state shelf.old).slot 1).attached ≡ true }
    requires report { ((F.state shelf.old).slot 2).attached ≡ true }
    requires going { is_refusal stream.old.cutter.last ≡ false }
    requires ended { IsEndedAt 1 stream.old (F.state shelf.old) }
    requires inputs { length head.now.inputs ≡ replay.old.bank.inputs }
    requires outputs { length head.now.outputs ≡ replay.old.bank.outputs }
    requires begins { replay.old.bank.count ≡ 0 }
    requires ready { IsReady replay.old }
    requires short { (current stream.old.cutter).room ≤ most_telemetry }
    ensures says { (names : List (List ℕ)) (ps : List Plant) (bytes : List ℕ) → AreModels names ps replay.old.counts
        → Checked names ps [] bytes replay.old (F.state shelf.old)
        → OnRows 1 head.now stream.old (F.state shelf.old) (λ rows. SaysOfChecked names ps result rows bytes) }
    ensures in_time { (names : List (List ℕ)) (ps : List Plant) (bytes : List ℕ) → AreModels names ps replay.old.counts
        → Checked names ps [] bytes replay.old (F.state shelf.old)
        → OnUnreadLeft stream.old (F.state shelf.old) (F.state shelf.new) (λ unread left. RowsRefuseInTime
        (λ k. watch names ps (rows_ended head.now stream.old.cutter (without_last k unread)).samples false)
        bytes (length unread) left result) }
    ensures ends { EndsRows (F.state shelf.old) (F.state shelf.new) result }
{
    'rows: loop {
        match next_row(alloc, stream, shelf, head)? {
            Some(sample) => replay.check_sample(shelf, &sample)?,
            None => return check_end(&mut replay.window, shelf, replay.bank.count()),
        }
    }
}

/// Compares the last line, after so many samples; nothing may stand behind it.
fn check_end<F: Shelf>(
    window: &mut Window,
    shelf: &mut F,
    samples: u64,
) -> Result<Accepted, CheckFault>
    requires attached { ((F.state shelf.old).slot 2).attached ≡ true }
    requires counted { window.old.lines + room + 1 < 2 ^ 64 }
    requires few { samples < 2 ^ 63 }
    ensures done { IfOk result (λ accepted. accepted.samples ≡ samples) }
    ensures stands { OnOk result (EndStands samples window.old (F.state shelf.old)) }
    ensures departs { IfErr result (λ fault. (line : ℕ) → fault ≡ CheckFault.Report line
        → (unread : List ℕ) → HasUnread window.old (F.state shelf.old) unread → EndDeparts samples window.old.lines unread line) }
    ensures at_end { OnOk result (IsAtEnd ((F.state shelf.new).slot 2).rest) }
    ensures fault { IfErr result IsSampleFault }
    ensures read { IfRead result (λ slot. Rose ((F.state shelf.old).slot 2).faults ((F.state shelf.new).slot 2).faults) }
    ensures kept { ReadsOn 2 (F.state shelf.old) (F.state shelf.new) }
{
    window.take_lines(shelf, Some(0), 1)?;
    window.compare_end(samples)?;
    if window.has_more(shelf)? {
        return Err(CheckFault::Report {
            line: window.lines + 1,
        });
    }
    Ok(Accepted { samples })
}
