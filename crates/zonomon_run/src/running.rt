//! The top call.
ghost use Rattle.std.specs.Prelude.{◌≡◌, ◌≢◌, ◌⊎◌, ◌↔◌, None};
ghost use Rattle.outside_io.specs.Causes.{Rose};
ghost use Rattle.outside_io.specs.Shelf.{IsFresh};
ghost use Rattle.zonomon_run.specs.Words.{asked_by, texts, faulty, helps};
ghost use Rattle.zonomon_run.specs.Ending.{TellsEnding};
ghost use Rattle.zonomon_run.specs.Runs.{Helps, IsStatus, Monitors, NamesNoFile, NamesNoReport, OnCheck, OnDemo, OnNamed, OnRun, outside};
ghost use Rattle.zonomon_run.specs.Demo.{Demonstrates, TrueStays};
ghost use Rattle.zonomon_run.specs.Runs.{IsAccepted, GainsReport, GainsReportFront, TrueHulls, TrueExclusions, TrueMisses};
ghost use Rattle.zonomon_run.specs.Checks.{Checks, OnChecked, KeepsOwn, CheckedHulls, CheckedExclusions, CheckedMisses};

use crate::demo::demonstrate;
use crate::ending::{Ending, tell, usage};
use crate::files::{check_files, run_files};
use crate::texts::put_text;
use crate::words::{Command, command_of};
use outside_io::{Shelf, Sink};
use std::alloc::Global;

/// Does all that the program does, and answers its status. The words are those after the program's name; slot 0 of the shelf reads
/// the model file, slot 1 the telemetry, slot 2 a report that is checked. The report of a run, or the word that one is accepted, goes
/// to `out`, and the line of a status other than 0 to `err`.
pub fn run<F: Shelf, O: Sink, E: Sink>(
    alloc: Global,
    words: &[String],
    shelf: &mut F,
    out: &mut O,
    err: &mut E,
) -> u8
    requires fresh { IsFresh (F.state shelf.old) }

    // The status, and what each form of the words does.
    ensures status { IsStatus result }
    ensures usage { (result ≡ 1) ↔ (asked_by (texts words.now) ≡ faulty) }
    ensures helps { asked_by (texts words.now) ≡ helps → Helps (O.state out.old) result (O.state out.new) }
    ensures monitors { OnRun (texts words.now) (λ model telemetry. Monitors model telemetry
        (outside (F.state shelf.old) (O.state out.old) (E.state err.old)) result
        (outside (F.state shelf.new) (O.state out.new) (E.state err.new))) }
    ensures checks { OnCheck (texts words.now) (λ model telemetry report. Checks model telemetry report
        (outside (F.state shelf.old) (O.state out.old) (E.state err.old)) result
        (outside (F.state shelf.new) (O.state out.new) (E.state err.new))) }
    ensures demonstrates { OnDemo (texts words.now) (λ seed samples.
        Demonstrates seed samples (O.state out.old) result (O.state out.new)) }
    ensures write { result ≡ 5 → Rose (O.state out.old).faults (O.state out.new).faults }

    // What a run has put to `out`: a report at status 0; at 3 a report up to the refused row; at 4, 5 and 6 a front of one. Which
    // certificates it may choose is said; nothing was put at the other statuses, whatever the words are.
    ensures accepted { result ≡ 0 → OnNamed (texts words.now) (F.state shelf.old) IsAccepted }
    ensures report { (result ≡ 0) ⊎ (result ≡ 3)
        → OnNamed (texts words.now) (F.state shelf.old) (GainsReport (O.state out.old) (O.state out.new)) }
    ensures front { OnNamed (texts words.now) (F.state shelf.old) (GainsReportFront (O.state out.old) (O.state out.new)) }
    ensures nothing { (result ≡ 1) ⊎ ((result ≡ 2) ⊎ (result ≡ 7))
        → (O.state out.new).held ≡ (O.state out.old).held }

    // What the lines of a report that a run may put claim of the trajectories of the models: the headline.
    ensures hull { OnNamed (texts words.now) (F.state shelf.old) TrueHulls }
    ensures exclusion { OnNamed (texts words.now) (F.state shelf.old) TrueExclusions }
    ensures miss { OnNamed (texts words.now) (F.state shelf.old) TrueMisses }

    // No report of a demonstration excludes the model that made its telemetry.
    ensures true_model { OnDemo (texts words.now) TrueStays }

    // No report that a run may put is refused by a check of it, and what the lines of an accepted report claim.
    ensures own_report { OnChecked (texts words.now) (F.state shelf.old) (KeepsOwn result) }
    ensures checked_hull { result ≡ 0 → OnChecked (texts words.now) (F.state shelf.old) CheckedHulls }
    ensures checked_exclusion { result ≡ 0 → OnChecked (texts words.now) (F.state shelf.old) CheckedExclusions }
    ensures checked_miss { result ≡ 0 → OnChecked (texts words.now) (F.state shelf.old) CheckedMisses }

    // Which files were asked for: none by words that name none, no third one by words that name no report, and no telemetry where the
    // model file is refused.
    ensures asked_nothing { NamesNoFile (texts words.now) → IsFresh (F.state shelf.new) }
    ensures asked_no_third { NamesNoReport (texts words.now) → ((F.state shelf.new).slot 2).asked ≡ None }
    ensures asked_first { result ≡ 2 → ((F.state shelf.new).slot 1).asked ≡ None }

    // What was put to `err`: nothing at status 0, and else the line of how the program ended.
    ensures silent { result ≡ 0 → (E.state err.new).held ≡ (E.state err.old).held }
    ensures told { result ≢ 0 → TellsEnding result (E.state err.old) (E.state err.new) }
{
    match command_of(words) {
        Command::Faulty => tell(err, Ending::Usage),
        Command::Help => put_text(usage(), out, err),
        Command::Demonstrate(demo) => demonstrate(alloc, demo, out, err),
        Command::Monitor(model, telemetry) => run_files(alloc, shelf, model, telemetry, out, err),
        Command::Check(model, telemetry, report) => check_files(
            alloc, shelf, model, telemetry, report, out, err,
        ),
    }
}
