//! How the program ends, and what it says of it.
ghost use Rattle.std.specs.Prelude.{◌≡◌};
ghost use Rattle.outside_io.specs.Sink.{PutsAll};
ghost use Rattle.zonomon_run.specs.Endings.{ending_of, check_ending};
ghost use Rattle.zonomon_run.specs.Ending.{status_of, text_of, usage_lines, Tells};
ghost use Rattle.zonomon_run.specs.Ending.{model_refusal_text, telemetry_refusal_text, report_refusal_text};

use cert_replay::CheckFault;
use input_files::MOST_TELEMETRY;
use model_file::ModelFault;
use monitor_run::RunFault;
use outside_io::{PutFault, Sink, put_all};
use refusal_text::{model_refusal, report_refusal, telemetry_refusal};
use telem_csv::TelemFault;

/// How the program is called.
const USAGE: &[u8] = b"usage: zonomon run MODEL TELEMETRY
       zonomon check MODEL TELEMETRY REPORT
       zonomon demo SEED SAMPLES
       zonomon help
";

/// Why the program ends with another status than 0.
#[derive(Drop)]
pub enum Ending {
    /// The words have none of the forms.
    Usage,
    /// The model file is refused.
    Model(ModelFault),
    /// The telemetry is refused at a line.
    Telemetry(TelemFault),
    /// The model file could not be read.
    ReadModel,
    /// The telemetry could not be read.
    ReadTelemetry,
    /// The report could not be read.
    ReadReport,
    /// The output could not be written.
    Write,
    /// Memory ran out.
    Memory,
    /// The report is refused at this line, from 1.
    Report(u64),
}

/// How the program ends where a run ended early.
pub fn ending_of(fault: RunFault) -> Ending
    ensures { result ≡ ending_of fault }
{
    match fault {
        RunFault::Model(fault) => Ending::Model(fault),
        RunFault::Telemetry(fault) => Ending::Telemetry(fault),
        RunFault::Read { slot: 0 } => Ending::ReadModel,
        RunFault::Read { slot: _ } => Ending::ReadTelemetry,
        RunFault::Write => Ending::Write,
        RunFault::Memory => Ending::Memory,
    }
}

/// How the program ends where a check ended early.
pub fn check_ending(fault: CheckFault) -> Ending
    ensures { result ≡ check_ending fault }
{
    match fault {
        CheckFault::Model(fault) => Ending::Model(fault),
        CheckFault::Telemetry(fault) => Ending::Telemetry(fault),
        CheckFault::Read { slot: 0 } => Ending::ReadModel,
        CheckFault::Read { slot: 1 } => Ending::ReadTelemetry,
        CheckFault::Read { slot: _ } => Ending::ReadReport,
        CheckFault::Report { line } => Ending::Report(line),
        CheckFault::Memory => Ending::Memory,
    }
}

/// The lines that say how the program is called.
pub fn usage() -> &'static [u8]
    ensures { result.now ≡ usage_lines }
{
    USAGE
}

/// Puts the line of an ending to `err`, and gives its status. A fault of `err` changes no status.
pub fn tell<E: Sink>(err: &mut E, ending: Ending) -> u8
    ensures status { result ≡ status_of ending }
    ensures told { Tells (text_of ending) (E.state err.old) (E.state err.new) }
{
    let _ = put_ending(err, &ending);
    status(&ending)
}

/// Puts the line of an ending.
fn put_ending<E: Sink>(err: &mut E, ending: &Ending) -> Result<(), PutFault>
    ensures { PutsAll (text_of ending.now) (E.state err.old) result (E.state err.new) }
{
    match ending {
        Ending::Model(fault) => put_model_refusal(err, fault),
        Ending::Telemetry(fault) => put_telemetry_refusal(err, fault),
        Ending::Report(line) => put_report_refusal(err, *line),
        Ending::Usage => put_all(err, usage()),
        Ending::ReadModel => put_all(err, b"read fault: model\n"),
        Ending::ReadTelemetry => put_all(err, b"read fault: telemetry\n"),
        Ending::ReadReport => put_all(err, b"read fault: report\n"),
        Ending::Write => put_all(err, b"write fault\n"),
        Ending::Memory => put_all(err, b"out of memory\n"),
    }
}

/// Puts the line that says why a model file is refused.
fn put_model_refusal<E: Sink>(err: &mut E, fault: &ModelFault) -> Result<(), PutFault>
    ensures { PutsAll (model_refusal_text fault.now) (E.state err.old) result (E.state err.new) }
{
    let mut line = model_refusal(fault);
    line.push(b'\n');
    put_all(err, &line)
}

/// Puts the line that says why a telemetry is refused.
fn put_telemetry_refusal<E: Sink>(err: &mut E, fault: &TelemFault) -> Result<(), PutFault>
    ensures { PutsAll (telemetry_refusal_text fault.now) (E.state err.old) result (E.state err.new) }
{
    let mut line = telemetry_refusal(fault, MOST_TELEMETRY);
    line.push(b'\n');
    put_all(err, &line)
}

/// Puts the line that says where a report is refused.
fn put_report_refusal<E: Sink>(err: &mut E, number: u64) -> Result<(), PutFault>
    ensures { PutsAll (report_refusal_text number) (E.state err.old) result (E.state err.new) }
{
    let mut line = report_refusal(number);
    line.push(b'\n');
    put_all(err, &line)
}

fn status(ending: &Ending) -> u8
    ensures { result ≡ status_of ending.now }
{
    match ending {
        Ending::Usage => 1,
        Ending::Model(_) => 2,
        Ending::Telemetry(_) => 3,
        Ending::ReadModel => 4,
        Ending::ReadTelemetry => 4,
        Ending::ReadReport => 4,
        Ending::Write => 5,
        Ending::Memory => 6,
        Ending::Report(_) => 7,
    }
}
