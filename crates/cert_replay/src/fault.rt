//! How a check ends.
ghost use Rattle.std.specs.Prelude.{◌≡◌};

use input_files::{ModelEnding, StreamFault};
use model_file::ModelFault;
use outside_io::GetFault;
use telem_csv::TelemFault;
use thiserror::Error;

/// A report that is accepted.
#[derive(Clone, Copy, Debug, PartialEq, Eq)]
pub struct Accepted {
    /// How many samples there were.
    pub samples: u64,
}

/// Why a report is not accepted.
#[derive(Debug, Drop, Error)]
pub enum CheckFault {
    /// The model file is refused.
    #[error("the model file is refused")]
    Model(ModelFault),
    /// The telemetry is refused at a line, and the report does not depart before it.
    #[error("the telemetry is refused")]
    Telemetry(TelemFault),
    /// The slot could not be read: 0 is the model file, 1 the telemetry, 2 the report.
    #[error("a file cannot be read")]
    Read { slot: usize },
    /// This line of the report, from 1, is the first that does not follow those before it.
    #[error("the report is refused")]
    Report { line: u64 },
    /// Memory ran out.
    #[error("out of memory")]
    Memory,
}

impl From<ModelEnding> for CheckFault {
    ghost use Rattle.cert_replay.specs.Faults.{model_fault};

    ghost from_gives = { λ ending fault. fault ≡ model_fault ending };

    fn from(ending: ModelEnding) -> CheckFault {
        match ending {
            ModelEnding::Refused(fault) => CheckFault::Model(fault),
            ModelEnding::Read => CheckFault::Read { slot: 0 },
            ModelEnding::Memory => CheckFault::Memory,
        }
    }
}

impl From<StreamFault> for CheckFault {
    ghost use Rattle.cert_replay.specs.Faults.{telemetry_fault};

    ghost from_gives = { λ ending fault. fault ≡ telemetry_fault ending };

    fn from(ending: StreamFault) -> CheckFault {
        match ending {
            StreamFault::Refused(fault) => CheckFault::Telemetry(fault),
            StreamFault::Read => CheckFault::Read { slot: 1 },
            StreamFault::Memory => CheckFault::Memory,
        }
    }
}

impl From<GetFault> for CheckFault {
    ghost use Rattle.cert_replay.specs.Faults.{report_fault};

    ghost from_gives = { λ ending fault. fault ≡ report_fault ending };

    fn from(ending: GetFault) -> CheckFault {
        match ending {
            GetFault::Failed => CheckFault::Read { slot: 2 },
            GetFault::Memory => CheckFault::Memory,
        }
    }
}
