//! How a run ends.
ghost use Rattle.std.specs.Prelude.{◌≡◌};

use input_files::{ModelEnding, StreamFault};
use model_file::ModelFault;
use outside_io::PutFault;
use telem_csv::TelemFault;
use thiserror::Error;

/// A run that came to the end of its telemetry.
#[derive(Clone, Copy, Debug, PartialEq, Eq)]
pub struct Done {
    /// How many samples there were.
    pub samples: u64,
}

/// Why a run ended early.
#[derive(Debug, Drop, Error)]
pub enum RunFault {
    /// The model file is refused.
    #[error("the model file is refused")]
    Model(ModelFault),
    /// The telemetry is refused at a line.
    #[error("the telemetry is refused")]
    Telemetry(TelemFault),
    /// The slot could not be read: 0 is the model file, 1 the telemetry.
    #[error("a file cannot be read")]
    Read { slot: usize },
    /// The report could not be written.
    #[error("the report cannot be written")]
    Write,
    /// Memory ran out.
    #[error("out of memory")]
    Memory,
}

impl From<ModelEnding> for RunFault {
    ghost use Rattle.monitor_run.specs.Rows.{model_ending};

    ghost from_gives = { λ fault ending. ending ≡ model_ending fault };

    fn from(fault: ModelEnding) -> RunFault {
        match fault {
            ModelEnding::Refused(fault) => RunFault::Model(fault),
            ModelEnding::Read => RunFault::Read { slot: 0 },
            ModelEnding::Memory => RunFault::Memory,
        }
    }
}

impl From<StreamFault> for RunFault {
    ghost use Rattle.monitor_run.specs.Rows.{ending_of};

    ghost from_gives = { λ fault ending. ending ≡ ending_of fault };

    fn from(fault: StreamFault) -> RunFault {
        match fault {
            StreamFault::Refused(fault) => RunFault::Telemetry(fault),
            StreamFault::Read => RunFault::Read { slot: 1 },
            StreamFault::Memory => RunFault::Memory,
        }
    }
}

impl From<PutFault> for RunFault {
    ghost use Rattle.monitor_run.specs.Rows.{put_ending};

    ghost from_gives = { λ fault ending. ending ≡ put_ending fault };

    fn from(fault: PutFault) -> RunFault {
        match fault {
            PutFault::Failed => RunFault::Write,
            PutFault::Memory => RunFault::Memory,
        }
    }
}
