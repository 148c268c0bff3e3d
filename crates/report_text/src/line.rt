//! The lines of a report.
use arrayvec::{ArrayString, ArrayVec};
use farkas_check::Cert;
use isolate_core::Verdict;

/// One line of a report. Indices start at 0; the ends of intervals are in nano-units.
#[derive(Drop)]
pub enum RepLine {
    /// The first line.
    Title,
    /// A model's name.
    Model {
        index: u32,
        name: ArrayString<32>,
    },
    /// A sample starts, from 0.
    Sample {
        k: u64,
    },
    /// The interval in which a live model predicts an output.
    Pred {
        model: u32,
        output: u32,
        lo: i128,
        hi: i128,
    },
    /// A model is excluded.
    Exclude {
        model: u32,
        cert: Cert,
    },
    /// The interval that holds a state of a model that is not excluded.
    Hull {
        model: u32,
        state: u32,
        lo: i128,
        hi: i128,
    },
    /// A model that is not excluded fits, or it was widened and nothing can be said.
    Status {
        model: u32,
        kept: bool,
    },
    /// The models that are still possible; their indices rise.
    Possible {
        models: ArrayVec<u32, 16>,
    },
    /// The verdict on the unit.
    Verdict(Verdict),
    /// The last line: the number of samples.
    End {
        samples: u64,
    },
}
