//! What a sample makes of one model.

use arrayvec::ArrayVec;
use farkas_check::Cert;

/// How the set of a model came to a sample.
#[derive(Clone, Copy, Debug, PartialEq, Eq)]
pub enum Kept {
    /// As the image of the set before.
    Imaged,
    /// As the state box, since the image left the range.
    Widened,
}

/// What a sample says of a model.
#[derive(Clone, Copy, Debug)]
pub enum Outcome {
    /// Nothing shows that the model has no trajectory.
    Fits,
    /// The model has no trajectory, by this certificate.
    Excluded(Cert),
}

/// What a model predicts of a sample, and what the sample says of it.
#[derive(Drop)]
pub struct Judgement {
    /// The predicted interval of each output, in nano-units.
    pub outs: ArrayVec<(i128, i128), 6>,
    pub outcome: Outcome,
}

/// Why a sample is not judged by what was offered.
#[derive(Clone, Copy, Debug)]
pub struct NotJustified {
    /// The output that is due, if any.
    pub due: Option<u32>,
    /// The certificate that was offered, if any.
    pub offered: Option<Cert>,
}

/// What a model predicts of a sample, and why the sample is not judged by what was offered.
#[derive(Drop)]
pub struct Unjustified {
    /// The predicted interval of each output, in nano-units.
    pub outs: ArrayVec<(i128, i128), 6>,
    pub why: NotJustified,
}
