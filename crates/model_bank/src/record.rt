//! What a sample makes of the models of a bank.
ghost use Rattle.std.specs.Prelude.{◌≡◌, true, []};
ghost use Rattle.std.specs.List.{list_all};
ghost use Rattle.observer_step.specs.Seen.{is_printable_interval};

use arrayvec::ArrayVec;
use isolate_core::Verdict;
use observer_step::{Kept, NotJustified, Outcome};

/// What a sample makes of one model that was live before it.
#[derive(Drop)]
pub struct ModelRec {
    /// The model.
    pub index: u32,
    /// The predicted interval of each output, in nano-units, each end within `10^24`.
    pub preds: ArrayVec<(i128, i128), 6>,
    /// How the model's set came to the sample; `Imaged` at the first.
    pub kept: Kept,
    /// What the sample says of the model.
    pub outcome: Outcome,
    /// The hull of each state, in nano-units, each end within `10^24`; none where the model is excluded.
    pub hulls: ArrayVec<(i128, i128), 8>,
    ghost printable_preds: { list_all is_printable_interval preds.items ≡ true },
    ghost printable_hulls: { list_all is_printable_interval hulls.items ≡ true },
}

impl Default for ModelRec {
    fn default() -> Self
        ensures index { result.index ≡ 0 }
        ensures preds { result.preds.items ≡ [] }
        ensures kept { result.kept ≡ Kept.Imaged }
        ensures outcome { result.outcome ≡ Outcome.Fits }
        ensures hulls { result.hulls.items ≡ [] }
    {
        ModelRec {
            index: 0,
            preds: ArrayVec::new(),
            kept: Kept::Imaged,
            outcome: Outcome::Fits,
            hulls: ArrayVec::new(),
        }
    }
}

/// What a sample makes of all models.
#[derive(Drop)]
pub struct SampleRec {
    /// The sample's number, from 0.
    pub k: u64,
    /// The models that were live before the sample, by index.
    pub models: ArrayVec<ModelRec, 16>,
    /// Whether each model of the file is still possible.
    pub possible: ArrayVec<bool, 16>,
    /// The verdict on the models that are possible.
    pub verdict: Verdict,
}

impl SampleRec {
    /// A record of no model, for `Bank::step_into` to fill.
    pub fn new() -> SampleRec
        ensures models { result.models.items ≡ [] }
        ensures possible { result.possible.items ≡ [] }
    {
        SampleRec {
            k: 0,
            models: ArrayVec::new(),
            possible: ArrayVec::new(),
            verdict: Verdict::None,
        }
    }
}

/// The first model of which what was offered is not justified.
#[derive(Drop)]
pub struct Refused {
    /// The model.
    pub model: u32,
    /// What was offered, and which output is due.
    pub why: NotJustified,
    /// The predicted interval of each output, in nano-units, each end within `10^24`.
    pub preds: ArrayVec<(i128, i128), 6>,
    ghost printable: { list_all is_printable_interval preds.items ≡ true },
}

/// The first model of which what was offered is not justified, and the records of the models below it.
#[derive(Drop)]
pub struct BadOffer {
    /// The model.
    pub model: u32,
    /// What was offered, and which output is due.
    pub why: NotJustified,
    /// The models below it that were live before the sample, by index.
    pub before: ArrayVec<ModelRec, 16>,
    /// The predicted interval of each output, in nano-units, each end within `10^24`.
    pub preds: ArrayVec<(i128, i128), 6>,
    ghost printable: { list_all is_printable_interval preds.items ≡ true },
}
