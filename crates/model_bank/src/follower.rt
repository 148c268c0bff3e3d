//! One model of a bank, of a plant of `N` states.

ghost use Rattle.std.specs.Prelude.{◌≡◌, ◌≤◌, true, false, IfOk, IfErr, length, is_none, option_map};
ghost use Rattle.std.specs.List.{list_all};
ghost use Rattle.set_rules.specs.Limits.{input_limit};
ghost use Rattle.plant_model.specs.Plant.{AllWithinLimit};
ghost use Rattle.plant_model.specs.Seen.{sample_of};
ghost use Rattle.observer_step.specs.Predicted.{hulls as hulls_of};
ghost use Rattle.observer_step.specs.Offers.{outs_in};
ghost use Rattle.observer_step.specs.Seen.{was_widened, certificate_in, is_printable_interval};
ghost use Rattle.model_bank.specs.Bank.{begun};
ghost use Rattle.model_bank.specs.Claims.{SetsTake, SetsRefuse, ModelTakes, MemberTakes, MemberRefuses};
ghost use Rattle.model_bank.specs.Seen.{model_seen};
ghost use Rattle.model_bank.specs.Steps.{sets_ahead, widens};

use crate::ModelRec;
use crate::claim::Claim;
use arrayvec::ArrayVec;
use observer_step::{Est, Judgement, Kept, Outcome, Room, Unjustified};
use plant_model::{Plant, Sample};
use std::marker::Model;

/// A plant of `N` states, its estimate, and whether it fits every sample so far.
#[derive(Drop)]
pub struct Follower<const N: usize> {
    plant: Plant<N>,
    estimate: Est<N>,
    live: bool,
}

impl<const N: usize> Model for Follower<N> {
    ghost use Rattle.model_bank.specs.Bank.{Member as TheMember};

    ghost Value = { TheMember };

    ghost view = { λ f. record { plant = f.plant; estimate = f.estimate; live = f.live } };
}

impl<const N: usize> Follower<N> {
    /// The model before the first sample.
    pub fn begin(plant: Plant<N>) -> Follower<N>
        ensures { result ≡ begun plant.entry }
    {
        let estimate = Est::begin(&plant);
        Follower {
            plant,
            estimate,
            live: true,
        }
    }

    /// Whether it fits every sample so far.
    pub fn is_live(&self) -> bool
        ensures { result ≡ self.now.live }
    {
        self.live
    }

    /// What a sample makes of the model, where it is live, or why it refuses what is claimed of it; `last` are the inputs
    /// of the sample before, which the first has not.
    pub fn take(
        &mut self,
        index: u32,
        is_first: bool,
        last: &ArrayVec<i128, 4>,
        sample: &Sample,
        room: &mut Room,
        claim: Claim,
    ) -> Result<Option<ModelRec>, Unjustified>
        requires inputs { length sample.now.u.items ≡ self.old.plant.inputs }
        requires outputs { length sample.now.y.items ≡ self.old.plant.outputs }
        requires last_inputs { is_first ≡ false → length last.now.items ≡ self.old.plant.inputs }
        requires last_small { AllWithinLimit input_limit last.now.items }
        ensures taken { IfOk result (λ told. MemberTakes is_first last.now.items (sample_of sample.now) index
            self.old self.new claim (option_map model_seen told)) }
        ensures refused { IfErr result (MemberRefuses is_first last.now.items (sample_of sample.now) self.old claim) }
        ensures printable { IfErr result (λ e. list_all is_printable_interval e.outs.items ≡ true) }
        ensures plant { self.new.plant ≡ self.old.plant }
    {
        if !self.live {
            return Ok(None);
        }
        let kept = go_ahead(&self.plant, &mut self.estimate, is_first, last);
        match judge(
            &self.plant,
            &mut self.estimate,
            index,
            kept,
            sample,
            room,
            claim,
        ) {
            Ok(model) => {
                self.live = fits(&model.outcome);
                Ok(Some(model))
            }
            Err(unjustified) => Err(unjustified),
        }
    }
}

/// Predicts the sets of a sample from those of the last, whose inputs `last` are. The first has none, and its sets are there.
#[tactic(auto, unfolding(crate::specs::Steps::sets_ahead, crate::specs::Steps::widens))]
fn go_ahead<const N: usize>(
    plant: &Plant<N>,
    estimate: &mut Est<N>,
    is_first: bool,
    last: &ArrayVec<i128, 4>,
) -> Kept
    requires last_inputs { is_first ≡ false → length last.now.items ≡ plant.now.inputs }
    requires last_small { AllWithinLimit input_limit last.now.items }
    ensures sets { estimate.new ≡ sets_ahead is_first last.now.items plant.now estimate.old }
    ensures kept { was_widened result ≡ widens is_first last.now.items plant.now estimate.old }
{
    if is_first {
        Kept::Imaged
    } else {
        estimate.predict(plant, last)
    }
}

/// What a sample makes of a model whose estimate has the predicted sets.
fn judge<const N: usize>(
    plant: &Plant<N>,
    estimate: &mut Est<N>,
    index: u32,
    kept: Kept,
    sample: &Sample,
    room: &mut Room,
    claim: Claim,
) -> Result<ModelRec, Unjustified>
    requires inputs { length sample.now.u.items ≡ plant.now.inputs }
    requires outputs { length sample.now.y.items ≡ plant.now.outputs }
    ensures taken { IfOk result (λ model. ModelTakes plant.now (sample_of sample.now)
        estimate.old estimate.new (was_widened kept) claim index (model_seen model)) }
    ensures refused { IfErr result (SetsRefuse plant.now (sample_of sample.now) estimate.old claim) }
    ensures printable { IfErr result (λ e. list_all is_printable_interval e.outs.items ≡ true) }
{
    match judge_by(plant, estimate, sample, room, claim) {
        Ok(
            Judgement {
                outs: preds,
                outcome,
            },
        ) => {
            let hulls = if fits(&outcome) {
                hulls(plant, estimate)
            } else {
                ArrayVec::new()
            };
            Ok(ModelRec {
                index,
                preds,
                kept,
                outcome,
                hulls,
            })
        }
        Err(unjustified) => Err(unjustified),
    }
}

/// What a sample says of a model by what is claimed of it.
fn judge_by<const N: usize>(
    plant: &Plant<N>,
    estimate: &mut Est<N>,
    sample: &Sample,
    room: &mut Room,
    claim: Claim,
) -> Result<Judgement, Unjustified>
    requires inputs { length sample.now.u.items ≡ plant.now.inputs }
    requires outputs { length sample.now.y.items ≡ plant.now.outputs }
    ensures taken { IfOk result
        (SetsTake plant.now (sample_of sample.now) estimate.old estimate.new claim) }
    ensures refused { IfErr result (SetsRefuse plant.now (sample_of sample.now) estimate.old claim) }
    ensures printable { list_all is_printable_interval (outs_in result) ≡ true }
{
    match claim {
        Claim::Own => Ok(estimate.judge(plant, sample, room)),
        Claim::Offered(offered) => estimate.judge_with(plant, sample, room, offered),
    }
}

/// Whether a sample leaves a model possible.
fn fits(outcome: &Outcome) -> bool
    ensures { result ≡ is_none (certificate_in outcome.now) }
{
    matches!(outcome, Outcome::Fits)
}

/// The hull of each state.
fn hulls<const N: usize>(plant: &Plant<N>, estimate: &Est<N>) -> ArrayVec<(i128, i128), 8>
    ensures value { result.items ≡ hulls_of plant.now estimate.now.plain }
    ensures printable { list_all is_printable_interval result.items ≡ true }
{
    let mut hulls = ArrayVec::new();
    for i in 0..plant.states() {
        hulls.push(estimate.hull(i));
    }
    hulls
}
