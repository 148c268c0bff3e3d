//! The estimate of one model: the two sets that follow its plant through the telemetry.

ghost use Rattle.std.specs.Prelude.{IsTrue, ◌≡◌, ◌+◌, ◌<◌, ◌≤◌, ◌&&◌, not, [], true, length, None};
ghost use Rattle.std.specs.Prelude.{is_none, option_map, unsigned_abs, if◌then◌else◌, IfOk};
ghost use Rattle.std.specs.List.{list_all};
ghost use Rattle.set_rules.specs.Box.{hull as hull_of};
ghost use Rattle.set_rules.specs.Keep.{without_rows};
ghost use Rattle.set_rules.specs.Limits.{input_limit, constrained_columns};
ghost use Rattle.set_rules.specs.Zono.{range};
ghost use Rattle.plant_model.specs.Plant.{AllWithinLimit};
ghost use Rattle.plant_model.specs.Seen.{sample_of};
ghost use Rattle.observer_step.specs.Predicted.{predicted_outs, due};
ghost use Rattle.set_rules.specs.Farkas.{first_candidate as first_candidate_of, passes as passes_of};
ghost use Rattle.farkas_check.specs.Certificate.{certificate_of};
ghost use Rattle.observer_step.specs.Seen.{was_widened, certificate_in, is_printable_interval};
ghost use Rattle.observer_step.specs.Answers.{any_justified, as_run_chooses, is_chosen, is_justified as is_justified_of};
ghost use Rattle.observer_step.specs.SetsAnswers.{if_multipliers, sets_offered, is_allowed_of_sets, SetsAnswer, Judges};
ghost use Rattle.observer_step.specs.Offers.{outs_in, answer_in};
ghost use Rattle.observer_step.specs.Predicted.{first_set};
ghost use Rattle.observer_step.specs.Estimate.{image_of, trim, state_box as state_box_of, image_columns};
ghost use Rattle.observer_step.specs.Sets.{first_sets, either_leaves, predict_sets, correct_sets_if, SetsReady, LeadsOn};
ghost use Rattle.observer_step.specs.Sets.{settle, constrained_image};

use crate::ahead::predicted;
use crate::inputs::shift;
use crate::offer::{is_justified, offers_output, outcome_by};
use crate::pass::{Passed, pass_over};
use crate::room::Room;
use crate::rows::keep_readings;
use crate::{Judgement, Kept, NotJustified, Outcome, PLAIN_COLUMNS, Unjustified};
use arrayvec::ArrayVec;
use czono_set::Czono;
use farkas_check::{Cert, first_candidate, passes};
use fixed_mat::{Mat, Reading, Rows};
use plant_model::{Plant, Sample};
use simplex_guess::{Pivots, propose};
use std::marker::Model;
use zono_set::{Refusals, Zono};

/// Two sets in which the state of a plant of `N` states lies at a sample: a plain one, and one whose symbols also satisfy
/// the rows of the latest readings (after Combastel 2003; Scott, Raimondo, Marseglia and Braatz 2016).
#[derive(Drop)]
pub struct Est<const N: usize> {
    plain: Zono<N>,
    constrained: Czono<N>,
    /// How the plain set fared with the latest rows; no part of the value.
    refusals: Refusals,
    /// How the other fared with the rows that were taken out; no part of the value.
    dropped: Refusals,
}

impl<const N: usize> Model for Est<N> {
    ghost use Rattle.observer_step.specs.Sets.{Sets, HaveRoom};

    ghost Value = { Sets };

    ghost view = { λ e. record { plain = e.plain; constrained = e.constrained } };

    ghost invariant = { λ e. HaveRoom (record { plain = e.plain; constrained = e.constrained }) };
}

impl<const N: usize> Est<N> {
    /// The sets in which the plant starts; no rows are kept yet.
    pub fn begin(plant: &Plant<N>) -> Est<N>
        ensures sets { result ≡ first_sets plant.now }
        ensures ready { SetsReady plant.now [] result }
    {
        Est {
            plain: first_box(plant),
            constrained: Czono::of(first_box(plant)),
            refusals: Refusals::new(),
            dropped: Refusals::new(),
        }
    }

    /// One sample on with the inputs `u` of the last sample, in nano-units. `Widened` where the image of either set
    /// leaves the range: both are then the state box, and no row is kept.
    pub fn predict(&mut self, plant: &Plant<N>, u: &ArrayVec<i128, 4>) -> Kept
        requires count { length u.now.items ≡ plant.now.inputs }
        requires small { AllWithinLimit input_limit u.now.items }
        ensures sets { self.new ≡ predict_sets plant.now u.now.items self.old }
        ensures kept { was_widened result ≡ either_leaves plant.now u.now.items self.old }
        ensures ready { LeadsOn plant.now u.now.items self.old self.new (was_widened result) }
    {
        let _ = plant.states();
        if take_images(&mut self.plain, &mut self.constrained, plant, u) {
            self.constrained.settle();
            return Kept::Imaged;
        }
        box_both(&mut self.plain, &mut self.constrained, plant);
        Kept::Widened
    }

    /// The predicted interval of each output with the inputs `u`, in nano-units, its ends within `10^24`: by the plain set.
    pub fn outs(&self, plant: &Plant<N>, u: &ArrayVec<i128, 4>) -> ArrayVec<(i128, i128), 6>
        requires count { length u.now.items ≡ plant.now.inputs }
        requires small { AllWithinLimit input_limit u.now.items }
        ensures value { result.items ≡ predicted_outs plant.now u.now.items self.now.plain }
        ensures printable { list_all is_printable_interval result.items ≡ true }
    {
        predicted(&self.plain, plant, u)
    }

    /// What the sample says of the model: the due certificate names the least output that misses, and the sets stay. Where none
    /// is due both take the readings, and the first candidate that refutes the kept rows is the certificate; where there is no
    /// such candidate it is what the search proposes, if that refutes them, or none.
    pub fn correct(&mut self, plant: &Plant<N>, sample: &Sample) -> Outcome
        requires inputs { length sample.now.u.items ≡ plant.now.inputs }
        requires outputs { length sample.now.y.items ≡ plant.now.outputs }
        ensures outcome { is_allowed_of_sets as_run_chooses plant.now (sample_of sample.now) self.old (certificate_in result) ≡ true }
        ensures sets { self.new
            ≡ correct_sets_if (is_none (due plant.now (sample_of sample.now) self.old.plain)) plant.now (sample_of sample.now) self.old }
        ensures stands { Judges as_run_chooses plant.now (sample_of sample.now) self.old self.new (certificate_in result) }
    {
        let mut room = Room::new();
        self.judge(plant, sample, &mut room).outcome
    }

    /// The same by a certificate that is offered, or by none, where that is justified; else the answer is why not. The sets take
    /// the readings where no output is due and none is offered, and else they stay.
    pub fn correct_with(
        &mut self,
        plant: &Plant<N>,
        sample: &Sample,
        offered: Option<Cert>,
    ) -> Result<Outcome, NotJustified>
        requires inputs { length sample.now.u.items ≡ plant.now.inputs }
        requires outputs { length sample.now.y.items ≡ plant.now.outputs }
        ensures outcome { SetsAnswer plant.now (sample_of sample.now) self.old offered result }
        ensures sets { self.new
            ≡ sets_offered plant.now (sample_of sample.now) self.old (option_map certificate_of offered) }
        ensures stands { IfOk result (λ outcome.
            Judges any_justified plant.now (sample_of sample.now) self.old self.new (certificate_in outcome)) }
    {
        let mut room = Room::new();
        match self.judge_with(plant, sample, &mut room, offered) {
            Ok(judgement) => Ok(judgement.outcome),
            Err(unjustified) => Err(unjustified.why),
        }
    }

    /// Compares a sample with what the plain set predicts. Where no output is due, both sets take the readings if they are wanted.
    fn pass(&mut self, plant: &Plant<N>, sample: &Sample, room: &mut Room, wanted: bool) -> Passed
        requires inputs { length sample.now.u.items ≡ plant.now.inputs }
        requires outputs { length sample.now.y.items ≡ plant.now.outputs }
        ensures outs { result.outs.items ≡ predicted_outs plant.now sample.now.u.items self.old.plain }
        ensures printable { list_all is_printable_interval result.outs.items ≡ true }
        ensures due { result.due ≡ due plant.now (sample_of sample.now) self.old.plain }
        ensures sets { self.new ≡ correct_sets_if (wanted && is_none result.due) plant.now (sample_of sample.now) self.old }
    {
        let passed = pass_over(
            &mut self.plain,
            &mut self.refusals,
            room,
            plant,
            sample,
            wanted,
        );
        if wanted && passed.due.is_none() {
            keep_readings(
                &mut self.constrained,
                &mut self.dropped,
                room,
                plant,
                sample,
            );
        }
        passed
    }

    /// What `outs` and `correct` say of the sample, by one computation in room that is lent.
    pub fn judge(&mut self, plant: &Plant<N>, sample: &Sample, room: &mut Room) -> Judgement
        requires inputs { length sample.now.u.items ≡ plant.now.inputs }
        requires outputs { length sample.now.y.items ≡ plant.now.outputs }
        ensures outs { result.outs.items ≡ predicted_outs plant.now sample.now.u.items self.old.plain }
        ensures printable { list_all is_printable_interval result.outs.items ≡ true }
        ensures outcome { is_allowed_of_sets as_run_chooses plant.now (sample_of sample.now) self.old (certificate_in result.outcome) ≡ true }
        ensures sets { self.new
            ≡ correct_sets_if (is_none (due plant.now (sample_of sample.now) self.old.plain)) plant.now (sample_of sample.now) self.old }
        ensures stands { Judges as_run_chooses plant.now (sample_of sample.now) self.old self.new (certificate_in result.outcome) }
    {
        let Passed { outs, due } = self.pass(plant, sample, room, true);
        let outcome = outcome_by(certificate(due, self.rows(), has_reading(sample)));
        Judgement { outs, outcome }
    }

    /// What `outs` and `correct_with` say of the sample, by one computation in room that is lent.
    pub fn judge_with(
        &mut self,
        plant: &Plant<N>,
        sample: &Sample,
        room: &mut Room,
        offered: Option<Cert>,
    ) -> Result<Judgement, Unjustified>
        requires inputs { length sample.now.u.items ≡ plant.now.inputs }
        requires outputs { length sample.now.y.items ≡ plant.now.outputs }
        ensures outs { outs_in result ≡ predicted_outs plant.now sample.now.u.items self.old.plain }
        ensures printable { list_all is_printable_interval (outs_in result) ≡ true }
        ensures outcome { SetsAnswer plant.now (sample_of sample.now) self.old offered (answer_in result) }
        ensures sets { self.new
            ≡ sets_offered plant.now (sample_of sample.now) self.old (option_map certificate_of offered) }
        ensures stands { IfOk result (λ judgement.
            Judges any_justified plant.now (sample_of sample.now) self.old self.new (certificate_in judgement.outcome)) }
    {
        let wanted = !offers_output(&offered);
        let Passed { outs, due } = self.pass(plant, sample, room, wanted);
        if !is_justified(due, self.rows(), &offered) {
            let why = NotJustified { due, offered };
            return Err(Unjustified { outs, why });
        }
        let outcome = outcome_by(offered);
        Ok(Judgement { outs, outcome })
    }

    /// The least and the greatest value of state `i`, in nano-units, by the plain set.
    pub fn hull(&self, i: usize) -> (i128, i128)
        requires { i < N }
        ensures value { result ≡ hull_of self.now.plain i }
        ensures low { unsigned_abs result.0 ≤ range }
        ensures high { unsigned_abs result.1 ≤ range }
    {
        self.plain.hull(i)
    }

    /// The rows that are kept, oldest first.
    pub fn rows(&self) -> &Rows
        ensures rows { result.now.rows ≡ self.now.constrained.rows }
        ensures width { result.now.width ≡ length self.now.constrained.base.columns }
    {
        self.constrained.rows()
    }
}

/// The certificate of the output that is due; or else of the first candidate that refutes the rows; or else, where one of
/// the rows is new, of what the search proposes, if that refutes them.
fn certificate(due: Option<u32>, rows: &Rows, is_new: bool) -> Option<Cert>
    ensures { is_chosen due (passes_of rows.now.width rows.now.rows)
        (if_multipliers (first_candidate_of rows.now.width rows.now.rows)) (option_map certificate_of result) ≡ true }
{
    if let Some(o) = due {
        return Some(Cert::Out(o));
    }
    if let Some(multipliers) = first_candidate(rows) {
        let _ = multipliers.list();
        return Some(Cert::Rows(multipliers));
    }
    proposed(rows, is_new)
}

/// What the search proposes, where it refutes the rows. It is asked where one of them is new: an image and a reduction
/// change no right side and make no magnitude less, so that what refuted nothing before refutes nothing after them. Nor
/// is a list tested to which no pivot led: it is that of one row, which is no candidate, or a point meets all rows.
fn proposed(rows: &Rows, is_new: bool) -> Option<Cert>
    ensures { is_justified_of None (passes_of rows.now.width rows.now.rows) (option_map certificate_of result) ≡ true }
{
    if !is_new || rows.count() == 0 {
        return None;
    }
    let mut pivots = Pivots { done: 0 };
    let multipliers = propose(rows, &mut pivots);
    if pivots.done > 0 && passes(rows, multipliers.list()) {
        return Some(Cert::Rows(multipliers));
    }
    None
}

/// Whether the sample has a reading, and so a row that is new. Only time rests on it.
fn has_reading(sample: &Sample) -> bool {
    sample
        .y
        .iter()
        .any(|reading| !matches!(reading, Reading::Missing))
}

/// Takes the images of both sets; whether neither leaves the range. Where one does, the sets are not to be used.
fn take_images<const N: usize>(
    plain: &mut Zono<N>,
    constrained: &mut Czono<N>,
    plant: &Plant<N>,
    u: &[i128],
) -> bool
    requires count { length u.now ≡ plant.now.inputs }
    requires small { AllWithinLimit input_limit u.now }
    requires room { length constrained.old.base.columns ≤ constrained_columns + 1 }
    ensures stays { result ≡ not (either_leaves plant.now u.now (record { plain = plain.old; constrained = constrained.old })) }
    ensures plain { IsTrue result → plain.new ≡ image_of plant.now u.now (trim plant.now.states plain.old) }
    ensures constrained { IsTrue result → constrained.new ≡ constrained_image plant.now u.now constrained.old }
    ensures room { IsTrue result → length plain.new.columns ≤ image_columns }
{
    let _ = plant.states();
    let shift = shift(plant, u);
    plain.reduce(PLAIN_COLUMNS);
    match plain.image(plant.a(), &shift, plant.e(), plant.dists()) {
        Err(_) => false,
        Ok(()) => match constrained.image(plant.a(), &shift, plant.e(), plant.dists()) {
            Err(_) => false,
            Ok(()) => true,
        },
    }
}

/// Makes both sets the state box, with no rows. Kept out of line, since room for boxes is to be made only where they are.
#[inline(never)]
fn box_both<const N: usize>(plain: &mut Zono<N>, constrained: &mut Czono<N>, plant: &Plant<N>)
    ensures plain { plain.new ≡ state_box_of plant.now }
    ensures constrained { constrained.new ≡ settle plant.now.states (without_rows (state_box_of plant.now)) }
    ensures plain_room { length plain.new.columns ≤ image_columns }
    ensures room { length constrained.new.base.columns ≤ constrained_columns + 1 }
{
    let _ = plant.states();
    *plain = state_box(plant);
    *constrained = Czono::of(state_box(plant));
    constrained.settle();
}

/// The box in which the plant starts.
pub fn first_box<const N: usize>(plant: &Plant<N>) -> Zono<N>
    ensures value { result ≡ first_set plant.now }
    ensures room { length result.columns ≤ image_columns }
{
    let _ = plant.states();
    Zono::of_box(plant.centre(), plant.radius()).unwrap()
}

/// The box of the plant's state bounds.
pub fn state_box<const N: usize>(plant: &Plant<N>) -> Zono<N>
    ensures value { result ≡ state_box_of plant.now }
    ensures room { length result.columns ≤ image_columns }
{
    let _ = plant.states();
    Zono::of_box(&Mat::zero(), plant.state_max()).unwrap()
}
