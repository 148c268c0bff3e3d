//! All models of a file over one telemetry.

ghost use Rattle.std.specs.Prelude.{◌≡◌, ◌+◌, ◌<◌, ◌≤◌, ◌^◌, true, false, [], ◌++◌, length, map, replicate};
ghost use Rattle.std.specs.Prelude.{None, IfSome, option_to_list, IfOk, IfErr, OnOk, IsOk};
ghost use Rattle.std.specs.List.{All};
ghost use Rattle.set_rules.specs.Limits.{input_limit};
ghost use Rattle.plant_model.specs.Plant.{AllWithinLimit};
ghost use Rattle.plant_model.specs.Seen.{sample_of};

use crate::claim::claim_on;
use crate::member::Member;
use crate::{BadOffer, ModelRec, Refused, SampleRec};
use arrayvec::ArrayVec;
use farkas_check::Cert;
use isolate_core::judge;
use model_file::{Bank0, NamedPlant};
use observer_step::{Room, Unjustified};
use plant_model::Sample;
use std::alloc::{AllocError, Global};
use std::marker::Model;

/// All models of a file over one telemetry.
#[derive(Drop)]
pub struct Bank {
    inputs: usize,
    outputs: usize,
    members: Vec<Member>,
    count: u64,
    last: ArrayVec<i128, 4>,
    /// Lent to each model in turn; no part of the bank's value.
    room: Room,
}

impl Model for Bank {
    ghost use Rattle.model_bank.specs.Bank.{Bank as TheBank, IsBank};

    ghost Value = { TheBank };

    ghost view = { λ b. record {
      inputs = b.inputs;
      outputs = b.outputs;
      members = b.members.items;
      count = b.count;
      last_inputs = b.last.items;
    } };

    ghost invariant = { λ b. IsBank (record {
      inputs = b.inputs;
      outputs = b.outputs;
      members = b.members.items;
      count = b.count;
      last_inputs = b.last.items;
    }) };
}

impl Bank {
    ghost use Rattle.model_bank.specs.Bank.{BankStands, plants_in};
    ghost use Rattle.model_bank.specs.Offers.{BankTakes, BankRefuses};
    ghost use Rattle.model_bank.specs.Seen.{sample_seen, offers_seen, refusal_with, refusal_seen};
    ghost use Rattle.model_bank.specs.Stepping.{TakesChosen, TakesAnyOffers, RefusesAnOffer};

    /// The bank before the first sample. Takes all the memory that a bank needs; the error is want of it.
    pub fn begin(alloc: Global, models: Bank0) -> Result<Bank, AllocError>
        ensures stands { IfOk result (BankStands (plants_in models) [] (replicate (length (plants_in models)) true)) }
        ensures inputs { IfOk result (λ b. b.inputs ≡ length models.inputs) }
        ensures outputs { IfOk result (λ b. b.outputs ≡ length models.outputs) }
        ensures members { IfOk result (λ b. length b.members ≡ length models.models) }
        ensures count { IfOk result (λ b. b.count ≡ 0) }
    {
        let inputs = models.inputs().len();
        let outputs = models.outputs().len();
        let members = begun(alloc, models.into_models())?;
        Ok(Bank {
            inputs,
            outputs,
            members,
            count: 0,
            last: ArrayVec::new(),
            room: Room::new(),
        })
    }

    /// How many samples were taken.
    pub fn count(&self) -> u64
        ensures { result ≡ self.now.count }
    {
        self.count
    }

    /// Takes a sample: every live model predicts, compares, and where it fits corrects. Takes no memory.
    pub fn step(&mut self, sample: &Sample) -> SampleRec
        requires inputs { length sample.now.u.items ≡ self.old.inputs }
        requires outputs { length sample.now.y.items ≡ self.old.outputs }
        requires counted { self.old.count < 2 ^ 63 }
        ensures taken { TakesChosen (sample_of sample.now) self.old (sample_seen result) self.new }
        ensures inputs { self.new.inputs ≡ self.old.inputs }
        ensures outputs { self.new.outputs ≡ self.old.outputs }
        ensures members { length self.new.members ≡ length self.old.members }
        ensures count { self.new.count ≡ self.old.count + 1 }
        ensures k { result.k ≡ self.old.count }
    {
        let mut record = SampleRec::new();
        self.step_into(sample, &mut record);
        record
    }

    /// The same, with the record put in the place of an earlier one, so that none is made and moved for each sample.
    pub fn step_into(&mut self, sample: &Sample, earlier: &mut SampleRec)
        requires inputs { length sample.now.u.items ≡ self.old.inputs }
        requires outputs { length sample.now.y.items ≡ self.old.outputs }
        requires counted { self.old.count < 2 ^ 63 }
        ensures taken { TakesChosen (sample_of sample.now) self.old (sample_seen earlier.new) self.new }
        ensures inputs { self.new.inputs ≡ self.old.inputs }
        ensures outputs { self.new.outputs ≡ self.old.outputs }
        ensures members { length self.new.members ≡ length self.old.members }
        ensures count { self.new.count ≡ self.old.count + 1 }
        ensures k { earlier.new.k ≡ self.old.count }
    {
        self.take(sample, None, earlier).unwrap();
    }

    /// Takes a sample with a certificate, or none, offered for each model of the file: every live model is judged by
    /// its offer, where that is justified, and the error is the first whose offer is not. After an error the bank stands
    /// for no samples. What is offered for a model that is not live is not looked at. Takes no memory.
    pub fn step_with(
        &mut self,
        sample: &Sample,
        offered: &[Option<Cert>],
    ) -> Result<SampleRec, BadOffer>
        requires inputs { length sample.now.u.items ≡ self.old.inputs }
        requires outputs { length sample.now.y.items ≡ self.old.outputs }
        requires counted { self.old.count < 2 ^ 63 }
        requires offers { length offered.now ≡ length self.old.members }
        ensures taken { IfOk result (λ told. TakesAnyOffers (sample_of sample.now) (offers_seen offered.now)
            self.old (sample_seen told) self.new) }
        ensures refused { IfErr result (λ bad. RefusesAnOffer (sample_of sample.now) (offers_seen offered.now)
            self.old (refusal_seen bad)) }
        ensures inputs { self.new.inputs ≡ self.old.inputs }
        ensures outputs { self.new.outputs ≡ self.old.outputs }
        ensures members { length self.new.members ≡ length self.old.members }
        ensures count { OnOk result (self.new.count ≡ self.old.count + 1) }
        ensures k { IfOk result (λ told. told.k ≡ self.old.count) }
    {
        let mut record = SampleRec::new();
        match self.step_with_into(sample, offered, &mut record) {
            Ok(()) => Ok(record),
            Err(Refused { model, why, preds }) => Err(BadOffer {
                model,
                why,
                before: record.models,
                preds,
            }),
        }
    }

    /// The same, with the record put in the place of an earlier one. After an error it has the records of the live
    /// models below the one that is refused.
    pub fn step_with_into(
        &mut self,
        sample: &Sample,
        offered: &[Option<Cert>],
        earlier: &mut SampleRec,
    ) -> Result<(), Refused>
        requires inputs { length sample.now.u.items ≡ self.old.inputs }
        requires outputs { length sample.now.y.items ≡ self.old.outputs }
        requires counted { self.old.count < 2 ^ 63 }
        requires offers { length offered.now ≡ length self.old.members }
        ensures taken { OnOk result (TakesAnyOffers (sample_of sample.now) (offers_seen offered.now)
            self.old (sample_seen earlier.new) self.new) }
        ensures refused { IfErr result (λ refused. RefusesAnOffer (sample_of sample.now) (offers_seen offered.now)
            self.old (refusal_with refused earlier.new.models.items)) }
        ensures inputs { self.new.inputs ≡ self.old.inputs }
        ensures outputs { self.new.outputs ≡ self.old.outputs }
        ensures members { length self.new.members ≡ length self.old.members }
        ensures count { OnOk result (self.new.count ≡ self.old.count + 1) }
        ensures k { OnOk result (earlier.new.k ≡ self.old.count) }
    {
        self.take(sample, Some(offered), earlier)
    }

    /// Takes a sample by the certificates that are offered, or by the models' own choices, which no model refuses.
    fn take(
        &mut self,
        sample: &Sample,
        offered: Option<&[Option<Cert>]>,
        earlier: &mut SampleRec,
    ) -> Result<(), Refused>
        requires inputs { length sample.now.u.items ≡ self.old.inputs }
        requires outputs { length sample.now.y.items ≡ self.old.outputs }
        requires counted { self.old.count < 2 ^ 63 }
        requires offers { IfSome offered (λ offers. length offers.now ≡ length self.old.members) }
        ensures taken { OnOk result (BankTakes (sample_of sample.now) offered.entry
            self.old (sample_seen earlier.new) self.new) }
        ensures refused { IfErr result (λ refused. BankRefuses (sample_of sample.now) offered.entry
            self.old (refusal_with refused earlier.new.models.items)) }
        ensures due { offered.entry ≡ None → IsOk result }
        ensures inputs { self.new.inputs ≡ self.old.inputs }
        ensures outputs { self.new.outputs ≡ self.old.outputs }
        ensures members { length self.new.members ≡ length self.old.members }
        ensures count { OnOk result (self.new.count ≡ self.old.count + 1) }
        ensures k { OnOk result (earlier.new.k ≡ self.old.count) }
    {
        earlier.k = self.count;
        match take_all(
            &mut self.members,
            self.count == 0,
            &self.last,
            sample,
            &mut self.room,
            offered,
            &mut earlier.models,
        ) {
            Ok(()) => {
                tell_possible(&self.members, &mut earlier.possible);
                earlier.verdict = judge(&earlier.possible);
                self.count += 1;
                replace(&mut self.last, &sample.u);
                Ok(())
            }
            Err(refused) => Err(refused),
        }
    }
}

ghost use Rattle.model_file.specs.Seen.{named};
ghost use Rattle.model_bank.specs.Bank.{HasPlantOf, begun as begun_of};
ghost use Rattle.model_bank.specs.Seen.{model_seen, refusal_with};
ghost use Rattle.model_bank.specs.Offers.{MembersTake, RefusesMember};

/// The members of these plants, before the first sample.
fn begun(alloc: Global, models: Vec<NamedPlant>) -> Result<Vec<Member>, AllocError>
    ensures { IfOk result (λ ms. ms.items ≡ map (λ n. begun_of n.plant) (map named models.items)) }
{
    let mut members = Vec::with_capacity(alloc, models.len())?;
    for model in models {
        let NamedPlant { name: _, plant } = model;
        members.push(Member::begin(plant))?;
    }
    Ok(members)
}

/// What a sample makes of the models that are live, by index, up to the first that refuses what is claimed of it; `last`
/// are the inputs of the sample before, which the first has not.
fn take_all(
    members: &mut [Member],
    is_first: bool,
    last: &ArrayVec<i128, 4>,
    sample: &Sample,
    room: &mut Room,
    offered: Option<&[Option<Cert>]>,
    models: &mut ArrayVec<ModelRec, 16>,
) -> Result<(), Refused>
    requires few { length members.old ≤ 16 }
    requires counts { All (HasPlantOf (length sample.now.u.items) (length sample.now.y.items)) members.old }
    requires last_inputs { is_first ≡ false → length last.now.items ≡ length sample.now.u.items }
    requires last_small { AllWithinLimit input_limit last.now.items }
    requires offers { IfSome offered (λ offers. length offers.now ≡ length members.old) }
    ensures taken { OnOk result (MembersTake is_first last.now.items (sample_of sample.now) offered.entry
        members.old (map model_seen models.new.items) members.new) }
    ensures refused { IfErr result (λ refused. RefusesMember is_first last.now.items (sample_of sample.now) offered.entry
        members.old (refusal_with refused models.new.items)) }
    ensures due { offered.entry ≡ None → IsOk result }
    ensures counts { All (HasPlantOf (length sample.now.u.items) (length sample.now.y.items)) members.new }
{
    models.clear();
    for i in 0..members.len() {
        let member = &mut members[i];
        let claim = claim_on(offered, i);
        match member.take(i as u32, is_first, last, sample, room, claim) {
            Ok(told) => add(models, told),
            Err(Unjustified { outs, why }) => {
                return Err(Refused {
                    model: i as u32,
                    why,
                    preds: outs,
                });
            }
        }
    }
    Ok(())
}

/// Puts what is told of a model, if anything, behind what is told of the others.
#[inline]
fn add(models: &mut ArrayVec<ModelRec, 16>, told: Option<ModelRec>)
    requires { length models.old.items < 16 }
    ensures { models.new.items ≡ models.old.items ++ option_to_list told }
{
    if let Some(model) = told {
        models.push(model);
    }
}

/// Tells whether each member is live.
fn tell_possible(members: &[Member], possible: &mut ArrayVec<bool, 16>)
    requires { length members.now ≤ 16 }
    ensures { possible.new.items ≡ map (λ m. m.live) members.now }
{
    possible.clear();
    for member in members {
        possible.push(member.is_live());
    }
}

/// Puts these inputs in the place of the last.
fn replace(last: &mut ArrayVec<i128, 4>, inputs: &[i128])
    requires { length inputs.now ≤ 4 }
    ensures { last.new.items ≡ inputs.now }
{
    last.clear();
    for v in inputs {
        last.push(*v);
    }
}
