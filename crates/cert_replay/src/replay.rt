//! A report that is replayed: what the samples say of the models, beside the lines that the report has.
ghost use Rattle.std.specs.Prelude.{◌≡◌, ℕ, ◌+◌, ◌<◌, ◌≤◌, ◌^◌, List, [], ◌∷◌, ◌++◌, length, true, IfErr, IfOk, OnOk};
ghost use Rattle.outside_io.specs.Causes.{Rose};
ghost use Rattle.plant_model.specs.Plant.{Plant, Sample as OneSample};
ghost use Rattle.plant_model.specs.Seen.{sample_of};
ghost use Rattle.input_files.specs.Stream.{ReadsOn};
ghost use Rattle.cert_replay.specs.Outcome.{IfRead};

use crate::counts::LineCounts;
use crate::fault::CheckFault;
use crate::offers::take_sample;
use crate::window::Window;
use arrayvec::ArrayVec;
use model_bank::{Bank, SampleRec};
use outside_io::Shelf;
use plant_model::Sample;

/// The bank of the models, how many lines these have, what the last sample made of them, and the report.
#[derive(Drop)]
pub struct Replay {
    pub bank: Bank,
    pub counts: LineCounts,
    pub last: SampleRec,
    pub window: Window,
}

impl Replay {
    ghost use Rattle.cert_replay.specs.Ahead.{IsBehind};
    ghost use Rattle.cert_replay.specs.Faults.{IsSampleFault};
    ghost use Rattle.cert_replay.specs.Checked.{AreModels, Checked, IsReady, DepartsInSample};

    /// Takes the lines of a sample, judges every live model by what they offer for it, and compares them with what follows.
    pub fn check_sample<F: Shelf>(
        &mut self,
        shelf: &mut F,
        sample: &Sample,
    ) -> Result<(), CheckFault>
        requires attached { ((F.state shelf.old).slot 2).attached ≡ true }
        requires inputs { length sample.now.u.items ≡ self.old.bank.inputs }
        requires outputs { length sample.now.y.items ≡ self.old.bank.outputs }
        requires ready { IsReady self.old }
        requires counted { self.old.bank.count < 2 ^ 32 }
        ensures taken { OnOk result ((names : List (List ℕ)) (ps : List Plant) (taken : List OneSample) (bytes : List ℕ)
            → AreModels names ps self.old.counts → Checked names ps taken bytes self.old (F.state shelf.old)
            → Checked names ps (taken ++ sample_of sample.now ∷ []) bytes self.new (F.state shelf.new)) }
        ensures departs { IfErr result (λ fault. (names : List (List ℕ)) (ps : List Plant) (taken : List OneSample) (bytes : List ℕ)
            → AreModels names ps self.old.counts → Checked names ps taken bytes self.old (F.state shelf.old)
            → DepartsInSample names ps taken (sample_of sample.now) bytes fault) }
        ensures behind { IfErr result (IsBehind self.old.window.lines) }
        ensures ready { OnOk result (IsReady self.new) }
        ensures inputs { self.new.bank.inputs ≡ self.old.bank.inputs }
        ensures outputs { self.new.bank.outputs ≡ self.old.bank.outputs }
        ensures count { OnOk result (self.new.bank.count ≡ self.old.bank.count + 1) }
        ensures counts { self.new.counts ≡ self.old.counts }
        ensures fault { IfErr result IsSampleFault }
        ensures read { IfRead result (λ slot. Rose ((F.state shelf.old).slot 2).faults ((F.state shelf.new).slot 2).faults) }
        ensures kept { ReadsOn 2 (F.state shelf.old) (F.state shelf.new) }
    {
        let lives = live_models(&self.last.possible, self.counts.models());
        let offers = take_sample(&mut self.window, shelf, &self.counts, &lives)?;
        let k = self.bank.count();
        match self.bank.step_with_into(sample, &offers, &mut self.last) {
            Ok(()) => self.window.compare_sample(&self.last),
            Err(refused) => Err(self.window.compare_refused(k, &self.last.models, &refused)),
        }
    }
}

/// Whether each of so many models is live: where it is possible.
fn live_models(possible: &[bool], models: usize) -> ArrayVec<bool, 16>
    requires { models ≤ 16 }
    ensures as_many { length result.items ≡ models }
    ensures same { length possible.now ≡ models → result.items ≡ possible.now }
{
    let mut lives = ArrayVec::new();
    for i in 0..models {
        lives.push(i < possible.len() && possible[i]);
    }
    lives
}
