//! One model of a bank, of any number of states.

ghost use Rattle.std.specs.Prelude.{◌≡◌, true, false, IfOk, IfErr, length, option_map};
ghost use Rattle.std.specs.List.{list_all};
ghost use Rattle.set_rules.specs.Limits.{input_limit};
ghost use Rattle.plant_model.specs.Plant.{AllWithinLimit};
ghost use Rattle.plant_model.specs.Seen.{plant_of, sample_of};
ghost use Rattle.observer_step.specs.Seen.{is_printable_interval};

use crate::ModelRec;
use crate::claim::Claim;
use crate::follower::Follower;
use arrayvec::ArrayVec;
use observer_step::{Room, Unjustified};
use plant_model::{AnyPlant, Sample};
use std::marker::Model;

/// A model of a plant of 1 to 8 states.
#[derive(Drop)]
pub enum AnyFollower {
    N1(Follower<1>),
    N2(Follower<2>),
    N3(Follower<3>),
    N4(Follower<4>),
    N5(Follower<5>),
    N6(Follower<6>),
    N7(Follower<7>),
    N8(Follower<8>),
}

/// One model of a bank: its plant, its estimate, and whether it fits every sample so far.
#[derive(Drop)]
pub struct Member {
    follower: AnyFollower,
}

impl Model for Member {
    ghost use Rattle.model_bank.specs.Bank.{Member as TheMember};

    ghost Value = { TheMember };

    ghost use Rattle.model_bank.specs.Members.{member_of};

    ghost view = { λ m. member_of m.follower };
}

impl Member {
    ghost use Rattle.model_bank.specs.Bank.{begun};
    ghost use Rattle.model_bank.specs.Seen.{model_seen};
    ghost use Rattle.model_bank.specs.Claims.{MemberTakes, MemberRefuses};

    /// The model of a plant before the first sample.
    pub fn begin(plant: AnyPlant) -> Member
        ensures { result ≡ begun (plant_of plant) }
    {
        Member {
            follower: follower(plant),
        }
    }

    /// Whether it fits every sample so far.
    pub fn is_live(&self) -> bool
        ensures { result ≡ self.now.live }
    {
        is_live(&self.follower)
    }

    /// What a sample makes of the model, where it is live, or why it refuses what is claimed of it; `last` are the inputs
    /// of the sample before, which the first has not.
    pub fn take(
        &mut self,
        index: u32,
        is_first: bool,
        last: &ArrayVec<i128, 4>,
        sample: &Sample,
        room: &mut Room,
        claim: Claim,
    ) -> Result<Option<ModelRec>, Unjustified>
        requires inputs { length sample.now.u.items ≡ self.old.plant.inputs }
        requires outputs { length sample.now.y.items ≡ self.old.plant.outputs }
        requires last_inputs { is_first ≡ false → length last.now.items ≡ self.old.plant.inputs }
        requires last_small { AllWithinLimit input_limit last.now.items }
        ensures taken { IfOk result (λ told. MemberTakes is_first last.now.items (sample_of sample.now) index
            self.old self.new claim (option_map model_seen told)) }
        ensures refused { IfErr result (MemberRefuses is_first last.now.items (sample_of sample.now) self.old claim) }
        ensures printable { IfErr result (λ e. list_all is_printable_interval e.outs.items ≡ true) }
        ensures plant { self.new.plant ≡ self.old.plant }
    {
        take(
            &mut self.follower,
            index,
            is_first,
            last,
            sample,
            room,
            claim,
        )
    }
}

ghost use Rattle.model_bank.specs.Bank.{begun};
ghost use Rattle.model_bank.specs.Seen.{model_seen};
ghost use Rattle.model_bank.specs.Claims.{MemberTakes, MemberRefuses};
ghost use Rattle.model_bank.specs.Members.{member_of};

/// The follower of a plant before the first sample.
fn follower(plant: AnyPlant) -> AnyFollower
    ensures { member_of result ≡ begun (plant_of plant) }
{
    match plant {
        AnyPlant::N1(p) => AnyFollower::N1(Follower::begin(p)),
        AnyPlant::N2(p) => AnyFollower::N2(Follower::begin(p)),
        AnyPlant::N3(p) => AnyFollower::N3(Follower::begin(p)),
        AnyPlant::N4(p) => AnyFollower::N4(Follower::begin(p)),
        AnyPlant::N5(p) => AnyFollower::N5(Follower::begin(p)),
        AnyPlant::N6(p) => AnyFollower::N6(Follower::begin(p)),
        AnyPlant::N7(p) => AnyFollower::N7(Follower::begin(p)),
        AnyPlant::N8(p) => AnyFollower::N8(Follower::begin(p)),
    }
}

/// Whether it fits every sample so far.
fn is_live(follower: &AnyFollower) -> bool
    ensures { result ≡ (member_of follower.now).live }
{
    match follower {
        AnyFollower::N1(f) => f.is_live(),
        AnyFollower::N2(f) => f.is_live(),
        AnyFollower::N3(f) => f.is_live(),
        AnyFollower::N4(f) => f.is_live(),
        AnyFollower::N5(f) => f.is_live(),
        AnyFollower::N6(f) => f.is_live(),
        AnyFollower::N7(f) => f.is_live(),
        AnyFollower::N8(f) => f.is_live(),
    }
}

/// What a sample makes of the model, where it is live, or why it refuses what is claimed of it.
fn take(
    follower: &mut AnyFollower,
    index: u32,
    is_first: bool,
    last: &ArrayVec<i128, 4>,
    sample: &Sample,
    room: &mut Room,
    claim: Claim,
) -> Result<Option<ModelRec>, Unjustified>
    requires inputs { length sample.now.u.items ≡ (member_of follower.old).plant.inputs }
    requires outputs { length sample.now.y.items ≡ (member_of follower.old).plant.outputs }
    requires last_inputs { is_first ≡ false → length last.now.items ≡ (member_of follower.old).plant.inputs }
    requires last_small { AllWithinLimit input_limit last.now.items }
    ensures taken { IfOk result (λ told. MemberTakes is_first last.now.items (sample_of sample.now) index
        (member_of follower.old) (member_of follower.new) claim (option_map model_seen told)) }
    ensures refused { IfErr result
        (MemberRefuses is_first last.now.items (sample_of sample.now) (member_of follower.old) claim) }
    ensures printable { IfErr result (λ e. list_all is_printable_interval e.outs.items ≡ true) }
    ensures plant { (member_of follower.new).plant ≡ (member_of follower.old).plant }
{
    match follower {
        AnyFollower::N1(f) => f.take(index, is_first, last, sample, room, claim),
        AnyFollower::N2(f) => f.take(index, is_first, last, sample, room, claim),
        AnyFollower::N3(f) => f.take(index, is_first, last, sample, room, claim),
        AnyFollower::N4(f) => f.take(index, is_first, last, sample, room, claim),
        AnyFollower::N5(f) => f.take(index, is_first, last, sample, room, claim),
        AnyFollower::N6(f) => f.take(index, is_first, last, sample, room, claim),
        AnyFollower::N7(f) => f.take(index, is_first, last, sample, room, claim),
        AnyFollower::N8(f) => f.take(index, is_first, last, sample, room, claim),
    }
}
