//! The observer of one model: what its sets predict of a sample, and what a sample says of it.
#![tactic(auto)]

ghost use Rattle.observer_step.specs.Laws.{
  BeginHolds,
  PredictKeeps,
  CorrectKeeps,
  ReadyHolds,
  CorrectedHolds,
  HullContains,
  DueHasNone,
  ExcludedStays,
  LaterChangesNothing,
};
ghost use Rattle.observer_step.specs.SetsLaws.{
  PredictedSetsHold,
  CorrectedSetsHold,
  SetsHullContains,
  MissedHasNone,
  RefutedHasNone,
  LaterSetsChangeNothing,
};
ghost use Rattle.observer_step.specs.SetsAnswers.{ChosenIsJustified};

mod ahead;
mod est;
mod inputs;
mod offer;
mod outcome;
mod pass;
mod readings;
mod room;
mod rows;

pub use est::Est;
pub use outcome::{Judgement, Kept, NotJustified, Outcome, Unjustified};
pub use room::Room;

/// How many columns a set keeps between samples.
const PLAIN_COLUMNS: usize = 48;

/// The laws of one set that follows a plant by itself: every trajectory is inside after each operation, and where a reading
/// misses there is none.
pub fn laws()
    ensures begun { BeginHolds }
    ensures predict { PredictKeeps }
    ensures correct { CorrectKeeps }
    ensures predicted { ReadyHolds }
    ensures corrected { CorrectedHolds }
    ensures hull { HullContains }
    ensures excluded { DueHasNone }
    ensures stays { ExcludedStays }
    ensures later { LaterChangesNothing }
{}

/// The laws of an estimate, a plain set and one with rows side by side: every trajectory is in both, for all kept rows by one choice of
/// symbols; where a reading misses, or multipliers refute the kept rows, there is none. What `run` may choose is justified.
pub fn laws_of_sets()
    ensures predicted { PredictedSetsHold }
    ensures corrected { CorrectedSetsHold }
    ensures hull { SetsHullContains }
    ensures missed { MissedHasNone }
    ensures refuted { RefutedHasNone }
    ensures later { LaterSetsChangeNothing }
    ensures chosen { ChosenIsJustified }
{}
