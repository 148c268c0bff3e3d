//! What a report has to say, and what its lines claim of the trajectories of the models. Definitions stand in `specs/`; the laws of
//! reports are the contract of `laws`.
#![tactic(auto)]

ghost use Rattle.report_rules.specs.Laws.{
  HullsAreSound,
  ExclusionsAreSound,
  MissesAreTold,
  EstimateIsSound,
  EstimateRefutes,
  RunIsAccepted,
  DueIsChosen,
};

/// The laws of reports: hulls hold every trajectory, an excluded model has none, a missed interval is told, and what `run` may put is
/// accepted.
pub fn laws()
    ensures hulls { HullsAreSound }
    ensures exclusions { ExclusionsAreSound }
    ensures misses { MissesAreTold }
    ensures estimate { EstimateIsSound }
    ensures candidates { EstimateRefutes }
    ensures run { RunIsAccepted }
    ensures due { DueIsChosen }
{}
