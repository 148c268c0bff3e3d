//! What the models that are still possible say of the unit.
ghost use Rattle.std.specs.Prelude.{◌≡◌, ℕ, ◌<◌, ◌≤◌, length};
ghost use Rattle.isolate_core.specs.Verdict.{verdict_of, possible_models, with_model};

/// The models that are still possible. Model 0 is the nominal one.
#[derive(Clone, Copy, Debug, PartialEq, Eq)]
pub enum Verdict {
    /// No model.
    None,
    /// One model alone, by its index.
    Isolated(u32),
    /// The nominal model and at least one other.
    Several,
    /// At least two models, the nominal one not among them.
    Fault,
}

/// The verdict on one truth value for each model, by index: whether the model is still possible.
pub fn judge(possible: &[bool]) -> Verdict
    requires some { 1 ≤ length possible.now }
    requires few { length possible.now ≤ 16 }
    ensures { result ≡ verdict_of (possible_models possible.now) }
{
    let mut verdict = Verdict::None;
    for (i, is_possible) in possible.iter().enumerate() {
        if *is_possible {
            verdict = with_model(verdict, i as u32);
        }
    }
    verdict
}

/// The verdict once a model with a greater index is found possible too.
fn with_model(verdict: Verdict, index: u32) -> Verdict
    ensures { result ≡ with_model verdict index }
{
    match verdict {
        Verdict::None => Verdict::Isolated(index),
        Verdict::Isolated(0) => Verdict::Several,
        Verdict::Isolated(_) => Verdict::Fault,
        Verdict::Several => Verdict::Several,
        Verdict::Fault => Verdict::Fault,
    }
}
