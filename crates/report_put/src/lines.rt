//! Puts the lines of a report, one by one.
ghost use Rattle.std.specs.Prelude.{◌≡◌, ◌≤◌, true, [], ◌∷◌, ◌++◌, length, map, flat_map, not};
ghost use Rattle.std.specs.List.{list_all};
ghost use Rattle.farkas_check.specs.Certificate.{certificate_of};
ghost use Rattle.isolate_core.specs.Verdict.{possible_models};
ghost use Rattle.observer_step.specs.Seen.{is_printable_interval, was_widened};
ghost use Rattle.model_bank.specs.Bank.{names_in};
ghost use Rattle.model_bank.specs.Seen.{model_seen, sample_seen};
ghost use Rattle.report_text.specs.Line.{has_printable_ends, sample, model, pred, exclude, hull, status, possible, verdict, end};
ghost use Rattle.report_text.specs.Seen.{line_of};
ghost use Rattle.report_rules.specs.Lines.{head_lines, sample_lines, model_lines, pred_lines, hull_lines};
ghost use Rattle.report_put.specs.Put.{PutsLines, model_outcome};

use arrayvec::{ArrayString, ArrayVec};
use dec_text::Line;
use farkas_check::Cert;
use model_bank::{ModelRec, SampleRec};
use model_file::Bank0;
use observer_step::{Kept, Outcome};
use outside_io::{PutFault, Sink, put_all};
use report_text::{RepLine, push_line};

/// Puts the title and the names of the models, or on a fault a front of them.
pub fn put_head<O: Sink>(out: &mut O, models: &Bank0) -> Result<(), PutFault>
    ensures { PutsLines (head_lines (names_in models.now)) (O.state out.old) result (O.state out.new) }
{
    put_line(out, &RepLine::Title)?;
    for i in 0..models.count() {
        put_name(out, i as u32, models.name(i))?;
    }
    Ok(())
}

/// Puts the lines of a sample, or on a fault a front of them.
pub fn put_sample<O: Sink>(out: &mut O, rec: &SampleRec) -> Result<(), PutFault>
    ensures { PutsLines (sample_lines (sample_seen rec.now)) (O.state out.old) result (O.state out.new) }
{
    put_line(out, &RepLine::Sample { k: rec.k })?;
    put_models(out, &rec.models)?;
    put_closing(out, rec)
}

/// Puts the lines of sample `k` up to the predictions of a model that is refused, behind those of the live models below it;
/// or on a fault a front of them.
pub fn put_refused<O: Sink>(
    out: &mut O,
    k: u64,
    below: &[ModelRec],
    model: u32,
    preds: &[(i128, i128)],
) -> Result<(), PutFault>
    requires few { length preds.now ≤ 6 }
    requires printable { list_all is_printable_interval preds.now ≡ true }
    ensures { PutsLines (sample k ∷ flat_map model_lines (map model_seen below.now) ++ pred_lines model preds.now)
        (O.state out.old) result (O.state out.new) }
{
    put_line(out, &RepLine::Sample { k })?;
    put_models(out, below)?;
    put_preds(out, model, preds)
}

/// Puts the last line, the number of samples, or on a fault a front of it.
pub fn put_end<O: Sink>(out: &mut O, samples: u64) -> Result<(), PutFault>
    ensures { PutsLines (end samples ∷ []) (O.state out.old) result (O.state out.new) }
{
    put_line(out, &RepLine::End { samples })
}

/// Puts a line with its line feed.
fn put_line<O: Sink>(out: &mut O, rep: &RepLine) -> Result<(), PutFault>
    requires { has_printable_ends (line_of rep.now) ≡ true }
    ensures { PutsLines (line_of rep.now ∷ []) (O.state out.old) result (O.state out.new) }
{
    let mut line = Line::new();
    push_line(rep, &mut line);
    line.push(b'\n');
    put_all(out, &line)
}

/// Puts the name of a model.
fn put_name<O: Sink>(out: &mut O, index: u32, name: &str) -> Result<(), PutFault>
    requires { length name.now ≤ 32 }
    ensures { PutsLines (model index name.now ∷ []) (O.state out.old) result (O.state out.new) }
{
    let mut own = ArrayString::new();
    own.push_str(name);
    put_line(out, &RepLine::Model { index, name: own })
}

/// Puts the lines of models that were live before a sample.
fn put_models<O: Sink>(out: &mut O, models: &[ModelRec]) -> Result<(), PutFault>
    ensures { PutsLines (flat_map model_lines (map model_seen models.now)) (O.state out.old) result (O.state out.new) }
{
    for model in models {
        put_model(out, model)?;
    }
    Ok(())
}

/// Puts the lines of a model.
fn put_model<O: Sink>(out: &mut O, rec: &ModelRec) -> Result<(), PutFault>
    ensures { PutsLines (model_lines (model_seen rec.now)) (O.state out.old) result (O.state out.new) }
{
    put_preds(out, rec.index, &rec.preds)?;
    put_outcome(out, rec)
}

/// Puts the predicted output intervals of a model.
fn put_preds<O: Sink>(out: &mut O, index: u32, preds: &[(i128, i128)]) -> Result<(), PutFault>
    requires few { length preds.now ≤ 6 }
    requires printable { list_all is_printable_interval preds.now ≡ true }
    ensures { PutsLines (pred_lines index preds.now) (O.state out.old) result (O.state out.new) }
{
    for (o, ends) in preds.iter().enumerate() {
        put_pred(out, index, o as u32, *ends)?;
    }
    Ok(())
}

/// Puts the predicted interval of an output.
fn put_pred<O: Sink>(
    out: &mut O,
    model: u32,
    output: u32,
    ends: (i128, i128),
) -> Result<(), PutFault>
    requires { is_printable_interval ends ≡ true }
    ensures { PutsLines (pred model output ends.0 ends.1 ∷ []) (O.state out.old) result (O.state out.new) }
{
    let line = RepLine::Pred {
        model,
        output,
        lo: ends.0,
        hi: ends.1,
    };
    put_line(out, &line)
}

/// Puts what a sample says of a model.
fn put_outcome<O: Sink>(out: &mut O, rec: &ModelRec) -> Result<(), PutFault>
    ensures { PutsLines (model_outcome (model_seen rec.now)) (O.state out.old) result (O.state out.new) }
{
    match rec.outcome {
        Outcome::Excluded(cert) => put_exclusion(out, rec.index, cert),
        Outcome::Fits => {
            put_hulls(out, rec.index, &rec.hulls)?;
            put_status(out, rec)
        }
    }
}

/// Puts that a model is excluded.
fn put_exclusion<O: Sink>(out: &mut O, model: u32, cert: Cert) -> Result<(), PutFault>
    ensures { PutsLines (exclude model (certificate_of cert) ∷ []) (O.state out.old) result (O.state out.new) }
{
    put_line(out, &RepLine::Exclude { model, cert })
}

/// Puts the hulls of a model.
fn put_hulls<O: Sink>(out: &mut O, index: u32, hulls: &[(i128, i128)]) -> Result<(), PutFault>
    requires few { length hulls.now ≤ 8 }
    requires printable { list_all is_printable_interval hulls.now ≡ true }
    ensures { PutsLines (hull_lines index hulls.now) (O.state out.old) result (O.state out.new) }
{
    for (x, ends) in hulls.iter().enumerate() {
        put_hull(out, index, x as u32, *ends)?;
    }
    Ok(())
}

/// Puts the hull of a state.
fn put_hull<O: Sink>(
    out: &mut O,
    model: u32,
    state: u32,
    ends: (i128, i128),
) -> Result<(), PutFault>
    requires { is_printable_interval ends ≡ true }
    ensures { PutsLines (hull model state ends.0 ends.1 ∷ []) (O.state out.old) result (O.state out.new) }
{
    let line = RepLine::Hull {
        model,
        state,
        lo: ends.0,
        hi: ends.1,
    };
    put_line(out, &line)
}

/// Puts whether a model that stays fits.
fn put_status<O: Sink>(out: &mut O, rec: &ModelRec) -> Result<(), PutFault>
    ensures { PutsLines (status rec.now.index (not (was_widened rec.now.kept)) ∷ []) (O.state out.old) result (O.state out.new) }
{
    let line = RepLine::Status {
        model: rec.index,
        kept: rec.kept == Kept::Imaged,
    };
    put_line(out, &line)
}

/// Puts the models that are still possible, and the verdict on them.
fn put_closing<O: Sink>(out: &mut O, rec: &SampleRec) -> Result<(), PutFault>
    ensures { PutsLines (possible (possible_models rec.now.possible.items) ∷ verdict rec.now.verdict ∷ [])
        (O.state out.old) result (O.state out.new) }
{
    let line = RepLine::Possible {
        models: possible_indices(&rec.possible),
    };
    put_line(out, &line)?;
    put_line(out, &RepLine::Verdict(rec.verdict))
}

/// The indices of the models that are possible.
fn possible_indices(possible: &[bool]) -> ArrayVec<u32, 16>
    requires { length possible.now ≤ 16 }
    ensures { result.items ≡ possible_models possible.now }
{
    let mut models = ArrayVec::new();
    for (i, is_possible) in possible.iter().enumerate() {
        if *is_possible {
            models.push(i as u32);
        }
    }
    models
}
