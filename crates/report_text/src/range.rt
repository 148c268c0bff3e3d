//! Whether what a line says is within the ranges.
ghost use Rattle.std.specs.Prelude.{◌≡◌, true};
ghost use Rattle.farkas_check.specs.Certificate.{certificate_of};
ghost use Rattle.report_text.specs.Line.{is_printable};
ghost use Rattle.report_text.specs.Ranges.{is_in_range, is_interval, is_certificate, rise_from, is_verdict};
ghost use Rattle.report_text.specs.Seen.{line_of};

use crate::RepLine;
use crate::words::is_model_name;
use farkas_check::Cert;
use isolate_core::Verdict;

const MODELS: u32 = 16;

const OUTPUTS: u32 = 6;

const STATES: u32 = 8;

const SAMPLES: u64 = 1 << 63;

const MOST_MULTIPLIERS: usize = 6;

/// The greatest magnitude of an end of an interval.
const MOST_END: u128 = 1_000_000_000_000_000_000_000_000;

/// Whether what a line says is within the ranges.
pub fn is_in_range(rep: &RepLine) -> bool
    ensures { result ≡ is_in_range (line_of rep.now) }
{
    match rep {
        RepLine::Title => true,
        RepLine::Model { index, name } => *index < MODELS && is_model_name(name.as_bytes()),
        RepLine::Sample { k } => *k < SAMPLES,
        RepLine::Pred {
            model,
            output,
            lo,
            hi,
        } => *model < MODELS && *output < OUTPUTS && is_interval(*lo, *hi),
        RepLine::Exclude { model, cert } => *model < MODELS && is_certificate(cert),
        RepLine::Hull {
            model,
            state,
            lo,
            hi,
        } => *model < MODELS && *state < STATES && is_interval(*lo, *hi),
        RepLine::Status { model, .. } => *model < MODELS,
        RepLine::Possible { models } => rise(models),
        RepLine::Verdict(verdict) => is_verdict(*verdict),
        RepLine::End { samples } => *samples < SAMPLES,
    }
}

fn is_interval(lo: i128, hi: i128) -> bool
    ensures { result ≡ is_interval lo hi }
{
    is_printable(lo) && is_printable(hi)
}

fn is_printable(v: i128) -> bool
    ensures { result ≡ is_printable v }
{
    v.unsigned_abs() <= MOST_END
}

fn is_certificate(cert: &Cert) -> bool
    ensures { result ≡ is_certificate (certificate_of cert.now) }
{
    match cert {
        Cert::Out(output) => *output < OUTPUTS,
        // By their type there is one at least, and each is small.
        Cert::Rows(multipliers) => multipliers.len() <= MOST_MULTIPLIERS,
    }
}

/// Whether these are indices of models, each greater than the one before.
fn rise(models: &[u32]) -> bool
    ensures { result ≡ rise_from 0 models.now }
{
    let mut least = 0;
    for model in models {
        if *model < least || *model >= MODELS {
            return false;
        }
        least = *model + 1;
    }
    true
}

fn is_verdict(verdict: Verdict) -> bool
    ensures { result ≡ is_verdict verdict }
{
    match verdict {
        Verdict::Isolated(model) => model < MODELS,
        _ => true,
    }
}
