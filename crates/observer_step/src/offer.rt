//! A certificate, or none, that is offered for a sample.

ghost use Rattle.std.specs.Prelude.{◌≡◌, option_map};
ghost use Rattle.farkas_check.specs.Certificate.{certificate_of};
ghost use Rattle.set_rules.specs.Farkas.{passes as passes_of};
ghost use Rattle.observer_step.specs.Answers.{is_justified as is_justified_of};
ghost use Rattle.observer_step.specs.Offers.{offers_output};
ghost use Rattle.observer_step.specs.Seen.{certificate_in};

use crate::Outcome;
use farkas_check::{Cert, passes};
use fixed_mat::Rows;

/// Whether what is offered is justified where this output is due, or none, and these rows are kept.
pub fn is_justified(due: Option<u32>, rows: &Rows, offered: &Option<Cert>) -> bool
    ensures { result ≡ is_justified_of due (passes_of rows.now.width rows.now.rows) (option_map certificate_of offered.now) }
{
    match (due, offered) {
        (None, None) => true,
        (None, Some(Cert::Rows(multipliers))) => passes(rows, multipliers.list()),
        (Some(o), Some(Cert::Out(p))) => *p == o,
        _ => false,
    }
}

/// Whether an output is offered.
pub fn offers_output(offered: &Option<Cert>) -> bool
    ensures { result ≡ offers_output (option_map certificate_of offered.now) }
{
    match offered {
        Some(Cert::Out(_)) => true,
        Some(Cert::Rows(_)) | None => false,
    }
}

/// The outcome by this certificate, or by none.
pub fn outcome_by(cert: Option<Cert>) -> Outcome
    ensures { certificate_in result ≡ option_map certificate_of cert }
{
    match cert {
        Some(cert) => Outcome::Excluded(cert),
        None => Outcome::Fits,
    }
}
